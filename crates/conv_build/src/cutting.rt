// Cutting lists short.
ghost use Rattle.std.specs.Prelude.{◌≡◌, ◌≤◌, length, take};

use sig_base::List;

/// Leaves the first `keep` values.
pub fn cut<T: Drop>(list: &mut List<T>, keep: usize)
    requires within { keep ≤ length list.old }
    ensures value { list.new ≡ take keep list.old }
{
    while list.len() > keep {
        let _last = list.pop();
    }
}
