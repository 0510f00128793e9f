// Which calls on an object in memory fail.
ghost use Rattle.std.specs.Prelude.{◌≡◌, ◌↔◌, IsTrue, Some};
ghost use Rattle.sig_base.specs.Script.{FailsCall, CountsOn};

use crate::List;

/// The numbers of the calls that are to fail, and the number of the next call, the first being 1.
#[derive(Drop)]
pub struct Script {
    fails: List<u64>,
    next: Option<u64>,
}

impl Script {
    /// The script at its beginning.
    pub fn new(fails: List<u64>) -> Script
        ensures fails { result.fails ≡ fails }
        ensures first { result.next ≡ Some 1 }
    {
        Script {
            fails,
            next: Some(1),
        }
    }

    /// Counts a call, and says whether it fails.
    pub fn fails_now(&mut self) -> bool
        ensures fails { IsTrue result ↔ FailsCall self.old.next self.old.fails }
        ensures counted { CountsOn self.old.next self.new.next }
        ensures kept { self.new.fails ≡ self.old.fails }
    {
        let Some(number) = self.next else {
            return false;
        };
        self.next = number.checked_add(1);
        self.fails.as_slice().contains(&number)
    }
}
