// Sums and lengths in 32 bits.
ghost use Rattle.std.specs.Prelude.{◌≡◌, ◌+◌, IfOk};

use sig_base::NoMemory;

/// The sum. Want of memory where it is 2^32 or more.
pub fn total(a: u32, b: u32) -> Result<u32, NoMemory>
    ensures value { IfOk result (λ sum. sum ≡ a + b) }
{
    a.checked_add(b).ok_or(NoMemory)
}

/// The same number. Want of memory where it is 2^32 or more.
pub fn number_of(count: usize) -> Result<u32, NoMemory>
    ensures value { IfOk result (λ number. number ≡ count) }
{
    u32::try_from(count).map_err(|_| NoMemory)
}
