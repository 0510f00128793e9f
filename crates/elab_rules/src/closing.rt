// Types as schemes.
ghost use Rattle.std.specs.Prelude.{◌≡◌, IfOk};
ghost use Rattle.type_core.specs.Schemes.{closed};

use sig_base::NoMemory;
use std::alloc::Global;
use type_core::{Scheme, Ty, close, size};

/// The type as a scheme. A tree of 2^32 nodes wants more memory than there is.
pub fn scheme_of(alloc: Global, t: &Ty) -> Result<Scheme, NoMemory>
    ensures value { IfOk result (λ s. s ≡ closed t.now) }
{
    if size(t) > u32::MAX as u64 {
        return Err(NoMemory);
    }
    close(alloc, t)
}
