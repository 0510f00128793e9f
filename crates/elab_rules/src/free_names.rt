// The names that are free.
ghost use Rattle.std.specs.Prelude.{◌≡◌, IfOk};
ghost use Rattle.elab_rules.specs.Copies.{free_among};
ghost use Rattle.elab_rules.specs.Views.{state_of};

use crate::own_names::OwnNames;
use crate::progress::Progress;
use sig_base::NoMemory;
use std::alloc::Global;
use type_core::NameId;

impl OwnNames {
    /// The free names among so many from `first` on.
    pub fn among(
        alloc: Global,
        progress: &Progress,
        first: u32,
        count: u32,
    ) -> Result<OwnNames, NoMemory>
        ensures value { IfOk result (λ own. own.numbers.items ≡ free_among first count (state_of progress.now)) }
    {
        progress.table.is_sound();
        let mut own = OwnNames::new(alloc);
        for n in first..first.saturating_add(count) {
            if !progress.table.is_free(NameId(n)) {
                continue;
            }
            own = own.with(n)?;
        }
        Ok(own)
    }
}
