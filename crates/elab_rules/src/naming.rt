// New names.
ghost use Rattle.std.specs.Prelude.{◌≡◌, IfOk, OnOk, length};
ghost use Rattle.elab_rules.specs.Standing.{Mentions};
ghost use Rattle.elab_rules.specs.States.{with_name, within};
ghost use Rattle.elab_rules.specs.Views.{state_of};

use crate::progress::Progress;
use sig_base::{NoMemory, Text};
use std::alloc::Global;
use type_core::{Equality, NameId};

/// The path of what is described in a body of a path.
pub fn within(alloc: Global, path: &[u8], id: &[u8]) -> Result<Text, NoMemory>
    ensures value { IfOk result (λ whole. whole ≡ within path.now id.now) }
{
    let mut whole = Text::from_slice(alloc, path)?;
    whole.push(b'.')?;
    whole.extend(id)?;
    Ok(whole)
}

impl Progress {
    /// A new name, which gets the next number.
    pub fn describe(
        &mut self,
        alloc: Global,
        path: &[u8],
        id: &[u8],
        arity: u32,
        equality: Equality,
    ) -> Result<NameId, NoMemory>
        ensures number { IfOk result (λ n. n.0 ≡ length (state_of self.old).names) }
        ensures described { OnOk result (state_of self.new ≡ with_name (within path.now id.now) arity equality (state_of self.old)) }
        ensures mentions { OnOk result (Mentions self.old self.new) }
    {
        if self.table.len() == u32::MAX {
            return Err(NoMemory);
        }
        self.table.is_sound();
        let path = within(alloc, path, id)?;
        self.table.describe(path, arity, equality)
    }
}
