// Looking up top identifiers.
ghost use Rattle.std.specs.Prelude.{◌≡◌, not, IfSome};
ghost use Rattle.elab_rules.specs.Copies.{signature_in};
ghost use Rattle.elab_rules.specs.Files.{is_new_unit};
ghost use Rattle.elab_rules.specs.Tops.{IsTopOf};
ghost use Rattle.elab_rules.specs.LookUps.{top_structure, unit_in};
ghost use Rattle.elab_rules.specs.Views.{entries_seen, unit_seen, units_seen};

use crate::detail::Top;
use crate::scope::Scope;
use crate::tops::Tops;
use type_core::UnitKind;

impl<'a> Tops<'a> {
    /// What the top structure of this identifier has.
    pub fn find_structure(&self, id: &[u8]) -> Option<Scope<'a>>
        ensures value { entries_seen result ≡ top_structure id.now (units_seen self.now) }
    {
        let top = self.find(id)?;
        match top.unit.kind {
            UnitKind::Sig => None,
            UnitKind::Str => Some(Scope {
                entries: top.unit.entries.as_slice(),
                index: &top.detail.index,
            }),
        }
    }

    /// The signature of this identifier.
    pub fn find_signature(&self, id: &[u8]) -> Option<Top<'a>>
        ensures value { unit_seen result ≡ signature_in id.now (units_seen self.now) }
        ensures top { IfSome result (IsTopOf self.now) }
    {
        let top = self.find(id)?;
        match top.unit.kind {
            UnitKind::Sig => Some(top),
            UnitKind::Str => None,
        }
    }

    /// Whether a unit of the files before, or of this file, has the identifier.
    pub fn has(&self, id: &[u8]) -> bool
        ensures value { result ≡ not (is_new_unit id.now (units_seen self.now)) }
    {
        self.before.has(id, self.before.len()) || self.added.has(id, self.count)
    }

    // The unit of this identifier.
    fn find(&self, id: &[u8]) -> Option<Top<'a>>
        ensures value { unit_seen result ≡ unit_in id.now (units_seen self.now) }
        ensures top { IfSome result (IsTopOf self.now) }
    {
        match self.before.find(id, self.before.len()) {
            Some(found) => Some(found),
            None => self.added.find(id, self.count),
        }
    }
}
