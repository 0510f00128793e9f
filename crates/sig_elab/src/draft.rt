// How far a file has come.
ghost use Rattle.std.proofs.Props.{props};
ghost use Rattle.std.specs.Coded.{Coded-set, codes};
ghost use Rattle.std.specs.Prelude.{◌++◌};
ghost use Rattle.sig_elab.specs.Kept.{AreKept};
ghost use Rattle.sig_elab.specs.Totals.{AreTotals};
ghost use Rattle.elab_rules.specs.Tracking.{IsTracked};
ghost use Rattle.elab_rules.specs.Views.{state_of};
ghost use Rattle.elab_rules.specs.contracts.entry.Entry as entries;

use crate::totals::Totals;
use elab_rules::progress::Progress;
use elab_rules::units::Units;

/// How far a file has come: the units of the files before it, its own so far, the names and the weight, and
/// what all units come to.
#[derive(Drop)]
pub struct Draft<'a> {
    pub before: &'a Units,
    pub added: Units,
    pub progress: Progress,
    pub totals: Totals,
    ghost before_kept: { AreKept before.now progress } by { Prim.hlevel (props, codes, Coded-set, entries.the_row.coded) },
    ghost added_kept: { AreKept added progress } by { Prim.hlevel (props, codes, Coded-set, entries.the_row.coded) },
    ghost tracked: { IsTracked progress },
    ghost counted: { AreTotals totals (record { units = before.now.entries.items ++ added.entries.items; state = state_of progress }) },
}
