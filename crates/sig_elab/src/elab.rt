// The elaborator of files.
ghost use Rattle.std.specs.Prelude.{◌≡◌, IfOk, OnErr};
ghost use Rattle.sml_lexer.specs.Tokens.{tokens as tokens_of};
ghost use Rattle.sig_parser.specs.Files.{File};
ghost use Rattle.ty_parser.specs.Sorts.{sorts_of};
ghost use Rattle.type_core.specs.ValidLibrary.{IsValidLibrary};
ghost use Rattle.sig_elab.specs.Elaborators.{GivesBasis, basis_of};
ghost use Rattle.elab_rules.specs.Files.{elaborated};
ghost use Rattle.elab_rules.specs.Library.{empty_basis, library};
ghost use Rattle.elab_rules.specs.Outcome.{Agrees};
ghost use Rattle.elab_soundness.specs.Soundness.{IsSoundBasis};
ghost use Rattle.elab_types.specs.Sources.{AreWithin, texts_of};

use crate::declarations::declare_all;
use crate::draft::Draft;
use crate::keeping::{all_names, numbers_kept};
use crate::listing::{all_members, all_tycons, all_units};
use crate::totals::Totals;
use elab_phrases::renumbering::{Numbering, units_renumbered};
use elab_rules::index::index_of;
use elab_rules::initial::initial_environment;
use elab_rules::progress::Progress;
use elab_rules::refusal::ElabRefusal;
use elab_rules::scope::Scope;
use elab_rules::units::Units;
use elab_soundness::libraries_of_accepted_files_are_valid;
use elab_types::{Source, first_tokens, tokens_within};
use sig_base::NoMemory;
use sig_parser::SourceFile;
use sml_lexer::Token;
use std::alloc::Global;
use std::marker::Model;
use type_core::Library;

/// Elaborates signature files one after another, and gives the library of what they describe. Contracts
/// see it as its basis.
#[derive(Drop)]
pub struct Elab {
    alloc: Global,
    units: Units,
    progress: Progress,
    totals: Totals,
}

impl Model for Elab {
    ghost use Rattle.std.specs.Coded.{codes};
    ghost use Rattle.type_core.specs.contracts.ty.Ty as types;
    ghost use Rattle.elab_rules.specs.contracts.entry.Entry as entries;
    ghost use Rattle.elab_rules.specs.Library.{Basis};

    ghost Value = { Basis };

    ghost coded = { Prim.hlevel (codes, types.the_row.coded, entries.the_row.coded) };

    ghost use Rattle.sig_elab.specs.Kept.{IsSound};
    ghost use Rattle.elab_rules.specs.Views.{state_of};

    ghost view = { λ e. record { units = e.units.entries.items; state = state_of e.progress } };

    ghost invariant = { λ e. IsSound e.units e.progress e.totals };
}

// How far a file comes.
fn elaborate_file<'a>(
    alloc: Global,
    file: &SourceFile,
    tokens: &[Token],
    bytes: &[u8],
    draft: Draft<'a>,
) -> Result<Draft<'a>, ElabRefusal>
    requires tokens { tokens_of bytes.now tokens.now }
    requires phrase { File (sorts_of bytes.now tokens.now) file.now }
    requires sound { IsSoundBasis (basis_of draft) }
    ensures outcome { GivesBasis (elaborated (texts_of bytes.now tokens.now) file.now (basis_of draft.entry)) result }
    ensures sound { IfOk result (λ after. IsSoundBasis (basis_of after)) }
    ensures before { IfOk result (λ after. after.before.now ≡ draft.entry.before.now) }
{
    libraries_of_accepted_files_are_valid();
    tokens_within(bytes, tokens);
    let firsts = first_tokens(alloc, bytes, tokens)?;
    let initial = initial_environment(alloc)?;
    let index = index_of(alloc, initial.as_slice())?;
    let source = Source {
        bytes,
        tokens,
        firsts: firsts.as_slice(),
    };
    declare_all(
        alloc,
        &source,
        Scope {
            entries: initial.as_slice(),
            index: &index,
        },
        file.decs.as_slice(),
        draft,
    )
}

impl Elab {
    /// An elaborator that has seen no file.
    pub fn new(alloc: Global) -> Result<Elab, NoMemory>
        ensures empty { IfOk result (λ e. e ≡ empty_basis) }
    {
        libraries_of_accepted_files_are_valid();
        Ok(Elab {
            alloc,
            units: Units::new(alloc),
            progress: Progress::new(alloc)?,
            totals: Totals::none(),
        })
    }

    /// Elaborates a file, given as a tree over the tokens of its bytes, in the basis of the files before it.
    /// `Refused` names the first condition that fails, and the number of its token. After a refusal the
    /// elaborator is as before.
    pub fn add_file(
        &mut self,
        file: &SourceFile,
        tokens: &[Token],
        bytes: &[u8],
    ) -> Result<(), ElabRefusal>
        requires tokens { tokens_of bytes.now tokens.now }
        requires phrase { File (sorts_of bytes.now tokens.now) file.now }
        ensures outcome { Agrees (elaborated (texts_of bytes.now tokens.now) file.now self.old) result self.new }
        ensures kept { OnErr result (self.new ≡ self.old) }
    {
        let draft = Draft {
            before: &self.units,
            added: Units::new(self.alloc),
            progress: self.progress.copy(self.alloc)?,
            totals: self.totals,
        };
        let Draft {
            before: _,
            added,
            progress,
            totals,
        } = elaborate_file(self.alloc, file, tokens, bytes, draft)?;
        self.units.append(self.alloc, added)?;
        self.progress = progress;
        self.totals = totals;
        Ok(())
    }

    // What holds of every elaborator.
    fn is_sound(&self)
        ensures sound { IsSoundBasis self.now }
    {
        let _ = &self.units;
    }

    // What the units have, as a library.
    fn listed(&self, alloc: Global) -> Result<Library, NoMemory>
        ensures library { IfOk result (λ l. l ≡ library self.now) }
    {
        let numbers = numbers_kept(alloc, &self.progress.table)?;
        let numbering = Numbering::Kept(numbers.as_slice());
        let units = units_renumbered(alloc, self.units.entries.as_slice(), &numbering)?;
        let units = units.as_slice();
        Ok(Library {
            units: all_units(alloc, units)?,
            names: all_names(alloc, &self.progress.table)?,
            tycons: all_tycons(alloc, units)?,
            members: all_members(alloc, units)?,
        })
    }

    /// The library of the files that were added, in their order. It is valid.
    pub fn finish(&self, alloc: Global) -> Result<Library, NoMemory>
        ensures library { IfOk result (λ l. l ≡ library self.now) }
        ensures valid { IfOk result (λ l. IsValidLibrary l) }
    {
        self.is_sound();
        libraries_of_accepted_files_are_valid();
        let library = self.listed(alloc)?;
        Ok(library)
    }
}
