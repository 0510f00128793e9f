// What stands between specifications and between top declarations, and what is done behind a whole one.
ghost use Rattle.std.specs.Prelude.{◌≡◌, List, [], ◌∷◌, IfOk, OnOk};
ghost use Rattle.sig_parser.specs.machine.Goals as goals;
ghost use Rattle.std.specs.Option.{option_map};
ghost use Rattle.sig_base.specs.Stacks.{last_of, before_last};
ghost use Rattle.ty_parser.specs.machine.Machine.{taken};
ghost use Rattle.ty_parser.specs.declared.sort.Sort.TheVariants.{Reserved};
ghost use Rattle.sig_base.specs.declared.word.Word.TheVariants.{KwEnd};
ghost use Rattle.sig_parser.specs.machine.Machine as machine;
ghost use Rattle.sig_parser.specs.machine.Machine.{At};
ghost use Rattle.sig_parser.specs.machine.Views.{state_of, levels, levels_over, goal_of, before_goal};

use crate::point::{Base, Cons, Goal, Group, Headed, Level, Open, Point, Reading};
use crate::tree::{Bind, SigExp, Spec, TopDec};
use sig_base::{List, NoMemory, Stack, Word};
use std::alloc::Global;
use ty_parser::{Reader as TypeReader, Sort};

/// The list of one item.
pub fn one<T: Drop>(alloc: Global, item: T) -> Result<List<T>, NoMemory>
    ensures value { IfOk result (λ all. all ≡ item ∷ []) }
{
    let mut all = Vec::with_capacity(alloc, 1)?;
    all.push(item)?;
    Ok(List::from_vec(all))
}

impl Reading {
    /// Nothing is read.
    pub fn new(alloc: Global) -> Reading
        ensures value { state_of result ≡ machine.start }
    {
        Reading {
            decs: Stack::new(alloc),
            levels: Stack::new(alloc),
            specs: Stack::new(alloc),
            bindings: Stack::new(alloc),
            body: List::new(alloc),
            parts: Stack::new(alloc),
            params: Stack::new(alloc),
            values: Stack::new(alloc),
            types: Stack::new(alloc),
            datatypes: Stack::new(alloc),
            cons: Stack::new(alloc),
            sigs: Stack::new(alloc),
            names: Stack::new(alloc),
            reader: TypeReader::new(alloc),
            point: Point::Items,
        }
    }

    #[tactic(auto, unfolding(crate::specs::machine::Machine::top_item))]
    fn top_item(&mut self, sort: Sort) -> bool
        ensures { self.old.levels ≡ []
            → taken result (state_of self.new) ≡ machine.top_item self.old.decs sort }
    {
        match sort {
            Sort::Reserved(Word::KwSignature) => {
                self.point = Point::WantId(Group::Signatures, 0);
                true
            }
            Sort::Reserved(Word::KwStructure) => {
                self.point = Point::WantId(Group::Structures, 0);
                true
            }
            Sort::Reserved(Word::KwSemicolon) => {
                self.point = Point::Items;
                true
            }
            _ => false,
        }
    }

    #[tactic(auto, unfolding(crate::specs::machine::Machine::begin_spec))]
    fn begin_spec(&mut self, sort: Sort) -> bool
        ensures { taken result (state_of self.new)
            ≡ option_map (At self.old.decs (levels self.old)) (machine.begin_spec sort) }
    {
        match sort {
            Sort::Reserved(Word::KwVal) => {
                self.values.clear();
                self.point = Point::WantVal;
                true
            }
            Sort::Reserved(Word::KwType) => {
                self.types.clear();
                self.point = Point::WantParams(Headed::Type);
                true
            }
            Sort::Reserved(Word::KwEqtype) => {
                self.types.clear();
                self.point = Point::WantParams(Headed::Eqtype);
                true
            }
            Sort::Reserved(Word::KwDatatype) => {
                self.datatypes.clear();
                self.point = Point::WantParams(Headed::Datatype);
                true
            }
            Sort::Reserved(Word::KwException) => {
                self.cons.clear();
                self.point = Point::WantCon(Cons::Exception);
                true
            }
            Sort::Reserved(Word::KwStructure) => {
                self.point = Point::WantId(Group::Members, 0);
                true
            }
            Sort::Reserved(Word::KwInclude) => {
                self.point = Point::WantSig(Goal::Including);
                true
            }
            Sort::Reserved(Word::KwSharing) => {
                self.point = Point::AfterSharing;
                true
            }
            Sort::Reserved(Word::KwSemicolon) => {
                self.point = Point::Items;
                true
            }
            _ => false,
        }
    }

    // Ends the innermost body.
    #[tactic(auto, unfolding(crate::specs::machine::Machine::spec_item))]
    fn end_body(&mut self) -> Result<bool, NoMemory>
        ensures { IfOk result (λ can. taken can (state_of self.new)
            ≡ machine.item self.old.decs (levels self.old) (Reserved KwEnd)) }
    {
        match self.levels.pop() {
            None => Ok(false),
            Some(level) => {
                let Level { goal, first, specs } = level;
                self.body = self.specs.take_last(specs)?;
                self.parts.clear();
                let base = Base::Body;
                self.point = Point::HaveSig(Open { goal, first, base });
                Ok(true)
            }
        }
    }

    /// Adds a specification to the innermost body.
    pub fn with_spec(&mut self, spec: Spec) -> Result<(), NoMemory>
        ensures decs { OnOk result (self.new.decs ≡ self.old.decs) }
        ensures levels { OnOk result (levels self.new ≡ machine.with_spec (levels self.old) spec) }
    {
        match self.levels.pop() {
            None => Ok(()),
            Some(level) => {
                let Level { goal, first, specs } = level;
                let specs = self.specs.push_counted(specs, spec)?;
                self.levels.push(Level { goal, first, specs })?;
                Ok(())
            }
        }
    }

    #[tactic(auto, unfolding(crate::specs::machine::Machine::spec_item))]
    fn inner_item(&mut self, sort: Sort) -> Result<bool, NoMemory>
        ensures { IfOk result (λ can. (l : goals.Level) (ls : List goals.Level) → levels self.old ≡ l ∷ ls
            → taken can (state_of self.new) ≡ machine.spec_item self.old.decs l ls sort) }
    {
        match sort {
            Sort::Reserved(Word::KwEnd) => self.end_body(),
            _ => Ok(self.begin_spec(sort)),
        }
    }

    /// Hands over a token that stands between items, or ends the body around them.
    pub fn item(&mut self, sort: Sort) -> Result<bool, NoMemory>
        ensures value { IfOk result (λ can. taken can (state_of self.new)
            ≡ machine.item self.old.decs (levels self.old) sort) }
    {
        if self.levels.is_empty() {
            Ok(self.top_item(sort))
        } else {
            self.inner_item(sort)
        }
    }

    fn behind_group(&mut self, group: Group, count: usize, sort: Sort) -> Result<bool, NoMemory>
        ensures { IfOk result (λ can. taken can (state_of self.new)
            ≡ machine.behind_group self.old.decs (levels_over self.old (before_last count self.old.bindings))
            group (last_of count self.old.bindings) sort) }
    {
        let bindings = self.bindings.take_last(count)?;
        match group {
            Group::Signatures => self.decs.push(TopDec::Signature(bindings))?,
            Group::Structures => self.decs.push(TopDec::Structure(bindings))?,
            Group::Members => self.with_spec(Spec::Structure(bindings))?,
        }
        self.item(sort)
    }

    /// Hands over a token behind bindings.
    #[tactic(auto, unfolding(crate::specs::machine::Machine::bound))]
    pub fn bound(&mut self, group: Group, count: usize, sort: Sort) -> Result<bool, NoMemory>
        ensures value { IfOk result (λ can. taken can (state_of self.new)
            ≡ machine.bound self.old.decs (levels_over self.old (before_last count self.old.bindings)) group
            (last_of count self.old.bindings) sort) }
    {
        match sort {
            Sort::Reserved(Word::KwAnd) => {
                self.point = Point::WantId(group, count);
                Ok(true)
            }
            _ => self.behind_group(group, count, sort),
        }
    }

    /// Hands over a token behind a signature expression that is whole.
    pub fn leave(
        &mut self,
        alloc: Global,
        goal: Goal,
        sig: SigExp,
        sort: Sort,
    ) -> Result<bool, NoMemory>
        ensures value { IfOk result (λ can. taken can (state_of self.new)
            ≡ machine.leave self.old.decs (levels_over self.old (before_goal goal self.old.bindings))
            (goal_of goal self.old.bindings) sig sort) }
    {
        match goal {
            Goal::Binding(group, count, id) => {
                let bindings = self.bindings.push_counted(count, Bind { id, rhs: sig })?;
                self.bound(group, bindings, sort)
            }
            Goal::Including => self.behind_spec(Spec::Include(one(alloc, sig)?), sort),
        }
    }

    /// Hands over a token behind a specification that is whole.
    pub fn behind_spec(&mut self, spec: Spec, sort: Sort) -> Result<bool, NoMemory>
        ensures value { IfOk result (λ can. taken can (state_of self.new)
            ≡ machine.item self.old.decs (machine.with_spec (levels self.old) spec) sort) }
    {
        self.with_spec(spec)?;
        self.item(sort)
    }
}
