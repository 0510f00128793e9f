// Bindings, signature expressions and their `where`.
ghost use Rattle.std.specs.Prelude.{◌≡◌, IfOk};
ghost use Rattle.sig_base.specs.Stacks.{last_of, before_last};
ghost use Rattle.ty_parser.specs.machine.Machine.{taken};
ghost use Rattle.sig_parser.specs.Grammar as grammar;
ghost use Rattle.sig_parser.specs.machine.Machine as machine;
ghost use Rattle.sig_parser.specs.machine.Views.{state_of, levels, levels_over, goal_of, before_goal, open_of, sig_at};

use crate::point::{Base, Goal, Group, Headed, Level, Open, Point, Reading};
use crate::tree::{Bind, SigBase, SigExp, Spec, WherePart};
use sig_base::{List, NoMemory, Stack, Word};
use std::alloc::Global;
use std::mem;
use ty_parser::Sort;

/// The signature with this identifier, as a signature expression.
pub fn name_of(alloc: Global, id: u32) -> SigExp
    ensures value { result ≡ grammar.name_of id }
{
    SigExp {
        first: id,
        base: SigBase::Name(id),
        parts: List::new(alloc),
    }
}

fn is_between(group: Group, sort: Sort) -> bool
    ensures { result ≡ machine.is_between group sort }
{
    match group {
        Group::Signatures => match sort {
            Sort::Reserved(Word::KwEquals) => true,
            _ => false,
        },
        Group::Structures => match sort {
            Sort::Reserved(Word::KwColon) => true,
            Sort::Reserved(Word::KwSeal) => true,
            _ => false,
        },
        Group::Members => match sort {
            Sort::Reserved(Word::KwColon) => true,
            _ => false,
        },
    }
}

// The whole signature expression: its body and its parts are taken off.
pub fn closed(
    alloc: Global,
    begun: Open,
    body: &mut List<Spec>,
    parts: &mut Stack<WherePart>,
) -> Result<SigExp, NoMemory>
    ensures value { IfOk result (λ sig. sig ≡ sig_at begun body.old parts.old) }
{
    let base = match begun.base {
        Base::Body => SigBase::Body(mem::replace(body, List::new(alloc))),
        Base::Name(id) => SigBase::Name(id),
    };
    Ok(SigExp {
        first: begun.first,
        base,
        parts: parts.take_all()?,
    })
}

impl Reading {
    /// Hands over a token before the identifier of a binding.
    #[tactic(auto, unfolding(crate::specs::machine::Machine::want_id))]
    pub fn want_id(&mut self, group: Group, count: usize, place: u32, sort: Sort) -> bool
        ensures value { taken result (state_of self.new)
            ≡ machine.want_id self.old.decs (levels_over self.old (before_last count self.old.bindings)) group
            (last_of count self.old.bindings) place sort }
    {
        if sort.is_strid() {
            self.point = Point::HaveId(group, count, place);
            true
        } else {
            false
        }
    }

    /// Hands over a token behind it.
    #[tactic(auto, unfolding(crate::specs::machine::Machine::have_id))]
    pub fn have_id(&mut self, group: Group, count: usize, id: u32, sort: Sort) -> bool
        ensures value { taken result (state_of self.new)
            ≡ machine.have_id self.old.decs (levels_over self.old (before_last count self.old.bindings)) group
            (last_of count self.old.bindings) id sort }
    {
        if is_between(group, sort) {
            self.point = Point::WantSig(Goal::Binding(group, count, id));
            true
        } else {
            false
        }
    }

    /// Hands over a token behind `where`, or behind the `and` of a part.
    #[tactic(auto, unfolding(crate::specs::machine::Machine::after_where))]
    pub fn after_where(&mut self, begun: Open, at: u32, sort: Sort) -> bool
        ensures value { taken result (state_of self.new)
            ≡ machine.after_where self.old.decs (levels_over self.old (before_goal begun.goal self.old.bindings))
            (open_of begun self.old) at sort }
    {
        match sort {
            Sort::Reserved(Word::KwType) => {
                self.point = Point::WantParams(Headed::Where(begun, at));
                true
            }
            _ => false,
        }
    }

    #[tactic(auto, unfolding(crate::specs::machine::Machine::two_names))]
    fn two_names(
        &mut self,
        alloc: Global,
        goal: Goal,
        one_id: u32,
        other: u32,
    ) -> Result<bool, NoMemory>
        ensures { IfOk result (λ can. taken can (state_of self.new)
            ≡ machine.two_names self.old.decs (levels_over self.old (before_goal goal self.old.bindings))
            (goal_of goal self.old.bindings) one_id other) }
    {
        match goal {
            Goal::Binding(_, _, _) => Ok(false),
            Goal::Including => {
                self.sigs.clear();
                self.sigs.push(name_of(alloc, one_id))?;
                self.sigs.push(name_of(alloc, other))?;
                self.point = Point::Includes;
                Ok(true)
            }
        }
    }

    // An identifier behind `and` begins the next binding.
    #[tactic(auto, unfolding(crate::specs::machine::Machine::next_binding))]
    fn next_binding(&mut self, goal: Goal, sig: SigExp, place: u32) -> Result<bool, NoMemory>
        ensures { IfOk result (λ can. taken can (state_of self.new)
            ≡ machine.next_binding self.old.decs (levels_over self.old (before_goal goal self.old.bindings))
            (goal_of goal self.old.bindings) sig place) }
    {
        match goal {
            Goal::Binding(group, count, id) => {
                let bindings = self.bindings.push_counted(count, Bind { id, rhs: sig })?;
                self.point = Point::HaveId(group, bindings, place);
                Ok(true)
            }
            Goal::Including => Ok(false),
        }
    }

    /// Hands over a token behind the `and` of a part.
    #[tactic(auto, unfolding(crate::specs::machine::Machine::after_and))]
    pub fn after_and(
        &mut self,
        alloc: Global,
        begun: Open,
        at: u32,
        place: u32,
        sort: Sort,
    ) -> Result<bool, NoMemory>
        ensures value { IfOk result (λ can. taken can (state_of self.new)
            ≡ machine.after_and self.old.decs (levels_over self.old (before_goal begun.goal self.old.bindings))
            (open_of begun self.old) at place sort) }
    {
        if sort.is_strid() {
            let sig = closed(alloc, begun, &mut self.body, &mut self.parts)?;
            self.next_binding(begun.goal, sig, place)
        } else {
            Ok(self.after_where(begun, at, sort))
        }
    }

    #[tactic(auto, unfolding(crate::specs::machine::Machine::begin_body))]
    fn begin_body(&mut self, goal: Goal, first: u32, sort: Sort) -> Result<bool, NoMemory>
        ensures { IfOk result (λ can. taken can (state_of self.new)
            ≡ machine.begin_body self.old.decs (levels_over self.old (before_goal goal self.old.bindings))
            (goal_of goal self.old.bindings) first sort) }
    {
        match sort {
            Sort::Reserved(Word::KwSig) => {
                let specs = 0;
                self.levels.push(Level { goal, first, specs })?;
                self.point = Point::Items;
                Ok(true)
            }
            _ => Ok(false),
        }
    }

    /// Hands over a token before a signature expression.
    #[tactic(auto, unfolding(crate::specs::machine::Machine::want_sig))]
    pub fn want_sig(&mut self, goal: Goal, place: u32, sort: Sort) -> Result<bool, NoMemory>
        ensures value { IfOk result (λ can. taken can (state_of self.new)
            ≡ machine.want_sig self.old.decs (levels_over self.old (before_goal goal self.old.bindings))
            (goal_of goal self.old.bindings) place sort) }
    {
        if sort.is_strid() {
            self.point = Point::HaveName(goal, place);
            Ok(true)
        } else {
            self.begin_body(goal, place, sort)
        }
    }

    /// Hands over a token behind a signature expression.
    #[tactic(auto, unfolding(crate::specs::machine::Machine::have_sig))]
    pub fn have_sig(
        &mut self,
        alloc: Global,
        begun: Open,
        place: u32,
        sort: Sort,
    ) -> Result<bool, NoMemory>
        ensures value { IfOk result (λ can. taken can (state_of self.new)
            ≡ machine.have_sig self.old.decs (levels_over self.old (before_goal begun.goal self.old.bindings))
            (open_of begun self.old) place sort) }
    {
        match sort {
            Sort::Reserved(Word::KwWhere) => {
                self.point = Point::AfterWhere(begun, place);
                Ok(true)
            }
            _ => {
                let sig = closed(alloc, begun, &mut self.body, &mut self.parts)?;
                self.leave(alloc, begun.goal, sig, sort)
            }
        }
    }

    /// Hands over a token behind an identifier that is a signature expression.
    #[tactic(auto, unfolding(crate::specs::machine::Machine::have_name))]
    pub fn have_name(
        &mut self,
        alloc: Global,
        goal: Goal,
        id: u32,
        place: u32,
        sort: Sort,
    ) -> Result<bool, NoMemory>
        ensures value { IfOk result (λ can. taken can (state_of self.new)
            ≡ machine.have_name self.old.decs (levels_over self.old (before_goal goal self.old.bindings))
            (goal_of goal self.old.bindings) id place sort) }
    {
        if sort.is_strid() {
            self.two_names(alloc, goal, id, place)
        } else {
            self.parts.clear();
            let begun = Open {
                goal,
                first: id,
                base: Base::Name(id),
            };
            self.have_sig(alloc, begun, place, sort)
        }
    }

    /// Hands over a token behind a part of a `where`.
    #[tactic(auto, unfolding(crate::specs::machine::Machine::have_part))]
    pub fn have_part(
        &mut self,
        alloc: Global,
        begun: Open,
        place: u32,
        sort: Sort,
    ) -> Result<bool, NoMemory>
        ensures value { IfOk result (λ can. taken can (state_of self.new)
            ≡ machine.have_part self.old.decs (levels_over self.old (before_goal begun.goal self.old.bindings))
            (open_of begun self.old) place sort) }
    {
        match sort {
            Sort::Reserved(Word::KwAnd) => {
                self.point = Point::AfterAnd(begun, place);
                Ok(true)
            }
            _ => self.have_sig(alloc, begun, place, sort),
        }
    }

    /// Hands over a token behind two or more identifiers of signatures.
    #[tactic(auto, unfolding(crate::specs::machine::Machine::includes))]
    pub fn includes(&mut self, alloc: Global, place: u32, sort: Sort) -> Result<bool, NoMemory>
        ensures value { IfOk result (λ can. taken can (state_of self.new)
            ≡ machine.includes self.old.decs (levels self.old) self.old.sigs place sort) }
    {
        if sort.is_strid() {
            self.sigs.push(name_of(alloc, place))?;
            self.point = Point::Includes;
            Ok(true)
        } else {
            let sigs = self.sigs.take_all()?;
            self.behind_spec(Spec::Include(sigs), sort)
        }
    }
}
