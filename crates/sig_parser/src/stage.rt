// The reading of a signature file, one token at a time.
ghost use Rattle.std.specs.Prelude.{◌≡◌, ◌<◌, ◌^◌, IfOk, OnOk};
ghost use Rattle.ty_parser.specs.machine.Machine as types;
ghost use Rattle.sig_base.specs.Stacks.{last_of, before_last};
ghost use Rattle.ty_parser.specs.machine.Machine.{taken};
ghost use Rattle.sig_parser.specs.machine.Machine as machine;
ghost use Rattle.sig_parser.specs.machine.Machine.{At};
ghost use Rattle.sig_parser.specs.machine.Views.{state_of, levels_over, goal_of, open_of, owner_of, before_owner, step_outside, type_ended, ended_outside, file_of, parens_at};

use crate::point::{Goal, Group, Open, Owner, Point, Reading};
use crate::sigs::{closed, name_of};
use crate::tree::{Bind, ConDesc, SigExp, SourceFile, TopDec, TypeDesc, ValDesc, WherePart};
use sig_base::NoMemory;
use std::alloc::Global;
use ty_parser::{Sort, TypeAt};

// How many parentheses are open at a point.
#[tactic(auto, unfolding(crate::specs::machine::Machine::open_at))]
fn parens(point: Point) -> u32
    ensures { result ≡ parens_at point }
{
    match point {
        Point::WantParam(_) => 1,
        Point::HaveParam(_) => 1,
        _ => 0,
    }
}

impl Reading {
    #[tactic(auto, unfolding(crate::specs::machine::Machine::begin_type))]
    fn begin_type(
        &mut self,
        alloc: Global,
        owner: Owner,
        place: u32,
        sort: Sort,
    ) -> Result<bool, NoMemory>
        ensures { IfOk result (λ can. taken can (state_of self.new)
            ≡ machine.begin_type self.old.decs (levels_over self.old (before_owner owner self.old.bindings))
            (owner_of owner self.old) place (types.step types.start (place, sort))) }
    {
        self.reader.restart();
        self.point = Point::InType(owner, place);
        self.reader.next(alloc, place, sort)
    }

    // The point after a type.
    fn owned(&mut self, owner: Owner, ty: TypeAt) -> Result<(), NoMemory>
        ensures { OnOk result (state_of self.new
            ≡ At self.old.decs (levels_over self.old (before_owner owner self.old.bindings))
            (machine.owned (owner_of owner self.old) ty)) }
    {
        match owner {
            Owner::Val(id) => {
                self.values.push(ValDesc { id, ty })?;
                self.point = Point::Vals;
                Ok(())
            }
            Owner::Where(begun, at, tycon) => {
                let params = self.params.take_all()?;
                self.parts.push(WherePart {
                    at,
                    params,
                    tycon,
                    ty,
                })?;
                self.point = Point::HavePart(begun);
                Ok(())
            }
            Owner::Type(id) => {
                let params = self.params.take_all()?;
                let rhs = Some(ty);
                self.types.push(TypeDesc { params, id, rhs })?;
                self.point = Point::Types;
                Ok(())
            }
            Owner::Con(cons, id) => {
                let arg = Some(ty);
                self.cons.push(ConDesc { id, arg })?;
                self.point = Point::HaveCons(cons);
                Ok(())
            }
        }
    }

    fn at(&mut self, alloc: Global, place: u32, sort: Sort) -> Result<bool, NoMemory>
        ensures { IfOk result (λ can. taken can (state_of self.new)
            ≡ step_outside (state_of self.old) place sort) }
    {
        match self.point {
            Point::Items => self.item(sort),
            Point::WantVal => Ok(self.want_val(place, sort)),
            Point::HaveVal(id) => Ok(self.have_val(id, sort)),
            Point::Vals => self.vals(sort),
            Point::WantParams(headed) => self.want_params(headed, place, sort),
            Point::WantParam(headed) => self.want_param(headed, place, sort),
            Point::HaveParam(headed) => Ok(self.have_param(headed, sort)),
            Point::WantTycon(headed) => Ok(self.want_tycon(headed, place, sort)),
            Point::HaveTycon(headed, id) => self.have_tycon(headed, id, sort),
            Point::Types => self.types(sort),
            Point::Eqtypes => self.eqtypes(sort),
            Point::AfterEquals(id) => Ok(self.after_equals(id, place, sort)),
            Point::WantReplica(id) => self.want_replica(id, place, sort),
            Point::WantCon(cons) => Ok(self.want_con(cons, place, sort)),
            Point::HaveCon(cons, id) => self.have_con(cons, id, sort),
            Point::HaveCons(cons) => self.have_cons(cons, sort),
            Point::Datatypes => self.datatypes(sort),
            Point::AfterSharing => Ok(self.after_sharing(place, sort)),
            Point::AfterSharingType => Ok(self.after_sharing_type(place, sort)),
            Point::OneShared(shared, id) => self.one_shared(shared, id, sort),
            Point::WantShared(shared) => self.want_shared(shared, place, sort),
            Point::HaveShared(shared) => self.have_shared(shared, sort),
            Point::WantType(owner) => self.begin_type(alloc, owner, place, sort),
            Point::WantSig(goal) => self.want_sig(goal, place, sort),
            Point::HaveName(goal, id) => self.have_name(alloc, goal, id, place, sort),
            Point::HaveSig(begun) => self.have_sig(alloc, begun, place, sort),
            Point::AfterWhere(begun, at) => Ok(self.after_where(begun, at, sort)),
            Point::HavePart(begun) => self.have_part(alloc, begun, place, sort),
            Point::AfterAnd(begun, at) => self.after_and(alloc, begun, at, place, sort),
            Point::WantId(group, count) => Ok(self.want_id(group, count, place, sort)),
            Point::HaveId(group, count, id) => Ok(self.have_id(group, count, id, sort)),
            Point::Bound(group, count) => self.bound(group, count, sort),
            Point::Includes => self.includes(alloc, place, sort),
            Point::InType(_, _) => Ok(false),
        }
    }

    #[tactic(auto, unfolding(crate::specs::machine::Machine::behind_type))]
    fn behind_type(
        &mut self,
        alloc: Global,
        owner: Owner,
        first: u32,
        place: u32,
        sort: Sort,
    ) -> Result<bool, NoMemory>
        ensures { IfOk result (λ can. taken can (state_of self.new)
            ≡ machine.behind_type self.old.decs (levels_over self.old (before_owner owner self.old.bindings))
            (owner_of owner self.old) first (types.finish (types.state_of self.old.reader))
            place sort) }
    {
        match self.reader.finish(alloc)? {
            None => Ok(false),
            Some(ty) => {
                self.owned(owner, TypeAt { first, ty })?;
                self.at(alloc, place, sort)
            }
        }
    }

    /// Hands over the token with this number and sort; false exactly where it cannot stand there.
    #[tactic(auto, unfolding(crate::specs::machine::Machine::in_type))]
    pub fn next(&mut self, alloc: Global, place: u32, sort: Sort) -> Result<bool, NoMemory>
        ensures value { IfOk result (λ can. taken can (state_of self.new)
            ≡ machine.step (state_of self.old) (place, sort)) }
    {
        match self.point {
            Point::InType(owner, first) => {
                if self.reader.accepts(sort) {
                    self.reader.next(alloc, place, sort)
                } else {
                    self.behind_type(alloc, owner, first, place, sort)
                }
            }
            _ => self.at(alloc, place, sort),
        }
    }

    /// How many parentheses, braces and `sig` are open.
    pub fn depth(&self) -> u32
        requires small { machine.depth (state_of self.now) < 2 ^ 32 }
        ensures value { result ≡ machine.depth (state_of self.now) }
    {
        match self.point {
            Point::InType(_, _) => self.levels.len() as u32 + self.reader.depth(),
            _ => self.levels.len() as u32 + parens(self.point),
        }
    }

    fn ended_group(&mut self, group: Group, count: usize) -> Result<bool, NoMemory>
        ensures { IfOk result (λ can. taken can (file_of self.new)
            ≡ machine.ended_group self.old.decs group (last_of count self.old.bindings)) }
    {
        let bindings = self.bindings.take_last(count)?;
        match group {
            Group::Signatures => {
                self.decs.push(TopDec::Signature(bindings))?;
                Ok(true)
            }
            Group::Structures => {
                self.decs.push(TopDec::Structure(bindings))?;
                Ok(true)
            }
            Group::Members => Ok(false),
        }
    }

    fn ended_sig(&mut self, goal: Goal, sig: SigExp) -> Result<bool, NoMemory>
        ensures { IfOk result (λ can. taken can (file_of self.new)
            ≡ machine.ended_sig self.old.decs (goal_of goal self.old.bindings) sig) }
    {
        match goal {
            Goal::Binding(group, count, id) => {
                let bindings = self.bindings.push_counted(count, Bind { id, rhs: sig })?;
                self.ended_group(group, bindings)
            }
            Goal::Including => Ok(false),
        }
    }

    fn ended_open(&mut self, alloc: Global, begun: Open) -> Result<bool, NoMemory>
        ensures { IfOk result (λ can. taken can (file_of self.new)
            ≡ machine.ended_sig self.old.decs (open_of begun self.old).goal
            (machine.sig_of (open_of begun self.old))) }
    {
        let sig = closed(alloc, begun, &mut self.body, &mut self.parts)?;
        self.ended_sig(begun.goal, sig)
    }

    #[tactic(auto, unfolding(crate::specs::machine::Machine::ended))]
    fn ended(&mut self, alloc: Global) -> Result<bool, NoMemory>
        ensures { IfOk result (λ can. taken can (file_of self.new) ≡ ended_outside (state_of self.old)) }
    {
        match self.point {
            Point::Items => Ok(true),
            Point::Bound(group, count) => self.ended_group(group, count),
            Point::HaveName(goal, id) => self.ended_sig(goal, name_of(alloc, id)),
            Point::HaveSig(begun) => self.ended_open(alloc, begun),
            Point::HavePart(begun) => self.ended_open(alloc, begun),
            _ => Ok(false),
        }
    }

    // Ends the type that is read, if there is one.
    fn end_type(&mut self, alloc: Global) -> Result<bool, NoMemory>
        ensures { IfOk result (λ can. taken can (state_of self.new) ≡ type_ended (state_of self.old)) }
    {
        match self.point {
            Point::InType(owner, first) => match self.reader.finish(alloc)? {
                None => Ok(false),
                Some(ty) => {
                    self.owned(owner, TypeAt { first, ty })?;
                    Ok(true)
                }
            },
            _ => Ok(true),
        }
    }

    /// Whether the file can end here: then its declarations are whole.
    pub fn finish(&mut self, alloc: Global) -> Result<bool, NoMemory>
        ensures value { IfOk result (λ can. taken can (file_of self.new) ≡ machine.finish (state_of self.old)) }
    {
        if !self.levels.is_empty() {
            return Ok(false);
        }
        let can = self.end_type(alloc)?;
        if !can {
            return Ok(false);
        }
        self.ended(alloc)
    }
}
