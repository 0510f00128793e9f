// What each stage of a reader becomes by a token.
ghost use Rattle.std.specs.Prelude.{◌≡◌, ◌+◌, [], ◌∷◌, IfOk, OnOk, reverse};
ghost use Rattle.ty_parser.specs.machine.Machine as machine;
ghost use Rattle.ty_parser.specs.machine.Operands.{Alone, Applied};
ghost use Rattle.sig_base.specs.Stacks.{last_of, before_last};
ghost use Rattle.ty_parser.specs.machine.Machine.{level_of, before_level, levels_of, levels_over, opened_of, state_of, stack_of, tree_of, taken};

use crate::reader::{LevelSize, Opening, Reader, Stage};
use crate::sort::Sort;
use crate::tree::{FieldExp, TyExp};
use sig_base::{List, NoMemory, Stack, Word};
use std::alloc::Global;
use std::mem;

fn one<T: Drop>(alloc: Global, item: T) -> Result<List<T>, NoMemory>
    ensures { IfOk result (λ all. all ≡ item ∷ []) }
{
    let mut all = Vec::with_capacity(alloc, 1)?;
    all.push(item)?;
    Ok(List::from_vec(all))
}

pub(crate) fn fresh() -> LevelSize
    ensures { result ≡ record { sides = 0; parts = 0 } }
{
    LevelSize { sides: 0, parts: 0 }
}

// The last so many types, and one more, as a tuple: they are taken off.
fn tuple(types: &mut Stack<TyExp>, count: usize, last: TyExp) -> Result<TyExp, NoMemory>
    ensures ty { IfOk result (λ ty. ty ≡ machine.tuple_of (last_of count types.old) last) }
    ensures rest { OnOk result (types.new ≡ before_last count types.old) }
{
    if types.has_none(count) {
        return Ok(last);
    }
    let all = types.push_counted(count, last)?;
    let parts = types.take_last(all)?;
    Ok(TyExp::Tuple(parts))
}

// The last so many types, and one more, as a function type: they are taken off.
fn arrows(types: &mut Stack<TyExp>, count: usize, last: TyExp) -> Result<TyExp, NoMemory>
    ensures ty { IfOk result (λ ty. ty ≡ machine.arrows_of (last_of count types.old) last) }
    ensures rest { OnOk result (types.new ≡ before_last count types.old) }
{
    if types.has_none(count) {
        return Ok(last);
    }
    let all = types.push_counted(count, last)?;
    let sides = types.take_last(all)?;
    Ok(TyExp::Arrows(sides))
}

// A level as one type, with its last operand: it is taken off.
#[tactic(auto, unfolding(crate::specs::machine::Machine::whole))]
pub(crate) fn whole(
    types: &mut Stack<TyExp>,
    level: LevelSize,
    last: TyExp,
) -> Result<TyExp, NoMemory>
    ensures ty { IfOk result (λ ty. ty ≡ machine.whole (level_of level types.old) last) }
    ensures rest { OnOk result (types.new ≡ before_level level types.old) }
{
    if level.sides == 0 {
        if level.parts == 0 {
            return Ok(last);
        }
    }
    let last = tuple(types, level.parts, last)?;
    arrows(types, level.sides, last)
}

impl Reader {
    /// The operand, where it is no application: it is taken out.
    pub(crate) fn take_operand(&mut self) -> TyExp
        ensures operand { result ≡ self.old.operand }
        ensures levels { stack_of self.new ≡ stack_of self.old }
    {
        mem::replace(&mut self.operand, TyExp::Var(0))
    }

    /// The operand, where it is an application: it is taken out.
    pub(crate) fn take_applied(&mut self, alloc: Global) -> TyExp
        ensures operand { result ≡ tree_of (Applied self.old.arguments self.old.constructors) }
        ensures levels { stack_of self.new ≡ stack_of self.old }
    {
        let arguments = mem::replace(&mut self.arguments, List::new(alloc));
        let constructors = mem::replace(&mut self.constructors, List::new(alloc));
        TyExp::Apply(arguments, constructors)
    }

    // Begins the constructors behind the arguments.
    fn applied(&mut self, alloc: Global, place: u32) -> Result<(), NoMemory>
        ensures { OnOk result (state_of self.new
            ≡ machine.Have (stack_of self.old) (Applied self.old.arguments (place ∷ []))) }
    {
        self.constructors = one(alloc, place)?;
        self.stage = Stage::HasApplied;
        Ok(())
    }

    fn with_part(&mut self, part: TyExp) -> Result<(), NoMemory>
        ensures { OnOk result (state_of self.new ≡ machine.Want (machine.with_part (stack_of self.old) part)) }
    {
        let parts = self.types.push_counted(self.level.parts, part)?;
        self.level.parts = parts;
        self.stage = Stage::Wants;
        Ok(())
    }

    fn with_side(&mut self, part: TyExp) -> Result<(), NoMemory>
        ensures { OnOk result (state_of self.new ≡ machine.Want (machine.with_side (stack_of self.old) part)) }
    {
        let side = tuple(&mut self.types, self.level.parts, part)?;
        let sides = self.types.push_counted(self.level.sides, side)?;
        self.level.sides = sides;
        self.level.parts = 0;
        self.stage = Stage::Wants;
        Ok(())
    }

    // Begins a level inside of what is opened.
    fn open(&mut self, opening: Opening) -> Result<(), NoMemory>
        ensures { OnOk result (state_of self.new
            ≡ machine.Want (machine.stack
            (opened_of (opening ∷ reverse self.old.around) self.old.types self.old.fields) machine.fresh)) }
    {
        self.around.push(opening)?;
        self.level = fresh();
        self.stage = Stage::Wants;
        Ok(())
    }

    fn inside(&mut self) -> Result<(), NoMemory>
        ensures { OnOk result (state_of self.new ≡ machine.Want (machine.inside (stack_of self.old))) }
    {
        self.open(Opening::Parens(self.level, 0))
    }

    fn comma(&mut self, last: TyExp) -> Result<bool, NoMemory>
        ensures { IfOk result (λ can. taken can (state_of self.new)
            ≡ machine.comma (stack_of self.old).outer (machine.whole (stack_of self.old).level last)) }
    {
        match self.around.pop() {
            None => Ok(false),
            Some(Opening::Parens(outer, count)) => {
                let ty = whole(&mut self.types, self.level, last)?;
                let types = self.types.push_counted(count, ty)?;
                self.open(Opening::Parens(outer, types))?;
                Ok(true)
            }
            Some(Opening::Braces(outer, count, label)) => {
                let ty = whole(&mut self.types, self.level, last)?;
                let fields = self.fields.push_counted(count, FieldExp { label, ty })?;
                self.level = outer;
                self.stage = Stage::WantsLabel(fields);
                Ok(true)
            }
        }
    }

    // What comes of the last so many types in parentheses, and one more.
    fn enclosed(&mut self, count: usize, last: TyExp) -> Result<(), NoMemory>
        ensures { OnOk result (state_of self.new ≡ machine.enclosed
            (levels_of self.old.around self.old.level (before_last count self.old.types) self.old.fields)
            (last_of count self.old.types) last) }
    {
        if self.types.has_none(count) {
            self.operand = last;
            self.stage = Stage::HasType;
            return Ok(());
        }
        let all = self.types.push_counted(count, last)?;
        self.arguments = self.types.take_last(all)?;
        self.stage = Stage::WantsTycon;
        Ok(())
    }

    fn right_paren(&mut self, last: TyExp) -> Result<bool, NoMemory>
        ensures { IfOk result (λ can. taken can (state_of self.new)
            ≡ machine.right_paren (stack_of self.old).outer (machine.whole (stack_of self.old).level last)) }
    {
        match self.around.pop() {
            None => Ok(false),
            Some(Opening::Parens(outer, count)) => {
                let ty = whole(&mut self.types, self.level, last)?;
                self.level = outer;
                self.enclosed(count, ty)?;
                Ok(true)
            }
            Some(Opening::Braces(_, _, _)) => Ok(false),
        }
    }

    fn right_brace(&mut self, last: TyExp) -> Result<bool, NoMemory>
        ensures { IfOk result (λ can. taken can (state_of self.new)
            ≡ machine.right_brace (stack_of self.old).outer (machine.whole (stack_of self.old).level last)) }
    {
        match self.around.pop() {
            None => Ok(false),
            Some(Opening::Parens(_, _)) => Ok(false),
            Some(Opening::Braces(outer, count, label)) => {
                let ty = whole(&mut self.types, self.level, last)?;
                let all = self.fields.push_counted(count, FieldExp { label, ty })?;
                let fields = self.fields.take_last(all)?;
                self.level = outer;
                self.operand = TyExp::Fields(fields);
                self.stage = Stage::HasType;
                Ok(true)
            }
        }
    }

    #[tactic(auto, unfolding(crate::specs::machine::Machine::begin))]
    fn begin(&mut self, place: u32, sort: Sort) -> Result<bool, NoMemory>
        ensures { IfOk result (λ can. taken can (state_of self.new)
            ≡ machine.begin (stack_of self.old) place sort) }
    {
        match sort {
            Sort::Variable => {
                self.operand = TyExp::Var(place);
                self.stage = Stage::HasType;
                Ok(true)
            }
            Sort::Reserved(Word::KwLParen) => {
                self.inside()?;
                Ok(true)
            }
            Sort::Reserved(Word::KwLBrace) => {
                self.stage = Stage::AfterBrace;
                Ok(true)
            }
            _ => Ok(false),
        }
    }

    #[tactic(auto, unfolding(crate::specs::machine::Machine::want))]
    pub(crate) fn want(&mut self, alloc: Global, place: u32, sort: Sort) -> Result<bool, NoMemory>
        ensures { IfOk result (λ can. taken can (state_of self.new)
            ≡ machine.want (stack_of self.old) place sort) }
    {
        if sort.is_long_tycon() {
            self.arguments = List::new(alloc);
            self.applied(alloc, place)?;
            Ok(true)
        } else {
            self.begin(place, sort)
        }
    }

    #[tactic(auto, unfolding(crate::specs::machine::Machine::leave))]
    fn leave(&mut self, last: TyExp, sort: Sort) -> Result<bool, NoMemory>
        ensures { IfOk result (λ can. taken can (state_of self.new)
            ≡ machine.leave (stack_of self.old) last sort) }
    {
        match sort {
            Sort::Star => {
                self.with_part(last)?;
                Ok(true)
            }
            Sort::Reserved(Word::KwArrow) => {
                self.with_side(last)?;
                Ok(true)
            }
            Sort::Reserved(Word::KwComma) => self.comma(last),
            Sort::Reserved(Word::KwRParen) => self.right_paren(last),
            Sort::Reserved(Word::KwRBrace) => self.right_brace(last),
            _ => Ok(false),
        }
    }

    // Hands over a token behind a type variable, a record or a type in parentheses.
    #[tactic(auto, unfolding(crate::specs::machine::Machine::have, crate::specs::machine::Machine::with_constructor))]
    pub(crate) fn have_type(
        &mut self,
        alloc: Global,
        place: u32,
        sort: Sort,
    ) -> Result<bool, NoMemory>
        ensures { IfOk result (λ can. taken can (state_of self.new)
            ≡ machine.have (stack_of self.old) (Alone self.old.operand) place sort) }
    {
        let operand = self.take_operand();
        if sort.is_long_tycon() {
            self.arguments = one(alloc, operand)?;
            self.applied(alloc, place)?;
            Ok(true)
        } else {
            self.leave(operand, sort)
        }
    }

    // Hands over a token behind a constructor.
    #[tactic(auto, unfolding(crate::specs::machine::Machine::have, crate::specs::machine::Machine::with_constructor))]
    pub(crate) fn have_applied(
        &mut self,
        alloc: Global,
        place: u32,
        sort: Sort,
    ) -> Result<bool, NoMemory>
        ensures { IfOk result (λ can. taken can (state_of self.new)
            ≡ machine.have (stack_of self.old) (Applied self.old.arguments self.old.constructors) place sort) }
    {
        if sort.is_long_tycon() {
            self.constructors.push(place)?;
            self.stage = Stage::HasApplied;
            Ok(true)
        } else {
            let operand = self.take_applied(alloc);
            self.leave(operand, sort)
        }
    }

    #[tactic(auto, unfolding(crate::specs::machine::Machine::brace, crate::specs::machine::Machine::no_fields))]
    pub(crate) fn brace(&mut self, alloc: Global, place: u32, sort: Sort) -> bool
        ensures { taken result (state_of self.new) ≡ machine.brace (stack_of self.old) place sort }
    {
        if sort.is_label() {
            self.stage = Stage::WantsColon(0, place);
            return true;
        }
        match sort {
            Sort::Reserved(Word::KwRBrace) => {
                self.operand = TyExp::Fields(List::new(alloc));
                self.stage = Stage::HasType;
                true
            }
            _ => false,
        }
    }

    #[tactic(auto, unfolding(crate::specs::machine::Machine::label))]
    pub(crate) fn label(&mut self, count: usize, place: u32, sort: Sort) -> bool
        ensures { taken result (state_of self.new)
            ≡ machine.label (levels_over self.old (before_last count self.old.fields))
            (last_of count self.old.fields) place sort }
    {
        if sort.is_label() {
            self.stage = Stage::WantsColon(count, place);
            true
        } else {
            false
        }
    }

    #[tactic(auto, unfolding(crate::specs::machine::Machine::colon, crate::specs::machine::Machine::inside_field))]
    pub(crate) fn colon(&mut self, count: usize, label: u32, sort: Sort) -> Result<bool, NoMemory>
        ensures { IfOk result (λ can. taken can (state_of self.new)
            ≡ machine.colon (levels_over self.old (before_last count self.old.fields))
            (last_of count self.old.fields) label sort) }
    {
        match sort {
            Sort::Reserved(Word::KwColon) => {
                self.open(Opening::Braces(self.level, count, label))?;
                Ok(true)
            }
            _ => Ok(false),
        }
    }

    #[tactic(auto, unfolding(crate::specs::machine::Machine::tycon))]
    pub(crate) fn tycon(&mut self, alloc: Global, place: u32, sort: Sort) -> Result<bool, NoMemory>
        ensures { IfOk result (λ can. taken can (state_of self.new)
            ≡ machine.tycon (stack_of self.old) self.old.arguments place sort) }
    {
        if sort.is_long_tycon() {
            self.applied(alloc, place)?;
            Ok(true)
        } else {
            Ok(false)
        }
    }
}
