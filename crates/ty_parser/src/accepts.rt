// Which sorts of token can stand next in each state of a reader.
ghost use Rattle.std.specs.Prelude.{◌≡◌, ℕ, List, is_some};
ghost use Rattle.ty_parser.specs.machine.Machine as machine;
ghost use Rattle.ty_parser.specs.machine.Machine.{stack_of};
ghost use Rattle.ty_parser.specs.machine.Operands.{Operand};
ghost use Rattle.ty_parser.specs.declared.tree.FieldExp.{FieldExp};
ghost use Rattle.ty_parser.specs.declared.tree.TyExp.{TyExp};

use crate::reader::{Opening, Reader};
use crate::sort::Sort;
use sig_base::Word;

impl Reader {
    // Whether a comma can stand behind an operand.
    fn is_nested(&self) -> bool
        ensures { (ty : TyExp) → result ≡ is_some (machine.comma (stack_of self.now).outer ty) }
    {
        !self.around.is_empty()
    }

    // Whether a right parenthesis can stand behind an operand.
    fn in_parens(&self) -> bool
        ensures { (ty : TyExp) → result ≡ is_some (machine.right_paren (stack_of self.now).outer ty) }
    {
        match self.around.as_slice().last() {
            None => false,
            Some(opening) => match opening {
                Opening::Parens(_, _) => true,
                Opening::Braces(_, _, _) => false,
            },
        }
    }

    // Whether a right brace can stand behind an operand.
    fn in_braces(&self) -> bool
        ensures { (ty : TyExp) → result ≡ is_some (machine.right_brace (stack_of self.now).outer ty) }
    {
        match self.around.as_slice().last() {
            None => false,
            Some(opening) => match opening {
                Opening::Parens(_, _) => false,
                Opening::Braces(_, _, _) => true,
            },
        }
    }

    #[tactic(auto, unfolding(crate::specs::machine::Machine::leave))]
    fn can_leave(&self, sort: Sort) -> bool
        ensures { (ty : TyExp) → result ≡ is_some (machine.leave (stack_of self.now) ty sort) }
    {
        match sort {
            Sort::Star => true,
            Sort::Reserved(Word::KwArrow) => true,
            Sort::Reserved(Word::KwComma) => self.is_nested(),
            Sort::Reserved(Word::KwRParen) => self.in_parens(),
            Sort::Reserved(Word::KwRBrace) => self.in_braces(),
            _ => false,
        }
    }

    // Whether a token of this sort can stand behind an operand.
    #[tactic(auto, unfolding(crate::specs::machine::Machine::have))]
    pub(crate) fn can_have(&self, sort: Sort) -> bool
        ensures { (a : Operand) (place : ℕ) → result ≡ is_some (machine.have (stack_of self.now) a place sort) }
    {
        if sort.is_long_tycon() {
            true
        } else {
            self.can_leave(sort)
        }
    }
}

#[tactic(auto, unfolding(crate::specs::machine::Machine::begin))]
fn can_begin(sort: Sort) -> bool
    ensures { (k : machine.Stack) (place : ℕ) → result ≡ is_some (machine.begin k place sort) }
{
    match sort {
        Sort::Variable => true,
        Sort::Reserved(Word::KwLParen) => true,
        Sort::Reserved(Word::KwLBrace) => true,
        _ => false,
    }
}

#[tactic(auto, unfolding(crate::specs::machine::Machine::want))]
pub(crate) fn can_want(sort: Sort) -> bool
    ensures { (k : machine.Stack) (place : ℕ) → result ≡ is_some (machine.want k place sort) }
{
    if sort.is_long_tycon() {
        true
    } else {
        can_begin(sort)
    }
}

#[tactic(auto, unfolding(crate::specs::machine::Machine::brace, crate::specs::machine::Machine::no_fields))]
pub(crate) fn can_brace(sort: Sort) -> bool
    ensures { (k : machine.Stack) (place : ℕ) → result ≡ is_some (machine.brace k place sort) }
{
    if sort.is_label() {
        return true;
    }
    match sort {
        Sort::Reserved(Word::KwRBrace) => true,
        _ => false,
    }
}

#[tactic(auto, unfolding(crate::specs::machine::Machine::colon))]
pub(crate) fn can_colon(sort: Sort) -> bool
    ensures { (k : machine.Stack) (fs : List FieldExp) (i : ℕ) → result ≡ is_some (machine.colon k fs i sort) }
{
    match sort {
        Sort::Reserved(Word::KwColon) => true,
        _ => false,
    }
}
