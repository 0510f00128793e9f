// A reader of types that takes one token at a time.
ghost use Rattle.std.specs.Prelude.{◌≡◌, ℕ, ◌<◌, ◌^◌, IfOk, is_some};
ghost use Rattle.ty_parser.specs.machine.Machine as machine;
ghost use Rattle.ty_parser.specs.machine.Machine.{state_of, stack_of, taken};

use crate::accepts::{can_brace, can_colon, can_want};
use crate::sort::Sort;
use crate::steps::{fresh, whole};
use crate::tree::{FieldExp, TyExp};
use sig_base::{List, NoMemory, Stack};
use std::alloc::Global;

/// How many types were read of a level before its last operand: the sides before arrows, and after them
/// the components before stars.
#[derive(Clone, Copy, Debug)]
pub(crate) struct LevelSize {
    pub(crate) sides: usize,
    pub(crate) parts: usize,
}

/// What is open, with the size of the level in which it was opened.
#[derive(Clone, Copy, Debug)]
pub(crate) enum Opening {
    /// A parenthesis, and how many types stand before commas.
    Parens(LevelSize, usize),
    /// A brace, how many fields stand before commas, and the label of the field that is read.
    Braces(LevelSize, usize, u32),
}

/// What a reader wants or has at the innermost level.
#[derive(Clone, Copy, Debug)]
pub(crate) enum Stage {
    /// An operand is wanted.
    Wants,
    /// There is an operand, which may go on: a type variable, a record, or a type in parentheses.
    HasType,
    /// There is an operand, which may go on: arguments, and the constructors after them.
    HasApplied,
    /// After a left brace: a label is wanted, or the right brace.
    AfterBrace,
    /// After a comma in braces, by how many fields stand before it: a label is wanted.
    WantsLabel(usize),
    /// After a label, by how many fields stand before it: a colon is wanted.
    WantsColon(usize, u32),
    /// After arguments in parentheses: a constructor is wanted.
    WantsTycon,
}

/// A reader of one type, which is handed its tokens one at a time. What it has read is told by the states of
/// specs/machine, for the parser of files, which holds one.
#[derive(Debug, Drop)]
pub struct Reader {
    /// The types of all levels, the outermost first: sides, components, then the arguments of a parenthesis.
    pub(crate) types: Stack<TyExp>,
    /// The fields of all braces, the outermost first.
    pub(crate) fields: Stack<FieldExp>,
    /// What is open, the outermost first.
    pub(crate) around: Stack<Opening>,
    /// The innermost level.
    pub(crate) level: LevelSize,
    pub(crate) stage: Stage,
    /// The operand that there is, where it is no application.
    pub(crate) operand: TyExp,
    /// The arguments, and the constructors after them, where it is one.
    pub(crate) arguments: List<TyExp>,
    pub(crate) constructors: List<u32>,
}

// How many braces are open that aren't held yet.
fn braces(stage: Stage) -> u32
    ensures { result ≡ machine.braces_of stage }
{
    match stage {
        Stage::Wants => 0,
        Stage::HasType => 0,
        Stage::HasApplied => 0,
        Stage::AfterBrace => 1,
        Stage::WantsLabel(_) => 1,
        Stage::WantsColon(_, _) => 1,
        Stage::WantsTycon => 0,
    }
}

impl Reader {
    /// A reader that nothing was handed yet.
    pub fn new(alloc: Global) -> Reader
        ensures value { state_of result ≡ machine.start }
    {
        Reader {
            types: Stack::new(alloc),
            fields: Stack::new(alloc),
            around: Stack::new(alloc),
            level: fresh(),
            stage: Stage::Wants,
            operand: TyExp::Var(0),
            arguments: List::new(alloc),
            constructors: List::new(alloc),
        }
    }

    /// Forgets what was handed.
    pub fn restart(&mut self)
        ensures value { state_of self.new ≡ machine.start }
    {
        self.types.clear();
        self.fields.clear();
        self.around.clear();
        self.level = fresh();
        self.stage = Stage::Wants;
    }

    /// How many parentheses and braces are open.
    pub fn depth(&self) -> u32
        requires small { machine.depth (state_of self.now) < 2 ^ 32 }
        ensures value { result ≡ machine.depth (state_of self.now) }
    {
        let more = braces(self.stage);
        self.around.len() as u32 + more
    }

    /// Whether a token of this sort can stand next. Nothing is handed over.
    #[tactic(auto, unfolding(crate::specs::machine::Machine::label, crate::specs::machine::Machine::tycon))]
    pub fn accepts(&self, sort: Sort) -> bool
        ensures value { (place : ℕ) → result ≡ is_some (machine.step (state_of self.now) (place, sort)) }
    {
        match self.stage {
            Stage::Wants => can_want(sort),
            Stage::HasType => self.can_have(sort),
            Stage::HasApplied => self.can_have(sort),
            Stage::AfterBrace => can_brace(sort),
            Stage::WantsLabel(_) => sort.is_label(),
            Stage::WantsColon(_, _) => can_colon(sort),
            Stage::WantsTycon => sort.is_long_tycon(),
        }
    }

    /// Hands over the token with this number and sort; false exactly where it cannot stand there. After that,
    /// and where memory was wanting, the reader is spent: only `restart` makes it one that has read nothing.
    pub fn next(&mut self, alloc: Global, place: u32, sort: Sort) -> Result<bool, NoMemory>
        ensures value { IfOk result (λ can. taken can (state_of self.new)
            ≡ machine.step (state_of self.old) (place, sort)) }
    {
        match self.stage {
            Stage::Wants => self.want(alloc, place, sort),
            Stage::HasType => self.have_type(alloc, place, sort),
            Stage::HasApplied => self.have_applied(alloc, place, sort),
            Stage::AfterBrace => Ok(self.brace(alloc, place, sort)),
            Stage::WantsLabel(count) => Ok(self.label(count, place, sort)),
            Stage::WantsColon(count, label) => self.colon(count, label, sort),
            Stage::WantsTycon => self.tycon(alloc, place, sort),
        }
    }

    // The type that was read; `None` exactly where it cannot end here.
    fn closed(&mut self, last: TyExp) -> Result<Option<TyExp>, NoMemory>
        ensures { IfOk result (λ o.
            o ≡ machine.closed (stack_of self.old).outer (machine.whole (stack_of self.old).level last)) }
    {
        if !self.around.is_empty() {
            return Ok(None);
        }
        let ty = whole(&mut self.types, self.level, last)?;
        Ok(Some(ty))
    }

    /// The type that was read; `None` exactly where it cannot end here. Either way the reader is spent.
    pub fn finish(&mut self, alloc: Global) -> Result<Option<TyExp>, NoMemory>
        ensures value { IfOk result (λ o. o ≡ machine.finish (state_of self.old)) }
    {
        match self.stage {
            Stage::HasType => {
                let last = self.take_operand();
                self.closed(last)
            }
            Stage::HasApplied => {
                let last = self.take_applied(alloc);
                self.closed(last)
            }
            _ => Ok(None),
        }
    }
}
