// The initial environment (the Definition, appendix C, and the Basis Library).
ghost use Rattle.std.specs.Prelude.{◌≡◌, ◌++◌, ◌∷◌, [], IfOk, OnOk};
ghost use Rattle.elab_rules.specs.InitialEnvironment as spec;
ghost use Rattle.elab_rules.specs.InitialEnvironment.{alpha, base_constructors, base_type, base_types, constant, initial_environment, unary, unary_constructors, unary_type, unary_types};
ghost use Rattle.elab_rules.specs.Environments.{the_value};

use crate::entry::{Entry, TypeEntry, ValueEntry};
use sig_base::{List, NoMemory, Row, Shared, Text};
use std::alloc::Global;
use type_core::{Kind, NameId, Scheme, Ty, TypeFn, VarId};

/// The environment of what every file may use.
#[tactic(auto, unfolding(crate::specs::InitialEnvironment::initial_environment))]
pub fn initial_environment(alloc: Global) -> Result<List<Entry>, NoMemory>
    ensures value { IfOk result (λ env. env ≡ initial_environment) }
{
    let mut env = List::new(alloc);
    push_base_types(alloc, &mut env)?;
    push_unary_types(alloc, &mut env)?;
    push_base_constructors(alloc, &mut env)?;
    push_unary_constructors(alloc, &mut env)?;
    Ok(env)
}

fn push_base_types(alloc: Global, env: &mut List<Entry>) -> Result<(), NoMemory>
    ensures pushed { OnOk result (env.new ≡ env.old ++ base_types) }
{
    push_base(alloc, env, b"int", 0)?;
    push_base(alloc, env, b"word", 1)?;
    push_base(alloc, env, b"real", 2)?;
    push_base(alloc, env, b"char", 3)?;
    push_base(alloc, env, b"string", 4)?;
    push_base(alloc, env, b"substring", 5)?;
    push_base(alloc, env, b"exn", 6)?;
    push_bool(alloc, env)?;
    push_order(alloc, env)
}

fn push_unary_types(alloc: Global, env: &mut List<Entry>) -> Result<(), NoMemory>
    ensures pushed { OnOk result (env.new ≡ env.old ++ unary_types) }
{
    push_list(alloc, env)?;
    push_ref(alloc, env)?;
    push_option(alloc, env)?;
    push_unary(alloc, env, b"vector", 12)?;
    push_unary(alloc, env, b"array", 13)?;
    push_unit(alloc, env)
}

fn push_base_constructors(alloc: Global, env: &mut List<Entry>) -> Result<(), NoMemory>
    ensures pushed { OnOk result (env.new ≡ env.old ++ base_constructors) }
{
    push_constant(alloc, env, b"false", 7)?;
    push_constant(alloc, env, b"true", 7)?;
    push_constant(alloc, env, b"LESS", 8)?;
    push_constant(alloc, env, b"EQUAL", 8)?;
    push_constant(alloc, env, b"GREATER", 8)
}

fn push_unary_constructors(alloc: Global, env: &mut List<Entry>) -> Result<(), NoMemory>
    ensures pushed { OnOk result (env.new ≡ env.old ++ unary_constructors) }
{
    push_empty(alloc, env, b"nil", 9)?;
    push_cons(alloc, env)?;
    push_holder(alloc, env, b"ref", 10)?;
    push_empty(alloc, env, b"NONE", 11)?;
    push_holder(alloc, env, b"SOME", 11)
}

// A type constructor without arguments and constructors.
fn push_base(alloc: Global, env: &mut List<Entry>, id: &[u8], n: u32) -> Result<(), NoMemory>
    ensures pushed { OnOk result (env.new ≡ env.old ++ base_type id.now n [] ∷ []) }
{
    push_type(alloc, env, id, 0, constant(n), List::new(alloc))
}

// A type constructor of one argument, without constructors.
fn push_unary(alloc: Global, env: &mut List<Entry>, id: &[u8], n: u32) -> Result<(), NoMemory>
    ensures pushed { OnOk result (env.new ≡ env.old ++ unary_type id.now n [] ∷ []) }
{
    push_type(alloc, env, id, 1, unary(alloc, n)?, List::new(alloc))
}

fn push_bool(alloc: Global, env: &mut List<Entry>) -> Result<(), NoMemory>
    ensures pushed { OnOk result (env.new ≡ env.old ++ spec.bool_type ∷ []) }
{
    let constructors = two(alloc, b"false", b"true")?;
    push_type(alloc, env, b"bool", 0, constant(7), constructors)
}

fn push_order(alloc: Global, env: &mut List<Entry>) -> Result<(), NoMemory>
    ensures pushed { OnOk result (env.new ≡ env.old ++ spec.order_type ∷ []) }
{
    let constructors = three(alloc, b"LESS", b"EQUAL", b"GREATER")?;
    push_type(alloc, env, b"order", 0, constant(8), constructors)
}

fn push_list(alloc: Global, env: &mut List<Entry>) -> Result<(), NoMemory>
    ensures pushed { OnOk result (env.new ≡ env.old ++ spec.list_type ∷ []) }
{
    let constructors = two(alloc, b"nil", b"::")?;
    push_type(alloc, env, b"list", 1, unary(alloc, 9)?, constructors)
}

fn push_ref(alloc: Global, env: &mut List<Entry>) -> Result<(), NoMemory>
    ensures pushed { OnOk result (env.new ≡ env.old ++ spec.ref_type ∷ []) }
{
    let constructors = one(alloc, b"ref")?;
    push_type(alloc, env, b"ref", 1, unary(alloc, 10)?, constructors)
}

fn push_option(alloc: Global, env: &mut List<Entry>) -> Result<(), NoMemory>
    ensures pushed { OnOk result (env.new ≡ env.old ++ spec.option_type ∷ []) }
{
    let constructors = two(alloc, b"NONE", b"SOME")?;
    push_type(alloc, env, b"option", 1, unary(alloc, 11)?, constructors)
}

fn push_unit(alloc: Global, env: &mut List<Entry>) -> Result<(), NoMemory>
    ensures pushed { OnOk result (env.new ≡ env.old ++ spec.unit_type ∷ []) }
{
    push_type(
        alloc,
        env,
        b"unit",
        0,
        Ty::Tup(Row::empty()),
        List::new(alloc),
    )
}

// A constructor that is a value of a type without arguments.
fn push_constant(alloc: Global, env: &mut List<Entry>, id: &[u8], n: u32) -> Result<(), NoMemory>
    ensures pushed { OnOk result (env.new ≡ env.old ++ spec.constructor id.now 0 (constant n) ∷ []) }
{
    push_constructor(alloc, env, id, 0, constant(n))
}

// A constructor that is a value of a type of one argument.
fn push_empty(alloc: Global, env: &mut List<Entry>, id: &[u8], n: u32) -> Result<(), NoMemory>
    ensures pushed { OnOk result (env.new ≡ env.old ++ spec.constructor id.now 1 (unary n alpha) ∷ []) }
{
    push_constructor(alloc, env, id, 1, unary(alloc, n)?)
}

// A constructor that makes a type of one argument of a value of that argument.
fn push_holder(alloc: Global, env: &mut List<Entry>, id: &[u8], n: u32) -> Result<(), NoMemory>
    ensures pushed { OnOk result (env.new ≡ env.old ++ spec.constructor id.now 1 (spec.arrow alpha (unary n alpha)) ∷ []) }
{
    let body = arrow(alloc, alpha(), unary(alloc, n)?)?;
    push_constructor(alloc, env, id, 1, body)
}

fn push_cons(alloc: Global, env: &mut List<Entry>) -> Result<(), NoMemory>
    ensures pushed { OnOk result (env.new ≡ env.old ++ spec.cons_constructor ∷ []) }
{
    let pair = pair(alloc, alpha(), unary(alloc, 9)?)?;
    let body = arrow(alloc, pair, unary(alloc, 9)?)?;
    push_constructor(alloc, env, b"::", 1, body)
}

fn push_type(
    alloc: Global,
    env: &mut List<Entry>,
    id: &[u8],
    arity: u32,
    body: Ty,
    constructors: List<Text>,
) -> Result<(), NoMemory>
    ensures pushed { OnOk result (env.new ≡ env.old ++ spec.initial_type id.now arity body constructors ∷ []) }
{
    let id = Text::from_slice(alloc, id)?;
    env.push(Entry::Tycon(TypeEntry {
        id,
        fun: TypeFn { arity, body },
        constructors,
    }))
}

fn push_constructor(
    alloc: Global,
    env: &mut List<Entry>,
    id: &[u8],
    vars: u32,
    body: Ty,
) -> Result<(), NoMemory>
    ensures pushed { OnOk result (env.new ≡ env.old ++ spec.constructor id.now vars body ∷ []) }
{
    let id = Text::from_slice(alloc, id)?;
    env.push(Entry::Value(ValueEntry {
        id,
        kind: Kind::Con,
        scheme: Scheme { vars, body },
    }))
}

// The first variable, without mark.
fn alpha() -> Ty
    ensures value { result ≡ alpha }
{
    Ty::Var(VarId { n: 0, eq: false })
}

// The initial name of this number.
pub fn constant(n: u32) -> Ty
    ensures value { result ≡ constant n }
{
    Ty::Con(NameId(n), Row::empty())
}

// The initial name of this number, applied to the first variable.
fn unary(alloc: Global, n: u32) -> Result<Ty, NoMemory>
    ensures value { IfOk result (λ t. t ≡ unary n alpha) }
{
    let mut arguments = List::new(alloc);
    arguments.push(alpha())?;
    let arguments = Row::new(alloc, arguments)?;
    Ok(Ty::Con(NameId(n), arguments))
}

fn pair(alloc: Global, first: Ty, second: Ty) -> Result<Ty, NoMemory>
    ensures value { IfOk result (λ t. t ≡ spec.pair first second) }
{
    let mut components = List::new(alloc);
    components.push(first)?;
    components.push(second)?;
    let components = Row::new(alloc, components)?;
    Ok(Ty::Tup(components))
}

fn arrow(alloc: Global, from: Ty, to: Ty) -> Result<Ty, NoMemory>
    ensures value { IfOk result (λ t. t ≡ spec.arrow from to) }
{
    Ok(Ty::Arrow(Shared::new(alloc, from)?, Shared::new(alloc, to)?))
}

fn one(alloc: Global, id: &[u8]) -> Result<List<Text>, NoMemory>
    ensures value { IfOk result (λ ids. ids ≡ id.now ∷ []) }
{
    let mut ids = List::new(alloc);
    ids.push(Text::from_slice(alloc, id)?)?;
    Ok(ids)
}

fn two(alloc: Global, first: &[u8], second: &[u8]) -> Result<List<Text>, NoMemory>
    ensures value { IfOk result (λ ids. ids ≡ first.now ∷ second.now ∷ []) }
{
    let mut ids = one(alloc, first)?;
    ids.push(Text::from_slice(alloc, second)?)?;
    Ok(ids)
}

fn three(alloc: Global, first: &[u8], second: &[u8], third: &[u8]) -> Result<List<Text>, NoMemory>
    ensures value { IfOk result (λ ids. ids ≡ first.now ∷ second.now ∷ third.now ∷ []) }
{
    let mut ids = two(alloc, first, second)?;
    ids.push(Text::from_slice(alloc, third)?)?;
    Ok(ids)
}
