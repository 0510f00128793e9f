// From type expressions to types (the Definition of Standard ML, rules 44 to 49).
ghost use Rattle.std.specs.Prelude.{◌≡◌, ◌∷◌, [], ℕ, List, Some, true, false, map, length, bytes_eq, IfOk, MatchOption, OnOk};
ghost use Rattle.elab_rules.specs.Outcome.{Gives, GivesWith};
ghost use Rattle.elab_types.specs.Sources.{variable};
ghost use Rattle.elab_rules.specs.States.{State};
ghost use Rattle.elab_rules.specs.Types as spec;
ghost use Rattle.elab_rules.specs.Types.{all_typed, field_typed, fields_typed, typed, variable_of};
ghost use Rattle.std.specs.List.{All};
ghost use Rattle.elab_rules.specs.Standing.{IsSettledType, Mentions, Sees};
ghost use Rattle.elab_rules.specs.Views.{place_by_now, state_of, variables_of};
ghost use Rattle.elab_types.specs.Views.{texts};
ghost use Rattle.type_core.specs.Variables.{occurs, place, same_variable};

use crate::look_ups::function_at;
use elab_rules::limits::{arrows, limited, record, tuple};
use elab_rules::place::Place;
use elab_rules::progress::Progress;
use elab_rules::refusal::{ElabRefusal, Why};
use elab_rules::variables::Variables;
use elab_types::{Places, is_qualified};
use sig_base::{List, NoMemory, Row, Text};
use std::alloc::Global;
use ty_parser::{FieldExp, TyExp};
use type_core::{Field, Ty, VarId, apply_fn};

fn is_same(v: VarId, w: VarId) -> bool
    ensures value { result ≡ same_variable v w }
{
    v.n == w.n && v.eq == w.eq
}

// The place of a variable among parameters.
fn parameter_place(parameters: &[VarId], v: VarId) -> Option<usize>
    ensures value { MatchOption result (occurs v parameters.now ≡ false) (λ n. (occurs v parameters.now ≡ true) × (n ≡ place v parameters.now)) }
{
    for (n, parameter) in parameters.iter().enumerate() {
        if is_same(v, *parameter) {
            return Some(n);
        }
    }
    None
}

// The type of a parameter.
fn parameter(parameters: &[VarId], marks: bool, v: VarId, token: u32) -> Result<Ty, ElabRefusal>
    ensures outcome { Gives (variable_of (spec.Parameters marks parameters.now) v token) result }
{
    match parameter_place(parameters, v) {
        None => Err(ElabRefusal::Refused(Why::FreeVariable, token)),
        Some(place) => match u32::try_from(place) {
            Err(_) => Err(ElabRefusal::NoMemory),
            Ok(n) => Ok(Ty::Var(VarId {
                n,
                eq: marks && v.eq,
            })),
        },
    }
}

// The type of the variable at a token.
fn variable_type(place: &Place<'_, '_>, token: u32) -> Result<Ty, ElabRefusal>
    ensures outcome { Gives (variable_of (variables_of place.now.variables) (variable (texts place.now.site.source) token) token) result }
{
    let v = place.site.source.variable(token);
    match place.variables {
        Variables::Any => Ok(Ty::Var(v)),
        Variables::Parameters(marks, parameters) => parameter(parameters, marks, v, token),
    }
}

// The type constructor at a token, applied to arguments.
fn constructed(
    alloc: Global,
    place: &Place<'_, '_>,
    token: u32,
    arguments: &List<Ty>,
    progress: &mut Progress,
) -> Result<Ty, ElabRefusal>
    requires sees { Sees progress.old place.now.site place.now.own.entries.now }
    requires arguments { All (IsSettledType progress.old.table) arguments.now }
    ensures outcome { GivesWith (spec.constructed (place_by_now progress.old place.now) token arguments.now (state_of progress.old)) result (state_of progress.new) }
    ensures settled { IfOk result (IsSettledType progress.new.table) }
    ensures sees { OnOk result (Sees progress.new place.now.site place.now.own.entries.now) }
    ensures grew { OnOk result (Mentions progress.old progress.new) }
{
    let fun = function_at(
        alloc,
        token,
        arguments.len(),
        &place.site,
        place.own,
        progress,
    )?;
    if arguments.len() != fun.arity as usize {
        return Err(ElabRefusal::Refused(Why::WrongArity, token));
    }
    let t = apply_fn(alloc, &fun, arguments)?;
    limited(place.first, t)
}

fn one(alloc: Global, t: Ty) -> Result<List<Ty>, NoMemory>
    ensures value { IfOk result (λ all. all ≡ t ∷ []) }
{
    let mut all = List::new(alloc);
    all.push(t)?;
    Ok(all)
}

// The constructors at these tokens, each applied to what stands before it, the first to the arguments.
fn constructed_all(
    alloc: Global,
    place: &Place<'_, '_>,
    arguments: List<Ty>,
    constructors: &[u32],
    progress: &mut Progress,
) -> Result<Ty, ElabRefusal>
    requires sees { Sees progress.old place.now.site place.now.own.entries.now }
    requires arguments { All (IsSettledType progress.old.table) arguments }
    ensures outcome { GivesWith (spec.constructed_all (place_by_now progress.old place.now) arguments constructors.now (state_of progress.old)) result (state_of progress.new) }
    ensures settled { IfOk result (IsSettledType progress.new.table) }
    ensures sees { OnOk result (Sees progress.new place.now.site place.now.own.entries.now) }
    ensures grew { OnOk result (Mentions progress.old progress.new) }
{
    let [first, others @ ..] = constructors else {
        let arguments = Row::new(alloc, arguments)?;
        return Ok(Ty::Tup(arguments));
    };
    let mut t = constructed(alloc, place, *first, &arguments, progress)?;
    for token in others {
        let argument = one(alloc, t)?;
        t = constructed(alloc, place, *token, &argument, progress)?;
    }
    Ok(t)
}

/// The type of a type expression, or the first condition that fails in it.
#[cycle(typing)]
pub fn type_of(
    alloc: Global,
    e: &TyExp,
    place: &Place<'_, '_>,
    progress: &mut Progress,
) -> Result<Ty, ElabRefusal>
    requires sees { Sees progress.old place.now.site place.now.own.entries.now }
    ensures outcome { GivesWith (typed e.now (place_by_now progress.old place.now) (state_of progress.old)) result (state_of progress.new) }
    ensures settled { IfOk result (IsSettledType progress.new.table) }
    ensures sees { OnOk result (Sees progress.new place.now.site place.now.own.entries.now) }
    ensures grew { OnOk result (Mentions progress.old progress.new) }
{
    match e {
        TyExp::Var(token) => variable_type(place, *token),
        TyExp::Fields(fields) => {
            let fields = all_fields(alloc, fields.as_slice(), place, progress)?;
            record(alloc, place.first, fields)
        }
        TyExp::Tuple(parts) => {
            let parts = all_types(alloc, parts.as_slice(), place, progress)?;
            tuple(alloc, place.first, parts)
        }
        TyExp::Arrows(sides) => {
            let sides = all_types(alloc, sides.as_slice(), place, progress)?;
            arrows(alloc, place.first, sides)
        }
        TyExp::Apply(arguments, constructors) => {
            let arguments = all_types(alloc, arguments.as_slice(), place, progress)?;
            constructed_all(alloc, place, arguments, constructors.as_slice(), progress)
        }
    }
}

// The types of type expressions, from left to right.
#[cycle(typing)]
fn all_types(
    alloc: Global,
    parts: &[TyExp],
    place: &Place<'_, '_>,
    progress: &mut Progress,
) -> Result<List<Ty>, ElabRefusal>
    requires sees { Sees progress.old place.now.site place.now.own.entries.now }
    ensures outcome { GivesWith (all_typed (map typed parts.now) (place_by_now progress.old place.now) (state_of progress.old)) result (state_of progress.new) }
    ensures settled { IfOk result (λ ts. All (IsSettledType progress.new.table) ts) }
    ensures sees { OnOk result (Sees progress.new place.now.site place.now.own.entries.now) }
    ensures grew { OnOk result (Mentions progress.old progress.new) }
{
    let mut types = List::new(alloc);
    for part in parts {
        types.push(type_of(alloc, part, place, progress)?)?;
    }
    Ok(types)
}

// The fields of a record, from left to right.
#[cycle(typing)]
fn all_fields(
    alloc: Global,
    parts: &[FieldExp],
    place: &Place<'_, '_>,
    progress: &mut Progress,
) -> Result<List<Field>, ElabRefusal>
    requires sees { Sees progress.old place.now.site place.now.own.entries.now }
    ensures outcome { GivesWith (fields_typed (place_by_now progress.old place.now) [] (map field_typed parts.now) (state_of progress.old)) result (state_of progress.new) }
    ensures settled { IfOk result (λ fields. All (λ field. IsSettledType progress.new.table field.ty) fields) }
    ensures sees { OnOk result (Sees progress.new place.now.site place.now.own.entries.now) }
    ensures grew { OnOk result (Mentions progress.old progress.new) }
{
    let mut labels = Places::new(alloc);
    let mut fields = List::new(alloc);
    for part in parts {
        let text = place.site.source.text(part.label);
        if labels.has(text) {
            return Err(ElabRefusal::Refused(Why::Duplicate, part.label));
        }
        labels.insert(alloc, text, fields.len())?;
        let ty = type_of(alloc, &part.ty, place, progress)?;
        let label = Text::from_slice(alloc, text)?;
        fields.push(Field { label, ty })?;
    }
    Ok(fields)
}
