// From the type expression of a query to its type (the Definition of Standard ML, rules 44 to 49).
ghost use Rattle.std.specs.Prelude.{◌≡◌, ◌∷◌, [], ◌++◌, nat_le, map, IfOk};
ghost use Rattle.type_core.specs.Arrows.{arrows as chain};
ghost use Rattle.elab_types.specs.Records.{in_label_order, record_of};
ghost use Rattle.query_parser.specs.Types as spec;
ghost use Rattle.query_parser.specs.Types.{all_typed, field_typed, fields_typed, typed};
ghost use Rattle.query_parser.specs.Views.{Gives, place_of};
ghost use Rattle.type_core.specs.Size.{size_of};
ghost use Rattle.type_core.specs.declared.ty.Ty.TheVariants as ty;

use crate::constructors::constructor_applied;
use crate::place::Place;
use crate::refusal::{QueryWhy, Stop};
use elab_types::{Places, arrows_size, records_have_nodes};
use sig_base::{List, NoMemory, Row, Text};
use std::alloc::Global;
use ty_parser::{FieldExp, TyExp};
use type_core::{Field, Ty, size};

// The greatest number of nodes of a query's type.
const MAX_NODES: u64 = 200;

// Whether a type has at most 200 nodes.
fn is_small(t: &Ty) -> bool
    ensures value { result ≡ nat_le (size_of t.now) 200 }
{
    size(t) <= MAX_NODES
}

// The type, where it has at most 200 nodes; else it is refused at the query's first token.
fn limited(t: Ty) -> Result<Ty, Stop>
    ensures outcome { Gives (spec.limited t) result }
{
    if is_small(&t) {
        Ok(t)
    } else {
        Err(Stop::Failed(QueryWhy::TooLarge, 0))
    }
}

// The tuple of types.
fn tuple(alloc: Global, parts: List<Ty>) -> Result<Ty, Stop>
    ensures outcome { Gives (spec.limited (ty.Tup parts)) result }
{
    let parts = Row::new(alloc, parts)?;
    limited(Ty::Tup(parts))
}

// Whether the types with arrows between them have at most 200 nodes.
fn are_small(sides: &[Ty]) -> bool
    ensures value { result ≡ nat_le (size_of (chain sides.now)) 200 }
{
    arrows_size(sides) <= MAX_NODES
}

// The types with arrows between them. A chain that is too long isn't built.
fn arrows(alloc: Global, sides: List<Ty>) -> Result<Ty, Stop>
    ensures outcome { Gives (spec.limited (chain sides)) result }
{
    if !are_small(sides.as_slice()) {
        return Err(Stop::Failed(QueryWhy::TooLarge, 0));
    }
    let t = elab_types::arrows(alloc, sides)?;
    limited(t)
}

// The type of fields of distinct labels. Too many fields aren't put in order.
fn record(alloc: Global, fields: List<Field>) -> Result<Ty, Stop>
    ensures outcome { Gives (spec.limited (record_of (in_label_order fields))) result }
{
    records_have_nodes();
    if fields.len() as u64 >= MAX_NODES {
        return Err(Stop::Failed(QueryWhy::TooLarge, 0));
    }
    let t = elab_types::record_of(alloc, fields)?;
    limited(t)
}

// The constructor at a token, applied to arguments.
fn constructed(
    alloc: Global,
    place: &Place<'_>,
    token: u32,
    arguments: List<Ty>,
) -> Result<Ty, Stop>
    ensures outcome { Gives (spec.constructed (place_of place.now) token arguments) result }
{
    let path = place.source.text(token);
    match constructor_applied(alloc, place, token, path, arguments) {
        Ok(t) => limited(t),
        Err(stop) => Err(stop),
    }
}

fn one(alloc: Global, t: Ty) -> Result<List<Ty>, NoMemory>
    ensures value { IfOk result (λ all. all ≡ t ∷ []) }
{
    let mut all = List::new(alloc);
    all.push(t)?;
    Ok(all)
}

// The constructors at these tokens, each applied to what stands before it, the first to the arguments.
fn constructed_all(
    alloc: Global,
    place: &Place<'_>,
    arguments: List<Ty>,
    constructors: &[u32],
) -> Result<Ty, Stop>
    ensures outcome { Gives (spec.constructed_all (place_of place.now) arguments constructors.now) result }
{
    let [first, others @ ..] = constructors else {
        return tuple(alloc, arguments);
    };
    let mut t = constructed(alloc, place, *first, arguments)?;
    for token in others {
        let argument = one(alloc, t)?;
        t = constructed(alloc, place, *token, argument)?;
    }
    Ok(t)
}

/// The type of a type expression, or the first condition that fails in it.
#[cycle(typing)]
pub fn type_of(alloc: Global, e: &TyExp, place: &Place<'_>) -> Result<Ty, Stop>
    ensures outcome { Gives (typed e.now (place_of place.now)) result }
{
    match e {
        TyExp::Var(token) => Ok(Ty::Var(place.source.variable(*token))),
        TyExp::Fields(fields) => {
            let fields = all_fields(alloc, fields.as_slice(), place)?;
            record(alloc, fields)
        }
        TyExp::Tuple(parts) => {
            let parts = all_types(alloc, parts.as_slice(), place)?;
            tuple(alloc, parts)
        }
        TyExp::Arrows(sides) => {
            let sides = all_types(alloc, sides.as_slice(), place)?;
            arrows(alloc, sides)
        }
        TyExp::Apply(arguments, constructors) => {
            let arguments = all_types(alloc, arguments.as_slice(), place)?;
            constructed_all(alloc, place, arguments, constructors.as_slice())
        }
    }
}

// The types of type expressions, from left to right.
#[cycle(typing)]
fn all_types(alloc: Global, parts: &[TyExp], place: &Place<'_>) -> Result<List<Ty>, Stop>
    ensures outcome { Gives (all_typed (map typed parts.now) (place_of place.now)) result }
{
    let mut types = List::new(alloc);
    for part in parts {
        types.push(type_of(alloc, part, place)?)?;
    }
    Ok(types)
}

// The fields of a record, from left to right.
#[cycle(typing)]
fn all_fields(alloc: Global, parts: &[FieldExp], place: &Place<'_>) -> Result<List<Field>, Stop>
    ensures outcome { Gives (fields_typed (place_of place.now) [] (map field_typed parts.now)) result }
{
    let mut labels = Places::new(alloc);
    let mut fields = List::new(alloc);
    for part in parts {
        let text = place.source.text(part.label);
        if labels.has(text) {
            return Err(Stop::Failed(QueryWhy::Duplicate, part.label));
        }
        labels.insert(alloc, text, fields.len())?;
        let ty = type_of(alloc, &part.ty, place)?;
        let label = Text::from_slice(alloc, text)?;
        fields.push(Field { label, ty })?;
    }
    Ok(fields)
}
