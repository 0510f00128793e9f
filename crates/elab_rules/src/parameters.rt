// The parameters of described type constructors.
ghost use Rattle.std.specs.Prelude.{◌≡◌, [], IfOk, length};
ghost use Rattle.elab_rules.specs.Outcome.{Gives};
ghost use Rattle.elab_rules.specs.Parameters as spec;
ghost use Rattle.elab_rules.specs.Parameters.{marked, numbered_from, parameters_checked, variables_at};
ghost use Rattle.elab_types.specs.Views.{texts};

use crate::refusal::{ElabRefusal, Why};
use elab_types::{Places, Source};
use sig_base::{List, NoMemory, Row};
use std::alloc::Global;
use type_core::{NameId, Ty, VarId};

/// Whether no parameter stands twice; else it is refused where it stands again.
pub fn check_parameters(
    alloc: Global,
    source: &Source<'_>,
    tokens: &[u32],
) -> Result<(), ElabRefusal>
    ensures outcome { Gives (parameters_checked (texts source.now) [] tokens.now) result }
{
    let mut seen = Places::new(alloc);
    for token in tokens {
        let text = source.text(*token);
        if seen.has(text) {
            return Err(ElabRefusal::Refused(Why::RepeatedParameter, *token));
        }
        seen.insert(alloc, text, 0)?;
    }
    Ok(())
}

/// The variables at tokens.
pub fn variables_at(
    alloc: Global,
    source: &Source<'_>,
    tokens: &[u32],
) -> Result<List<VarId>, NoMemory>
    ensures value { IfOk result (λ vs. vs ≡ variables_at (texts source.now) tokens.now) }
{
    let mut variables = List::new(alloc);
    for token in tokens {
        variables.push(source.variable(*token))?;
    }
    Ok(variables)
}

// The parameters as types, which keep their marks.
fn numbered(alloc: Global, parameters: &[VarId]) -> Result<Row<Ty>, NoMemory>
    ensures value { IfOk result (λ ts. ts ≡ numbered_from 0 parameters.now) }
{
    let mut types = List::new(alloc);
    for (n, v) in parameters.iter().enumerate() {
        match u32::try_from(n) {
            Err(_) => return Err(NoMemory),
            Ok(n) => types.push(Ty::Var(VarId { n, eq: v.eq }))?,
        }
    }
    Row::new(alloc, types)
}

/// The name applied to its parameters in order, which keep their marks.
pub fn marked(alloc: Global, name: NameId, parameters: &[VarId]) -> Result<Ty, NoMemory>
    ensures value { IfOk result (λ t. t ≡ marked name.0 parameters.now) }
{
    Ok(Ty::Con(name, numbered(alloc, parameters)?))
}
