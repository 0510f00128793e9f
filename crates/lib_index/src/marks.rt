// The marks of the variables of a scheme.
ghost use Rattle.std.specs.Prelude.{◌≡◌, IfOk, OnOk, map};
ghost use Rattle.lib_index.specs.IndexText.{marks};
ghost use Rattle.lib_index.specs.Marks.{mark_met, marks_met};
ghost use Rattle.type_core.specs.Lists.{concatenated};
ghost use Rattle.type_core.specs.Schemes.{IsScheme};
ghost use Rattle.type_core.specs.Variables.{field_variables, variables};

use sig_base::{List, NoMemory};
use std::alloc::Global;
use type_core::{Field, Scheme, Ty, VarId};

/// For each variable of a scheme, in the order of their numbers, whether it has the mark.
pub fn marks_of(alloc: Global, scheme: &Scheme) -> Result<List<bool>, NoMemory>
    requires scheme { IsScheme scheme.now }
    ensures value { IfOk result (λ found. found ≡ marks scheme.now) }
{
    let mut met = List::new(alloc);
    gather(&mut met, &scheme.body)?;
    Ok(met)
}

fn meet(met: &mut List<bool>, v: VarId) -> Result<(), NoMemory>
    ensures met { OnOk result (met.new ≡ mark_met met.old v) }
{
    if v.n as usize == met.len() {
        met.push(v.eq)
    } else {
        Ok(())
    }
}

#[cycle(gather)]
#[tactic(auto, using(crate::proofs::Meeting::meeting, std::proofs::lemmas::Grind::common_steps))]
fn gather(met: &mut List<bool>, t: &Ty) -> Result<(), NoMemory>
    ensures met { OnOk result (met.new ≡ marks_met met.old (variables t.now)) }
{
    match t {
        Ty::Var(v) => meet(met, *v),
        Ty::Con(_, arguments) => gather_all(met, arguments.as_slice()),
        Ty::Rec(fields) => gather_fields(met, fields.as_slice()),
        Ty::Tup(components) => gather_all(met, components.as_slice()),
        Ty::Arrow(from, to) => {
            gather(met, from.get())?;
            gather(met, to.get())
        }
    }
}

#[cycle(gather)]
#[tactic(auto, using(crate::proofs::Meeting::meeting, std::proofs::lemmas::Grind::common_steps))]
fn gather_all(met: &mut List<bool>, parts: &[Ty]) -> Result<(), NoMemory>
    ensures met { OnOk result (met.new ≡ marks_met met.old (concatenated (map variables parts.now))) }
{
    for part in parts {
        gather(met, part)?;
    }
    Ok(())
}

#[cycle(gather)]
#[tactic(auto, using(crate::proofs::Meeting::meeting, std::proofs::lemmas::Grind::common_steps))]
fn gather_fields(met: &mut List<bool>, fields: &[Field]) -> Result<(), NoMemory>
    ensures met { OnOk result (met.new ≡ marks_met met.old (concatenated (map field_variables fields.now))) }
{
    for field in fields {
        gather(met, &field.ty)?;
    }
    Ok(())
}
