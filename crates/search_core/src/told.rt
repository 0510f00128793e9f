// What is told of the members that were found, once for each type.
ghost use Rattle.std.specs.Prelude.{List, IfOk};
ghost use Rattle.type_core.specs.Schemes.{IsScheme};
ghost use Rattle.type_core.specs.Types.{IsType};
ghost use Rattle.type_core.specs.declared.names.TypeName.{TypeName};
ghost use Rattle.search_core.specs.Comparing.{IsFound, IsFoundInSomeMode};
ghost use Rattle.search_core.specs.Search.{AreDetails};
ghost use Rattle.search_core.specs.Telling.{AreTold};
ghost use Rattle.search_core.specs.declared.answer.Mode.{Mode};
ghost use Rattle.type_core.specs.declared.ty.Scheme.{Scheme as the_scheme};

use crate::answer::Details;
use crate::comparing::Found;
use crate::converting::converters;
use conv_build::build;
use sig_base::{List, NoMemory, Shared};
use std::alloc::Global;
use type_core::Scheme;
use type_numbers::TypeNumbers;

/// What is told of the types of members, by their numbers.
#[derive(Drop)]
pub struct Told {
    pub types: TypeNumbers,
    pub details: List<Details>,
}

impl Told {
    /// Nothing is told of any type.
    pub fn new(alloc: Global) -> Result<Told, NoMemory>
        ensures told { IfOk result (λ told. (names : List TypeName) (mode : Mode) (query : the_scheme) → AreTold names mode query told) }
    {
        Ok(Told {
            types: TypeNumbers::new(alloc)?,
            details: List::new(alloc),
        })
    }

    /// What is told of a scheme that was found: what was told of its type before, or else it is made.
    pub fn tell(
        &mut self,
        alloc: Global,
        scheme: &Scheme,
        query: &Scheme,
        found: Found,
    ) -> Result<Details, NoMemory>
        requires scheme { IsScheme scheme.now }
        requires type_ { IsType scheme.now.body }
        requires query { IsType query.now.body }
        requires found { IsFoundInSomeMode scheme.now query.now found }
        ensures { IfOk result (λ details. (names : List TypeName) (mode : Mode) → IsFound names mode scheme.now query.now found
            → AreTold names mode query.now self.old → AreDetails names mode scheme.now query.now details × AreTold names mode query.now self.new) }
    {
        let number = self.types.number(&scheme.body)?;
        match self.details.get(number) {
            Some(details) => details.share(),
            None => {
                let details = details(alloc, scheme, query, found)?;
                self.details.push(details.share()?)?;
                Ok(details)
            }
        }
    }
}

/// What is told of a scheme that was found.
fn details(
    alloc: Global,
    scheme: &Scheme,
    query: &Scheme,
    found: Found,
) -> Result<Details, NoMemory>
    requires scheme { IsScheme scheme.now }
    requires type_ { IsType scheme.now.body }
    requires query { IsType query.now.body }
    requires found { IsFoundInSomeMode scheme.now query.now found }
    ensures { IfOk result (λ details. (names : List TypeName) (mode : Mode) → IsFound names mode scheme.now query.now found
        → AreDetails names mode scheme.now query.now details) }
{
    match found {
        Found::Equal => Ok(Details {
            pairing: None,
            instance: None,
            conv: None,
        }),
        Found::Paired(pairing) => {
            let conv = converters(alloc, scheme, query, &pairing)?;
            Ok(Details {
                pairing: Some(Shared::new(alloc, pairing.tree)?),
                instance: None,
                conv: Some(Shared::new(alloc, conv)?),
            })
        }
        Found::Matched(instance, pairing) => {
            let conv = build(alloc, &instance.body, &query.body, &pairing)?;
            Ok(Details {
                pairing: Some(Shared::new(alloc, pairing)?),
                instance: Some(Shared::new(alloc, instance)?),
                conv: Some(Shared::new(alloc, conv)?),
            })
        }
    }
}
