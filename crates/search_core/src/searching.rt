// The search.
ghost use Rattle.std.specs.Prelude.{IfOk};
ghost use Rattle.search_core.specs.Search.{AreHits, CanBeSearched, CanBeSearchedFor};

use crate::answer::{Answer, Hit, Mode};
use crate::comparing::{Comparison, compared};
use crate::told::Told;
use iso_normal::normal;
use sig_base::{List, NoMemory};
use std::alloc::Global;
use type_core::{Library, Scheme, normal_size};

/// The members of the library that the mode finds for the query. What is told of members of one type is made once.
pub fn search(alloc: Global, lib: &Library, mode: Mode, query: &Scheme) -> Result<Answer, NoMemory>
    requires library { CanBeSearched lib.now }
    requires query { CanBeSearchedFor query.now }
    ensures hits { IfOk result (λ answer. AreHits lib.now mode query.now answer.hits) }
{
    let members = lib.members.as_slice();
    let wanted = normal(alloc, &query.body)?;
    let size = normal_size(&query.body);
    let mut told = Told::new(alloc)?;
    let mut hits = List::new(alloc);
    for i in 0..members.len() {
        let scheme = &members[i].scheme;
        match compared(alloc, &lib.names, mode, scheme, query, &wanted, size)? {
            Comparison::Found(found) => {
                let details = told.tell(alloc, scheme, query, found)?;
                hits.push(Hit {
                    member: i as u32,
                    pairing: details.pairing,
                    instance: details.instance,
                    conv: details.conv,
                })?;
            }
            Comparison::Apart => {}
        }
    }
    Ok(Answer { hits })
}
