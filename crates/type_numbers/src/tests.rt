// Types that come again.
use crate::TypeNumbers;
use sig_base::{NoMemory, Row, Shared};
use std::alloc::Global;
use std::test::Fail;
use type_core::{NameId, Ty, VarId};

fn arrow(alloc: Global, name: u32) -> Result<Ty, NoMemory> {
    let from = Shared::new(alloc, Ty::Con(NameId(name), Row::empty()))?;
    let to = Shared::new(alloc, Ty::Var(VarId { n: 0, eq: false }))?;
    Ok(Ty::Arrow(from, to))
}

#[test]
fn types_come_again(rt: HostRuntime) -> Result<(), Fail> {
    let alloc = rt.alloc();
    let mut numbers = TypeNumbers::new(alloc)?;
    for (name, number) in [(3, 0), (5, 1), (3, 0), (4, 2), (5, 1)] {
        let t = arrow(alloc, name)?;
        assert_eq!(rt; numbers.number(&t)?, number);
    }
    Ok(())
}
