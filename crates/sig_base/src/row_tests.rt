// Rows and shared values, and their copies.
use crate::{List, NoMemory, Row, Shared};
use std::alloc::Global;
use std::test::Fail;

fn row(alloc: Global, first: u8, second: u8) -> Result<Row<u8>, NoMemory> {
    let mut both = List::new(alloc);
    both.push(first)?;
    both.push(second)?;
    Row::new(alloc, both)
}

#[test]
fn copies_are_equal(rt: HostRuntime) -> Result<(), Fail> {
    let alloc = rt.alloc();
    let some = row(alloc, 1, 2)?;
    assert!(rt; some.share()? == some);
    assert!(rt; !(row(alloc, 2, 1)? == some));
    assert!(rt; Row::new(alloc, List::<u8>::new(alloc))?.is_empty());
    assert_eq!(rt; some.get(1).copied(), Some(2));
    let one = Shared::new(alloc, 7u8)?;
    assert!(rt; one.share()? == one);
    Ok(())
}
