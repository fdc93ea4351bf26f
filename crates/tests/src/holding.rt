// Stores: their memory is there where there is memory, and they hold what is put in.
use std::test::*;
use stores::numbers::Numbers;
use stores::store::Store;

#[test]
fn a_store_gets_its_memory(rt: HostRuntime) -> Result<(), Fail> {
    let mut store: Store<u32, 2> = Store::new(rt.alloc())?;
    store.push(7);
    assert!(rt; store.as_slice() == [7].as_slice() && !store.is_full());
    store.push(9);
    assert!(rt; store.as_slice() == [7, 9].as_slice() && store.is_full());
    store.clear();
    assert_eq!(rt; store.len(), 0);
    Ok(())
}

#[test]
fn numbers_are_taken_up_to_the_most(rt: HostRuntime) -> Result<(), Fail> {
    let few: Numbers<2> = Numbers::try_from([5, 6].as_slice()).ok().ok_or("too many")?;
    assert!(rt; few.as_slice() == [5, 6].as_slice());
    assert!(rt; Numbers::<1>::try_from([5, 6].as_slice()).is_err());
    Ok(())
}
