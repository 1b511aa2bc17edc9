use std::alloc::{AllocError, Global};
use std::test::Fail;
use sv_list::Items;

/// Three items, one behind them, and one before that.
fn longer(alloc: Global) -> Result<Items<u32>, AllocError> {
    let mut list = Items::from_slice(alloc, &[1, 2, 3])?;
    list.reserve(3)?;
    list.push(5)?;
    let last = list.len().saturating_sub(1);
    list.insert(last, 4)?;
    Ok(list)
}

/// Takes the first of three items or more, and puts another in the place of the next one.
fn edit(list: &mut Items<u32>) -> Option<u32> {
    if list.len() > 2 {
        let first = list.remove(0);
        list.set(0, 7);
        Some(first)
    } else {
        None
    }
}

#[test]
fn a_list_is_edited(rt: HostRuntime) -> Result<(), Fail> {
    let mut list = longer(rt.alloc())?;
    assert!(rt; edit(&mut list) == Some(1));
    assert!(rt; list.as_slice() == [7, 3, 4, 5].as_slice());
    Ok(())
}
