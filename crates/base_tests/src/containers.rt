//! Lists and boxes, at a concrete type.

use std::test::Fail;
use wit_model::{Boxed, List};

#[test]
fn keeps_values_in_order(rt: HostRuntime) -> Result<(), Fail> {
    let mut list = List::from_slice(rt.alloc(), &[3u8, 1])?;
    list.push(4)?;
    assert!(rt; list.as_slice() == [3, 1, 4].as_slice());
    assert!(rt; list.get(3).is_none());
    let boxed = Boxed::new(rt.alloc(), 7u8)?;
    assert!(rt; boxed.into_inner() == 7);
    Ok(())
}
