// The stack at its limits.
use stack::{ArrayVec, Stack};
use std::test::Fail;
use texts::{Place, push_parts};

#[test]
fn a_full_stack_refuses_and_keeps_its_items(rt: HostRuntime) {
    let mut slots = [0u8; 2];
    let mut stack = Stack::new(&mut slots);
    let pushed = stack.push(7).is_ok() && stack.push(8).is_ok();
    let refused = stack.push(9).is_err();
    assert!(rt;
        pushed && refused && stack.len() == 2 && stack.top() == Some(8) && stack.get(2) == None
    );
    stack.truncate(1);
    assert!(rt; stack.pop() == Some(7) && stack.pop() == None);
}

#[test]
fn parts_that_do_not_all_fit_are_not_pushed(rt: HostRuntime) {
    let mut slots = [Place { start: 0, len: 0 }; 3];
    let mut parts = Stack::new(&mut slots);
    assert!(rt; push_parts(b"/a", &mut parts).is_ok());
    assert!(rt; push_parts(b"b/c", &mut parts).is_err());
    assert!(rt; parts.len() == 2);
}

#[test]
fn a_list_gives_its_items_in_order(rt: HostRuntime) -> Result<(), Fail> {
    let mut list: ArrayVec<u8, 4> = ArrayVec::new(0);
    list.extend_from_slice(&[7, 8])?;
    list.push(9)?;
    list.push_front(6)?;
    assert!(rt; list.push(1).is_err() && list.as_slice() == [6, 7, 8, 9].as_slice());
    let copy = list.clone()?;
    assert!(rt; list.move_to_front(1) == Some(7) && list.move_to_front(4) == None);
    list.set(2, 5);
    list.truncate(3);
    assert!(rt; list.as_slice() == [7, 6, 5].as_slice());
    assert!(rt; copy.as_slice() == [6, 7, 8, 9].as_slice());
    Ok(())
}
