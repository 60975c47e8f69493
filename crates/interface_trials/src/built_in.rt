//! The items of the built-in interface.

use held_trees::LetGo;
use interface_records::{Interface, iodefs, same_face, same_signature};
use std::test::Fail;

fn has_six_items(interface: &Interface) -> bool {
    let items = interface.face.items.as_slice();
    let is_last = items
        .get(5)
        .is_some_and(|it| it.name.bytes() == b"NoInput".as_slice());
    is_last && items.len() == 6 && same_face(&interface.face, &interface.face)
}

/// Whether no two items have one kind and the same types.
fn differ(interface: &Interface) -> bool {
    let items = interface.face.items.as_slice();
    let mut are = true;
    for i in 0..items.len() {
        for j in 0..items.len() {
            are = are && same_signature(&items[i], &items[j]) == (i == j);
        }
    }
    are
}

#[test]
fn the_built_in_interface(rt: HostRuntime) -> Result<(), Fail> {
    let interface = iodefs(rt.alloc())?;
    let has_six = has_six_items(&interface);
    let differ = differ(&interface);
    interface.let_go();
    assert!(rt; has_six && differ);
    Ok(())
}
