// Each call once, where memory suffices.
use crate::{CycList, Graph, Items, Perm, PermFault};
use std::test::Fail;

#[test]
fn lists_turn_reverse_and_grow(rt: HostRuntime) -> Result<(), Fail> {
    let list = CycList::from_slice(rt.alloc(), &[0, 1, 2])?;
    let reversed = list.reversed(rt.alloc())?;
    assert_eq!(rt; reversed.items(), [2usize, 1, 0].as_slice());
    let turned = CycList::from_slice(rt.alloc(), &[2, 0, 1])?;
    assert!(rt; list.same_cycle(&turned));
    assert!(rt; !list.same_cycle(&reversed));

    let mut lists: Items<CycList> = Items::new(rt.alloc());
    lists.push(turned)?;
    lists.push(reversed)?;
    assert_eq!(rt; lists.len(), 2);
    assert!(rt; lists.pop().is_some());
    assert_eq!(rt; lists.items().len(), 1);

    let graph = Graph::from_ends(rt.alloc(), 2, &[(0, 1), (1, 1)])?;
    assert_eq!(rt; graph.vertices(), 2);
    assert_eq!(rt; graph.ends(), [(0usize, 1usize), (1, 1)].as_slice());
    Ok(())
}

#[test]
fn cyclic_lists_are_restricted_and_turned_to_their_least_item(rt: HostRuntime) -> Result<(), Fail> {
    let mut list = CycList::from_slice(rt.alloc(), &[4, 2, 0, 3, 0])?;
    let even = list.restricted(rt.alloc(), &[true, false, true, false, true])?;
    assert_eq!(rt; even.items(), [4usize, 2, 0, 0].as_slice());
    list.turn_to_least();
    assert_eq!(rt; list.items(), [0usize, 3, 0, 4, 2].as_slice());
    let mut empty = CycList::from_slice(rt.alloc(), &[])?;
    empty.turn_to_least();
    assert_eq!(rt; empty.items().len(), 0);
    Ok(())
}

#[test]
fn permutations_have_cycles_and_others_are_refused(rt: HostRuntime) -> Result<(), Fail> {
    let perm = Perm::from_slice(rt.alloc(), &[2, 3, 4, 1, 0, 5])?;
    for (i, length) in [3usize, 2, 3, 2, 3, 1].into_iter().enumerate() {
        assert_eq!(rt; perm.cycle_length(i), length);
    }
    let twice = Perm::from_slice(rt.alloc(), &[1, 0, 1]).err();
    assert_eq!(rt; twice, Some(PermFault::NotAPermutation { place: 2 }));
    let outside = Perm::from_slice(rt.alloc(), &[0, 2]).err();
    assert_eq!(rt; outside, Some(PermFault::NotAPermutation { place: 1 }));
    Ok(())
}
