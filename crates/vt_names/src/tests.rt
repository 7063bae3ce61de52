//! What a cache of names keeps, on small examples.
//!
//! Each test drops its value by a call, since the proof of a function that drops it itself at an early return is long.
use crate::cached::Names;
use std::process::Abort;
use std::test::Fail;
use vt_location::{Birth, FilesystemId, NodeRef};

// Two names with one digest. They differ by a short vector of the lattice of all differences whose digest is 0, which
// the algorithm of Lenstra, Lenstra and Lovász found.
const ONE: &[u8] = b"difllhfidtdq";

const OTHER: &[u8] = b"wrunorurvfvi";

fn node(slot: usize) -> NodeRef {
    NodeRef {
        filesystem: FilesystemId::new(7),
        slot,
        birth: Birth::Here,
    }
}

#[test]
fn of_two_names_with_one_digest_the_later_is_kept(rt: HostRuntime) -> Result<(), Fail> {
    let mut names = Names::new(rt.alloc(), 8)?;
    let outcome = see_digests(&rt, &mut names);
    drop(names);
    outcome
}

fn see_digests(rt: &impl Abort, names: &mut Names) -> Result<(), Fail> {
    names.keep(node(0), ONE, Some(node(1)))?;
    assert_eq!(rt; names.look(node(0), OTHER), None);
    names.keep(node(0), OTHER, None)?;
    assert_eq!(rt; names.look(node(0), ONE), None);
    assert_eq!(rt; names.look(node(0), OTHER), Some(None));
    // In another directory they have places of their own.
    names.keep(node(2), ONE, Some(node(3)))?;
    assert_eq!(rt; names.look(node(2), ONE), Some(Some(node(3))));
    assert_eq!(rt; names.held(), 2);
    assert_eq!(rt; names.hits(), 2);
    // Either name forgets what is in their place.
    names.forget(node(0), ONE);
    assert_eq!(rt; names.look(node(0), OTHER), None);
    assert_eq!(rt; names.held(), 1);
    Ok(())
}

#[test]
fn names_go_that_were_not_asked_for_longest(rt: HostRuntime) -> Result<(), Fail> {
    for (capacity, answered) in [(0, 0), (1, 1), (2, 2), (3, 3)] {
        let mut names = Names::new(rt.alloc(), capacity)?;
        let outcome = see_three(&rt, &mut names, answered);
        drop(names);
        outcome?;
    }
    Ok(())
}

// Of three names the first was asked for last but one, so that the second goes first.
fn see_three(rt: &impl Abort, names: &mut Names, answered: usize) -> Result<(), Fail> {
    names.keep(node(0), b"a", Some(node(1)))?;
    names.keep(node(0), b"b", Some(node(2)))?;
    let _ = names.look(node(0), b"a");
    names.keep(node(0), b"c", None)?;
    assert_eq!(rt; names.held(), answered);
    assert_eq!(rt; names.look(node(0), b"c").is_some(), answered > 0);
    assert_eq!(rt; names.look(node(0), b"a").is_some(), answered > 1);
    assert_eq!(rt; names.look(node(0), b"b").is_some(), answered > 2);
    names.clear();
    assert_eq!(rt; names.held(), 0);
    assert_eq!(rt; names.look(node(0), b"a"), None);
    Ok(())
}

#[test]
fn names_are_kept_of_merged_directories_alone_if_so_told(rt: HostRuntime) -> Result<(), Fail> {
    let mut names = Names::of_merged(rt.alloc(), 1)?;
    let kept = names.kept();
    drop(names);
    assert!(rt; kept.has(true));
    assert!(rt; !kept.has(false));
    let mut names = Names::new(rt.alloc(), 1)?;
    let kept = names.kept();
    drop(names);
    assert!(rt; kept.has(false));
    Ok(())
}
