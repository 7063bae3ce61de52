//! What the kernel's overlayfs document and unlink(2) say of copies and of what is in use, on small examples.
//!
//! Each test drops its value by a call, since the proof of a function that drops it itself at an early return is long.
ghost use Rattle.std.specs.Prelude.{◌≡◌};
ghost use Rattle.vt_births.specs.Births.{no_births};
ghost use Rattle.vt_births.specs.Kept.{none_kept};
ghost use Rattle.vt_location.specs.declared.births.Birth.TheVariants.{Below};

use crate::births::Births;
use crate::kept::Kept;
use crate::upper_nodes::UpperNodes;
use std::process::Abort;
use std::test::Fail;
use vt_location::{Birth, FilesystemId, NodeRef};

fn overlay() -> FilesystemId {
    FilesystemId::new(7)
}

// What was born in the second lower layer, in this slot of its tree.
fn lower(slot: usize) -> NodeRef
    ensures { result.birth ≡ Below 1 0 0 }
{
    NodeRef {
        filesystem: overlay(),
        slot,
        birth: Birth::Below {
            layer: 1,
            directory: 0,
            rank: 0,
        },
    }
}

#[test]
fn a_copy_is_the_node_that_was_copied(rt: HostRuntime) -> Result<(), Fail> {
    let mut births = Births::new(rt.alloc());
    let outcome = see_copies(&rt, &mut births);
    drop(births);
    outcome
}

fn see_copies(rt: &impl Abort, births: &mut Births) -> Result<(), Fail>
    requires { births.old ≡ no_births }
{
    births.promise(1)?;
    births.add(lower(3), 9);
    assert_eq!(rt; births.node_above(overlay(), 9), lower(3));
    assert_eq!(rt; births.slot_above(lower(3)), Some(9));
    // What was born above, and what was not copied.
    assert_eq!(rt; births.node_above(overlay(), 3).birth, Birth::Here);
    assert_eq!(rt; births.slot_above(lower(4)), None);
    assert_eq!(rt; births.forget(lower(3)), Some(9));
    assert_eq!(rt; births.node_above(overlay(), 9).birth, Birth::Here);
    assert_eq!(rt; births.forget(lower(3)), None);
    Ok(())
}

#[test]
fn a_node_is_kept_until_its_last_use(rt: HostRuntime) -> Result<(), Fail> {
    let mut kept = Kept::new(rt.alloc());
    let outcome = see_uses(&rt, &mut kept);
    drop(kept);
    outcome
}

fn see_uses(rt: &impl Abort, kept: &mut Kept) -> Result<(), Fail>
    requires { kept.old ≡ none_kept }
{
    kept.promise(1)?;
    kept.keep(lower(3), 2);
    kept.pin(lower(3))?;
    kept.pin(lower(4))?;
    assert_eq!(rt; kept.nodes(), [lower(3)].as_slice());
    assert!(rt; !kept.unpin(lower(4)));
    assert!(rt; !kept.unpin(lower(3)));
    assert!(rt; !kept.unpin(lower(3)));
    assert_eq!(rt; kept.uses(lower(3)), 1);
    assert!(rt; kept.unpin(lower(3)));
    assert_eq!(rt; kept.uses(lower(3)), 0);
    assert!(rt; kept.nodes().is_empty());
    Ok(())
}

#[test]
fn a_birth_goes_with_the_last_use(rt: HostRuntime) -> Result<(), Fail> {
    let mut nodes = UpperNodes::new(rt.alloc());
    let outcome = see_end(&rt, &mut nodes);
    drop(nodes);
    outcome
}

fn see_end(rt: &impl Abort, nodes: &mut UpperNodes) -> Result<(), Fail>
    requires { nodes.old ≡ record { births = no_births; kept = none_kept } }
{
    nodes.promise(1, 1)?;
    nodes.births.add(lower(3), 9);
    nodes.kept.keep(lower(3), 2);
    assert_eq!(rt; nodes.unpin(lower(3)), None);
    assert_eq!(rt; nodes.births.node_of(9), Some(lower(3)));
    assert_eq!(rt; nodes.unpin(lower(3)), Some(9));
    assert_eq!(rt; nodes.births.node_of(9), None);
    Ok(())
}
