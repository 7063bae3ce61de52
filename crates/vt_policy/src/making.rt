//! Calls that make a name, and write: mkdir(2), symlink(2), mknod(2), link(2), write(2).
ghost use Rattle.std.specs.Prelude.{◌≡◌, nat_eq, IfErr, IfOk};
ghost use Rattle.vt_spec.specs.declared.errors.Rule.TheVariants.{S5};
ghost use Rattle.vt_spec.specs.Errors.{denial};
ghost use Rattle.vt_spec.specs.Language.Calls.Call.{LinkTo, MakeWhiteout, Mkdir, SymlinkAt, Write};
ghost use Rattle.vt_permits.specs.Memory.{Judges};
ghost use Rattle.vt_tasks.specs.TaskValue.{task_of};
ghost use Rattle.vt_policy.specs.Judged.{judge_by_looks};

use crate::paths::{file_place, new_leaf_place, new_place, symlink_at};
use std::alloc::Global;
use vt_cred::Mode;
use vt_looks::Look;
use vt_node::NewNode;
use vt_permits::{Grant, MakeGrant, ToLink, ToMake};
use vt_rules::{
    empty_directory, may_link, may_make, may_make_whiteout, name_at, new_attr, new_file_permit,
    rewrite_permit, symlink_attr, whiteout_attr,
};
use vt_spec::errors::{Deny, Rule};
use vt_tasks::Task;
use vt_text::path::LONGEST_PATH;

/// The mode that mkdir asks for where none is given, 0777: mkdir(1).
const DIRECTORY_MODE: u16 = 0o777;

/// After the rules of the walk: E1 (EEXIST), and those of `may_make`.
#[tactic(auto, unfolding(vt_spec::specs::Machine::Judging::judging))]
pub fn mkdir<L: Look>(
    alloc: Global,
    world: &L,
    who: &Task,
    path: &[u8],
    mode: Option<Mode>,
) -> Result<Grant, Deny>
    ensures { Judges (task_of who.now)
        (judge_by_looks (L.looks world.now) (task_of who.now) (Mkdir path.now mode)) result }
{
    let place = new_place(world, who, path)?;
    if place.last.is_special() || place.object.is_some() {
        return Err(Rule::E1.denial());
    }
    may_make(world, who, place.parent)?;
    let attr = new_attr(who, mode.unwrap_or(Mode::new(DIRECTORY_MODE).unwrap()));
    Ok(Grant::Make(MakeGrant::Node(ToMake {
        directory: place.parent,
        name: name_at(alloc, place.last)?,
        node: empty_directory(attr, place.parent),
    })))
}

// A symlink's text, in memory of its own. S5 (ENOMEM): an allocation failed.
fn text_of(alloc: Global, text: &[u8]) -> Result<Vec<u8>, Deny>
    ensures ok { IfOk result (λ copy. copy.items ≡ text.now) }
    ensures memory { IfErr result (λ deny. deny ≡ denial S5) }
{
    Vec::from_slice(alloc, text).map_err(|_error| Rule::S5.denial())
}

/// Before the rules of the walk, of the symlink's text: W1 (ENOENT), W2 (ENAMETOOLONG). After them: E1 (EEXIST),
/// and those of `may_make`.
#[tactic(auto, unfolding(vt_spec::specs::Machine::Judging::judging))]
pub fn symlink<L: Look>(
    alloc: Global,
    world: &L,
    who: &Task,
    text: &[u8],
    path: &[u8],
) -> Result<Grant, Deny>
    ensures { Judges (task_of who.now)
        (judge_by_looks (L.looks world.now) (task_of who.now) (SymlinkAt text.now path.now)) result }
{
    if text.is_empty() {
        return Err(Rule::W1.denial());
    }
    if text.len() > LONGEST_PATH {
        return Err(Rule::W2.denial());
    }
    let place = new_leaf_place(world, who, path)?;
    if place.last.is_special() || place.object.is_some() {
        return Err(Rule::E1.denial());
    }
    may_make(world, who, place.parent)?;
    Ok(Grant::Make(MakeGrant::Node(ToMake {
        directory: place.parent,
        name: name_at(alloc, place.last)?,
        node: NewNode::symlink(symlink_attr(who), text_of(alloc, text)?),
    })))
}

/// After the rules of the walk those of `may_make_whiteout`.
#[tactic(auto, unfolding(vt_spec::specs::Machine::Judging::judging))]
pub fn whiteout<L: Look>(alloc: Global, world: &L, who: &Task, path: &[u8]) -> Result<Grant, Deny>
    ensures { Judges (task_of who.now)
        (judge_by_looks (L.looks world.now) (task_of who.now) (MakeWhiteout path.now)) result }
{
    let place = new_leaf_place(world, who, path)?;
    may_make_whiteout(world, who, &place)?;
    Ok(Grant::Make(MakeGrant::Node(ToMake {
        directory: place.parent,
        name: name_at(alloc, place.last)?,
        node: NewNode::whiteout(whiteout_attr(who)),
    })))
}

/// After the rules of both walks: E1 (EEXIST) of a special last word, and then those of `may_link`.
#[tactic(auto, unfolding(vt_spec::specs::Machine::Judging::judging))]
pub fn link<L: Look>(
    alloc: Global,
    world: &L,
    who: &Task,
    old: &[u8],
    new: &[u8],
) -> Result<Grant, Deny>
    ensures { Judges (task_of who.now)
        (judge_by_looks (L.looks world.now) (task_of who.now) (LinkTo old.now new.now)) result }
{
    let object = symlink_at(world, who, old)?;
    let place = new_leaf_place(world, who, new)?;
    if place.last.is_special() {
        return Err(Rule::E1.denial());
    }
    may_link(world, who, object, &place)?;
    Ok(Grant::Make(MakeGrant::Link(ToLink {
        directory: place.parent,
        name: name_at(alloc, place.last)?,
        object: object.node,
    })))
}

/// After the rules of the walk: E2 (EISDIR), and then those of a file that is there or of one that is made.
#[tactic(auto, unfolding(vt_spec::specs::Machine::Judging::judging))]
pub fn write<L: Look>(
    alloc: Global,
    world: &L,
    who: &Task,
    path: &[u8],
    bytes: Vec<u8>,
) -> Result<Grant, Deny>
    ensures { Judges (task_of who.now)
        (judge_by_looks (L.looks world.now) (task_of who.now) (Write path.now bytes.items)) result }
{
    let place = file_place(world, who, path)?;
    if place.last.is_special() || place.slash {
        return Err(Rule::E2.denial());
    }
    match place.object {
        Some(file) => rewrite_permit(world, who, file, bytes),
        None => new_file_permit(alloc, world, who, &place, bytes),
    }
}
