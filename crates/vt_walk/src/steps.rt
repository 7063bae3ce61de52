//! Words walked one after the other, and symlinks followed.
ghost use Rattle.std.specs.Prelude.{◌≡◌, ℕ, [], nat_eq, false, true, option_copied, option_map, reverse, None, Ok, Some, OnOk, IfOk, IfSome};
ghost use Rattle.vt_spec.specs.Errors.{and_then, unless};
ghost use Rattle.vt_spec.specs.FileTree.{symlink_text};
ghost use Rattle.vt_spec.specs.Machine.Looks.{is_directory_at, mount_at};
ghost use Rattle.vt_spec.specs.Machine.Walking.LastWord.{DotDot};
ghost use Rattle.vt_spec.specs.Machine.Walking.{follow_rules, is_lost, object_named, search_rules, slash_rules, stepped};
ghost use Rattle.vt_spec.specs.PathText.{ends_in_slash, words};
ghost use Rattle.vt_spec.specs.Tree.{entries_in, entry_named};
ghost use Rattle.vt_location.specs.Locations.{location_of};
ghost use Rattle.vt_location.specs.Numbers.{mount_number};
ghost use Rattle.vt_looks.specs.Looking.{IsGround, StaysFound};
ghost use Rattle.vt_tasks.specs.TaskValue.{task_of};
ghost use Rattle.vt_walk.specs.PendingTexts.{link_passed, walked_on_from};
ghost use Rattle.vt_walk.specs.PlainWalks.{Follow, followed, last_walked, symlink_start, word_led, words_walked};
ghost use Rattle.vt_looks.specs.Places.{last_of};
ghost use Rattle.vt_walk.specs.WalkValue.{IsFound, IsLent, IsNodeAt, here_of, here_result, named_result, step_result};

use crate::here::{Here, MOST_TEXTS, start_of};
use crate::upward::{Step, entered, step_up};
use arrayvec::ArrayVec;
use vt_cred::{Rights, allows};
use vt_location::Location;
use vt_looks::{Ground, LastWord, Look};
use vt_node::{Kind, Node};
use vt_spec::errors::{Deny, Rule};
use vt_tasks::Task;
use vt_text::link;
use vt_text::path::Words;

// This must be a directory that the task may search, W3 and W4, and in an overlay its mounter too, W5.
#[inline(always)]
pub(crate) fn searched<'a, L: Look>(
    world: &L,
    who: &Task,
    ground: Ground,
    here: Location,
    node: Option<&'a Node>,
) -> Result<&'a Node, Deny>
    requires ground { IsGround (L.looks world.now) here.mount ground }
    requires node { IsNodeAt (L.real world.now) here (option_copied node) }
    ensures value { and_then {B = Unit {0}} result (λ directory. Ok tt)
        ≡ unless (search_rules nat_eq (L.looks world.now) (task_of who.now) (location_of here)) (Ok tt) }
    ensures directory { IfOk result (λ directory. IsNodeAt (L.real world.now) here (Some directory.now)) }
    ensures is { OnOk result (is_directory_at (L.looks world.now) (location_of here) ≡ true) }
{
    let Some(directory) = node else {
        return Err(Rule::W3.denial());
    };
    if !directory.is_directory() {
        return Err(Rule::W3.denial());
    }
    if !allows(
        &who.cred,
        &directory.attr(),
        directory.kind(),
        Rights::SEARCH,
    ) {
        return Err(Rule::W4.denial());
    }
    if !world.mounter_may_on(ground, here, directory, Rights::SEARCH) {
        return Err(Rule::W5.denial());
    }
    Ok(directory)
}

// The entry that a name has in a directory: its location, on the same mount, and its real object.
#[inline(always)]
fn entry_there<'a, L: Look>(
    world: &'a L,
    here: Location,
    directory: &Node,
    name: &[u8],
) -> Option<(Location, Option<&'a Node>)>
    requires { IsNodeAt (L.real world.now) here (Some directory.now) }
    ensures location { option_map (λ entry. location_of entry.0) result
        ≡ option_map (λ object. record { mount = mount_number here.mount; node = object })
        (entry_named name.now (entries_in ((L.looks world.now).node (location_of here)))) }
    ensures object { IfSome result (λ entry. IsNodeAt (L.real world.now) entry.0 (option_copied entry.1)) }
    ensures found { IfSome result (λ entry.
        StaysFound (L.looks world.now) (location_of here) (location_of entry.0)) }
{
    let entry = world.entry(here, directory, name)?;
    let location = Location {
        mount: here.mount,
        node: entry.node,
    };
    Some((location, entry.object))
}

// As `step_up`. It is inlined, so that room for what that returns is made only where a walk goes up.
#[inline(always)]
fn stepped_up<'a, L: Look>(
    world: &L,
    who: &Task,
    start: Location,
    is_found: bool,
) -> Result<Step<'a>, Deny>
    requires { is_found ≡ true → is_lost nat_eq (L.looks world.now) (location_of start) ≡ false }
    ensures value { step_result result
        ≡ stepped nat_eq (L.looks world.now) (task_of who.now) (location_of start) DotDot }
    ensures found { IfOk result (λ step. IsFound (L.looks world.now) step.location step.is_found) }
    ensures lent { IfOk result (λ step. IsLent (L.real world.now) step.location (option_copied step.lent)) }
    ensures ground { IfOk result (λ step. IfSome step.ground (IsGround (L.looks world.now) step.location.mount)) }
{
    step_up(world, who, start, is_found)
}

// Where a walk stands before a word: the real object there, whether it is known to be found, and what the walk keeps of
// the mount.
#[derive(Clone, Copy, Debug)]
struct WalkState<'a> {
    location: Location,
    is_found: bool,
    node: Option<&'a Node>,
    ground: Ground,
}

// Where a word leads from a directory: a name through the mounts over the entry. W6: a missing name. W8: `..` of a lost
// directory.
#[inline(always)]
fn stepped<'a, L: Look>(
    world: &'a L,
    who: &Task,
    from: WalkState<'a>,
    directory: &Node,
    word: LastWord,
) -> Result<Step<'a>, Deny>
    requires ground { IsGround (L.looks world.now) from.location.mount from.ground }
    requires node { IsNodeAt (L.real world.now) from.location (option_copied from.node) }
    requires directory { IsNodeAt (L.real world.now) from.location (Some directory.now) }
    requires found { from.is_found ≡ true → is_lost nat_eq (L.looks world.now) (location_of from.location) ≡ false }
    ensures value { step_result result
        ≡ stepped nat_eq (L.looks world.now) (task_of who.now) (location_of from.entry.location) (last_of word.entry) }
    ensures found { IfOk result (λ step. IsFound (L.looks world.now) step.location step.is_found) }
    ensures lent { IfOk result (λ step. IsLent (L.real world.now) step.location (option_copied step.lent)) }
    ensures ground { IfOk result (λ step. IfSome step.ground (IsGround (L.looks world.now) step.location.mount)) }
{
    match word {
        LastWord::NoWord | LastWord::Dot => Ok(Step {
            location: from.location,
            is_found: from.is_found,
            lent: from.node,
            ground: Some(from.ground),
        }),
        LastWord::DotDot => stepped_up(world, who, from.location, from.is_found),
        LastWord::Named(name) => match entry_there(world, from.location, directory, name) {
            Some((entry, object)) => {
                if from.ground.is_bare {
                    return Ok(Step {
                        location: entry,
                        is_found: from.is_found,
                        lent: object,
                        ground: None,
                    });
                }
                Ok(entered(world, entry, from.is_found, object))
            }
            None => Err(Rule::W6.denial()),
        },
    }
}

// What a last word names in a directory, with no mount entered. W8: `..` of a lost directory.
#[inline(always)]
pub(crate) fn object_named<L: Look>(
    world: &L,
    who: &Task,
    here: Location,
    directory: &Node,
    last: LastWord,
) -> Result<Option<Location>, Deny>
    requires { IsNodeAt (L.real world.now) here (Some directory.now) }
    ensures { named_result result
        ≡ object_named nat_eq (L.looks world.now) (task_of who.now) (location_of here) (last_of last.entry) }
{
    match last {
        LastWord::NoWord | LastWord::Dot => Ok(Some(here)),
        LastWord::DotDot => Ok(Some(stepped_up(world, who, here, false)?.location)),
        LastWord::Named(name) => match entry_there(world, here, directory, name) {
            Some((entry, _object)) => Ok(Some(entry)),
            None => Ok(None),
        },
    }
}

// Where one word leads, with no symlink followed.
#[inline(always)]
fn word_led<'a, L: Look>(
    world: &'a L,
    who: &Task,
    from: WalkState<'a>,
    word: LastWord,
) -> Result<Step<'a>, Deny>
    requires ground { IsGround (L.looks world.now) from.location.mount from.ground }
    requires node { IsNodeAt (L.real world.now) from.location (option_copied from.node) }
    requires found { IsFound (L.looks world.now) from.location from.is_found }
    ensures value { step_result result
        ≡ word_led (L.looks world.now) (task_of who.now) (location_of from.entry.location) (last_of word.entry) }
    ensures found { IfOk result (λ step. IsFound (L.looks world.now) step.location step.is_found) }
    ensures lent { IfOk result (λ step. IsLent (L.real world.now) step.location (option_copied step.lent)) }
    ensures ground { IfOk result (λ step. IfSome step.ground (IsGround (L.looks world.now) step.location.mount)) }
{
    let directory = searched(world, who, from.ground, from.location, from.node)?;
    stepped(world, who, from, directory, word)
}

// The real object where a walk has come to, looked for if no entry led there.
#[inline(always)]
pub(crate) fn node_here<'a, L: Look>(
    world: &'a L,
    ground: Ground,
    here: Location,
    lent: Option<&'a Node>,
) -> Option<&'a Node>
    requires ground { IsGround (L.looks world.now) here.mount ground }
    requires lent { IsLent (L.real world.now) here (option_copied lent) }
    ensures { IsNodeAt (L.real world.now) here (option_copied result) }
{
    match lent {
        Some(_) => lent,
        None => world.node_on(ground, here),
    }
}

// The same, on a mount that was not asked for.
#[inline(always)]
pub(crate) fn object_here<'a, L: Look>(world: &'a L, here: Here<'a>) -> Option<&'a Node>
    requires { IsLent (L.real world.now) here.location (option_copied here.lent) }
    ensures { IsNodeAt (L.real world.now) here.entry.location (option_copied result) }
{
    match here.lent {
        Some(_) => here.lent,
        None => world.node(here.location),
    }
}

// The last word of a path walked; a final symlink is not followed.
pub(crate) fn last_walked<'a, L: Look>(
    world: &'a L,
    who: &Task,
    here: Here<'a>,
    last: LastWord,
) -> Result<Here<'a>, Deny>
    requires { IsLent (L.real world.now) here.location (option_copied here.lent) }
    ensures { here_result result
        ≡ last_walked (L.looks world.now) (task_of who.now) (here_of here.entry) (last_of last.entry) }
{
    match last {
        LastWord::NoWord => Ok(here),
        _ => {
            let ground = world.ground(here.location.mount);
            let from = WalkState {
                location: here.location,
                is_found: false,
                node: node_here(world, ground, here.location, here.lent),
                ground,
            };
            let next = word_led(world, who, from, last)?;
            Ok(Here {
                location: next.location,
                left: here.left,
                lent: next.lent,
            })
        }
    }
}

// The text of a symlink; any other inode has none.
#[inline(always)]
pub(crate) fn symlink_text(node: Option<&Node>) -> Option<&[u8]>
    ensures { option_copied result ≡ symlink_text (option_copied node.entry) }
{
    let node = node?;
    if node.kind() == Kind::Symlink {
        Some(node.bytes())
    } else {
        None
    }
}

// Where the walk of a symlink's text begins, if it may be walked, with one symlink less to follow: W9 before W7 before
// W2.
#[inline(always)]
pub(crate) fn link_begun<'a, L: Look>(
    world: &L,
    who: &Task,
    directory: Location,
    link: Here,
    text: &[u8],
) -> Result<Here<'a>, Deny>
    ensures lent { IfOk result (λ here. IsLent (L.real world.now) here.location (option_copied here.lent)) }
    ensures value { here_result result ≡ unless (follow_rules nat_eq (L.looks world.now) (here_of link.entry) text.now)
        (Ok (symlink_start (L.looks world.now) (task_of who.now) (location_of directory)
        (here_of link.entry) text.now)) }
{
    if is_nosymfollow(world, link.location) {
        return Err(Rule::W9.denial());
    }
    if link.left == 0 {
        return Err(Rule::W7.denial());
    }
    if link::has_long_word(text) {
        return Err(Rule::W2.denial());
    }
    Ok(Here {
        location: start_of(who, directory, text),
        left: link.left - 1,
        lent: None,
    })
}

// Whether no symlink is followed on the mount of a location: `MS_NOSYMFOLLOW` of mount(2).
#[inline(always)]
fn is_nosymfollow<L: Look>(world: &L, link: Location) -> bool
    ensures { result ≡ (mount_at (L.looks world.now) (location_of link)).flags.nosymfollow }
{
    match world.mount(link.mount) {
        Some(mount) => mount.flags.is_nosymfollow(),
        None => false,
    }
}

// A symlink that a walk came to: its directory, its text, and the words after it.
#[derive(Debug, Drop)]
struct LinkMet<'a> {
    directory: Location,
    text: &'a [u8],
    behind: Words<'a>,
}

// Where words lead, as far as the first symlink.
#[derive(Debug, Drop)]
struct Reached<'a> {
    here: Here<'a>,
    link: Option<LinkMet<'a>>,
}

// As `walked_to_link`, of some words.
#[inline(always)]
fn words_walked_to_link<'a, L: Look>(
    world: &'a L,
    who: &Task,
    start: Here<'a>,
    mut words: Words<'a>,
) -> Result<Reached<'a>, Deny>
    requires { IsLent (L.real world.now) start.location (option_copied start.lent) }
    ensures value { (follow : Follow) → and_then result (walked_on_from (L.looks world.now) (task_of who.now) follow)
        ≡ words_walked (L.looks world.now) (task_of who.now) follow (here_of start.entry) (reverse words.entry) }
    ensures left { IfOk result (λ reached. reached.here.left ≡ start.entry.left) }
    ensures lent { IfOk result (λ reached.
        IsLent (L.real world.now) reached.here.location (option_copied reached.here.lent)) }
{
    let left = start.left;
    let mut location = start.location;
    let mut ground = world.ground(location.mount);
    let mut node = node_here(world, ground, location, start.lent);
    let mut is_found = false;
    while let Some(word) = words.next() {
        let directory = location;
        let from = WalkState {
            location,
            is_found,
            node,
            ground,
        };
        let next = word_led(world, who, from, LastWord::of(word))?;
        location = next.location;
        is_found = next.is_found;
        if let Some(entered) = next.ground {
            ground = entered;
        } else if location.mount != directory.mount {
            ground = world.ground(location.mount);
        }
        node = node_here(world, ground, location, next.lent);
        if let Some(text) = symlink_text(node) {
            let link = LinkMet {
                directory,
                text,
                behind: words,
            };
            let here = Here {
                location,
                left,
                lent: node,
            };
            return Ok(Reached {
                here,
                link: Some(link),
            });
        }
    }
    let here = Here {
        location,
        left,
        lent: node,
    };
    Ok(Reached { here, link: None })
}

// The words walked as far as the first that leads to a symlink. After a symlink there are often none: then nothing is
// looked up.
#[inline(always)]
fn walked_to_link<'a, L: Look>(
    world: &'a L,
    who: &Task,
    start: Here<'a>,
    words: Words<'a>,
) -> Result<Reached<'a>, Deny>
    requires { IsLent (L.real world.now) start.location (option_copied start.lent) }
    ensures value { (follow : Follow) → and_then result (walked_on_from (L.looks world.now) (task_of who.now) follow)
        ≡ words_walked (L.looks world.now) (task_of who.now) follow (here_of start.entry) (reverse words.entry) }
    ensures left { IfOk result (λ reached. reached.here.left ≡ start.entry.left) }
    ensures lent { IfOk result (λ reached.
        IsLent (L.real world.now) reached.here.location (option_copied reached.here.lent)) }
{
    if words.is_empty() {
        return Ok(Reached {
            here: start,
            link: None,
        });
    }
    words_walked_to_link(world, who, start, words)
}

// A text whose walk is not finished, and the words that are left of it.
#[derive(Debug, Drop)]
struct Pending<'a> {
    text: &'a [u8],
    words: Words<'a>,
}

impl<'a> Pending<'a> {
    // The whole text of a symlink.
    fn of(text: &'a [u8]) -> Pending<'a>
        ensures text { result.text.now ≡ text.now }
        ensures words { result.words ≡ words text.now }
    {
        Pending {
            text,
            words: link::words(text),
        }
    }

    // Whether words are left to be walked, or a slash at the end to be checked.
    fn is_unfinished(&self) -> bool
        ensures { result ≡ false → (self.now.words ≡ []) × (ends_in_slash self.now.text.now ≡ false) }
    {
        !self.words.is_empty() || link::ends_in_slash(self.text)
    }
}

// What fills the unused entries of a stack.
impl<'a> Default for Pending<'a> {
    fn default() -> Self {
        Pending::of(&[])
    }
}

// Whether a directory is at a location.
pub(crate) fn is_directory_at<L: Look>(world: &L, here: Location) -> bool
    ensures { result ≡ is_directory_at (L.looks world.now) (location_of here) }
{
    match world.node(here) {
        Some(node) => node.is_directory(),
        None => false,
    }
}

// Whether a walk has come to a directory.
pub(crate) fn is_directory_here<L: Look>(world: &L, here: Here) -> bool
    requires { IsLent (L.real world.now) here.location (option_copied here.lent) }
    ensures { result ≡ is_directory_at (L.looks world.now) (location_of here.entry.location) }
{
    match object_here(world, here) {
        Some(node) => node.is_directory(),
        None => false,
    }
}

// A trailing slash is accepted only if a directory is here, else W3.
#[inline(always)]
pub(crate) fn asked_by_slash<L: Look>(world: &L, text: &[u8], here: Here) -> Result<(), Deny>
    requires { IsLent (L.real world.now) here.location (option_copied here.lent) }
    ensures { result
        ≡ unless (slash_rules nat_eq (L.looks world.now) text.now (location_of here.entry.location)) (Ok tt) }
{
    if link::ends_in_slash(text) && !is_directory_here(world, here) {
        return Err(Rule::W3.denial());
    }
    Ok(())
}

// Where the words lead, every symlink followed, a final one too.
pub(crate) fn words_walked<'a, L: Look>(
    world: &'a L,
    who: &Task,
    start: Here<'a>,
    words: Words<'a>,
) -> Result<Here<'a>, Deny>
    requires { IsLent (L.real world.now) start.location (option_copied start.lent) }
    ensures value { here_result result ≡ words_walked (L.looks world.now) (task_of who.now)
        (followed (L.looks world.now) (task_of who.now)) (here_of start.entry) (reverse words.entry) }
    ensures lent { IfOk result (λ here. IsLent (L.real world.now) here.location (option_copied here.lent)) }
{
    let Reached { here, link } = walked_to_link(world, who, start, words)?;
    match link {
        Some(link) => symlink_walked(world, who, here, link),
        None => Ok(here),
    }
}

// Where a symlink and the words after it lead, every symlink followed. What is left of a text waits on a stack while the
// text of a symlink in it is walked.
fn symlink_walked<'a, L: Look>(
    world: &'a L,
    who: &Task,
    met: Here,
    link: LinkMet<'a>,
) -> Result<Here<'a>, Deny>
    ensures lent { IfOk result (λ here. IsLent (L.real world.now) here.location (option_copied here.lent)) }
    ensures value { here_result result ≡ link_passed (L.looks world.now) (task_of who.now)
        (followed (L.looks world.now) (task_of who.now)) (here_of met.entry) (Some link.entry) }
{
    let mut here = link_begun(world, who, link.directory, met, link.text)?;
    // A slash at the end of the words themselves is checked by the caller.
    let mut pending = ArrayVec::<Pending, MOST_TEXTS>::new();
    pending.push(Pending {
        text: &[],
        words: link.behind,
    });
    let mut top = Pending::of(link.text);
    'texts: loop {
        let Reached {
            here: reached,
            link,
        } = walked_to_link(world, who, here, top.words)?;
        match link {
            Some(link) => {
                here = link_begun(world, who, link.directory, reached, link.text)?;
                let left = Pending {
                    text: top.text,
                    words: link.behind,
                };
                if left.is_unfinished() {
                    pending.push(left);
                }
                top = Pending::of(link.text);
            }
            None => {
                asked_by_slash(world, top.text, reached)?;
                here = reached;
                let Some(next) = pending.pop() else {
                    return Ok(here);
                };
                top = next;
            }
        }
    }
}
