//! The words that a walk passes.
use crate::aims::{Aim, Route};
use std::alloc::{AllocError, Global};
use vt_location::Location;
use vt_looks::Look;
use vt_node::Kind;
use vt_ns::World;
use vt_tasks::Task;
use vt_text::link;
use vt_text::path::PathText;
use vt_walk::symlink_walk;

// The most symlinks of a path that are followed.
const MOST_LINKS: usize = 40;

/// Who walks, and in which world.
#[derive(Clone, Copy)]
pub struct View<'a> {
    pub alloc: Global,
    pub world: &'a World,
    pub who: &'a Task,
}

// A text of which words are left to be walked, from this byte on.
#[derive(Clone, Copy)]
struct Pending<'a> {
    text: &'a [u8],
    from: usize,
}

impl<'a> Pending<'a> {
    // Its next word, and what is left behind that.
    fn next(self) -> Option<(&'a [u8], Pending<'a>)> {
        let mut begin = None;
        for (place, byte) in self.text.iter().enumerate() {
            match begin {
                Some(begin) if *byte == b'/' => return self.cut(begin, place),
                None if place >= self.from && *byte != b'/' => begin = Some(place),
                _ => {}
            }
        }
        self.cut(begin?, self.text.len())
    }

    // The word from one byte to another, and what is left behind it.
    fn cut(self, begin: usize, end: usize) -> Option<(&'a [u8], Pending<'a>)> {
        let word = self.text.get(begin..end)?;
        Some((word, Pending { from: end, ..self }))
    }
}

// The text of a symlink.
fn link_text(world: &World, at: Location) -> Option<&[u8]> {
    let node = world.node(at)?;
    if node.kind() == Kind::Symlink {
        Some(node.bytes())
    } else {
        None
    }
}

// Whether a directory is at a location.
fn is_directory(world: &World, at: Location) -> bool {
    matches!(world.node(at), Some(node) if node.is_directory())
}

// The caller, in the directory where a walk begins.
fn walker_of(view: View<'_>, path: &[u8]) -> Result<Task, AllocError> {
    let who = view.who;
    let mut walker = Task::first(view.alloc, who.namespace, who.root);
    walker.cred = who.cred.clone()?;
    walker.directory = if link::is_absolute(path) {
        who.root
    } else {
        who.directory
    };
    Ok(walker)
}

// A walk of a path. It leads on from the working directory of the walker.
#[derive(Drop)]
struct Walk<'a> {
    view: View<'a>,
    aim: Aim,
    walker: Task,
    // The text of the path, and those of the symlinks in one another's texts.
    pending: Vec<Pending<'a>>,
    links: usize,
    words: u64,
    is_over: bool,
}

impl<'a> Walk<'a> {
    // Whether the word that is walked is the last of the path itself, and is not followed.
    fn is_last(&self) -> bool {
        match self.pending.as_slice() {
            [path] => {
                let follows = match self.aim {
                    Aim::Symlink => link::ends_in_slash(path.text),
                    Aim::New | Aim::NewLeaf | Aim::Renamed | Aim::Old | Aim::OldLeaf => false,
                    Aim::Object | Aim::Directory | Aim::File | Aim::Source | Aim::Destination => {
                        true
                    }
                };
                !follows && path.next().is_none()
            }
            _ => false,
        }
    }

    // Whether the walk may follow a symlink with this text.
    fn may_follow(&self, at: Location, text: &[u8]) -> bool {
        let is_closed = match self.view.world.mount(at.mount) {
            Some(mount) => mount.flags.is_nosymfollow(),
            None => false,
        };
        !is_closed && self.links < MOST_LINKS && !link::has_long_word(text)
    }

    // Goes on behind a word that leads to a location.
    fn pass(&mut self, at: Location) -> Result<(), AllocError> {
        let Some(text) = link_text(self.view.world, at) else {
            self.walker.directory = at;
            return Ok(());
        };
        if !self.may_follow(at, text) {
            self.is_over = true;
            return Ok(());
        }
        self.links = self.links.saturating_add(1);
        if link::is_absolute(text) {
            self.walker.directory = self.view.who.root;
        }
        self.pending.push(Pending { text, from: 0 })?;
        Ok(())
    }

    // Walks a word.
    fn walk(&mut self, word: &[u8]) -> Result<(), AllocError> {
        self.words = self.words.saturating_add(1);
        if self.is_last() {
            self.is_over = true;
            return Ok(());
        }
        let reached = match PathText::parse(word) {
            Ok(path) => symlink_walk(self.view.world, &self.walker, &path).ok(),
            Err(_) => None,
        };
        match reached {
            Some(at) => self.pass(at),
            None => {
                self.is_over = true;
                Ok(())
            }
        }
    }

    // Ends a text of which no word is left. Behind a slash at the end of a symlink's text there has to be a directory.
    fn end_text(&mut self, text: &[u8]) {
        self.pending.pop();
        let asks = link::ends_in_slash(text) && !self.pending.is_empty();
        if asks && !is_directory(self.view.world, self.walker.directory) {
            self.is_over = true;
        }
    }

    // Walks the next word, or ends a text.
    fn step(&mut self) -> Result<(), AllocError> {
        let Some(top) = self.pending.last_mut() else {
            self.is_over = true;
            return Ok(());
        };
        let text = top.text;
        match top.next() {
            Some((word, rest)) => {
                *top = rest;
                self.walk(word)
            }
            None => {
                self.end_text(text);
                Ok(())
            }
        }
    }

    // Walks to the end, or up to a word that is refused.
    fn finish(&mut self) -> Result<(), AllocError> {
        for _ in 0..u64::MAX {
            if self.is_over {
                break;
            }
            self.step()?;
        }
        Ok(())
    }
}

/// How many words a walk passes, up to one that is refused. The path is one that may be walked.
pub fn words_of(view: View<'_>, route: Route<'_>) -> Result<u64, AllocError> {
    let mut walk = Walk {
        view,
        aim: route.aim,
        walker: walker_of(view, route.path)?,
        pending: Vec::new(view.alloc),
        links: 0,
        words: 0,
        is_over: false,
    };
    walk.pending.push(Pending {
        text: route.path,
        from: 0,
    })?;
    walk.finish()?;
    Ok(walk.words)
}
