//! Where a path leads, word by word.
use crate::report::{Heads, Section};
use std::alloc::{AllocError, Global};
use vt_causes::asked::{Last, PathAsked};
use vt_causes::{MOST_LINKS, Walked};
use vt_check::check::Format;
use vt_check::draft::Draft;
use vt_cred::{Attr, Kind};
use vt_location::Location;
use vt_looks::Look;
use vt_node::copied_bytes;
use vt_ns::World;
use vt_show::cells::Cell;
use vt_show::names;
use vt_show::places::place_of;
use vt_spec::errors::{Deny, Rule};
use vt_tasks::Task;
use vt_text::path::PathText;
use vt_walk::{place_walk, symlink_walk};

static HEADS: Heads = Heads {
    title: "PATH ",
    kind: "step",
    words: &["WORD", "LEADS TO", "MODE", "OWNER", "CALLER"],
    members: &[
        "at", "caller", "enters", "gid", "leaves", "link", "mode", "stopped", "type", "uid", "word",
    ],
};

/// Who walks, and in which world.
#[derive(Clone, Copy)]
pub struct View<'a> {
    pub world: &'a World,
    pub who: &'a Task,
}

// The next word of a path: its place, and what it is taken for.
#[derive(Clone, Copy)]
struct Word {
    begin: usize,
    end: usize,
    last: Last,
}

// The word that begins at a place of a text or after it, if there is one, taken for an object.
fn word_from(text: &[u8], from: usize) -> Option<Word> {
    let mut begin = None;
    for (index, byte) in text.iter().enumerate() {
        match begin {
            Some(begin) if *byte == b'/' => {
                return Some(Word {
                    begin,
                    end: index,
                    last: Last::Object,
                });
            }
            None if index >= from && *byte != b'/' => begin = Some(index),
            _ => {}
        }
    }
    Some(Word {
        begin: begin?,
        end: text.len(),
        last: Last::Object,
    })
}

// Where a prefix of a path leads, its last word not followed; nowhere where that may be missing.
fn reached(view: View<'_>, front: &[u8], last: Last) -> Result<Option<Location>, Deny> {
    let path = PathText::parse(front)?;
    if matches!(last, Last::Name) {
        return Ok(place_walk(view.world, view.who, &path)?.object);
    }
    match symlink_walk(view.world, view.who, &path) {
        Ok(at) => Ok(Some(at)),
        Err(deny) if deny.rule == Rule::W6 && matches!(last, Last::File) => Ok(None),
        Err(deny) => Err(deny),
    }
}

// The text of a symlink.
fn link_text(world: &World, at: Location) -> Option<&[u8]> {
    let node = world.node(at)?;
    if node.kind() == Kind::Symlink {
        Some(node.bytes())
    } else {
        None
    }
}

// A text in which another one stands in the place of a word.
fn spliced(
    alloc: Global,
    text: &[u8],
    begin: usize,
    end: usize,
    link: &[u8],
) -> Result<Vec<u8>, AllocError> {
    let mut spliced = copied_bytes(alloc, text.get(..begin).unwrap_or_default())?;
    spliced.extend_from_slice(link)?;
    spliced.extend_from_slice(text.get(end..).unwrap_or_default())?;
    Ok(spliced)
}

// Adds what an object is, its mode, and whose it is.
fn add_attr(section: &mut Section, kind: Kind, attr: &Attr) {
    let (kind, bits) = (names::kind(kind), attr.mode.bits());
    let (uid, gid) = (u64::from(attr.uid), u64::from(attr.gid));
    section.tell(&[Cell::Text(kind), Cell::Text(" "), Cell::Octal(bits, 1)]);
    section.tell(&[Cell::Number(uid), Cell::Text(":"), Cell::Number(gid)]);
    section.put("type", &Cell::Text(kind));
    section.put("mode", &Cell::Octal(bits, 4));
    section.put("uid", &Cell::Number(uid));
    section.put("gid", &Cell::Number(gid));
}

// Whether a word of a text is `..`.
fn is_parent(text: &[u8], word: Word) -> bool {
    text.get(word.begin..word.end) == Some(b"..".as_slice())
}

// A walk along a path, of which some words are walked. The text of each symlink that was followed stands in its place.
#[derive(Drop)]
struct Walk<'a> {
    view: View<'a>,
    // The path, and what its last word is taken for.
    path: &'a [u8],
    last: Last,
    text: Vec<u8>,
    // How many of its bytes are walked, and the word that is walked then.
    walked: usize,
    word: Option<Word>,
    links: usize,
    here: Location,
    // Where the last of them was looked for.
    directory: Location,
    stopped: Option<Rule>,
    // Whether the walk is over, and where it ends if it leads somewhere.
    is_over: bool,
    end: Option<Location>,
    section: Section,
}

impl<'a> Walk<'a> {
    // Before the first word of a path; its first row is where the walk begins.
    fn new(view: View<'a>, asked: PathAsked<'a>, format: Format) -> Self {
        let is_absolute = asked.text.first() == Some(&b'/');
        let (what, word, here) = if is_absolute {
            ("root", "(root)", view.who.root)
        } else {
            ("directory", "(directory)", view.who.directory)
        };
        let alloc = view.world.alloc();
        let mut walk = Walk {
            view,
            path: asked.text,
            last: asked.last,
            text: Vec::new(alloc),
            walked: 0,
            word: None,
            links: 0,
            here,
            directory: here,
            stopped: None,
            is_over: false,
            end: None,
            section: Section::new(alloc, format, &HEADS),
        };
        if walk.text.extend_from_slice(asked.text).is_err() {
            walk.section.fail();
        }
        walk.begin(what);
        walk.section.tell(&[Cell::Text(word)]);
        walk.add_location(here);
        walk.section.end_row();
        walk
    }

    // Begins a row, with the path.
    fn begin(&mut self, what: &str) {
        self.section.put_bytes("path", self.path);
        self.section.put_text("step", what);
    }

    // Adds a location, what is there, and which of its bits count for the caller.
    fn add_location(&mut self, at: Location) {
        let View { world, who } = self.view;
        self.section.add_place(world, "at", at);
        if let Some(node) = world.node(at) {
            add_attr(&mut self.section, node.kind(), &node.attr());
            self.section
                .add_rights("caller", &who.cred, &node.attr(), node.kind());
        }
    }

    // Ends the walk, and the row of a word that leads nowhere: a rule stops there, or it is missing.
    fn stop(&mut self, rule: Option<Rule>) {
        self.is_over = true;
        self.stopped = rule;
        match rule {
            Some(rule) => self.section.add_stop(rule),
            None => self.section.tell(&[Cell::Text("(missing)")]),
        }
        self.section.end_row();
    }

    // Follows the symlink that a word leads to, if that may be: its text stands in the place of the word.
    fn follow(&mut self, word: Word, at: Location, link: &[u8]) {
        self.section.add_bytes("link", "-> ", link);
        let world = self.view.world;
        let rule = match world.all_mounts().get(at.mount) {
            Some(mount) if mount.flags.is_nosymfollow() => Some(Rule::W9),
            _ if self.links >= MOST_LINKS => Some(Rule::W7),
            _ => None,
        };
        if rule.is_some() {
            self.directory = at;
            self.section.break_row();
            self.section.tell(&[]);
            self.stop(rule);
            return;
        }
        self.section.end_row();
        self.links = self.links.saturating_add(1);
        self.walked = word.begin;
        if link.first() == Some(&b'/') {
            self.walked = 0;
            self.here = self.view.who.root;
        }
        match spliced(world.alloc(), &self.text, self.walked, word.end, link) {
            Ok(text) => self.text = text,
            Err(_) => self.section.fail(),
        }
    }

    // Goes on where a word leads, and adds which mount it enters or leaves.
    fn pass(&mut self, word: Word, at: Location) {
        if self.here.mount != at.mount {
            let (what, member, mount) = if is_parent(&self.text, word) {
                ("leaves ", "leaves", self.here.mount)
            } else {
                ("enters ", "enters", at.mount)
            };
            if let Some(place) = place_of(self.view.world, mount) {
                self.section.tell(&[Cell::Text(what), Cell::Mount(place)]);
                self.section.put(member, &Cell::Mount(place));
            }
        }
        self.section.end_row();
        self.here = at;
        self.walked = word.end;
    }

    // Walks the next word, if there is one; all but the last lead to objects.
    fn step(&mut self) {
        let Some(mut word) = word_from(&self.text, self.walked) else {
            self.is_over = true;
            self.end = Some(self.here);
            return;
        };
        if word_from(&self.text, word.end).is_none() {
            word.last = self.last;
        }
        self.directory = self.here;
        self.word = Some(word);
        let front = self.text.get(..word.end).unwrap_or_default();
        let reached = reached(self.view, front, word.last);
        let bytes = front.get(word.begin..).unwrap_or_default();
        self.section.add_bytes("word", "", bytes);
        self.begin("word");
        match reached {
            Ok(Some(at)) => {
                let world = self.view.world;
                self.add_location(at);
                match link_text(world, at) {
                    Some(link) if !matches!(word.last, Last::Link | Last::Name) => {
                        self.follow(word, at, link);
                    }
                    _ => self.pass(word, at),
                }
            }
            Ok(None) => self.stop(None),
            Err(deny) => self.stop(Some(deny.rule)),
        }
    }

    // The word that was walked last.
    fn last_word(&self) -> &[u8] {
        match self.word {
            Some(word) => self.text.get(word.begin..word.end).unwrap_or_default(),
            None => &[],
        }
    }

    // Goes over to the root of the topmost mount over a destination.
    fn go_over(&mut self) {
        let (Last::Destination, Some(at)) = (self.last, self.end) else {
            return;
        };
        let top = self.view.world.topmost(at);
        if top != at {
            self.begin("over");
            self.section.tell(&[]);
            self.add_location(top);
            self.section.tell(&[Cell::Text("stands over it")]);
            self.section.end_row();
            self.end = Some(top);
        }
    }
}

/// Appends where a path leads, word by word, each by the walk of the path up to it; and returns where it came to, if
/// the path has words. Of the first path that leads nowhere the last word is kept.
pub fn push_walk(
    view: View<'_>,
    asked: PathAsked<'_>,
    format: Format,
    text: &mut Draft,
    halt: &mut Vec<u8>,
) -> Option<Walked> {
    if asked.text.is_empty() {
        return None;
    }
    let mut walk = Walk::new(view, asked, format);
    for _ in 0..u64::MAX {
        if walk.is_over {
            break;
        }
        walk.step();
    }
    walk.go_over();
    if walk.end.is_none() && halt.is_empty() && halt.extend_from_slice(walk.last_word()).is_err() {
        text.fail();
    }
    walk.section.write(asked.text, text);
    Some(Walked {
        end: walk.end,
        directory: walk.directory,
        stopped: walk.stopped,
    })
}
