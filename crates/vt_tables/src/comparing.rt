//! The answers to `mounts`, beside the tables that they are to give again.
use crate::building::Converted;
use crate::mount::{Mount, Propagation};
use std::alloc::{AllocError, Global};
use std::collections::BTreeMap;
use vt_check::draft::Draft;
use vt_from::words::{joined, owned};

// A row of a list of mounts, as far as the list alone says what it is.
#[derive(Drop)]
struct Row {
    // The mount point, from the root of the process.
    path: String,
    // How many mounts it stands on at the same path.
    depth: usize,
    filesystem: String,
    root: String,
    flags: String,
    group: Option<u64>,
    master: Option<u64>,
    unbindable: bool,
}

// Rows in the order of their paths, under a key that tells apart mounts on one another.
type Rows = BTreeMap<String, Row>;

// Names in the order in which a list shows them.
#[derive(Drop)]
struct Names {
    alloc: Global,
    known: BTreeMap<String, u64>,
}

impl Names {
    // The number of a name.
    fn number(&mut self, name: &str) -> Result<u64, AllocError> {
        if let Some(number) = self.known.get(name) {
            return Ok(*number);
        }
        let number = (self.known.len() as u64).saturating_add(1);
        self.known.insert(owned(self.alloc, name)?, number)?;
        Ok(number)
    }
}

fn key_of(alloc: Global, row: &Row) -> Result<String, AllocError> {
    let (path, depth) = (row.path.as_str(), row.depth);
    format!(in alloc; "{path} {depth:06}")
}

// How many of these mounts stand on one another at the path of one.
fn depth_of(converted: &Converted, mount: &Mount) -> usize {
    let mut depth: usize = 0;
    let mut at = mount.stands_on;
    for _ in 0..converted.tables.mounts.len() {
        let Some(below) = at else {
            break;
        };
        match converted.tables.mount(below) {
            Some(other) if other.point.as_str() == mount.point.as_str() => {
                depth = depth.saturating_add(1);
                at = other.stands_on;
            }
            _ => break,
        }
    }
    depth
}

// The rows of a table that are built.
fn wanted_rows(alloc: Global, converted: &Converted, table: usize) -> Result<Rows, AllocError> {
    let mut rows = BTreeMap::new(alloc);
    for mount in &converted.tables.mounts {
        if mount.table == table && mount.is_built() {
            let row = Row {
                path: owned(alloc, mount.point.as_str())?,
                depth: depth_of(converted, mount),
                filesystem: owned(alloc, mount.device.as_str())?,
                root: owned(alloc, mount.root.as_str())?,
                flags: owned(alloc, mount.flags.word().unwrap_or("rw"))?,
                group: mount.wanted.group,
                master: mount.wanted.master,
                unbindable: mount.wanted.unbindable,
            };
            rows.insert(key_of(alloc, &row)?, row)?;
        }
    }
    Ok(rows)
}

// Where the mounts of an answer are, by their numbers there: the path, and how deep each lies.
#[derive(Drop)]
struct Place {
    path: String,
    depth: usize,
}

// The number behind a mark in the type of a mount.
fn number_in(word: &str, mark: &str) -> Option<u64> {
    for part in word.split(',') {
        if let Some(number) = part.strip_prefix(mark) {
            return number.parse().ok();
        }
    }
    None
}

// The words of a row of an answer.
#[derive(Clone, Copy)]
struct Words<'a> {
    number: &'a str,
    parent: &'a str,
    point: &'a str,
    filesystem: &'a str,
    root: &'a str,
    flags: &'a str,
    word: &'a str,
}

fn words_of(text: &str) -> Option<Words<'_>> {
    let (number, rest) = text.split_once(' ')?;
    let (parent, rest) = rest.split_once(' ')?;
    let (point, rest) = rest.split_once(' ')?;
    let (filesystem, rest) = rest.split_once(' ')?;
    let (root, rest) = rest.split_once(' ')?;
    let (flags, word) = rest.split_once(' ')?;
    Some(Words {
        number,
        parent,
        point,
        filesystem,
        root,
        flags,
        word,
    })
}

// Where a mount of an answer is, once that of its parent is known.
fn place_of(
    alloc: Global,
    places: &BTreeMap<u64, Place>,
    words: Words<'_>,
) -> Result<Option<Place>, AllocError> {
    let Ok(parent) = words.parent.parse::<u64>() else {
        return Ok(Some(Place {
            path: owned(alloc, "/")?,
            depth: 0,
        }));
    };
    let Some(parent) = places.get(&parent) else {
        return Ok(None);
    };
    let is_same = words.point == "/";
    Ok(Some(Place {
        path: joined(
            alloc,
            parent.path.as_str(),
            if is_same { "" } else { words.point },
        )?,
        depth: if is_same {
            parent.depth.saturating_add(1)
        } else {
            0
        },
    }))
}

// Finds where mounts of an answer are, of which the parent's place is known, and tells whether one was found.
fn find_places(
    alloc: Global,
    texts: &[&str],
    places: &mut BTreeMap<u64, Place>,
) -> Result<bool, AllocError> {
    let mut is_found = false;
    for text in texts {
        let Some(words) = words_of(text) else {
            continue;
        };
        let Ok(number) = words.number.parse::<u64>() else {
            continue;
        };
        if !places.contains_key(&number)
            && let Some(place) = place_of(alloc, places, words)?
        {
            places.insert(number, place)?;
            is_found = true;
        }
    }
    Ok(is_found)
}

// The rows of an answer to `mounts`.
fn given_rows(alloc: Global, texts: &[&str]) -> Result<Rows, AllocError> {
    let mut places = BTreeMap::new(alloc);
    for _ in texts {
        if !find_places(alloc, texts, &mut places)? {
            break;
        }
    }
    let mut rows = BTreeMap::new(alloc);
    for text in texts {
        if let Some(words) = words_of(text)
            && let Some(row) = given_row(alloc, &places, words)?
        {
            rows.insert(key_of(alloc, &row)?, row)?;
        }
    }
    Ok(rows)
}

// A row of an answer.
fn given_row(
    alloc: Global,
    places: &BTreeMap<u64, Place>,
    words: Words<'_>,
) -> Result<Option<Row>, AllocError> {
    let Ok(number) = words.number.parse::<u64>() else {
        return Ok(None);
    };
    let Some(place) = places.get(&number) else {
        return Ok(None);
    };
    Ok(Some(Row {
        path: owned(alloc, place.path.as_str())?,
        depth: place.depth,
        filesystem: owned(alloc, words.filesystem)?,
        root: owned(alloc, words.root)?,
        flags: owned(alloc, words.flags)?,
        group: number_in(words.word, "shared:"),
        master: number_in(words.word, "slave:"),
        unbindable: words.word == "unbindable",
    }))
}

// Appends a group, by its number in the order in which the list shows groups.
fn push_group(
    text: &mut Draft,
    mark: &str,
    group: Option<u64>,
    names: &mut Names,
) -> Result<(), AllocError> {
    let Some(group) = group else {
        return Ok(());
    };
    let name = format!(in names.alloc; "group {group}")?;
    text.push(mark);
    text.push_number(names.number(name.as_str())?);
    Ok(())
}

// A row as it is compared and shown: filesystems and groups by the order in which the list has them.
fn shown(row: &Row, names: &mut Names) -> Result<String, AllocError> {
    let mut text = Draft::new(names.alloc);
    let filesystem = names.number(row.filesystem.as_str())?;
    text.push(row.path.as_str());
    text.push(" fs:");
    text.push_number(filesystem);
    text.push_word(row.root.as_str());
    text.push_word(row.flags.as_str());
    let now = Propagation {
        group: row.group,
        master: row.master,
        unbindable: row.unbindable,
    };
    if now.unbindable {
        text.push(" unbindable");
    } else if now.group.is_none() && now.master.is_none() {
        text.push(" private");
    }
    push_group(&mut text, " shared:", row.group, names)?;
    push_group(&mut text, " slave:", row.master, names)?;
    text.end()
}

// Rows as they are shown, under their keys.
fn shown_rows(alloc: Global, rows: &Rows) -> Result<BTreeMap<String, String>, AllocError> {
    let mut names = Names {
        alloc,
        known: BTreeMap::new(alloc),
    };
    let mut shown_rows = BTreeMap::new(alloc);
    for (key, row) in rows {
        let text = shown(row, &mut names)?;
        shown_rows.insert(owned(alloc, key.as_str())?, text)?;
    }
    Ok(shown_rows)
}

// Appends the rows that another list does not have so, behind a mark.
fn push_missing(
    text: &mut Draft,
    mark: &str,
    rows: &BTreeMap<String, String>,
    other: &BTreeMap<String, String>,
) -> u64 {
    let mut count: u64 = 0;
    for (key, row) in rows {
        let is_there = match other.get(key.as_str()) {
            Some(given) => given.as_str() == row.as_str(),
            None => false,
        };
        if !is_there {
            text.fill("{} {}\n", &[mark, row.as_str()]);
            count = count.saturating_add(1);
        }
    }
    count
}

// The lines of an answer with this number, behind the number.
fn answered(alloc: Global, answers: &str, number: u64) -> Result<Vec<&str>, AllocError> {
    let mut lines = Vec::new(alloc);
    for line in answers.lines() {
        if let Some((digits, rest)) = line.split_once(' ')
            && digits.parse::<u64>() == Ok(number)
            && !rest.starts_with("ok")
        {
            lines.push(rest)?;
        }
    }
    Ok(lines)
}

/// What is told of the tables and of the answers of a run of their script.
#[derive(Drop)]
pub struct Compared {
    pub text: String,
    pub differs: bool,
}

/// What differs between the tables and the answers of a run of their script: `-` what a table has, `+` what is answered.
pub fn differences(
    alloc: Global,
    converted: &Converted,
    answers: &str,
) -> Result<Compared, AllocError> {
    let mut text = Draft::new(alloc);
    let mut differs = false;
    let count = converted.tables.tables.len() as u64;
    let first = converted.written.lines.saturating_sub(count);
    for (place, table) in converted.tables.tables.iter().enumerate() {
        let number = first.saturating_add(place as u64).saturating_add(1);
        let lines = answered(alloc, answers, number)?;
        let wanted = shown_rows(alloc, &wanted_rows(alloc, converted, place)?)?;
        let given = shown_rows(alloc, &given_rows(alloc, lines.as_slice())?)?;
        text.fill("{}:\n", &[table.name.as_str()]);
        let missing = push_missing(&mut text, "-", &wanted, &given);
        let more = push_missing(&mut text, "+", &given, &wanted);
        if missing == 0 && more == 0 {
            text.push("equal\n");
        } else {
            differs = true;
        }
    }
    Ok(Compared {
        text: text.end()?,
        differs,
    })
}
