//! The options of an overlay: the kernel's overlayfs document, "upper and lower", "multiple lower layers".
ghost use Rattle.std.specs.Prelude.{◌≡◌, ◌∷◌, [], None, option_map};
ghost use Rattle.vt_spec.specs.Language.Script.{behind, lower_item, off_item, option_item, options_of, path_word, single_path, upper_item, work_item, with_item};
ghost use Rattle.vt_spec.specs.Machine.Rules.Mounting.{work_walked};
ghost use Rattle.vt_spec.specs.PathText.{parts};
ghost use Rattle.vt_options.specs.OptionValue.{item_of, parts_in};

use std::iter::FusedIterator;
use std::marker::Model;

/// The parts of a text that are still to come, from the first to the last: what stands before, between and after its
/// separators.
#[derive(Debug, Drop)]
pub struct Parts<'a> {
    separator: u8,
    rest: Option<&'a [u8]>,
}

impl<'a> Model for Parts<'a> {
    ghost use Rattle.std.specs.Prelude.{List, ℕ};
    ghost use Rattle.vt_options.specs.OptionValue.{parts_in};

    ghost Value = { List (List ℕ) };

    ghost view = { λ left. parts_in left.separator left.rest };
}

impl<'a> Parts<'a> {
    // The parts of a text, if there is one.
    fn of(separator: u8, text: Option<&'a [u8]>) -> Self
        ensures { result ≡ parts_in separator text.entry }
    {
        Parts {
            separator,
            rest: text,
        }
    }
}

impl<'a> Iterator for Parts<'a> {
    ghost use Rattle.std.specs.Iterator.{item_count, YieldsFirstRef};

    type Item = &'a [u8];

    ghost next_gives = { YieldsFirstRef (λ rest. rest) };

    ghost remaining = { item_count (λ rest. rest) };

    // By `next_gives` the result is the head of the list and the tail is left, or the list is empty.
    fn next(&mut self) -> Option<&'a [u8]> {
        let (part, rest) = split_first_part(self.separator, self.rest?);
        self.rest = rest;
        Some(part)
    }
}

impl<'a> FusedIterator for Parts<'a> {}

// What stands before the first separator, and what follows it, if there is one.
fn split_first_part(separator: u8, text: &[u8]) -> (&[u8], Option<&[u8]>)
    ensures { parts separator text.now ≡ result.0.now ∷ parts_in separator result.1 }
{
    match text.iter().position(|byte| *byte == separator) {
        Some(end) => (&text[..end], Some(&text[end + 1..])),
        None => (text, None),
    }
}

// One option of an overlay.
#[derive(Clone, Copy, Debug)]
enum OptionItem<'a> {
    Lowers(&'a [u8]),
    Upper(&'a [u8]),
    Work(&'a [u8]),
    Off,
}

// What follows a beginning of a text.
fn behind<'a>(beginning: &[u8], text: &'a [u8]) -> Option<&'a [u8]>
    ensures { option_map (λ rest. rest.now) result ≡ behind beginning.now text.now }
{
    text.strip_prefix(beginning)
}

// A path: any text without byte 0.
fn path_word(text: &[u8]) -> Option<&[u8]>
    ensures { option_map (λ path. path.now) result ≡ path_word text.now }
{
    if text.contains(&0) { None } else { Some(text) }
}

// One path: no colon in it.
fn single_path(text: &[u8]) -> Option<&[u8]>
    ensures { option_map (λ path. path.now) result ≡ single_path text.now }
{
    if text.contains(&b':') {
        None
    } else {
        path_word(text)
    }
}

// `lowerdir=` and paths between colons.
fn lower_item(text: &[u8]) -> Option<OptionItem<'_>>
    ensures { option_map item_of result ≡ lower_item text.now }
{
    let paths = behind(b"lowerdir=", text)?;
    Some(OptionItem::Lowers(path_word(paths)?))
}

// `upperdir=` and a path.
fn upper_item(text: &[u8]) -> Option<OptionItem<'_>>
    ensures { option_map item_of result ≡ upper_item text.now }
{
    let path = behind(b"upperdir=", text)?;
    Some(OptionItem::Upper(single_path(path)?))
}

// `workdir=` and a path.
fn work_item(text: &[u8]) -> Option<OptionItem<'_>>
    ensures { option_map item_of result ≡ work_item text.now }
{
    let path = behind(b"workdir=", text)?;
    Some(OptionItem::Work(single_path(path)?))
}

// A feature of overlayfs that is turned off.
fn off_item(text: &[u8]) -> Option<OptionItem<'_>>
    ensures { option_map item_of result ≡ off_item text.now }
{
    let is_off = text == b"index=off".as_slice()
        || text == b"metacopy=off".as_slice()
        || text == b"redirect_dir=off".as_slice()
        || text == b"xino=off".as_slice();
    if is_off { Some(OptionItem::Off) } else { None }
}

// One option of an overlay.
fn option_item(text: &[u8]) -> Option<OptionItem<'_>>
    ensures { option_map item_of result ≡ option_item text.now }
{
    if let Some(item) = lower_item(text) {
        return Some(item);
    }
    if let Some(item) = upper_item(text) {
        return Some(item);
    }
    if let Some(item) = work_item(text) {
        return Some(item);
    }
    off_item(text)
}

/// The options of an overlay mount: of each the paths that count, as parts of the text.
#[derive(Debug, Drop)]
pub struct LayerOptions<'a> {
    lowers: Option<&'a [u8]>,
    upper: Option<&'a [u8]>,
    work: Option<&'a [u8]>,
}

impl<'a> Model for LayerOptions<'a> {
    ghost use Rattle.std.specs.Prelude.{option_map};
    ghost use Rattle.vt_spec.specs.Language.Calls.{OverlayWords};
    ghost use Rattle.vt_options.specs.OptionValue.{parts_in};

    ghost Value = { OverlayWords };

    ghost view = { λ options. record {
      lowers = parts_in 58 options.lowers;
      upper = option_map (λ path. path.now) options.upper;
      work = option_map (λ path. path.now) options.work;
    } };
}

impl<'a> LayerOptions<'a> {
    // No options.
    fn new() -> Self
        ensures { result ≡ record { lowers = []; upper = None; work = None } }
    {
        LayerOptions {
            lowers: None,
            upper: None,
            work: None,
        }
    }

    // These with one more; of a repeated one the last counts.
    fn with(self, item: OptionItem<'a>) -> Self
        ensures { result ≡ with_item self.entry (item_of item.entry) }
    {
        match item {
            OptionItem::Lowers(paths) => LayerOptions {
                lowers: Some(paths),
                ..self
            },
            OptionItem::Upper(path) => LayerOptions {
                upper: Some(path),
                ..self
            },
            OptionItem::Work(path) => LayerOptions {
                work: Some(path),
                ..self
            },
            OptionItem::Off => self,
        }
    }

    /// The options that a text is, if it is a list of options: items between commas, each `lowerdir=` and paths between
    /// colons, `upperdir=` or `workdir=` and a path, or a feature that is turned off. Of a repeated option the last
    /// counts. It does not allocate.
    pub fn parse(text: &'a [u8]) -> Option<Self>
        ensures { result ≡ options_of text.now }
    {
        let mut options = LayerOptions::new();
        let mut items = Parts::of(b',', Some(text));
        while let Some(item) = items.next() {
            options = options.with(option_item(item)?);
        }
        Some(options)
    }

    /// The paths of the lower layers, from the top.
    pub fn lowers(&self) -> Parts<'a>
        ensures { result ≡ self.now.lowers }
    {
        Parts::of(b':', self.lowers)
    }

    /// The path of the upper directory, if there is one.
    pub fn upper(&self) -> Option<&'a [u8]>
        ensures { option_map (λ path. path.now) result ≡ self.now.upper }
    {
        self.upper
    }

    /// The path of the work directory that is walked: none without an upper directory.
    pub fn work(&self) -> Option<&'a [u8]>
        ensures { option_map (λ path. path.now) result ≡ work_walked self.now }
    {
        self.upper?;
        self.work
    }
}
