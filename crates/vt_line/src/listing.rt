//! How the list of mounts is printed, without taking memory.
ghost use Rattle.std.specs.Prelude.{◌≡◌, ◌+◌, ◌^◌, ◌<◌, [], ◌∷◌, ◌++◌, codes, decimal, if◌then◌else◌, option_map};
ghost use Rattle.vt_spec.specs.Language.Printed.{kind_word, mount_line_words, mount_point_words, printed_flags, printed_line, printed_spot, printed_type, spaced};
ghost use Rattle.vt_io.specs.Sink.{Prints};
ghost use Rattle.vt_cred.specs.MountFlags.{flags_of};
ghost use Rattle.vt_request.specs.Answers.{mount_line_of, spot_of, type_line_of};
ghost use Rattle.vt_line.specs.Printing.{mount_point_of, printed_mounts, printed_steps, shown_words};

use crate::print::{write_bytes, write_number, write_word};
use itoa::Buffer;
use vt_cred::MountFlags;
use vt_io::output::{Sink, SinkFailed};
use vt_io::writing::{write_all, write_parts};
use vt_request::{MountLine, Spot, TypeLine};

/// The names of a path, behind a slash each.
fn write_steps<W: Sink>(sink: &mut W, names: &[Vec<u8>]) -> Result<(), SinkFailed>
    requires countable { W.failures sink.old + 1 < 2 ^ 64 }
    ensures printed { Prints W.Sink (printed_steps names.now) result sink.old sink.new }
{
    for name in names {
        write_all(sink, b"/")?;
        write_bytes(sink, name)?;
    }
    Ok(())
}

/// Where a mount stands or begins, behind a space.
fn write_spot<W: Sink>(sink: &mut W, spot: &Spot) -> Result<(), SinkFailed>
    requires countable { W.failures sink.old + 1 < 2 ^ 64 }
    ensures printed { Prints W.Sink (32 ∷ printed_spot (spot_of spot.now)) result sink.old sink.new }
{
    match spot {
        Spot::Gone => write_word(sink, b"gone"),
        Spot::Reached(path) => {
            if path.is_empty() {
                return write_word(sink, b"/");
            }
            write_all(sink, b" ")?;
            write_steps(sink, path)
        }
    }
}

/// The mount that a mount stands on by its place in the list, and where it stands there; `- -` for a root mount.
fn write_mount_point<W: Sink>(sink: &mut W, point: &Option<(usize, Spot)>) -> Result<(), SinkFailed>
    requires countable { W.failures sink.old + 1 < 2 ^ 64 }
    ensures printed { let words = mount_point_words (option_map mount_point_of point.now) in
        Prints W.Sink (spaced words) result sink.old sink.new }
{
    match point {
        None => write_all(sink, b" - -"),
        Some((place, spot)) => {
            write_number(sink, *place as u64)?;
            write_spot(sink, spot)
        }
    }
}

/// The kind of a filesystem, before its number.
fn kind_word(overlay: bool) -> &'static [u8]
    ensures { result.now ≡ kind_word overlay }
{
    if overlay { b"overlay:" } else { b"plain:" }
}

/// The kind and number of a mount's filesystem, behind a space.
fn write_filesystem<W: Sink>(sink: &mut W, line: &MountLine) -> Result<(), SinkFailed>
    requires countable { W.failures sink.old + 1 < 2 ^ 64 }
    ensures printed { let word = kind_word line.now.overlay ++ decimal line.now.filesystem in
        Prints W.Sink (32 ∷ word) result sink.old sink.new }
{
    let mut buffer = Buffer::new();
    let number = buffer.format(line.filesystem as u64).as_bytes();
    write_parts(sink, &[b" ", kind_word(line.overlay), number])
}

/// The word of a mount's access.
fn access_text(is_read_only: bool) -> &'static [u8]
    ensures { result.now ≡ (if is_read_only then codes "ro" else codes "rw") }
{
    if is_read_only { b"ro" } else { b"rw" }
}

/// A word, or none.
fn word_if(is_given: bool, word: &'static [u8]) -> &'static [u8]
    ensures { result.now ≡ (if is_given then word.now else []) }
{
    if is_given { word } else { b"" }
}

/// The flags of a mount between commas, behind a space.
fn write_flags<W: Sink>(sink: &mut W, flags: MountFlags) -> Result<(), SinkFailed>
    requires countable { W.failures sink.old + 1 < 2 ^ 64 }
    ensures printed { Prints W.Sink (32 ∷ printed_flags (flags_of flags)) result sink.old sink.new }
{
    let access = access_text(flags.is_read_only());
    let noexec = word_if(flags.is_noexec(), b",noexec");
    let nosymfollow = word_if(flags.is_nosymfollow(), b",nosymfollow");
    write_parts(sink, &[b" ", access, noexec, nosymfollow])
}

/// The propagation type of a mount, behind a space.
fn write_type<W: Sink>(sink: &mut W, kind: TypeLine) -> Result<(), SinkFailed>
    requires countable { W.failures sink.old + 1 < 2 ^ 64 }
    ensures printed { Prints W.Sink (32 ∷ printed_type (type_line_of kind)) result sink.old sink.new }
{
    let mut group_buffer = Buffer::new();
    let mut master_buffer = Buffer::new();
    match kind {
        TypeLine::Shared { group, master } => {
            let group = group_buffer.format(group as u64).as_bytes();
            let Some(master) = master else {
                return write_parts(sink, &[b" shared:", group]);
            };
            let master = master_buffer.format(master as u64).as_bytes();
            write_parts(sink, &[b" shared:", group, b",slave:", master])
        }
        TypeLine::Slave { master } => {
            let master = master_buffer.format(master as u64).as_bytes();
            write_parts(sink, &[b" slave:", master])
        }
        TypeLine::Private => write_word(sink, b"private"),
        TypeLine::Unbindable => write_word(sink, b"unbindable"),
    }
}

/// What a mount shows, and how: its filesystem, where that is shown from, its flags and its type.
fn write_shown<W: Sink>(sink: &mut W, line: &MountLine) -> Result<(), SinkFailed>
    requires countable { W.failures sink.old + 1 < 2 ^ 64 }
    ensures printed { Prints W.Sink (spaced (shown_words (mount_line_of line.now))) result sink.old sink.new }
{
    write_filesystem(sink, line)?;
    write_spot(sink, &line.root)?;
    write_flags(sink, line.flags)?;
    write_type(sink, line.kind)
}

/// The line of a mount by its place in the list, in the answer to the line of this number.
fn write_mount<W: Sink>(
    sink: &mut W,
    number: u64,
    place: u64,
    line: &MountLine,
) -> Result<(), SinkFailed>
    requires countable { W.failures sink.old + 1 < 2 ^ 64 }
    ensures printed { let words = mount_line_words (place, mount_line_of line.now) in
        Prints W.Sink (printed_line number words) result sink.old sink.new }
{
    let mut buffer = Buffer::new();
    write_all(sink, buffer.format(number).as_bytes())?;
    write_number(sink, place)?;
    write_mount_point(sink, &line.mount_point)?;
    write_shown(sink, line)?;
    write_all(sink, b"\n")
}

/// A line for each mount, in the answer to the line of this number.
pub fn write_mounts<W: Sink>(
    sink: &mut W,
    number: u64,
    lines: &[MountLine],
) -> Result<(), SinkFailed>
    requires countable { W.failures sink.old + 1 < 2 ^ 64 }
    ensures printed { Prints W.Sink (printed_mounts number lines.now) result sink.old sink.new }
{
    let mut place = 0;
    for line in lines {
        place += 1;
        write_mount(sink, number, place, line)?;
    }
    Ok(())
}
