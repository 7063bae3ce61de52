//! How the list of peer groups is printed, without taking memory.
ghost use Rattle.std.specs.Prelude.{◌+◌, ◌^◌, ◌<◌, ◌∷◌, ◌++◌, map};
ghost use Rattle.vt_spec.specs.Language.Printed.{number_or_dash, peer_line_words, printed_line};
ghost use Rattle.vt_spec.specs.Language.Printed.{printed_member, printed_members, spaced};
ghost use Rattle.vt_io.specs.Sink.{Prints};
ghost use Rattle.vt_request.specs.Answers.{mount_place_of, peer_line_of};
ghost use Rattle.vt_line.specs.Printing.{printed_further_members, printed_peers};

use crate::print::{write_number, write_word};
use itoa::Buffer;
use vt_io::output::{Sink, SinkFailed};
use vt_io::writing::{write_all, write_parts};
use vt_request::{MountPlace, PeerLine};

/// A mount by its namespace and its place, behind these bytes.
fn write_member<W: Sink>(sink: &mut W, before: &[u8], at: MountPlace) -> Result<(), SinkFailed>
    requires countable { W.failures sink.old + 1 < 2 ^ 64 }
    ensures printed { let text = before.now ++ printed_member (mount_place_of at) in
        Prints W.Sink text result sink.old sink.new }
{
    let mut namespace_buffer = Buffer::new();
    let namespace = namespace_buffer.format(at.namespace as u64).as_bytes();
    let mut place_buffer = Buffer::new();
    let place = place_buffer.format(at.place as u64).as_bytes();
    write_parts(sink, &[before, namespace, b".", place])
}

/// Mounts, behind a comma each.
fn write_further_members<W: Sink>(sink: &mut W, others: &[MountPlace]) -> Result<(), SinkFailed>
    requires countable { W.failures sink.old + 1 < 2 ^ 64 }
    ensures printed { Prints W.Sink (printed_further_members others.now) result sink.old sink.new }
{
    for other in others {
        write_member(sink, b",", *other)?;
    }
    Ok(())
}

/// Mounts between commas, or `-` for none, behind a space.
fn write_members<W: Sink>(sink: &mut W, members: &[MountPlace]) -> Result<(), SinkFailed>
    requires countable { W.failures sink.old + 1 < 2 ^ 64 }
    ensures printed { let text = printed_members (map mount_place_of members.now) in
        Prints W.Sink (32 ∷ text) result sink.old sink.new }
{
    let Some((first, others)) = members.split_first() else {
        return write_word(sink, b"-");
    };
    write_member(sink, b" ", *first)?;
    write_further_members(sink, others)
}

/// The group from which a group receives, or `-` for none, behind a space.
fn write_master<W: Sink>(sink: &mut W, master: Option<usize>) -> Result<(), SinkFailed>
    requires countable { W.failures sink.old + 1 < 2 ^ 64 }
    ensures printed { Prints W.Sink (32 ∷ number_or_dash master) result sink.old sink.new }
{
    match master {
        Some(group) => write_number(sink, group as u64),
        None => write_word(sink, b"-"),
    }
}

/// A group, its master, its members and its slaves, behind a space each.
fn write_group<W: Sink>(sink: &mut W, line: &PeerLine) -> Result<(), SinkFailed>
    requires countable { W.failures sink.old + 1 < 2 ^ 64 }
    ensures printed { let words = peer_line_words (peer_line_of line.now) in
        Prints W.Sink (spaced words) result sink.old sink.new }
{
    write_number(sink, line.group as u64)?;
    write_master(sink, line.master)?;
    write_members(sink, &line.members)?;
    write_members(sink, &line.slaves)
}

/// The line of a group, in the answer to the line of this number.
fn write_peer_line<W: Sink>(sink: &mut W, number: u64, line: &PeerLine) -> Result<(), SinkFailed>
    requires countable { W.failures sink.old + 1 < 2 ^ 64 }
    ensures printed { let words = peer_line_words (peer_line_of line.now) in
        Prints W.Sink (printed_line number words) result sink.old sink.new }
{
    let mut buffer = Buffer::new();
    write_all(sink, buffer.format(number).as_bytes())?;
    write_group(sink, line)?;
    write_all(sink, b"\n")
}

/// A line for each group, in the answer to the line of this number.
pub fn write_peers<W: Sink>(sink: &mut W, number: u64, lines: &[PeerLine]) -> Result<(), SinkFailed>
    requires countable { W.failures sink.old + 1 < 2 ^ 64 }
    ensures printed { Prints W.Sink (printed_peers number lines.now) result sink.old sink.new }
{
    for line in lines {
        write_peer_line(sink, number, line)?;
    }
    Ok(())
}
