//! How answers are printed, without taking memory.
ghost use Rattle.std.specs.List.{flat_map};
ghost use Rattle.std.specs.Prelude.{if◌then◌else◌, ◌≡◌, ◌+◌, ◌/◌, ◌%◌, ◌^◌, ◌<◌, [], ◌∷◌, ◌++◌, codes, decimal, IfErr};
ghost use Rattle.vt_spec.specs.Language.Printed.{hex_digit, owner_words, printed_byte, printed_line, printed_mode, printed_rows, printed_text, printed_value, reply_line, spaced, stat_words};
ghost use Rattle.vt_io.specs.Sink.{Prints};
ghost use Rattle.vt_request.specs.Answers.{answer_of, result_of, stat_line_of};
ghost use Rattle.vt_line.specs.Printing.{further_words, kind_text, printed_names, printed_numbers, reply_words};

use crate::fault::RunFault;
use crate::hex::HexDigit;
use crate::listing::write_mounts;
use crate::peers::write_peers;
use crate::refusal::error_text;
use crate::token::split_plain;
use itoa::Buffer;
use vt_io::output::{Sink, SinkFailed};
use vt_io::writing::{write_all, write_parts};
use vt_request::{Answer, StatLine, TaskName};
use vt_spec::attributes::{Attr, Kind, Mode};
use vt_spec::errors::Deny;

/// The escape `\xhh` of a byte.
fn write_escape<W: Sink>(sink: &mut W, byte: u8) -> Result<(), SinkFailed>
    requires countable { W.failures sink.old + 1 < 2 ^ 64 }
    ensures printed { let digits = hex_digit (byte / 16) ∷ hex_digit (byte % 16) ∷ [] in
        Prints W.Sink (92 ∷ 120 ∷ digits) result sink.old sink.new }
{
    let (high, low) = HexDigit::pair_of(byte);
    write_all(sink, &[b'\\', b'x', high.to_byte(), low.to_byte()])
}

/// Bytes with their escapes.
pub fn write_bytes<W: Sink>(sink: &mut W, text: &[u8]) -> Result<(), SinkFailed>
    requires countable { W.failures sink.old + 1 < 2 ^ 64 }
    ensures printed { Prints W.Sink (flat_map printed_byte text.now) result sink.old sink.new }
{
    let mut rest = text;
    loop {
        let (plain, others) = split_plain(rest);
        write_all(sink, plain)?;
        let Some((byte, after)) = others.split_first() else {
            return Ok(());
        };
        write_escape(sink, *byte)?;
        rest = after;
    }
}

/// A text with its escapes; the empty one is `\e`.
fn write_text<W: Sink>(sink: &mut W, text: &[u8]) -> Result<(), SinkFailed>
    requires countable { W.failures sink.old + 1 < 2 ^ 64 }
    ensures printed { Prints W.Sink (printed_text text.now) result sink.old sink.new }
{
    if text.is_empty() {
        return write_all(sink, b"\\e");
    }
    write_bytes(sink, text)
}

/// Names, behind a space each.
fn write_names<W: Sink>(sink: &mut W, names: &[Vec<u8>]) -> Result<(), SinkFailed>
    requires countable { W.failures sink.old + 1 < 2 ^ 64 }
    ensures printed { Prints W.Sink (printed_names names.now) result sink.old sink.new }
{
    for name in names {
        write_all(sink, b" ")?;
        write_text(sink, name)?;
    }
    Ok(())
}

/// A word, behind a space.
pub fn write_word<W: Sink>(sink: &mut W, word: &[u8]) -> Result<(), SinkFailed>
    requires countable { W.failures sink.old + 1 < 2 ^ 64 }
    ensures printed { Prints W.Sink (32 ∷ word.now) result sink.old sink.new }
{
    write_parts(sink, &[b" ", word])
}

/// A number in decimal digits, behind a space.
pub fn write_number<W: Sink>(sink: &mut W, number: u64) -> Result<(), SinkFailed>
    requires countable { W.failures sink.old + 1 < 2 ^ 64 }
    ensures printed { Prints W.Sink (32 ∷ decimal number) result sink.old sink.new }
{
    let mut buffer = Buffer::new();
    write_word(sink, buffer.format(number).as_bytes())
}

/// The four octal digits of a mode.
fn mode_digits(mode: Mode) -> [u8; 4]
    ensures { result ≡ printed_mode mode }
{
    let bits = mode.bits();
    [
        b'0' + (bits / 512 % 8) as u8,
        b'0' + (bits / 64 % 8) as u8,
        b'0' + (bits / 8 % 8) as u8,
        b'0' + (bits % 8) as u8,
    ]
}

/// What an object is called.
fn kind_text(kind: Kind) -> &'static [u8]
    ensures { result.now ≡ kind_text kind }
{
    match kind {
        Kind::Dir => b"dir",
        Kind::File => b"file",
        Kind::Symlink => b"link",
        Kind::White => b"white",
    }
}

/// The numbers of a task's name, behind a point each.
fn write_numbers<W: Sink>(sink: &mut W, numbers: &[u8]) -> Result<(), SinkFailed>
    requires countable { W.failures sink.old + 1 < 2 ^ 64 }
    ensures printed { Prints W.Sink (printed_numbers numbers.now) result sink.old sink.new }
{
    for number in numbers {
        let mut buffer = Buffer::new();
        write_parts(sink, &[b".", buffer.format(*number).as_bytes()])?;
    }
    Ok(())
}

/// The line of a call that is done.
fn write_done<W: Sink>(sink: &mut W, number: u64) -> Result<(), SinkFailed>
    requires countable { W.failures sink.old + 1 < 2 ^ 64 }
    ensures printed { Prints W.Sink (printed_line number (codes "ok" ∷ [])) result sink.old sink.new }
{
    let mut buffer = Buffer::new();
    write_parts(sink, &[buffer.format(number).as_bytes(), b" ok\n"])
}

/// The line of an answer that is a text.
fn write_content<W: Sink>(sink: &mut W, number: u64, text: &[u8]) -> Result<(), SinkFailed>
    requires countable { W.failures sink.old + 1 < 2 ^ 64 }
    ensures printed { let words = codes "ok" ∷ printed_text text.now ∷ [] in
        Prints W.Sink (printed_line number words) result sink.old sink.new }
{
    let mut buffer = Buffer::new();
    let digits = buffer.format(number).as_bytes();
    let (plain, others) = split_plain(text);
    if others.is_empty() && !plain.is_empty() {
        return write_parts(sink, &[digits, b" ok ", plain, b"\n"]);
    }
    write_parts(sink, &[digits, b" ok "])?;
    write_text(sink, text)?;
    write_all(sink, b"\n")
}

/// The line of an answer that is a number.
fn write_counted<W: Sink>(sink: &mut W, number: u64, value: u64) -> Result<(), SinkFailed>
    requires countable { W.failures sink.old + 1 < 2 ^ 64 }
    ensures printed { let words = codes "ok" ∷ decimal value ∷ [] in
        Prints W.Sink (printed_line number words) result sink.old sink.new }
{
    let mut buffer = Buffer::new();
    let digits = buffer.format(number).as_bytes();
    let mut value_buffer = Buffer::new();
    let value = value_buffer.format(value).as_bytes();
    write_parts(sink, &[digits, b" ok ", value, b"\n"])
}

/// The front of a line that tells of an object: its kind, mode, user and group.
fn write_owner<W: Sink>(
    sink: &mut W,
    number: u64,
    kind: &[u8],
    attr: &Attr,
) -> Result<(), SinkFailed>
    requires countable { W.failures sink.old + 1 < 2 ^ 64 }
    ensures printed { let front = decimal number ++ codes " ok" ++ spaced (owner_words kind.now attr.now) in
        Prints W.Sink front result sink.old sink.new }
{
    let mut buffer = Buffer::new();
    let digits = buffer.format(number).as_bytes();
    let mode = mode_digits(attr.mode);
    let mut uid_buffer = Buffer::new();
    let uid = uid_buffer.format(attr.uid).as_bytes();
    let mut gid_buffer = Buffer::new();
    let gid = gid_buffer.format(attr.gid).as_bytes();
    write_parts(
        sink,
        &[digits, b" ok ", kind, b" ", &mode, b" ", uid, b" ", gid],
    )
}

/// The rest of that line: what an object of its kind has beside its owner.
fn write_further<W: Sink>(sink: &mut W, line: &StatLine) -> Result<(), SinkFailed>
    requires countable { W.failures sink.old + 1 < 2 ^ 64 }
    ensures printed { let words = further_words line.now.kind (stat_line_of line.now) in
        Prints W.Sink (spaced words ++ codes "\n") result sink.old sink.new }
{
    match line.kind {
        Kind::Dir if line.opaque => write_all(sink, b" opaque\n"),
        Kind::File | Kind::Symlink => {
            let mut buffer = Buffer::new();
            let size = buffer.format(line.size as u64).as_bytes();
            write_parts(sink, &[b" ", size, b"\n"])
        }
        Kind::Dir | Kind::White => write_all(sink, b"\n"),
    }
}

/// The line of an answer that tells of an object.
fn write_told<W: Sink>(sink: &mut W, number: u64, line: &StatLine) -> Result<(), SinkFailed>
    requires countable { W.failures sink.old + 1 < 2 ^ 64 }
    ensures printed { let words = codes "ok" ∷ stat_words line.now.kind (stat_line_of line.now) in
        Prints W.Sink (printed_line number words) result sink.old sink.new }
{
    write_owner(sink, number, kind_text(line.kind), &line.attr)?;
    write_further(sink, line)
}

/// The line of an answer that is names.
fn write_listed<W: Sink>(sink: &mut W, number: u64, names: &[Vec<u8>]) -> Result<(), SinkFailed>
    requires countable { W.failures sink.old + 1 < 2 ^ 64 }
    ensures printed { let text = decimal number ++ codes " ok" ++ printed_names names.now ++ codes "\n" in
        Prints W.Sink text result sink.old sink.new }
{
    let mut buffer = Buffer::new();
    write_parts(sink, &[buffer.format(number).as_bytes(), b" ok"])?;
    write_names(sink, names)?;
    write_all(sink, b"\n")
}

/// The line of an answer that is a task.
fn write_child<W: Sink>(sink: &mut W, number: u64, name: &TaskName) -> Result<(), SinkFailed>
    requires countable { W.failures sink.old + 1 < 2 ^ 64 }
    ensures printed { let text = decimal number ++ codes " ok t" ++ printed_numbers name.now ++ codes "\n" in
        Prints W.Sink text result sink.old sink.new }
{
    let mut buffer = Buffer::new();
    write_parts(sink, &[buffer.format(number).as_bytes(), b" ok t"])?;
    write_numbers(sink, name.numbers())?;
    write_all(sink, b"\n")
}

/// A truth value as a word.
fn yes_or_no_text(yes: bool) -> &'static [u8]
    ensures { result.now ≡ if yes then codes "yes" else codes "no" }
{
    if yes { b"yes" } else { b"no" }
}

/// The line of an answer that is `yes` or `no`.
fn write_yes_or_no<W: Sink>(sink: &mut W, number: u64, yes: bool) -> Result<(), SinkFailed>
    requires countable { W.failures sink.old + 1 < 2 ^ 64 }
    ensures printed { let words = codes "ok" ∷ (if yes then codes "yes" else codes "no") ∷ [] in
        Prints W.Sink (printed_line number words) result sink.old sink.new }
{
    let mut buffer = Buffer::new();
    let digits = buffer.format(number).as_bytes();
    write_parts(sink, &[digits, b" ok ", yes_or_no_text(yes), b"\n"])
}

/// The first line of an answer.
fn write_answer<W: Sink>(sink: &mut W, number: u64, answer: &Answer) -> Result<(), SinkFailed>
    requires countable { W.failures sink.old + 1 < 2 ^ 64 }
    ensures printed { let words = codes "ok" ∷ printed_value (answer_of answer.now) in
        Prints W.Sink (printed_line number words) result sink.old sink.new }
{
    match answer {
        Answer::Done => write_done(sink, number),
        Answer::Bytes(text) => write_content(sink, number, text),
        Answer::Names(names) => write_listed(sink, number, names),
        Answer::Told(line) => write_told(sink, number, line),
        Answer::Opened(descriptor) => write_counted(sink, number, u64::from(*descriptor)),
        Answer::Child(name) => write_child(sink, number, name),
        Answer::MountList(lines) => write_counted(sink, number, lines.len() as u64),
        Answer::PeerList(lines) => write_counted(sink, number, lines.len() as u64),
        Answer::YesNo(yes_or_no) => write_yes_or_no(sink, number, *yes_or_no),
    }
}

/// The line of a refusal: the error's number and name, and the rule.
fn write_denial<W: Sink>(sink: &mut W, number: u64, deny: &Deny) -> Result<(), SinkFailed>
    requires countable { W.failures sink.old + 1 < 2 ^ 64 }
    ensures printed { let words = reply_words (Err deny.now) in
        Prints W.Sink (printed_line number words) result sink.old sink.new }
{
    let mut buffer = Buffer::new();
    let digits = buffer.format(number).as_bytes();
    let rule = deny.rule.name().as_bytes();
    write_parts(sink, &[digits, error_text(deny.errno), rule, b"\n"])
}

/// The first line that answers the line of this number.
fn write_line<W: Sink>(
    sink: &mut W,
    number: u64,
    outcome: &Result<Answer, Deny>,
) -> Result<(), SinkFailed>
    requires countable { W.failures sink.old + 1 < 2 ^ 64 }
    ensures printed { let words = reply_words (result_of outcome.now) in
        Prints W.Sink (printed_line number words) result sink.old sink.new }
{
    match outcome {
        Ok(answer) => write_answer(sink, number, answer),
        Err(deny) => write_denial(sink, number, deny),
    }
}

/// The lines of a list behind the first, in the answer to the line of this number: one for each mount or peer group.
fn write_rows<W: Sink>(sink: &mut W, number: u64, answer: &Answer) -> Result<(), SinkFailed>
    requires countable { W.failures sink.old + 1 < 2 ^ 64 }
    ensures printed { let rows = printed_rows (answer_of answer.now) in
        Prints W.Sink (flat_map (printed_line number) rows) result sink.old sink.new }
{
    match answer {
        Answer::MountList(lines) => write_mounts(sink, number, lines),
        Answer::PeerList(lines) => write_peers(sink, number, lines),
        _ => Ok(()),
    }
}

/// The lines that answer the line of this number.
fn write_lines<W: Sink>(
    sink: &mut W,
    number: u64,
    outcome: &Result<Answer, Deny>,
) -> Result<(), SinkFailed>
    requires countable { W.failures sink.old + 1 < 2 ^ 64 }
    ensures printed { let text = reply_line number (result_of outcome.now) in
        Prints W.Sink text result sink.old sink.new }
{
    write_line(sink, number, outcome)?;
    match outcome {
        Ok(answer) => write_rows(sink, number, answer),
        Err(_) => Ok(()),
    }
}

/// Prints the lines that answer the line of this number.
///
/// Only the sink can fail it. A front of them is written then.
pub fn write_reply<W: Sink>(
    sink: &mut W,
    number: u64,
    outcome: &Result<Answer, Deny>,
) -> Result<(), RunFault>
    requires countable { W.failures sink.old + 1 < 2 ^ 64 }
    ensures printed { let text = reply_line number (result_of outcome.now) in
        Prints W.Sink text result sink.old sink.new }
    ensures fault { IfErr result (λ fault. fault ≡ RunFault.Write) }
{
    write_lines(sink, number, outcome).map_err(|_| RunFault::Write)
}
