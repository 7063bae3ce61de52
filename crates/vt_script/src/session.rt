//! What is kept from one piece of a script to the next.
ghost use Rattle.std.specs.Prelude.{◌≡◌, ◌+◌, ◌<◌, ◌≤◌, ◌^◌, ◌++◌, ◌∷◌, [], List, ℕ, length, IfOk, IfErr, MatchOption, OnOk, OnErr};
ghost use Rattle.vt_io.specs.LineBuffer.{Holds};
ghost use Rattle.vt_line.specs.Versions.{version_of};
ghost use Rattle.vt_answers.specs.Ends.{HasNumbers};
ghost use Rattle.vt_script.specs.Progress.{HasNoNewline, IsOpening};
ghost use Rattle.vt_script.specs.Session.{moment, lines_begun, IsReading, Feeds, Closes, Replies};
ghost use Rattle.vt_script.specs.SessionValue.{state_of};

use memchr::memchr;
use std::alloc::Global;
use vt_answers::Calls;
use vt_io::line::LineBuffer;
use vt_io::output::Sink;
use vt_line::fault::RunFault;
use vt_line::line::{Line, Unescaped};
use vt_line::print::write_reply;
use vt_line::version::Version;
use vt_spec::errors::Rule;

/// What lines are parsed with: the version of their language, and the texts of the last line that had escapes.
#[derive(Drop)]
pub struct Parser {
    pub version: Version,
    pub alloc: Global,
    pub texts: Option<Unescaped>,
}

/// The world, how many lines are answered, and the line that is being read.
#[derive(Drop)]
pub struct Session<C> {
    pub parser: Parser,
    pub world: C,
    /// How many lines have ended, also those that have no answer.
    pub answered: u64,
    /// What was read of the next line.
    pub line: LineBuffer,
}

// The bytes before the first newline, and those after it.
fn split_line(bytes: &[u8]) -> Option<(&[u8], &[u8])>
    ensures { MatchOption result (HasNoNewline bytes.now)
        (λ parts. (bytes.now ≡ parts.0.now ++ 10 ∷ parts.1.now) × HasNoNewline parts.0.now) }
{
    let newline = memchr(b'\n', bytes)?;
    let (line, after) = bytes.split_at(newline);
    Some((line, &after[1..]))
}

// Answers the line of this number.
fn answer<C: Calls, W: Sink>(
    parser: &mut Parser,
    world: &mut C,
    number: u64,
    line: &[u8],
    sink: &mut W,
) -> Result<(), RunFault>
    requires { W.failures sink.old + 1 < 2 ^ 64 }
    ensures version { parser.new.version ≡ parser.old.version }
    ensures replies { HasNumbers (C.world world.old)
        → Replies W.Sink (version_of parser.old.version) (C.world world.old) line.now number result
        (C.world world.new) sink.old sink.new }
    ensures kept { OnOk result (W.failures sink.new ≡ W.failures sink.old) }
    ensures counted { OnErr result (W.failures sink.new ≡ W.failures sink.old + 1) }
    ensures fault { IfErr result (λ fault. fault ≡ RunFault.Write) }
{
    match Line::parse_as(parser.version, parser.alloc, line, &mut parser.texts) {
        Ok(Line::Silent) => Ok(()),
        Ok(Line::Call(task, call)) => {
            let answer = world.call(&task, call);
            write_reply(sink, number, &answer)
        }
        Ok(Line::Ask(directive)) => {
            let answer = world.direct(&directive);
            write_reply(sink, number, &answer)
        }
        Err(deny) => write_reply(sink, number, &Err(deny)),
    }
}

// Answers the line of this number, which was read in pieces.
fn answer_kept<C: Calls, W: Sink>(
    parser: &mut Parser,
    world: &mut C,
    number: u64,
    line: &LineBuffer,
    sink: &mut W,
) -> Result<(), RunFault>
    requires { W.failures sink.old + 1 < 2 ^ 64 }
    ensures version { parser.new.version ≡ parser.old.version }
    ensures replies { (text : List ℕ) → Holds text line.now → HasNumbers (C.world world.old)
        → Replies W.Sink (version_of parser.old.version) (C.world world.old) text number result
        (C.world world.new) sink.old sink.new }
    ensures kept { OnOk result (W.failures sink.new ≡ W.failures sink.old) }
    ensures counted { OnErr result (W.failures sink.new ≡ W.failures sink.old + 1) }
    ensures fault { IfErr result (λ fault. fault ≡ RunFault.Write) }
{
    if line.is_overlong() {
        return write_reply(sink, number, &Err(Rule::S1.denial()));
    }
    answer(parser, world, number, line.bytes(), sink)
}

impl<C: Calls> Session<C> {
    /// The opening world, before the first byte. `Memory`: the world or the line's buffer was refused.
    pub fn new(version: Version, alloc: Global) -> Result<Self, RunFault>
        ensures version { IfOk result (λ session. session.parser.version ≡ version) }
        ensures opening { IfOk result (λ session. IsOpening (version_of version) (moment (state_of C.world session) [])) }
        ensures reading { IfOk result (λ session. IsReading (state_of C.world session) []) }
        ensures begun { IfOk result (λ session. lines_begun (state_of C.world session) ≡ 0) }
        ensures memory { IfErr result (λ fault. fault ≡ RunFault.Memory) }
    {
        let Ok(line) = LineBuffer::new(alloc) else {
            return Err(RunFault::Memory);
        };
        let Ok(world) = C::opening(alloc) else {
            return Err(RunFault::Memory);
        };
        let parser = Parser {
            version,
            alloc,
            texts: None,
        };
        Ok(Session {
            parser,
            world,
            answered: 0,
            line,
        })
    }

    /// The world, after all lines that were answered.
    pub fn into_world(self) -> C
        ensures { result ≡ self.world }
    {
        self.world
    }

    // Answers the line that a newline ends.
    fn end_line<W: Sink>(&mut self, sink: &mut W) -> Result<(), RunFault>
        requires countable { W.failures sink.old + 1 < 2 ^ 64 }
        requires lines { lines_begun (state_of C.world self.old) + 1 < 2 ^ 64 }
        ensures feeds { (line : List ℕ) → IsReading (state_of C.world self.old) line
            → Feeds W.Sink (moment (state_of C.world self.old) line) (10 ∷ []) result
            (state_of C.world self.new) sink.old sink.new }
        ensures begun { OnOk result (lines_begun (state_of C.world self.new) ≤ lines_begun
            (state_of C.world self.old) + 1) }
        ensures kept { OnOk result (W.failures sink.new ≡ W.failures sink.old) }
        ensures counted { OnErr result (W.failures sink.new ≡ W.failures sink.old + 1) }
        ensures fault { IfErr result (λ fault. fault ≡ RunFault.Write) }
    {
        let number = self.answered + 1;
        answer_kept(&mut self.parser, &mut self.world, number, &self.line, sink)?;
        self.answered = number;
        self.line.clear();
        Ok(())
    }

    // Answers a line that was read at once, without its newline. It is not copied.
    #[inline(always)]
    fn answer_whole<W: Sink>(&mut self, line: &[u8], sink: &mut W) -> Result<(), RunFault>
        requires countable { W.failures sink.old + 1 < 2 ^ 64 }
        requires lines { lines_begun (state_of C.world self.old) + 1 < 2 ^ 64 }
        requires one { HasNoNewline line.now }
        ensures feeds { IsReading (state_of C.world self.old) []
            → Feeds W.Sink (moment (state_of C.world self.old) []) (line.now ++ 10 ∷ []) result
            (state_of C.world self.new) sink.old sink.new }
        ensures begun { OnOk result (lines_begun (state_of C.world self.new) ≤ lines_begun
            (state_of C.world self.old) + 1) }
        ensures kept { OnOk result (W.failures sink.new ≡ W.failures sink.old) }
        ensures counted { OnErr result (W.failures sink.new ≡ W.failures sink.old + 1) }
        ensures fault { IfErr result (λ fault. fault ≡ RunFault.Write) }
    {
        let number = self.answered + 1;
        answer(&mut self.parser, &mut self.world, number, line, sink)?;
        self.answered = number;
        Ok(())
    }

    // Takes the rest of a line, without its newline, and answers the line.
    fn take_line<W: Sink>(&mut self, rest: &[u8], sink: &mut W) -> Result<(), RunFault>
        requires countable { W.failures sink.old + 1 < 2 ^ 64 }
        requires lines { lines_begun (state_of C.world self.old) + length rest.now + 1 < 2 ^ 64 }
        requires one { HasNoNewline rest.now }
        ensures feeds { (line : List ℕ) → IsReading (state_of C.world self.old) line
            → Feeds W.Sink (moment (state_of C.world self.old) line) (rest.now ++ 10 ∷ []) result
            (state_of C.world self.new) sink.old sink.new }
        ensures begun { OnOk result (lines_begun (state_of C.world self.new) ≤ lines_begun
            (state_of C.world self.old) + length rest.now + 1) }
        ensures kept { OnOk result (W.failures sink.new ≡ W.failures sink.old) }
        ensures counted { OnErr result (W.failures sink.new ≡ W.failures sink.old + 1) }
        ensures fault { IfErr result (λ fault. fault ≡ RunFault.Write) }
    {
        if self.line.is_empty() {
            return self.answer_whole(rest, sink);
        }
        self.line.extend(rest);
        self.end_line(sink)
    }

    /// Takes the next bytes of the script, and answers each line that ends among them. `Write`: the sink failed.
    pub fn feed<W: Sink>(&mut self, bytes: &[u8], sink: &mut W) -> Result<(), RunFault>
        requires countable { W.failures sink.old + 1 < 2 ^ 64 }
        requires lines { lines_begun (state_of C.world self.old) + length bytes.now < 2 ^ 64 }
        ensures feeds { (line : List ℕ) → IsReading (state_of C.world self.old) line
            → Feeds W.Sink (moment (state_of C.world self.old) line) bytes.now result
            (state_of C.world self.new) sink.old sink.new }
        ensures begun { OnOk result (lines_begun (state_of C.world self.new) ≤ lines_begun
            (state_of C.world self.old) + length bytes.now) }
        ensures kept { OnOk result (W.failures sink.new ≡ W.failures sink.old) }
        ensures counted { OnErr result (W.failures sink.new ≡ W.failures sink.old + 1) }
        ensures fault { IfErr result (λ fault. fault ≡ RunFault.Write) }
    {
        let mut rest = bytes;
        while let Some((line, after)) = split_line(rest) {
            self.take_line(line, sink)?;
            rest = after;
        }
        self.line.extend(rest);
        Ok(())
    }

    /// Answers a last line that ends without a newline. `Write`: the sink failed.
    pub fn finish<W: Sink>(&mut self, sink: &mut W) -> Result<(), RunFault>
        requires countable { W.failures sink.old + 1 < 2 ^ 64 }
        requires lines { lines_begun (state_of C.world self.old) < 2 ^ 64 }
        ensures closes { (line : List ℕ) → IsReading (state_of C.world self.old) line
            → Closes W.Sink (moment (state_of C.world self.old) line) result sink.old sink.new }
        ensures counted { OnErr result (W.failures sink.new ≡ W.failures sink.old + 1) }
        ensures fault { IfErr result (λ fault. fault ≡ RunFault.Write) }
    {
        if self.line.is_empty() {
            return Ok(());
        }
        answer_kept(
            &mut self.parser,
            &mut self.world,
            self.answered + 1,
            &self.line,
            sink,
        )
    }
}
