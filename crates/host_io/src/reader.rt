ghost use Rattle.std.specs.Prelude.{◌≡◌, ◌+◌, ◌<◌, ◌≤◌, ◌⊎◌, ℕ, true, false, List, [], IfOk, IfErr, IfSome, IsOk, OnOk, OnErr, MatchResult, MatchOption, length, take, drop, ◌==◌, position};
ghost use Rattle.std.specs.Io.KnownBytes.{IsAtEnd};
ghost use Rattle.host_io.specs.declared.limits.TheConstants.{MAX_INPUT};
ghost use Rattle.host_io.specs.Count.{Rose};
ghost use Rattle.host_io.specs.Lines.{LacksFeed, IsFirstFeed, has_feed, without_return};
ghost use Rattle.host_io.specs.LineReader.{backlog_of, Moves, Leaves, Spells, IsFirstLeft, Advances};
ghost use Rattle.host_io.specs.LineBuffer.{IsAnswered, IsLastAnswered};

use super::limits::MAX_LINE;
use super::line_buffer::Buffer;
use super::sources::Source;
use std::alloc::Global;
use std::marker::Model;

/// What `Lines::next` answers.
#[derive(Debug, Drop)]
pub enum Line {
    Bytes(Vec<u8>),
    /// A line of more than 160,000 bytes.
    TooLong,
    End,
}

/// Why no more lines come.
#[derive(Clone, Copy, Debug, PartialEq, Eq)]
pub enum LineFault {
    /// The source failed.
    Read,
    /// A byte came after 67,108,864 bytes were taken.
    Limit,
    /// Memory ran out.
    Memory,
}

/// Cuts what a source gives into lines.
#[derive(Drop)]
pub struct Lines {
    buffer: Buffer,
    ended: bool,
    fault: Option<LineFault>,
    alloc: Global,
}

impl Model for Lines {
    ghost use Rattle.std.specs.Prelude.{◌≡◌, ◌≤◌, true, [], length};
    ghost use Rattle.host_io.specs.declared.limits.TheConstants.{MAX_INPUT};
    ghost use Rattle.host_io.specs.LineReader.{LineReader};

    ghost Value = { LineReader };

    ghost view = { λ l. record {
      pending = l.buffer.pending;
      taken = l.buffer.taken;
      ended = l.ended;
      fault = l.fault;
    } };

    ghost invariant = { λ l. (length l.buffer.pending ≤ l.buffer.taken)
        × (l.buffer.taken ≤ MAX_INPUT)
        × (l.ended ≡ true → l.buffer.pending ≡ []) };
}

impl Lines {
    pub fn new(alloc: Global) -> Lines
        ensures { result ≡ record { pending = []; taken = 0; ended = false; fault = None } }
    {
        Lines {
            buffer: Buffer::new(alloc),
            ended: false,
            fault: None,
            alloc,
        }
    }

    /// Whether a whole line is at hand: the next call of `next` reads nothing.
    pub fn has_line(&self) -> bool
        ensures { result ≡ has_feed self.now.pending }
    {
        self.buffer.pending().iter().any(|byte| *byte == b'\n')
    }

    /// The next line, without its LF or CR LF. A last line without LF counts where it has a byte.
    /// After a fault each call answers that fault.
    pub fn next<I: Source>(&mut self, src: &mut I) -> Result<Line, LineFault>
        // The bytes that came, and those that went out with the line.
        ensures moved { IfOk result (λ line. (raw : List ℕ) × Spells raw self.new.ended line
            × Moves (backlog_of self.old) (backlog_of self.new) (I.remaining src.old)
            (I.remaining src.new) raw) }

        // Where the source tells its bytes, the answer is the first line of those that are left.
        ensures told { (self.old.ended ≡ true → IsAtEnd (I.remaining src.old)) → IfOk result
            (IsFirstLeft self.old.pending (I.remaining src.old) self.new.pending
            (I.remaining src.new)) }
        ensures ended { (self.old.ended ≡ true → IsAtEnd (I.remaining src.old))
            → self.new.ended ≡ true → IsAtEnd (I.remaining src.new) }

        // No more bytes than the limit are taken, and each line gives out at least one.
        ensures advances { IfOk result (λ line. Advances line self.old self.new) }
        ensures within { self.new.taken ≤ MAX_INPUT }
        ensures pending { length self.new.pending ≤ self.new.taken }

        // What a new fault leaves. After a failed read or at the limit all whole lines were given out.
        ensures left { self.old.fault ≡ None → IfErr result (λ fault. Leaves fault
            (backlog_of self.old) (backlog_of self.new) (I.remaining src.old)
            (I.remaining src.new)) }
        ensures read { self.old.fault ≡ None → result ≡ Err LineFault.Read
            → Rose (I.faults src.old) (I.faults src.new) }
        ensures steady { (result ≡ Err LineFault.Read) ⊎ (I.faults src.new ≡ I.faults src.old) }
        ensures limit { self.old.fault ≡ None → result ≡ Err LineFault.Limit
            → IfSome (I.remaining src.old) (λ left. MAX_INPUT < self.old.taken + length left) }

        // Where a whole line is at hand, the source isn't read, and but for want of memory the line is given.
        ensures unread { has_feed self.old.pending ≡ true → src.new ≡ src.old }
        ensures at_hand { self.old.fault ≡ None → has_feed self.old.pending ≡ true
            → IfErr result (λ fault. fault ≡ LineFault.Memory) }

        // The end and a fault stay.
        ensures done { self.old.fault ≡ None → self.old.ended ≡ true
            → (result ≡ Ok Line.End) × (self.new ≡ self.old) × (src.new ≡ src.old) }
        ensures empty { self.new.ended ≡ true → self.new.pending ≡ [] }
        ensures fault { MatchResult result (λ _. self.new.fault ≡ None) (λ fault. self.new.fault
            ≡ Some fault) }
        ensures again { IfSome self.old.fault
            (λ fault. (result ≡ Err fault) × (self.new ≡ self.old) × (src.new ≡ src.old)) }
        ensures count { I.faults src.old ≤ I.faults src.new }
    {
        if let Some(fault) = self.fault {
            return Err(fault);
        }
        if self.ended {
            return Ok(Line::End);
        }
        let answer = next_line(self.alloc, &mut self.buffer, &mut self.ended, src);
        if let Err(fault) = &answer {
            self.fault = Some(*fault);
        }
        answer
    }
}

/// The next line, of a source that has not ended so far.
fn next_line<I: Source>(
    alloc: Global,
    buffer: &mut Buffer,
    ended: &mut bool,
    src: &mut I,
) -> Result<Line, LineFault>
    ensures moved { IfOk result (λ line. (raw : List ℕ) × Spells raw ended.new line
        × Moves buffer.old buffer.new (I.remaining src.old) (I.remaining src.new) raw) }
    ensures ended { ended.old ≡ false → ended.new ≡ true → IsAtEnd (I.remaining src.new) }
    ensures empty { ended.old ≡ false → ended.new ≡ true → buffer.new.pending ≡ [] }
    ensures within { buffer.new.taken ≤ MAX_INPUT }
    ensures fewer { length buffer.new.pending ≤ buffer.new.taken }
    ensures left { IfErr result (λ fault. Leaves fault buffer.old buffer.new (I.remaining src.old)
        (I.remaining src.new)) }
    ensures steady { (result ≡ Err LineFault.Read) ⊎ (I.faults src.new ≡ I.faults src.old) }
    ensures read { result ≡ Err LineFault.Read → Rose (I.faults src.old) (I.faults src.new) }
    ensures count { I.faults src.old ≤ I.faults src.new }
    ensures unread { has_feed buffer.old.pending ≡ true → src.new ≡ src.old }
    ensures at_hand { has_feed buffer.old.pending ≡ true
        → IfErr result (λ fault. fault ≡ LineFault.Memory) }
{
    match find_feed(buffer, src)? {
        Some(place) => give_line(alloc, buffer, place),
        None => {
            let line = give_last(alloc, buffer)?;
            *ended = true;
            Ok(line)
        }
    }
}

/// The place of the first line feed, for which pieces are taken where none is pending; None at the end of the source.
fn find_feed<I: Source>(buffer: &mut Buffer, src: &mut I) -> Result<Option<usize>, LineFault>
    ensures moved { OnOk result (Moves buffer.old buffer.new (I.remaining src.old)
        (I.remaining src.new) []) }
    ensures within { buffer.new.taken ≤ MAX_INPUT }
    ensures fewer { length buffer.new.pending ≤ buffer.new.taken }
    ensures place { IfOk result (λ place. MatchOption place (LacksFeed buffer.new.pending)
        (IsFirstFeed buffer.new.pending)) }
    ensures end { result ≡ Ok None → IsAtEnd (I.remaining src.new) }
    ensures left { IfErr result (λ fault. Leaves fault buffer.old buffer.new (I.remaining src.old)
        (I.remaining src.new)) }
    ensures steady { (result ≡ Err LineFault.Read) ⊎ (I.faults src.new ≡ I.faults src.old) }
    ensures read { result ≡ Err LineFault.Read → Rose (I.faults src.old) (I.faults src.new) }
    ensures count { I.faults src.old ≤ I.faults src.new }
    ensures unread { has_feed buffer.old.pending ≡ true → src.new ≡ src.old }
    ensures found { has_feed buffer.old.pending ≡ true → IsOk result }
{
    match feed_from(buffer.pending(), 0) {
        Some(place) => Ok(Some(place)),
        None => seek_feed(buffer, src),
    }
}

/// Takes pieces until a line feed is pending, and answers its place; None at the end of the source.
fn seek_feed<I: Source>(buffer: &mut Buffer, src: &mut I) -> Result<Option<usize>, LineFault>
    requires { LacksFeed buffer.old.pending }
    ensures moved { OnOk result (Moves buffer.old buffer.new (I.remaining src.old)
        (I.remaining src.new) []) }
    ensures within { buffer.new.taken ≤ MAX_INPUT }
    ensures fewer { length buffer.new.pending ≤ buffer.new.taken }
    ensures place { IfOk result (λ place. MatchOption place (LacksFeed buffer.new.pending)
        (IsFirstFeed buffer.new.pending)) }
    ensures end { result ≡ Ok None → IsAtEnd (I.remaining src.new) }
    ensures left { IfErr result (λ fault. Leaves fault buffer.old buffer.new (I.remaining src.old)
        (I.remaining src.new)) }
    ensures steady { (result ≡ Err LineFault.Read) ⊎ (I.faults src.new ≡ I.faults src.old) }
    ensures read { result ≡ Err LineFault.Read → Rose (I.faults src.old) (I.faults src.new) }
    ensures count { I.faults src.old ≤ I.faults src.new }
{
    loop {
        let searched = buffer.pending().len();
        if !buffer.refill(src)? {
            return Ok(None);
        }
        if let Some(place) = feed_from(buffer.pending(), searched) {
            return Ok(Some(place));
        }
    }
}

/// The place of the first line feed, where none stands before `searched`.
fn feed_from(bytes: &[u8], searched: usize) -> Option<usize>
    requires within { searched ≤ length bytes.now }
    requires none { LacksFeed (take searched bytes.now) }
    ensures { MatchOption result (LacksFeed bytes.now) (IsFirstFeed bytes.now) }
{
    let place = first_feed(&bytes[searched..])?;
    Some(searched + place)
}

/// The place of the first line feed.
fn first_feed(bytes: &[u8]) -> Option<usize>
    ensures place { result ≡ position (λ byte. byte == 10) bytes.now }
    ensures within { IfSome result (λ place. place < length bytes.now) }
{
    bytes.iter().position(|byte| *byte == b'\n')
}

/// Gives out the line whose line feed stands at `place`.
fn give_line(alloc: Global, buffer: &mut Buffer, place: usize) -> Result<Line, LineFault>
    requires { place < length buffer.old.pending }
    ensures line { IfOk result (IsAnswered (without_return (take place buffer.old.pending))) }
    ensures rest { OnOk result (buffer.new ≡ record buffer.old {
      pending = drop
          (place + 1) buffer.old.pending;
    }) }
    ensures kept { OnErr result (buffer.new ≡ buffer.old) }
    ensures memory { IfErr result (λ fault. fault ≡ LineFault.Memory) }
{
    let text = without_return(&buffer.pending()[..place]);
    let line = line_of(alloc, text)?;
    buffer.remove(place + 1);
    Ok(line)
}

/// Gives out the last line, which has no line feed.
fn give_last(alloc: Global, buffer: &mut Buffer) -> Result<Line, LineFault>
    ensures line { IfOk result (IsLastAnswered buffer.old.pending) }
    ensures rest { OnOk result (buffer.new ≡ record buffer.old { pending = [] }) }
    ensures kept { OnErr result (buffer.new ≡ buffer.old) }
    ensures memory { IfErr result (λ fault. fault ≡ LineFault.Memory) }
{
    let count = buffer.pending().len();
    if count == 0 {
        return Ok(Line::End);
    }
    let line = line_of(alloc, buffer.pending())?;
    buffer.remove(count);
    Ok(line)
}

/// The answer for a line of this text.
fn line_of(alloc: Global, text: &[u8]) -> Result<Line, LineFault>
    ensures line { IfOk result (IsAnswered text.now) }
    ensures memory { IfErr result (λ fault. fault ≡ LineFault.Memory) }
{
    if text.len() > MAX_LINE {
        return Ok(Line::TooLong);
    }
    match Vec::from_slice(alloc, text) {
        Ok(line) => Ok(Line::Bytes(line)),
        Err(_) => Err(LineFault::Memory),
    }
}

/// The text without the carriage return at its end, if it has one.
fn without_return(text: &[u8]) -> &[u8]
    ensures { result.now ≡ without_return text.now }
{
    let count = text.len();
    if count > 0 && text[count - 1] == b'\r' {
        &text[..count - 1]
    } else {
        text
    }
}
