// The lines of a stream.
ghost use Rattle.std.specs.Prelude.{◌≡◌, ◌≢◌, ◌≤◌, ◌+◌, ◌++◌, ◌∷◌, [], length, true, false, OnOk, OnErr, IfOk, IsOk, IfErr, IfSome, Some, None, Err, nat_lt, if◌then◌else◌};
ghost use Rattle.std.specs.Result.{result_err};
ghost use Rattle.zw_def.specs.Line.{HasLineFeed, after_line, whole_lines};
ghost use Rattle.zw_io.specs.State.{bytes_left};
ghost use Rattle.zw_io.specs.Drawn.{DrawsFrom, IsSound, Pops};
ghost use Rattle.zw_io.specs.LineAnswers.{Answers, MeetsEnd, Steps, StepsToEnd, Counts, Spends, kept_with};
ghost use Rattle.zw_io.specs.NextLines.{AnswersOne, MeetsOne, SpendsOne, AnswersLines, MeetsLines};

use crate::Source;
use crate::block::Block;
use std::alloc::AllocError;

/// How many bytes may be given.
const MOST: u32 = 1 << 30;

/// How many bytes of a line are kept: one more than a line may have.
const KEPT: usize = 1_048_577;

/// Why there is no next line: a read of the source failed, the line does not end within the bytes that may be given, or
/// memory ran out.
#[derive(Clone, Copy, Debug, PartialEq, Eq)]
pub enum LinesFault {
    ReadFault,
    TooMuch,
    Memory,
}

impl From<AllocError> for LinesFault {
    ghost use Rattle.std.specs.Prelude.{◌≡◌};
    ghost use Rattle.zw_io.specs.declared.lines.LinesFault.TheVariants.{Memory};

    ghost from_gives = { λ _ fault. fault ≡ Memory };

    fn from(_error: AllocError) -> LinesFault {
        LinesFault::Memory
    }
}

/// What was given: a line, the front of a line that is too long, or nothing at the end of input.
#[derive(Clone, Copy, Debug, PartialEq, Eq)]
pub enum LineEnd {
    Line,
    TooLong,
    End,
}

/// The lines of a source. It holds bytes that were taken from the source and not yet given, says how many more may be
/// given, and knows the end of input and the refusal that it met.
#[derive(Drop)]
pub struct Lines<'a, S: Source> {
    pub source: &'a mut S,
    pub block: Block,
    pub room: u32,
    pub is_ended: bool,
    pub refused: Option<LinesFault>,
}

impl<'a, S: Source> Lines<'a, S> {
    /// The lines of a source, of which none is read yet. It takes no memory.
    pub fn new(source: &'a mut S) -> Lines<'a, S>
        ensures same_source { result.source.ghost_name ≡ source.entry.ghost_name }
        ensures source { result.source.now ≡ source.old }
        ensures block { result.block ≡ [] }
        ensures room { result.room ≡ 1073741824 }
        ensures begun { result.is_ended ≡ false }
        ensures left { bytes_left S.left result ≡ S.left source.old }
        ensures fresh { result.refused ≡ None }
        ensures sound { IsSound S.left result }
    {
        Lines {
            source,
            block: Block::new(),
            room: MOST,
            is_ended: false,
            refused: None,
        }
    }

    /// From now on this refusal is answered.
    pub fn refuse(&mut self, fault: LinesFault)
        ensures same_source { self.new.source.ghost_name ≡ self.old.source.ghost_name }
        ensures source { self.new.source.now ≡ self.old.source.now }
        ensures block { self.new.block ≡ self.old.block }
        ensures room { self.new.room ≡ self.old.room }
        ensures ended { self.new.is_ended ≡ self.old.is_ended }
        ensures refused { self.new.refused ≡ Some fault }
    {
        self.refused = Some(fault);
    }

    // Takes more bytes, where none is held and the end of input is not met.
    fn refill(&mut self) -> Result<(), LinesFault>
        ensures same_source { self.new.source.ghost_name ≡ self.old.source.ghost_name }
        ensures same { bytes_left S.left self.new ≡ bytes_left S.left self.old }
        ensures room { self.new.room ≡ self.old.room }
        ensures end { OnOk result (IfSome (bytes_left S.left self.new) (λ bytes. self.new.block ≡ [] → bytes ≡ [])) }
        ensures some { OnOk result (self.new.block ≡ [] → self.new.is_ended ≡ true) }
        ensures met { OnOk result (self.new.block ≢ [] → self.new.is_ended ≡ self.old.is_ended) }
        ensures begun { OnErr result (self.old.is_ended ≡ false) }
        ensures drained { OnErr result (bytes_left S.left self.new ≡ S.left self.new.source.now) }
        ensures fault { IfErr result (λ e. e ≡ LinesFault.ReadFault) }
        ensures cause { Counts result (S.faults self.old.source.now) (S.faults self.new.source.now) }
        ensures refused { self.new.refused ≡ self.old.refused }
        ensures draws { DrawsFrom S.left self.old self.new }
        ensures sound { IsSound S.left self.old → IsSound S.left self.new }
        ensures held { self.old.block ≢ [] → (self.new.block ≡ self.old.block) × IsOk result }
        ensures unasked { self.old.block ≢ [] → self.new.source.now ≡ self.old.source.now }
        ensures over { self.old.is_ended ≡ true → self.new.source.now ≡ self.old.source.now }
    {
        if self.is_ended || !self.block.is_empty() {
            return Ok(());
        }
        let most = self.room as usize + 1;
        if self.block.fill(self.source, most).is_err() {
            return Err(LinesFault::ReadFault);
        }
        self.is_ended = self.block.is_empty();
        Ok(())
    }

    // The next byte, and None at the end of input.
    fn next_byte(&mut self) -> Result<Option<u8>, LinesFault>
        ensures same_source { self.new.source.ghost_name ≡ self.old.source.ghost_name }
        ensures step { Steps result (bytes_left S.left self.old) self.old.room
            (bytes_left S.left self.new) self.new.room }
        ensures met { StepsToEnd result self.old.is_ended self.new.is_ended }
        ensures drained { IfErr result (λ fault.
            fault ≡ LinesFault.ReadFault → bytes_left S.left self.new ≡ S.left self.new.source.now) }
        ensures cause { Counts result (S.faults self.old.source.now) (S.faults self.new.source.now) }
        ensures room { IfOk result (λ r. IfSome r (λ _. self.new.room + 1 ≡ self.old.room)) }
        ensures refused { self.new.refused ≡ self.old.refused }
        ensures draws { DrawsFrom S.left self.old self.new }
        ensures sound { IsSound S.left self.old → IsSound S.left self.new }
        ensures held { self.old.block ≢ [] → Pops result self.old.block self.new.block }
        ensures unasked { self.old.block ≢ [] → self.new.source.now ≡ self.old.source.now }
        ensures over { self.old.is_ended ≡ true → self.new.source.now ≡ self.old.source.now }
    {
        self.refill()?;
        if self.block.is_empty() {
            return Ok(None);
        }
        if self.room == 0 {
            return Err(LinesFault::TooMuch);
        }
        let byte = self.block.pop();
        self.room -= 1;
        Ok(Some(byte))
    }

    // Cuts the next line off.
    fn cut_line(&mut self, into: &mut Vec<u8>) -> Result<LineEnd, LinesFault>
        requires { into.old.items ≡ [] }
        ensures same_source { self.new.source.ghost_name ≡ self.old.source.ghost_name }
        ensures answer { IfSome (bytes_left S.left self.old) (λ bytes.
            Answers result bytes self.old.room into.new.items (bytes_left S.left self.new) self.new.room) }
        ensures met { IfSome (bytes_left S.left self.old) (λ bytes.
            MeetsEnd result bytes self.old.is_ended self.new.is_ended) }
        ensures drained { IfErr result (λ fault.
            fault ≡ LinesFault.ReadFault → bytes_left S.left self.new ≡ S.left self.new.source.now) }
        ensures cause { Counts result (S.faults self.old.source.now) (S.faults self.new.source.now) }
        ensures room { IfOk result (λ end. Spends end self.old.room self.new.room) }
        ensures refused { self.new.refused ≡ self.old.refused }
        ensures draws { DrawsFrom S.left self.old self.new }
        ensures sound { IsSound S.left self.old → IsSound S.left self.new }
        ensures unasked { HasLineFeed self.old.block → self.new.source.now ≡ self.old.source.now }
        ensures held { OnOk result (HasLineFeed self.old.block → self.new.block ≡ after_line self.old.block) }
        ensures over { self.old.is_ended ≡ true → self.new.source.now ≡ self.old.source.now }
        ensures stays { OnOk result (self.old.is_ended ≡ true → self.new.is_ended ≡ true) }
    {
        let start = self.room;
        'bytes: loop {
            match self.next_byte()? {
                None if self.room == start => return Ok(LineEnd::End),
                None => return Ok(ended(into.len())),
                Some(b'\n') => return Ok(ended(into.len())),
                Some(byte) => keep(into, byte)?,
            }
        }
    }

    /// Puts the next line, without its LF, in place of what `into` held: the whole line, or its first 1,048,577 bytes
    /// where it is too long. A refusal is answered again by every later call. Once the end of input is met, the source
    /// is asked no more.
    pub fn next_line(&mut self, into: &mut Vec<u8>) -> Result<LineEnd, LinesFault>
        ensures same_source { self.new.source.ghost_name ≡ self.old.source.ghost_name }
        ensures answer { self.old.refused ≡ None → IfSome (bytes_left S.left self.old) (λ bytes.
            Answers result bytes self.old.room into.new.items (bytes_left S.left self.new) self.new.room) }
        // Callers know of each line before a failed read that it had its LF.
        ensures met { self.old.refused ≡ None → IfSome (bytes_left S.left self.old) (λ bytes.
            MeetsEnd result bytes self.old.is_ended self.new.is_ended) }
        // After a failed read no byte is held: what is left is what the source has left.
        ensures drained { self.old.refused ≡ None → IfErr result (λ fault.
            fault ≡ LinesFault.ReadFault → bytes_left S.left self.new ≡ S.left self.new.source.now) }
        ensures cause { self.old.refused ≡ None →
            Counts result (S.faults self.old.source.now) (S.faults self.new.source.now) }
        ensures again { IfSome self.old.refused (λ fault.
            (result ≡ Err fault) × (self.new.source.now ≡ self.old.source.now)) }
        // Whatever the answer, the source has left what it had but for what was taken, at most one byte past the room.
        ensures draws { DrawsFrom S.left self.old self.new }
        ensures sound { IsSound S.left self.old → IsSound S.left self.new }
        // A line that stands whole in the bytes that are held is answered without a call of the source, and so is each
        // line once the end of input is met.
        ensures unasked { HasLineFeed self.old.block → self.new.source.now ≡ self.old.source.now }
        ensures held { OnOk result (HasLineFeed self.old.block → self.new.block ≡ after_line self.old.block) }
        ensures over { self.old.is_ended ≡ true → self.new.source.now ≡ self.old.source.now }
        ensures stays { OnOk result (self.old.is_ended ≡ true → self.new.is_ended ≡ true) }
        // Each line spends room, so that a loop over the lines ends.
        ensures room { IfOk result (λ end. Spends end self.old.room self.new.room) }
        ensures refused { self.new.refused ≡ result_err result }
    {
        into.clear();
        if let Some(fault) = self.refused {
            return Err(fault);
        }
        match self.cut_line(into) {
            Ok(end) => Ok(end),
            Err(fault) => {
                self.refused = Some(fault);
                Err(fault)
            }
        }
    }

    // Appends the next line, whole and with an LF, to what `into` holds: whether there was one.
    fn append_line(&mut self, into: &mut Vec<u8>) -> Result<bool, LinesFault>
        ensures same_source { self.new.source.ghost_name ≡ self.old.source.ghost_name }
        ensures answer { IfSome (bytes_left S.left self.old) (λ bytes.
            AnswersOne result bytes self.old.room into.old.items into.new.items
            (bytes_left S.left self.new) self.new.room) }
        ensures met { IfSome (bytes_left S.left self.old) (λ bytes.
            MeetsOne result bytes self.old.is_ended self.new.is_ended) }
        ensures drained { IfErr result (λ fault.
            fault ≡ LinesFault.ReadFault → bytes_left S.left self.new ≡ S.left self.new.source.now) }
        ensures cause { Counts result (S.faults self.old.source.now) (S.faults self.new.source.now) }
        ensures room { IfOk result (λ some. SpendsOne some self.old.room self.new.room) }
        ensures refused { self.new.refused ≡ self.old.refused }
        ensures draws { DrawsFrom S.left self.old self.new }
        ensures sound { IsSound S.left self.old → IsSound S.left self.new }
        ensures unasked { HasLineFeed self.old.block → self.new.source.now ≡ self.old.source.now }
        ensures held { OnOk result (HasLineFeed self.old.block → self.new.block ≡ after_line self.old.block) }
        ensures over { self.old.is_ended ≡ true → self.new.source.now ≡ self.old.source.now }
        ensures stays { OnOk result (self.old.is_ended ≡ true → self.new.is_ended ≡ true) }
    {
        let start = self.room;
        'bytes: loop {
            match self.next_byte()? {
                None if self.room == start => return Ok(false),
                None => {
                    append(into, b'\n')?;
                    return Ok(true);
                }
                Some(b'\n') => {
                    append(into, b'\n')?;
                    return Ok(true);
                }
                Some(byte) => append(into, byte)?,
            }
        }
    }

    // Appends the next n lines, or all that are left where these are fewer.
    fn append_lines(&mut self, n: u64, into: &mut Vec<u8>) -> Result<u64, LinesFault>
        ensures same_source { self.new.source.ghost_name ≡ self.old.source.ghost_name }
        ensures answer { IfSome (bytes_left S.left self.old) (λ bytes.
            AnswersLines n result bytes self.old.room into.old.items into.new.items
            (bytes_left S.left self.new) self.new.room) }
        ensures met { IfSome (bytes_left S.left self.old) (λ bytes.
            MeetsLines n result bytes self.old.is_ended self.new.is_ended) }
        ensures drained { IfErr result (λ fault.
            fault ≡ LinesFault.ReadFault → bytes_left S.left self.new ≡ S.left self.new.source.now) }
        ensures cause { Counts result (S.faults self.old.source.now) (S.faults self.new.source.now) }
        ensures room { IfOk result (λ k. self.new.room + k ≤ self.old.room) }
        ensures refused { self.new.refused ≡ self.old.refused }
        ensures draws { DrawsFrom S.left self.old self.new }
        ensures sound { IsSound S.left self.old → IsSound S.left self.new }
        ensures unasked { n ≤ length (whole_lines self.old.block) → self.new.source.now ≡ self.old.source.now }
        ensures over { self.old.is_ended ≡ true → self.new.source.now ≡ self.old.source.now }
        ensures stays { OnOk result (self.old.is_ended ≡ true → self.new.is_ended ≡ true) }
    {
        let mut count = 0;
        'lines: while count < n {
            if !self.append_line(into)? {
                return Ok(count);
            }
            count += 1;
        }
        Ok(n)
    }

    /// Appends the next n lines, or all that are left up to the end of input where these are fewer, to what `into`
    /// holds: each whole, whatever its size, and with an LF. It says how many there were. A refusal is answered again
    /// by every later call, and leaves in `into` a front of the lines.
    pub fn next_lines(&mut self, n: u64, into: &mut Vec<u8>) -> Result<u64, LinesFault>
        ensures same_source { self.new.source.ghost_name ≡ self.old.source.ghost_name }
        ensures answer { self.old.refused ≡ None → IfSome (bytes_left S.left self.old) (λ bytes.
            AnswersLines n result bytes self.old.room into.old.items into.new.items
            (bytes_left S.left self.new) self.new.room) }
        ensures met { self.old.refused ≡ None → IfSome (bytes_left S.left self.old) (λ bytes.
            MeetsLines n result bytes self.old.is_ended self.new.is_ended) }
        ensures drained { self.old.refused ≡ None → IfErr result (λ fault.
            fault ≡ LinesFault.ReadFault → bytes_left S.left self.new ≡ S.left self.new.source.now) }
        ensures cause { self.old.refused ≡ None →
            Counts result (S.faults self.old.source.now) (S.faults self.new.source.now) }
        ensures again { IfSome self.old.refused (λ fault.
            (result ≡ Err fault) × (self.new.source.now ≡ self.old.source.now)) }
        ensures draws { DrawsFrom S.left self.old self.new }
        ensures sound { IsSound S.left self.old → IsSound S.left self.new }
        // Lines that stand whole in the bytes that are held are taken without a call of the source.
        ensures unasked { n ≤ length (whole_lines self.old.block) → self.new.source.now ≡ self.old.source.now }
        ensures over { self.old.is_ended ≡ true → self.new.source.now ≡ self.old.source.now }
        ensures stays { OnOk result (self.old.is_ended ≡ true → self.new.is_ended ≡ true) }
        // Each line spends room.
        ensures room { IfOk result (λ k. self.new.room + k ≤ self.old.room) }
        ensures refused { self.new.refused ≡ result_err result }
    {
        if let Some(fault) = self.refused {
            return Err(fault);
        }
        match self.append_lines(n, into) {
            Ok(count) => Ok(count),
            Err(fault) => {
                self.refused = Some(fault);
                Err(fault)
            }
        }
    }
}

// What a line is that ends where so many of its bytes are kept.
fn ended(kept: usize) -> LineEnd
    ensures { result ≡ (if nat_lt kept 1048577 then LineEnd.Line else LineEnd.TooLong) }
{
    if kept < KEPT {
        LineEnd::Line
    } else {
        LineEnd::TooLong
    }
}

// Keeps a byte, where there is room.
fn keep(into: &mut Vec<u8>, byte: u8) -> Result<(), LinesFault>
    ensures ok { OnOk result (into.new.items ≡ kept_with 1048577 into.old.items byte) }
    ensures err { IfErr result (λ e. e ≡ LinesFault.Memory) }
{
    if into.len() < KEPT {
        if into.push(byte).is_err() {
            return Err(LinesFault::Memory);
        }
    }
    Ok(())
}

// Appends a byte.
fn append(into: &mut Vec<u8>, byte: u8) -> Result<(), LinesFault>
    ensures ok { OnOk result (into.new.items ≡ into.old.items ++ byte ∷ []) }
    ensures err { IfErr result (λ e. e ≡ LinesFault.Memory) }
{
    if into.push(byte).is_err() {
        return Err(LinesFault::Memory);
    }
    Ok(())
}
