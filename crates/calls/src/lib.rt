// The call sheet: one entry's line, and the lines of a whole sheet.
#![tactic(auto)]

ghost use Rattle.std.specs.Prelude.{◌≡◌, ltb, length};
ghost use Rattle.tokens.specs.Tokens.{tokens};
ghost use Rattle.call_spec.specs.Sheet.{entries, mark, line_of, call_sheet};
ghost use Rattle.call_spec.specs.Calls.{sheet_call, entry_call};
ghost use Rattle.entries.specs.Find.{as_sheet_entry};
ghost use Rattle.calls.specs.Answers.{as_sheet, as_entry};
ghost use Rattle.calls.specs.Walk.{SaysLine, SaysLines, name_call};

use admit::{Refusal, admit_text};
use entries::{NAME_LIMIT, find_entry, has_long_name};
use entry_reader::read_name;
use rows::Entry;
use sentences::{Entries, SheetEntry};
use word_writer::{WordCounts, Writer};

// A sheet of n bytes has a call sheet of at most GROWTH * (n + 1) bytes, and a name of n bytes has a line of at most as many.
const GROWTH: usize = 11;

// A whole sheet's answer: the count of tokens, the count of words, and the call sheet's length.
#[derive(Clone, Copy, Debug, PartialEq, Eq)]
pub struct CalledSheet {
    pub tokens: usize,
    pub words: usize,
    pub bytes: usize,
}

// One entry's answer: its record, the count of its words, and its line's length.
#[derive(Clone, Copy, Debug, PartialEq, Eq)]
pub struct CalledEntry {
    pub entry: Entry,
    pub words: usize,
    pub bytes: usize,
}

fn mark_of(starts: bool) -> u8
    ensures { result ≡ mark starts }
{
    if starts { b'+' } else { b'-' }
}

// Writes an entry's line, and answers its record.
fn say_line(called: SheetEntry, out: &mut Writer) -> Entry
    ensures { SaysLine (as_sheet_entry called.entry) out.old out.new result.row }
{
    out.put_byte(mark_of(called.starts));
    let entry = read_name(called.name, out);
    out.put_byte(b'\n');
    entry
}

// Writes the lines of all entries, and answers how many there are.
fn say_sheet(s: &[u8], out: &mut Writer) -> usize
    ensures tokens { result ≡ length (tokens s.now) }
    ensures lines { SaysLines (entries s.now) out.old out.new }
{
    // After a chain such as `map(|entry| say_line(entry, out)).count()` a proof knows nothing of what its closure wrote.
    let mut tokens = 0;
    for entry in Entries::new(s) {
        say_line(entry, out);
        tokens += 1;
    }
    tokens
}

// Whether a buffer is smaller than the call sheet. The lines are measured only if it may be.
fn is_sheet_short(s: &[u8], buffer: &[u8]) -> bool
    ensures { result ≡ ltb (length buffer.now) (length (call_sheet s.now)) }
{
    if s.len() < buffer.len() / GROWTH {
        return false;
    }
    let mut lines = Writer::new(&mut [], &mut [], true);
    say_sheet(s, &mut lines);
    buffer.len() < lines.counts().bytes
}

// Calls the whole sheet.
pub fn call_sheet(s: &[u8], out: &mut [u8]) -> Result<CalledSheet, Refusal>
    ensures { as_sheet result out.new ≡ sheet_call s.now out.old }
{
    admit_text(s)?;
    if has_long_name(s) {
        return Err(Refusal::NameTooLong);
    }
    if is_sheet_short(s, out) {
        return Err(Refusal::BufferTooShort);
    }
    let mut lines = Writer::new(out, &mut [], true);
    let tokens = say_sheet(s, &mut lines);
    let WordCounts { words, bytes } = lines.counts();
    Ok(CalledSheet {
        tokens,
        words,
        bytes,
    })
}

// Whether a buffer is smaller than an entry's line. The line is measured only if it may be.
// One function for this and `is_sheet_short` is no plainer: its contract has to say what a closure writes, and from where on.
fn is_line_short(called: SheetEntry, buffer: &[u8]) -> bool
    ensures { result ≡ ltb (length buffer.now) (length (line_of (as_sheet_entry called.entry))) }
{
    if called.name.len() < buffer.len() / GROWTH {
        return false;
    }
    let mut line = Writer::new(&mut [], &mut [], true);
    say_line(called, &mut line);
    buffer.len() < line.counts().bytes
}

// Calls an entry that is there.
fn call_name(called: SheetEntry, out: &mut [u8]) -> Result<CalledEntry, Refusal>
    ensures { as_entry result out.new ≡ name_call (as_sheet_entry called.entry) out.old }
{
    if NAME_LIMIT < called.name.len() {
        return Err(Refusal::NameTooLong);
    }
    if is_line_short(called, out) {
        return Err(Refusal::BufferTooShort);
    }
    let mut line = Writer::new(out, &mut [], true);
    let entry = say_line(called, &mut line);
    let WordCounts { words, bytes } = line.counts();
    Ok(CalledEntry {
        entry,
        words,
        bytes,
    })
}

// Calls entry number k of the sheet, from 0.
pub fn call_entry(s: &[u8], k: usize, out: &mut [u8]) -> Result<CalledEntry, Refusal>
    ensures { as_entry result out.new ≡ entry_call s.now k out.old }
{
    admit_text(s)?;
    let Some(called) = find_entry(s, k) else {
        return Err(Refusal::NoSuchEntry);
    };
    call_name(called, out)
}
