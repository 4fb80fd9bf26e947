// The reader of entries: says the words of a name, and answers its record. The entry reader, the percent reader and the range
// reader call each other on shorter names. No name that ends in % is taken by the rows before row 10, so the last byte is tested
// first; and no range is taken by rows 1 to 5, so that test is next.
//
// A name may be only percent signs, so each of these calls must take little of the stack. The signs taken off are counted, and
// are said after what stands before them: nothing has to be kept for the time after the inner call. The parts of a range are
// digits, so the range reader is entered once at most.
#![tactic(auto)]

ghost use Rattle.std.specs.Prelude.{◌≡◌, true, false, ◌++◌, ◌+◌, ◌-◌, ◌≤◌, length, take};
ghost use Rattle.word_writer.specs.Writer.{usize_max, Says};
ghost use Rattle.numerals.specs.Words.{spelled};
ghost use Rattle.shapes.specs.Shapes.{is_range};
ghost use Rattle.rows.specs.Rows.{is_percent, per_cent, by, read};
ghost use Rattle.row_readers.specs.Walk.{Reads};
ghost use Rattle.entry_reader.specs.Percents.{per_cents, with_percents};

use lists::{Byte, Not, ends_with, front, span, tail, without_back};
use row_readers::read_by_row;
use rows::{Entry, Row};
use shapes::is_range;
use vocabulary::{CENT, PER, TO, word};
use word_writer::Writer;

// Whether a name goes to row 10.
fn is_percent(name: &[u8]) -> bool
    ensures { result ≡ is_percent name.now }
{
    ends_with(name, b'%')
}

// Says "per" and "cent".
fn say_per_cent(out: &mut Writer)
    ensures { Says (spelled per_cent) out.old out.new }
{
    out.put_word(word(PER));
    out.put_word(word(CENT));
}

// Says "per" and "cent" `percents` times.
#[tactic(auto, using(crate::proofs::Laws::no_percents_said))]
fn say_per_cents(percents: usize, out: &mut Writer)
    ensures { Says (spelled (per_cents percents)) out.old out.new }
{
    for _ in 0..percents {
        say_per_cent(out);
    }
}

// Says a name that neither ends in % nor is a range, and the percent signs after it. If the compiler inlined it, each call of
// `read_entry` would take its stack frame as well.
#[inline(never)]
fn read_before_percents(name: &[u8], percents: usize, out: &mut Writer) -> Row
    requires { (is_percent name.now ≡ false) × (is_range name.now ≡ false) }
    ensures { Reads (with_percents (read name.now) percents) out.old out.new result }
{
    let row = read_by_row(name, out);
    say_per_cents(percents, out);
    row
}

// The entry reader: says a name, from row 1 on, and the percent signs after it.
#[cycle(readers)]
#[inline(always)]
fn read_entry(name: &[u8], percents: usize, out: &mut Writer) -> Row
    requires { percents + length name.now ≤ usize_max }
    ensures { Reads (with_percents (read name.now) percents) out.old out.new result }
{
    if is_percent(name) {
        return read_percent(name, percents, out);
    }
    if is_range(name) {
        return read_range(name, percents, out);
    }
    read_before_percents(name, percents, out)
}

// The percent reader, row 10: what stands before the sign is read again, and one more sign is said after it. It is not inlined:
// then the entry reader is inlined here, and the compiler makes a loop of the calls on what stands before each sign.
#[cycle(readers)]
#[inline(never)]
fn read_percent(name: &[u8], percents: usize, out: &mut Writer) -> Row
    requires { (percents + length name.now ≤ usize_max) × (1 ≤ length name.now) }
    ensures { Reads (by Row.Percent ((read (take (length name.now - 1) name.now)).words ++ per_cents (percents + 1)))
        out.old out.new result }
{
    read_entry(without_back(name, 1), percents + 1, out);
    Row::Percent
}

// The range reader, row 5a: the parts on both sides of the hyphen are read again, and "to" is said between them. It is not
// inlined, for the reason at `read_before_percents`.
#[cycle(readers)]
#[inline(never)]
fn read_range(name: &[u8], percents: usize, out: &mut Writer) -> Row
    requires { (percents + length name.now ≤ usize_max) × (is_range name.now ≡ true) }
    ensures { Reads (with_percents (read name.now) percents) out.old out.new result }
{
    let hyphen = span(name, Not(Byte(b'-')));
    read_entry(front(name, hyphen), 0, out);
    out.put_word(word(TO));
    read_entry(tail(tail(name, hyphen), 1), percents, out);
    Row::Range
}

// Says the words of a name, and answers its record.
pub fn read_name(name: &[u8], out: &mut Writer) -> Entry
    ensures { Reads (read name.now) out.old out.new result.row }
{
    Entry {
        row: read_entry(name, 0, out),
    }
}
