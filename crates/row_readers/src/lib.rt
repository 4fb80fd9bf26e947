// The rows that read a name once: all but rows 5a and 10.
#![tactic(auto)]

ghost use Rattle.std.specs.Prelude.{◌≡◌, ◌∷◌, ◌++◌, [], option_copied};
ghost use Rattle.word_writer.specs.Writer.{Says};
ghost use Rattle.numerals.specs.Words.{spelled};
ghost use Rattle.rows.specs.Rows.{sign_of, clock, full_hour};
ghost use Rattle.row_readers.specs.Walk.{Reads, initials, word_of_unit, rows_after};

use fractions::say_fraction;
use letters::{say_letter, say_letters};
use lists::{
    Byte, Digit, Not, equal, front, last_end, part, span, starts_with, tail, without_back,
};
use numerals::number::{say_cardinal, say_ordinal};
use numerals::saying::say_digits;
use reals::say_real;
use rows::{Row, Sign};
use shapes::{
    TimeSplit, is_comma_int, is_digits, is_digits_slash_digits, is_dotted_abbrev, is_double,
    is_leading_zero_digits, is_ordinal, is_time, split_time_meridiem, split_unit,
};
use units::{unit_index, word_number};
use vocabulary::{OCLOCK, word};
use word_writer::Writer;
use years::say_year;

fn sign_of(name: &[u8]) -> Sign
    ensures { result ≡ sign_of name.now }
{
    if starts_with(name, b'-') {
        Sign::Minus
    } else {
        Sign::Plus
    }
}

// Says the hour, and the minute unless it is "00".
#[tactic(auto, unfolding(rows::specs::Rows::clock))]
fn say_clock(hour: &[u8], minute: &[u8], out: &mut Writer)
    ensures { Says (spelled (clock hour.now minute.now)) out.old out.new }
{
    say_cardinal(hour, out);
    if !equal(minute, b"00") {
        say_year(minute, out);
    }
}

// Row 4: says the hour, and then the minute, or "o'clock" if the minute is "00".
fn say_time(hour: &[u8], minute: &[u8], out: &mut Writer)
    ensures { Says (spelled (clock hour.now minute.now ++ full_hour minute.now)) out.old out.new }
{
    say_clock(hour, minute, out);
    if equal(minute, b"00") {
        out.put_word(word(OCLOCK));
    }
}

// Says the letter b. If b is a point, nothing is said.
#[tactic(auto, using(crate::proofs::Laws::point_initial, numerals::proofs::Said::said_nothing))]
fn say_initial(b: u8, out: &mut Writer)
    ensures { Says (spelled (initials (b ∷ []))) out.old out.new }
{
    if b != b'.' {
        say_letter(&[b], out);
    }
}

// Says one word for each byte that is no point.
#[tactic(auto, using(crate::proofs::Laws::no_initials, numerals::proofs::Said::said_nothing))]
fn say_initials(name: &[u8], out: &mut Writer)
    ensures { Says (spelled (initials name.now)) out.old out.new }
{
    for &b in name {
        say_initial(b, out);
    }
}

// The word of a name's unit, if the name has one.
fn unit_word(name: &[u8]) -> Option<&'static [u8]>
    ensures { option_copied result ≡ word_of_unit name.now }
{
    let k = unit_index(split_unit(name)?)?;
    Some(word(word_number(k)))
}

// Rows 11 and 12.
fn from_unit(name: &[u8], out: &mut Writer) -> Row
    ensures { Reads (rows_after 10 name.now) out.old out.new result }
{
    let Some(word) = unit_word(name) else {
        out.put_word_lowered(name);
        return Row::OneWord;
    };
    say_cardinal(front(name, last_end(name, Digit)), out);
    out.put_word(word);
    Row::Unit
}

// The rows from 5b on.
#[tactic(auto, unfolding(crate::specs::Walk::rows_after))]
fn from_fraction(name: &[u8], out: &mut Writer) -> Row
    ensures { Reads (rows_after 5 name.now) out.old out.new result }
{
    if is_digits_slash_digits(name) {
        say_fraction(name, out);
        return Row::Fraction;
    }
    if is_leading_zero_digits(name) {
        say_digits(name, out);
        return Row::LeadingZero;
    }
    if is_digits(name) {
        say_cardinal(name, out);
        return Row::Digits;
    }
    if is_double(name) {
        say_real(name, out);
        return Row::Figure(sign_of(name));
    }
    if is_ordinal(name) {
        say_ordinal(without_back(name, 2), out);
        return Row::Ordinal;
    }
    from_unit(name, out)
}

// The rows from 5 on.
fn from_meridiem(name: &[u8], out: &mut Writer) -> Row
    ensures { Reads (rows_after 4 name.now) out.old out.new result }
{
    let Some(
        TimeSplit {
            hour,
            minute,
            meridiem,
        },
    ) = split_time_meridiem(name)
    else {
        return from_fraction(name, out);
    };
    say_clock(front(name, hour), part(name, minute, meridiem), out);
    say_letters(tail(name, meridiem), out);
    Row::Meridiem
}

// All rows but 5a and 10: says the words of a name, and answers the first of them that takes it.
#[tactic(auto, using(crate::proofs::Laws::dotted_initials, numerals::proofs::Said::said_nothing), unfolding(crate::specs::Walk::rows_after))]
pub fn read_by_row(name: &[u8], out: &mut Writer) -> Row
    ensures { Reads (rows_after 0 name.now) out.old out.new result }
{
    if name.is_empty() {
        return Row::Empty;
    }
    if is_dotted_abbrev(name) {
        say_initials(name, out);
        return Row::Dotted;
    }
    if is_comma_int(name) {
        say_cardinal(name, out);
        return Row::CommaInt;
    }
    if is_time(name) {
        // The name has a colon: `split_once` would have a case for none, which can't be.
        let at = span(name, Not(Byte(b':')));
        say_time(front(name, at), tail(tail(name, at), 1), out);
        return Row::Time;
    }
    from_meridiem(name, out)
}
