// The tests of a clear name, for names that are already admitted, kind by kind in document 01's order. Each test works on any
// bytes, so nothing is demanded of the caller.
ghost use Rattle.std.specs.Prelude.{◌≡◌, ◌&&◌, [], ltb, eqb, length, get_or};
ghost use Rattle.lists.specs.Bytes.{lowercase, listed};
ghost use Rattle.units.specs.Units.{abbreviations, unit_words, index_of};
ghost use Rattle.clear.specs.Clear.{plain, suffix, suffix_for, table_words};
ghost use Rattle.clear.specs.Test.{uppercase_or_point, is_exponent_clear, is_decimals_clear, is_figure_clear, is_number_clear, is_percent_clear, is_time_clear};
ghost use Rattle.clear.specs.Test.{is_meridiem_clear, is_ordinal_clear, is_unit_clear, is_initials_clear, is_word_clear, is_clear};

use lists::{
    Byte, ByteClass, Digit, Not, all, back, ends_with, equal, front, last_end, span, starts_with,
    strip_prefix, tail, without_back,
};
use shapes::{is_digits, is_dotted_abbrev, is_leading_zero_digits, is_range, is_time, strip_sign};
use units::{unit_index, word_number};
use vocabulary::{HUNDRED, ONES, ORDINAL, word};

// a to z.
#[derive(Clone, Copy)]
struct Lowercase;

impl ByteClass for Lowercase {
    ghost contains = { λ _. lowercase };

    fn contains(self, b: u8) -> bool {
        b.is_ascii_lowercase()
    }
}

// A to Z and the point.
#[derive(Clone, Copy)]
struct UppercaseOrPoint;

impl ByteClass for UppercaseOrPoint {
    ghost contains = { λ _. uppercase_or_point };

    fn contains(self, b: u8) -> bool {
        b.is_ascii_uppercase() | (b == b'.')
    }
}

// "0", or digits with no leading zero.
fn is_plain(s: &[u8]) -> bool
    ensures { result ≡ plain s.now }
{
    is_digits(s) & !is_leading_zero_digits(s)
}

// Whether s may follow the digits of a clear figure: an exponent, or nothing.
#[tactic(auto, unfolding(crate::specs::Test::is_exponent_clear))]
fn is_exponent_clear(s: &[u8]) -> bool
    ensures { result ≡ is_exponent_clear s.now }
{
    if starts_with(s, b'e') {
        return is_plain(strip_sign(tail(s, 1)));
    }
    s.is_empty()
}

// Whether s may follow its whole digits.
#[tactic(auto, unfolding(crate::specs::Test::is_decimals_clear))]
fn is_decimals_clear(s: &[u8]) -> bool
    ensures { result ≡ is_decimals_clear s.now }
{
    if starts_with(s, b'.') {
        let after = tail(s, 1);
        let frac = span(after, Digit);
        return (frac != 0) & is_exponent_clear(tail(after, frac));
    }
    is_exponent_clear(s)
}

// Whether s may follow its minus.
#[tactic(auto, unfolding(crate::specs::Test::is_figure_clear))]
fn is_figure_clear(s: &[u8]) -> bool
    ensures { result ≡ is_figure_clear s.now }
{
    let whole = span(s, Digit);
    is_plain(front(s, whole)) & is_decimals_clear(tail(s, whole))
}

pub fn is_number_clear(s: &[u8]) -> bool
    ensures { result ≡ is_number_clear s.now }
{
    is_digits(s) | is_figure_clear(strip_prefix(s, b'-'))
}

pub fn is_percent_clear(s: &[u8]) -> bool
    ensures { result ≡ is_percent_clear s.now }
{
    ends_with(s, b'%') && is_number_clear(without_back(s, 1))
}

// A time whose hour is plain.
pub fn is_time_clear(s: &[u8]) -> bool
    ensures { result ≡ is_time_clear s.now }
{
    is_time(s) && is_plain(front(s, span(s, Not(Byte(b':')))))
}

pub fn is_meridiem_clear(s: &[u8]) -> bool
    ensures { result ≡ is_meridiem_clear s.now }
{
    let meridiem = back(s, 2);
    (equal(meridiem, b"am") | equal(meridiem, b"pm")) && is_time_clear(without_back(s, 2))
}

// The suffix for a last digit b, if the digit before it is not 1.
fn suffix_for(b: u8) -> &'static [u8]
    ensures { result.now ≡ suffix_for b }
{
    match b {
        b'1' => b"st",
        b'2' => b"nd",
        b'3' => b"rd",
        _ => b"th",
    }
}

// The right suffix of the number s.
#[tactic(auto, unfolding(crate::specs::Clear::suffix))]
fn suffix(s: &[u8]) -> &'static [u8]
    ensures { result.now ≡ suffix s.now }
{
    match s {
        [.., b'1', _] => b"th",
        [.., b] => suffix_for(*b),
        [] => b"th",
    }
}

pub fn is_ordinal_clear(s: &[u8]) -> bool
    ensures { result ≡ is_ordinal_clear s.now }
{
    let number = without_back(s, 2);
    is_plain(number) & equal(back(s, 2), suffix(number))
}

// Whether row k of the units is the first with its word. Rows with the same word stand together.
fn is_first_at(k: usize) -> bool
    ensures { result ≡ (ltb k (length abbreviations) && eqb (index_of (get_or unit_words k []) unit_words) k) }
{
    (k == 0) || word_number(k - 1) < word_number(k)
}

pub fn is_unit_clear(s: &[u8]) -> bool
    ensures { result ≡ is_unit_clear s.now }
{
    let at = last_end(s, Digit);
    is_plain(front(s, at)) & unit_index(tail(s, at)).is_some_and(is_first_at)
}

pub fn is_initials_clear(s: &[u8]) -> bool
    ensures { result ≡ is_initials_clear s.now }
{
    is_dotted_abbrev(s) & !ends_with(s, b'.') & all(s, UppercaseOrPoint)
}

// Whether s is a word of the tables of numbers.rs: ones, teens and tens, their ordinal forms, or thousand, million, billion.
fn is_table_word(s: &[u8]) -> bool
    ensures { result ≡ listed s.now table_words }
{
    (ONES..HUNDRED)
        .chain(ONES + ORDINAL..HUNDRED + ORDINAL)
        .chain(HUNDRED + 1..HUNDRED + 4)
        .any(|k| equal(word(k), s))
}

pub fn is_word_clear(s: &[u8]) -> bool
    ensures { result ≡ is_word_clear s.now }
{
    // No other name is looked up.
    (2 <= s.len()) && all(s, Lowercase) && !is_table_word(s)
}

#[tactic(auto, unfolding(crate::specs::Test::is_clear))]
pub fn is_clear_name(s: &[u8]) -> bool
    ensures { result ≡ is_clear s.now }
{
    is_number_clear(s)
        | is_percent_clear(s)
        | is_time_clear(s)
        | is_meridiem_clear(s)
        | is_ordinal_clear(s)
        | is_unit_clear(s)
        | is_range(s)
        | is_initials_clear(s)
        | is_word_clear(s)
}
