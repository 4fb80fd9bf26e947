// Years: pairs of digits, mostly.
#![tactic(auto)]

ghost use Rattle.std.specs.Prelude.{◌≡◌, ◌≤◌, ◌<◌, length, drop, get_or};
ghost use Rattle.word_writer.specs.Writer.{Says};
ghost use Rattle.numerals.specs.Words.{spelled};
ghost use Rattle.numerals.specs.Cardinal.{digit_values};
ghost use Rattle.years.specs.Year.{year_of, year};
ghost use Rattle.years.specs.Walk.{lead_count, lead_words};

use lists::{Digit, Not, byte_at, count, span, tail};
use numerals::digit_values::{DigitValues, FirstDigits};
use numerals::number::say_short_cardinal;
use numerals::saying::{digit_value, say};
use vocabulary::{HUNDRED, OH, ONES};
use word_writer::Writer;

// Picks the first digit of s: its value, which is 0 if there is none, and what follows it. It is no Option, because no caller
// asks if there is none.
fn pick(s: &[u8]) -> (u8, &[u8])
    ensures digit { result.0 ≡ get_or (digit_values s.now) 0 0 }
    ensures below_ten { result.0 < 10 }
    ensures others { digit_values result.1.now ≡ drop 1 (digit_values s.now) }
{
    let i = span(s, Not(Digit));
    (digit_value(byte_at(s, i)), tail(s, i + 1))
}

// Says the first digit of s, or the first two as `cardinal` reads them, and gives what follows them.
fn say_lead<'a>(lone: bool, s: &'a [u8], out: &mut Writer) -> &'a [u8]
    ensures words { Says (spelled (lead_words lone (digit_values s.now))) out.old out.new }
    ensures others { digit_values result.now ≡ drop (lead_count lone) (digit_values s.now) }
{
    let (a, rest) = pick(s);
    if lone {
        say(ONES + usize::from(a), out);
        return rest;
    }
    let (b, rest) = pick(rest);
    let pair = [a, b];
    say_short_cardinal(DigitValues { values: &pair }, out);
    rest
}

// Says the last two digits of a year.
fn say_two(ds: DigitValues, out: &mut Writer)
    requires { length ds.values.now ≡ 2 }
    ensures { Says (spelled (year_of ds.entry.values.now)) out.old out.new }
{
    match (ds.at(0), ds.at(1)) {
        (0, 0) => {
            say(ONES, out);
            say(ONES, out);
        }
        (0, b) => {
            say(OH, out);
            say(ONES + usize::from(b), out);
        }
        _ => say_short_cardinal(ds, out),
    }
}

// Says the last three digits of a year.
fn say_three(ds: DigitValues, out: &mut Writer)
    requires { length ds.values.now ≡ 3 }
    ensures { Says (spelled (year_of ds.entry.values.now)) out.old out.new }
{
    let a = ds.at(0);
    let b = ds.at(1);
    let c = ds.at(2);
    say(ONES + usize::from(a), out);
    if (a != 0) & ((b == 0) & (c == 0)) {
        say(HUNDRED, out);
    } else {
        say_two(ds.tail(1), out);
    }
}

// Says the last four digits of a year: "2000" and "2005" as cardinal numbers, "1900" as hundreds.
fn say_four(ds: DigitValues, out: &mut Writer)
    requires { length ds.values.now ≡ 4 }
    ensures { Says (spelled (year_of ds.entry.values.now)) out.old out.new }
{
    let b = ds.at(1);
    let c = ds.at(2);
    let d = ds.at(3);
    if (b == 0) & (c == 0) {
        say_short_cardinal(ds, out);
        return;
    }
    say_short_cardinal(ds.front(2), out);
    if (c == 0) & (d == 0) {
        say(HUNDRED, out);
    } else {
        say_two(ds.tail(2), out);
    }
}

// Says a year of up to four digits, given by their values.
fn say_last(ds: DigitValues, out: &mut Writer)
    requires { length ds.values.now ≤ 4 }
    ensures { Says (spelled (year_of ds.entry.values.now)) out.old out.new }
{
    match ds.len() {
        0 | 1 => say_short_cardinal(ds, out),
        2 => say_two(ds, out),
        3 => say_three(ds, out),
        _ => say_four(ds, out),
    }
}

// Says the year of the digits of s. While more than four are left, it says one digit if their count is odd, else a pair. It
// counts by hand, because a step takes one digit or two.
pub fn say_year(s: &[u8], out: &mut Writer)
    ensures { Says (spelled (year s.now)) out.old out.new }
{
    let mut rest = s;
    let mut left = count(s, Digit);
    while 4 < left {
        rest = say_lead(left % 2 == 1, rest, out);
        left -= 2 - left % 2;
    }
    // There are at most four now.
    if let Ok(digits) = FirstDigits::of(rest) {
        say_last(digits.digits(), out);
    }
}
