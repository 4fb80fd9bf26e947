// Fractions: row 5b says a numerator and a denominator, which are compared by value at any length.
#![tactic(auto)]

ghost use Rattle.std.specs.Prelude.{◌≡◌, true, ltb};
ghost use Rattle.lists.specs.Bytes.{all};
ghost use Rattle.lists.specs.Classes.{digit};
ghost use Rattle.word_writer.specs.Writer.{Says};
ghost use Rattle.numerals.specs.Words.{spelled};
ghost use Rattle.fractions.specs.Fraction.{value, plural, fraction_of, fraction};
ghost use Rattle.fractions.specs.Walk.{significant};

use lists::{Byte, Digit, Not, equal, front, last_end, span, tail};
use numerals::number::{say_cardinal, say_ordinal};
use vocabulary::{A, APOSTROPHE_S, HALF, SLASH, word};
use word_writer::Writer;

// Digits without the zeros at their front.
fn without_leading_zeros(s: &[u8]) -> &[u8]
    ensures { result.now ≡ significant s.now }
{
    tail(s, span(s, Byte(b'0')))
}

// Whether the number a is below the number b. Without leading zeros the longer of two numbers is larger, and if both have the
// same length, the first digits that differ decide.
fn is_below(a: &[u8], b: &[u8]) -> bool
    requires { (all digit a.now ≡ true) × (all digit b.now ≡ true) }
    ensures { result ≡ ltb (value a.now) (value b.now) }
{
    let a = without_leading_zeros(a);
    let b = without_leading_zeros(b);
    if a.len() == b.len() {
        a < b
    } else {
        a.len() < b.len()
    }
}

// Says "'s" if the numerator exceeds 1.
fn say_plural(numerator: &[u8], out: &mut Writer)
    requires { all digit numerator.now ≡ true }
    ensures { Says (spelled (plural numerator.now)) out.old out.new }
{
    if is_below(b"1", numerator) {
        out.put_word(word(APOSTROPHE_S));
    }
}

// Says a fraction other than "1/2", given by its numerator and its denominator.
fn say_fraction_of(numerator: &[u8], denominator: &[u8], out: &mut Writer)
    requires { (all digit numerator.now ≡ true) × (all digit denominator.now ≡ true) }
    ensures { Says (spelled (fraction_of numerator.now denominator.now)) out.old out.new }
{
    say_cardinal(numerator, out);
    let is_proper = is_below(numerator, denominator);
    if is_proper {
        say_ordinal(denominator, out);
        say_plural(numerator, out);
    } else {
        out.put_word(word(SLASH));
        say_cardinal(denominator, out);
    }
}

// Says a fraction: the first and the last run of digits of its name are numerator and denominator.
pub fn say_fraction(name: &[u8], out: &mut Writer)
    ensures { Says (spelled (fraction name.now)) out.old out.new }
{
    if equal(name, b"1/2") {
        out.put_word(word(A));
        out.put_word(word(HALF));
    } else {
        let numerator = front(name, span(name, Digit));
        let denominator = tail(name, last_end(name, Not(Digit)));
        say_fraction_of(numerator, denominator, out);
    }
}
