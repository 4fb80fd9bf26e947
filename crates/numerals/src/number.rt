// Cardinal and ordinal numbers.
ghost use Rattle.std.specs.Prelude.{◌≡◌, map, ◌≤◌, ◌<◌, length};
ghost use Rattle.word_writer.specs.Writer.{Says};
ghost use Rattle.numerals.specs.Words.{spelled};
ghost use Rattle.numerals.specs.Cardinal.{digit_values, scale_for, short_cardinal, cardinal};
ghost use Rattle.numerals.specs.Ordinal.{ordinal};
ghost use Rattle.numerals.specs.Walk.{number_of, is_zero_group};
ghost use Rattle.numerals.specs.Held.{Holds};

use crate::digit_values::{DigitValues, FirstDigits};
use crate::held::Held;
use crate::saying::{digit_value, say, say_digits};
use lists::{Byte, Digit, all, byte_at, front, last_end};
use vocabulary::{ONES, ORDINAL};
use word_writer::Writer;

// Whether these are two or three zeros. Of one to three digits, only they have no words.
#[tactic(auto, unfolding(crate::specs::Walk::is_zero_group))]
fn is_zero_group(ds: DigitValues) -> bool
    ensures { result ≡ is_zero_group ds.entry.values.now }
{
    (ds.len() == 2 || ds.len() == 3) && all(ds.values, Byte(0))
}

// The largest scale with fewer digits than n: 3 for billion, 2 for million, 1 for thousand. A number, since the digits after the
// scale are three times as many.
fn scale_for(n: usize) -> u8
    ensures { (result ≡ scale_for n) × (result ≤ 3) }
{
    match n {
        10.. => 3,
        7.. => 2,
        _ => 1,
    }
}

// Holds the words of up to twelve digits, given by their values. It calls itself for "the rest read again", and for both parts
// of a split.
fn hold_cardinal(ds: DigitValues, held: &mut Held, out: &mut Writer)
    ensures { Holds (map number_of (short_cardinal ds.entry.values.now)) held.old out.old held.new out.new }
{
    match ds.len() {
        0 => {}
        1 => held.hold(ONES + usize::from(ds.at(0)), out),
        2 => held.hold_pair(ds.at(0), ds.at(1), out),
        3 => {
            held.hold_hundreds(ds.at(0), out);
            hold_cardinal(ds.tail(1), held, out);
        }
        n => {
            let k = scale_for(n);
            let split = n - 3 * usize::from(k);
            let left = ds.front(split);
            hold_cardinal(left, held, out);
            held.hold_scale(is_zero_group(left), k, out);
            hold_cardinal(ds.tail(split), held, out);
        }
    }
}

// Says the cardinal number of up to twelve digits, given by their values.
pub fn say_short_cardinal(ds: DigitValues, out: &mut Writer)
    ensures { Says (spelled (short_cardinal ds.entry.values.now)) out.old out.new }
{
    let mut held = Held::none();
    hold_cardinal(ds, &mut held, out);
    held.flush(out);
}

// Says the cardinal number of the digits of s.
pub fn say_cardinal(s: &[u8], out: &mut Writer)
    ensures { Says (spelled (cardinal s.now)) out.old out.new }
{
    match FirstDigits::of(s) {
        Ok(digits) => say_short_cardinal(digits.digits(), out),
        Err(_) => say_digits(s, out),
    }
}

// Says more than twelve digits: one word per digit, the last one in its ordinal form.
fn say_long_ordinal(s: &[u8], out: &mut Writer)
    requires { 12 < length (digit_values s.now) }
    ensures { Says (spelled (ordinal s.now)) out.old out.new }
{
    let at = last_end(s, Digit) - 1;
    say_digits(front(s, at), out);
    let d = digit_value(byte_at(s, at));
    say(ONES + ORDINAL + usize::from(d), out);
}

// Says the ordinal number of the digits of s.
pub fn say_ordinal(s: &[u8], out: &mut Writer)
    ensures { Says (spelled (ordinal s.now)) out.old out.new }
{
    let Ok(digits) = FirstDigits::of(s) else {
        return say_long_ordinal(s, out);
    };
    let mut held = Held::none();
    hold_cardinal(digits.digits(), &mut held, out);
    held.flush_ordinal(out);
}
