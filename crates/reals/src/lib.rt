// Real numbers: signs, and parts with "e" between them. A part may have a point.
#![tactic(auto)]

ghost use Rattle.word_writer.specs.Writer.{Says};
ghost use Rattle.numerals.specs.Words.{spelled};
ghost use Rattle.reals.specs.Real.{pointed, real};
ghost use Rattle.reals.specs.Walk.{PartSaid};

use lists::{Byte, LetterE, split_once};
use numerals::number::say_cardinal;
use numerals::saying::{say, say_digits};
use vocabulary::{E, MINUS, PLUS, POINT};
use word_writer::Writer;

// Says a number that has no sign and no "e".
fn say_pointed(s: &[u8], out: &mut Writer)
    ensures { Says (spelled (pointed s.now)) out.old out.new }
{
    match split_once(s, Byte(b'.')) {
        None => say_cardinal(s, out),
        Some((whole, fraction)) => {
            say_cardinal(whole, out);
            say(POINT, out);
            say_digits(fraction, out);
        }
    }
}

// Says a leading sign, or else the part up to the first "e", and then "e" if there is one. It gives what follows that.
fn say_part<'a>(s: &'a [u8], out: &mut Writer) -> &'a [u8]
    ensures { PartSaid s.now out.old out.new result.now }
{
    match s {
        [b'-', rest @ ..] => {
            say(MINUS, out);
            rest
        }
        [b'+', rest @ ..] => {
            say(PLUS, out);
            rest
        }
        _ => match split_once(s, LetterE) {
            None => {
                say_pointed(s, out);
                b""
            }
            Some((part, rest)) => {
                say_pointed(part, out);
                say(E, out);
                rest
            }
        },
    }
}

// Says a real number, sign by sign and part by part. How much a step takes is found as its words are said.
pub fn say_real(s: &[u8], out: &mut Writer)
    ensures { Says (spelled (real s.now)) out.old out.new }
{
    let mut rest = s;
    while !rest.is_empty() {
        rest = say_part(rest, out);
    }
}
