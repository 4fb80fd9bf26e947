// Letters: one word per character.
#![tactic(auto)]

ghost use Rattle.std.specs.Prelude.{◌≡◌, ◌∷◌, [], take, drop};
ghost use Rattle.word_writer.specs.Writer.{Says};
ghost use Rattle.numerals.specs.Words.{spelled};
ghost use Rattle.letters.specs.Letters.{letter_word, letters};
ghost use Rattle.letters.specs.Walk.{char_span};

use lists::{Continuation, span, tail};
use word_writer::Writer;

// The first character of s, and what follows it. Both are empty if s is empty: no Option, because the caller has tested that.
fn split_first_char(s: &[u8]) -> (&[u8], &[u8])
    ensures char { result.0.now ≡ take (char_span s.now) s.now }
    ensures rest { result.1.now ≡ drop (char_span s.now) s.now }
{
    let n = span(tail(s, 1), Continuation) + 1;
    s.split_at(n.min(s.len()))
}

// Says the word of a character. Inlined, so that a text costs no call for each character.
#[inline(always)]
pub fn say_letter(c: &[u8], out: &mut Writer)
    ensures { Says (letter_word c.now ∷ []) out.old out.new }
{
    match c {
        [b'a' | b'A'] => out.put_word(b"_a"),
        [b] => out.put_word(&[b.to_ascii_lowercase()]),
        _ => out.put_word(c),
    }
}

// Says one word per character of s. A text that is no UTF-8 has characters here too, so that it is no `str`. How long a
// character is, is known when it is split off, so the loop keeps what is left.
pub fn say_letters(s: &[u8], out: &mut Writer)
    ensures { Says (spelled (letters s.now)) out.old out.new }
{
    let mut rest = s;
    while !rest.is_empty() {
        let (c, after) = split_first_char(rest);
        say_letter(c, out);
        rest = after;
    }
}
