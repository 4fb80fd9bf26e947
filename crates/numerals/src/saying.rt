// Says a word of the vocabulary, and digits one by one.
ghost use Rattle.std.specs.Prelude.{◌≡◌, ◌∷◌, []};
ghost use Rattle.vocabulary.specs.Vocabulary.{word_of};
ghost use Rattle.word_writer.specs.Writer.{Says};
ghost use Rattle.numerals.specs.Words.{spelled};
ghost use Rattle.numerals.specs.Cardinal.{digit_value, digits};

use vocabulary::{ONES, word};
use word_writer::Writer;

// Says word number k of the vocabulary. Not inlined, so that `put_word` stands here once for all words of unknown length.
#[inline(never)]
pub fn say(k: usize, out: &mut Writer)
    ensures { Says (word_of k ∷ []) out.old out.new }
{
    out.put_word(word(k));
}

// Says the word of a digit, and nothing for any other byte.
fn say_digit(b: u8, out: &mut Writer)
    ensures { Says (spelled (digits (b ∷ []))) out.old out.new }
{
    if b.is_ascii_digit() {
        say(ONES + usize::from(b - b'0'), out);
    }
}

// Says one word per digit of s.
pub fn say_digits(s: &[u8], out: &mut Writer)
    ensures { Says (spelled (digits s.now)) out.old out.new }
{
    for &b in s {
        say_digit(b, out);
    }
}

// The value of a digit; 0 for a byte below the digits. It is no Option, because its callers have found a digit.
pub fn digit_value(b: u8) -> u8
    ensures { result ≡ digit_value b }
{
    b.saturating_sub(b'0')
}
