// Holds back the last word of a number, since an ordinal number changes its last word.
ghost use Rattle.std.specs.Prelude.{◌≡◌, cond, map, ◌∷◌, [], eqb};
ghost use Rattle.word_writer.specs.Writer.{Puts};
ghost use Rattle.numerals.specs.Words.{one, hundred, scale};
ghost use Rattle.numerals.specs.Cardinal.{pair_words};
ghost use Rattle.numerals.specs.Walk.{number_of, ordinal_number};
ghost use Rattle.numerals.specs.Held.{flush_word, form_word, Holds};

use crate::saying::say;
use vocabulary::{HUNDRED, ONES, ORDINAL, TEENS, TENS};
use word_writer::Writer;

// The number of the word that is held back, if there is one.
#[derive(Clone, Copy)]
pub struct Held {
    last: Option<usize>,
}

impl Held {
    // No word is held.
    pub fn none() -> Self
        ensures { result.last ≡ None }
    {
        Held { last: None }
    }

    // Says the word that is held.
    #[tactic(auto, unfolding(word_writer::specs::Writer::put_words))]
    pub fn flush(&self, out: &mut Writer)
        ensures { Puts flush_word self.now.last out.old out.new }
    {
        if let Some(k) = self.last {
            say(k, out);
        }
    }

    // Says the ordinal form of the word that is held, "zeroth" if none is.
    #[tactic(auto, unfolding(word_writer::specs::Writer::put_words))]
    pub fn flush_ordinal(&self, out: &mut Writer)
        ensures { Puts form_word self.now.last out.old out.new }
    {
        say(ordinal_number(self.last), out);
    }

    // Says the word that is held, and holds word number k.
    #[tactic(auto, unfolding(crate::specs::Held::flushed, crate::specs::Held::hold_word, crate::specs::Held::hold_words))]
    pub fn hold(&mut self, k: usize, out: &mut Writer)
        ensures { Holds (k ∷ []) self.old out.old self.new out.new }
    {
        self.flush(out);
        self.last = Some(k);
    }

    // Holds the words of a pair of digits, tens and ones.
    #[tactic(auto, using(crate::proofs::Holding::pair_tests), unfolding(crate::specs::Walk::number_of, crate::specs::Held::hold_words))]
    pub fn hold_pair(&mut self, t: u8, n: u8, out: &mut Writer)
        ensures { Holds (map number_of (pair_words t n)) self.old out.old self.new out.new }
    {
        match (t, n) {
            (0, 0) => {}
            (0, _) => self.hold(ONES + usize::from(n), out),
            (_, 0) => self.hold(TENS + usize::from(t), out),
            (1, _) => self.hold(TEENS + usize::from(n), out),
            _ => {
                self.hold(TENS + usize::from(t), out);
                self.hold(ONES + usize::from(n), out);
            }
        }
    }

    // Holds the words of the hundreds digit d; none if it is 0.
    #[tactic(auto, unfolding(crate::specs::Walk::number_of, crate::specs::Held::hold_words))]
    pub fn hold_hundreds(&mut self, d: u8, out: &mut Writer)
        ensures { Holds (map number_of (cond (eqb d 0) [] (one d ∷ hundred ∷ []))) self.old out.old self.new out.new }
    {
        if d == 0 {
            return;
        }
        self.hold(ONES + usize::from(d), out);
        self.hold(HUNDRED, out);
    }

    // Holds the word of scale k; none if the digits before it have no words.
    #[tactic(auto, unfolding(crate::specs::Walk::number_of, crate::specs::Held::hold_words))]
    pub fn hold_scale(&mut self, wordless: bool, k: u8, out: &mut Writer)
        ensures { Holds (map number_of (cond wordless [] (scale k ∷ []))) self.old out.old self.new out.new }
    {
        if !wordless {
            self.hold(HUNDRED + usize::from(k), out);
        }
    }
}

// The number of the ordinal form of word k; that of "zeroth" if there is no word, or it is no cardinal word.
#[tactic(auto, unfolding(crate::specs::Walk::ordinal_number))]
pub fn ordinal_number(k: Option<usize>) -> usize
    ensures { result ≡ ordinal_number k }
{
    match k {
        Some(k) if ONES <= k && k < ONES + ORDINAL => k + ORDINAL,
        _ => ONES + ORDINAL,
    }
}
