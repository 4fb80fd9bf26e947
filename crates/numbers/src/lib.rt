// The public functions of numbers.rs, in its order and under its names. Each takes any bytes and buffers of any length. It
// answers its result, or the first refusal whose condition holds. It takes two buffers and no `Writer`, because the buffers are
// the caller's.
#![tactic(auto)]

ghost use Rattle.std.specs.Prelude.{◌≡◌, ◌&&◌, ◌/◌, ltb};
ghost use Rattle.word_writer.specs.Writer.{Says};
ghost use Rattle.word_writer.specs.Words.{too_short, words_call, as_words};
ghost use Rattle.numerals.specs.Words.{spelled};
ghost use Rattle.numerals.specs.Cardinal.{cardinal, digits};
ghost use Rattle.numerals.specs.Ordinal.{ordinal};
ghost use Rattle.years.specs.Year.{year};
ghost use Rattle.reals.specs.Real.{real};
ghost use Rattle.letters.specs.Letters.{letters};
ghost use Rattle.numbers.specs.Calls.{words_as, as_roman_value, roman_call};

use admit::{Refusal, admit_text};
use letters::say_letters;
use numerals::number::{say_cardinal, say_ordinal};
use numerals::saying::say_digits;
use reals::say_real;
use word_writer::{WordCounts, Writer};
use years::say_year;

// How a text is read as words. An enum, since a type for each reading would need six impls of a trait in place of one `match`.
#[derive(Clone, Copy, Debug, PartialEq, Eq)]
pub enum SayAs {
    Cardinal,
    Ordinal,
    Year,
    Digits,
    Real,
    Letters,
}

// The words of n bytes take at most n + 1 times so many bytes of the store, and of the table.
const STORE_ROOM: usize = 11;

const TABLE_ROOM: usize = 16;

// Whether buffers of these lengths are surely long enough for the words of n bytes. Then the words need not be measured.
fn has_ample_room(n: usize, store: usize, table: usize) -> bool
    ensures { result ≡ (ltb n (store / 11) && ltb n (table / 16)) }
{
    (n < store / STORE_ROOM) & (n < table / TABLE_ROOM)
}

impl SayAs {
    // Says s as this reading.
    fn say(self, s: &[u8], out: &mut Writer)
        ensures { Says (spelled (words_as self s.now)) out.old out.new }
    {
        match self {
            SayAs::Cardinal => say_cardinal(s, out),
            SayAs::Ordinal => say_ordinal(s, out),
            SayAs::Year => say_year(s, out),
            SayAs::Digits => say_digits(s, out),
            SayAs::Real => say_real(s, out),
            SayAs::Letters => say_letters(s, out),
        }
    }

    // Whether a buffer is too short for the words of s. They are measured by the function that writes them, on empty buffers.
    fn too_short(self, s: &[u8], store: &[u8], table: &[u8]) -> bool
        ensures { result ≡ too_short (spelled (words_as self s.now)) store.now table.now }
    {
        if has_ample_room(s.len(), store.len(), table.len()) {
            return false;
        }
        let mut no_store = [0u8; 0];
        let mut no_table = [0u8; 0];
        let mut measured = Writer::new(&mut no_store, &mut no_table, false);
        self.say(s, &mut measured);
        measured.exceeds(store.len(), table.len())
    }

    // Writes the words of s to store and table. They are measured first if the room is not ample, so that a refused call writes
    // nothing.
    fn write_words(
        self,
        s: &[u8],
        store: &mut [u8],
        table: &mut [u8],
    ) -> Result<WordCounts, Refusal>
        ensures { as_words result store.new table.new
            ≡ words_call s.now (spelled (words_as self s.now)) store.old table.old }
    {
        admit_text(s)?;
        if self.too_short(s, store, table) {
            return Err(Refusal::BufferTooShort);
        }
        let mut out = Writer::new(store, table, false);
        self.say(s, &mut out);
        Ok(out.counts())
    }
}

pub fn cardinal(s: &[u8], store: &mut [u8], table: &mut [u8]) -> Result<WordCounts, Refusal>
    ensures { as_words result store.new table.new
        ≡ words_call s.now (spelled (cardinal s.now)) store.old table.old }
{
    SayAs::Cardinal.write_words(s, store, table)
}

pub fn ordinal(s: &[u8], store: &mut [u8], table: &mut [u8]) -> Result<WordCounts, Refusal>
    ensures { as_words result store.new table.new
        ≡ words_call s.now (spelled (ordinal s.now)) store.old table.old }
{
    SayAs::Ordinal.write_words(s, store, table)
}

pub fn year(s: &[u8], store: &mut [u8], table: &mut [u8]) -> Result<WordCounts, Refusal>
    ensures { as_words result store.new table.new
        ≡ words_call s.now (spelled (year s.now)) store.old table.old }
{
    SayAs::Year.write_words(s, store, table)
}

pub fn digits(s: &[u8], store: &mut [u8], table: &mut [u8]) -> Result<WordCounts, Refusal>
    ensures { as_words result store.new table.new
        ≡ words_call s.now (spelled (digits s.now)) store.old table.old }
{
    SayAs::Digits.write_words(s, store, table)
}

pub fn real(s: &[u8], store: &mut [u8], table: &mut [u8]) -> Result<WordCounts, Refusal>
    ensures { as_words result store.new table.new
        ≡ words_call s.now (spelled (real s.now)) store.old table.old }
{
    SayAs::Real.write_words(s, store, table)
}

pub fn letters(s: &[u8], store: &mut [u8], table: &mut [u8]) -> Result<WordCounts, Refusal>
    ensures { as_words result store.new table.new
        ≡ words_call s.now (spelled (letters s.now)) store.old table.old }
{
    SayAs::Letters.write_words(s, store, table)
}

pub fn roman_value(s: &[u8]) -> Result<u32, Refusal>
    ensures { as_roman_value result ≡ roman_call s.now }
{
    admit_text(s)?;
    Ok(roman::roman_value(s))
}
