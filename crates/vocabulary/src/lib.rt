// The words of units, of number readings, and of rows 4, 5a, 5b and 10, by number.
#![tactic(auto)]

ghost use Rattle.std.specs.Prelude.{◌≡◌};
ghost use Rattle.vocabulary.specs.Vocabulary.{word_of};

// Where the tables of numbers.rs start. The words are numbers and no enum, because the value of a digit is added to them.
pub const ONES: usize = 16;

pub const TEENS: usize = 26;

pub const TENS: usize = 36;

pub const HUNDRED: usize = 46;

// How far after a cardinal word its ordinal form stands.
pub const ORDINAL: usize = 34;

pub const OH: usize = 84;

pub const POINT: usize = 85;

pub const MINUS: usize = 86;

pub const PLUS: usize = 87;

pub const E: usize = 88;

pub const PER: usize = 89;

pub const CENT: usize = 90;

pub const OCLOCK: usize = 91;

pub const TO: usize = 92;

pub const A: usize = 93;

pub const HALF: usize = 94;

pub const APOSTROPHE_S: usize = 95;

pub const SLASH: usize = 96;

// Every word, by number. A `static` lies in read-only memory, and no word is copied from there.
static WORDS: [&[u8]; 97] = [
    b"pounds",
    b"feet",
    b"kilograms",
    b"kilometers",
    b"centimeters",
    b"millimeters",
    b"milliliters",
    b"ounces",
    b"hertz",
    b"kilohertz",
    b"megahertz",
    b"gigahertz",
    b"kilobytes",
    b"gigabytes",
    b"megabytes",
    b"terabytes",
    b"zero",
    b"one",
    b"two",
    b"three",
    b"four",
    b"five",
    b"six",
    b"seven",
    b"eight",
    b"nine",
    b"ten",
    b"eleven",
    b"twelve",
    b"thirteen",
    b"fourteen",
    b"fifteen",
    b"sixteen",
    b"seventeen",
    b"eighteen",
    b"nineteen",
    b"zero",
    b"ten",
    b"twenty",
    b"thirty",
    b"forty",
    b"fifty",
    b"sixty",
    b"seventy",
    b"eighty",
    b"ninety",
    b"hundred",
    b"thousand",
    b"million",
    b"billion",
    b"zeroth",
    b"first",
    b"second",
    b"third",
    b"fourth",
    b"fifth",
    b"sixth",
    b"seventh",
    b"eighth",
    b"ninth",
    b"tenth",
    b"eleventh",
    b"twelfth",
    b"thirteenth",
    b"fourteenth",
    b"fifteenth",
    b"sixteenth",
    b"seventeenth",
    b"eighteenth",
    b"nineteenth",
    b"zeroth",
    b"tenth",
    b"twentieth",
    b"thirtieth",
    b"fortieth",
    b"fiftieth",
    b"sixtieth",
    b"seventieth",
    b"eightieth",
    b"ninetieth",
    b"hundredth",
    b"thousandth",
    b"millionth",
    b"billionth",
    b"oh",
    b"point",
    b"minus",
    b"plus",
    b"e",
    b"per",
    b"cent",
    b"o'clock",
    b"to",
    b"a",
    b"half",
    b"'s",
    b"slash",
];

// The word of a number; an empty text if there is none. It is no Option, because each caller's number has a word.
pub fn word(k: usize) -> &'static [u8]
    ensures { result.now ≡ word_of k }
{
    if k < WORDS.len() { WORDS[k] } else { b"" }
}
