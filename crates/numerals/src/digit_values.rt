// The values of digits, read from the text itself and not from a cleaned copy.
ghost use Rattle.std.specs.Prelude.{◌≡◌, ◌≤◌, length, take, drop, get_or};
ghost use Rattle.numerals.specs.Walk.{BelowTen, below_ten_prop};

use lists::{byte_at, front, tail};

// The most digits that a cardinal number has. More digits are read one by one.
pub const MAX_CARDINAL_DIGITS: usize = 12;

// The values of at most twelve digits.
#[derive(Clone, Copy)]
pub struct DigitValues<'a> {
    pub values: &'a [u8],
    pub ghost few: { length values.now ≤ 12 },
    pub ghost below_ten: { BelowTen values.now } by { below_ten_prop values.now },
}

impl<'a> DigitValues<'a> {
    pub fn len(self) -> usize
        ensures { result ≡ length self.entry.values.now }
    {
        self.values.len()
    }

    // The value at i, or 0 past the end. A plain index would need a `requires`, and the laws of `cardinal` use `get_or` anyway.
    pub fn at(self, i: usize) -> u8
        ensures { result ≡ get_or self.entry.values.now i 0 }
    {
        byte_at(self.values, i)
    }

    // The first k values, or all of them if there are fewer. This and `tail` are a line each, over the functions of lists.
    pub fn front(self, k: usize) -> DigitValues<'a>
        ensures { result.values.now ≡ take k self.entry.values.now }
    {
        DigitValues {
            values: front(self.values, k),
        }
    }

    // What follows the first k values, nothing if there are fewer.
    pub fn tail(self, k: usize) -> DigitValues<'a>
        ensures { result.values.now ≡ drop k self.entry.values.now }
    {
        DigitValues {
            values: tail(self.values, k),
        }
    }
}

// The values of the first digits of a text, at most twelve, and how many these are. A 0 stands for each that is missing, since
// there is no heap.
#[derive(Clone, Copy)]
pub struct FirstDigits {
    values: [u8; 12],
    count: usize,
    ghost few: { count ≤ 12 },
    ghost below_ten: { BelowTen values } by { below_ten_prop values },
}

impl FirstDigits {
    ghost use Rattle.numerals.specs.FirstDigits.{AreFirstDigits};

    // All digits of s if it has at most twelve, and else, as Err, the first twelve.
    // Counted by hand: no contract says what `iter_mut` leaves in an array, `enumerate` gives no count, `count` reads s twice.
    pub fn of(s: &[u8]) -> Result<FirstDigits, FirstDigits>
        ensures { AreFirstDigits s.now result }
    {
        let mut values = [0u8; 12];
        let mut count: usize = 0;
        for &b in s {
            if b.is_ascii_digit() {
                if count == MAX_CARDINAL_DIGITS {
                    return Err(FirstDigits { values, count });
                }
                values[count] = b - b'0';
                count += 1;
            }
        }
        Ok(FirstDigits { values, count })
    }

    pub fn digits(&self) -> DigitValues<'_>
        ensures { result.values.now ≡ take self.now.count self.now.values }
    {
        DigitValues {
            values: front(&self.values, self.count),
        }
    }
}
