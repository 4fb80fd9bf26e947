// Roman numerals: one pass from the right, with the largest value so far.
#![tactic(auto)]

ghost use Rattle.std.specs.Prelude.{◌≡◌, ◌≤◌, length};
ghost use Rattle.std.specs.Option.{IfSome};
ghost use Rattle.roman.specs.Roman.{letter_value, roman_value};

// The value of a roman letter; none for any other byte.
#[tactic(auto, unfolding(crate::specs::Roman::letter_value, crate::specs::Roman::roman_letter_value, lists::specs::Bytes::any))]
fn letter_value(b: u8) -> Option<u32>
    ensures value { result ≡ letter_value b }
    ensures bound { IfSome result (λ v. v ≤ 1000) }
{
    match b {
        b'I' | b'i' => Some(1),
        b'V' | b'v' => Some(5),
        b'X' | b'x' => Some(10),
        b'L' | b'l' => Some(50),
        b'C' | b'c' => Some(100),
        b'D' | b'd' => Some(500),
        b'M' | b'm' => Some(1000),
        _ => None,
    }
}

// The value of a roman numeral; 0 if a byte is no roman letter, or if more is subtracted than added. It is no Option, because
// document 01 has this answer. The length of s must be admitted, at most 65,536 bytes, so that no sum overflows.
pub fn roman_value(s: &[u8]) -> u32
    requires { length s.now ≤ 65536 }
    ensures { result ≡ roman_value s.now }
{
    let mut added: u32 = 0;
    let mut subtracted: u32 = 0;
    let mut largest: u32 = 0;
    for letter in s.iter().rev() {
        let Some(value) = letter_value(*letter) else {
            return 0;
        };
        if value < largest {
            subtracted += value;
        } else {
            added += value;
        }
        largest = largest.max(value);
    }
    added.saturating_sub(subtracted)
}
