// The shapes of patterns.rs under its names, and in its order but for is_n_digits; and the test of a range, which is like
// is_digits_slash_digits. Each takes all bytes, and demands nothing.
// None tests for a refusal: the public calls of the crate patterns do that before they ask a shape.
#![tactic(auto)]

ghost use Rattle.std.specs.Prelude.{◌≡◌, false, length};
ghost use Rattle.std.specs.Option.{option_copied};
ghost use Rattle.lists.specs.Bytes.{split, non_empty};
ghost use Rattle.shapes.specs.Shapes.{is_digits, is_alpha, strip_sign, is_exponent, is_unsigned, is_double, is_comma_int, is_ordinal_suffix, is_ordinal, is_amount, is_us_money, is_illion, is_small_roman, is_roman, is_dr_or_st};
ghost use Rattle.shapes.specs.Shapes.{is_number_s, is_leading_zero_digits, is_seven_digit_phone, is_n_digits, is_hour_minute, is_time, is_one_letter, is_dotted_abbrev};
ghost use Rattle.shapes.specs.Shapes.{split_once, are_digits, is_digits_slash_digits, is_range, is_digits_dash_digits, split_unit};
ghost use Rattle.lists.specs.Classes.{digit};
ghost use Rattle.shapes.specs.Times.{ends_in_meridiem, SplitsTime};

use lists::{
    Byte, ColonOrPoint, Digit, DigitOrComma, DigitOrDash, Letter, RomanTail, all, back, byte_at,
    ends_equal_lowered, ends_with, equal, equal_lowered, front, last_end, span, split_once,
    starts_with, strip_prefix, strip_suffix, tail, without_back,
};

// The suffixes of ordinals, lowered.
static ORDINAL_SUFFIXES: [&[u8]; 4] = [b"th", b"st", b"nd", b"rd"];

// The roman numerals below X.
static SMALL_ROMANS: [&[u8]; 9] = [
    b"I", b"II", b"III", b"IV", b"V", b"VI", b"VII", b"VIII", b"IX",
];

// What split_time_meridiem finds: where the hour ends, where the minute starts, and where the minute ends and the meridiem
// starts. Offsets and no slices, because the public function and C are answered by offsets.
#[derive(Clone, Copy, Debug, PartialEq, Eq)]
pub struct TimeSplit {
    pub hour: usize,
    pub minute: usize,
    pub meridiem: usize,
}

// This and `is_alpha` differ in the class alone. By a generic function each would still be a line, and the code no shorter.
#[tactic(auto, unfolding(crate::specs::Shapes::is_digits))]
pub fn is_digits(s: &[u8]) -> bool
    ensures { result ≡ is_digits s.now }
{
    !s.is_empty() & all(s, Digit)
}

#[tactic(auto, unfolding(crate::specs::Shapes::is_alpha))]
pub fn is_alpha(s: &[u8]) -> bool
    ensures { result ≡ is_alpha s.now }
{
    !s.is_empty() & all(s, Letter)
}

pub fn strip_sign(s: &[u8]) -> &[u8]
    ensures { result.now ≡ strip_sign s.now }
{
    if starts_with(s, b'+') | starts_with(s, b'-') {
        return tail(s, 1);
    }
    s
}

#[tactic(auto, unfolding(crate::specs::Shapes::is_exponent))]
fn is_exponent(s: &[u8]) -> bool
    ensures { result ≡ is_exponent s.now }
{
    if starts_with(s, b'e') | starts_with(s, b'E') {
        return is_digits(strip_sign(tail(s, 1)));
    }
    s.is_empty()
}

#[tactic(auto, unfolding(crate::specs::Shapes::is_unsigned))]
fn is_unsigned(s: &[u8]) -> bool
    ensures { result ≡ is_unsigned s.now }
{
    let int = span(s, Digit);
    let rest = tail(s, int);
    if starts_with(rest, b'.') {
        let after = tail(rest, 1);
        let frac = span(after, Digit);
        return !((int == 0) & (frac == 0)) & is_exponent(tail(after, frac));
    }
    (int != 0) & is_exponent(rest)
}

pub fn is_double(s: &[u8]) -> bool
    ensures { result ≡ is_double s.now }
{
    is_unsigned(strip_prefix(s, b'-'))
}

// How many parts between the bytes c are not empty.
fn nonempty_parts(s: &[u8], c: u8) -> usize
    ensures { result ≡ length (non_empty (split c s.now)) }
{
    s.split(|b| *b == c).filter(|part| !part.is_empty()).count()
}

pub fn is_comma_int(s: &[u8]) -> bool
    ensures { result ≡ is_comma_int s.now }
{
    let Some((first, groups)) = split_once(s, Byte(b',')) else {
        return false;
    };
    is_digits(first)
        & (first.len() <= 3)
        & groups
            .split(|b| *b == b',')
            .all(|group| is_n_digits(group, 3))
}

fn is_ordinal_suffix(s: &[u8]) -> bool
    ensures { result ≡ is_ordinal_suffix s.now }
{
    ORDINAL_SUFFIXES
        .iter()
        .any(|suffix| equal_lowered(s, suffix))
}

#[tactic(auto, unfolding(crate::specs::Shapes::is_ordinal))]
pub fn is_ordinal(s: &[u8]) -> bool
    ensures { result ≡ is_ordinal s.now }
{
    let num = without_back(s, 2);
    let suffix = back(s, 2);
    let b = byte_at(suffix, 0);
    (3 <= s.len())
        & ((b < 0x80) | (0xC0 <= b))
        & is_ordinal_suffix(suffix)
        & byte_at(num, 0).is_ascii_digit()
        & all(num, DigitOrComma)
}

#[tactic(auto, unfolding(crate::specs::Shapes::is_amount))]
fn is_amount(s: &[u8]) -> bool
    ensures { result ≡ is_amount s.now }
{
    let whole = span(s, DigitOrComma);
    let rest = tail(s, whole);
    if starts_with(rest, b'.') {
        return (whole != 0) & is_digits(tail(rest, 1));
    }
    (whole != 0) & rest.is_empty()
}

pub fn is_us_money(s: &[u8]) -> bool
    ensures { result ≡ is_us_money s.now }
{
    starts_with(s, b'$') & is_amount(tail(s, 1))
}

pub fn is_illion(s: &[u8]) -> bool
    ensures { result ≡ is_illion s.now }
{
    s.ends_with(b"illion")
}

fn is_small_roman(s: &[u8]) -> bool
    ensures { result ≡ is_small_roman s.now }
{
    SMALL_ROMANS.iter().any(|numeral| equal(s, numeral))
}

pub fn is_roman(s: &[u8]) -> bool
    ensures { result ≡ is_roman s.now }
{
    is_small_roman(s) | (starts_with(s, b'X') & all(tail(s, 1), RomanTail))
}

pub fn is_dr_or_st(s: &[u8]) -> bool
    ensures { result ≡ is_dr_or_st s.now }
{
    equal_lowered(s, b"dr") | equal_lowered(s, b"st")
}

pub fn is_number_s(s: &[u8]) -> bool
    ensures { result ≡ is_number_s s.now }
{
    (2 <= s.len()) & ends_with(s, b's') & is_digits(without_back(s, 1))
}

pub fn is_leading_zero_digits(s: &[u8]) -> bool
    ensures { result ≡ is_leading_zero_digits s.now }
{
    (1 < s.len()) & starts_with(s, b'0') & is_digits(s)
}

pub fn is_n_digits(s: &[u8], n: usize) -> bool
    ensures { result ≡ is_n_digits n s.now }
{
    (s.len() == n) & is_digits(s)
}

#[tactic(auto, unfolding(crate::specs::Shapes::is_hour_minute))]
fn is_hour_minute(h: &[u8], m: &[u8]) -> bool
    ensures { result ≡ is_hour_minute h.now m.now }
{
    (1 <= h.len()) & (h.len() <= 2) & is_digits(h) & is_n_digits(m, 2) & (byte_at(m, 0) <= b'5')
}

pub fn is_seven_digit_phone(s: &[u8]) -> bool
    ensures { result ≡ is_seven_digit_phone s.now }
{
    // Such a phone number has 8 bytes, so no other text is scanned for a hyphen.
    if s.len() != 8 {
        return false;
    }
    split_once(s, Byte(b'-')).is_some_and(|(a, b)| is_n_digits(a, 3) & is_n_digits(b, 4))
}

pub fn is_time(s: &[u8]) -> bool
    ensures { result ≡ is_time s.now }
{
    // A time has at most 5 bytes, so no longer text is scanned for a colon.
    if 5 < s.len() {
        return false;
    }
    split_once(s, Byte(b':')).is_some_and(|(h, m)| is_hour_minute(h, m))
}

fn ends_in_meridiem(s: &[u8]) -> bool
    ensures { result ≡ ends_in_meridiem s.now }
{
    ends_equal_lowered(s, b"am") | ends_equal_lowered(s, b"pm")
}

pub fn split_time_meridiem(s: &[u8]) -> Option<TimeSplit>
    ensures { SplitsTime s.now result }
{
    if !ends_in_meridiem(s) {
        return None;
    }
    let time = without_back(s, 2);
    let (hour, minute) = split_once(time, ColonOrPoint)?;
    if !is_hour_minute(hour, minute) {
        return None;
    }
    Some(TimeSplit {
        hour: hour.len(),
        minute: hour.len() + 1,
        meridiem: time.len(),
    })
}

fn is_one_letter(s: &[u8]) -> bool
    ensures { result ≡ is_one_letter s.now }
{
    (s.len() == 1) & is_alpha(s)
}

pub fn is_dotted_abbrev(s: &[u8]) -> bool
    ensures { result ≡ is_dotted_abbrev s.now }
{
    let core = strip_suffix(s, b'.');
    core.contains(&b'.') & core.split(|b| *b == b'.').all(is_one_letter)
}

// Whether s is digits, the byte c, digits. The digits are passed first, so a name that does not start with one is not scanned.
fn is_digits_around(s: &[u8], c: u8) -> bool
    requires { digit c ≡ false }
    ensures { result ≡ split_once c are_digits s.now }
{
    let at = span(s, Digit);
    if at == 0 {
        return false;
    }
    let rest = tail(s, at);
    starts_with(rest, c) && is_digits(tail(rest, 1))
}

pub fn is_digits_slash_digits(s: &[u8]) -> bool
    ensures { result ≡ is_digits_slash_digits s.now }
{
    is_digits_around(s, b'/')
}

pub fn is_range(s: &[u8]) -> bool
    ensures { result ≡ is_range s.now }
{
    is_digits_around(s, b'-')
}

pub fn is_digits_dash_digits(s: &[u8]) -> bool
    ensures { result ≡ is_digits_dash_digits s.now }
{
    (2 <= nonempty_parts(s, b'-')) & s.contains(&b'-') & all(s, DigitOrDash)
}

// The unit, a part of the name, if there is one.
pub fn split_unit(s: &[u8]) -> Option<&[u8]>
    ensures { option_copied result ≡ split_unit s.now }
{
    let at = last_end(s, Digit);
    let has_number = (at != 0) & all(front(s, at), DigitOrComma);
    if !has_number {
        return None;
    }
    let unit = tail(s, at);
    units::unit_index(unit)?;
    Some(unit)
}
