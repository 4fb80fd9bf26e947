// The public functions of patterns.rs, in its order and under its names. Each takes all bytes, and answers its verdict or a
// refusal.
#![tactic(auto)]

ghost use Rattle.std.specs.Prelude.{◌≡◌};
ghost use Rattle.shapes.specs.Shapes.{is_digits, is_alpha, is_double, is_comma_int, is_ordinal, is_us_money, is_illion, is_roman, is_dr_or_st};
ghost use Rattle.shapes.specs.Shapes.{is_number_s, is_leading_zero_digits, is_seven_digit_phone, is_n_digits, is_time, is_dotted_abbrev, is_digits_slash_digits, is_digits_dash_digits};
ghost use Rattle.patterns.specs.Calls.{as_verdict, verdict_call, as_time, time_call, as_offsets, offsets_call, as_unit, unit_call, as_unit_word, unit_word_call, as_stored, store_call};

use admit::{Refusal, admit_text};
use lists::put;
use shapes::TimeSplit;

// A unit's place in a name.
#[derive(Clone, Copy, Debug, PartialEq, Eq)]
pub struct UnitPart {
    pub offset: usize,
    pub len: usize,
}

// Each verdict is a function of its own: one function over an enum of the shapes was slower. Through a generic one it would still
// take a line, and the generic one a clause about the function that it is given.
pub fn is_digits(s: &[u8]) -> Result<bool, Refusal>
    ensures { as_verdict result ≡ verdict_call s.now (is_digits s.now) }
{
    admit_text(s)?;
    Ok(shapes::is_digits(s))
}

pub fn is_alpha(s: &[u8]) -> Result<bool, Refusal>
    ensures { as_verdict result ≡ verdict_call s.now (is_alpha s.now) }
{
    admit_text(s)?;
    Ok(shapes::is_alpha(s))
}

pub fn is_double(s: &[u8]) -> Result<bool, Refusal>
    ensures { as_verdict result ≡ verdict_call s.now (is_double s.now) }
{
    admit_text(s)?;
    Ok(shapes::is_double(s))
}

pub fn is_comma_int(s: &[u8]) -> Result<bool, Refusal>
    ensures { as_verdict result ≡ verdict_call s.now (is_comma_int s.now) }
{
    admit_text(s)?;
    Ok(shapes::is_comma_int(s))
}

pub fn is_ordinal(s: &[u8]) -> Result<bool, Refusal>
    ensures { as_verdict result ≡ verdict_call s.now (is_ordinal s.now) }
{
    admit_text(s)?;
    Ok(shapes::is_ordinal(s))
}

pub fn is_us_money(s: &[u8]) -> Result<bool, Refusal>
    ensures { as_verdict result ≡ verdict_call s.now (is_us_money s.now) }
{
    admit_text(s)?;
    Ok(shapes::is_us_money(s))
}

pub fn is_illion(s: &[u8]) -> Result<bool, Refusal>
    ensures { as_verdict result ≡ verdict_call s.now (is_illion s.now) }
{
    admit_text(s)?;
    Ok(shapes::is_illion(s))
}

pub fn is_roman(s: &[u8]) -> Result<bool, Refusal>
    ensures { as_verdict result ≡ verdict_call s.now (is_roman s.now) }
{
    admit_text(s)?;
    Ok(shapes::is_roman(s))
}

pub fn is_dr_or_st(s: &[u8]) -> Result<bool, Refusal>
    ensures { as_verdict result ≡ verdict_call s.now (is_dr_or_st s.now) }
{
    admit_text(s)?;
    Ok(shapes::is_dr_or_st(s))
}

pub fn is_number_s(s: &[u8]) -> Result<bool, Refusal>
    ensures { as_verdict result ≡ verdict_call s.now (is_number_s s.now) }
{
    admit_text(s)?;
    Ok(shapes::is_number_s(s))
}

pub fn is_leading_zero_digits(s: &[u8]) -> Result<bool, Refusal>
    ensures { as_verdict result ≡ verdict_call s.now (is_leading_zero_digits s.now) }
{
    admit_text(s)?;
    Ok(shapes::is_leading_zero_digits(s))
}

pub fn is_seven_digit_phone(s: &[u8]) -> Result<bool, Refusal>
    ensures { as_verdict result ≡ verdict_call s.now (is_seven_digit_phone s.now) }
{
    admit_text(s)?;
    Ok(shapes::is_seven_digit_phone(s))
}

pub fn is_n_digits(s: &[u8], n: usize) -> Result<bool, Refusal>
    ensures { as_verdict result ≡ verdict_call s.now (is_n_digits n s.now) }
{
    admit_text(s)?;
    Ok(shapes::is_n_digits(s, n))
}

pub fn is_time(s: &[u8]) -> Result<bool, Refusal>
    ensures { as_verdict result ≡ verdict_call s.now (is_time s.now) }
{
    admit_text(s)?;
    Ok(shapes::is_time(s))
}

pub fn split_time_meridiem(s: &[u8]) -> Result<Option<TimeSplit>, Refusal>
    ensures { (as_time result s.now ≡ time_call s.now) × (as_offsets result ≡ offsets_call s.now) }
{
    admit_text(s)?;
    Ok(shapes::split_time_meridiem(s))
}

pub fn is_dotted_abbrev(s: &[u8]) -> Result<bool, Refusal>
    ensures { as_verdict result ≡ verdict_call s.now (is_dotted_abbrev s.now) }
{
    admit_text(s)?;
    Ok(shapes::is_dotted_abbrev(s))
}

pub fn is_digits_slash_digits(s: &[u8]) -> Result<bool, Refusal>
    ensures { as_verdict result ≡ verdict_call s.now (is_digits_slash_digits s.now) }
{
    admit_text(s)?;
    Ok(shapes::is_digits_slash_digits(s))
}

pub fn is_digits_dash_digits(s: &[u8]) -> Result<bool, Refusal>
    ensures { as_verdict result ≡ verdict_call s.now (is_digits_dash_digits s.now) }
{
    admit_text(s)?;
    Ok(shapes::is_digits_dash_digits(s))
}

pub fn split_unit(s: &[u8]) -> Result<Option<UnitPart>, Refusal>
    ensures { as_unit result ≡ unit_call s.now }
{
    admit_text(s)?;
    let Some(unit) = shapes::split_unit(s) else {
        return Ok(None);
    };
    let len = unit.len();
    let offset = s.len() - len;
    Ok(Some(UnitPart { offset, len }))
}

// Writes the word to the front of the store, if it fits, and answers its length.
fn store_word(word: &[u8], store: &mut [u8]) -> Result<usize, Refusal>
    ensures { as_stored result store.new ≡ store_call word.now store.old }
{
    if store.len() < word.len() {
        return Err(Refusal::BufferTooShort);
    }
    put(store, 0, word);
    Ok(word.len())
}

// The length of the unit's word, which the call writes to the front of the store.
pub fn unit_word(unit: &[u8], store: &mut [u8]) -> Result<Option<usize>, Refusal>
    ensures { as_unit_word result store.new ≡ unit_word_call unit.now store.old }
{
    admit_text(unit)?;
    let Some(k) = units::unit_index(unit) else {
        return Ok(None);
    };
    let word = vocabulary::word(units::word_number(k));
    let len = store_word(word, store)?;
    Ok(Some(len))
}
