// A line of a file: its fields, numbers and hex.
ghost use Rattle.std.specs.Prelude.{◌≡◌, ◌<◌, None, Some, IfOk, MatchResult, Ok, Err, if◌then◌else◌};
ghost use Rattle.std.specs.Option.{option_map_or};
ghost use Rattle.std.specs.Char.{digit_value};
ghost use Rattle.std.specs.Str.Parse.{digits_value};
ghost use Rattle.admit.specs.Refusals.{refusal_number};

use admit::Refusal;
use std::alloc::{AllocError, AllocFailed, Global};
use std::num::{ParseIntError, TryFromIntError};
use std::str;
use std::str::Utf8Error;

// Why a line is not compared.
#[derive(Clone, Copy, Debug, PartialEq, Eq)]
pub enum LineError {
    // It can't be a recorded line.
    Malformed,
    OutOfMemory,
}

impl From<AllocError> for LineError {
    fn from(_error: AllocError) -> LineError {
        LineError::OutOfMemory
    }
}

impl<T: Drop> From<AllocFailed<T>> for LineError {
    fn from(_error: AllocFailed<T>) -> LineError {
        LineError::OutOfMemory
    }
}

impl From<ParseIntError> for LineError {
    fn from(_error: ParseIntError) -> LineError {
        LineError::Malformed
    }
}

impl From<TryFromIntError> for LineError {
    fn from(_error: TryFromIntError) -> LineError {
        LineError::Malformed
    }
}

impl From<Utf8Error> for LineError {
    fn from(_error: Utf8Error) -> LineError {
        LineError::Malformed
    }
}

// What a call answers.
pub type Answer<T> = Result<T, Refusal>;

// A value as it is recorded, and whether a call gives it. A call that does not gives zeros in its place.
#[derive(Clone, Copy, Debug, PartialEq, Eq)]
pub struct Flagged<T> {
    pub is_there: bool,
    pub value: T,
}

// Searched by number in place of a TryFrom: the enum is another crate's, so this crate can't implement the trait for it.
const REFUSALS: [Refusal; 6] = [
    Refusal::TextTooLong,
    Refusal::NotUtf8,
    Refusal::NoSuchEntry,
    Refusal::NameTooLong,
    Refusal::BufferTooShort,
    Refusal::ControlByte,
];

// The fields of a line. The byte `end` stands between them.
pub fn fields(alloc: Global, line: &[u8], end: u8) -> Result<Vec<&[u8]>, AllocError> {
    line.split(|b| *b == end).collect(alloc)
}

// The decimal number of a field, which has at most nine digits: `parse` alone would take a sign, and more digits.
pub fn number(field: &[u8]) -> Result<usize, LineError>
    ensures { IfOk result (λ n. n ≡ digits_value 10 field.now) }
{
    if 9 < field.len() || !field.iter().all(u8::is_ascii_digit) {
        return Err(LineError::Malformed);
    }
    Ok(str::from_utf8(field)?.parse()?)
}

// Whether the field is 1. It must be 0 else. No library call reads a flag so.
pub fn flag(field: &[u8]) -> Result<bool, LineError>
    ensures { IfOk result (λ is. digits_value 10 field.now ≡ (if is then 1 else 0)) }
{
    match number(field)? {
        0 => Ok(false),
        1 => Ok(true),
        _ => Err(LineError::Malformed),
    }
}

// The refusal with the field's number, none for 0.
pub fn refusal(field: &[u8]) -> Result<Option<Refusal>, LineError>
    ensures { IfOk result (λ refusal. digits_value 10 field.now ≡ option_map_or refusal_number refusal 0) }
{
    match number(field)? {
        0 => Ok(None),
        number => REFUSALS
            .into_iter()
            .find(|refusal| usize::from(u8::from(*refusal)) == number)
            .map(Some)
            .ok_or(LineError::Malformed),
    }
}

// A value that is there if the field is 1. The field must be 0 else.
pub fn option<T: Drop>(field: &[u8], value: T) -> Result<Flagged<T>, LineError>
    ensures { IfOk result (λ option.
        (digits_value 10 field.now ≡ (if option.is_there then 1 else 0)) × (option.value ≡ value)) }
{
    Ok(Flagged {
        is_there: flag(field)?,
        value,
    })
}

// A call's answer. One that is refused gives nothing.
pub fn answer<T: Default + PartialEq + Drop>(
    refusal: Option<Refusal>,
    value: T,
) -> Result<Answer<T>, LineError>
    ensures { IfOk result (λ answer.
        MatchResult answer (λ x. (refusal ≡ None) × (x ≡ value)) (λ why. refusal ≡ Some why)) }
{
    match refusal {
        None => Ok(Ok(value)),
        Some(refusal) if value == T::default() => Ok(Err(refusal)),
        Some(_) => Err(LineError::Malformed),
    }
}

// What fields are to stand for, `Ok(None)` if they are no answer: a call never gives that, so it differs. It is for fields that
// are read without memory, since lack of memory would pass for no answer too.
pub fn or_none<T: Drop>(answer: Result<Answer<T>, LineError>) -> Answer<Option<T>>
    ensures { MatchResult answer
        (λ given. MatchResult given (λ x. result ≡ Ok (Some x)) (λ why. result ≡ Err why))
        (λ _. result ≡ Ok None) }
{
    match answer {
        Ok(given) => given.map(Some),
        Err(_) => Ok(None),
    }
}

// Not `to_digit`, which reads capital letters too: a recorded digit is in lower case.
fn hex_digit(b: u8) -> Result<u8, LineError>
    ensures value { IfOk result (λ n. n ≡ digit_value b) }
    ensures below { IfOk result (λ n. n < 16) }
{
    match b {
        b'0'..=b'9' => Ok(b - b'0'),
        b'a'..=b'f' => Ok(b - b'a' + 10),
        _ => Err(LineError::Malformed),
    }
}

// The byte of a field that is one hex pair.
pub fn byte_of(pair: &[u8]) -> Result<u8, LineError>
    ensures { IfOk result (λ b. b ≡ digits_value 16 pair.now) }
{
    let [high, low] = pair else {
        return Err(LineError::Malformed);
    };
    Ok(hex_digit(*high)? * 16 + hex_digit(*low)?)
}

// The bytes of hex pairs, at least one.
pub fn unhex(alloc: Global, pairs: &[u8]) -> Result<Vec<u8>, LineError> {
    if pairs.is_empty() {
        return Err(LineError::Malformed);
    }
    pairs.chunks(2).map(byte_of).try_collect(alloc)
}

// The bytes of a field: hex pairs, or a dash for no bytes.
pub fn bytes_of(alloc: Global, field: &[u8]) -> Result<Vec<u8>, LineError> {
    match field {
        b"-" => Ok(Vec::new(alloc)),
        _ => unhex(alloc, field),
    }
}
