// A line of patterns.txt: a text, and what is recorded of it.
use patterns::UnitPart;
use recorded::fields::{Flagged, LineError, bytes_of, fields, number, option};
use recorded::head::Head;
use shapes::TimeSplit;
use std::alloc::Global;

// The verdicts of a line: sixteen shapes, is_n_digits of 0 to 9 and of the text's length.
pub const SHAPES: usize = 16;

const VERDICTS: usize = SHAPES + 11;

// The size of a store, which no word is longer than.
pub const STORE: usize = 16;

#[derive(Drop)]
pub struct Line {
    pub head: Head,
    // None for a byte that is no verdict, which no call's is.
    pub verdicts: Vec<Option<bool>>,
    pub time: Flagged<TimeSplit>,
    pub unit: Flagged<UnitPart>,
    // The length of the unit's word, and the word.
    pub word_len: Flagged<usize>,
    pub word: Vec<u8>,
}

fn verdict(b: u8) -> Option<bool> {
    match b {
        b'0' => Some(false),
        b'1' => Some(true),
        _ => None,
    }
}

// The word of so many bytes. If the field is not hex, it is zeros, which no unit has for a word.
fn word_of(alloc: Global, field: &[u8], len: usize) -> Result<Vec<u8>, LineError> {
    if STORE < len || (len == 0) != (field == b"-".as_slice()) {
        return Err(LineError::Malformed);
    }
    if len != 0 && field.len() != 2 * len {
        return Err(LineError::Malformed);
    }
    match bytes_of(alloc, field) {
        Err(LineError::Malformed) => Ok(vec![in alloc; 0; len]?),
        word => word,
    }
}

impl Line {
    pub fn parse(alloc: Global, line: &[u8]) -> Result<Line, LineError> {
        let fields = fields(alloc, line, b' ')?;
        let [
            head @ ..,
            verdicts,
            t0,
            t1,
            t2,
            t3,
            u0,
            u1,
            u2,
            w0,
            w1,
            word,
        ] = fields.as_slice()
        else {
            return Err(LineError::Malformed);
        };
        if verdicts.len() != VERDICTS {
            return Err(LineError::Malformed);
        }
        let time = TimeSplit {
            hour: number(t1)?,
            minute: number(t2)?,
            meridiem: number(t3)?,
        };
        let unit = UnitPart {
            offset: number(u1)?,
            len: number(u2)?,
        };
        let word_len = option(w0, number(w1)?)?;
        Ok(Line {
            head: Head::parse(alloc, head)?,
            verdicts: verdicts.iter().map(|b| verdict(*b)).collect(alloc)?,
            time: option(t0, time)?,
            unit: option(u0, unit)?,
            word_len,
            word: word_of(alloc, word, word_len.value)?,
        })
    }
}
