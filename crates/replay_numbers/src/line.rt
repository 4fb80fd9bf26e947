// A line of numbers.txt: a text, a field for each reading that gives words, and the value of the roman numeral.
use crate::words::Words;
use admit::Refusal;
use recorded::fields::{Answer, LineError, answer, fields, number, or_none};
use recorded::head::Head;
use std::alloc::Global;
use word_writer::WordCounts;

// The readings that give words.
pub const READINGS: usize = 6;

// What a reading is to answer: the words, or a refusal and no words.
#[derive(Drop)]
pub struct Reading {
    pub answer: Answer<WordCounts>,
    pub words: Words,
}

#[derive(Drop)]
pub struct Line {
    pub head: Head,
    pub readings: Vec<Reading>,
    pub roman_value: Answer<Option<u32>>,
}

impl Reading {
    pub fn new(refusal: Option<Refusal>, words: Words) -> Reading {
        let answer = match refusal {
            None => Ok(words.counts()),
            Some(refusal) => Err(refusal),
        };
        Reading { answer, words }
    }

    // A single backslash stands for a field that was left out, because it would have more words than the table has room for.
    fn parse(alloc: Global, refusal: Option<Refusal>, field: &[u8]) -> Result<Reading, LineError> {
        if field == b"\\".as_slice() {
            return Ok(Reading::new(Some(Refusal::BufferTooShort), Words::new(alloc)));
        }
        Ok(Reading::new(refusal, Words::parse(alloc, field)?))
    }
}

impl Line {
    pub fn parse(alloc: Global, line: &[u8]) -> Result<Line, LineError> {
        let fields_of_line = fields(alloc, line, b'\t')?;
        let [head, words @ .., roman] = fields_of_line.as_slice() else {
            return Err(LineError::Malformed);
        };
        let head = Head::parse(alloc, fields(alloc, head, b' ')?.as_slice())?;
        let refusal = head.refusal;
        let roman_value = or_none(answer(refusal, u32::try_from(number(roman)?)?));
        if words.len() != READINGS {
            return Err(LineError::Malformed);
        }
        let readings = words
            .iter()
            .map(|field| Reading::parse(alloc, refusal, field))
            .try_collect(alloc)?;
        Ok(Line {
            head,
            readings,
            roman_value,
        })
    }
}
