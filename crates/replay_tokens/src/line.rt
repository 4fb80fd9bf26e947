// A line of tokens.txt: a text, and a field of nine numbers for each token.
use recorded::buffer::put_number;
use recorded::fields::{Answer, LineError, answer, fields, flag, number};
use recorded::head::Head;
use std::alloc::Global;

// The most tokens of a line.
pub const MOST: usize = 31;

// What stands for a field that is no number: a place past every text, so that each token differs from it.
const NO_PLACE: usize = 1_000_000_000;

// A part of a text.
#[derive(Clone, Copy, Debug, PartialEq, Eq)]
pub struct Part {
    offset: usize,
    len: usize,
}

#[derive(Clone, Copy, Debug, PartialEq, Eq)]
pub struct Token {
    pub whitespace: Part,
    pub prepunctuation: Part,
    pub name: Part,
    pub punctuation: Part,
    pub starts_sentence: bool,
}

// Besides text and tokens, what the two calls leave in their buffers.
#[derive(Drop)]
pub struct Line {
    pub head: Head,
    // How many tokens there are.
    pub answer: Answer<usize>,
    pub tokens: Vec<Token>,
    pub table: Vec<u8>,
    pub starts: Vec<u8>,
}

impl Part {
    fn parse(offset: &[u8], len: &[u8]) -> Part {
        Part {
            offset: number(offset).unwrap_or(NO_PLACE),
            len: number(len).unwrap_or(NO_PLACE),
        }
    }

    // The part of this text, as far as the text has it.
    pub fn of(self, text: &[u8]) -> &[u8] {
        let rest = text.get(self.offset..).unwrap_or(b"");
        rest.get(..self.len).unwrap_or(rest)
    }
}

impl Token {
    fn parse(alloc: Global, field: &[u8]) -> Result<Token, LineError> {
        let numbers = fields(alloc, field, b' ')?;
        let [w, w_len, pre, pre_len, name, name_len, p, p_len, starts] = numbers.as_slice() else {
            return Err(LineError::Malformed);
        };
        Ok(Token {
            whitespace: Part::parse(w, w_len),
            prepunctuation: Part::parse(pre, pre_len),
            name: Part::parse(name, name_len),
            punctuation: Part::parse(p, p_len),
            starts_sentence: flag(starts)?,
        })
    }

    // Puts the token's record: offset and length of each part.
    fn put_record(self, table: &mut Vec<u8>) -> Result<(), LineError> {
        for part in [
            self.whitespace,
            self.prepunctuation,
            self.name,
            self.punctuation,
        ] {
            put_number(part.offset, table)?;
            put_number(part.len, table)?;
        }
        Ok(())
    }
}

impl Line {
    pub fn parse(alloc: Global, line: &[u8]) -> Result<Line, LineError> {
        let fields_of_line = fields(alloc, line, b'\t')?;
        let [head, tokens @ ..] = fields_of_line.as_slice() else {
            return Err(LineError::Malformed);
        };
        let head = Head::parse(alloc, fields(alloc, head, b' ')?.as_slice())?;
        if MOST < tokens.len() {
            return Err(LineError::Malformed);
        }
        let mut line = Line {
            answer: answer(head.refusal, tokens.len())?,
            head,
            tokens: Vec::new(alloc),
            table: Vec::new(alloc),
            starts: Vec::new(alloc),
        };
        for field in tokens {
            line.add(Token::parse(alloc, field)?)?;
        }
        Ok(line)
    }

    fn add(&mut self, token: Token) -> Result<(), LineError> {
        self.tokens.push(token)?;
        token.put_record(&mut self.table)?;
        self.starts.push(u8::from(token.starts_sentence))?;
        Ok(())
    }
}
