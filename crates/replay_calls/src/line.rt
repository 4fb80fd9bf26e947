// A line of calls.txt: a text, the verdict on it as a name, the whole sheet's call, and a field for each entry.
use admit::Refusal;
use calls::{CalledEntry, CalledSheet};
use recorded::fields::{Answer, LineError, answer, fields, flag, number, or_none, refusal, unhex};
use recorded::head::{Head, LONGEST};
use rows::{Entry, Row, Sign};
use std::alloc::Global;

// Searched by number in place of a TryFrom: the enum is another crate's, so this crate can't implement the trait for it.
const ROWS: [Row; 15] = [
    Row::Empty,
    Row::Dotted,
    Row::CommaInt,
    Row::Time,
    Row::Meridiem,
    Row::Range,
    Row::Fraction,
    Row::LeadingZero,
    Row::Digits,
    Row::Figure(Sign::Plus),
    Row::Figure(Sign::Minus),
    Row::Ordinal,
    Row::Percent,
    Row::Unit,
    Row::OneWord,
];

// An entry's call, and the bytes of its line, also where they are recorded beside a refusal.
#[derive(Clone, Copy, Debug, PartialEq, Eq)]
pub struct EntryCall {
    pub answer: Answer<Option<CalledEntry>>,
    pub bytes: usize,
}

// `lines` are those of all entries, end to end.
#[derive(Drop)]
pub struct Line {
    pub head: Head,
    pub clear: Answer<Option<bool>>,
    sheet_refusal: Option<Refusal>,
    // How many tokens the sheet has, none if the field is no number.
    tokens: Option<usize>,
    pub sheet: Answer<Option<CalledSheet>>,
    pub lines: Vec<u8>,
    pub entries: Vec<EntryCall>,
}

// Puts a piece of lines: a count, and the bytes in hex that are repeated so many times.
fn put_piece(alloc: Global, piece: &[u8], lines: &mut Vec<u8>) -> Result<(), LineError> {
    let parts = fields(alloc, piece, b'x')?;
    let [count, hex] = parts.as_slice() else {
        return Err(LineError::Malformed);
    };
    let count = number(count)?;
    // Bytes that are repeated no times may be anything.
    if count == 0 && !hex.is_empty() {
        return Ok(());
    }
    let bytes = unhex(alloc, hex)?;
    for _ in 0..count {
        lines.extend_from_slice(bytes.as_slice())?;
        if LONGEST < lines.len() {
            return Err(LineError::Malformed);
        }
    }
    Ok(())
}

// Lines that are written in pieces, with a comma between or after each, or a dash or nothing for no lines.
fn lines_of(alloc: Global, field: &[u8]) -> Result<Vec<u8>, LineError> {
    let mut lines = Vec::new(alloc);
    if field.is_empty() || field == b"-".as_slice() {
        return Ok(lines);
    }
    let pieces = field.strip_suffix(b",").unwrap_or(field);
    for piece in pieces.split(|b| *b == b',') {
        put_piece(alloc, piece, &mut lines)?;
    }
    Ok(lines)
}

// The row with this number and, 0 for none, this number of its sign.
fn row_of(row: usize, sign: usize) -> Result<Row, LineError> {
    ROWS.into_iter()
        .find(|found| {
            usize::from(u8::from(*found)) == row
                && found.sign().map_or(0, |sign| usize::from(u8::from(sign))) == sign
        })
        .ok_or(LineError::Malformed)
}

// An entry's answer: refusal, row, sign, words and bytes.
fn entry_answer(parts: &[&[u8]]) -> Result<Answer<CalledEntry>, LineError> {
    let [number_of_refusal, row, sign, words, bytes] = parts else {
        return Err(LineError::Malformed);
    };
    let numbers = [number(row)?, number(sign)?, number(words)?, number(bytes)?];
    let numbers = match answer(refusal(number_of_refusal)?, numbers)? {
        Ok(numbers) => numbers,
        Err(refusal) => return Ok(Err(refusal)),
    };
    let [row, sign, words, bytes] = numbers;
    let row = row_of(row, sign)?;
    Ok(Ok(CalledEntry {
        entry: Entry { row },
        words,
        bytes,
    }))
}

fn parse_entry(alloc: Global, field: &[u8]) -> Result<EntryCall, LineError> {
    let parts = fields(alloc, field, b' ')?;
    let [_, _, _, _, bytes] = parts.as_slice() else {
        return Err(LineError::Malformed);
    };
    Ok(EntryCall {
        answer: or_none(entry_answer(parts.as_slice())),
        bytes: number(bytes)?,
    })
}

// The verdict on a text with this refusal.
fn verdict_of(refusal: Option<Refusal>, verdict: &[u8]) -> Result<Answer<bool>, LineError> {
    answer(refusal, flag(verdict)?)
}

// The sheet's answer: refusal, tokens, words, and bytes, which are counted and not recorded.
fn sheet_answer(
    refusal: Option<Refusal>,
    tokens: &[u8],
    words: &[u8],
    bytes: usize,
) -> Result<Answer<CalledSheet>, LineError> {
    let counts = [number(tokens)?, number(words)?];
    Ok(answer(refusal, counts)?.map(|[tokens, words]| CalledSheet {
        tokens,
        words,
        bytes,
    }))
}

impl Line {
    fn parse_fields(alloc: Global, line: &[u8]) -> Result<Line, LineError> {
        let fields_of_line = fields(alloc, line, b'\t')?;
        let [head, clear, sheet, entries @ ..] = fields_of_line.as_slice() else {
            return Err(LineError::Malformed);
        };
        let parts = fields(alloc, sheet, b' ')?;
        let [number_of_refusal, tokens, words, pieces] = parts.as_slice() else {
            return Err(LineError::Malformed);
        };
        if clear.contains(&b' ') {
            return Err(LineError::Malformed);
        }
        let lines = lines_of(alloc, pieces)?;
        let head = Head::parse(alloc, fields(alloc, head, b' ')?.as_slice())?;
        let sheet_refusal = refusal(number_of_refusal)?;
        Ok(Line {
            clear: or_none(verdict_of(head.refusal, clear)),
            head,
            sheet_refusal,
            tokens: number(tokens).ok(),
            sheet: or_none(sheet_answer(sheet_refusal, tokens, words, lines.len())),
            lines,
            entries: entries
                .iter()
                .map(|entry| parse_entry(alloc, entry))
                .try_collect(alloc)?,
        })
    }

    // The call sheet, none if the sheet is refused.
    pub fn call_sheet(&self) -> &[u8] {
        match self.sheet_refusal {
            None => self.lines.as_slice(),
            Some(_) => b"",
        }
    }

    // Whether the calls fit the text: one that is refused has no entries, and a sheet that is accepted has all.
    fn has_all_entries(&self) -> bool {
        match (self.head.refusal, self.sheet_refusal) {
            (None, None) => self.tokens == Some(self.entries.len()),
            (None, Some(refusal)) => refusal == Refusal::NameTooLong,
            (text, sheet) => sheet == text && self.entries.is_empty(),
        }
    }

    // Whether the lines are just those of the entries.
    fn has_all_lines(&self) -> bool {
        let lens = self.entries.iter().map(|entry| entry.bytes);
        lens.fold(0usize, |sum, len| sum.saturating_add(len)) == self.lines.len()
    }

    pub fn parse(alloc: Global, line: &[u8]) -> Result<Line, LineError> {
        let line = Line::parse_fields(alloc, line)?;
        if line.has_all_entries() && line.has_all_lines() {
            Ok(line)
        } else {
            Err(LineError::Malformed)
        }
    }
}
