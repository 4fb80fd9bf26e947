// The verdict and the calls of one sheet, compared with the recorded ones.
use crate::compared::Compared;
use crate::line::Line;
use admit::Refusal;
use calls::{CalledEntry, CalledSheet, call_entry, call_sheet};
use clear::is_clear;
use recorded::buffer::{GUARD, Lent, ROOMS};
use recorded::fields::{Answer, LineError};
use recorded::tally::Report;
use std::alloc::Global;

// The bytes to spare, and the bytes past the result that are looked at.
const SPARE: usize = 32;

const MARGIN: usize = 64;

// A sheet, and what allocates the buffers of its calls.
#[derive(Clone, Copy)]
pub struct Sheet<'a> {
    pub text: &'a [u8],
    pub alloc: Global,
}

impl Sheet<'_> {
    // Compares a call in every room. It is to leave these bytes in its buffer.
    fn compare_call<T, F>(
        &self,
        what: Compared,
        expected: Answer<T>,
        bytes: &[u8],
        call: F,
    ) -> Result<Report<Compared>, LineError>
    where
        T: PartialEq + Drop,
        F: Fn(&mut [u8]) -> Answer<T> + Drop,
        requires { F.IsAlwaysCallable call }
    {
        let len = bytes.len().saturating_add(MARGIN);
        let mut buffer = vec![in self.alloc; GUARD; len]?;
        let mut lent = Lent {
            buffer: &mut buffer,
            bytes,
            spare: SPARE,
        };
        Ok(lent.compare(&ROOMS, what, expected, call))
    }

    pub fn compare_whole(
        &self,
        expected: Answer<Option<CalledSheet>>,
        lines: &[u8],
    ) -> Result<Report<Compared>, LineError> {
        let text = self.text;
        self.compare_call(Compared::CallSheet, expected, lines, |out| {
            call_sheet(text, out).map(Some)
        })
    }

    // The call of entry k.
    pub fn compare_entry(
        &self,
        k: usize,
        expected: Answer<Option<CalledEntry>>,
        line: &[u8],
    ) -> Result<Report<Compared>, LineError> {
        let text = self.text;
        self.compare_call(Compared::CallEntry, expected, line, |out| {
            call_entry(text, k, out).map(Some)
        })
    }

    // The same if there is no entry k.
    fn compare_no_entry(&self, k: usize, refusal: Refusal) -> Result<Report<Compared>, LineError> {
        let text = self.text;
        self.compare_call(Compared::CallNoEntry, Err(refusal), b"", |out| {
            call_entry(text, k, out)
        })
    }
}

// Each entry, whose line is a part of the lines.
fn compare_entries(sheet: &Sheet, line: &Line) -> Result<Report<Compared>, LineError> {
    let mut rest = line.lines.as_slice();
    let mut report = Report::new();
    for (k, entry) in line.entries.iter().enumerate() {
        let (bytes, others) = rest.split_at(entry.bytes.min(rest.len()));
        rest = others;
        report = report.and(sheet.compare_entry(k, entry.answer, bytes)?);
    }
    Ok(report)
}

// The calls of two entries that are not there: the one after the last, and one with a number that no entry has.
fn compare_no_entries(sheet: &Sheet, line: &Line) -> Result<Report<Compared>, LineError> {
    let refusal = line.head.refusal.unwrap_or(Refusal::NoSuchEntry);
    let next = sheet.compare_no_entry(line.entries.len(), refusal)?;
    let last = sheet.compare_no_entry(usize::MAX, refusal)?;
    Ok(next.and(last))
}

// The verdict on the text as a name.
fn compare_clear(line: &Line) -> Report<Compared> {
    let verdict = is_clear(line.head.text.as_slice());
    Report::of(Compared::IsClear, verdict.map(Some) == line.clear)
}

// Every answer about the text of a line, compared with the line.
pub fn compare_line(alloc: Global, line: &[u8]) -> Result<Report<Compared>, LineError> {
    let line = Line::parse(alloc, line)?;
    let sheet = Sheet {
        text: line.head.text.as_slice(),
        alloc,
    };
    let whole = sheet.compare_whole(line.sheet, line.call_sheet())?;
    let entries = compare_entries(&sheet, &line)?;
    let no_entries = compare_no_entries(&sheet, &line)?;
    Ok(compare_clear(&line).and(whole).and(entries).and(no_entries))
}
