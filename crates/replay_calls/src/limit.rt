// The longest sheet, with the most entries: 32,768 times "7 ". No recorded line could hold a field for each entry.
use crate::answers::Sheet;
use crate::compared::Compared;
use calls::{CalledEntry, CalledSheet};
use recorded::fields::LineError;
use recorded::tally::Report;
use rows::{Entry, Row};
use std::alloc::Global;

const ENTRIES: usize = 32_768;

const FIRST: &[u8] = b"+ seven\n";

const OTHER: &[u8] = b"- seven\n";

fn compare_seven(sheet: &Sheet, k: usize, line: &[u8]) -> Result<Report<Compared>, LineError> {
    let entry = CalledEntry {
        entry: Entry { row: Row::Digits },
        words: 1,
        bytes: line.len(),
    };
    sheet.compare_entry(k, Ok(Some(entry)), line)
}

// The whole sheet, its first entry and its last.
pub fn compare_limit(alloc: Global) -> Result<Report<Compared>, LineError> {
    let text = b"7 ".repeat(alloc, ENTRIES)?;
    let sheet = Sheet {
        text: text.as_slice(),
        alloc,
    };
    let mut lines = FIRST.to_vec(alloc)?;
    for _ in 1..ENTRIES {
        lines.extend_from_slice(OTHER)?;
    }
    let called = CalledSheet {
        tokens: ENTRIES,
        words: ENTRIES,
        bytes: lines.len(),
    };
    let whole = sheet.compare_whole(Ok(Some(called)), lines.as_slice())?;
    let first = compare_seven(&sheet, 0, FIRST)?;
    let last = compare_seven(&sheet, ENTRIES - 1, OTHER)?;
    Ok(whole.and(first).and(last))
}
