// The longest text that is admitted: 65,536 fives. A text of one five more is refused, and has a line in numbers.txt.
use crate::answers::{Calls, READS};
use crate::compared::Compared;
use crate::line::{READINGS, Reading};
use crate::words::Words;
use recorded::fields::LineError;
use recorded::tally::Report;
use std::alloc::Global;
use word_writer::PAIR_SIZE;

const LIMIT: usize = 65_536;

// The size of a store and of a table: a table of one word more than the text has bytes, which no reading of it takes.
const ROOM: usize = (LIMIT + 1) * PAIR_SIZE;

// A reading whose words come in rounds.
#[derive(Clone, Copy, Debug, PartialEq, Eq)]
struct Rounds {
    count: usize,
    each: &'static [u8],
    last: &'static [u8],
}

impl Rounds {
    const fn alike(count: usize, each: &'static [u8]) -> Rounds {
        Rounds {
            count,
            each,
            last: each,
        }
    }

    fn reading(self, alloc: Global) -> Result<Reading, LineError> {
        let longest = self.each.len().max(self.last.len());
        let mut words = Words::with_capacity(alloc, self.count.saturating_mul(longest), LIMIT)?;
        for _ in 1..self.count {
            words.put(self.each)?;
        }
        words.put(self.last)?;
        Ok(Reading::new(None, words))
    }
}

// The words of the readings, in their order. A year takes two fives at a time.
fn expected() -> [Rounds; READINGS] {
    let fives = Rounds::alike(LIMIT, b"five");
    let ordinal = Rounds {
        count: LIMIT,
        each: b"five",
        last: b"fifth",
    };
    let year = Rounds::alike(LIMIT / 2, b"fifty five");
    let letters = Rounds::alike(LIMIT, b"5");
    [fives, ordinal, year, fives, fives, letters]
}

// Each reading is made only to be compared, since one alone takes a megabyte.
pub fn compare_limit(alloc: Global) -> Result<Report<Compared>, LineError> {
    let text = vec![in alloc; b'5'; LIMIT]?;
    let mut store = vec![in alloc; 0; ROOM]?;
    let mut table = vec![in alloc; 0; ROOM]?;
    let mut calls = Calls {
        text: text.as_slice(),
        store: &mut store,
        table: &mut table,
    };
    let mut report = Report::new();
    for ((what, read), rounds) in READS.into_iter().zip(expected()) {
        report = report.and(calls.compare(what, read, &rounds.reading(alloc)?));
    }
    Ok(report)
}
