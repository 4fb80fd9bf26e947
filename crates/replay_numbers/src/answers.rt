// The readings of the crate numbers for one text, each compared with the recorded one.
use crate::compared::Compared;
use crate::line::{Line, READINGS, Reading};
use admit::Refusal;
use recorded::buffer::{Lent, Room, is_given};
use recorded::fields::LineError;
use recorded::tally::Report;
use std::alloc::Global;
use word_writer::WordCounts;

// A reading, as a function of a text, a store and a table.
pub type Read = fn(&[u8], &mut [u8], &mut [u8]) -> Result<WordCounts, Refusal>;

// The six readings that give words.
pub const READS: [(Compared, Read); READINGS] = [
    (Compared::Cardinal, numbers::cardinal),
    (Compared::Ordinal, numbers::ordinal),
    (Compared::Year, numbers::year),
    (Compared::Digits, numbers::digits),
    (Compared::Real, numbers::real),
    (Compared::Letters, numbers::letters),
];

// The rooms of store and table.
const ROOMS: [(Room, Room); 4] = [
    (Room::Spare, Room::Spare),
    (Room::JustEnough, Room::JustEnough),
    (Room::Short, Room::JustEnough),
    (Room::JustEnough, Room::Short),
];

// The size of a store, and of a table for 64 words, the most that a field can have.
const STORE: usize = 11 * 65;

const TABLE: usize = 8 * 64;

// A text, and the two buffers that a reading of it is lent. Room to spare is all of a buffer.
#[derive(Drop)]
pub struct Calls<'a> {
    pub text: &'a [u8],
    pub store: &'a mut [u8],
    pub table: &'a mut [u8],
}

impl Calls<'_> {
    // One reading in all rooms.
    pub fn compare(&mut self, what: Compared, read: Read, reading: &Reading) -> Report<Compared>
        requires { IsAlwaysCallable read }
    {
        let mut store = Lent {
            buffer: &mut *self.store,
            bytes: reading.words.store.as_slice(),
            spare: usize::MAX,
        };
        let mut table = Lent {
            buffer: &mut *self.table,
            bytes: reading.words.table.as_slice(),
            spare: usize::MAX,
        };
        let mut report = Report::new();
        for (store_room, table_room) in ROOMS {
            let answer = read(self.text, store.front(store_room), table.front(table_room));
            // If one room is too short, so is the call's: then no word is to be in either.
            let room = if table_room == Room::Short {
                table_room
            } else {
                store_room
            };
            let left = [store.left(room), table.left(room)];
            let agrees = is_given(answer, &reading.answer, &left);
            report = report.and(Report::of(what, agrees));
        }
        report
    }
}

fn compare_roman(line: &Line) -> Report<Compared> {
    let answer = numbers::roman_value(line.head.text.as_slice());
    Report::of(Compared::RomanValue, answer.map(Some) == line.roman_value)
}

// Every reading of the text of a line, compared with the line.
pub fn compare_line(alloc: Global, line: &[u8]) -> Result<Report<Compared>, LineError> {
    let line = Line::parse(alloc, line)?;
    let mut calls = Calls {
        text: line.head.text.as_slice(),
        store: &mut [0; STORE],
        table: &mut [0; TABLE],
    };
    let mut report = Report::new();
    for ((what, read), reading) in READS.into_iter().zip(&line.readings) {
        report = report.and(calls.compare(what, read, reading));
    }
    Ok(report.and(compare_roman(&line)))
}
