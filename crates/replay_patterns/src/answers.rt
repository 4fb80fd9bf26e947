// The answers of the crate patterns for one text, each number of which is compared with the recorded one.
use crate::compared::Compared;
use crate::line::{Line, SHAPES, STORE};
use patterns::UnitPart;
use recorded::buffer::{GUARD, Lent, ROOMS, Room, TOO_SHORT};
use recorded::fields::{Answer, Flagged, LineError};
use recorded::tally::Report;
use shapes::TimeSplit;
use std::alloc::Global;
use std::iter;

// What is recorded if there is no time, and if there is no unit.
const NO_TIME: TimeSplit = TimeSplit {
    hour: 0,
    minute: 0,
    meridiem: 0,
};

const NO_UNIT: UnitPart = UnitPart { offset: 0, len: 0 };

// What is expected of the word in a room that is too short.
const NO_WORD: Flagged<usize> = Flagged {
    is_there: false,
    value: 0,
};

// A call about a text's shape.
type IsShape = fn(&[u8]) -> Answer<bool>;

// A verdict is a refusal and whether the text has the shape.
fn compare_verdict(
    what: Compared,
    line: &Line,
    answer: Answer<bool>,
    wanted: Option<bool>,
) -> Report<Compared> {
    let is_refusal = answer.err() == line.head.refusal;
    let is_verdict = Some(answer.unwrap_or(false)) == wanted;
    Report::of_each(what, &[is_refusal, is_verdict])
}

// The sixteen shapes.
fn compare_shapes(line: &Line) -> Report<Compared> {
    let shapes: [(Compared, IsShape); SHAPES] = [
        (Compared::IsDigits, patterns::is_digits),
        (Compared::IsAlpha, patterns::is_alpha),
        (Compared::IsDouble, patterns::is_double),
        (Compared::IsCommaInt, patterns::is_comma_int),
        (Compared::IsOrdinal, patterns::is_ordinal),
        (Compared::IsUsMoney, patterns::is_us_money),
        (Compared::IsIllion, patterns::is_illion),
        (Compared::IsRoman, patterns::is_roman),
        (Compared::IsDrOrSt, patterns::is_dr_or_st),
        (Compared::IsNumberS, patterns::is_number_s),
        (
            Compared::IsLeadingZeroDigits,
            patterns::is_leading_zero_digits,
        ),
        (Compared::IsSevenDigitPhone, patterns::is_seven_digit_phone),
        (Compared::IsTime, patterns::is_time),
        (Compared::IsDottedAbbrev, patterns::is_dotted_abbrev),
        (
            Compared::IsDigitsSlashDigits,
            patterns::is_digits_slash_digits,
        ),
        (
            Compared::IsDigitsDashDigits,
            patterns::is_digits_dash_digits,
        ),
    ];
    let text = line.head.text.as_slice();
    let mut report = Report::new();
    for ((what, is_shape), wanted) in shapes.into_iter().zip(&line.verdicts) {
        report = report.and(compare_verdict(what, line, is_shape(text), *wanted));
    }
    report
}

// is_n_digits of 0 to 9 and of the text's length.
fn compare_digits(line: &Line) -> Report<Compared> {
    let text = line.head.text.as_slice();
    let counts = (0..=9).chain(iter::once(text.len()));
    let mut report = Report::new();
    for (n, wanted) in counts.zip(line.verdicts.iter().skip(SHAPES)) {
        let answer = patterns::is_n_digits(text, n);
        report = report.and(compare_verdict(Compared::IsNDigits, line, answer, *wanted));
    }
    report
}

fn compare_time(line: &Line) -> Report<Compared> {
    let answer = patterns::split_time_meridiem(line.head.text.as_slice());
    let split = answer.ok().flatten();
    let time = split.unwrap_or(NO_TIME);
    Report::of_each(
        Compared::SplitTimeMeridiem,
        &[
            answer.err() == line.head.refusal,
            split.is_some() == line.time.is_there,
            time.hour == line.time.value.hour,
            time.minute == line.time.value.minute,
            time.meridiem == line.time.value.meridiem,
        ],
    )
}

fn compare_unit(line: &Line) -> Report<Compared> {
    let answer = patterns::split_unit(line.head.text.as_slice());
    let part = answer.ok().flatten();
    let unit = part.unwrap_or(NO_UNIT);
    Report::of_each(
        Compared::SplitUnit,
        &[
            answer.err() == line.head.refusal,
            part.is_some() == line.unit.is_there,
            unit.offset == line.unit.value.offset,
            unit.len == line.unit.value.len,
        ],
    )
}

// The unit's word in one room: the refusal, whether there is a word, its length, and the store.
fn compare_word_in(line: &Line, room: Room) -> Report<Compared> {
    let mut lent = Lent {
        buffer: &mut [GUARD; STORE],
        bytes: line.word.as_slice(),
        spare: STORE,
    };
    let answer = patterns::unit_word(line.head.text.as_slice(), lent.front(room));
    let left = lent.left(room);
    let (refusal, expected) = if left.is_short {
        (TOO_SHORT, NO_WORD)
    } else {
        (line.head.refusal, line.word_len)
    };
    let len = answer.ok().flatten();
    Report::of_each(
        Compared::UnitWord,
        &[
            answer.err() == refusal,
            len.is_some() == expected.is_there,
            len.unwrap_or(0) == expected.value,
            left.is_right(),
        ],
    )
}

// The unit's word in every room. If there is none, any room is enough, and the call is lent room to spare.
fn compare_word(line: &Line) -> Report<Compared> {
    let rooms: &[Room] = if line.word.is_empty() {
        &[Room::Spare]
    } else {
        &ROOMS
    };
    let mut report = Report::new();
    for room in rooms {
        report = report.and(compare_word_in(line, *room));
    }
    report
}

// Every answer for the text of a line, compared with the line.
pub fn compare_line(alloc: Global, line: &[u8]) -> Result<Report<Compared>, LineError> {
    let line = Line::parse(alloc, line)?;
    Ok(
        compare_shapes(&line)
            .and(compare_digits(&line))
            .and(compare_time(&line))
            .and(compare_unit(&line))
            .and(compare_word(&line)),
    )
}
