// The step form, compared with the recorded starts and refusals of one text.
use crate::compared::Compared;
use crate::line::Line;
use admit::Refusal;
use recorded::tally::Report;
use sentences::{RefusedStep, State, Step};

// The tokens of the text, one step each. A step breaks if its token starts a sentence, but never before the first token.
pub fn compare_steps(line: &Line) -> Report<Compared> {
    let text = line.head.text.as_slice();
    let mut state = State::fresh();
    let mut report = Report::new();
    for (k, token) in line.tokens.iter().enumerate() {
        let breaks = k != 0 && token.starts_sentence;
        let step = state.push(
            token.whitespace.of(text),
            token.name.of(text),
            token.punctuation.of(text),
        );
        let agrees = step.is_ok_and(|step| step.breaks == breaks);
        report = report.and(Report::of(Compared::Push, agrees));
        state = step.map_or_else(|refused| refused.state, |step| step.state);
    }
    report
}

// Whether the step from this state is refused so, and hands the state back. Without a refusal, whether it is accepted and its
// state is no longer fresh.
fn agrees(refusal: Option<Refusal>, state: State, step: Result<Step, RefusedStep>) -> bool {
    match step {
        Ok(step) => refusal.is_none() && step.state.fresh == 0,
        Err(refused) => refusal == Some(refused.refusal) && refused.state == state,
    }
}

// What stands beside a text in a step, and its refusal.
#[derive(Clone, Copy, Debug, PartialEq, Eq)]
struct Beside {
    text: &'static [u8],
    refusal: Option<Refusal>,
}

const BESIDE: [Beside; 3] = [
    Beside {
        text: b"",
        refusal: None,
    },
    Beside {
        text: b"\xff",
        refusal: Some(Refusal::NotUtf8),
    },
    Beside {
        text: b"\x1f",
        refusal: Some(Refusal::ControlByte),
    },
];

// The refusal of a step with a text and what stands beside it. Control bytes are tested last.
fn refusal_of(text: Option<Refusal>, beside: Option<Refusal>) -> Option<Refusal> {
    match text {
        Some(Refusal::ControlByte) => beside.or(text),
        _ => text.or(beside),
    }
}

// The text as a part of a step, in each place, from a state.
fn compare_from(line: &Line, state: State, beside: Beside) -> Report<Compared> {
    let text = line.head.text.as_slice();
    let other = beside.text;
    let refusal = refusal_of(line.head.refusal, beside.refusal);
    let places = [
        (text, other, other),
        (other, text, other),
        (other, other, text),
    ];
    let mut report = Report::new();
    for (whitespace, name, punctuation) in places {
        let step = state.push(whitespace, name, punctuation);
        report = report.and(Report::of(Compared::PushOfText, agrees(refusal, state, step)));
    }
    report
}

// A fresh state, and one that differs from it in every field.
pub fn compare_parts(line: &Line) -> Report<Compared> {
    let fresh = State::fresh();
    let fed = fresh
        .push(b" ", b"Yahoo", b".:?!")
        .map_or(fresh, |step| step.state);
    let mut report = Report::new();
    for beside in BESIDE {
        report = report
            .and(compare_from(line, fresh, beside))
            .and(compare_from(line, fed, beside));
    }
    report
}
