// The token table, the sentence starts and the steps of one text, compared with the recorded ones.
use crate::compared::Compared;
use crate::line::{Line, MOST};
use crate::steps::{compare_parts, compare_steps};
use recorded::buffer::{GUARD, Lent, ROOMS};
use recorded::fields::{Answer, LineError};
use recorded::tally::Report;
use std::alloc::Global;

// The size of a buffer: one record of 32 bytes more than a line can have.
const BUFFER: usize = (MOST + 1) * 32;

// A call in every room of its buffer, in which it is to leave these bytes.
fn compare_call<F>(what: Compared, line: &Line, bytes: &[u8], call: F) -> Report<Compared>
where
    F: Fn(&[u8], &mut [u8]) -> Answer<usize> + Drop,
    requires { F.IsAlwaysCallable call }
{
    let text = line.head.text.as_slice();
    let mut lent = Lent {
        buffer: &mut [GUARD; BUFFER],
        bytes,
        spare: BUFFER,
    };
    lent.compare(&ROOMS, what, line.answer, |out| call(text, out))
}

// The token table and the sentence starts.
fn compare_calls(line: &Line) -> Report<Compared> {
    let (table, starts) = (line.table.as_slice(), line.starts.as_slice());
    compare_call(Compared::Tokenize, line, table, tokens::tokenize).and(compare_call(
        Compared::Sentences,
        line,
        starts,
        sentences::sentences,
    ))
}

// Every answer about the text of a line, compared with the line.
pub fn compare_line(alloc: Global, line: &[u8]) -> Result<Report<Compared>, LineError> {
    let line = Line::parse(alloc, line)?;
    Ok(
        compare_calls(&line)
            .and(compare_steps(&line))
            .and(compare_parts(&line)),
    )
}
