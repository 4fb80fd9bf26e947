// What every line begins with: a text, and the refusal of that text.
ghost use Rattle.std.specs.Prelude.{◌≤◌, vec_len, IfOk};

use crate::fields::{LineError, byte_of, bytes_of, number, refusal};
use admit::Refusal;
use std::alloc::Global;

// No text of a line is longer: as long as a table of 65,537 words, one more than the longest text has bytes.
pub const LONGEST: usize = 524_296;

#[derive(Drop)]
pub struct Head {
    pub text: Vec<u8>,
    // Why it is refused, if it is.
    pub refusal: Option<Refusal>,
}

// The text of `count` times a byte and what follows.
fn text_of(alloc: Global, count: usize, byte: u8, tail: &[u8]) -> Result<Vec<u8>, LineError>
    ensures { IfOk result (λ text. vec_len text ≤ LONGEST) }
{
    if LONGEST < count.saturating_add(tail.len()) {
        return Err(LineError::Malformed);
    }
    let mut text = vec![in alloc; byte; count]?;
    text.extend_from_slice(tail)?;
    Ok(text)
}

impl Head {
    // The fields REPEAT BYTE TAIL REFUSAL: the text is BYTE repeated, and then TAIL.
    pub fn parse(alloc: Global, fields: &[&[u8]]) -> Result<Head, LineError>
        ensures { IfOk result (λ head. vec_len head.text ≤ LONGEST) }
    {
        let [repeat, byte, tail, number_of_refusal] = fields else {
            return Err(LineError::Malformed);
        };
        let tail = bytes_of(alloc, tail)?;
        let refusal = refusal(number_of_refusal)?;
        if !matches!(
            refusal,
            None | Some(Refusal::TextTooLong | Refusal::NotUtf8 | Refusal::ControlByte)
        ) {
            return Err(LineError::Malformed);
        }
        Ok(Head {
            text: text_of(alloc, number(repeat)?, byte_of(byte)?, tail.as_slice())?,
            refusal,
        })
    }
}
