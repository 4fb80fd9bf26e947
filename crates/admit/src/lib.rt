// The refusals, and the tests of a text, which are those that every call makes first.
#![tactic(auto)]

ghost use Rattle.std.specs.Prelude.{◌≡◌};
ghost use Rattle.lists.specs.Bytes.{all};
ghost use Rattle.lists.specs.Classes.{ascii};
ghost use Rattle.admit.specs.Utf8.{utf8};
ghost use Rattle.admit.specs.Refusals.{refusal_number, answer_number, ascii_text, control_rank, has_control, text_limit, text_refusal};

use lists::{ByteClass, all};

// The most bytes that a text may have.
pub const TEXT_LIMIT: usize = 65536;

// A text of at most this many bytes is tested byte by byte first.
const SHORT_TEXT: usize = 12;

// Why a call is held back (document 01, "Calls held back", and document 02), and its number.
#[derive(Clone, Copy, Debug, PartialEq, Eq)]
pub enum Refusal {
    // over-long sheet
    TextTooLong = 1,
    // broken thread
    NotUtf8 = 2,
    // no such carriage
    NoSuchEntry = 3,
    // long entry
    NameTooLong = 4,
    // short bar
    BufferTooShort = 5,
    // document 02, A3: a line printer's code on the sheet
    ControlByte = 6,
}

// Its number, from which C learns of it.
impl From<Refusal> for u8 {
    ghost from_gives = { λ refusal number. number ≡ refusal_number refusal };

    fn from(refusal: Refusal) -> u8 {
        refusal as u8
    }
}

// Whether b is ASCII and no control byte. If 1 is added, 0x7F and the bytes above it are no positive signed numbers, so one
// comparison shuts out these and what is below the space.
fn is_ascii_text(b: u8) -> bool
    ensures { result ≡ ascii_text b }
{
    (0x20 < b.wrapping_add(1).cast_signed()) | (b == b'\t') | (b == b'\n') | (b == b'\r')
}

#[derive(Clone, Copy)]
struct AsciiText;

impl ByteClass for AsciiText {
    ghost contains = { λ _. ascii_text };

    fn contains(self, b: u8) -> bool {
        is_ascii_text(b)
    }
}

// A number that is below the space exactly if b is a control byte.
fn control_rank(b: u8) -> u8
    ensures { result ≡ control_rank b }
{
    if (b == b'\t') | (b == b'\n') | (b == b'\r') {
        b' '
    } else if b == 0x7F {
        0
    } else {
        b
    }
}

// Whether every byte is ASCII, and whether there is a control byte. The fold keeps two bytes and has no early exit, so that the
// compiler can test many bytes at once.
fn survey(s: &[u8]) -> (bool, bool)
    ensures { result ≡ (all ascii s.now, has_control s.now) }
{
    let (highest, lowest) = s.iter().fold((0, 0xFF), |(highest, lowest): (u8, u8), b| {
        (highest.max(*b), lowest.min(control_rank(*b)))
    });
    (highest < 0x80, lowest < b' ')
}

// Whether s is UTF-8, if it is known whether it is ASCII. Most texts are, and the fast pass is enough for these.
fn is_utf8(s: &[u8], is_ascii: bool) -> bool
    requires { is_ascii ≡ all ascii s.now }
    ensures { result ≡ utf8 s.now }
{
    is_ascii || str::from_utf8(s).is_ok()
}

// The tests of one text, in their order: its length, and then its bytes.
pub fn admit(limit: usize, s: &[u8]) -> Result<(), Refusal>
    ensures { answer_number result ≡ text_refusal limit s.now }
{
    if limit < s.len() {
        return Err(Refusal::TextTooLong);
    }
    let (is_ascii, has_control) = survey(s);
    if !is_utf8(s, is_ascii) {
        return Err(Refusal::NotUtf8);
    }
    if has_control {
        return Err(Refusal::ControlByte);
    }
    Ok(())
}

// The tests of a text of any length.
fn admit_any(s: &[u8]) -> Result<(), Refusal>
    ensures { answer_number result ≡ text_refusal text_limit s.now }
{
    admit(TEXT_LIMIT, s)
}

// The tests of a text. For a short ASCII text a few instructions are enough, and the compiler puts them into each caller.
// It leaves `admit_any` out of there, because that is called at two places.
pub fn admit_text(s: &[u8]) -> Result<(), Refusal>
    ensures { answer_number result ≡ text_refusal text_limit s.now }
{
    if s.len() <= SHORT_TEXT {
        if all(s, AsciiText) {
            return Ok(());
        }
        return admit_any(s);
    }
    admit_any(s)
}
