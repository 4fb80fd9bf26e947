// A lent buffer: what fills it before a call, how much of it is lent, and what the call leaves in it.
ghost use Rattle.std.specs.Prelude.{◌≡◌, ◌≢◌, ◌↔◌, ◌<◌, ◌++◌, ℕ, List, length, All, Any, Err, IsTrue, OnOk, if◌then◌else◌};
ghost use Rattle.std.specs.Int.{to_le_bytes, w32};

use crate::fields::{Answer, LineError};
use crate::tally::Report;
use admit::Refusal;

// What fills a buffer before a call.
pub const GUARD: u8 = 0xA5;

// The refusal of a call whose buffer is too short, where refusals are compared by themselves.
pub const TOO_SHORT: Option<Refusal> = Some(Refusal::BufferTooShort);

// How much of a buffer a call is lent.
#[derive(Clone, Copy, Debug, PartialEq, Eq)]
pub enum Room {
    Spare,
    JustEnough,
    // A byte too few.
    Short,
}

// The rooms of a call that has one buffer.
pub const ROOMS: [Room; 3] = [Room::Spare, Room::JustEnough, Room::Short];

// A buffer to lend to a call.
#[derive(Drop)]
pub struct Lent<'a> {
    pub buffer: &'a mut [u8],
    // What the call is to leave in it.
    pub bytes: &'a [u8],
    // How many bytes more are room to spare.
    pub spare: usize,
}

// What a call left in a buffer.
#[derive(Clone, Copy, Debug, PartialEq, Eq)]
pub struct Left {
    // Whether the room was too short for the bytes.
    pub is_short: bool,
    is_unwritten: bool,
    has_just_its_bytes: bool,
}

impl Room {
    // How many bytes are lent for a result of `needed` bytes.
    fn size(self, needed: usize, spare: usize) -> usize
        ensures { (result < needed) ↔ ((self ≡ Room.Short) × (needed ≢ 0)) }
    {
        match self {
            Room::Spare => needed.saturating_add(spare),
            Room::JustEnough => needed,
            Room::Short => needed.saturating_sub(1),
        }
    }

    // Whether a result of `needed` bytes does not fit.
    fn is_short(self, needed: usize) -> bool
        ensures { IsTrue result ↔ ((self ≡ Room.Short) × (needed ≢ 0)) }
    {
        self == Room::Short && needed != 0
    }
}

impl Left {
    // Whether the buffer is as it is to be if no other is too short.
    pub fn is_right(self) -> bool
        ensures { result ≡ (if self.is_short then self.is_unwritten else self.has_just_its_bytes) }
    {
        if self.is_short {
            self.is_unwritten
        } else {
            self.has_just_its_bytes
        }
    }
}

// Whether no byte was written since the buffer was filled.
fn is_unwritten(buffer: &[u8]) -> bool
    ensures { IsTrue result ↔ All (λ b. b ≡ GUARD) buffer.now }
{
    buffer.iter().all(|b| *b == GUARD)
}

// Whether the bytes are at the buffer's front, and no byte past them was written.
fn has_just(buffer: &[u8], bytes: &[u8]) -> bool
    ensures { IsTrue result ↔ ((rest : List ℕ) × (buffer.now ≡ bytes.now ++ rest) × All (λ b. b ≡ GUARD) rest) }
{
    match buffer.strip_prefix(bytes) {
        Some(rest) => is_unwritten(rest),
        None => false,
    }
}

// Puts a number as a table has it: four bytes, the lowest first.
pub fn put_number(n: usize, table: &mut Vec<u8>) -> Result<(), LineError>
    ensures { OnOk result (table.new.items ≡ table.old.items ++ to_le_bytes w32 n) }
{
    let bytes = u32::try_from(n)?.to_le_bytes();
    table.extend_from_slice(&bytes)?;
    Ok(())
}

impl Lent<'_> {
    // Fills the buffer, and lends its front.
    pub fn front(&mut self, room: Room) -> &mut [u8]
        ensures { room ≡ Room.Short → length self.old.bytes.now ≢ 0 → length result.now < length self.old.bytes.now }
    {
        self.buffer.fill(GUARD);
        let size = room.size(self.bytes.len(), self.spare);
        let lent = size.min(self.buffer.len());
        &mut self.buffer[..lent]
    }

    // What a call that was lent this room left.
    pub fn left(&self, room: Room) -> Left
        ensures short { IsTrue result.is_short ↔ ((room ≡ Room.Short) × (length self.now.bytes.now ≢ 0)) }
        ensures unwritten { IsTrue result.is_unwritten ↔ All (λ b. b ≡ GUARD) self.now.buffer.now }
        ensures just { IsTrue result.has_just_its_bytes
            ↔ ((rest : List ℕ) × (self.now.buffer.now ≡ self.now.bytes.now ++ rest) × All (λ b. b ≡ GUARD) rest) }
    {
        Left {
            is_short: room.is_short(self.bytes.len()),
            is_unwritten: is_unwritten(self.buffer),
            has_just_its_bytes: has_just(self.buffer, self.bytes),
        }
    }

    // Compares a call that is lent this buffer alone, in each of these rooms. Here and in each other function that takes a
    // closure, `requires` says that it can be called: only where a closure is passed can that be known.
    pub fn compare<W, T, F>(
        &mut self,
        rooms: &[Room],
        what: W,
        expected: Answer<T>,
        call: F,
    ) -> Report<W>
    where
        W: Copy,
        T: PartialEq + Drop,
        F: Fn(&mut [u8]) -> Answer<T> + Drop,
        requires { F.IsAlwaysCallable call }
    {
        let mut report = Report::new();
        for room in rooms {
            let answer = call(self.front(*room));
            let agrees = is_given(answer, &expected, &[self.left(*room)]);
            report = report.and(Report::of(what, agrees));
        }
        report
    }
}

// Whether a call answered what is expected and left just its bytes in each buffer. If one was too short, the call is to be
// refused and to write nothing.
pub fn is_given<T: PartialEq + Drop>(answer: Answer<T>, expected: &Answer<T>, left: &[Left]) -> bool
    ensures short { Any (λ l. IsTrue l.is_short) left.now →
        (IsTrue result ↔ ((answer ≡ Err Refusal.BufferTooShort) × All (λ l. IsTrue l.is_unwritten) left.now)) }
    ensures fits { (Any (λ l. IsTrue l.is_short) left.now → ⊥) → IsTrue result → All (λ l. IsTrue l.has_just_its_bytes) left.now }
{
    if left.iter().any(|left| left.is_short) {
        return answer == Err(Refusal::BufferTooShort) && left.iter().all(|left| left.is_unwritten);
    }
    answer == *expected && left.iter().all(|left| left.has_just_its_bytes)
}
