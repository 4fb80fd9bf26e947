// Reads a sheet from standard input, up to 4,096 bytes of it, and writes its call sheet, or one line with the refusal's number.
#![tactic(auto)]

ghost use Rattle.std.specs.Prelude.{◌≡◌, ◌⊎◌, ◌+◌, ◌*◌, ◌≤◌, List, ℕ, length, take, OnOk};
ghost use Rattle.std.specs.Io.KnownBytes.{Appends, Consumes, IsAtEnd};
ghost use Rattle.admit.specs.Refusals.{refusal_number};
ghost use Rattle.admit.specs.declared.Refusal.TheVariants.{NotUtf8, ControlByte};
ghost use Rattle.callsheet.specs.Reply.{sheet_limit, ReadsSheet, refused_line, reply};

use admit::Refusal;
use calls::call_sheet;
use lists::front;
use std::io;
use std::io::{Read, Write};

// Only a sheet that isn't UTF-8 or has a control byte is refused: the sheets read here are too short for numbers 1 and 4, and the
// buffer has room.
fn write_refusal<W: Write>(output: &mut W, refusal: Refusal) -> io::Result<()>
    requires { (refusal ≡ NotUtf8) ⊎ (refusal ≡ ControlByte) }
    ensures { OnOk result (Appends (W.contents output.old) (W.contents output.new) (refused_line (refusal_number refusal))) }
{
    let number = u8::from(refusal);
    // `writeln!` would write the line in three parts, and who reads it or writes beside it could come between them.
    let mut line = *b"refused 0\n";
    line[8] += number;
    output.write_all(&line)
}

// The buffer has room for the call sheet, whatever the sheet.
fn write_call<W: Write>(output: &mut W, sheet: &[u8], out: &mut [u8]) -> io::Result<()>
    requires { (length sheet.now ≤ sheet_limit) × (11 * (length sheet.now + 1) ≤ length out.old) }
    ensures { OnOk result (Appends (W.contents output.old) (W.contents output.new) (reply sheet.now)) }
{
    match call_sheet(sheet, out) {
        Ok(called) => output.write_all(front(out, called.bytes)),
        Err(refusal) => write_refusal(output, refusal),
    }
}

// Reads until the sheet is full, the input ends or a read fails. Answers how many bytes it put at the front, and whether a read
// failed. What follows in the input stays unread. std has no such call: read_exact does not say how much it put, and read_to_end
// needs a Vec.
fn read_full<R: Read>(input: &mut R, sheet: &mut [u8]) -> (usize, io::Result<()>)
    ensures within { result.0 ≤ length sheet.new }
    ensures bytes { Consumes (R.remaining input.old) (R.remaining input.new) (take result.0 sheet.new) }
    ensures whole { OnOk result.1 ((result.0 ≡ length sheet.new) ⊎ IsAtEnd (R.remaining input.new)) }
{
    let mut done = 0;
    while done < sheet.len() {
        match input.read(&mut sheet[done..]) {
            Ok(0) => return (done, Ok(())),
            Ok(n) => done += n,
            Err(e) => return (done, Err(e)),
        }
    }
    (done, Ok(()))
}

// Room for the call of every sheet of 4,096 bytes. An array, because the project uses no heap.
fn room() -> [u8; 45067] {
    [0; 45067]
}

// Reads a sheet and writes its reply. Answers whether a read failed, and whether a write did.
fn run<R: Read, W: Write>(input: &mut R, output: &mut W) -> (io::Result<()>, io::Result<()>)
    ensures { (s : List ℕ)
        × ReadsSheet (R.remaining input.old) (R.remaining input.new) result.0 s
        × OnOk result.1 (Appends (W.contents output.old) (W.contents output.new) (reply s)) }
{
    // The sheet is no `Vec` for the same reason as the room.
    let mut sheet = [0; 4096];
    let (n, reading) = read_full(input, &mut sheet);
    let mut out = room();
    (reading, write_call(output, front(&sheet, n), &mut out))
}

// A read that fails ends the sheet, as the end of the input does.
fn main(rt: HostRuntime) -> io::Result<()> {
    let (_, writing) = run(&mut rt.stdin(), &mut rt.stdout());
    writing
}
