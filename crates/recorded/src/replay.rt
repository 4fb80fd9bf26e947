// A file of recorded lines, each compared.
ghost use Rattle.std.specs.Prelude.{◌≡◌, ◌+◌, ◌-◌, ◌^◌, min, IfOk};

use crate::fields::LineError;
use crate::tally::{Report, Tally};
use std::alloc::{AllocError, Global};
use std::fmt::Display;
use std::fs::File;
use std::io;
use std::io::{ErrorKind, Read};
use std::rt::Files;

// The reader takes at most this many bytes, so a file that fills them may be longer.
const TOO_LONG: u64 = 524_296;

// The file's bytes, nothing if they are not whole lines. A line says why.
fn load<R: Files + Print + AllocGlobal>(rt: &R, name: &str) -> io::Result<Option<Vec<u8>>> {
    let Ok(file) = File::open(rt, name) else {
        println!(rt; "{name}: cannot be opened")?;
        return Ok(None);
    };
    let mut bytes = Vec::new(rt.alloc());
    match file.take(TOO_LONG).read_to_end(&mut bytes) {
        Err(error) if error.kind() == ErrorKind::OutOfMemory => return Err(error),
        // A read that fails ends the file.
        Ok(_) | Err(_) => {}
    }
    if bytes.len() as u64 == TOO_LONG {
        println!(rt; "{name}: too long")?;
        return Ok(None);
    }
    if !bytes.ends_with(b"\n") {
        println!(rt; "{name}: its last line does not end")?;
        return Ok(None);
    }
    bytes.pop();
    Ok(Some(bytes))
}

// Counts a text that was compared. A malformed one counts as an answer that differs.
pub fn add<W: Copy + Display>(
    rt: &impl Print,
    tally: &mut Tally,
    compared: Result<Report<W>, LineError>,
) -> io::Result<()>
    ensures answers { IfOk compared (λ report. tally.new.answers ≡ min (tally.old.answers + report.answers) (2 ^ 64 - 1)) }
    ensures differ { IfOk compared (λ report. tally.new.differ ≡ min (tally.old.differ + report.differ) (2 ^ 64 - 1)) }
{
    match compared {
        Ok(report) => tally.add(rt, report),
        Err(LineError::Malformed) => tally.add(rt, Report::of("malformed", false)),
        Err(LineError::OutOfMemory) => Err(io::Error::from(AllocError)),
    }
}

// Compares every line of the file, and gives the tally. If the file can't be read whole, it only says why. The file is let go
// before a text at the limit takes memory.
pub fn replay<R, W, F>(rt: &R, name: &str, compare_line: F) -> io::Result<Option<Tally>>
where
    R: Files + Print + AllocGlobal,
    W: Copy + Display,
    F: Fn(Global, &[u8]) -> Result<Report<W>, LineError>,
    requires { F.IsAlwaysCallable compare_line }
{
    let Some(lines) = load(rt, name)? else {
        return Ok(None);
    };
    let mut tally = Tally::default();
    for line in lines.split(|b| *b == b'\n') {
        add(rt, &mut tally, compare_line(rt.alloc(), line))?;
    }
    Ok(Some(tally))
}
