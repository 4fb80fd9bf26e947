// Replays patterns.txt, the recorded answers of the Rust, and says how many answers of the crate patterns differ.
#![tactic(auto)]

mod answers;
mod compared;
mod line;

use answers::compare_line;
use recorded::replay::replay;
use std::io;

fn main(rt: HostRuntime) -> io::Result<()> {
    match replay(&rt, "patterns.txt", compare_line)? {
        Some(tally) => tally.say(&rt, "patterns.txt"),
        None => Ok(()),
    }
}
