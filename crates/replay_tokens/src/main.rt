// Replays tokens.txt, the recorded tokens and sentence starts of the Rust, and says how many answers of the crates tokens and
// sentences differ.
#![tactic(auto)]

mod answers;
mod compared;
mod line;
mod steps;

use answers::compare_line;
use recorded::replay::replay;
use std::io;

fn main(rt: HostRuntime) -> io::Result<()> {
    match replay(&rt, "tokens.txt", compare_line)? {
        Some(tally) => tally.say(&rt, "tokens.txt"),
        None => Ok(()),
    }
}
