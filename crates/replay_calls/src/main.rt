// Replays calls.txt, the recorded call sheets and verdicts of the Rust, and says how many answers of the crates calls and clear
// differ.
#![tactic(auto)]

mod answers;
mod compared;
mod limit;
mod line;

use answers::compare_line;
use limit::compare_limit;
use recorded::replay::{add, replay};
use std::io;

fn main(rt: HostRuntime) -> io::Result<()> {
    let Some(mut tally) = replay(&rt, "calls.txt", compare_line)? else {
        return Ok(());
    };
    add(&rt, &mut tally, compare_limit(rt.alloc()))?;
    tally.say(&rt, "calls.txt and the limit")
}
