// Replays numbers.txt, the recorded readings of the Rust, and says how many answers of the crate numbers differ.
#![tactic(auto)]

mod answers;
mod compared;
mod limit;
mod line;
mod words;

use answers::compare_line;
use limit::compare_limit;
use recorded::replay::{add, replay};
use std::io;

fn main(rt: HostRuntime) -> io::Result<()> {
    let Some(mut tally) = replay(&rt, "numbers.txt", compare_line)? else {
        return Ok(());
    };
    add(&rt, &mut tally, compare_limit(rt.alloc()))?;
    tally.say(&rt, "numbers.txt and the limit")
}
