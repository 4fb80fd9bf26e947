// What the programs that replay recorded answers share. It demands nothing of its caller, but that a closure can be called.
#![tactic(auto)]

pub mod buffer;
pub mod fields;
pub mod head;
pub mod replay;
pub mod tally;
