// Words of whole numbers, given to the writing layer: digits one by one, cardinal and ordinal numbers.
#![tactic(auto)]

pub mod digit_values;
pub mod held;
pub mod number;
pub mod saying;
