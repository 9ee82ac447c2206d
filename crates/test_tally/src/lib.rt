// What the programs that run the values on record share: a count of comparisons, parts of slices, and words and rows written as text.
#![tactic(auto)]

pub mod parts;
pub mod tally;
pub mod words;
