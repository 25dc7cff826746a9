// The board: refusals 10 and 11, of its control cells, and the verdict on a file.
#![tactic(auto)]

pub mod controls;
pub mod verdict;
