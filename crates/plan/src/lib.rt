// The plan: the nets' codes, the base vectors and the vectors between them, without building the sequence.
#![tactic(auto)]

pub mod boards;
pub mod codes;
pub mod numbers;
pub mod steps;
pub mod values;
