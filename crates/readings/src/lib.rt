// Readings: for each cell, the net whose own word it reads in every vector of a capture, if there is one.
#![tactic(auto)]

pub mod codes;
pub mod scan;
pub mod walk;
