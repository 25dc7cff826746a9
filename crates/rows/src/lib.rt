// Rows: a set of cells as bytes, the rows of the groups, and the row of a vector.
#![tactic(auto)]

pub mod bytes;
pub mod groups;
pub mod vectors;
