// The groups: which control cells are on in each, by the passes of document 01 over an accepted board.
#![tactic(auto)]

pub mod degrees;
pub mod groups;
pub mod order;
pub mod turns;
