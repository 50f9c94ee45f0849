// A board in memory: where its words stand, the test whether words are a board, and how the words change. What the standing rows
// say is found in `board_solve`; the calls stand in `board_calls`.
#![tactic(auto)]

pub mod change;
pub mod layout;
pub mod test;
