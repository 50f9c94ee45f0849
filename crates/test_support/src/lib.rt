// What the test programs share: they read stored cases from standard input, lend memory filled with a known word to the calls,
// compare, count and print.
#![tactic(auto)]

pub mod counts;
pub mod input;
pub mod lent;
pub mod output;
pub mod told;
