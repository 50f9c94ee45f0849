// Algorithm Q of document 001 on tables in memory: what the call quasiinverse stands on. Leaves for the crates above,
// which meet what each requires.
#![tactic(auto)]

pub mod eliminate;
