// Arithmetic modulo the prime p on residues, u32 numbers below p: sum, difference, product, inverse and sums of products. Leaves
// for the crates above, which meet what each requires.
#![tactic(auto)]

pub mod arith;
pub mod sums;
