// The echelon form of a table by forward elimination: its rank, its reduced form, and solutions of its systems, without a
// quasiinverse. The table is read in place. Leaves for the crates above, which meet what each requires.
#![tactic(auto)]

pub mod forward;
pub mod group;
pub mod pivots;
pub mod reduced;
pub mod worked;

// A table that is read in place: entry (row i, column j) stands at start + i × down + j × along. With down 1 and along the length
// of a row a table is read turned.
#[derive(Clone, Copy)]
pub struct Grid {
    pub start: usize,
    pub down: usize,
    pub along: usize,
    pub rows: usize,
    pub columns: usize,
}
