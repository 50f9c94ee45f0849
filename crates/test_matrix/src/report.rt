// What the run counts, the answers as numbers, and the lines of the stored cases.
use checks::Refusal;
use std::io;
use test_support::counts::Tally;
use test_support::output;

// The places of the counts.
pub const CASES: usize = 0;

pub const QUASIINVERSES: usize = 1;

pub const KERNELS: usize = 2;

pub const SOLVED: usize = 3;

pub const INSOLUBLE: usize = 4;

pub const FITS: usize = 5;

pub const OWN: usize = 6;

pub const ACCEPTED: usize = 7;

pub const NOT_INNER: usize = 8;

pub const NOT_OUTER: usize = 9;

// The place of a system by its answer.
pub fn solve_place(answer: Result<u32, Refusal>) -> usize {
    match answer {
        Err(Refusal::Insoluble) => INSOLUBLE,
        _ => SOLVED,
    }
}

// The place of a check by its answer.
pub fn check_place(answer: Result<u32, Refusal>) -> usize {
    match answer {
        Err(Refusal::NotInner) => NOT_INNER,
        Err(Refusal::NotOuter) => NOT_OUTER,
        _ => ACCEPTED,
    }
}

pub fn print_cases(out: &impl Print, tally: &Tally) -> io::Result<()> {
    output::print_count(out, b"cases", tally, CASES)?;
    output::print_count(out, b"quasiinverses", tally, QUASIINVERSES)?;
    output::print_count(out, b"kernels", tally, KERNELS)?;
    output::print_count(out, b"solved", tally, SOLVED)?;
    output::print_count(out, b"insoluble", tally, INSOLUBLE)?;
    output::print_count(out, b"fits", tally, FITS)?;
    output::print_count(out, b"own", tally, OWN)?;
    output::print_count(out, b"accepted", tally, ACCEPTED)?;
    output::print_count(out, b"refused-17", tally, NOT_INNER)?;
    output::print_count(out, b"refused-18", tally, NOT_OUTER)
}
