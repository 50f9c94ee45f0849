// What the run counts, the answers as numbers, and the lines of the stored calls.
use checks::Refusal;
use std::io;
use test_support::counts::Tally;
use test_support::output;

// The places of the counts.
pub const CASES: usize = 0;

pub const CLASHES: usize = 1;

pub const CLEAR: usize = 2;

pub const REFUSED_1: usize = 3;

pub const REFUSED_2: usize = 4;

pub const REFUSED_12: usize = 5;

pub const REFUSED_3: usize = 6;

pub const REFUSED_4: usize = 7;

// The place of a call by its answer.
pub fn place_of(answer: Result<u32, Refusal>) -> usize {
    match answer {
        Err(Refusal::Modulus) => REFUSED_1,
        Err(Refusal::Size) => REFUSED_2,
        Err(Refusal::Words) => REFUSED_12,
        Err(Refusal::Length) => REFUSED_3,
        Err(Refusal::Number) => REFUSED_4,
        Ok(0) => CLEAR,
        _ => CLASHES,
    }
}

pub fn print_cases(out: &impl Print, tally: &Tally) -> io::Result<()> {
    output::print_count(out, b"cases", tally, CASES)?;
    output::print_count(out, b"clashes", tally, CLASHES)?;
    output::print_count(out, b"clear", tally, CLEAR)?;
    output::print_count(out, b"refused-1", tally, REFUSED_1)?;
    output::print_count(out, b"refused-2", tally, REFUSED_2)?;
    output::print_count(out, b"refused-12", tally, REFUSED_12)?;
    output::print_count(out, b"refused-3", tally, REFUSED_3)?;
    output::print_count(out, b"refused-4", tally, REFUSED_4)
}
