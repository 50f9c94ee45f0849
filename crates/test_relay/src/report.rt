// What the run counts, the answers as numbers, and the lines of the stored calls.
use board_calls::Taken;
use checks::Refusal;
use std::io;
use test_support::counts::Tally;
use test_support::output;

// The places of the counts.
pub const BOARDS: usize = 0;

pub const CALLS: usize = 1;

pub const DONE: usize = 2;

pub const REFUSED_11: usize = 3;

pub const REFUSED_3: usize = 4;

pub const REFUSED_4: usize = 5;

pub const REFUSED_15: usize = 6;

pub const REPEATS: usize = 7;

pub const READS: usize = 8;

// The length of the frame that a number tells of; a refusal has none.
pub fn length_of(number: u32) -> usize {
    if number < 200 {
        return 0;
    }
    (number - 200) as usize
}

// Whether a take is answered repeat, with this count.
pub fn is_repeat(answer: Result<Taken, Refusal>, count: u32) -> bool {
    answer == Ok(Taken::Repeat(count))
}

// The place of a call by its answer.
pub fn place_of(answer: Result<u32, Refusal>) -> usize {
    match answer {
        Err(Refusal::NotBoard) => REFUSED_11,
        Err(Refusal::Length) => REFUSED_3,
        Err(Refusal::Number) => REFUSED_4,
        Err(Refusal::NotInSpan) => REFUSED_15,
        _ => DONE,
    }
}

pub fn print_cases(out: &impl Print, tally: &Tally) -> io::Result<()> {
    output::print_count(out, b"boards", tally, BOARDS)?;
    output::print_count(out, b"calls", tally, CALLS)?;
    output::print_count(out, b"done", tally, DONE)?;
    output::print_count(out, b"refused-11", tally, REFUSED_11)?;
    output::print_count(out, b"refused-3", tally, REFUSED_3)?;
    output::print_count(out, b"refused-4", tally, REFUSED_4)?;
    output::print_count(out, b"refused-15", tally, REFUSED_15)?;
    output::print_count(out, b"repeats", tally, REPEATS)?;
    output::print_count(out, b"reads", tally, READS)
}
