// What the run counts, the answers as numbers, and the lines of the stored cases.
use std::io;
use test_support::counts::Tally;
use test_support::{counts, output, told};

// The places of the counts: that of the calls that are done, those of the refusals by their numbers, 1 to 12, and two more.
pub const DONE: usize = 0;

pub const FRAMES: usize = 13;

pub const REWRITTEN: usize = 14;

// The place of an answer by its number.
pub fn place(number: u32) -> usize {
    if told::is_refused(number) {
        number as usize
    } else {
        DONE
    }
}

// The line of a refusal that occurred.
fn print_refused(out: &impl Print, number: u32, n: u32) -> io::Result<()> {
    if n != 0 {
        output::print_text(out, b"refused")?;
        output::print_number(out, number)?;
        output::print_number(out, n)?;
        output::print_end(out)?;
    }
    Ok(())
}

fn print_refusals(out: &impl Print, tally: &Tally) -> io::Result<()> {
    for number in 1..13 {
        print_refused(out, number as u32, tally.at(number))?;
    }
    Ok(())
}

// The lines of the stored cases of sealing or writing, with the name of those that are done.
pub fn print_calls(out: &impl Print, done: &[u8], tally: &Tally) -> io::Result<()> {
    output::print_count(out, done, tally, DONE)?;
    print_refusals(out, tally)?;
    output::print_count(out, b"mismatches", tally, counts::MISMATCHES)
}

// The lines of the stored cases of reading.
pub fn print_cases(out: &impl Print, tally: &Tally) -> io::Result<()> {
    output::print_count(out, b"frames", tally, FRAMES)?;
    output::print_count(out, b"accepted", tally, DONE)?;
    print_refusals(out, tally)?;
    output::print_count(out, b"rewritten", tally, REWRITTEN)
}
