// What the run counts, the answers as numbers, and the lines that it prints.
use board_calls::Taken;
use checks::Refusal;
use std::io;
use test_support::counts::Tally;
use test_support::output;
use test_support::told::Told;

// The places of the counts.
pub const HISTORIES: usize = 0;

pub const TAKES: usize = 1;

pub const NEW: usize = 2;

pub const REPEAT: usize = 3;

pub const CONFLICT: usize = 4;

// Takes that were refused otherwise.
pub const REFUSED: usize = 5;

pub const WITHDRAWALS: usize = 6;

pub const SHOWS: usize = 7;

pub const TAMPERED: usize = 8;

// Histories whose open was refused.
pub const UNOPENED: usize = 9;

pub fn open_told(answer: Result<(), Refusal>) -> Told {
    match answer {
        Ok(()) => Told {
            number: 0,
            value: 0,
        },
        Err(kind) => Told::from(kind),
    }
}

pub fn take_told(answer: Result<Taken, Refusal>) -> Told {
    match answer {
        Ok(Taken::New(count)) => Told {
            number: 0,
            value: count,
        },
        Ok(Taken::Repeat(count)) => Told {
            number: 100,
            value: count,
        },
        Err(kind) => Told::from(kind),
    }
}

// The place of an open by its answer.
pub fn open_place(answer: Result<(), Refusal>) -> usize {
    match answer {
        Ok(()) => HISTORIES,
        Err(_) => UNOPENED,
    }
}

// The place of a take by its answer.
pub fn take_place(answer: Result<Taken, Refusal>) -> usize {
    match answer {
        Ok(Taken::New(_)) => NEW,
        Ok(Taken::Repeat(_)) => REPEAT,
        Err(Refusal::Conflict) => CONFLICT,
        Err(_) => REFUSED,
    }
}

// The name and the signed numbers behind it.
pub fn print_numbers(out: &impl Print, name: &[u8], numbers: &[i32]) -> io::Result<()> {
    output::print_text(out, name)?;
    for number in numbers {
        output::print_number(out, *number)?;
    }
    Ok(())
}

// The lines of the takes.
fn print_takes(out: &impl Print, tally: &Tally) -> io::Result<()> {
    output::print_count(out, b"takes", tally, TAKES)?;
    output::print_count(out, b"new", tally, NEW)?;
    output::print_count(out, b"repeat", tally, REPEAT)?;
    output::print_count(out, b"conflict", tally, CONFLICT)?;
    output::print_count(out, b"refused", tally, REFUSED)
}

// The lines of the stored calls.
pub fn print_calls(out: &impl Print, tally: &Tally) -> io::Result<()> {
    output::print_count(out, b"histories", tally, HISTORIES)?;
    output::print_count(out, b"unopened", tally, UNOPENED)?;
    print_takes(out, tally)?;
    output::print_count(out, b"withdrawals", tally, WITHDRAWALS)?;
    output::print_count(out, b"shows", tally, SHOWS)?;
    output::print_count(out, b"tampered", tally, TAMPERED)
}
