// The lines of a run, written to standard output.
ghost use Rattle.std.specs.Prelude.{◌<◌};

use super::counts::Tally;
use super::{lent, told};
use std::fmt::Display;
use std::io;

pub fn print_text(out: &impl Print, text: &[u8]) -> io::Result<()> {
    out.write_all(text)
}

// A space and the number in decimal, with a leading minus where it is below 0.
pub fn print_number<T: Display + Drop>(out: &impl Print, number: T) -> io::Result<()> {
    print!(out; " {number}")
}

// The name and the words behind it.
pub fn print_words(out: &impl Print, name: &[u8], words: &[u32]) -> io::Result<()> {
    print_text(out, name)?;
    for word in words {
        print_number(out, *word)?;
    }
    Ok(())
}

// The line's end.
pub fn print_end(out: &impl Print) -> io::Result<()> {
    print_text(out, b"\n")
}

// The line of a count.
pub fn print_count(out: &impl Print, name: &[u8], tally: &Tally, place: usize) -> io::Result<()>
    requires { place < 16 }
{
    print_text(out, name)?;
    print_number(out, tally.at(place))?;
    print_end(out)
}

// The start of an example's line: the call, what is tried, and the number of the answer.
pub fn print_example(out: &impl Print, call: &[u8], name: &[u8], number: u32) -> io::Result<()> {
    print_text(out, b"example ")?;
    print_text(out, call)?;
    print_text(out, name)?;
    print_number(out, number)
}

// Says it where a refusal touched lent memory.
pub fn print_touched(out: &impl Print, number: u32, is_untouched: bool) -> io::Result<()> {
    if told::is_refused(number) && !is_untouched {
        print_text(out, b" touched")?;
    }
    Ok(())
}

// The same of words that were filled with that word.
pub fn print_touched_words(
    out: &impl Print,
    number: u32,
    words: &[u32],
    word: u32,
) -> io::Result<()> {
    print_touched(out, number, lent::are_untouched(words, word))
}
