// The sheet: document 01's program. It reads p, n and frames from standard input and prints a line for each frame as soon as the
// frame has come, then the records and how many frames are missing. What is a cut header or frame is sheet_text's, what is written
// of a frame and at the end sheet_heat's. This crate reads, lends memory and writes: of every input that is no longer than its budget
// of frames what it writes is 01's sheet.
#![tactic(auto)]

ghost use Rattle.std.specs.Prelude.{OnOk};
ghost use Rattle.sheet_heat.specs.Sheet.{sheet_of};
ghost use Rattle.sheet.specs.Program.{Prints};

mod frames;
mod heat;
mod input;
mod lines;

use input::UntilFailure;
use std::io;
use std::io::{Read, Write};
use words::filled;

// Reads the whole input and writes its sheet.
fn run<R: Read, W: Write>(input: &mut R, output: &mut W) -> io::Result<()>
    ensures { OnOk result (Prints (R.remaining input.old) (W.contents output.old) (W.contents output.new) sheet_of) }
{
    let mut bytes: [u8; 5] = filled(0);
    let came = input::read_full(input, &mut bytes)?;
    match sheet_text::header(&bytes[..came]) {
        Ok((p, n)) => heat::open(input, output, p, n),
        Err(kind) => lines::refused(output, kind),
    }
}

fn main(rt: HostRuntime) -> io::Result<()> {
    run(&mut UntilFailure(rt.stdin()), &mut rt.stdout())
}
