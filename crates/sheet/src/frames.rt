// The frames of the input, taken one by one, each with its line. The board stays one.
ghost use Rattle.std.specs.Prelude.{◌≡◌, ℕ, List, length, IfOk, OnOk};
ghost use Rattle.ledger.specs.Board.{size_word};
ghost use Rattle.sheet_heat.specs.Calls.{SheetBoard};
ghost use Rattle.sheet.specs.Program.{Reads, Writes, FrameText, NextText, AllText};

use super::input::read_full;
use super::lines;
use board_words::layout;
use std::io;
use std::io::{Read, Write};
use words::{ROW, filled};

// Reads a frame's bytes into the lent ones, which are as many as its length says, and takes it. Answers whether it was whole.
fn take_body<R: Read, W: Write>(
    input: &mut R,
    output: &mut W,
    board: &mut [u32],
    frame: &mut [u8],
    mix: &mut [u32],
) -> io::Result<bool>
    requires { SheetBoard board.old }
    ensures sheet { SheetBoard board.new }
    ensures text { IfOk result (λ more. Reads (R.remaining input.old) (R.remaining input.new) (λ known left.
        Writes (W.contents output.old) (W.contents output.new) (λ text.
        FrameText board.old mix.old (length frame.old) known text more board.new mix.new left))) }
{
    let came = read_full(input, frame)?;
    if let Err(kind) = sheet_text::frame_body(frame.len(), came) {
        lines::refused(output, kind)?;
        return Ok(false);
    }
    lines::frame(output, board, frame, mix)?;
    Ok(true)
}

// Reads and takes the next frame. Answers whether there was one, and whole.
fn take_next<R: Read, W: Write>(
    input: &mut R,
    output: &mut W,
    board: &mut [u32],
    bytes: &mut [u8],
    mix: &mut [u32],
) -> io::Result<bool>
    requires { SheetBoard board.old × (65536 ≡ length bytes.old) }
    ensures sheet { SheetBoard board.new }
    ensures text { IfOk result (λ more. Reads (R.remaining input.old) (R.remaining input.new) (λ known left.
        Writes (W.contents output.old) (W.contents output.new) (λ text.
        NextText board.old mix.old known text more board.new mix.new left))) }
{
    let mut pair: [u8; 2] = filled(0);
    let came = read_full(input, &mut pair)?;
    match sheet_text::frame_start(&pair[..came]) {
        Ok(None) => Ok(false),
        Ok(Some(length)) => take_body(input, output, board, &mut bytes[..length], mix),
        Err(kind) => {
            lines::refused(output, kind)?;
            Ok(false)
        }
    }
}

// Takes the frames one after the other. A proved loop has to end, and nothing says that the input does, so it takes no more than
// a number of frames that no line sends: at a thousand million frames a second that takes five hundred years.
fn take_each<R: Read, W: Write>(
    input: &mut R,
    output: &mut W,
    board: &mut [u32],
    bytes: &mut [u8],
    mix: &mut [u32],
) -> io::Result<()>
    requires { SheetBoard board.old × (65536 ≡ length bytes.old) }
    ensures sheet { SheetBoard board.new }
    ensures text { OnOk result (Reads (R.remaining input.old) (R.remaining input.new) (λ known left.
        Writes (W.contents output.old) (W.contents output.new) (λ text.
        AllText board.old mix.old known text board.new))) }
{
    for _ in 0..u64::MAX {
        if !take_next(input, output, board, bytes, mix)? {
            break;
        }
    }
    Ok(())
}

// All frames, onto the board, with a mix of the board's own n words. A length has two bytes, so that every frame has room.
pub fn take_all<R: Read, W: Write>(
    input: &mut R,
    output: &mut W,
    board: &mut [u32],
) -> io::Result<()>
    requires { SheetBoard board.old }
    ensures sheet { SheetBoard board.new }
    ensures text { OnOk result ((mix : List ℕ) × (length mix ≡ size_word board.old)
        × Reads (R.remaining input.old) (R.remaining input.new) (λ known left.
        Writes (W.contents output.old) (W.contents output.new) (λ text.
        AllText board.old mix known text board.new))) }
{
    let n = board[layout::SIZE] as usize;
    let mut bytes: [u8; 65536] = filled(0);
    let mut mix: [u32; ROW] = filled(0);
    take_each(input, output, board, &mut bytes, &mut mix[..n])
}
