// A heat: its board is opened, all frames are taken, and the records are shown.
ghost use Rattle.std.specs.Prelude.{◌≡◌, ◌≤◌, length, OnOk};
ghost use Rattle.checks.specs.Largest.{largest};
ghost use Rattle.ledger.specs.Board.{header_length, board_length, largest_board};
ghost use Rattle.sheet_heat.specs.Sheet.{sheet_words, heat_of};
ghost use Rattle.sheet.specs.Program.{Prints};

use super::{frames, lines};
use board_words::layout;
use board_words::layout::LARGEST_BOARD;
use std::io;
use std::io::{Read, Write};
use words::filled;

// The words of a record on a sheet.
const WORDS: u32 = 1;

// How many words are lent for n records: those of a board, and where n is above 64, and there is none, those of a header.
fn board_length(n: u32) -> usize
    ensures { (header_length ≤ result) × (result ≤ largest_board) × (n ≤ largest → result ≡ board_length n sheet_words) }
{
    if checks::LARGEST < n {
        return layout::HEADER;
    }
    layout::board_length(n as usize, WORDS as usize)
}

// Opens the board in the lent words, takes the frames and shows the records; a refused open is one line.
fn open_in<R: Read, W: Write>(
    input: &mut R,
    output: &mut W,
    p: u32,
    n: u32,
    board: &mut [u32],
) -> io::Result<()>
    requires { header_length ≤ length board.old }
    ensures { OnOk result ((n ≤ largest → length board.old ≡ board_length n sheet_words)
        → Prints (R.remaining input.old) (W.contents output.old) (W.contents output.new) (heat_of p n)) }
{
    match board_calls::open(p, n, WORDS, board) {
        Ok(()) => {
            frames::take_all(input, output, board)?;
            lines::ending(output, board)
        }
        Err(kind) => lines::refused(output, kind),
    }
}

// The heat that the header opens.
pub fn open<R: Read, W: Write>(input: &mut R, output: &mut W, p: u32, n: u32) -> io::Result<()>
    ensures { OnOk result (Prints (R.remaining input.old) (W.contents output.old) (W.contents output.new) (heat_of p n)) }
{
    let mut words: [u32; LARGEST_BOARD] = filled(0);
    let size = board_length(n);
    open_in(input, output, p, n, &mut words[..size])
}
