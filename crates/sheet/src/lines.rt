// The lines that sheet_text and sheet_heat make, written as they come.
ghost use Rattle.std.specs.Prelude.{◌≡◌, ◌≤◌, length, take, OnOk};
ghost use Rattle.std.specs.Io.KnownBytes.{Appends};
ghost use Rattle.checks.specs.Refusal.{refusal_number};
ghost use Rattle.ledger.specs.Calls.{take_call};
ghost use Rattle.sheet_text.specs.Lines.{refused_line};
ghost use Rattle.sheet_heat.specs.Calls.{SheetBoard, taken_line, ending_of};

use checks::Refusal;
use std::io;
use std::io::Write;
use words::filled;

// Writes the text at the front of the buffer.
fn write<W: Write>(output: &mut W, buffer: &[u8], size: usize) -> io::Result<()>
    requires { size ≤ length buffer.now }
    ensures { OnOk result (Appends (W.contents output.old) (W.contents output.new) (take size buffer.now)) }
{
    output.write_all(&buffer[..size])?;
    output.flush()
}

// Takes a frame and writes its line.
pub fn frame<W: Write>(
    output: &mut W,
    board: &mut [u32],
    frame: &[u8],
    mix: &mut [u32],
) -> io::Result<()>
    requires { SheetBoard board.old }
    ensures sheet { SheetBoard board.new }
    ensures board { board.new ≡ (take_call board.old frame.now mix.old).lent.0 }
    ensures mix { mix.new ≡ (take_call board.old frame.now mix.old).lent.1 }
    ensures line { OnOk result (Appends (W.contents output.old) (W.contents output.new) (taken_line board.old frame.now mix.old)) }
{
    let mut line: [u8; 32] = filled(0);
    let size = sheet_heat::frame_line(board, frame, mix, &mut line);
    write(output, &line, size)
}

// The line of a refusal: of a cut header, a refused open, a frame that was cut.
pub fn refused<W: Write>(output: &mut W, kind: Refusal) -> io::Result<()>
    ensures { OnOk result (Appends (W.contents output.old) (W.contents output.new) (refused_line (refusal_number kind))) }
{
    let mut line: [u8; 32] = filled(0);
    let size = sheet_text::refused_line(kind, &mut line);
    write(output, &line, size)
}

// The records and the missing line.
pub fn ending<W: Write>(output: &mut W, board: &[u32]) -> io::Result<()>
    requires { SheetBoard board.now }
    ensures { OnOk result (Appends (W.contents output.old) (W.contents output.new) (ending_of board.now)) }
{
    let mut text: [u8; 1024] = filled(0);
    let size = sheet_heat::ending(board, &mut text);
    write(output, &text, size)
}
