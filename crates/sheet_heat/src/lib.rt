// The lines of a heat, made by the calls on the board themselves: a frame's line by take, the records and the missing line by show.
#![tactic(auto)]

ghost use Rattle.std.specs.Prelude.{◌≡◌, ◌≤◌, length};
ghost use Rattle.checks.specs.Largest.{largest};
ghost use Rattle.words.specs.Lengths.{longest_row};
ghost use Rattle.codec.specs.Placed.{Put};
ghost use Rattle.ledger.specs.Board.{header_length, size_word};
ghost use Rattle.sheet_text.specs.Lines.{record_lines};
ghost use Rattle.sheet_text.specs.Written.{Printed};
ghost use Rattle.sheet_heat.specs.Calls.{FrameWritten, ending_of, SheetBoard};

use board_words::layout;
use words::{ROW, filled};

// Takes the frame, and writes its line at the front of the buffer: by what take answers, and the count that it leaves.
pub fn frame_line(board: &mut [u32], frame: &[u8], mix: &mut [u32], out: &mut [u8]) -> usize
    requires { (header_length ≤ length board.old) × (32 ≤ length out.old) }
    ensures { FrameWritten board.old frame.now mix.old out.old board.new mix.new out.new result }
{
    let answer = board_calls::take(board, frame, mix);
    sheet_text::answer_line(answer, board[layout::COUNT], out)
}

// The lines of all records, from show's marks and numbers, at the front of the buffer: fifteen bytes at most for each.
fn record_lines(marks: &[u32], numbers: &[i32], out: &mut [u8]) -> usize
    requires { (length numbers.now ≡ length marks.now) × (length marks.now ≤ largest) × (1024 ≤ length out.old) }
    ensures put { Put 0 (record_lines (length marks.now) marks.now numbers.now) out.old out.new result }
    ensures upper_bound { result ≤ 960 }
{
    let mut at: usize = 0;
    for (j, mark) in marks.iter().enumerate() {
        at = sheet_text::record_line(out, at, j as u32, *mark, numbers[j]);
    }
    at
}

// Shows the board with the old low end and the marks and numbers lent. On a board of one word a record, with as many of them as it has
// records, show is not refused.
fn show_lines(board: &[u32], marks: &mut [u32], numbers: &mut [i32], out: &mut [u8]) -> usize
    requires { SheetBoard board.now × (length marks.old ≡ size_word board.now) × (length numbers.old ≡ size_word board.now) × (1024 ≤ length out.old) }
    ensures { Printed (ending_of board.now) out.old out.new result }
{
    let low = signed::balanced_low(board[layout::MODULUS]);
    match board_calls::show(board, low, marks, numbers) {
        Ok(missing) => {
            let at = record_lines(marks, numbers, out);
            sheet_text::missing_line(out, at, missing)
        }
        Err(_) => 0,
    }
}

// The end of the sheet at the front of the buffer: each record's line, and the missing line.
pub fn ending(board: &[u32], out: &mut [u8]) -> usize
    requires { SheetBoard board.now × (1024 ≤ length out.old) }
    ensures { Printed (ending_of board.now) out.old out.new result }
{
    let n = board[layout::SIZE] as usize;
    let mut marks: [u32; ROW] = filled(0);
    let mut numbers: [i32; ROW] = filled(0);
    show_lines(board, &mut marks[..n], &mut numbers[..n], out)
}
