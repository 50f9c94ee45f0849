// Document 01's examples of the board that are not starred, a frame whose numbers have another width than document 02's #111 gives
// them, and the order of the checks: where a function here names an order, what one check refuses the later ones would refuse too.
// Where a name tells no number of words, a record has one. The starred examples are theorems, in starred/proofs.
ghost use Rattle.std.specs.Prelude.{◌≤◌};
ghost use Rattle.ledger.specs.Board.{largest_board};

use super::{memory, report};
use board_words::layout;
use board_words::layout::LARGEST_BOARD;
use std::io;
use test_support::lent::{NUMBERS, WORDS};
use test_support::told::Told;
use test_support::{lent, output};
use words::filled;

// Opens a board in so many words; a refusal leaves them as they were.
fn open(out: &impl Print, name: &[u8], p: u32, n: u32, s: u32, room: usize) -> io::Result<()>
    requires { room ≤ largest_board }
{
    let mut words: [u32; LARGEST_BOARD] = filled(memory::WORD);
    let board = lent::front(&mut words, room);
    let told = report::open_told(board_calls::open(p, n, s, board));
    output::print_example(out, b"open-", name, told.number)?;
    output::print_touched_words(out, told.number, board, memory::WORD)?;
    output::print_end(out)
}

// The example's name, the number of its answer, and a count.
fn print_answer(out: &impl Print, name: &[u8], number: u32, count: u32) -> io::Result<()> {
    output::print_example(out, b"", name, number)?;
    output::print_number(out, count)
}

// A take on a board of three records, whose count is word 2, with so many words for its mix.
fn take(
    out: &impl Print,
    name: &[u8],
    board: &mut [u32; 16],
    frame: &[u8],
    room: usize,
) -> io::Result<()>
    requires { room ≤ 66 }
{
    let mut words: [u32; WORDS] = filled(memory::WORD);
    let mix = lent::front(&mut words, room);
    let told = report::take_told(board_calls::take(board, frame, mix));
    print_answer(out, name, told.number, board[layout::COUNT])?;
    output::print_words(out, b" mix", mix)?;
    output::print_end(out)
}

fn withdraw(out: &impl Print, name: &[u8], board: &mut [u32; 16], t: u32) -> io::Result<()> {
    let told = Told::from(board_calls::withdraw(board, t));
    print_answer(out, name, told.number, board[layout::COUNT])?;
    output::print_end(out)
}

// A show with the low end and so many marks and numbers.
fn show(
    out: &impl Print,
    name: &[u8],
    board: &[u32; 16],
    low: u32,
    room: usize,
    space: usize,
) -> io::Result<()>
    requires { (room ≤ 66) × (space ≤ 66) }
{
    let mut words: [u32; WORDS] = filled(memory::WORD);
    let mut signed: [i32; NUMBERS] = filled(memory::NUMBER);
    let marks = lent::front(&mut words, room);
    let numbers = lent::front(&mut signed, space);
    let told = Told::from(board_calls::show(board, low, marks, numbers));
    print_answer(out, name, told.number, told.value)?;
    output::print_words(out, b" marks", marks)?;
    report::print_numbers(out, b" numbers", numbers)?;
    output::print_end(out)
}

// 1, 2, 12 and 3 in this order; modulo 4, where 2 has no inverse, there is no board. 64 records of 16 words are the most.
fn open_order(out: &impl Print) -> io::Result<()> {
    open(out, b"modulus", 4, 0, 0, 2)?;
    open(out, b"no-records", 7, 0, 0, 2)?;
    open(out, b"65-records", 7, 65, 0, 2)?;
    open(out, b"no-words", 7, 3, 0, 2)?;
    open(out, b"17-words", 7, 3, 17, 2)?;
    open(out, b"room-15", 7, 3, 1, 15)?;
    open(out, b"room-17", 7, 3, 1, 17)?;
    open(out, b"64-records", 2147483647, 64, 1, 4164)?;
    open(out, b"64-records-16-words", 2147483647, 64, 16, 5124)
}

// The first two frames of the sheet's example: (1 2 0) 5, (0 1 3) 4. Columns 0 and 1 are in I, and no record is settled.
fn wrong_sheet(out: &impl Print, board: &mut [u32; 16]) -> io::Result<()> {
    take(out, b"sheet-first", board, b"\x03\x01\x02\x05", 3)?;
    take(out, b"sheet-second", board, b"\x06\x01\x03\x04", 3)?;
    show(out, b"wrong-sheet", board, 3, 3, 3)
}

// The other three: (1 3 3) 2, (1 3 3) 3, (0 0 1) 6. All records are settled, and none is missing.
fn sheet(out: &impl Print, board: &mut [u32; 16]) -> io::Result<()> {
    take(out, b"sheet-repeat", board, b"\x07\x01\x03\x03\x02", 3)?;
    take(out, b"sheet-conflict", board, b"\x07\x01\x03\x03\x03", 3)?;
    take(out, b"sheet-third", board, b"\x04\x01\x06", 3)?;
    show(out, b"sheet", board, 3, 3, 3)
}

// The same records, 5, 0 and 6, with other low ends: 0 to 6, -1 to 5, -2 to 4, -5 to 1, -6 to 0; 7 is none.
fn low_ends(out: &impl Print, board: &[u32; 16]) -> io::Result<()> {
    show(out, b"low-0", board, 0, 3, 3)?;
    show(out, b"low-1", board, 1, 3, 3)?;
    show(out, b"low-2", board, 2, 3, 3)?;
    show(out, b"low-5", board, 5, 3, 3)?;
    show(out, b"low-6", board, 6, 3, 3)?;
    show(out, b"low-7", board, 7, 3, 3)?;
    show(out, b"low-most", board, 4294967295, 3, 3)
}

// The frame (0 0 1) 6 once more, and with numbers of four bytes, where 7 needs one.
fn widths(out: &impl Print, board: &mut [u32; 16]) -> io::Result<()> {
    take(out, b"one-byte", board, b"\x04\x01\x06", 3)?;
    take(out, b"four-bytes", board, b"\x04\0\0\0\x01\0\0\0\x06", 3)
}

// 3 before 6, which an empty frame gets, and before 4, which a low end of p gets.
fn call_order(out: &impl Print, board: &mut [u32; 16]) -> io::Result<()> {
    take(out, b"take-room", board, b"", 2)?;
    take(out, b"take-empty", board, b"", 3)?;
    withdraw(out, b"withdraw-four", board, 4)?;
    show(out, b"show-marks", board, 7, 2, 3)?;
    show(out, b"show-numbers", board, 7, 3, 2)
}

// 11 before the checks that refuse the same calls on a board: modulo 4 words are none.
fn no_board(out: &impl Print, board: &mut [u32; 16]) -> io::Result<()> {
    board[layout::MODULUS] = 4;
    take(out, b"no-board-take", board, b"", 2)?;
    withdraw(out, b"no-board-withdraw", board, 4)?;
    show(out, b"no-board-show", board, 7, 2, 3)?;
    show(out, b"no-board-low", board, 7, 3, 3)
}

// The examples on a board of three records modulo 7.
fn run_on(out: &impl Print, board: &mut [u32; 16]) -> io::Result<()> {
    let _ = board_calls::open(7, 3, 1, board);
    wrong_sheet(out, board)?;
    sheet(out, board)?;
    low_ends(out, board)?;
    widths(out, board)?;
    call_order(out, board)?;
    no_board(out, board)
}

pub fn run(out: &impl Print) -> io::Result<()> {
    open_order(out)?;
    let mut board = [memory::WORD; 16];
    run_on(out, &mut board)
}
