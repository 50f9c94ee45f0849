// What becomes of a frame that relay left: the same board takes it as a repeat with the same mix, and reading gives the wanted row.
use super::{memory, report};
use board_words::layout;
use test_support::counts::Tally;
use test_support::lent;
use test_support::lent::WORDS;
use words::filled;

// A word of a board's header; words without one have 0.
fn header_word(board: &[u32], place: usize) -> u32 {
    if place < board.len() { board[place] } else { 0 }
}

// Takes the frame: a repeat, with the count of the board's frames and with this mix.
fn expect_repeat(board: &mut [u32], frame: &[u8], mix: &[u32], tally: &mut Tally) {
    let count = header_word(board, layout::COUNT);
    let mut words: [u32; WORDS] = filled(memory::WORD);
    let again = lent::front(&mut words, mix.len().min(66));
    let is_repeat = report::is_repeat(board_calls::take(board, frame, again), count);
    let is_same = &*again == mix;
    tally.count_if(report::REPEATS, is_repeat && is_same);
}

// Reads the frame of the board's sizes: this row.
fn expect_row(board: &[u32], frame: &[u8], row: &[u32], tally: &mut Tally) {
    let p = header_word(board, layout::MODULUS);
    let n = header_word(board, layout::SIZE);
    let s = header_word(board, layout::VALUES);
    let mut words: [u32; WORDS] = filled(memory::WORD);
    let multipliers = lent::front(&mut words, row.len().min(66));
    let mut more_words: [u32; WORDS] = filled(memory::WORD);
    let values = lent::front(&mut more_words, (s as usize).min(66));
    let is_so = frame_calls::read(p, n, s, frame, multipliers, values).is_ok();
    let is_same = &*multipliers == row;
    tally.count_if(report::READS, is_so && is_same);
}

// Takes and reads the frame that is the front of the bytes, of this length, and was left for the wanted row with the mix.
pub fn expect_frame(
    board: &mut [u32],
    bytes: &mut [u8],
    k: usize,
    wanted: &[u32],
    mix: &[u32],
    tally: &mut Tally,
) {
    let length = k.min(bytes.len());
    let frame = lent::front(bytes, length);
    expect_row(board, frame, wanted, tally);
    expect_repeat(board, frame, mix, tally);
}
