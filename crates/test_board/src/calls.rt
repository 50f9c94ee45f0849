// The stored lists of calls. Each call finds the board as the last one left it and is lent what the file gives, and its
// answer, the lent memory and the board are compared with what the file says.
use super::{memory, report};
use board_calls::Taken;
use board_words::layout::LARGEST_BOARD;
use checks::Refusal;
use test_support::counts::Tally;
use test_support::input::Stored;
use test_support::lent::{BYTES, NUMBERS, WORDS};
use test_support::told::Told;
use test_support::{lent, told};
use words::filled;

// Counts a take by its answer, which the file says next: the number, and the count, which new and repeat carry.
fn expect_take(stored: &mut Stored, answer: Result<Taken, Refusal>, tally: &mut Tally) {
    let told = report::take_told(answer);
    let number = stored.word();
    let count = stored.word();
    tally.count(report::TAKES);
    tally.count_if(report::take_place(answer), told.number == number);
    if !told::is_refused(number) {
        tally.expect(told.value == count);
    }
}

// A take of the frame, with the mix from the file.
fn take_frame(stored: &mut Stored, board: &mut [u32], frame: &[u8], tally: &mut Tally) {
    let room = stored.length(66);
    let mut words: [u32; WORDS] = filled(memory::WORD);
    let mix = lent::front(&mut words, room);
    stored.read(mix);
    let answer = board_calls::take(board, frame, mix);
    expect_take(stored, answer, tally);
    tally.expect_words(stored, mix);
    tally.expect_words(stored, board);
}

// A take, with the frame from the file.
fn take(stored: &mut Stored, board: &mut [u32], tally: &mut Tally) {
    let length = stored.length(332);
    let mut bytes: [u8; BYTES] = filled(0);
    let frame = lent::front(&mut bytes, length);
    stored.read_wide_bytes(frame);
    take_frame(stored, board, frame, tally);
}

fn withdraw(stored: &mut Stored, board: &mut [u32], tally: &mut Tally) {
    let answer = Told::from(board_calls::withdraw(board, stored.word()));
    tally.count_if(report::WITHDRAWALS, answer.number == stored.word());
    tally.expect_words(stored, board);
}

// A show with the low end and the marks, and with the numbers from the file.
fn show_marks(stored: &mut Stored, board: &[u32], low: u32, marks: &mut [u32], tally: &mut Tally) {
    let room = stored.length(1026);
    let mut signed: [i32; NUMBERS] = filled(memory::NUMBER);
    let numbers = lent::front(&mut signed, room);
    stored.read(numbers);
    let answer = Told::from(board_calls::show(board, low, marks, numbers));
    tally.count_if(report::SHOWS, answer.number == stored.word());
    tally.expect_words(stored, marks);
    tally.expect(stored.are_next(numbers));
}

// A show, with the low end and the marks from the file.
fn show(stored: &mut Stored, board: &[u32], tally: &mut Tally) {
    let low = stored.word();
    let room = stored.length(66);
    let mut words: [u32; WORDS] = filled(memory::WORD);
    let marks = lent::front(&mut words, room);
    stored.read(marks);
    show_marks(stored, board, low, marks, tally);
}

// Writes a word into the board, as nobody should.
fn tamper(stored: &mut Stored, board: &mut [u32], tally: &mut Tally) {
    tally.count(report::TAMPERED);
    let place = stored.word() as usize;
    let word = stored.word();
    if place < board.len() {
        board[place] = word;
    }
}

// The next call, and whether there was one. A kind above 4 is none of the script's.
fn next_call(stored: &mut Stored, board: &mut [u32], tally: &mut Tally) -> bool {
    match stored.word() {
        0 => return false,
        1 => take(stored, board, tally),
        2 => withdraw(stored, board, tally),
        3 => show(stored, board, tally),
        4 => tamper(stored, board, tally),
        _ => return tally.stop(),
    }
    true
}

// All calls of a history, of which there are at most 1,000.
fn play_calls(stored: &mut Stored, board: &mut [u32], tally: &mut Tally) {
    for _ in 0..1000 {
        if !next_call(stored, board, tally) {
            return;
        }
    }
}

// Counts an open by its answer, which the file says next.
fn expect_open(stored: &mut Stored, answer: Result<(), Refusal>, tally: &mut Tally) {
    let number = stored.word();
    tally.count_if(
        report::open_place(answer),
        report::open_told(answer).number == number,
    );
}

// A history behind open's p, n and s, with so many words for its board as the file says. Calls follow a refused open as well.
fn play(stored: &mut Stored, p: u32, n: u32, s: u32, tally: &mut Tally) {
    let length = stored.length(LARGEST_BOARD);
    let mut words: [u32; LARGEST_BOARD] = filled(memory::WORD);
    let board = lent::front(&mut words, length);
    let answer = board_calls::open(p, n, s, board);
    expect_open(stored, answer, tally);
    tally.expect_words(stored, board);
    play_calls(stored, board, tally);
}

// The next history, and whether there was one.
fn next_history(stored: &mut Stored, tally: &mut Tally) -> bool {
    let p = stored.word();
    if p == 0 {
        return false;
    }
    let n = stored.word();
    let s = stored.word();
    play(stored, p, n, s, tally);
    true
}

// All histories, of which there are at most 100,000.
pub fn run(stored: &mut Stored, tally: &mut Tally) {
    for _ in 0..100000 {
        if !next_history(stored, tally) {
            return;
        }
    }
}
