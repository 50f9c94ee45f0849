// The stored calls. Each is lent the mix and the bytes that the file gives, and its answer, the mix and all bytes are compared with what
// the file says. A frame is then taken and read.
use super::{frames, memory, report};
use board_words::layout::LARGEST_BOARD;
use test_support::counts::Tally;
use test_support::input::Stored;
use test_support::lent::{BYTES, WORDS};
use test_support::told::Told;
use test_support::{lent, told};
use words::filled;

// The front of the bytes becomes what the file says next.
fn read_front(stored: &mut Stored, bytes: &mut [u8], k: usize) {
    let length = k.min(bytes.len());
    let front = lent::front(bytes, length);
    stored.read_bytes(front);
}

// The bytes are expected to have the frame of this length, which the file says next, and behind it what they were filled with.
fn expect_bytes(stored: &mut Stored, bytes: &[u8], first: u32, k: usize, tally: &mut Tally) {
    let mut space: [u8; BYTES] = filled(0);
    let expected = lent::front(&mut space, bytes.len().min(332));
    memory::fill(expected, first);
    read_front(stored, expected, k);
    tally.expect(bytes == expected);
}

// A call for the wanted row with the mix, and with the bytes from the file.
fn compare_bytes(
    stored: &mut Stored,
    board: &mut [u32],
    wanted: &[u32],
    mix: &mut [u32],
    tally: &mut Tally,
) {
    let room = stored.length(332);
    let first = stored.word();
    let mut space: [u8; BYTES] = filled(0);
    let bytes = lent::front(&mut space, room);
    memory::fill(bytes, first);
    let answer = relay_calls::relay(board, wanted, mix, bytes);
    let expected = stored.word();
    let k = report::length_of(expected);
    let is_answer = Told::from(answer).number == expected;
    tally.count_if(report::place_of(answer), is_answer);
    tally.expect_words(stored, mix);
    expect_bytes(stored, bytes, first, k, tally);
    if !told::is_refused(expected) {
        frames::expect_frame(board, bytes, k, wanted, mix, tally);
    }
}

// A call for the wanted row, with the mix from the file.
fn compare_mix(stored: &mut Stored, board: &mut [u32], wanted: &[u32], tally: &mut Tally) {
    let room = stored.length(66);
    let mut words: [u32; WORDS] = filled(0);
    let mix = lent::front(&mut words, room);
    stored.read(mix);
    compare_bytes(stored, board, wanted, mix, tally);
}

// The next call on the board, with the wanted row from the file.
fn compare_next(stored: &mut Stored, board: &mut [u32], tally: &mut Tally) {
    let length = stored.length(66);
    let mut words: [u32; WORDS] = filled(0);
    let wanted = lent::front(&mut words, length);
    stored.read(wanted);
    tally.count(report::CALLS);
    compare_mix(stored, board, wanted, tally);
}

// All calls on the board, of which there are so many as the file says first, at most 1,000.
fn run_calls(stored: &mut Stored, board: &mut [u32], tally: &mut Tally) {
    let count = stored.length(1000);
    for _ in 0..count {
        compare_next(stored, board, tally);
    }
}

// The next board, with its words from the file, and its calls.
fn run_next(stored: &mut Stored, tally: &mut Tally) {
    let length = stored.length(LARGEST_BOARD);
    let mut words: [u32; LARGEST_BOARD] = filled(0);
    let board = lent::front(&mut words, length);
    stored.read(board);
    tally.count(report::BOARDS);
    run_calls(stored, board, tally);
}

// All boards, of which there are so many as the file says first, at most 10,000.
pub fn run(stored: &mut Stored, tally: &mut Tally) {
    let count = stored.length(10000);
    for _ in 0..count {
        run_next(stored, tally);
    }
}
