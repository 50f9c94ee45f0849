// The stored cases of reading: each frame is read, compared with what its case says, and written again where it was accepted.
use super::{expected, memory, report};
use test_support::counts::Tally;
use test_support::input::Stored;
use test_support::lent::{BYTES, WORDS};
use test_support::told::Told;
use test_support::{lent, told};
use words::filled;

// Writes what was read: lent bytes hold the frame again, and behind it are as they were.
fn rewrite(
    p: u32,
    n: u32,
    s: u32,
    multipliers: &[u32],
    values: &[u32],
    frame: &[u8],
    tally: &mut Tally,
) {
    let room = memory::written_room(s);
    let mut space: [u8; BYTES] = filled(memory::BYTE);
    let bytes = lent::front(&mut space, room);
    let answer = Told::from(frame_calls::write(p, n, s, multipliers, values, bytes));
    let is_whole = answer.value as usize == frame.len();
    tally.count_if(report::REWRITTEN, is_whole);
    tally.expect(memory::is_only_front(frame, bytes));
}

// One case from its frame on, with words lent for its multipliers and values: the input says the number next, and of an accepted
// frame the words. A refusal leaves them as they were.
fn compare_lent(
    stored: &mut Stored,
    p: u32,
    n: u32,
    s: u32,
    frame: &[u8],
    multipliers: &mut [u32],
    values: &mut [u32],
    tally: &mut Tally,
) {
    let answer = Told::from(frame_calls::read(p, n, s, frame, multipliers, values));
    let number = expected::expect_number(stored, answer, tally);
    expected::expect_words(stored, number, multipliers, tally);
    expected::expect_words(stored, number, values, tally);
    tally.count(report::FRAMES);
    if !told::is_refused(answer.number) {
        rewrite(p, n, s, multipliers, values, frame, tally);
    }
}

// One case behind its sizes, with memory for its multipliers, its values and its frame.
pub fn compare(stored: &mut Stored, p: u32, n: u32, s: u32, tally: &mut Tally) {
    let room = stored.length(66);
    let mut words: [u32; WORDS] = filled(memory::WORD);
    let multipliers = lent::front(&mut words, room);
    let space = stored.length(66);
    let mut more_words: [u32; WORDS] = filled(memory::WORD);
    let values = lent::front(&mut more_words, space);
    let length = stored.length(4096);
    let mut bytes: [u8; memory::FRAME] = filled(0);
    let frame = lent::front(&mut bytes, length);
    stored.read_bytes(frame);
    compare_lent(stored, p, n, s, frame, multipliers, values, tally);
}
