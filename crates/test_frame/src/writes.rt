// The stored cases of writing: each is compared with what its case says.
use super::{expected, memory, report};
use test_support::counts::Tally;
use test_support::input::Stored;
use test_support::lent;
use test_support::lent::{BYTES, WORDS};
use test_support::told::Told;
use words::filled;

// One case from its bytes on, of which there are so many lent as the input says.
fn compare_lent(
    stored: &mut Stored,
    p: u32,
    n: u32,
    s: u32,
    multipliers: &[u32],
    values: &[u32],
    tally: &mut Tally,
) {
    let room = stored.length(332);
    let mut space: [u8; BYTES] = filled(memory::BYTE);
    let bytes = lent::front(&mut space, room);
    let answer = Told::from(frame_calls::write(p, n, s, multipliers, values, bytes));
    let number = expected::expect_number(stored, answer, tally);
    expected::expect_frame(stored, number, bytes, tally);
}

// One case behind its sizes, with room for its multipliers and values.
pub fn compare(stored: &mut Stored, p: u32, n: u32, s: u32, tally: &mut Tally) {
    let room = stored.length(66);
    let mut words: [u32; WORDS] = filled(0);
    let multipliers = lent::front(&mut words, room);
    stored.read(multipliers);
    let space = stored.length(66);
    let mut more_words: [u32; WORDS] = filled(0);
    let values = lent::front(&mut more_words, space);
    stored.read(values);
    compare_lent(stored, p, n, s, multipliers, values, tally);
}
