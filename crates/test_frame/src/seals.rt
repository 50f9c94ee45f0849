// The stored cases of sealing: each is compared with what its case says.
use super::{expected, memory, report};
use test_support::counts::Tally;
use test_support::input::Stored;
use test_support::lent;
use test_support::lent::{NUMBERS, WORDS};
use test_support::told::Told;
use words::filled;

// One case from its values on, for which there are so many lent words as the input says.
fn compare_lent(
    stored: &mut Stored,
    p: u32,
    n: u32,
    s: u32,
    low: u32,
    records: &[i32],
    multipliers: &[u32],
    tally: &mut Tally,
) {
    let space = stored.length(66);
    let mut words: [u32; WORDS] = filled(memory::WORD);
    let values = lent::front(&mut words, space);
    let answer = Told::from(frame_calls::seal(p, n, s, low, records, multipliers, values));
    let number = expected::expect_number(stored, answer, tally);
    expected::expect_words(stored, number, values, tally);
}

// One case behind its sizes, with room for its records and multipliers.
pub fn compare(stored: &mut Stored, p: u32, n: u32, s: u32, tally: &mut Tally) {
    let low = stored.word();
    let count = stored.length(1026);
    let mut signed: [i32; NUMBERS] = filled(0);
    let records = lent::front(&mut signed, count);
    stored.read(records);
    let room = stored.length(66);
    let mut words: [u32; WORDS] = filled(0);
    let multipliers = lent::front(&mut words, room);
    stored.read(multipliers);
    compare_lent(stored, p, n, s, low, records, multipliers, tally);
}
