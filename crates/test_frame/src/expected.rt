// What the input says next of a call: the number of its answer, and what it leaves in lent memory.
ghost use Rattle.std.specs.Prelude.{◌≤◌};

use super::{memory, report};
use test_support::counts::Tally;
use test_support::input::Stored;
use test_support::lent::BYTES;
use test_support::told::Told;
use test_support::{lent, told};
use words::filled;

// Counts the answer by the number that the input says, and hands that number on.
pub fn expect_number(stored: &mut Stored, answer: Told, tally: &mut Tally) -> u32 {
    let number = stored.word();
    tally.count_if(report::place(number), answer.number == number);
    number
}

// Lent words are the next ones of the input where the call is done, and as they were where it is refused.
pub fn expect_words(stored: &mut Stored, number: u32, words: &[u32], tally: &mut Tally) {
    if told::is_refused(number) {
        tally.expect(lent::are_untouched(words, memory::WORD));
    } else {
        tally.expect_words(stored, words);
    }
}

// The length that the number of an answer tells: 200 less, and 0 where it is refused. No frame is longer than there is room for.
fn length_of(number: u32) -> usize
    ensures { result ≤ 332 }
{
    if number < 200 {
        return 0;
    }
    if 532 < number {
        return 332;
    }
    (number - 200) as usize
}

// Lent bytes begin with the next ones of the input, as many as the number tells, and behind them are as they were.
pub fn expect_frame(stored: &mut Stored, number: u32, bytes: &[u8], tally: &mut Tally) {
    let length = length_of(number);
    let mut space: [u8; BYTES] = filled(0);
    let frame = lent::front(&mut space, length);
    stored.read_bytes(frame);
    tally.expect(memory::is_only_front(frame, bytes));
}
