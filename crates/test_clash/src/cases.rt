// The stored calls. Each is lent the marks that the file gives, and its answer and the marks are compared with what the file says.
use super::{memory, report};
use test_support::counts::Tally;
use test_support::input::Stored;
use test_support::lent;
use test_support::lent::WORDS;
use test_support::told::Told;
use words::filled;

// A call on the log, with the marks from the file.
fn compare_marks(
    stored: &mut Stored,
    p: u32,
    m: u32,
    n: u32,
    s: u32,
    log: &[u32],
    tally: &mut Tally,
) {
    let room = stored.length(66);
    let mut words: [u32; WORDS] = filled(0);
    let marks = lent::front(&mut words, room);
    stored.read(marks);
    let answer = clash_calls::clash(p, m, n, s, log, marks);
    let is_answer = Told::from(answer).number == stored.word();
    tally.count_if(report::place_of(answer), is_answer);
    tally.expect_words(stored, marks);
}

// The next call, with its sizes and its log from the file.
fn compare_next(stored: &mut Stored, tally: &mut Tally) {
    let p = stored.word();
    let m = stored.word();
    let n = stored.word();
    let s = stored.word();
    let length = stored.length(memory::LARGEST_LOG);
    let mut words: [u32; memory::LARGEST_LOG] = filled(0);
    let log = lent::front(&mut words, length);
    stored.read(log);
    tally.count(report::CASES);
    compare_marks(stored, p, m, n, s, log, tally);
}

// All calls, of which there are so many as the file says first, at most 100,000.
pub fn run(stored: &mut Stored, tally: &mut Tally) {
    let count = stored.length(100000);
    for _ in 0..count {
        compare_next(stored, tally);
    }
}
