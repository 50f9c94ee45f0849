// The stored pairs of a table and a D from elsewhere, right or wrong: what check answers, compared with what the case says.
ghost use Rattle.std.specs.Prelude.{◌≤◌};

use super::{memory, report};
use test_support::counts::Tally;
use test_support::input::Stored;
use test_support::lent;
use test_support::told::Told;
use words::filled;

// The next D of the table, with its answer.
fn compare_next(stored: &mut Stored, p: u32, m: u32, n: u32, a: &[u32], tally: &mut Tally)
    requires { (m ≤ 64) × (n ≤ 64) }
{
    let size = memory::size(n, m);
    let mut table: [u32; memory::TABLE] = filled(0);
    let d = lent::front(&mut table, size);
    stored.read(d);
    let answer = matrix_calls::check(p, m, n, a, d);
    let is_answer = Told::from(answer).number == stored.word();
    tally.count_if(report::check_place(answer), is_answer);
}

// All D of the table, of which there are so many as the input says, at most 1,000.
fn compare_all(stored: &mut Stored, p: u32, m: u32, n: u32, a: &[u32], tally: &mut Tally)
    requires { (m ≤ 64) × (n ≤ 64) }
{
    let count = stored.length(1000);
    for _ in 0..count {
        compare_next(stored, p, m, n, a, tally);
    }
}

// A table with its D, which come from the input behind the sizes.
pub fn compare(stored: &mut Stored, p: u32, m: u32, n: u32, tally: &mut Tally)
    requires { (m ≤ 64) × (n ≤ 64) }
{
    let size = memory::size(m, n);
    let mut table: [u32; memory::TABLE] = filled(0);
    let a = lent::front(&mut table, size);
    stored.read(a);
    compare_all(stored, p, m, n, a, tally);
}
