// The stored tables: the quasiinverse of each, which is then checked, its kernel, and its system solved and fitted, compared with
// what its case says.
ghost use Rattle.std.specs.Prelude.{◌≤◌};

use super::{memory, report};
use test_support::counts::Tally;
use test_support::input::Stored;
use test_support::lent::WORDS;
use test_support::told::Told;
use test_support::{lent, told};
use words::filled;

// Our own D passes, with the rank that the case says.
fn check_own(p: u32, m: u32, n: u32, a: &[u32], d: &[u32], rank: u32, tally: &mut Tally) {
    let number = Told::from(matrix_calls::check(p, m, n, a, d)).number;
    let is_rank = number == told::number_of(rank);
    tally.count_if(report::OWN, is_rank);
}

// The quasiinverse, with memory for D and both marks, and its check. Answers the rank that the case says.
fn invert(stored: &mut Stored, p: u32, m: u32, n: u32, a: &[u32], tally: &mut Tally) -> u32
    requires { (m ≤ 64) × (n ≤ 64) }
{
    let size = memory::size(n, m);
    let mut table: [u32; memory::TABLE] = filled(memory::WORD);
    let mut column_words: [u32; WORDS] = filled(memory::WORD);
    let mut row_words: [u32; WORDS] = filled(memory::WORD);
    let d = lent::front(&mut table, size);
    let columns = lent::front(&mut column_words, n as usize);
    let rows = lent::front(&mut row_words, m as usize);
    let number = Told::from(matrix_calls::quasiinverse(p, m, n, a, d, columns, rows)).number;
    let rank = stored.word();
    let is_rank = number == told::number_of(rank);
    tally.count_if(report::QUASIINVERSES, is_rank);
    tally.expect_words(stored, d);
    tally.expect_words(stored, columns);
    tally.expect_words(stored, rows);
    check_own(p, m, n, a, d, rank, tally);
    rank
}

// The kernel, with memory for its basis.
fn kernel(stored: &mut Stored, p: u32, m: u32, n: u32, a: &[u32], tally: &mut Tally)
    requires { n ≤ 64 }
{
    let size = memory::size(n, n);
    let mut table: [u32; memory::TABLE] = filled(memory::WORD);
    let basis = lent::front(&mut table, size);
    let number = Told::from(matrix_calls::kernel(p, m, n, a, basis)).number;
    let is_count = number == told::number_of(stored.word());
    tally.count_if(report::KERNELS, is_count);
    tally.expect_words(stored, basis);
}

// The system of the right side w. The cases say what is left where z was lent holding 7 and u holding 9.
fn solve_side(stored: &mut Stored, p: u32, m: u32, n: u32, a: &[u32], w: &[u32], tally: &mut Tally)
    requires { (m ≤ 64) × (n ≤ 64) }
{
    let mut sevens: [u32; WORDS] = filled(7);
    let mut nines: [u32; WORDS] = filled(9);
    let z = lent::front(&mut sevens, n as usize);
    let u = lent::front(&mut nines, m as usize);
    let answer = matrix_calls::solve(p, m, n, a, w, z, u);
    let is_answer = Told::from(answer).number == stored.word();
    tally.count_if(report::solve_place(answer), is_answer);
    tally.expect_words(stored, z);
    tally.expect_words(stored, u);
}

// The nearest fit of the right side w, with its remainder. The answer is the rank, as the quasiinverse's.
fn fit_side(
    stored: &mut Stored,
    p: u32,
    m: u32,
    n: u32,
    a: &[u32],
    w: &[u32],
    rank: u32,
    tally: &mut Tally,
)
    requires { (m ≤ 64) × (n ≤ 64) }
{
    let mut z_words: [u32; WORDS] = filled(memory::WORD);
    let mut rest_words: [u32; WORDS] = filled(memory::WORD);
    let z = lent::front(&mut z_words, n as usize);
    let rest = lent::front(&mut rest_words, m as usize);
    let number = Told::from(matrix_calls::fit(p, m, n, a, w, z, rest)).number;
    let is_rank = number == told::number_of(rank);
    tally.count_if(report::FITS, is_rank);
    tally.expect_words(stored, z);
    tally.expect_words(stored, rest);
}

// The system whose right side comes from the input, solved and fitted.
fn system(stored: &mut Stored, p: u32, m: u32, n: u32, a: &[u32], rank: u32, tally: &mut Tally)
    requires { (m ≤ 64) × (n ≤ 64) }
{
    let mut words: [u32; WORDS] = filled(0);
    let w = lent::front(&mut words, m as usize);
    stored.read(w);
    solve_side(stored, p, m, n, a, w, tally);
    fit_side(stored, p, m, n, a, w, rank, tally);
}

// The calls on a table, which comes from the input behind its sizes.
pub fn compare(stored: &mut Stored, p: u32, m: u32, n: u32, tally: &mut Tally)
    requires { (m ≤ 64) × (n ≤ 64) }
{
    let size = memory::size(m, n);
    let mut table: [u32; memory::TABLE] = filled(0);
    let a = lent::front(&mut table, size);
    stored.read(a);
    tally.count(report::CASES);
    let rank = invert(stored, p, m, n, a, tally);
    kernel(stored, p, m, n, a, tally);
    system(stored, p, m, n, a, rank, tally);
}
