// The lines of the sums: the row is the front of the numbers, the column begins at any place of them.
ghost use Rattle.std.specs.Prelude.{◌≡◌, ◌+◌, ◌*◌, ◌<◌, ◌≤◌, length};
ghost use Rattle.field.specs.Products.{Reaches};

use field::sums::dot;
use std::io;
use test_support::output::{print_end, print_number, print_text};

// 2^64 - 1, a place that no table has.
const FARTHEST: usize = 18446744073709551615;

// The sum of the products of the first k numbers of `row` and those of the table at start, start + step, ..
fn sum_of(p: u32, row: &[u32], k: usize, table: &[u32], start: usize, step: usize) -> u32
    requires { (0 < p) × (k ≤ length row.now) × Reaches k start step (length table.now) }
{
    dot(p, &row[..k], table, start, step)
}

// The line of the sum of the products of the first k numbers and those at start, start + step, ..
pub fn print_sum(
    out: &impl Print,
    name: &[u8],
    p: u32,
    numbers: &[u32],
    k: usize,
    start: usize,
    step: usize,
) -> io::Result<()>
    requires { (0 < p) × (k ≤ 100000) × (start + k * step < 100100) × (length numbers.now ≡ 100100) }
{
    print_text(out, name)?;
    print_number(out, p)?;
    print_number(out, k)?;
    print_number(out, start)?;
    print_number(out, step)?;
    print_number(out, sum_of(p, numbers, k, numbers, start, step))?;
    print_end(out)
}

// The sums of one short row, by steps of 0, 1, 2, 64 and 65.
fn print_short(
    out: &impl Print,
    name: &[u8],
    p: u32,
    numbers: &[u32],
    k: usize,
    start: usize,
) -> io::Result<()>
    requires { (0 < p) × (k ≤ 65) × (start ≤ 50000) × (length numbers.now ≡ 100100) }
{
    print_sum(out, name, p, numbers, k, start, 0)?;
    print_sum(out, name, p, numbers, k, start, 1)?;
    print_sum(out, name, p, numbers, k, start, 2)?;
    print_sum(out, name, p, numbers, k, start, 64)?;
    print_sum(out, name, p, numbers, k, start, 65)
}

// Those of one long row, by steps of 0, 1 and 2.
fn print_long(
    out: &impl Print,
    name: &[u8],
    p: u32,
    numbers: &[u32],
    k: usize,
    start: usize,
) -> io::Result<()>
    requires { (0 < p) × (k ≤ 8192) × (start ≤ 50000) × (length numbers.now ≡ 100100) }
{
    print_sum(out, name, p, numbers, k, start, 0)?;
    print_sum(out, name, p, numbers, k, start, 1)?;
    print_sum(out, name, p, numbers, k, start, 2)
}

// The sums of rows of up to 8,192 numbers and columns that begin at `start`.
pub fn print_from(
    out: &impl Print,
    name: &[u8],
    p: u32,
    numbers: &[u32],
    start: usize,
) -> io::Result<()>
    requires { (0 < p) × (start ≤ 50000) × (length numbers.now ≡ 100100) }
{
    print_short(out, name, p, numbers, 0, start)?;
    print_short(out, name, p, numbers, 1, start)?;
    print_short(out, name, p, numbers, 63, start)?;
    print_short(out, name, p, numbers, 64, start)?;
    print_short(out, name, p, numbers, 65, start)?;
    print_long(out, name, p, numbers, 4096, start)?;
    print_long(out, name, p, numbers, 4097, start)?;
    print_long(out, name, p, numbers, 8192, start)
}

// Those of rows of 100,000 numbers.
pub fn print_longest(
    out: &impl Print,
    name: &[u8],
    p: u32,
    numbers: &[u32],
    start: usize,
) -> io::Result<()>
    requires { (0 < p) × (start < 100) × (length numbers.now ≡ 100100) }
{
    print_sum(out, name, p, numbers, 100000, start, 0)?;
    print_sum(out, name, p, numbers, 100000, start, 1)
}

// A row of no numbers, whose column has no place in the table, and a row that is longer than its table.
pub fn print_ends(out: &impl Print, p: u32, numbers: &[u32]) -> io::Result<()>
    requires { (0 < p) × (length numbers.now ≡ 100100) }
{
    print_text(out, b"empty")?;
    print_number(out, p)?;
    print_number(out, sum_of(p, numbers, 0, numbers, FARTHEST, FARTHEST))?;
    print_end(out)?;
    let one = [numbers[7]];
    print_text(out, b"one-number")?;
    print_number(out, p)?;
    print_number(out, sum_of(p, numbers, 100000, &one, 0, 0))?;
    print_end(out)
}
