// Sums of rows modulo p: a row plus a combination of rows. Four rows are added at a time; the low and the high limbs of the sums
// of their products, of 32 bits each, are added apart, and reduced once at the end.
ghost use Rattle.std.specs.Prelude.{◌≡◌, ◌+◌, ◌<◌, ◌≤◌, length};
ghost use Rattle.field.specs.Limbs.{LimbFits};
ghost use Rattle.matrix_mul.specs.Places.{place};
ghost use Rattle.matrix_mul.specs.Rows.{Shorts, Inside, FourInside, Quarter, product_at, four_at};
ghost use Rattle.matrix_mul.specs.Rows.{Each, Passes, Walkable, RowTaken, FourTaken, Summed, sum_at, Combinable, CombinedInto};

use super::Place;
use super::limbs::{Limbs, Powers};
use std::array;
use words::ROW;

// A row of a table that is to be added: its multiplier, where it begins, and the row to look at after it.
#[derive(Clone, Copy)]
pub struct Row {
    pub times: u32,
    pub at: usize,
    pub next: usize,
}

// Four rows that are to be added together.
#[derive(Clone, Copy)]
pub struct Four {
    pub a: Row,
    pub b: Row,
    pub c: Row,
    pub d: Row,
}

// The list that passes over no row: next[t] is the next row to visit after t, here t + 1.
pub fn each_row() -> [u32; ROW]
    ensures { Each result }
{
    array::from_fn(|t| (t + 1) as u32)
}

// The first row with a multiplier that is not 0, at `from` or later; where there is none, the first row, times 0. next[t] is the
// next row to visit after t.
fn next_row(by: &[u32], next: &[u32], rows: Place, from: usize) -> Row
    requires { (from ≤ length by.now) × Walkable by.now next.now rows }
    ensures { RowTaken by.now next.now rows from result }
{
    let start = rows.start;
    let stride = rows.stride;
    let mut t = from;
    while t < by.len() {
        let c = by[t];
        let later = next[t] as usize;
        if c != 0 {
            let at = start + t * stride;
            return Row {
                times: c,
                at,
                next: later,
            };
        }
        t = later;
    }
    Row {
        times: 0,
        at: start,
        next: t,
    }
}

// The next four rows with multipliers that are not 0, at `from` or later, or as many as there are.
fn next_four(by: &[u32], next: &[u32], rows: Place, from: usize) -> Four
    requires { (from ≤ length by.now) × Walkable by.now next.now rows }
    ensures { FourTaken by.now next.now rows from result }
{
    let a = next_row(by, next, rows, from);
    let b = next_row(by, next, rows, a.next);
    let c = next_row(by, next, rows, b.next);
    let d = next_row(by, next, rows, c.next);
    Four { a, b, c, d }
}

// The product of a row at place j.
fn product_at(table: &[u32], row: Row, j: usize) -> u64
    requires { Shorts table.now × Inside (j + 1) table.now row }
    ensures { (result ≡ product_at table.now row j) × Quarter result }
{
    (row.times as u64) * (table[row.at + j] as u64)
}

// The sum of the products of four rows at place j: it has 64 bits with room for 2^32, as the numbers are below 2^31 - 1.
pub fn four_at(table: &[u32], four: Four, j: usize) -> u64
    requires { FourInside (j + 1) table.now four }
    ensures { (result ≡ four_at table.now four j) × LimbFits result }
{
    product_at(table, four.a, j)
        + product_at(table, four.b, j)
        + product_at(table, four.c, j)
        + product_at(table, four.d, j)
}

// Adds four rows to `out` in one pass, modulo p.
fn add_four(p: u32, table: &[u32], four: Four, out: &mut [u32])
    requires { (0 < p) × FourInside (length out.old) table.now four }
    ensures { Summed p (four_at table.now four) out.old out.new }
{
    for j in 0..out.len() {
        let x = four_at(table, four, j) + (out[j] as u64);
        out[j] = (x % (p as u64)) as u32;
    }
}

// Adds to `out` the combination of the rows of `table` with the multipliers `by`, four rows at a time, modulo p.
fn add_all(p: u32, by: &[u32], next: &[u32], table: &[u32], rows: Place, out: &mut [u32])
    requires { Combinable p by.now table.now rows out.old × Passes (length by.now) next.now rows (length out.old) table.now }
    ensures { Summed p (sum_at by.now table.now rows) out.old out.new }
{
    let width = out.len();
    let mut limbs = Limbs::new();
    let mut t = 0;
    while t < by.len() {
        let four = next_four(by, next, rows, t);
        limbs.add_rows(width, 0, table, four);
        t = four.d.next;
    }
    limbs.fold_into(Powers::of(p), out);
}

// Adds to `out` the combination of rows of `table` with the multipliers `by`: the rows lie at the place `rows` and are as long as
// `out`. next[t] is the next row to visit after t; the rows between are zeros. A row whose multiplier is 0 is skipped; up to four
// rows need no sums of limbs.
pub fn combine_listed(p: u32, by: &[u32], next: &[u32], table: &[u32], rows: Place, out: &mut [u32])
    requires { Combinable p by.now table.now rows out.old × Passes (length by.now) next.now rows (length out.old) table.now }
    ensures { CombinedInto p by.now table.now rows.start rows.stride out.old out.new }
{
    if by.len() != 0 {
        let four = next_four(by, next, rows, 0);
        if four.d.next == by.len() {
            add_four(p, table, four, out);
            return;
        }
    }
    add_all(p, by, next, table, rows, out);
}

// The same, over all rows, of which row t begins at start + t × stride.
pub fn combine(p: u32, by: &[u32], table: &[u32], start: usize, stride: usize, out: &mut [u32])
    requires { Combinable p by.now table.now (place start stride) out.old }
    ensures { CombinedInto p by.now table.now start stride out.old out.new }
{
    let next = each_row();
    let rows = Place { start, stride };
    combine_listed(p, by, &next, table, rows, out);
}
