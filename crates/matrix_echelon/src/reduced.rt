// What the worked rows give: the reduced form of the table, row after row from the last one, and a solution by substituting back.
ghost use Rattle.std.specs.Prelude.{◌≡◌, ◌+◌, ◌≤◌, length, MatchOption};
ghost use Rattle.matrix_echelon.specs.Grid.{Readable};
ghost use Rattle.matrix_echelon.specs.Forward.{Room};
ghost use Rattle.matrix_echelon.specs.Reduced.{UnitWritten, FirstFree, Lookable, Multipliers, Reducible, RowLessened, ReducedForm, Pivoting, RowsByPivot, SolutionFound};

use super::Grid;
use super::forward::forward;
use super::pivots::Pivots;
use matrix_mul::Place;
use matrix_mul::rows::{combine_listed, each_row};
use words::{ROW, WIDE, WIDE_TABLE, filled};

// The multipliers that make the worked row t 0 at the pivots of the other rows; 0 for itself.
fn multipliers(p: u32, rows: Pivots, t: usize, e: &[u32]) -> [u32; ROW]
    requires { Lookable p rows t e.now }
    ensures { Multipliers p rows.entry t e.now result }
{
    let mut by: [u32; ROW] = filled(0);
    let at = t * rows.width;
    for (s, v) in rows.places[..rows.rank].iter().enumerate() {
        by[s] = field::arith::minus(p, 0, e[at + *v as usize]);
    }
    by[t] = 0;
    by
}

// Makes the `len` numbers of e from the place `at` on those of a unit row: 1 at v, where v is one of its places, and 0 elsewhere.
fn write_unit(v: usize, len: usize, e: &mut [u32], at: usize)
    requires { at + len ≤ length e.old }
    ensures { UnitWritten v len at e.old e.new }
{
    e[at..at + len].fill(0);
    if v < len {
        e[at + v] = 1;
    }
}

// The first column without a pivot, where `at` tells of each column whether it has one.
fn first_free(at: &[u32]) -> Option<usize>
    ensures { MatchOption result (FirstFree at.now (length at.now)) (FirstFree at.now) }
{
    at.iter().position(|row| *row == 0)
}

// Makes the worked row t 0 at the pivots of the other rows. `next` leads through all rows. In front of `from` every column has a
// pivot, so that nothing is to be worked out there.
fn reduce_row(p: u32, rows: Pivots, from: usize, t: usize, next: &[u32; ROW], e: &mut [u32])
    requires { Reducible p rows from t next.now e.old }
    ensures { RowLessened p rows.entry from t e.old e.new }
{
    let by = multipliers(p, rows, t, e);
    let at = t * rows.width;
    let start = at + from;
    let len = rows.width - from;
    let mut x: [u32; WIDE] = filled(0);
    words::copy(e, start, len, &mut x);
    let place = Place {
        start: from,
        stride: rows.width,
    };
    combine_listed(p, &by[..rows.rank], next, e, place, &mut x[..len]);
    words::put(&x[..len], e, start);
    write_unit(rows.places[t] as usize, from, e, at);
}

// The reduced form of the table with its carried columns: worked row t is 1 at its pivot and 0 at the others. Answers the rank.
pub fn reduced(
    p: u32,
    grid: Grid,
    a: &[u32],
    w: &[u32],
    step: usize,
    carried: usize,
    e: &mut [u32],
    pivots: &mut [u32],
) -> usize
    requires { Readable p grid a.now w.now step carried × Room p e.old pivots.old }
    ensures { ReducedForm p grid a.now w.now step carried result e.new pivots.new }
{
    let rank = forward(p, grid, a, w, step, carried, e, pivots);
    let n = grid.columns;
    let width = n + carried;
    let at = rows_by_pivot(rank, pivots);
    let from = first_free(&at[..n]).unwrap_or(n);
    let next = each_row();
    for t in (0..rank).rev() {
        let rows = Pivots {
            width,
            rank,
            places: pivots,
        };
        reduce_row(p, rows, from, t, &next, e);
    }
    rank
}

// For each column the number of the worked row that has its pivot there, plus 1; 0 where none has.
pub fn rows_by_pivot(rank: usize, pivots: &[u32]) -> [u32; ROW]
    requires { Pivoting rank pivots.now }
    ensures { RowsByPivot rank pivots.now result }
{
    let mut at: [u32; ROW] = filled(0);
    for (t, v) in pivots[..rank].iter().enumerate() {
        at[*v as usize] = (t + 1) as u32;
    }
    at
}

// The solution z = D w of the system of the table with the right side w, where it has one, by substituting back: from the last
// worked row on, the number at its pivot is what its carried number leaves. Answers the rank.
pub fn solution(p: u32, grid: Grid, a: &[u32], w: &[u32], step: usize, z: &mut [u32]) -> usize
    requires { Readable p grid a.now w.now step 1 × (length z.old ≡ grid.columns) }
    ensures { SolutionFound p grid a.now w.now step result z.new }
{
    let mut e: [u32; WIDE_TABLE] = filled(0);
    let mut pivots: [u32; ROW] = filled(0);
    let rank = forward(p, grid, a, w, step, 1, &mut e, &mut pivots);
    words::clear(z);
    let n = grid.columns;
    for t in (0..rank).rev() {
        let at = t * (n + 1);
        let end = at + n;
        let x = field::sums::dot(p, &e[at..end], z, 0, 1);
        z[pivots[t] as usize] = field::arith::minus(p, e[end], x);
    }
    rank
}
