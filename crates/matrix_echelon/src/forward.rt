// Forward elimination: the rows of the table are worked off one after the other.
ghost use Rattle.std.specs.Prelude.{suc};
ghost use Rattle.matrix_echelon.specs.Grid.{TableReadable, Readable};
ghost use Rattle.matrix_echelon.specs.Forward.{Room, Settleable, RowSettled, Workable, Held, IsRank};

use super::{Grid, group, worked};
use matrix_mul::limbs::{Limbs, Powers};
use words::{ROW, WIDE, WIDE_TABLE, filled};

// Makes the row that the sums of limbs stand for a worked row, unless it is 0 at its first n places. x is room for it, carried numbers
// and all. Answers how many worked rows there are then.
fn settle(
    powers: Powers,
    n: usize,
    rank: usize,
    limbs: &Limbs,
    x: &mut [u32],
    e: &mut [u32],
    pivots: &mut [u32],
) -> usize
    requires { Settleable powers.p n rank limbs.now x.old e.old pivots.old }
    ensures { RowSettled powers.p n rank limbs.now x.old e.old pivots.old result e.new pivots.new }
{
    limbs.fold_into(powers, x);
    let Some(v) = words::least_nonzero(&x[..n]) else {
        return rank;
    };
    worked::grow(powers.p, x, v, rank, e, pivots);
    rank + 1
}

// Works row i off: adds it to the worked rows where it does not follow from those before it. Answers how many there are then.
fn work_row(
    powers: Powers,
    grid: Grid,
    i: usize,
    a: &[u32],
    w: &[u32],
    step: usize,
    carried: usize,
    rank: usize,
    e: &mut [u32],
    pivots: &mut [u32],
) -> usize
    requires { Workable powers.p grid i a.now w.now step carried rank e.old pivots.old }
    ensures { Held powers.p grid (suc i) a.now w.now step carried result e.new pivots.new }
{
    let n = grid.columns;
    let width = n + carried;
    let mut limbs = Limbs::new();
    group::row_limbs(grid, i, a, w, step, carried, &mut limbs);
    group::clear_pivots(powers, width, rank, e, pivots, &mut limbs);
    let mut x: [u32; WIDE] = filled(0);
    settle(powers, n, rank, &limbs, &mut x[..width], e, pivots)
}

// Works all rows off, as long as a column has no pivot yet. Answers the rank.
pub fn forward(
    p: u32,
    grid: Grid,
    a: &[u32],
    w: &[u32],
    step: usize,
    carried: usize,
    e: &mut [u32],
    pivots: &mut [u32],
) -> usize
    requires { Readable p grid a.now w.now step carried × Room p e.old pivots.old }
    ensures { Held p grid grid.rows a.now w.now step carried result e.new pivots.new }
{
    let powers = Powers::of(p);
    let mut rank = 0;
    for i in 0..grid.rows {
        if rank < grid.columns {
            rank = work_row(powers, grid, i, a, w, step, carried, rank, e, pivots);
        }
    }
    rank
}

// The rank of the table. No column is carried along, so that a stands for their numbers too.
pub fn rank(p: u32, grid: Grid, a: &[u32]) -> usize
    requires { TableReadable p grid a.now }
    ensures { IsRank p grid a.now result }
{
    let mut e: [u32; WIDE_TABLE] = filled(0);
    let mut pivots: [u32; ROW] = filled(0);
    forward(p, grid, a, a, 0, 0, &mut e, &mut pivots)
}
