// A row that is worked off: it is read as sums of limbs, which stay apart while the worked rows are added, group after group, each
// with the multiplier that makes the row 0 at its pivot. The worked rows are in groups of four, and as long as a row of the table
// with its carried numbers; row t begins at t times that length.
ghost use Rattle.matrix_echelon.specs.Group.{NumbersReadable, NumbersRead, CarriedReadable, CarriedRead, RowReadable, RowRead};
ghost use Rattle.matrix_echelon.specs.Group.{Clearable, PivotsCleared};

use super::Grid;
use super::pivots::Pivots;
use matrix_mul::limbs::{Limbs, Powers};

// Writes the numbers of row i of the table as the low sums.
fn table_limbs(grid: Grid, i: usize, a: &[u32], limbs: &mut Limbs)
    requires { NumbersReadable grid i a.now }
    ensures { NumbersRead grid i a.now limbs.old limbs.new }
{
    let from = grid.start + i * grid.down;
    for j in 0..grid.columns {
        limbs.lo[j] = a[from + j * grid.along] as u64;
    }
}

// Writes the numbers that row i carries behind its n numbers.
fn carried_limbs(n: usize, i: usize, w: &[u32], step: usize, carried: usize, limbs: &mut Limbs)
    requires { CarriedReadable n i w.now step carried }
    ensures { CarriedRead n i w.now step carried limbs.old limbs.new }
{
    for u in 0..carried {
        limbs.lo[n + u] = w[i * step + u] as u64;
    }
}

// Writes the numbers of row i of the table, and those that it carries behind them: w[i × step], w[i × step + 1], .. .
pub fn row_limbs(
    grid: Grid,
    i: usize,
    a: &[u32],
    w: &[u32],
    step: usize,
    carried: usize,
    limbs: &mut Limbs,
)
    requires { RowReadable grid i a.now w.now step carried }
    ensures { RowRead grid i a.now w.now step carried limbs.old limbs.new }
{
    table_limbs(grid, i, a, limbs);
    carried_limbs(grid.columns, i, w, step, carried, limbs);
}

// Adds the combination of the worked rows that makes the sums 0 at all pivots.
pub fn clear_pivots(
    powers: Powers,
    width: usize,
    rank: usize,
    e: &[u32],
    pivots: &[u32],
    limbs: &mut Limbs,
)
    requires { Clearable powers.p width rank e.now pivots.now limbs.old }
    ensures { PivotsCleared powers.p width rank e.now pivots.now limbs.old limbs.new }
{
    let rows = Pivots {
        width,
        rank,
        places: pivots,
    };
    for g in (0..rank).step_by(4) {
        let four = rows.group(powers, g, limbs);
        let from = rows.least(g);
        limbs.add_rows(width, from, e, four);
    }
}
