// Tables: quasiinverse, kernel, solution and nearest fit, and the check of a quasiinverse from elsewhere. Each call checks, in this
// order, 1, p; 2, the sizes; 3, the lengths; 4, the numbers; and leaves all lent memory as it was where it refuses by these.
#![tactic(auto)]

ghost use Rattle.std.specs.Prelude.{◌≡◌};
ghost use Rattle.checks.specs.Told.{result_told};
ghost use Rattle.matrix.specs.Calls.{quasiinverse_call, kernel_call, system_checks, solve_call, fit_call, pair_checks, check_call};
ghost use Rattle.checks.specs.Outcome.{outcome};
ghost use Rattle.checks.specs.Sizes.{Judges};

use checks::Refusal;
use matrix::table::{LinearSystem, Table};
use matrix_check::Factors;
use words::all_below;

pub mod work;

// The quasiinverse D of the table a, m rows and n columns, the marks of its columns I and of its rows J, and the rank.
pub fn quasiinverse(
    p: u32,
    m: u32,
    n: u32,
    a: &[u32],
    d: &mut [u32],
    columns: &mut [u32],
    rows: &mut [u32],
) -> Result<u32, Refusal>
    ensures { outcome (result_told result) (d.new, (columns.new, rows.new))
        ≡ quasiinverse_call p m n a.now d.old columns.old rows.old }
{
    checks::table_sizes(p, m, n)?;
    let height = m as usize;
    let width = n as usize;
    if a.len() != height * width {
        return Err(Refusal::Length);
    }
    if d.len() != width * height {
        return Err(Refusal::Length);
    }
    if columns.len() != width {
        return Err(Refusal::Length);
    }
    if rows.len() != height {
        return Err(Refusal::Length);
    }
    if !all_below(p, a) {
        return Err(Refusal::Number);
    }
    let table = Table {
        p,
        height,
        width,
        numbers: a,
    };
    Ok(work::invert_ranked(table, d, columns, rows))
}

// The kernel of the table: one vector for each column outside I, vector after vector at the front of the basis, the rest 0, and
// how many they are.
pub fn kernel(p: u32, m: u32, n: u32, a: &[u32], basis: &mut [u32]) -> Result<u32, Refusal>
    ensures { outcome (result_told result) basis.new ≡ kernel_call p m n a.now basis.old }
{
    checks::table_sizes(p, m, n)?;
    let height = m as usize;
    let width = n as usize;
    if a.len() != height * width {
        return Err(Refusal::Length);
    }
    if basis.len() != width * width {
        return Err(Refusal::Length);
    }
    if !all_below(p, a) {
        return Err(Refusal::Number);
    }
    let table = Table {
        p,
        height,
        width,
        numbers: a,
    };
    Ok(work::kernel_of(table, basis))
}

// What solve and fit check: 1 and 2; 3 for a, w, z and the last slice, which is lent as many numbers as w has; 4 for a, then w.
fn system_checks(
    p: u32,
    m: u32,
    n: u32,
    a: &[u32],
    w: &[u32],
    z: &[u32],
    u: &[u32],
) -> Result<(), Refusal>
    ensures { Judges (system_checks p m n a.now w.now z.now u.now) result }
{
    checks::table_sizes(p, m, n)?;
    let height = m as usize;
    let width = n as usize;
    if a.len() != height * width {
        return Err(Refusal::Length);
    }
    if w.len() != height {
        return Err(Refusal::Length);
    }
    if z.len() != width {
        return Err(Refusal::Length);
    }
    if u.len() != height {
        return Err(Refusal::Length);
    }
    if !all_below(p, a) {
        return Err(Refusal::Number);
    }
    if !all_below(p, w) {
        return Err(Refusal::Number);
    }
    Ok(())
}

// A solution z of A x = w, with the mix u 0 and the rank; or 5, with z as it was and a mix u that shows that there is none.
pub fn solve(
    p: u32,
    m: u32,
    n: u32,
    a: &[u32],
    w: &[u32],
    z: &mut [u32],
    u: &mut [u32],
) -> Result<u32, Refusal>
    ensures { outcome (result_told result) (z.new, u.new) ≡ solve_call p m n a.now w.now z.old u.old }
{
    system_checks(p, m, n, a, w, z, u)?;
    let table = Table {
        p,
        height: m as usize,
        width: n as usize,
        numbers: a,
    };
    let system = LinearSystem { table, w };
    work::solve_of(system, z, u)
}

// The nearest fit z = D w, whether A x = w has a solution or not, with what it leaves over, w - A z, and the rank.
pub fn fit(
    p: u32,
    m: u32,
    n: u32,
    a: &[u32],
    w: &[u32],
    z: &mut [u32],
    rest: &mut [u32],
) -> Result<u32, Refusal>
    ensures { outcome (result_told result) (z.new, rest.new) ≡ fit_call p m n a.now w.now z.old rest.old }
{
    system_checks(p, m, n, a, w, z, rest)?;
    let table = Table {
        p,
        height: m as usize,
        width: n as usize,
        numbers: a,
    };
    let system = LinearSystem { table, w };
    Ok(work::fit_of(system, z, rest))
}

// What check checks first: 1 and 2; 3 for a, then d; 4 for a, then d.
fn pair_checks(p: u32, m: u32, n: u32, a: &[u32], d: &[u32]) -> Result<(), Refusal>
    ensures { Judges (pair_checks p m n a.now d.now) result }
{
    checks::table_sizes(p, m, n)?;
    let height = m as usize;
    let width = n as usize;
    if a.len() != height * width {
        return Err(Refusal::Length);
    }
    if d.len() != width * height {
        return Err(Refusal::Length);
    }
    if !all_below(p, a) {
        return Err(Refusal::Number);
    }
    if !all_below(p, d) {
        return Err(Refusal::Number);
    }
    Ok(())
}

// Whether d, n rows and m columns, is a quasiinverse of a, on whatever rows and columns: the rank of a; 17, A D A is not A; or 18,
// D A D is not D. Nothing is lent to be written.
pub fn check(p: u32, m: u32, n: u32, a: &[u32], d: &[u32]) -> Result<u32, Refusal>
    ensures { outcome (result_told result) tt ≡ check_call p m n a.now d.now }
{
    pair_checks(p, m, n, a, d)?;
    let height = m as usize;
    let width = n as usize;
    let inner = Factors {
        p,
        height,
        width,
        a,
        d,
    };
    if !inner.absorbs() {
        return Err(Refusal::NotInner);
    }
    let outer = Factors {
        p,
        height: width,
        width: height,
        a: d,
        d: a,
    };
    if !outer.absorbs() {
        return Err(Refusal::NotOuter);
    }
    let table = Table {
        p,
        height,
        width,
        numbers: a,
    };
    Ok(work::rank_of(table))
}
