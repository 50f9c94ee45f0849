// Sums of rows and products of blocks of residues: a product goes row by row through a combination of rows. Leaves for the crates
// above, which meet what each requires.
#![tactic(auto)]

ghost use Rattle.std.specs.Prelude.{◌≡◌, ◌≤◌, ◌<◌, length};
ghost use Rattle.checks.specs.Prime.{largest_modulus};
ghost use Rattle.words.specs.Lengths.{longest_row};
ghost use Rattle.words.specs.Words.{Below};
ghost use Rattle.matrix_mul.specs.Rows.{Passes};
ghost use Rattle.matrix_mul.specs.Places.{place, shape, Negated, Factors, Multiplied, ZerosAt, FactorsWithin, Listed};

use words::{ROW, filled};

pub mod limbs;
pub mod rows;

// Where a block of numbers begins, and how far the starts of its rows are apart.
#[derive(Clone, Copy)]
pub struct Place {
    pub start: usize,
    pub stride: usize,
}

// The sizes of a product X Y: X has `rows` rows and `inner` columns, Y has `inner` rows and `columns` columns.
#[derive(Clone, Copy)]
pub struct Shape {
    pub rows: usize,
    pub inner: usize,
    pub columns: usize,
}

// Makes each number its negative modulo p.
pub fn negate(p: u32, xs: &mut [u32])
    requires { (0 < p) × (p ≤ largest_modulus) × Below p xs.old }
    ensures { Negated p xs.old xs.new }
{
    for x in xs.iter_mut() {
        *x = field::arith::minus(p, 0, *x);
    }
}

// Writes the list of the marked rows: next[t] is the next row to visit after t, the first marked one behind it, or the end.
pub fn list_marked(marks: &[u32], next: &mut [u32])
    requires { (length marks.now ≤ longest_row) × (length marks.now ≤ length next.old) }
    ensures { (length next.new ≡ length next.old) × Listed marks.now next.new }
{
    let mut later = marks.len();
    for t in (0..marks.len()).rev() {
        next[t] = later as u32;
        if marks[t] != 0 {
            later = t;
        }
    }
}

// One row of Z + X Y: the k numbers of x from `x_at` on are the multipliers of Y's rows, the n numbers of z from `z_at` on get
// the sum. Zero multipliers add nothing; the list leads over rows of Y that are zeros.
fn add_row(
    p: u32,
    k: usize,
    n: usize,
    x: &[u32],
    x_at: usize,
    next: &[u32],
    y: &[u32],
    right: Place,
    z: &mut [u32],
    z_at: usize,
)
    requires { Factors p (shape 1 k n) x.now (place x_at k) y.now right z.old (place z_at n) × Passes k next.now right n y.now }
    ensures { Multiplied p (shape 1 k n) x.now (place x_at k) y.now right z.old z.new (place z_at n) }
{
    let x_end = x_at + k;
    let by = &x[x_at..x_end];
    if words::all_zero(by) {
        return;
    }
    let z_end = z_at + n;
    rows::combine_listed(p, by, next, y, right, &mut z[z_at..z_end]);
}

// Z + X Y for Z, where X, Y and Z lie in different memory, at the places `left`, `right` and `target`; the list leads over rows
// of Y that are zeros.
pub fn add_product(
    p: u32,
    size: Shape,
    x: &[u32],
    left: Place,
    next: &[u32],
    y: &[u32],
    right: Place,
    z: &mut [u32],
    target: Place,
)
    requires { Factors p size x.now left y.now right z.old target × Passes size.inner next.now right size.columns y.now }
    ensures { Multiplied p size x.now left y.now right z.old z.new target }
{
    for i in 0..size.rows {
        let x_at = left.start + i * left.stride;
        let z_at = target.start + i * target.stride;
        add_row(
            p,
            size.inner,
            size.columns,
            x,
            x_at,
            next,
            y,
            right,
            z,
            z_at,
        );
    }
}

// The same as `add_row` where the multipliers lie in the memory of Z: they are copied first. Where the mark is 0 they are all 0.
fn add_row_within(
    p: u32,
    k: usize,
    n: usize,
    mark: u32,
    x_at: usize,
    next: &[u32],
    y: &[u32],
    right: Place,
    z: &mut [u32],
    z_at: usize,
)
    requires { Factors p (shape 1 k n) z.old (place x_at k) y.now right z.old (place z_at n)
        × Passes k next.now right n y.now × (mark ≡ 0 → ZerosAt z.old x_at k) }
    ensures { Multiplied p (shape 1 k n) z.old (place x_at k) y.now right z.old z.new (place z_at n) }
{
    if mark == 0 {
        return;
    }
    let mut by: [u32; ROW] = filled(0);
    words::copy(z, x_at, k, &mut by);
    add_row(p, k, n, &by, 0, next, y, right, z, z_at);
}

// The same as `add_product` where X lies in the memory of Z, from `x_start` on, with the same stride and in other columns; the
// rows of X whose marks are 0 are zeros.
pub fn add_product_within(
    p: u32,
    size: Shape,
    marks: &[u32],
    x_start: usize,
    y: &[u32],
    right: Place,
    z: &mut [u32],
    target: Place,
)
    requires { FactorsWithin p size marks.now x_start y.now right z.old target }
    ensures { Multiplied p size z.old (place x_start target.stride) y.now right z.old z.new target }
{
    let next = rows::each_row();
    for i in 0..size.rows {
        let mark = marks[i];
        let x_at = x_start + i * target.stride;
        let z_at = target.start + i * target.stride;
        add_row_within(
            p,
            size.inner,
            size.columns,
            mark,
            x_at,
            &next,
            y,
            right,
            z,
            z_at,
        );
    }
}
