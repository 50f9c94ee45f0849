// Algorithm Q of document 001: a quasiinverse of a table from those of its upper rows and of its reduced lower rows.
ghost use Rattle.std.specs.Prelude.{◌+◌, ◌-◌, ◌*◌, ◌/◌, ◌≤◌, ◌<◌, length};
ghost use Rattle.matrix_mul.specs.Rows.{Passes};
ghost use Rattle.matrix_mul.specs.Places.{place, Factors};
ghost use Rattle.matrix_inverse.specs.Eliminated.{no_marks, Eliminable, Eliminated, BothMarked};
ghost use Rattle.matrix_inverse.specs.Steps.{IsNegativeProduct, Scratch, Reusable, Reducible, Reduced, Joinable, Joined};

use matrix_mul::{Place, Shape, add_product, add_product_within};
use words::{ROW, filled};

// The scratch memory for up to 64, 32 and 8 rows: half as many rows as these, of as many numbers for T and of 64 for C.
const T_64: usize = 1024;

const C_64: usize = 2048;

const T_32: usize = 256;

const C_32: usize = 1024;

const T_8: usize = 16;

const C_8: usize = 256;

// One row: the select step takes the least usable column v, and D has 1 / a(v) there. Answers the column marks: v is marked.
fn one_row(
    p: u32,
    n: usize,
    a: &[u32],
    d: &mut [u32],
    at: usize,
    stride: usize,
    rows: &mut [u32],
) -> [u32; ROW]
    requires { Eliminable p 1 n a.now d.old at stride no_marks rows.old }
    ensures { Eliminated p 1 n a.now d.old at stride no_marks rows.old d.new result rows.new }
{
    let mut marks: [u32; ROW] = filled(0);
    let Some(v) = words::least_nonzero(a) else {
        return marks;
    };
    d[at + v * stride] = field::arith::inverse(p, a[v]);
    marks[v] = 1;
    rows[0] = 1;
    marks
}

// Marks of the first n places those that are marked in xs, too.
fn add_marks(n: usize, xs: &[u32], marks: &mut [u32])
    requires { (n ≤ length xs.now) × (n ≤ length marks.old) }
    ensures { BothMarked n xs.now marks.old marks.new }
{
    for (c, x) in xs[..n].iter().enumerate() {
        if *x != 0 {
            marks[c] = 1;
        }
    }
}

// The two halves of the rows of a table: how many rows each has, and how many numbers a row has.
#[derive(Clone, Copy)]
struct Split {
    upper: usize,
    lower: usize,
    width: usize,
}

// -(X Y) for Z, where the rows of X and those of Z lie one behind the other. The list leads over rows of Y that are zeros.
fn negative_product(
    p: u32,
    size: Shape,
    x: &[u32],
    next: &[u32],
    y: &[u32],
    right: Place,
    z: &mut [u32],
)
    requires { Factors p size x.now (place 0 size.inner) y.now right z.old (place 0 size.columns)
        × Passes size.inner next.now right size.columns y.now }
    ensures { IsNegativeProduct p size x.now y.now right z.old z.new }
{
    let m = size.rows;
    let k = size.inner;
    let n = size.columns;
    let end = m * n;
    words::clear(&mut z[..end]);
    let left = Place {
        start: 0,
        stride: k,
    };
    let target = Place {
        start: 0,
        stride: n,
    };
    add_product(p, size, x, left, next, y, right, z, target);
    matrix_mul::negate(p, &mut z[..end]);
}

// T = K E and C = K - T B, for the upper rows B and the lower rows K: t becomes -T and c becomes C. E lies in d at the place
// `block`; its rows that are not marked are zeros.
fn reduce_rows(
    p: u32,
    split: Split,
    a: &[u32],
    lower: &[u32],
    marks: &[u32],
    d: &[u32],
    block: Place,
    t: &mut [u32],
    c: &mut [u32],
)
    requires { Reducible p split a.now lower.now marks.now d.now block t.old c.old }
    ensures { Reduced p split a.now lower.now d.now block t.old c.old t.new c.new }
{
    let m1 = split.upper;
    let m2 = split.lower;
    let n = split.width;
    let mut next: [u32; ROW] = filled(0);
    matrix_mul::list_marked(&marks[..n], &mut next);
    let first = Shape {
        rows: m2,
        inner: n,
        columns: m1,
    };
    negative_product(p, first, lower, &next, d, block, t);
    let end = m2 * n;
    words::copy(lower, 0, end, c);
    let each = matrix_mul::rows::each_row();
    let second = Shape {
        rows: m2,
        inner: m1,
        columns: n,
    };
    let left = Place {
        start: 0,
        stride: m1,
    };
    let rows = Place {
        start: 0,
        stride: n,
    };
    add_product(p, second, t, left, &each, a, rows, c, rows);
}

// G = F - E (B F) for F, then E - G T for E, with -T in t; c is room for -(B F). E lies in d at the place `block`, F right of
// it. The rows of E and F that are not marked, in `upper` and `marks`, are zeros; in the end `marks` has both.
fn join_halves(
    p: u32,
    split: Split,
    a: &[u32],
    t: &[u32],
    c: &mut [u32],
    upper: &[u32],
    marks: &mut [u32],
    d: &mut [u32],
    block: Place,
)
    requires { Joinable p split a.now t.now c.old upper.now marks.old d.old block }
    ensures { Joined p split a.now t.now d.old d.new block
        × BothMarked split.width upper.now marks.old marks.new × Reusable p c.old c.new }
{
    let m1 = split.upper;
    let m2 = split.lower;
    let n = split.width;
    let at = block.start;
    let middle = at + m1;
    let stride = block.stride;
    let right = Place {
        start: middle,
        stride,
    };
    let mut next: [u32; ROW] = filled(0);
    matrix_mul::list_marked(&marks[..n], &mut next);
    let first = Shape {
        rows: m1,
        inner: n,
        columns: m2,
    };
    negative_product(p, first, a, &next, d, right, c);
    let second = Shape {
        rows: n,
        inner: m1,
        columns: m2,
    };
    let in_c = Place {
        start: 0,
        stride: m2,
    };
    add_product_within(p, second, upper, at, c, in_c, d, right);
    add_marks(n, upper, marks);
    let third = Shape {
        rows: n,
        inner: m2,
        columns: m1,
    };
    let in_t = Place {
        start: 0,
        stride: m1,
    };
    add_product_within(p, third, marks, middle, t, in_t, d, block);
}

// The m rows in two halves, with scratch memory that is lent: t for -T and c for C. The number of rows falls. The upper half is lent
// the same memory, which is not in use yet; the lower half has its own, since it reads its rows from c. Answers the column marks.
#[cycle(halves_halves_32_halves_8_lower_half)]
fn halves(
    p: u32,
    m: usize,
    n: usize,
    a: &[u32],
    d: &mut [u32],
    at: usize,
    stride: usize,
    rows: &mut [u32],
    t: &mut [u32],
    c: &mut [u32],
) -> [u32; ROW]
    requires { Eliminable p m n a.now d.old at stride no_marks rows.old × (0 < m) × Scratch p (m - m / 2) t.old c.old }
    ensures { Eliminated p m n a.now d.old at stride no_marks rows.old d.new result rows.new
        × Reusable p t.old t.new × Reusable p c.old c.new }
{
    if m == 1 {
        return one_row(p, n, a, d, at, stride, rows);
    }
    let m1 = m / 2;
    let m2 = m - m1;
    let split = Split {
        upper: m1,
        lower: m2,
        width: n,
    };
    let block = Place { start: at, stride };
    let cut = m1 * n;
    let upper = halves(p, m1, n, &a[..cut], d, at, stride, &mut rows[..m1], t, c);
    let lower = &a[cut..];
    reduce_rows(p, split, a, lower, &upper, d, block, t, c);
    let middle = at + m1;
    let end = m2 * n;
    let mut marks = lower_half(p, m2, n, &c[..end], d, middle, stride, &mut rows[m1..]);
    join_halves(p, split, a, t, c, &upper, &mut marks, d, block);
    marks
}

// Up to 32 rows, with scratch memory for about as many. The compiler puts this into `halves`, its one caller, but not what makes the
// memory, since `halves` calls itself: so a level has the frame of its size only.
#[cycle(halves_halves_32_halves_8_lower_half)]
fn lower_half(
    p: u32,
    m: usize,
    n: usize,
    a: &[u32],
    d: &mut [u32],
    at: usize,
    stride: usize,
    rows: &mut [u32],
) -> [u32; ROW]
    requires { Eliminable p m n a.now d.old at stride no_marks rows.old × (0 < m) × (m ≤ 32) }
    ensures { Eliminated p m n a.now d.old at stride no_marks rows.old d.new result rows.new }
{
    if m == 1 {
        return one_row(p, n, a, d, at, stride, rows);
    }
    if m <= 8 {
        return halves_8(p, m, n, a, d, at, stride, rows);
    }
    halves_32(p, m, n, a, d, at, stride, rows)
}

// Up to 32 rows in two halves, with scratch memory for these.
#[cycle(halves_halves_32_halves_8_lower_half)]
fn halves_32(
    p: u32,
    m: usize,
    n: usize,
    a: &[u32],
    d: &mut [u32],
    at: usize,
    stride: usize,
    rows: &mut [u32],
) -> [u32; ROW]
    requires { Eliminable p m n a.now d.old at stride no_marks rows.old × (0 < m) × (m ≤ 32) }
    ensures { Eliminated p m n a.now d.old at stride no_marks rows.old d.new result rows.new }
{
    let mut t = [0u32; T_32];
    let mut c = [0u32; C_32];
    halves(p, m, n, a, d, at, stride, rows, &mut t, &mut c)
}

// Up to 8 rows in two halves, with scratch memory for these. The two could be one function over the sizes, but of a cycle of calls whose
// functions differ in their parameters no theorem can be stated yet.
#[cycle(halves_halves_32_halves_8_lower_half)]
fn halves_8(
    p: u32,
    m: usize,
    n: usize,
    a: &[u32],
    d: &mut [u32],
    at: usize,
    stride: usize,
    rows: &mut [u32],
) -> [u32; ROW]
    requires { Eliminable p m n a.now d.old at stride no_marks rows.old × (0 < m) × (m ≤ 8) }
    ensures { Eliminated p m n a.now d.old at stride no_marks rows.old d.new result rows.new }
{
    let mut t = [0u32; T_8];
    let mut c = [0u32; C_8];
    halves(p, m, n, a, d, at, stride, rows, &mut t, &mut c)
}

// The quasiinverse of the m rows of a.
pub fn eliminate(
    p: u32,
    m: usize,
    n: usize,
    a: &[u32],
    d: &mut [u32],
    at: usize,
    stride: usize,
    columns: &mut [u32],
    rows: &mut [u32],
)
    requires { Eliminable p m n a.now d.old at stride columns.old rows.old }
    ensures { Eliminated p m n a.now d.old at stride columns.old rows.old
        d.new columns.new rows.new }
{
    if m == 0 {
        return;
    }
    if m <= 8 {
        let found = halves_8(p, m, n, a, d, at, stride, rows);
        add_marks(n, &found, columns);
        return;
    }
    let mut t = [0u32; T_64];
    let mut c = [0u32; C_64];
    let found = halves(p, m, n, a, d, at, stride, rows, &mut t, &mut c);
    add_marks(n, &found, columns);
}
