// Whether A D A = A for tables in memory, row by row: no product is kept whole. Leaves for the crates above, which meet what each
// requires.
#![tactic(auto)]

ghost use Rattle.std.specs.Prelude.{◌≡◌, ◌<◌, length};
ghost use Rattle.algebra.specs.Answers.{Tells};
ghost use Rattle.algebra.specs.Quasiinverse.{Absorbs};
ghost use Rattle.field.specs.Residue.{residues};
ghost use Rattle.field.specs.Written.{numbers};
ghost use Rattle.matrix_mul.specs.Places.{matrix_of};
ghost use Rattle.matrix_check.specs.Rows.{RowFactors, row_times, Pair, Rooms, RowKept, RowsKept};

use words::{ROW, filled};

// The row times the table, whose rows are as long as `out`.
fn times(p: u32, row: &[u32], table: &[u32], out: &mut [u32])
    requires { RowFactors p row.now table.now out.old }
    ensures { out.new ≡ numbers (length out.old) (row_times p row.now table.now (length out.old)) }
{
    words::clear(out);
    let width = out.len();
    matrix_mul::rows::combine(p, row, table, 0, width, out);
}

// The factors of A D A in memory: A, `height` rows of `width` numbers, and D, `width` rows of `height` numbers, all below p.
#[derive(Clone, Copy)]
pub struct Factors<'a, 'd> {
    pub p: u32,
    pub height: usize,
    pub width: usize,
    pub a: &'a [u32],
    pub d: &'d [u32],
    ghost pair: { Pair p height width a.now d.now },
}

impl Factors<'_, '_> {
    // Whether row i of A D A is row i of A: the row times D, and that times A. `through` and `back` are room for both.
    fn row_kept(self, i: usize, through: &mut [u32], back: &mut [u32]) -> bool
        requires { (i < self.height) × Rooms self.height self.width through.old back.old }
        ensures { let f = self.entry in Tells result (RowKept f.p f.height f.width f.a.now f.d.now i) }
    {
        let from = i * self.width;
        let end = from + self.width;
        times(self.p, &self.a[from..end], self.d, through);
        times(self.p, through, self.a, back);
        words::same(back, &self.a[from..end])
    }

    // Whether all rows are.
    fn rows_kept(self, through: &mut [u32], back: &mut [u32]) -> bool
        requires { Rooms self.height self.width through.old back.old }
        ensures { let f = self.entry in Tells result (RowsKept f.p f.height f.width f.a.now f.d.now f.height) }
    {
        for i in 0..self.height {
            if !self.row_kept(i, through, back) {
                return false;
            }
        }
        true
    }

    // Whether A D A = A: D is an inner inverse of A, and A an outer inverse of D.
    pub fn absorbs(self) -> bool
        ensures { let f = self.entry in Tells result
            (Absorbs (residues f.p) f.height f.width (matrix_of f.p f.a.now f.height f.width) (matrix_of f.p f.d.now f.width f.height)) }
    {
        let mut through: [u32; ROW] = filled(0);
        let mut back: [u32; ROW] = filled(0);
        self.rows_kept(&mut through[..self.height], &mut back[..self.width])
    }
}
