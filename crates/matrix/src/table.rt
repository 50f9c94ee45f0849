// A table that has passed the checks, and a system of it, with what the calls do with them: the quasiinverse, the mix of a row, and
// what a column leaves over.
ghost use Rattle.std.specs.Prelude.{◌≡◌, ◌<◌, length};
ghost use Rattle.algebra.specs.Solve.{mix_of, remainder};
ghost use Rattle.checks.specs.Prime.{IsModulus};
ghost use Rattle.field.specs.Residue.{residues};
ghost use Rattle.field.specs.Written.{numbers};
ghost use Rattle.words.specs.Words.{Below};
ghost use Rattle.matrix.specs.Calls.{table_of, inverse_of, vector_of};
ghost use Rattle.matrix.specs.Parts.{plain, turned, Checked, InverseRoom, StoresInverse};

use matrix_echelon::{Grid, reduced};

// `height` rows of `width` numbers below the modulus p, row after row, of which `checked` says all that the checks find.
#[derive(Clone, Copy)]
pub struct Table<'a> {
    pub p: u32,
    pub height: usize,
    pub width: usize,
    pub numbers: &'a [u32],
    ghost checked: { Checked p height width numbers.now },
}

impl Table<'_> {
    // The table as it stands, for the eliminations, which read it in place.
    pub fn plain(self) -> Grid
        ensures { result ≡ plain self.entry.height self.entry.width }
    {
        Grid {
            start: 0,
            down: self.width,
            along: 1,
            rows: self.height,
            columns: self.width,
        }
    }

    // The table turned, which is read in place too.
    fn turned(self) -> Grid
        ensures { result ≡ turned self.entry.height self.entry.width }
    {
        Grid {
            start: 0,
            down: 1,
            along: self.width,
            rows: self.width,
            columns: self.height,
        }
    }

    // Row y of 1 - A D. Row y of A D is row y of A as a combination of the rows of J: the solution of the turned system that has
    // row y as its right side.
    pub fn row_mix(self, y: usize, u: &mut [u32])
        requires { (y < self.height) × (length u.old ≡ self.height) }
        ensures { let t = self.entry in (ok : IsModulus t.p)
            → u.new ≡ numbers t.height (mix_of (residues t.p) t.width (table_of t.p t.height t.width t.numbers.now) (inverse_of t.p ok t.height t.width t.numbers.now) y) }
    {
        let from = y * self.width;
        let end = from + self.width;
        reduced::solution(
            self.p,
            self.turned(),
            self.numbers,
            &self.numbers[from..end],
            1,
            u,
        );
        matrix_mul::negate(self.p, u);
        u[y] = field::arith::plus(self.p, u[y], 1);
    }

    // D, I and J of the table, by Algorithm Q on memory that is cleared first.
    pub fn invert(self, d: &mut [u32], columns: &mut [u32], rows: &mut [u32])
        requires { InverseRoom self.height self.width d.old columns.old rows.old }
        ensures { let t = self.entry in (ok : IsModulus t.p)
            → StoresInverse t.p ok t.height t.width t.numbers.now d.new columns.new rows.new }
    {
        words::clear(d);
        words::clear(columns);
        words::clear(rows);
        matrix_inverse::eliminate::eliminate(
            self.p,
            self.height,
            self.width,
            self.numbers,
            d,
            0,
            self.height,
            columns,
            rows,
        );
    }
}

// The system A x = w of a table: w has as many numbers as the table has rows.
#[derive(Clone, Copy)]
pub struct LinearSystem<'a, 'w> {
    pub table: Table<'a>,
    pub w: &'w [u32],
    ghost right_side: { (length w.now ≡ table.height) × Below table.p w.now },
}

impl LinearSystem<'_, '_> {
    // What x leaves over of w, row after row: w - A x.
    pub fn remainder(self, x: &[u32], rest: &mut [u32])
        requires { (length x.now ≡ self.table.width) × (length rest.old ≡ self.table.height) }
        ensures { let t = self.entry.table in rest.new
            ≡ numbers t.height (remainder (residues t.p) t.width (table_of t.p t.height t.width t.numbers.now) (vector_of t.p x.now) (vector_of t.p self.entry.w.now)) }
    {
        let table = self.table;
        for i in 0..table.height {
            let start = i * table.width;
            let end = start + table.width;
            let image = field::sums::dot(table.p, &table.numbers[start..end], x, 0, 1);
            rest[i] = field::arith::minus(table.p, self.w[i], image);
        }
    }
}
