// The first clash among the frames of a log. A is the table of their multipliers, V that of their values, and D the quasiinverse of A:
// the first frame that contradicts the earlier ones is the first row where A (D V) is not V, and the rows that it combines from are
// those where its row of A D is not 0. Neither D nor a copy of A is made; the log is read in place, and both eliminations use one room.
// Leaves for `clash_calls`.
#![tactic(auto)]

ghost use Rattle.std.specs.Prelude.{◌≡◌, ◌≤◌, ◌<◌, length, get_or, take};
ghost use Rattle.algebra.specs.Quasiinverse.{count};
ghost use Rattle.checks.specs.Outcome.{outcome};
ghost use Rattle.checks.specs.Told.{results};
ghost use Rattle.checks.specs.Largest.{largest, most_words};
ghost use Rattle.checks.specs.Prime.{IsModulus};
ghost use Rattle.words.specs.Lengths.{longest_row, widest_table};
ghost use Rattle.field.specs.Written.{numbers, marks_of, marked};
ghost use Rattle.matrix_echelon.specs.Forward.{Room};
ghost use Rattle.clash.specs.Calls.{contradiction, combination_of, clash_of};
ghost use Rattle.clash.specs.Parts.{Logged, WorkedRows, carried_number, word_number, WordRead};
ghost use Rattle.clash.specs.Parts.{WordLooked, FirstOther, FirstByWords};

use matrix_echelon::{Grid, reduced};
use words::{ROW, WIDE_TABLE, filled};

// What a worked row carries for word w. The row is counted from 1; 0 says that there is none, and gives 0.
fn carried_number(n: usize, s: usize, w: usize, row: usize, e: &[u32]) -> u32
    requires { (n ≤ largest) × (s ≤ most_words) × (w < s) × (row ≤ longest_row) × (length e.now ≡ widest_table) }
    ensures { result ≡ carried_number n s w row e.now }
{
    if row == 0 {
        return 0;
    }
    e[(row - 1) * (n + s) + (n + w)]
}

// A carried column of n numbers, times D: column w of the s that the worked rows carry.
fn word_column(n: usize, s: usize, w: usize, at: &[u32], e: &[u32]) -> [u32; ROW]
    requires { WorkedRows n s at.now e.now × (w < s) }
    ensures { WordRead n s w at.now e.now result }
{
    let mut x: [u32; ROW] = filled(0);
    for j in 0..n {
        x[j] = carried_number(n, s, w, at[j] as usize, e);
    }
    x
}

// The first of k frames whose word w the column x does not meet, or k.
fn first_other(p: u32, k: usize, n: usize, s: usize, w: usize, log: &[u32], x: &[u32]) -> usize
    requires { WordLooked p k n s w log.now × (length x.now ≡ n) }
    ensures { FirstOther p k n s w log.now (λ j. get_or x.now j 0) result }
{
    for i in 0..k {
        let from = i * (n + s);
        let end = from + n;
        if field::sums::dot(p, &log[from..end], x, 0, 1) != log[end + w] {
            return i;
        }
    }
    k
}

// The first frame that D V does not meet in some word, or m: for each word those in front of the first one so far are looked at.
fn first_by_words(p: u32, m: usize, n: usize, s: usize, log: &[u32], at: &[u32], e: &[u32]) -> usize
    requires { Logged p m n s log.now × WorkedRows n s at.now e.now }
    ensures { FirstByWords p m n s s log.now (word_number n s at.now e.now) result }
{
    let mut y = m;
    for w in 0..s {
        let x = word_column(n, s, w, at, e);
        y = first_other(p, y, n, s, w, log, &x[..n]);
    }
    y
}

// The first frame that contradicts the earlier ones, or m. The worked rows of the multipliers carry the values. e and pivots are room.
pub fn first_contradiction(
    p: u32,
    m: usize,
    n: usize,
    s: usize,
    log: &[u32],
    e: &mut [u32],
    pivots: &mut [u32],
) -> usize
    requires { Logged p m n s log.now × Room p e.old pivots.old }
    ensures { ((ok : IsModulus p) → result ≡ contradiction p ok m n s log.now) × Room p e.new pivots.new }
{
    if m == 0 {
        return 0;
    }
    let width = n + s;
    let rows = Grid {
        start: 0,
        down: width,
        along: 1,
        rows: m,
        columns: n,
    };
    let rank = reduced::reduced(p, rows, log, &log[n..], width, s, e, pivots);
    let at = reduced::rows_by_pivot(rank, pivots);
    first_by_words(p, m, n, s, log, &at, e)
}

// Row y of A D: where row y is a combination of rows of J, the multipliers of these. It is the solution of the turned system that has row y
// as its right side, and the worked rows carry it. e and pivots are room.
pub fn combination(
    p: u32,
    m: usize,
    n: usize,
    s: usize,
    log: &[u32],
    y: usize,
    e: &mut [u32],
    pivots: &mut [u32],
) -> [u32; ROW]
    requires { Logged p m n s log.now × (y < m) × Room p e.old pivots.old }
    ensures { (length result ≡ longest_row) × ((ok : IsModulus p) → take m result ≡ numbers m (combination_of p ok m n s log.now y)) }
{
    let width = n + s;
    let turned = Grid {
        start: 0,
        down: 1,
        along: width,
        rows: n,
        columns: m,
    };
    let from = y * width;
    let end = from + n;
    let rank = reduced::reduced(p, turned, log, &log[from..end], 1, 1, e, pivots);
    let at = reduced::rows_by_pivot(rank, pivots);
    word_column(m, 1, 0, &at, e)
}

// Makes each number that is not 0 a mark, 1. Answers how many they are.
fn mark_nonzero(u: &mut [u32]) -> u32
    requires { length u.old ≤ largest }
    ensures { (u.new ≡ marks_of (length u.old) (marked u.old))
        × (result ≡ count (length u.old) (marked u.old)) }
{
    let mut selected: u32 = 0;
    for x in u.iter_mut() {
        if *x != 0 {
            *x = 1;
            selected += 1;
        }
    }
    selected
}

// Marks the frames of the first clash and answers how many they are; 0, and all marks 0, where no frame contradicts the earlier ones.
pub fn select(p: u32, m: usize, n: usize, s: usize, log: &[u32], marks: &mut [u32]) -> u32
    requires { Logged p m n s log.now × (length marks.old ≡ m) }
    ensures { (ok : IsModulus p) → outcome (results result) marks.new ≡ clash_of p ok m n s log.now }
{
    let mut e: [u32; WIDE_TABLE] = filled(0);
    let mut pivots: [u32; ROW] = filled(0);
    let y = first_contradiction(p, m, n, s, log, &mut e, &mut pivots);
    if y == m {
        words::clear(marks);
        return 0;
    }
    let by = combination(p, m, n, s, log, y, &mut e, &mut pivots);
    words::put(&by[..m], marks, 0);
    marks[y] = 1;
    mark_nonzero(marks)
}
