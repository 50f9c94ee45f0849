// Showing the records of a board. R is the table of the standing rows, and D a pivot inverse of it: record j is settled exactly if
// row j of D R is the unit row of j, and then its words are row j of D times the values, word by word. Both stand in the reduced form
// of the rows, with the values carried along.
ghost use Rattle.std.specs.Prelude.{◌+◌, ◌<◌, ◌≤◌, pos, length, get_or};
ghost use Rattle.algebra.specs.Answers.{Tells};
ghost use Rattle.checks.specs.Prime.{largest_modulus};
ghost use Rattle.words.specs.Words.{Below};
ghost use Rattle.signed.specs.Reading.{reading};
ghost use Rattle.board_solve.specs.Records.{ReducedRoom, ReducedTold, IsUnitRow, WorkedRow, worked_place, UnitAt, NumbersPut, Showable, ShowsRecords};

use board_words::layout::Header;

// Whether the k multiplier rows are independent; then e becomes the reduced form of the rows with the values carried along.
pub fn reduce_board(board: &[u32], e: &mut [u32], pivots: &mut [u32]) -> bool
    requires { ReducedRoom board.now e.old pivots.old }
    ensures { ReducedTold board.now e.new pivots.new result }
{
    let header = Header::of(board);
    let grid = header.rows();
    let values = &board[header.value_start(0)..];
    let step = header.row_length();
    matrix_echelon::reduced::reduced(header.p, grid, board, values, step, header.s, e, pivots)
        == header.k
}

// Whether e is the unit row of j.
fn is_unit(e: &[u32], j: usize) -> bool
    ensures { Tells result (IsUnitRow e.now j) }
{
    e.iter().enumerate().all(|(t, x)| *x == u32::from(t == j))
}

// Whether the worked row of record j is the unit row of j. The row is counted from 1; 0 says that there is none.
fn settled(header: Header, row: usize, e: &[u32], j: usize) -> bool
    requires { WorkedRow row e.now }
    ensures { Tells result (UnitAt header.n header.s row j e.now) }
{
    if row == 0 {
        return false;
    }
    let at = (row - 1) * (header.n + header.s);
    let end = at + header.n;
    is_unit(&e[at..end], j)
}

// Writes the signed readings of the values behind a worked row, with the low end, to the numbers from the place on.
fn put_words(header: Header, low: u32, row: usize, e: &[u32], numbers: &mut [i32], at: usize)
    requires { WorkedRow row e.now × (0 < row) × (low < header.p) × (header.p ≤ largest_modulus) × Below header.p e.now
        × (at + header.s ≤ length numbers.old) }
    ensures { NumbersPut at header.s (λ u. reading header.p low (get_or e.now (worked_place header.n header.s row (header.n + u)) 0))
        numbers.old numbers.new }
{
    let from = (row - 1) * (header.n + header.s) + header.n;
    for u in 0..header.s {
        numbers[at + u] = signed::read_from(header.p, low, e[from + u]);
    }
}

// Writes s zeros from the place on.
fn clear_words(s: usize, numbers: &mut [i32], at: usize)
    requires { at + s ≤ length numbers.old }
    ensures { NumbersPut at s (λ u. pos 0) numbers.old numbers.new }
{
    numbers[at..at + s].fill(0);
}

// Marks each settled record and gives the signed readings of its words with the low end; 0 and zeros for the others.
pub fn show_records(
    board: &[u32],
    low: u32,
    e: &[u32],
    pivots: &[u32],
    marks: &mut [u32],
    numbers: &mut [i32],
)
    requires { Showable board.now low e.now pivots.now marks.old numbers.old }
    ensures { ShowsRecords board.now low marks.new numbers.new }
{
    let header = Header::of(board);
    let s = header.s;
    let rows = matrix_echelon::reduced::rows_by_pivot(header.k, pivots);
    for j in 0..header.n {
        let row = rows[j] as usize;
        if settled(header, row, e, j) {
            marks[j] = 1;
            put_words(header, low, row, e, numbers, j * s);
        } else {
            marks[j] = 0;
            clear_words(s, numbers, j * s);
        }
    }
}
