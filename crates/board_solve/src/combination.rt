// Whether a row is a combination of the standing rows of a board, and which. R is the table of these rows, and D a pivot inverse of
// it, which is never made: f D comes of an elimination of the turned board.
ghost use Rattle.board_solve.specs.Combination.{CandidateRoom, CandidateTold, Findable, Combination};

use board_words::layout::{HEADER, Header};
use words::{ROW, filled};

// Whether the k multiplier rows are independent; then the zeros c become f D, the only combination of the rows that can be f: the
// solution of the system of the turned board with the right side f.
pub fn candidate(board: &[u32], f: &[u32], c: &mut [u32]) -> bool
    requires { CandidateRoom board.now f.now c.old }
    ensures { CandidateTold board.now f.now c.new result }
{
    let header = Header::of(board);
    let grid = header.turned();
    matrix_echelon::reduced::solution(header.p, grid, board, f, 1, &mut c[..header.k]) == header.k
}

// Whether the row f is a combination of the standing rows: c = f D is the only one that can be, and it is exactly if c R = f. (The
// header's words are no residues, so the rows are lent without it.)
pub fn find(board: &[u32], f: &[u32], c: &[u32]) -> bool
    requires { Findable board.now f.now c.now }
    ensures { Combination board.now f.now c.now result }
{
    let header = Header::of(board);
    let multipliers = &c[..header.k];
    let rows = &board[HEADER..];
    let width = header.row_length();
    let mut g: [u32; ROW] = filled(0);
    matrix_mul::rows::combine(header.p, multipliers, rows, 0, width, &mut g[..header.n]);
    words::same(f, &g[..header.n])
}
