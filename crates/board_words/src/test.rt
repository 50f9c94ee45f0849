// The board test: whether words are a board, by document 01's clauses in their order. The rows are independent exactly if their
// rank is their number.
ghost use Rattle.algebra.specs.Answers.{Tells};
ghost use Rattle.ledger.specs.Board.{IsBoard};
ghost use Rattle.board_words.specs.Tested.{HasHeader, Filled, LaidOut};

use super::layout;
use super::layout::{COUNT, HEADER, Header, MODULUS, SIZE, VALUES};

// Whether the words begin as a board does: the clauses up to k ≤ n.
fn has_header(board: &[u32]) -> bool
    ensures { Tells result (HasHeader board.now) }
{
    if board.len() < HEADER {
        return false;
    }
    if checks::frame_sizes(board[MODULUS], board[SIZE], board[VALUES]).is_err() {
        return false;
    }
    let n = board[SIZE] as usize;
    let s = board[VALUES] as usize;
    if board.len() != layout::board_length(n, s) {
        return false;
    }
    board[COUNT] <= board[SIZE]
}

// Whether the entries of the k rows are below p and all later words are 0.
fn is_filled(board: &[u32]) -> bool
    requires { HasHeader board.now }
    ensures { Tells result (Filled board.now) }
{
    let header = Header::of(board);
    let end = header.row_start(header.k);
    if !words::all_below(header.p, &board[HEADER..end]) {
        return false;
    }
    words::all_zero(&board[end..])
}

// Whether the words are laid out as a board's: all clauses but that the k multiplier rows are independent.
pub fn is_laid_out(board: &[u32]) -> bool
    ensures { Tells result (LaidOut board.now) }
{
    if !has_header(board) {
        return false;
    }
    is_filled(board)
}

// Whether the words are a board.
pub fn is_board(board: &[u32]) -> bool
    ensures { Tells result (IsBoard board.now) }
{
    if !is_laid_out(board) {
        return false;
    }
    let header = Header::of(board);
    matrix_echelon::forward::rank(header.p, header.rows(), board) == header.k
}
