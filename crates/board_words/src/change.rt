// How the words of a board change: made fresh, a row more behind those that stand, and the last rows dropped.
ghost use Rattle.std.specs.Prelude.{◌≡◌, suc, ◌≤◌, length};
ghost use Rattle.checks.specs.Largest.{largest};
ghost use Rattle.ledger.specs.Board.{row_start, board_length};
ghost use Rattle.ledger.specs.Changes.{Fresh, Appended, Dropped};

use super::layout;
use super::layout::Header;

// Makes the words a fresh board for n records of s words modulo p.
pub fn make_fresh(p: u32, n: u32, s: u32, board: &mut [u32])
    requires { length board.old ≡ board_length n s }
    ensures { Fresh p n s board.new }
{
    words::clear(board);
    board[layout::MODULUS] = p;
    board[layout::SIZE] = n;
    board[layout::VALUES] = s;
}

// Writes the row f and the values v behind the standing rows, and counts it.
pub fn append(board: &mut [u32], header: Header, f: &[u32], v: &[u32])
    requires { (length f.now ≡ header.n) × (length v.now ≡ header.s) × (row_start header.n header.s (suc header.k) ≤ length board.old)
        × (header.k ≤ largest) }
    ensures { Appended header.n header.s header.k f.now v.now board.old board.new }
{
    let at = header.row_start(header.k);
    words::put(f, board, at);
    let end = header.value_start(header.k);
    words::put(v, board, end);
    board[layout::COUNT] = header.k as u32 + 1;
}

// Leaves the first m of the standing rows; the words of the others become 0.
pub fn drop_rows(board: &mut [u32], header: Header, m: u32)
    requires { (m ≤ header.k) × (row_start header.n header.s header.k ≤ length board.old) × (header.k ≤ largest) }
    ensures { Dropped header.n header.s header.k m board.old board.new }
{
    let from = header.row_start(m as usize);
    let end = header.row_start(header.k);
    words::clear(&mut board[from..end]);
    board[layout::COUNT] = m;
}
