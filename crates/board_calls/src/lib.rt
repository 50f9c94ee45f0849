// The board: open, take, withdraw and show. The ledger that they keep is in the words that the caller lends.
#![tactic(auto)]

ghost use Rattle.std.specs.Prelude.{◌≡◌};
ghost use Rattle.checks.specs.Outcome.{outcome};
ghost use Rattle.checks.specs.Told.{done_told, result_told};
ghost use Rattle.board_solve.specs.Told.{take_told};
ghost use Rattle.ledger.specs.Calls.{open_call, take_call, withdraw_call, show_call};

pub use board_solve::Taken;
use board_solve::{combination, records, take_row};
use board_words::layout::{COUNT, Header};
use board_words::{change, layout, test};
use checks::Refusal;
use words::{ROW, WIDE_TABLE, filled};

// Writes a fresh board for n records of s words modulo p. Refused are 1, p no modulus; 2, n not 1 to 64; 12, s not 1 to 16; and 3,
// another length than a board for n records of s words has.
pub fn open(p: u32, n: u32, s: u32, board: &mut [u32]) -> Result<(), Refusal>
    ensures { outcome (done_told result) board.new ≡ open_call p n s board.old }
{
    checks::frame_sizes(p, n, s)?;
    if board.len() != layout::board_length(n as usize, s as usize) {
        return Err(Refusal::Length);
    }
    change::make_fresh(p, n, s, board);
    Ok(())
}

// Takes a frame: new where its multipliers are no combination of the standing rows, and then it stands; otherwise repeat, or
// conflict (9) where its values are not what the same combination of values gives, with the combination in the mix. The frame is
// read first, since the elimination that tells whether the rows are independent carries its multipliers along; what reading
// answers is looked at last.
pub fn take(board: &mut [u32], frame: &[u8], mix: &mut [u32]) -> Result<Taken, Refusal>
    ensures { outcome (take_told result) (board.new, mix.new) ≡ take_call board.old frame.now mix.old }
{
    if !test::is_laid_out(board) {
        return Err(Refusal::NotBoard);
    }
    let header = Header::of(board);
    let n = header.n;
    let s = header.s;
    let mut f: [u32; ROW] = filled(0);
    let mut v: [u32; ROW] = filled(0);
    let read = frame_bytes::reading::read_frame(header.p, n, frame, &mut f[..n], &mut v[..s]);
    let mut c: [u32; ROW] = filled(0);
    if !combination::candidate(board, &f[..n], &mut c) {
        return Err(Refusal::NotBoard);
    }
    if mix.len() != n {
        return Err(Refusal::Length);
    }
    read?;
    take_row(board, &f[..n], &v[..s], &c, mix)
}

// Drops the last t frames; their words become 0.
pub fn withdraw(board: &mut [u32], t: u32) -> Result<u32, Refusal>
    ensures { outcome (result_told result) board.new ≡ withdraw_call board.old t }
{
    if !test::is_board(board) {
        return Err(Refusal::NotBoard);
    }
    let k = board[COUNT];
    if k < t {
        return Err(Refusal::Withdrawal);
    }
    let header = Header::of(board);
    let left = k - t;
    change::drop_rows(board, header, left);
    Ok(left)
}

// Marks the records that all assignments meeting the standing frames agree on, with the signed readings of their words from -low to
// p - 1 - low, record after record.
pub fn show(board: &[u32], low: u32, marks: &mut [u32], numbers: &mut [i32]) -> Result<u32, Refusal>
    ensures { outcome (result_told result) (marks.new, numbers.new) ≡ show_call board.now low marks.old numbers.old }
{
    if !test::is_laid_out(board) {
        return Err(Refusal::NotBoard);
    }
    let mut e: [u32; WIDE_TABLE] = filled(0);
    let mut pivots: [u32; ROW] = filled(0);
    if !records::reduce_board(board, &mut e, &mut pivots) {
        return Err(Refusal::NotBoard);
    }
    let header = Header::of(board);
    if marks.len() != header.n {
        return Err(Refusal::Length);
    }
    if numbers.len() != header.n * header.s {
        return Err(Refusal::Length);
    }
    if header.p <= low {
        return Err(Refusal::Number);
    }
    records::show_records(board, low, &e, &pivots, marks, numbers);
    let missing = header.n - header.k;
    Ok(missing as u32)
}
