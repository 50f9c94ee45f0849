// What the standing rows of a board say: whether a row is a combination of them, what becomes of a frame that has been read, and
// which records are settled.
#![tactic(auto)]

ghost use Rattle.algebra.specs.Answers.{Tells};
ghost use Rattle.checks.specs.Outcome.{outcome};
ghost use Rattle.board_solve.specs.Told.{take_told};
ghost use Rattle.board_solve.specs.Taking.{Comparable, CombinationGives, Takeable, TakesRow};

use board_words::change;
use board_words::layout::{COUNT, Header};
use checks::Refusal;

pub mod combination;
pub mod records;

// What take answers where it does not refuse: whether the frame is new or a repeat, with the count.
#[derive(Clone, Copy, Debug, PartialEq, Eq)]
pub enum Taken {
    New(u32),
    Repeat(u32),
}

// Whether the combination c of the standing rows gives the values v, each of them.
fn values_agree(board: &[u32], c: &[u32], v: &[u32]) -> bool
    requires { Comparable board.now c.now v.now }
    ensures { Tells result (CombinationGives board.now c.now v.now) }
{
    let header = Header::of(board);
    let first = header.value_start(0);
    let step = header.row_length();
    for (u, x) in v.iter().enumerate() {
        if field::sums::dot(header.p, &c[..header.k], board, first + u, step) != *x {
            return false;
        }
    }
    true
}

// Takes the row f, n multipliers, with the values v: appends it where it is no combination of the standing rows, and else writes
// the combination, the candidate c, to the mix and compares the same combination of the values with v.
pub fn take_row(
    board: &mut [u32],
    f: &[u32],
    v: &[u32],
    c: &[u32],
    mix: &mut [u32],
) -> Result<Taken, Refusal>
    requires { Takeable board.old f.now v.now c.now mix.old }
    ensures { TakesRow board.old f.now v.now mix.old (outcome (take_told result) (board.new, mix.new)) }
{
    let count = board[COUNT];
    if !combination::find(board, f, c) {
        let header = Header::of(board);
        change::append(board, header, f, v);
        return Ok(Taken::New(count + 1));
    }
    words::put(&c[..f.len()], mix, 0);
    if !values_agree(board, c, v) {
        return Err(Refusal::Conflict);
    }
    Ok(Taken::Repeat(count))
}
