// The relay box: the frame of a wanted row of multipliers, made from the frames that stand on a board. The public call relay.
#![tactic(auto)]

ghost use Rattle.std.specs.Prelude.{◌≡◌, ℕ, ◌<◌, length, get_or};
ghost use Rattle.checks.specs.Outcome.{outcome};
ghost use Rattle.checks.specs.Told.{result_told};
ghost use Rattle.ledger.specs.Board.{values_word};
ghost use Rattle.board_solve.specs.Taking.{Comparable, combined_value};
ghost use Rattle.relay.specs.Calls.{relay_call};
ghost use Rattle.relay_calls.specs.Parts.{Relayable, RelaysRow};

use board_solve::combination;
use board_words::layout::Header;
use board_words::test;
use checks::Refusal;
use frame_bytes::writer::{longest, write_frame};
use words::{ROW, all_below, filled};

// Writes the values of the combination c of the standing rows, one for each word of a record.
fn combine_values(board: &[u32], c: &[u32], v: &mut [u32])
    requires { Comparable board.now c.now v.old }
    ensures { (length v.new ≡ values_word board.now)
        × ((w : ℕ) → w < values_word board.now → get_or v.new w 0 ≡ (combined_value board.now c.now w).value) }
{
    let header = Header::of(board);
    let first = header.value_start(0);
    let step = header.row_length();
    for (u, x) in v.iter_mut().enumerate() {
        *x = field::sums::dot(header.p, &c[..header.k], board, first + u, step);
    }
}

// Relays the wanted row, n multipliers below p: where it is a combination of the standing rows, the candidate c, that goes to the mix,
// and the frame with the same combination of the values to the front of the bytes. Answers the frame's length.
fn relay_row(
    board: &[u32],
    wanted: &[u32],
    c: &[u32],
    mix: &mut [u32],
    bytes: &mut [u8],
) -> Result<u32, Refusal>
    requires { Relayable board.now wanted.now c.now mix.old bytes.old }
    ensures { RelaysRow board.now wanted.now mix.old bytes.old
        (outcome (result_told result) (mix.new, bytes.new)) }
{
    if !combination::find(board, wanted, c) {
        return Err(Refusal::NotInSpan);
    }
    let header = Header::of(board);
    let s = header.s;
    let mut v: [u32; ROW] = filled(0);
    combine_values(board, c, &mut v[..s]);
    words::put(&c[..wanted.len()], mix, 0);
    let length = write_frame(header.p, wanted.len(), wanted, &v[..s], bytes) as u32;
    Ok(length)
}

// Writes the one frame with the wanted row of multipliers that the frames on the board combine to, to the front of the lent
// 264 + 4 × s bytes, and the combination to the mix; answers the frame's length. Refused are 11, no board; 3, not n wanted numbers, not n
// words of mix or not that many bytes; 4, a wanted number not below p; 15, the wanted row is no combination of the standing rows.
// Whether the rows are independent is told by the elimination that finds the candidate; a wanted row of another length has none.
pub fn relay(
    board: &[u32],
    wanted: &[u32],
    mix: &mut [u32],
    bytes: &mut [u8],
) -> Result<u32, Refusal>
    ensures { outcome (result_told result) (mix.new, bytes.new)
        ≡ relay_call board.now wanted.now mix.old bytes.old }
{
    if !test::is_laid_out(board) {
        return Err(Refusal::NotBoard);
    }
    let header = Header::of(board);
    if wanted.len() != header.n {
        if !test::is_board(board) {
            return Err(Refusal::NotBoard);
        }
        return Err(Refusal::Length);
    }
    let mut c: [u32; ROW] = filled(0);
    if !combination::candidate(board, wanted, &mut c) {
        return Err(Refusal::NotBoard);
    }
    if mix.len() != header.n {
        return Err(Refusal::Length);
    }
    if bytes.len() != longest(header.s) {
        return Err(Refusal::Length);
    }
    if !all_below(header.p, wanted) {
        return Err(Refusal::Number);
    }
    relay_row(board, wanted, &c, mix, bytes)
}
