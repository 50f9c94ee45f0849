// Plays stored lists of calls on the board, and document 01's examples. The lists are those of tools/boards.py, whose own
// ledger says what each call answers and leaves in memory:
//
//     python3 tools/boards.py > crates/test_board/stdin
//
// The file `stdout` has what that script's ledger counts, and for the examples what the document gives, worked out from them
// and not from a run:
// - `histories N`, and `unopened N` where open was refused; `takes N`, and of these `new N`, `repeat N`, `conflict N` (9) and
//   `refused N` (otherwise); `withdrawals N`, `shows N`; `tampered N`, how often a word was written into a board.
// - `example NAME ANSWER COUNT` for each example, and the mix, or the marks and numbers, as the call left them. Open has no
//   count, and that of a show is what is missing. Lent words begin as 9 and lent numbers as -9. An open that is refused and
//   changed them would add `touched`.
// - `mismatches N`: how often an answer to a stored call, lent memory or a board was not the one expected.
#![tactic(auto)]

mod calls;
mod examples;
mod memory;
mod report;

use std::io;
use test_support::counts::Tally;
use test_support::input::Stored;
use test_support::{counts, output};

fn main(rt: HostRuntime) -> io::Result<()> {
    let mut stored = Stored::new(rt.stdin());
    let mut tally = Tally::new();
    calls::run(&mut stored, &mut tally);
    report::print_calls(&rt, &tally)?;
    examples::run(&rt)?;
    output::print_count(&rt, b"mismatches", &tally, counts::MISMATCHES)
}
