// Runs relay on stored boards and on examples. The boards are those of tools/relays.py, whose own solvers say for each wanted row what is
// answered, and which mix and frame are left:
//
//     python3 tools/relays.py > crates/test_relay/stdin
//
// The file `stdout` has what that script counts, and for the examples what comes of them by hand, not from a run:
// - `boards N` and `calls N`, what is stored. Of the calls `done N` left a frame; `refused-11 N`, `refused-3 N`, `refused-4 N`,
//   `refused-15 N` were refused so. A call is counted there if it answered as stored.
// - `repeats N`: how many of the frames the same board takes as a repeat, with the count and the mix that belong to it; `reads N`: of how
//   many reading gives the wanted row.
// - `example relay-WHAT NUMBER mix .. bytes ..` for each example, with the mix and the first bytes as the call left them. Each word of the
//   mix begins as 9, and so does each byte.
// - `mismatches N`: how often an answer to a stored call, or the mix or the bytes that it leaves, all of them, were not the ones expected,
//   or a frame was not taken or read so.
#![tactic(auto)]

mod cases;
mod examples;
mod frames;
mod memory;
mod report;

use std::io;
use test_support::counts::Tally;
use test_support::input::Stored;
use test_support::{counts, output};

fn main(rt: HostRuntime) -> io::Result<()> {
    let mut stored = Stored::new(rt.stdin());
    let mut tally = Tally::new();
    cases::run(&mut stored, &mut tally);
    report::print_cases(&rt, &tally)?;
    examples::run(&rt)?;
    output::print_count(&rt, b"mismatches", &tally, counts::MISMATCHES)
}
