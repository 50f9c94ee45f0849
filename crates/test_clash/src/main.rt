// Runs clash on stored logs of frames and on examples. The logs are those of tools/clashes.py, whose own solvers say what each answers
// and which marks it leaves:
//
//     python3 tools/clashes.py > crates/test_clash/stdin
//
// The file `stdout` has what that script counts, and for the examples what comes of them by hand, not from a run:
// - `cases N`: the stored calls. Of these `clashes N` selected frames and `clear N` none; `refused-1 N`, `refused-2 N`, `refused-12 N`,
//   `refused-3 N`, `refused-4 N` were refused so. A call is counted there if it answered as stored.
// - `example clash-WHAT NUMBER marks ..` for each example, with the marks as the call left them. Each mark begins as 9.
// - `mismatches N`: how often an answer to a stored call, or the marks that it leaves, were not the ones expected.
#![tactic(auto)]

mod cases;
mod examples;
mod memory;
mod report;

use std::io;
use test_support::counts::Tally;
use test_support::input::Stored;
use test_support::{counts, output};

fn main(rt: HostRuntime) -> io::Result<()> {
    let mut stored = Stored::new(rt.stdin());
    let mut tally = Tally::new();
    cases::run(&mut stored, &mut tally);
    report::print_cases(&rt, &tally)?;
    examples::run(&rt)?;
    output::print_count(&rt, b"mismatches", &tally, counts::MISMATCHES)
}
