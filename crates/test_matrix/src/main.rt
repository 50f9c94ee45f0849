// Runs the calls on tables on stored cases and on the documents' examples. The cases are those of tools/tables.py, whose own
// solver says what each answers and leaves:
//
//     python3 tools/tables.py > crates/test_matrix/stdin
//
// The file `stdout` has what that script counts, and for the examples what the document gives, worked out from them and not
// from a run:
// - `cases N`: the stored tables. `quasiinverses N`, `kernels N`, `solved N`, `insoluble N`, `fits N`: how many of the calls on
//   them answered as stored, solve by its answers. `own N`: how many of the quasiinverses that they left passed the check.
// - `accepted N`, `refused-17 N`, `refused-18 N`: how many of the stored pairs of a table and a D were so answered, as stored.
// - `example CALL-WHAT NUMBER` for each example. A refusal that changed lent memory would add `touched`, and a kernel of no
//   rows that is not the document's a line. Three nearest fits are given with z and the remainder.
// - `mismatches N`: how often an answer to a stored case, or the memory that it leaves, was not the one expected.
#![tactic(auto)]

mod calls;
mod cases;
mod check_examples;
mod examples;
mod memory;
mod pairs;
mod report;

use std::io;
use test_support::counts::Tally;
use test_support::input::Stored;
use test_support::{counts, output};

fn main(rt: HostRuntime) -> io::Result<()> {
    let mut stored = Stored::new(rt.stdin());
    let mut tally = Tally::new();
    cases::run(&mut stored, &calls::compare, &mut tally);
    cases::run(&mut stored, &pairs::compare, &mut tally);
    report::print_cases(&rt, &tally)?;
    examples::run(&rt)?;
    check_examples::run(&rt)?;
    output::print_count(&rt, b"mismatches", &tally, counts::MISMATCHES)
}
