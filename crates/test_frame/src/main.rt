// Runs the calls on frames on stored cases, on document 01's examples and on some of document 02's #101, #103, #106 and #111. The cases
// are those of tools/frames.py, whose own reader, sums and writer say what each answers:
//
//     python3 tools/frames.py > crates/test_frame/stdin
//
// The file `stdout` has what that script counts, and for the examples what the documents give, worked out from them and not
// from a run:
// - `frames N`, `accepted N`, `refused K N` for each number K that occurred, `rewritten N`: the cases of reading by their answers.
// - `sealed N`, `refused K N` and `mismatches N`: the same of the cases of sealing; `written N` and so on: of writing.
// - `example CALL-WHAT NUMBER` for each example. Where the call is not refused the values come behind the number, or of writing the
//   length. A refusal that changed lent memory would add `touched`.
// - `mismatches N`: how often an answer to a stored case of reading, a value or lent memory was not the one expected.
#![tactic(auto)]

mod cases;
mod examples;
mod expected;
mod memory;
mod reads;
mod report;
mod seals;
mod writes;

use std::io;
use test_support::counts::Tally;
use test_support::input::Stored;
use test_support::{counts, output};

// The cases of a call that stand behind those of reading.
fn print_calls<F: Fn(&mut Stored, u32, u32, u32, &mut Tally)>(
    out: &impl Print,
    stored: &mut Stored,
    compare: &F,
    done: &[u8],
) -> io::Result<()>
    requires { F.IsAlwaysCallable compare.now }
{
    let mut tally = Tally::new();
    cases::run(stored, compare, &mut tally);
    report::print_calls(out, done, &tally)
}

fn main(rt: HostRuntime) -> io::Result<()> {
    let mut stored = Stored::new(rt.stdin());
    let mut tally = Tally::new();
    cases::run(&mut stored, &reads::compare, &mut tally);
    report::print_cases(&rt, &tally)?;
    print_calls(&rt, &mut stored, &seals::compare, b"sealed")?;
    print_calls(&rt, &mut stored, &writes::compare, b"written")?;
    examples::run(&rt)?;
    output::print_count(&rt, b"mismatches", &tally, counts::MISMATCHES)
}
