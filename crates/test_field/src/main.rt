// Runs what document 01 says of the modulus and of the signed reading, and prints a line for each call; then the calls with low
// ends of document 02's #106, on the cases of tools/readings.py, whose own reading says what each answers:
//
//     python3 tools/readings.py > crates/test_field/stdin
//
// The file `stdout` has the lines that document 01 gives, worked out from it, and what that script counts, and nothing from a run:
// - "Examples", its line "Modulus: ..", with neighbours of the numbers there: `modulus P yes` or `modulus P no`.
// - "What is handed back on refusal", the column "Returned": `refusal K` for each kind, in the table's order, then document 02's 12,
//   17 and 18.
// - "The field and the tables", its paragraph "Signed reading of a residue v": `signed P V Z` and back `residue P Z V`, at both
//   ends of the range and one beyond, with `refused N` in the last place where check 1 or check 4 stops the call. They are read
//   with the old low end, (p - 1)/2 rounded down.
// - `readings N`, `residues N`, `refused N`, `mismatches N`: the stored cases by their answers, and how often one was not as expected.
#![tactic(auto)]

ghost use Rattle.std.specs.Prelude.{◌≤◌, ◌<◌};

mod cases;

use checks::Refusal;
use std::io;
use test_support::counts;
use test_support::counts::Tally;
use test_support::input::Stored;
use test_support::output::{print_count, print_end, print_number, print_text};

fn print_refused(out: &impl Print, kind: Refusal) -> io::Result<()> {
    print_text(out, b" refused")?;
    print_number(out, u32::from(kind))
}

fn print_modulus(out: &impl Print, p: u32) -> io::Result<()> {
    print_text(out, b"modulus")?;
    print_number(out, p)?;
    if checks::is_modulus(p) {
        print_text(out, b" yes\n")?;
    } else {
        print_text(out, b" no\n")?;
    }
    Ok(())
}

fn print_refusal(out: &impl Print, kind: Refusal) -> io::Result<()> {
    print_text(out, b"refusal")?;
    print_number(out, u32::from(kind))?;
    print_end(out)
}

fn print_reading(out: &impl Print, p: u32, v: u32) -> io::Result<()>
    requires { 0 < p }
{
    print_text(out, b"signed")?;
    print_number(out, p)?;
    print_number(out, v)?;
    match signed::signed(p, signed::balanced_low(p), v) {
        Ok(z) => print_number(out, z)?,
        Err(kind) => print_refused(out, kind)?,
    }
    print_end(out)
}

fn print_residue(out: &impl Print, p: u32, z: i32) -> io::Result<()>
    requires { 0 < p }
{
    print_text(out, b"residue")?;
    print_number(out, p)?;
    print_number(out, z)?;
    match signed::residue(p, signed::balanced_low(p), z) {
        Ok(v) => print_number(out, v)?,
        Err(kind) => print_refused(out, kind)?,
    }
    print_end(out)
}

// Document 01's examples of a modulus and numbers near them.
fn print_moduli(out: &impl Print) -> io::Result<()> {
    print_modulus(out, 0)?;
    print_modulus(out, 1)?;
    print_modulus(out, 2)?;
    print_modulus(out, 3)?;
    print_modulus(out, 4)?;
    print_modulus(out, 251)?;
    print_modulus(out, 65537)?;
    print_modulus(out, 46337)?;
    print_modulus(out, 2147117569)?;
    print_modulus(out, 2147483629)?;
    print_modulus(out, 2147483646)?;
    print_modulus(out, 2147483647)?;
    print_modulus(out, 2147483648)?;
    print_modulus(out, 4294967295)
}

// The kinds in the order of document 01's table, then those of document 02 by their numbers.
fn print_refusals(out: &impl Print) -> io::Result<()> {
    print_refusal(out, Refusal::Modulus)?;
    print_refusal(out, Refusal::Size)?;
    print_refusal(out, Refusal::Length)?;
    print_refusal(out, Refusal::Number)?;
    print_refusal(out, Refusal::Insoluble)?;
    print_refusal(out, Refusal::FrameLength)?;
    print_refusal(out, Refusal::Padding)?;
    print_refusal(out, Refusal::ZeroMultiplier)?;
    print_refusal(out, Refusal::Conflict)?;
    print_refusal(out, Refusal::Withdrawal)?;
    print_refusal(out, Refusal::NotBoard)?;
    print_refusal(out, Refusal::Words)?;
    print_refusal(out, Refusal::NotInner)?;
    print_refusal(out, Refusal::NotOuter)
}

// The residues 0, p/2, the next one where it is below p, p - 1, and p, which check 4 stops. For p = 2 and p = 3 one of them
// comes twice.
fn print_readings(out: &impl Print, p: u32) -> io::Result<()>
    requires { (2 ≤ p) × (p ≤ 2147483647) }
{
    print_reading(out, p, 0)?;
    print_reading(out, p, p / 2)?;
    if p / 2 + 1 < p {
        print_reading(out, p, p / 2 + 1)?;
    }
    print_reading(out, p, p - 1)?;
    print_reading(out, p, p)
}

// The ends of the range, -(p - 1)/2 and p/2, and the numbers one beyond them, which check 4 stops.
fn print_residues(out: &impl Print, p: u32) -> io::Result<()>
    requires { (2 ≤ p) × (p ≤ 2147483647) }
{
    let low = (p - 1) / 2;
    let high = p / 2;
    print_residue(out, p, -(low as i32))?;
    print_residue(out, p, high as i32)?;
    print_residue(out, p, -((low + 1) as i32))?;
    print_residue(out, p, (high + 1) as i32)
}

// Reading and its inverse modulo p.
fn print_both(out: &impl Print, p: u32) -> io::Result<()>
    requires { (2 ≤ p) × (p ≤ 2147483647) }
{
    print_readings(out, p)?;
    print_residues(out, p)
}

// Document 01's cases, with the old low end.
fn print_old(out: &impl Print) -> io::Result<()> {
    print_moduli(out)?;
    print_refusals(out)?;
    print_both(out, 2)?;
    print_both(out, 3)?;
    print_both(out, 251)?;
    print_both(out, 65537)?;
    print_both(out, 2147483647)?;
    print_reading(out, 4, 1)?;
    print_residue(out, 1, 0)?;
    // Check 1 comes before check 4.
    print_reading(out, 4, 9)
}

fn main(rt: HostRuntime) -> io::Result<()> {
    print_old(&rt)?;
    let mut stored = Stored::new(rt.stdin());
    let mut tally = Tally::new();
    cases::run(&mut stored, &mut tally);
    print_count(&rt, b"readings", &tally, cases::READINGS)?;
    print_count(&rt, b"residues", &tally, cases::RESIDUES)?;
    print_count(&rt, b"refused", &tally, cases::REFUSED)?;
    print_count(&rt, b"mismatches", &tally, counts::MISMATCHES)
}
