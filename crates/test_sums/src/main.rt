// Runs the sum of products of a row and a column on rows of 0 to 100,000 numbers of 32 bits, and prints a line for each sum. The file
// `stdout` has what the exact integers of tools/sums.py come to:
//
//     python3 tools/sums.py > crates/test_sums/stdout
//
// - `NUMBERS P K START STEP S`: modulo P, the first K numbers times those at START, START + STEP, .. come to S. NUMBERS are `largest`,
//   all 2^32 - 1, or `mixed`: number i is 2^32 - 1 less i × 2654435761, modulo 2^32.
// - `empty P S`: a row of no numbers, where start and step are 2^64 - 1.
// - `one-number P S`: the first 100,000 of the numbers of the lines above times a table of one number, the one at place 7, by steps
//   of 0.
#![tactic(auto)]

ghost use Rattle.std.specs.Prelude.{◌≡◌, ◌<◌, length};

mod memory;
mod sums;

use std::io;

// All sums over these numbers modulo p.
fn print_modulo(out: &impl Print, name: &[u8], p: u32, numbers: &[u32]) -> io::Result<()>
    requires { (0 < p) × (length numbers.now ≡ 100100) }
{
    sums::print_from(out, name, p, numbers, 0)?;
    sums::print_from(out, name, p, numbers, 37)?;
    sums::print_from(out, name, p, numbers, 50000)?;
    sums::print_longest(out, name, p, numbers, 0)?;
    sums::print_longest(out, name, p, numbers, 37)?;
    sums::print_sum(out, name, p, numbers, 100000, 50000, 0)?;
    sums::print_ends(out, p, numbers)
}

fn print_all(out: &impl Print, name: &[u8], numbers: &[u32]) -> io::Result<()>
    requires { length numbers.now ≡ 100100 }
{
    print_modulo(out, name, 251, numbers)?;
    print_modulo(out, name, 2147483629, numbers)?;
    print_modulo(out, name, 4294967291, numbers)?;
    sums::print_ends(out, 1, numbers)
}

fn main(rt: HostRuntime) -> io::Result<()> {
    let largest = memory::largest();
    print_all(&rt, b"largest", &largest)?;
    let mixed = memory::mixed();
    print_all(&rt, b"mixed", &mixed)
}
