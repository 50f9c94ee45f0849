// Examples worked out by hand: the frames that a box sends, rows for which it has none, and the order of the checks. Modulo 7 the box has
// the frames (1 2 0) 5 and (0 1 3) 4, later (0 0 1) 6 as well, which are of the records 5, 0 and 6.
ghost use Rattle.std.specs.Prelude.{◌≤◌};

use super::{memory, report};
use std::io;
use test_support::lent::{BYTES, WORDS};
use test_support::told::Told;
use test_support::{lent, output};
use words::filled;

// A call with so many words for its mix, and so many bytes.
fn relay(
    out: &impl Print,
    name: &[u8],
    board: &[u32],
    wanted: &[u32],
    room: usize,
    space: usize,
) -> io::Result<()>
    requires { (room ≤ 66) × (space ≤ 332) }
{
    let mut words: [u32; WORDS] = filled(memory::WORD);
    let mix = lent::front(&mut words, room);
    let mut lent_bytes: [u8; BYTES] = filled(memory::BYTE);
    let bytes = lent::front(&mut lent_bytes, space);
    let number = Told::from(relay_calls::relay(board, wanted, mix, bytes)).number;
    output::print_example(out, b"relay-", name, number)?;
    output::print_words(out, b" mix", mix)?;
    memory::print_front(out, b" bytes", bytes, 10)?;
    output::print_end(out)
}

// For three records of a word, with the lengths that are right.
fn three(out: &impl Print, name: &[u8], board: &[u32; 16], wanted: &[u32; 3]) -> io::Result<()> {
    relay(out, name, board, wanted, 3, 268)
}

// The first two frames: zeros, each row, sums and differences, of which the last has 0 for the second record; and rows that are no
// combination.
fn two_frames(out: &impl Print, board: &[u32; 16]) -> io::Result<()> {
    three(out, b"zero", board, &[0, 0, 0])?;
    three(out, b"first", board, &[1, 2, 0])?;
    three(out, b"second", board, &[0, 1, 3])?;
    three(out, b"sum", board, &[1, 3, 3])?;
    three(out, b"double-and-second", board, &[2, 5, 3])?;
    three(out, b"difference", board, &[1, 1, 4])?;
    three(out, b"second-twice-off", board, &[1, 0, 1])?;
    three(out, b"none", board, &[0, 0, 1])?;
    three(out, b"none-record", board, &[1, 0, 0])?;
    three(out, b"none-last-number", board, &[1, 3, 4])
}

// All three frames give each record.
fn full(out: &impl Print, board: &[u32; 16]) -> io::Result<()> {
    three(out, b"record-0", board, &[1, 0, 0])?;
    three(out, b"record-1", board, &[0, 1, 0])?;
    three(out, b"record-2", board, &[0, 0, 1])?;
    three(out, b"full-zero", board, &[0, 0, 0])
}

fn empty(out: &impl Print, board: &[u32; 16]) -> io::Result<()> {
    three(out, b"empty-zero", board, &[0, 0, 0])?;
    three(out, b"empty-none", board, &[1, 0, 0])
}

// Modulo 257 a number has two bytes. For two records of two words the box has (1 2) 3 4, of which three times is (3 6) 2 5.
fn sizes(out: &impl Print) -> io::Result<()> {
    let wide = [257, 3, 2, 1, 1, 2, 0, 5, 0, 1, 3, 4, 0, 0, 0, 0];
    three(out, b"wide-difference", &wide, &[1, 1, 254])?;
    let several = [7, 2, 1, 2, 1, 2, 3, 4, 0, 0, 0, 0];
    relay(out, b"two-words", &several, &[3, 6], 2, 272)?;
    relay(out, b"two-words-none", &several, &[1, 0], 2, 272)?;
    relay(out, b"two-words-bytes", &several, &[3, 6], 2, 268)
}

// 11 before all that would refuse on a board: modulo 4 there is none, nor where the second row is twice the first.
fn no_board(out: &impl Print) -> io::Result<()> {
    let four = [4, 3, 2, 1, 1, 2, 0, 3, 0, 1, 3, 0, 0, 0, 0, 0];
    relay(out, b"modulus-4", &four, &[7, 0], 2, 267)?;
    three(out, b"modulus-4-numbers", &four, &[7, 0, 1])?;
    let double = [7, 3, 2, 1, 1, 2, 0, 5, 2, 4, 0, 3, 0, 0, 0, 0];
    relay(out, b"dependent", &double, &[7, 0], 2, 267)?;
    three(out, b"dependent-numbers", &double, &[7, 0, 1])?;
    three(out, b"dependent-first", &double, &[1, 2, 0])?;
    relay(out, b"no-words", &[], &[7, 0], 2, 267)
}

// 3 before 4, and 4 before 15: modulo 7 the row is (0 0 1), which is no combination. Then numbers of 7 and more in rows that are one
// modulo 7.
fn order(out: &impl Print, board: &[u32; 16]) -> io::Result<()> {
    relay(out, b"wanted-short", board, &[7, 0], 3, 268)?;
    relay(out, b"wanted-long", board, &[7, 0, 1, 0], 3, 268)?;
    relay(out, b"mix-short", board, &[7, 0, 1], 2, 268)?;
    relay(out, b"mix-long", board, &[7, 0, 1], 4, 268)?;
    relay(out, b"bytes-267", board, &[7, 0, 1], 3, 267)?;
    relay(out, b"bytes-269", board, &[7, 0, 1], 3, 269)?;
    relay(out, b"bytes-none", board, &[0, 0, 1], 3, 0)?;
    three(out, b"number-7", board, &[7, 0, 1])?;
    three(out, b"number-8", board, &[8, 2, 0])?;
    three(out, b"number-4294967292", board, &[1, 2, 4294967292])
}

pub fn run(out: &impl Print) -> io::Result<()> {
    let pair = [7, 3, 2, 1, 1, 2, 0, 5, 0, 1, 3, 4, 0, 0, 0, 0];
    two_frames(out, &pair)?;
    full(out, &[7, 3, 3, 1, 1, 2, 0, 5, 0, 1, 3, 4, 0, 0, 1, 6])?;
    empty(out, &[7, 3, 0, 1, 0, 0, 0, 0, 0, 0, 0, 0, 0, 0, 0, 0])?;
    sizes(out)?;
    no_board(out)?;
    order(out, &pair)
}
