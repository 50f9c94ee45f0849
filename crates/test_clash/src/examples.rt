// Examples worked out by hand: which frames clash, logs without a clash, and the order of the checks. Modulo 7 the frames (1 2 0) 5,
// (0 1 3) 4 and (0 0 1) 6 are independent, and (1 3 3) 2 is the sum of the first two.
ghost use Rattle.std.specs.Prelude.{◌≤◌};

use super::report;
use std::io;
use test_support::lent::WORDS;
use test_support::told::Told;
use test_support::{lent, output};
use words::filled;

// A word that is no mark.
const WORD: u32 = 9;

// A call with so many words for its marks.
fn clash(
    out: &impl Print,
    name: &[u8],
    p: u32,
    m: u32,
    n: u32,
    s: u32,
    log: &[u32],
    room: usize,
) -> io::Result<()>
    requires { room ≤ 66 }
{
    let mut words: [u32; WORDS] = filled(WORD);
    let marks = lent::front(&mut words, room);
    let number = Told::from(clash_calls::clash(p, m, n, s, log, marks)).number;
    output::print_example(out, b"clash-", name, number)?;
    output::print_words(out, b" marks", marks)?;
    output::print_end(out)
}

// Four frames modulo 7 of three multipliers and a value each.
fn four(out: &impl Print, name: &[u8], log: &[u32; 16]) -> io::Result<()> {
    clash(out, name, 7, 4, 3, 1, log, 4)
}

// The sum with its own value, and with 3, before and behind the frame that is no part of it; then the first frame falsified in place
// of the sum, which is what contradicts.
fn sums(out: &impl Print) -> io::Result<()> {
    four(
        out,
        b"sum-honest",
        &[1, 2, 0, 5, 0, 1, 3, 4, 1, 3, 3, 2, 0, 0, 1, 6],
    )?;
    four(
        out,
        b"sum-falsified",
        &[1, 2, 0, 5, 0, 1, 3, 4, 1, 3, 3, 3, 0, 0, 1, 6],
    )?;
    four(
        out,
        b"sum-last",
        &[1, 2, 0, 5, 0, 0, 1, 6, 0, 1, 3, 4, 1, 3, 3, 3],
    )?;
    four(
        out,
        b"part-falsified",
        &[1, 2, 0, 6, 0, 1, 3, 4, 0, 0, 1, 6, 1, 3, 3, 2],
    )
}

// Two falsified frames, the sum and a repeat of the second, in both orders: the first contradiction is taken. Then twice the first plus
// the second, (2 5 3) 0, falsified, behind the double of the first, (2 4 0) 3: the first is selected, as its double is not in J.
fn firsts(out: &impl Print) -> io::Result<()> {
    four(
        out,
        b"sum-then-repeat",
        &[1, 2, 0, 5, 0, 1, 3, 4, 1, 3, 3, 3, 0, 1, 3, 5],
    )?;
    four(
        out,
        b"repeat-then-sum",
        &[1, 2, 0, 5, 0, 1, 3, 4, 0, 1, 3, 5, 1, 3, 3, 3],
    )?;
    four(
        out,
        b"double",
        &[1, 2, 0, 5, 2, 4, 0, 3, 0, 1, 3, 4, 2, 5, 3, 1],
    )
}

// Frames of no multipliers: with 0 for its value one says nothing, with 1 it clashes alone, in the middle and at the start.
fn zeros(out: &impl Print) -> io::Result<()> {
    four(
        out,
        b"zero-honest",
        &[0, 0, 0, 0, 1, 2, 0, 5, 0, 0, 0, 0, 1, 2, 0, 5],
    )?;
    four(
        out,
        b"zero-falsified",
        &[0, 0, 0, 0, 1, 2, 0, 5, 0, 0, 0, 1, 1, 2, 0, 6],
    )?;
    four(
        out,
        b"zero-first",
        &[0, 0, 0, 1, 1, 2, 0, 5, 0, 0, 0, 1, 1, 2, 0, 6],
    )
}

// Three frames modulo 7 of two multipliers and two values each.
fn three(out: &impl Print, name: &[u8], log: &[u32; 12]) -> io::Result<()> {
    clash(out, name, 7, 3, 2, 2, log, 3)
}

// (1 0) 1 2, (0 1) 3 4, and their sum, which has 4 6 for values. Then repeats of the first frame, wrong in the last word and after
// that in the first: what counts is the first frame, in any word.
fn words(out: &impl Print) -> io::Result<()> {
    three(out, b"words-honest", &[1, 0, 1, 2, 0, 1, 3, 4, 1, 1, 4, 6])?;
    three(out, b"first-word", &[1, 0, 1, 2, 0, 1, 3, 4, 1, 1, 5, 6])?;
    three(out, b"last-word", &[1, 0, 1, 2, 0, 1, 3, 4, 1, 1, 4, 5])?;
    three(
        out,
        b"last-then-first",
        &[1, 0, 1, 2, 1, 0, 1, 3, 1, 0, 2, 2],
    )
}

// Three frames of which, modulo 2, the third has the multipliers of the others' sum, and another value. Modulo 3 they are independent.
fn circle(out: &impl Print, name: &[u8], p: u32) -> io::Result<()> {
    clash(
        out,
        name,
        p,
        3,
        3,
        1,
        &[1, 1, 0, 1, 0, 1, 1, 1, 1, 0, 1, 1],
        3,
    )
}

// The frame (-1) 1 modulo 2^31 - 1, and (1) with that value; -1 would be right.
fn negative(out: &impl Print, name: &[u8], value: u32) -> io::Result<()> {
    clash(
        out,
        name,
        2147483647,
        2,
        1,
        1,
        &[2147483646, 1, 1, value],
        2,
    )
}

fn moduli(out: &impl Print) -> io::Result<()> {
    circle(out, b"modulo-2", 2)?;
    circle(out, b"modulo-3", 3)?;
    negative(out, b"negative-honest", 2147483646)?;
    negative(out, b"negative-falsified", 1)
}

// No frames; and then a word where there is room for none.
fn empty(out: &impl Print) -> io::Result<()> {
    clash(out, b"no-frames", 7, 0, 3, 1, &[], 0)?;
    clash(out, b"no-frames-log-long", 7, 0, 3, 1, &[0], 0)?;
    clash(out, b"no-frames-marks-long", 7, 0, 3, 1, &[], 1)
}

// 1, 2, 12, 3 and 4 in this order: a call that one check refuses would be refused by the later ones too.
fn order(out: &impl Print) -> io::Result<()> {
    clash(out, b"modulus-0", 0, 65, 0, 0, &[7], 2)?;
    clash(out, b"modulus-4", 4, 65, 0, 0, &[7], 2)?;
    clash(
        out,
        b"modulus-2147483648",
        2147483648,
        65,
        0,
        0,
        &[4294967295],
        2,
    )?;
    clash(out, b"65-frames", 7, 65, 3, 0, &[7], 2)?;
    clash(out, b"no-records", 7, 2, 0, 17, &[7], 2)?;
    clash(out, b"65-records", 7, 2, 65, 0, &[7], 2)?;
    clash(out, b"no-words", 7, 2, 1, 0, &[7], 2)?;
    clash(out, b"17-words", 7, 2, 1, 17, &[7], 2)?;
    clash(out, b"log-short", 7, 2, 1, 1, &[7, 1, 1], 2)?;
    clash(out, b"log-long", 7, 2, 1, 1, &[7, 1, 1, 1, 1], 2)?;
    clash(out, b"marks-short", 7, 2, 1, 1, &[7, 1, 1, 1], 1)?;
    clash(out, b"marks-long", 7, 2, 1, 1, &[7, 1, 1, 1], 3)
}

// Numbers of 7 and more, as a multiplier and as a value, and one behind two frames that clash.
fn numbers(out: &impl Print) -> io::Result<()> {
    clash(out, b"multiplier-7", 7, 2, 1, 1, &[7, 1, 1, 1], 2)?;
    clash(
        out,
        b"value-4294967295",
        7,
        2,
        1,
        1,
        &[1, 1, 1, 4294967295],
        2,
    )?;
    clash(out, b"behind-a-clash", 7, 3, 1, 1, &[1, 1, 1, 2, 1, 7], 3)
}

pub fn run(out: &impl Print) -> io::Result<()> {
    sums(out)?;
    firsts(out)?;
    zeros(out)?;
    words(out)?;
    moduli(out)?;
    empty(out)?;
    order(out)?;
    numbers(out)
}
