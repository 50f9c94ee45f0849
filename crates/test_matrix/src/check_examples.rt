// Examples of check, document 02's request 113: its answers, tables without rows or columns, the largest tables, and the order of
// the checks: a call that one check refuses would be refused by the later ones too.
use super::{memory, report};
use std::io;
use test_support::output;
use test_support::told::Told;
use words::filled;

// A check of D. Nothing is lent to be written.
pub fn check(
    out: &impl Print,
    name: &[u8],
    p: u32,
    m: u32,
    n: u32,
    a: &[u32],
    d: &[u32],
) -> io::Result<()> {
    let number = Told::from(matrix_calls::check(p, m, n, a, d)).number;
    output::print_example(out, b"check-", name, number)?;
    output::print_end(out)
}

// Another quasiinverse than ours; ADA is not A; DAD is not D; both.
fn answers(out: &impl Print) -> io::Result<()> {
    check(out, b"other", 5, 1, 2, &[1, 0], &[1, 3])?;
    check(out, b"not-inner", 5, 1, 2, &[1, 0], &[0, 0])?;
    check(out, b"not-outer", 2, 1, 1, &[0], &[1])?;
    check(out, b"both-wrong", 7, 1, 1, &[1], &[2])
}

// No rows, no columns, neither; and then a number where there is room for none.
fn empty(out: &impl Print) -> io::Result<()> {
    check(out, b"no-rows", 5, 0, 2, &[], &[])?;
    check(out, b"no-columns", 5, 2, 0, &[], &[])?;
    check(out, b"no-rows-no-columns", 5, 0, 0, &[], &[])?;
    check(out, b"no-rows-a-long", 5, 0, 2, &[0], &[])?;
    check(out, b"no-rows-d-long", 5, 0, 2, &[], &[0])
}

// The table of ones, which has a 1 at any place for a quasiinverse; products that differ at the last place alone; and numbers as
// large as they can be: modulo 2^31 - 1 the table of -1 has that of -2^19 for a quasiinverse, as 64 * 64 * 2^19 is 2^31.
fn largest(out: &impl Print) -> io::Result<()> {
    let zeros: [u32; memory::TABLE] = filled(0);
    let ones: [u32; memory::TABLE] = filled(1);
    let first = memory::only(0);
    let last = memory::only(4095);
    check(out, b"64-first", 7, 64, 64, &ones, &first)?;
    check(out, b"64-last", 7, 64, 64, &ones, &last)?;
    check(out, b"64-not-inner", 7, 64, 64, &last, &zeros)?;
    check(out, b"64-not-outer", 7, 64, 64, &zeros, &last)?;
    let a: [u32; memory::TABLE] = filled(2147483646);
    let d: [u32; memory::TABLE] = filled(2146959359);
    check(out, b"64-high", 2147483647, 64, 64, &a, &d)
}

// Each slice one word too short and one too long for 2 rows and 3 columns, with numbers of p in both.
fn lengths_of(out: &impl Print, a: &[u32], d: &[u32]) -> io::Result<()> {
    check(out, b"a-short", 7, 2, 3, &[7, 0, 1, 0, 1], d)?;
    check(out, b"a-long", 7, 2, 3, &[7, 0, 1, 0, 1, 1, 0], d)?;
    check(out, b"d-short", 7, 2, 3, a, &[7, 0, 0, 1, 0])?;
    check(out, b"d-long", 7, 2, 3, a, &[7, 0, 0, 1, 0, 0, 0])
}

fn lengths(out: &impl Print) -> io::Result<()> {
    lengths_of(out, &[7, 0, 1, 0, 1, 1], &[7, 0, 0, 1, 0, 0])
}

// A number of p or more at the end of the table, of D and of both, where ADA is not A, and one where DAD is not D.
fn numbers_of(out: &impl Print, a: &[u32], zeros: &[u32]) -> io::Result<()> {
    check(out, b"a-p-not-inner", 7, 2, 3, &[1, 0, 1, 0, 1, 7], zeros)?;
    check(out, b"d-p", 7, 2, 3, a, &[0, 0, 0, 0, 0, 7])?;
    check(
        out,
        b"d-4294967295",
        7,
        2,
        3,
        a,
        &[0, 0, 0, 0, 0, 4294967295],
    )?;
    check(
        out,
        b"a-p-d-p",
        7,
        2,
        3,
        &[1, 0, 1, 0, 1, 7],
        &[0, 0, 0, 0, 0, 7],
    )?;
    check(out, b"d-p-not-outer", 2, 1, 1, &[0], &[2])
}

fn numbers(out: &impl Print) -> io::Result<()> {
    numbers_of(out, &[1, 0, 1, 0, 1, 1], &[0, 0, 0, 0, 0, 0])
}

pub fn run(out: &impl Print) -> io::Result<()> {
    answers(out)?;
    empty(out)?;
    largest(out)?;
    lengths(out)?;
    numbers(out)
}
