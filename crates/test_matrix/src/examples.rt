// Document 01's examples of tables that are not starred, those of document 02's request 102, and the order of the checks: a call that
// one check refuses would be refused by the later ones too. The starred examples are a theorem, in matrix/proofs/Examples.antt.
ghost use Rattle.std.specs.Prelude.{◌≤◌};

use super::{check_examples, memory, report};
use std::io;
use test_support::lent::WORDS;
use test_support::told::Told;
use test_support::{lent, output};
use words::filled;

// A quasiinverse with so many words for D and for the marks; a refusal leaves the lent memory as it was.
fn invert(
    out: &impl Print,
    name: &[u8],
    p: u32,
    m: u32,
    n: u32,
    a: &[u32],
    size: usize,
    width: usize,
    height: usize,
) -> io::Result<()>
    requires { (size ≤ 4096) × (width ≤ 66) × (height ≤ 66) }
{
    let mut table: [u32; memory::TABLE] = filled(memory::WORD);
    let mut column_words: [u32; WORDS] = filled(memory::WORD);
    let mut row_words: [u32; WORDS] = filled(memory::WORD);
    let d = lent::front(&mut table, size);
    let columns = lent::front(&mut column_words, width);
    let rows = lent::front(&mut row_words, height);
    let number = Told::from(matrix_calls::quasiinverse(p, m, n, a, d, columns, rows)).number;
    output::print_example(out, b"quasiinverse-", name, number)?;
    output::print_touched_words(out, number, d, memory::WORD)?;
    output::print_touched_words(out, number, columns, memory::WORD)?;
    output::print_touched_words(out, number, rows, memory::WORD)?;
    output::print_end(out)
}

// A kernel with words lent for its basis; a refusal leaves them as they were.
fn kernel_to(
    out: &impl Print,
    name: &[u8],
    p: u32,
    m: u32,
    n: u32,
    a: &[u32],
    basis: &mut [u32],
) -> io::Result<()> {
    let number = Told::from(matrix_calls::kernel(p, m, n, a, basis)).number;
    output::print_example(out, b"kernel-", name, number)?;
    output::print_touched_words(out, number, basis, memory::WORD)?;
    output::print_end(out)
}

// The same with so many words.
fn kernel(
    out: &impl Print,
    name: &[u8],
    p: u32,
    m: u32,
    n: u32,
    a: &[u32],
    size: usize,
) -> io::Result<()>
    requires { size ≤ 4096 }
{
    let mut basis: [u32; memory::TABLE] = filled(memory::WORD);
    kernel_to(out, name, p, m, n, a, lent::front(&mut basis, size))
}

// A system with so many words for z and u; a refusal by these checks leaves them as they were.
fn solve(
    out: &impl Print,
    name: &[u8],
    p: u32,
    m: u32,
    n: u32,
    a: &[u32],
    w: &[u32],
    width: usize,
    height: usize,
) -> io::Result<()>
    requires { (width ≤ 66) × (height ≤ 66) }
{
    let mut z_words: [u32; WORDS] = filled(memory::WORD);
    let mut u_words: [u32; WORDS] = filled(memory::WORD);
    let z = lent::front(&mut z_words, width);
    let u = lent::front(&mut u_words, height);
    let number = Told::from(matrix_calls::solve(p, m, n, a, w, z, u)).number;
    output::print_example(out, b"solve-", name, number)?;
    output::print_touched_words(out, number, z, memory::WORD)?;
    output::print_touched_words(out, number, u, memory::WORD)?;
    output::print_end(out)
}

// A nearest fit with so many words for z and the remainder; a refusal leaves them as they were.
fn fit(
    out: &impl Print,
    name: &[u8],
    p: u32,
    m: u32,
    n: u32,
    a: &[u32],
    w: &[u32],
    width: usize,
    height: usize,
) -> io::Result<()>
    requires { (width ≤ 66) × (height ≤ 66) }
{
    let mut z_words: [u32; WORDS] = filled(memory::WORD);
    let mut rest_words: [u32; WORDS] = filled(memory::WORD);
    let z = lent::front(&mut z_words, width);
    let rest = lent::front(&mut rest_words, height);
    let number = Told::from(matrix_calls::fit(p, m, n, a, w, z, rest)).number;
    output::print_example(out, b"fit-", name, number)?;
    output::print_touched_words(out, number, z, memory::WORD)?;
    output::print_touched_words(out, number, rest, memory::WORD)?;
    output::print_end(out)
}

// Both calls on a system.
fn system(
    out: &impl Print,
    name: &[u8],
    p: u32,
    m: u32,
    n: u32,
    a: &[u32],
    w: &[u32],
    width: usize,
    height: usize,
) -> io::Result<()>
    requires { (width ≤ 66) × (height ≤ 66) }
{
    solve(out, name, p, m, n, a, w, width, height)?;
    fit(out, name, p, m, n, a, w, width, height)
}

// The five calls on memory that is right for 2 rows and 3 columns. The D to check is that of the next function's table.
fn five_on(out: &impl Print, name: &[u8], p: u32, m: u32, n: u32, a: &[u32]) -> io::Result<()> {
    invert(out, name, p, m, n, a, 6, 3, 2)?;
    kernel(out, name, p, m, n, a, 9)?;
    system(out, name, p, m, n, a, &[1, 1], 3, 2)?;
    check_examples::check(out, name, p, m, n, a, &[1, 0, 0, 1, 0, 0])
}

// The same on a table that has rank 2 modulo every prime, as its first two columns are unit columns.
fn five(out: &impl Print, name: &[u8], p: u32, m: u32, n: u32) -> io::Result<()> {
    five_on(out, name, p, m, n, &[1, 0, 1, 0, 1, 1])
}

// Moduli that are refused before the sizes, which are wrong too; the least and the greatest modulus.
fn moduli(out: &impl Print) -> io::Result<()> {
    five(out, b"modulus-0", 0, 65, 65)?;
    five(out, b"modulus-1", 1, 65, 65)?;
    five(out, b"modulus-4", 4, 65, 65)?;
    five(out, b"modulus-2147117569", 2147117569, 65, 65)?;
    five(out, b"modulus-2147483648", 2147483648, 65, 65)?;
    five(out, b"modulus-2", 2, 2, 3)?;
    five(out, b"modulus-2147483647", 2147483647, 2, 3)
}

// Sizes above 64, for which the lengths are wrong too.
fn sizes(out: &impl Print) -> io::Result<()> {
    five(out, b"m-65", 7, 65, 3)?;
    five(out, b"n-65", 7, 2, 65)?;
    five(out, b"m-4294967295", 7, 4294967295, 3)?;
    five(out, b"n-4294967295", 7, 2, 4294967295)
}

// The largest table, all ones, of rank 1.
fn largest(out: &impl Print) -> io::Result<()> {
    let a: [u32; memory::TABLE] = filled(1);
    invert(out, b"64", 7, 64, 64, &a, 4096, 64, 64)?;
    kernel(out, b"64", 7, 64, 64, &a, 4096)?;
    system(out, b"64", 7, 64, 64, &a, &[1; 64], 64, 64)
}

// Each slice one word too short and one too long for 2 rows and 3 columns, with a number of p in the table.
fn invert_lengths(out: &impl Print, short: &[u32], a: &[u32], long: &[u32]) -> io::Result<()> {
    invert(out, b"a-short", 7, 2, 3, short, 6, 3, 2)?;
    invert(out, b"a-long", 7, 2, 3, long, 6, 3, 2)?;
    invert(out, b"d-short", 7, 2, 3, a, 5, 3, 2)?;
    invert(out, b"d-long", 7, 2, 3, a, 7, 3, 2)?;
    invert(out, b"columns-short", 7, 2, 3, a, 6, 2, 2)?;
    invert(out, b"columns-long", 7, 2, 3, a, 6, 4, 2)?;
    invert(out, b"rows-short", 7, 2, 3, a, 6, 3, 1)?;
    invert(out, b"rows-long", 7, 2, 3, a, 6, 3, 3)
}

fn kernel_lengths(out: &impl Print, short: &[u32], a: &[u32], long: &[u32]) -> io::Result<()> {
    kernel(out, b"a-short", 7, 2, 3, short, 9)?;
    kernel(out, b"a-long", 7, 2, 3, long, 9)?;
    kernel(out, b"basis-short", 7, 2, 3, a, 8)?;
    kernel(out, b"basis-long", 7, 2, 3, a, 10)
}

fn system_lengths(
    out: &impl Print,
    short: &[u32],
    a: &[u32],
    long: &[u32],
    w: &[u32],
) -> io::Result<()> {
    system(out, b"a-short", 7, 2, 3, short, w, 3, 2)?;
    system(out, b"a-long", 7, 2, 3, long, w, 3, 2)?;
    system(out, b"w-short", 7, 2, 3, a, &[1], 3, 2)?;
    system(out, b"w-long", 7, 2, 3, a, &[1, 1, 1], 3, 2)?;
    system(out, b"z-short", 7, 2, 3, a, w, 2, 2)?;
    system(out, b"z-long", 7, 2, 3, a, w, 4, 2)?;
    solve(out, b"u-short", 7, 2, 3, a, w, 3, 1)?;
    solve(out, b"u-long", 7, 2, 3, a, w, 3, 3)?;
    fit(out, b"rest-short", 7, 2, 3, a, w, 3, 1)?;
    fit(out, b"rest-long", 7, 2, 3, a, w, 3, 3)
}

fn lengths_of(out: &impl Print, short: &[u32], a: &[u32], long: &[u32]) -> io::Result<()> {
    invert_lengths(out, short, a, long)?;
    kernel_lengths(out, short, a, long)?;
    system_lengths(out, short, a, long, &[1, 1])
}

fn lengths(out: &impl Print) -> io::Result<()> {
    lengths_of(
        out,
        &[7, 0, 1, 0, 1],
        &[7, 0, 1, 0, 1, 1],
        &[7, 0, 1, 0, 1, 1, 0],
    )
}

// A table one word too short beside a right side with a number of p, and then such numbers at the end of the table and of the
// right side.
fn numbers(out: &impl Print) -> io::Result<()> {
    system(
        out,
        b"a-short-w-p",
        7,
        2,
        3,
        &[1, 0, 1, 0, 1],
        &[1, 7],
        3,
        2,
    )?;
    five_on(out, b"a-p", 7, 2, 3, &[1, 0, 1, 0, 1, 7])?;
    system(out, b"w-p", 7, 2, 3, &[1, 0, 1, 0, 1, 1], &[1, 7], 3, 2)
}

// Whether the rows of two words are (1 0), (0 1).
fn are_units(basis: &[u32; 4]) -> bool {
    basis[0] == 1 && basis[1] == 0 && basis[2] == 0 && basis[3] == 1
}

// No rows and two columns: the kernel is (1 0), (0 1), or there is a line that says otherwise.
fn no_rows(out: &impl Print) -> io::Result<()> {
    let mut basis = [memory::WORD; 4];
    kernel_to(out, b"no-rows", 2, 0, 2, &[], &mut basis)?;
    if !are_units(&basis) {
        output::print_text(out, b"wrong basis\n")?;
    }
    Ok(())
}

// A nearest fit with z and the remainder.
fn fit_to(
    out: &impl Print,
    name: &[u8],
    p: u32,
    m: u32,
    n: u32,
    a: &[u32],
    w: &[u32],
    z: &mut [u32],
    rest: &mut [u32],
) -> io::Result<()> {
    let number = Told::from(matrix_calls::fit(p, m, n, a, w, z, rest)).number;
    output::print_example(out, b"fit-", name, number)?;
    output::print_words(out, b" z", z)?;
    output::print_words(out, b" rest", rest)?;
    output::print_end(out)
}

// A right side that A does not reach; no rows, where z is 0; no columns, where all of w is left over.
fn fits(out: &impl Print) -> io::Result<()> {
    let mut z = [memory::WORD; 2];
    let mut rest = [memory::WORD; 2];
    fit_to(
        out,
        b"insoluble",
        5,
        2,
        2,
        &[1, 2, 2, 4],
        &[1, 3],
        &mut z,
        &mut rest,
    )?;
    let mut zeros = [memory::WORD; 2];
    fit_to(out, b"no-rows", 5, 0, 2, &[], &[], &mut zeros, &mut [])?;
    let mut all = [memory::WORD; 2];
    fit_to(out, b"no-columns", 5, 2, 0, &[], &[4, 2], &mut [], &mut all)
}

pub fn run(out: &impl Print) -> io::Result<()> {
    no_rows(out)?;
    fits(out)?;
    moduli(out)?;
    largest(out)?;
    sizes(out)?;
    lengths(out)?;
    numbers(out)
}
