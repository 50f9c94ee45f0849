// Document 01's examples of frames that are not starred, examples of padding, of several words a record and of the width of numbers as
// document 02's #101, #103 and #111 have it, and the order of the checks: where a function here names an order, what one check refuses
// the later ones would refuse too. Where a name tells no number of words, a record has one. The starred example is a theorem, in
// frame/proofs/Examples.antt.
ghost use Rattle.std.specs.Prelude.{◌≤◌};

use super::{memory, report};
use std::io;
use test_support::lent::{BYTES, WORDS};
use test_support::told::Told;
use test_support::{lent, output, told};
use words::filled;

// The values behind the number of an answer; a refusal leaves them as they were.
fn print_values(out: &impl Print, number: u32, values: &[u32]) -> io::Result<()> {
    if told::is_refused(number) {
        output::print_touched_words(out, number, values, memory::WORD)?;
    } else {
        output::print_words(out, b"", values)?;
    }
    Ok(())
}

// Reads a frame of s words a record with so many words lent for the multipliers; a refusal leaves them as they were.
fn read_words(
    out: &impl Print,
    name: &[u8],
    p: u32,
    n: u32,
    s: u32,
    bytes: &[u8],
    room: usize,
) -> io::Result<()>
    requires { (s ≤ 66) × (room ≤ 66) }
{
    let size = s as usize;
    let mut words: [u32; WORDS] = filled(memory::WORD);
    let multipliers = lent::front(&mut words, room);
    let mut more_words: [u32; WORDS] = filled(memory::WORD);
    let values = lent::front(&mut more_words, size);
    let answer = Told::from(frame_calls::read(p, n, s, bytes, multipliers, values));
    output::print_example(out, b"read-", name, answer.number)?;
    output::print_touched_words(out, answer.number, multipliers, memory::WORD)?;
    print_values(out, answer.number, values)?;
    output::print_end(out)
}

fn read(out: &impl Print, name: &[u8], p: u32, n: u32, bytes: &[u8], room: usize) -> io::Result<()>
    requires { room ≤ 66 }
{
    read_words(out, name, p, n, 1, bytes, room)
}

// Writes a frame of s values to so many lent bytes; a refusal leaves them as they were.
fn write_words(
    out: &impl Print,
    name: &[u8],
    p: u32,
    n: u32,
    s: u32,
    multipliers: &[u32],
    values: &[u32],
    room: usize,
) -> io::Result<()>
    requires { room ≤ 332 }
{
    let mut space: [u8; BYTES] = filled(memory::BYTE);
    let bytes = lent::front(&mut space, room);
    let answer = Told::from(frame_calls::write(p, n, s, multipliers, values, bytes));
    output::print_example(out, b"write-", name, answer.number)?;
    if !told::is_refused(answer.number) {
        output::print_number(out, answer.value)?;
    }
    output::print_touched(out, answer.number, memory::is_only_front(b"", bytes))?;
    output::print_end(out)
}

fn write(
    out: &impl Print,
    name: &[u8],
    p: u32,
    n: u32,
    multipliers: &[u32],
    value: u32,
    room: usize,
) -> io::Result<()>
    requires { room ≤ 332 }
{
    write_words(out, name, p, n, 1, multipliers, &[value], room)
}

// Seals records of s words.
fn seal_words(
    out: &impl Print,
    name: &[u8],
    p: u32,
    n: u32,
    s: u32,
    low: u32,
    records: &[i32],
    multipliers: &[u32],
) -> io::Result<()>
    requires { s ≤ 66 }
{
    let size = s as usize;
    let mut words: [u32; WORDS] = filled(memory::WORD);
    let values = lent::front(&mut words, size);
    let answer = Told::from(frame_calls::seal(p, n, s, low, records, multipliers, values));
    output::print_example(out, b"seal-", name, answer.number)?;
    print_values(out, answer.number, values)?;
    output::print_end(out)
}

fn seal(
    out: &impl Print,
    name: &[u8],
    p: u32,
    n: u32,
    low: u32,
    records: &[i32],
    multipliers: &[u32],
) -> io::Result<()> {
    seal_words(out, name, p, n, 1, low, records, multipliers)
}

// A frame of three records.
fn read_three(out: &impl Print, name: &[u8], p: u32, bytes: &[u8]) -> io::Result<()> {
    read(out, name, p, 3, bytes, 3)
}

// The same with one multiplier, modulo 7, where a number has one byte.
fn read_frame(
    out: &impl Print,
    name: &[u8],
    bits: u8,
    multiplier: u8,
    value: u8,
) -> io::Result<()> {
    read_three(out, name, 7, &[bits, multiplier, value])
}

// An empty frame, which the last check refuses.
fn read_empty(out: &impl Print, name: &[u8], p: u32, n: u32, room: usize) -> io::Result<()>
    requires { room ≤ 66 }
{
    read(out, name, p, n, b"", room)
}

// A bit at n or above: 7 in a frame of the length that the map with that bit tells, whatever its numbers, and 6 in another. For
// n = 8 the same bytes have no padding.
fn padded_reads(out: &impl Print) -> io::Result<()> {
    read_frame(out, b"padding", 8, 1, 2)?;
    read_frame(out, b"padding-and-numbers", 8, 0, 7)?;
    read_three(out, b"padding-without-number", 7, b"\x08\x02")?;
    read_three(out, b"padding-alone", 7, b"\x08")?;
    read_three(out, b"padding-long", 7, b"\x08\x01\x02\0")?;
    read(out, b"no-padding", 7, 8, b"\x08\x01\x02", 8)?;
    read(out, b"no-padding-cut", 7, 8, b"\x08\x01", 8)?;
    read_three(out, b"padding-wide", 257, b"\x08\0\x01\0\x02")?;
    read_three(out, b"padding-wide-cut", 257, b"\x08\0\x01\0")?;
    read_three(out, b"padding-wide-without-number", 257, b"\x08\0\x02")
}

// On both sides of where one, two and three bytes end, p - 1 as multiplier and value; then p as multiplier, and as value.
fn width_reads(out: &impl Print) -> io::Result<()> {
    read_three(out, b"width-251", 251, b"\x01\xfa\xfa")?;
    read_three(out, b"width-251-multiplier", 251, b"\x01\xfb\0")?;
    read_three(out, b"width-251-value", 251, b"\0\xfb")?;
    read_three(out, b"width-257", 257, b"\x01\x01\0\x01\0")?;
    read_three(out, b"width-257-multiplier", 257, b"\x01\x01\x01\0\0")?;
    read_three(out, b"width-257-value", 257, b"\0\x01\x01")?;
    read_three(out, b"width-65521", 65521, b"\x01\xff\xf0\xff\xf0")?;
    read_three(out, b"width-65521-multiplier", 65521, b"\x01\xff\xf1\0\0")?;
    read_three(out, b"width-65521-value", 65521, b"\0\xff\xf1")?;
    read_three(out, b"width-65537", 65537, b"\x01\x01\0\0\x01\0\0")?;
    read_three(
        out,
        b"width-65537-multiplier",
        65537,
        b"\x01\x01\0\x01\0\0\0",
    )?;
    read_three(out, b"width-65537-value", 65537, b"\0\x01\0\x01")?;
    read_three(
        out,
        b"width-16777213",
        16777213,
        b"\x01\xff\xff\xfc\xff\xff\xfc",
    )?;
    read_three(
        out,
        b"width-16777213-multiplier",
        16777213,
        b"\x01\xff\xff\xfd\0\0\0",
    )?;
    read_three(out, b"width-16777213-value", 16777213, b"\0\xff\xff\xfd")?;
    read_three(
        out,
        b"width-16777259",
        16777259,
        b"\x01\x01\0\0\x2a\x01\0\0\x2a",
    )?;
    read_three(
        out,
        b"width-16777259-multiplier",
        16777259,
        b"\x01\x01\0\0\x2b\0\0\0\0",
    )?;
    read_three(out, b"width-16777259-value", 16777259, b"\0\x01\0\0\x2b")
}

// Frames with numbers of four bytes, where p needs fewer, and of one byte, where p needs two.
fn other_width_reads(out: &impl Print) -> io::Result<()> {
    read_three(
        out,
        b"four-bytes-7",
        7,
        b"\x03\0\0\0\x01\0\0\0\x02\0\0\0\x05",
    )?;
    read_three(out, b"four-bytes-7-no-multiplier", 7, b"\0\0\0\0\0")?;
    read_three(out, b"four-bytes-251", 251, b"\x01\0\0\0\xfa\0\0\0\xfa")?;
    read_three(
        out,
        b"four-bytes-65521",
        65521,
        b"\x01\0\0\xff\xf0\0\0\xff\xf0",
    )?;
    read_three(
        out,
        b"four-bytes-16777213",
        16777213,
        b"\x01\0\xff\xff\xfc\0\xff\xff\xfc",
    )?;
    read_three(out, b"one-byte-257", 257, b"\x03\x01\x02\x05")
}

// The document's other frames, then 1, 2 and 3 before 6.
fn reads(out: &impl Print) -> io::Result<()> {
    read_frame(out, b"multiplier-zero", 1, 0, 0)?;
    read_frame(out, b"multiplier-p", 1, 7, 0)?;
    read_empty(out, b"modulus", 4, 0, 2)?;
    read_empty(out, b"no-records", 7, 0, 2)?;
    read_empty(out, b"65-records", 7, 65, 2)?;
    read_empty(out, b"room", 7, 3, 2)?;
    read_empty(out, b"empty", 7, 3, 3)
}

// Two records of two words modulo 7 with the multipliers 2 and 4, in a frame of the values 0 and 6. With 0 or 17 words 12 comes before
// 3, which one lent multiplier gets.
fn several_reads(out: &impl Print) -> io::Result<()> {
    read_words(out, b"two-words", 7, 2, 2, b"\x03\x02\x04\0\x06", 2)?;
    read_words(out, b"two-words-one-value", 7, 2, 2, b"\x03\x02\x04\0", 2)?;
    read_words(out, b"two-words-last-p", 7, 2, 2, b"\x03\x02\x04\0\x07", 2)?;
    read_words(
        out,
        b"one-word-two-values",
        7,
        2,
        1,
        b"\x03\x02\x04\0\x06",
        2,
    )?;
    read_words(out, b"no-words", 7, 2, 0, b"", 1)?;
    read_words(out, b"17-words", 7, 2, 17, b"", 1)
}

// The same frame, for which 264 + 4 × 2 bytes are lent.
fn write_several(out: &impl Print, name: &[u8], s: u32, room: usize) -> io::Result<()>
    requires { room ≤ 332 }
{
    write_words(out, name, 7, 2, s, &[2, 4], &[0, 6], room)
}

fn several_writes(out: &impl Print) -> io::Result<()> {
    write_several(out, b"two-words", 2, 272)?;
    write_several(out, b"two-words-room", 2, 268)?;
    write_several(out, b"no-words", 0, 268)?;
    write_several(out, b"17-words", 17, 268)
}

// Its records stand one after the other: the first words 1 and 3 give 1 × 2 + 3 × 4 = 14, which is 0 modulo 7, and the second words -1
// and 2 give 6. For two records of two words two numbers are too few.
fn several_seals(out: &impl Print) -> io::Result<()> {
    seal_words(out, b"two-words", 7, 2, 2, 3, &[1, -1, 3, 2], &[2, 4])?;
    seal_words(out, b"two-words-two-numbers", 7, 2, 2, 3, &[1, -1], &[2, 4])?;
    seal_words(out, b"no-words", 7, 2, 0, 3, &[1, -1], &[2, 4])?;
    seal_words(out, b"17-words", 7, 2, 17, 3, &[1, -1], &[2, 4])
}

// Multipliers, a value and room that the checks of lengths and numbers refuse.
fn write_wrong(out: &impl Print, name: &[u8], p: u32, n: u32) -> io::Result<()> {
    write(out, name, p, n, &[7, 2], 7, 267)
}

// Three multipliers, of which the first may be refused.
fn write_three(out: &impl Print, name: &[u8], first: u32, value: u32, room: usize) -> io::Result<()>
    requires { room ≤ 332 }
{
    write(out, name, 7, 3, &[first, 2, 0], value, room)
}

// The frame (1 2 0) 5, which has a byte for the map and three numbers.
fn write_width(out: &impl Print, name: &[u8], p: u32) -> io::Result<()> {
    write(out, name, p, 3, &[1, 2, 0], 5, 268)
}

fn width_writes(out: &impl Print) -> io::Result<()> {
    write_width(out, b"width-251", 251)?;
    write_width(out, b"width-257", 257)?;
    write_width(out, b"width-65521", 65521)?;
    write_width(out, b"width-65537", 65537)?;
    write_width(out, b"width-16777213", 16777213)?;
    write_width(out, b"width-16777259", 16777259)
}

// 1 and 2 before 3 and 4; 3, for the multipliers and for the bytes, before 4; 4.
fn writes(out: &impl Print) -> io::Result<()> {
    write_wrong(out, b"modulus", 4, 0)?;
    write_wrong(out, b"no-records", 7, 0)?;
    write_wrong(out, b"65-records", 7, 65)?;
    write(out, b"multipliers", 7, 3, &[7, 2], 7, 268)?;
    write_three(out, b"room-267", 7, 7, 267)?;
    write_three(out, b"room-269", 7, 7, 269)?;
    write_three(out, b"multiplier-p", 7, 5, 268)?;
    write_three(out, b"value-p", 1, 7, 268)?;
    write_three(out, b"done", 1, 5, 268)
}

// Two records and two multipliers, of which the check of numbers refuses the first, and a low end that it refuses.
fn seal_wrong(out: &impl Print, name: &[u8], p: u32, n: u32) -> io::Result<()> {
    seal(out, name, p, n, 7, &[4, 0], &[7, 2])
}

// 1, 2 and 3 before 4.
fn seal_order(out: &impl Print) -> io::Result<()> {
    seal_wrong(out, b"modulus", 4, 0)?;
    seal_wrong(out, b"no-records", 7, 0)?;
    seal_wrong(out, b"65-records", 7, 65)?;
    seal(out, b"records", 7, 3, 7, &[4, 0], &[7, 2, 0])?;
    seal(out, b"multipliers", 7, 3, 7, &[4, 0, 0], &[7, 2])
}

// Three records and three multipliers, of which a first one may be refused, with the old low end.
fn seal_three(out: &impl Print, name: &[u8], record: i32, multiplier: u32) -> io::Result<()> {
    seal(out, name, 7, 3, 3, &[record, 0, 0], &[multiplier, 2, 0])
}

// The records modulo 7 are -3 to 3. The last sum is (-2) × 1 + 1 × 2 + 3 × 3 = 9, which is 2 modulo 7.
fn seal_numbers(out: &impl Print) -> io::Result<()> {
    seal_three(out, b"multiplier-p", 0, 7)?;
    seal_three(out, b"record-high", 4, 1)?;
    seal_three(out, b"record-low", -4, 1)?;
    seal(out, b"sum", 7, 3, 3, &[-2, 1, 3], &[1, 2, 3])
}

// Two records modulo 7, of which the second is 0, sealed with the multipliers 1 and 1.
fn seal_low(out: &impl Print, name: &[u8], low: u32, record: i32) -> io::Result<()> {
    seal(out, name, 7, 2, low, &[record, 0], &[1, 1])
}

// With the low end 0 the records are 0 to 6, with 1 they are -1 to 5, with 5 they are -5 to 1, with 6 they are -6 to 0. 7 is no low
// end; if it were one, the records would be -7 to -1.
fn seal_lows(out: &impl Print) -> io::Result<()> {
    seal_low(out, b"low-0-least", 0, 0)?;
    seal_low(out, b"low-0-below", 0, -1)?;
    seal_low(out, b"low-0-greatest", 0, 6)?;
    seal_low(out, b"low-0-above", 0, 7)?;
    seal_low(out, b"low-1-least", 1, -1)?;
    seal_low(out, b"low-1-below", 1, -2)?;
    seal_low(out, b"low-1-greatest", 1, 5)?;
    seal_low(out, b"low-1-above", 1, 6)?;
    seal_low(out, b"low-5-least", 5, -5)?;
    seal_low(out, b"low-5-above", 5, 2)?;
    seal_low(out, b"low-6-least", 6, -6)?;
    seal_low(out, b"low-6-below", 6, -7)?;
    seal_low(out, b"low-6-greatest", 6, 0)?;
    seal_low(out, b"low-6-above", 6, 1)?;
    seal(out, b"low-7", 7, 2, 7, &[-1, -2], &[1, 1])?;
    seal(out, b"low-most", 7, 2, 4294967295, &[-1, -2], &[1, 1])
}

pub fn run(out: &impl Print) -> io::Result<()> {
    padded_reads(out)?;
    width_reads(out)?;
    other_width_reads(out)?;
    reads(out)?;
    writes(out)?;
    width_writes(out)?;
    seal_order(out)?;
    seal_numbers(out)?;
    seal_lows(out)?;
    several_reads(out)?;
    several_writes(out)?;
    several_seals(out)
}
