// The lines of the sheet, written into a lent buffer, and the header and frame lengths that the sheet reads.
#![tactic(auto)]

ghost use Rattle.std.specs.Prelude.{◌≡◌, ◌+◌, ◌≤◌, ◌<◌, length};
ghost use Rattle.checks.specs.Largest.{largest};
ghost use Rattle.checks.specs.Refusal.{refusal_number};
ghost use Rattle.checks.specs.Told.{refused, value_told};
ghost use Rattle.codec.specs.Placed.{Put};
ghost use Rattle.board_solve.specs.Told.{take_told};
ghost use Rattle.sheet_text.specs.Lines.{word_line, refused_line, missing_line, frame_line, record_text, record_line};
ghost use Rattle.sheet_text.specs.Written.{Printed};
ghost use Rattle.sheet_text.specs.Input.{header_told, header_call, frame_told, frame_start, frame_body, length_in};

use board_solve::Taken;
use checks::Refusal;

// Writes a record's signed number from `at` on where its mark is 1, otherwise `unknown`.
fn put_record(out: &mut [u8], at: usize, mark: u32, number: i32) -> usize
    requires { at + 11 ≤ length out.old }
    ensures { Put at (record_text mark number) out.old out.new result }
{
    if mark == 1 {
        return codec::put_signed(out, at, number);
    }
    codec::put_bytes(out, at, b"unknown")
}

// The line of a word and a number, from `at` on.
fn word_line(out: &mut [u8], at: usize, word: &[u8], n: u32) -> usize
    requires { (length word.now ≤ 16) × (at + 32 ≤ length out.old) }
    ensures { Put at (word_line word.now n) out.old out.new result }
{
    let number = codec::put_bytes(out, at, word);
    let end = codec::put_decimal(out, number, n);
    codec::put_bytes(out, end, b"\n")
}

// The line of a frame that take refused, with the count that it left, at the front of the buffer.
fn refusal_line(kind: Refusal, count: u32, out: &mut [u8]) -> usize
    requires { 32 ≤ length out.old }
    ensures { Printed (frame_line (refused kind) count) out.old out.new result }
{
    match kind {
        Refusal::Conflict => word_line(out, 0, b"conflict ", count),
        _ => refused_line(kind, out),
    }
}

// The line of a frame, from take's answer and the count afterwards, at the front of the buffer.
pub fn answer_line(answer: Result<Taken, Refusal>, count: u32, out: &mut [u8]) -> usize
    requires { 32 ≤ length out.old }
    ensures { Printed (frame_line (take_told answer) count) out.old out.new result }
{
    match answer {
        Ok(Taken::New(_)) => word_line(out, 0, b"new ", count),
        Ok(Taken::Repeat(_)) => word_line(out, 0, b"repeat ", count),
        Err(kind) => refusal_line(kind, count, out),
    }
}

// The line of a refusal, at the front of the buffer: of a cut header, a refused open, a frame that was cut.
pub fn refused_line(kind: Refusal, out: &mut [u8]) -> usize
    requires { 32 ≤ length out.old }
    ensures { Printed (refused_line (refusal_number kind)) out.old out.new result }
{
    word_line(out, 0, b"refused ", u32::from(kind))
}

// The line of a record, from show's mark and number, from `at` on: two digits, a space, eleven bytes and the line's end at most.
pub fn record_line(out: &mut [u8], at: usize, position: u32, mark: u32, number: i32) -> usize
    requires { (position < largest) × (at + 32 ≤ length out.old) }
    ensures put { Put at (record_line position mark number) out.old out.new result }
    ensures upper_bound { result ≤ at + 15 }
{
    let gap = codec::put_decimal(out, at, position);
    let text = codec::put_bytes(out, gap, b" ");
    let end = put_record(out, text, mark, number);
    codec::put_bytes(out, end, b"\n")
}

// The last line, from show's answer, from `at` on.
pub fn missing_line(out: &mut [u8], at: usize, missing: u32) -> usize
    requires { at + 32 ≤ length out.old }
    ensures { Put at (missing_line missing) out.old out.new result }
{
    word_line(out, at, b"missing ", missing)
}

// The header in the first bytes of the input: p in four bytes, most significant first, then n in one. Refused is 6, a cut header.
pub fn header(bytes: &[u8]) -> Result<(u32, u32), Refusal>
    ensures { header_told result ≡ header_call bytes.now }
{
    if bytes.len() < 5 {
        return Err(Refusal::FrameLength);
    }
    Ok((codec::number_at(bytes, 0, 4), bytes[4] as u32))
}

// The length of the next frame, from the bytes that came of its two length bytes: none where the input ends. Refused is 6, a cut
// length.
pub fn frame_start(bytes: &[u8]) -> Result<Option<usize>, Refusal>
    ensures result_value { frame_told result ≡ frame_start bytes.now }
    ensures result_bound { length_in result ≤ 65535 }
{
    if bytes.len() == 0 {
        return Ok(None);
    }
    if bytes.len() < 2 {
        return Err(Refusal::FrameLength);
    }
    Ok(Some(codec::number_at(bytes, 0, 2) as usize))
}

// The length of a frame, of whose bytes so many came. Refused is 6, a cut frame.
pub fn frame_body(length: usize, came: usize) -> Result<usize, Refusal>
    ensures { value_told result ≡ frame_body length came }
{
    if came < length {
        return Err(Refusal::FrameLength);
    }
    Ok(length)
}
