// Frames: the calls read, write and seal. Each checks 1, the modulus; 2, the size; 12, the words of a record; 3, the lengths; then what
// 01 says of the frame or of the numbers.
#![tactic(auto)]

ghost use Rattle.std.specs.Prelude.{◌≡◌};
ghost use Rattle.checks.specs.Outcome.{outcome};
ghost use Rattle.checks.specs.Told.{result_told};
ghost use Rattle.frame.specs.Calls.{read_call, write_call, seal_call};

mod sealer;

use checks::Refusal;
use frame_bytes::reading::read_frame;
use frame_bytes::records::all_records;
use frame_bytes::writer::{longest, write_frame};
use words::all_below;

// Reads a frame of n records of s words modulo p: its multipliers and its s values go to the lent memory, s is the answer. Refused are
// 1, 2, 12, 3, then what the frame itself is refused for.
pub fn read(
    p: u32,
    n: u32,
    s: u32,
    bytes: &[u8],
    multipliers: &mut [u32],
    values: &mut [u32],
) -> Result<u32, Refusal>
    ensures { outcome (result_told result) (multipliers.new, values.new)
        ≡ read_call p n s bytes.now multipliers.old values.old }
{
    checks::frame_sizes(p, n, s)?;
    let size = n as usize;
    if multipliers.len() != size {
        return Err(Refusal::Length);
    }
    let words = s as usize;
    if values.len() != words {
        return Err(Refusal::Length);
    }
    read_frame(p, size, bytes, multipliers, values)
}

// Writes the frame of n multipliers and s values modulo p to the front of the lent 264 + 4 × s bytes and returns its length; bytes
// behind it keep their contents. Refused are 1, p no modulus; 2, n not 1 to 64; 12, s not 1 to 16; 3, not n multipliers, not s values
// or not that many bytes; 4, a multiplier or then a value not below p.
pub fn write(
    p: u32,
    n: u32,
    s: u32,
    multipliers: &[u32],
    values: &[u32],
    bytes: &mut [u8],
) -> Result<u32, Refusal>
    ensures { outcome (result_told result) bytes.new
        ≡ write_call p n s multipliers.now values.now bytes.old }
{
    checks::frame_sizes(p, n, s)?;
    if multipliers.len() != n as usize {
        return Err(Refusal::Length);
    }
    if values.len() != s as usize {
        return Err(Refusal::Length);
    }
    if bytes.len() != longest(s as usize) {
        return Err(Refusal::Length);
    }
    if !all_below(p, multipliers) {
        return Err(Refusal::Number);
    }
    if !all_below(p, values) {
        return Err(Refusal::Number);
    }
    Ok(write_frame(p, n as usize, multipliers, values, bytes) as u32)
}

// The s values of the frame of n records of s words, each from -low to p - 1 - low, record after record, and n multipliers modulo p, to
// the lent memory; s is the answer. Refused are 1, p no modulus; 2, n not 1 to 64; 12, s not 1 to 16; 3, not n × s records, not n
// multipliers or not s values; 4, a multiplier or then the low end not below p, or then a record out of range.
pub fn seal(
    p: u32,
    n: u32,
    s: u32,
    low: u32,
    records: &[i32],
    multipliers: &[u32],
    values: &mut [u32],
) -> Result<u32, Refusal>
    ensures { outcome (result_told result) values.new
        ≡ seal_call p n s low records.now multipliers.now values.old }
{
    checks::frame_sizes(p, n, s)?;
    if records.len() != (n as usize) * (s as usize) {
        return Err(Refusal::Length);
    }
    if multipliers.len() != n as usize {
        return Err(Refusal::Length);
    }
    if values.len() != s as usize {
        return Err(Refusal::Length);
    }
    if !all_below(p, multipliers) {
        return Err(Refusal::Number);
    }
    if p <= low {
        return Err(Refusal::Number);
    }
    if !all_records(p, low, records) {
        return Err(Refusal::Number);
    }
    sealer::put_values(p, low, records, multipliers, values);
    Ok(s)
}
