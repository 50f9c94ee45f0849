// Reading a frame: the bit map, then the numbers of w bytes, each read at its place, all judged in byte order, and the multipliers
// and values filled in.
ghost use Rattle.std.specs.Prelude.{◌≡◌, ◌+◌, ◌*◌, ◌≤◌, ◌<◌, length, drop};
ghost use Rattle.algebra.specs.Answers.{Tells};
ghost use Rattle.checks.specs.Largest.{largest, most_words};
ghost use Rattle.checks.specs.Outcome.{outcome};
ghost use Rattle.checks.specs.Sizes.{Judges};
ghost use Rattle.words.specs.Words.{Below};
ghost use Rattle.frame.specs.Bitmap.{record_bits, standing};
ghost use Rattle.frame.specs.Reading.{numbers_in, read_frame};
ghost use Rattle.checks.specs.Told.{result_told};
ghost use Rattle.frame.specs.Calls.{read_outcome};
ghost use Rattle.frame_bytes.specs.Stages.{checks_from, multipliers_from};

use super::bitmap;
use super::width::width_of;
use checks::Refusal;

// Whether the s numbers that stand from the place on are below p.
fn values_below(p: u32, w: usize, bytes: &[u8], start: usize, s: usize) -> bool
    requires { (w ≤ 4) × (start + w * s ≤ length bytes.now) }
    ensures { Tells result (Below p (numbers_in w s (drop start bytes.now))) }
{
    for u in 0..s {
        if p <= codec::number_at(bytes, start + w * u, w) {
            return false;
        }
    }
    true
}

// Judges the multipliers that stand from the place on, and the s values behind them: why the first bad one is refused.
fn judged(
    p: u32,
    w: usize,
    bytes: &[u8],
    start: usize,
    count: usize,
    s: usize,
) -> Result<(), Refusal>
    requires { (w ≤ 4) × (length bytes.now ≡ start + w * count + w * s) }
    ensures { Judges (checks_from p w s bytes.now start count) result }
{
    for i in 0..count {
        let x = codec::number_at(bytes, start + w * i, w);
        if x == 0 {
            return Err(Refusal::ZeroMultiplier);
        }
        if p <= x {
            return Err(Refusal::Number);
        }
    }
    let at = start + w * count;
    if !values_below(p, w, bytes, at, s) {
        return Err(Refusal::Number);
    }
    Ok(())
}

// Writes the multipliers: the next number from the place on where the bit stands, and 0 where it does not.
fn fill(map: [u8; 8], w: usize, bytes: &[u8], start: usize, multipliers: &mut [u32])
    requires w_bound { (w ≤ 4) × (length multipliers.old ≤ largest) }
    requires map_in_bounds { start + w * standing (record_bits (length multipliers.old) map) ≤ length bytes.now }
    ensures { multipliers.new ≡ multipliers_from w map bytes.now start 0 (length multipliers.old) }
{
    let mut at = start;
    for (j, x) in multipliers.iter_mut().enumerate() {
        if bitmap::stands(map, j) {
            *x = codec::number_at(bytes, at, w);
            at += w;
        } else {
            *x = 0;
        }
    }
}

// Writes the values: the numbers that stand from the place on.
fn fill_values(w: usize, bytes: &[u8], start: usize, values: &mut [u32])
    requires { (w ≤ 4) × (start + w * length values.old ≤ length bytes.now) }
    ensures { values.new ≡ numbers_in w (length values.old) (drop start bytes.now) }
{
    for (u, v) in values.iter_mut().enumerate() {
        *v = codec::number_at(bytes, start + w * u, w);
    }
}

// Reads a frame whose modulus and sizes are known to be right, with as many values as are lent: for the board, which has checked
// them. Only where all numbers are good are the multipliers and the values written.
pub fn read_frame(
    p: u32,
    n: usize,
    bytes: &[u8],
    multipliers: &mut [u32],
    values: &mut [u32],
) -> Result<u32, Refusal>
    requires { (0 < p) × (1 ≤ n) × (n ≤ largest) × (length multipliers.old ≡ n) × (length values.old ≤ most_words) }
    ensures { outcome (result_told result) (multipliers.new, values.new)
        ≡ read_outcome (length values.old) (multipliers.old, values.old)
        (read_frame p n (length values.old) bytes.now) }
{
    let len = (n + 7) / 8;
    if bytes.len() < len {
        return Err(Refusal::FrameLength);
    }
    let map = bitmap::from_bytes(bytes, len);
    let count = bitmap::standing(map);
    let w = width_of(p);
    let s = values.len();
    let end = len + w * count;
    if bytes.len() != end + w * s {
        return Err(Refusal::FrameLength);
    }
    if !bitmap::unpadded(map, n) {
        return Err(Refusal::Padding);
    }
    judged(p, w, bytes, len, count, s)?;
    fill(map, w, bytes, len, multipliers);
    fill_values(w, bytes, end, values);
    Ok(s as u32)
}
