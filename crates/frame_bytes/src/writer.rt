// Writing a frame: the bit map, the multipliers under its standing bits, and the values, to the front of the lent bytes.
ghost use Rattle.std.specs.Prelude.{◌≡◌, ◌+◌, ◌*◌, ◌≤◌, ◌<◌, length};
ghost use Rattle.checks.specs.Largest.{largest, most_words};
ghost use Rattle.codec.specs.Placed.{placed, Put};
ghost use Rattle.frame.specs.Format.{longest, packed, value_bytes, frame_of};
ghost use Rattle.frame.specs.Bitmap.{map_of};

use super::bitmap;
use super::width::width_of;

// The bytes of the longest frame with s words a record, whatever the modulus.
pub fn longest(s: usize) -> usize
    requires { s ≤ most_words }
    ensures { result ≡ longest s }
{
    264 + 4 * s
}

// Puts the multipliers under the standing bits of their map, each as w bytes, in the place of the bytes from `from` on.
fn put_multipliers(map: [u8; 8], multipliers: &[u32], w: usize, from: usize, bytes: &mut [u8])
    requires { (length multipliers.now ≤ largest) × (map ≡ map_of multipliers.now) × (from + w * length multipliers.now ≤ length bytes.old) }
    ensures { bytes.new ≡ placed from (packed w multipliers.now) bytes.old }
{
    let mut at = from;
    for (j, x) in multipliers.iter().enumerate() {
        if bitmap::stands(map, j) {
            codec::put_number(bytes, at, w, *x);
            at += w;
        }
    }
}

// Puts the values, each as w bytes, in the place of the bytes from `from` on.
fn put_values(values: &[u32], w: usize, from: usize, bytes: &mut [u8])
    requires { from + w * length values.now ≤ length bytes.old }
    ensures { bytes.new ≡ placed from (value_bytes w values.now) bytes.old }
{
    for (u, v) in values.iter().enumerate() {
        codec::put_number(bytes, from + w * u, w, *v);
    }
}

// Writes the frame of n multipliers and its values modulo p whose sizes are known to be right, and returns its length, which the map
// and the number of values tell.
pub fn write_frame(p: u32, n: usize, multipliers: &[u32], values: &[u32], bytes: &mut [u8]) -> usize
    requires { (1 ≤ n) × (n ≤ largest) × (length multipliers.now ≡ n) × (length values.now ≤ most_words)
        × (length bytes.old ≡ longest (length values.now)) }
    ensures { Put 0 (frame_of p n multipliers.now values.now) bytes.old bytes.new result }
{
    let map = bitmap::of(multipliers);
    let len = (n + 7) / 8;
    let w = width_of(p);
    let end = len + w * bitmap::standing(map);
    bitmap::put(map, len, bytes);
    put_multipliers(map, multipliers, w, len, bytes);
    put_values(values, w, end, bytes);
    end + w * values.len()
}
