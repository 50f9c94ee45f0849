// Numbers as bytes, written to a lent slice and read back: big-endian, as frames and the sheet's input have them, and as decimal
// digits, as the sheet prints them.
#![tactic(auto)]

ghost use Rattle.std.specs.Prelude.{◌≡◌, ◌∷◌, [], ◌+◌, ◌^◌, ◌≤◌, ◌<◌, length};
ghost use Rattle.codec.specs.Placed.{placed, Put};
ghost use Rattle.codec.specs.BigEndian.{bytes_of, number_at};
ghost use Rattle.codec.specs.Decimal.{digit, decimal, signed_decimal};

// The number whose w bytes stand at the place, most significant first.
pub fn number_at(bytes: &[u8], at: usize, w: usize) -> u32
    requires { (w ≤ 4) × (at + w ≤ length bytes.now) }
    ensures { (result < 256 ^ w) × (result ≡ number_at w bytes.now at) }
{
    let mut x: u32 = 0;
    for b in &bytes[at..at + w] {
        x = x * 256 + *b as u32;
    }
    x
}

// Puts the last w bytes of x, most significant first, in the place of those from `at` on.
pub fn put_number(bytes: &mut [u8], at: usize, w: usize, x: u32)
    requires { at + w ≤ length bytes.old }
    ensures { bytes.new ≡ placed at (bytes_of w x) bytes.old }
{
    let mut rest = x;
    for i in (0..w).rev() {
        bytes[at + i] = (rest % 256) as u8;
        rest /= 256;
    }
}

// Writes the bytes from `at` on, and returns the place behind them.
pub fn put_bytes(out: &mut [u8], at: usize, bytes: &[u8]) -> usize
    requires { at + length bytes.now ≤ length out.old }
    ensures { Put at bytes.now out.old out.new result }
{
    let end = at + bytes.len();
    out[at..end].copy_from_slice(bytes);
    end
}

// Writes the digit d at `at`.
fn put_digit(out: &mut [u8], at: usize, d: u32) -> usize
    requires { (d < 10) × (at < length out.old) }
    ensures { Put at (digit d ∷ []) out.old out.new result }
{
    out[at] = 48 + d as u8;
    at + 1
}

// Writes the decimal digits of n from `at` on: those of n / 10, and then the last.
pub fn put_decimal(out: &mut [u8], at: usize, n: u32) -> usize
    requires { at + length (decimal n) ≤ length out.old }
    ensures { Put at (decimal n) out.old out.new result }
{
    if n < 10 {
        return put_digit(out, at, n);
    }
    let last = put_decimal(out, at, n / 10);
    put_digit(out, last, n % 10)
}

// Writes a number with its sign from `at` on.
pub fn put_signed(out: &mut [u8], at: usize, z: i32) -> usize
    requires { at + length (signed_decimal z) ≤ length out.old }
    ensures { Put at (signed_decimal z) out.old out.new result }
{
    let size = z.unsigned_abs();
    if z < 0 {
        let end = put_bytes(out, at, b"-");
        return put_decimal(out, end, size);
    }
    put_decimal(out, at, size)
}
