// How many bytes a number in a frame has.
ghost use Rattle.std.specs.Prelude.{◌≡◌};
ghost use Rattle.frame.specs.Width.{width};

// The largest p whose numbers have one byte.
const ONE_BYTE: u32 = 256;

// The width of p: the fewest bytes that hold p - 1, from 1 to 4.
pub fn width_of(p: u32) -> usize
    ensures { result ≡ width p }
{
    if p <= ONE_BYTE {
        return 1;
    }
    if p <= 65536 {
        return 2;
    }
    if p <= 16777216 {
        return 3;
    }
    4
}
