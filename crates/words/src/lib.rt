// Slices of u32 words, whatever they stand for: room of zeros, clearing, copying, comparing, and tests of every word. Leaves for
// the crates above, which meet what each requires.
#![tactic(auto)]

ghost use Rattle.std.specs.Prelude.{◌≡◌, ◌+◌, ◌≤◌, ◌<◌, length, MatchOption};
ghost use Rattle.algebra.specs.Answers.{Tells};
ghost use Rattle.words.specs.Words.{Below, Blank, Filled, Copied, PutAt, FirstDifference, LeastNonzero};

// The most numbers of a row or a column.
pub const ROW: usize = 64;

// The numbers of a row with up to 16 numbers carried behind it.
pub const WIDE: usize = 80;

// The numbers of the largest table with as many carried behind each row.
pub const WIDE_TABLE: usize = 5120;

// N times x: the room of a length that is known, whatever it is for.
pub fn filled<T: Copy, const N: usize>(x: T) -> [T; N]
    ensures { Filled N x result }
{
    [x; N]
}

// Makes each number 0.
pub fn clear(xs: &mut [u32])
    ensures { (length xs.new ≡ length xs.old) × Blank xs.new }
{
    xs.fill(0);
}

// Writes the numbers of `xs` to `out` from the place on; the others stay.
pub fn put(xs: &[u32], out: &mut [u32], at: usize)
    requires { at + length xs.now ≤ length out.old }
    ensures { PutAt xs.now at out.old out.new }
{
    for (j, x) in xs.iter().enumerate() {
        out[at + j] = *x;
    }
}

// Copies n numbers of xs, from start on, to the front of zs.
pub fn copy(xs: &[u32], start: usize, n: usize, zs: &mut [u32])
    requires { (start + n ≤ length xs.now) × (n ≤ length zs.old) }
    ensures { Copied xs.now start n zs.old zs.new }
{
    let end = start + n;
    put(&xs[start..end], zs, 0);
}

// The first place where two lists of one length differ, if there is one.
pub fn first_difference(xs: &[u32], ys: &[u32]) -> Option<usize>
    requires { length xs.now ≡ length ys.now }
    ensures { MatchOption result (xs.now ≡ ys.now) (FirstDifference xs.now ys.now) }
{
    xs.iter().zip(ys).position(|(x, y)| x != y)
}

// The least position of a number that is not 0, if there is one.
pub fn least_nonzero(xs: &[u32]) -> Option<usize>
    ensures { MatchOption result (Blank xs.now) (LeastNonzero xs.now) }
{
    xs.iter().position(|x| *x != 0)
}

// Whether two rows of the same length have the same numbers.
pub fn same(xs: &[u32], ys: &[u32]) -> bool
    requires { length xs.now ≡ length ys.now }
    ensures { Tells result (xs.now ≡ ys.now) }
{
    xs == ys
}

// Whether every number is below p. All are looked at, so that several can be compared at once.
pub fn all_below(p: u32, numbers: &[u32]) -> bool
    ensures { Tells result (Below p numbers.now) }
{
    let mut all = true;
    for x in numbers {
        if p <= *x {
            all = false;
        }
    }
    all
}

// Whether every number is 0.
pub fn all_zero(xs: &[u32]) -> bool
    ensures { Tells result (Blank xs.now) }
{
    all_below(1, xs)
}
