// Memory that is lent to the calls, filled with a known word or byte, so that what was touched shows.
ghost use Rattle.std.specs.Prelude.{◌≤◌, length};

// Room for 64 words and two more.
pub const WORDS: usize = 66;

// Room for the numbers of 64 records of 16 words, and two more.
pub const NUMBERS: usize = 1026;

// Room for the longest frame, 328 bytes, and four more.
pub const BYTES: usize = 332;

// The first n of them, to lend.
pub fn front<T>(xs: &mut [T], n: usize) -> &mut [T]
    requires { n ≤ length xs.old }
{
    &mut xs[..n]
}

// Whether every word is still the one that the memory was filled with.
pub fn are_untouched(words: &[u32], word: u32) -> bool {
    for x in words {
        if *x != word {
            return false;
        }
    }
    true
}
