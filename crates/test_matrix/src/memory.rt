// Memory for tables.
ghost use Rattle.std.specs.Prelude.{◌<◌, ◌≤◌};

use words::filled;

// A word that no call writes: it is no residue and no mark.
pub const WORD: u32 = 0xa5a5a5a5;

// Room for the largest table, or for the basis of its kernel.
pub const TABLE: usize = 4096;

// The largest table, of zeros but for a 1 at the place.
pub fn only(place: usize) -> [u32; TABLE]
    requires { place < 4096 }
{
    let mut words: [u32; TABLE] = filled(0);
    words[place] = 1;
    words
}

// The number of words of a table of m rows and n columns.
pub fn size(m: u32, n: u32) -> usize
    requires { (m ≤ 64) × (n ≤ 64) }
    ensures { result ≤ 4096 }
{
    m as usize * n as usize
}
