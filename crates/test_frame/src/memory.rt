// What lent memory is filled with, how many bytes writing is lent, and the test of lent bytes whose front was written.
ghost use Rattle.std.specs.Prelude.{◌≡◌, ◌≤◌, length};

use checks::MOST_WORDS;

// The word is no residue.
pub const WORD: u32 = 0xa5a5a5a5;

pub const BYTE: u8 = 0xa5;

// The bytes that writing a frame of s values is lent; more than 16 are in no frame.
pub fn written_room(s: u32) -> usize
    ensures { result ≤ 332 }
{
    if MOST_WORDS < s {
        return 0;
    }
    264 + 4 * s as usize
}

// Room for a stored frame.
pub const FRAME: usize = 4096;

// What stands at i in bytes that begin with the front, and behind it are as they were.
fn byte_at(front: &[u8], i: usize) -> u8 {
    if i < front.len() { front[i] } else { BYTE }
}

// Whether the bytes are those of the front, and behind it are as they were.
pub fn is_only_front(front: &[u8], bytes: &[u8]) -> bool {
    if bytes.len() < front.len() {
        return false;
    }
    for (i, byte) in bytes.iter().enumerate() {
        if *byte != byte_at(front, i) {
            return false;
        }
    }
    true
}
