// What lent memory is filled with; bytes that are filled and printed.
use std::io;
use test_support::output;

// What stands in words and bytes that are as they were; modulo 7 it is no residue.
pub const WORD: u32 = 9;

pub const BYTE: u8 = 9;

// Fills the bytes, from the first on each by 89 more than the one before it, modulo 256.
pub fn fill(bytes: &mut [u8], first: u32) {
    let mut x = first % 256;
    for byte in bytes.iter_mut() {
        *byte = (x % 256) as u8;
        x = x % 256 + 89;
    }
}

// The name and the first bytes behind it, at most so many.
pub fn print_front(out: &impl Print, name: &[u8], bytes: &[u8], most: usize) -> io::Result<()> {
    output::print_text(out, name)?;
    for byte in bytes.iter().take(most) {
        output::print_number(out, u32::from(*byte))?;
    }
    Ok(())
}
