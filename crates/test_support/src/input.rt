// The numbers of the stored cases, read from standard input, most significant byte first. Behind its end every byte is 0, so
// that a file that was cut short ends the run early, and the counts show it.
ghost use Rattle.std.specs.Prelude.{◌≤◌};

use std::io::{Read, Stdin};

// What is left of the stored cases: what standard input still gives. A read that fails counts as its end.
#[derive(Drop)]
pub struct Stored {
    input: Stdin,
}

impl Stored {
    // The cases that standard input has.
    pub fn new(input: Stdin) -> Self {
        Stored { input }
    }

    // The number in the next four bytes.
    pub fn word(&mut self) -> u32 {
        let mut bytes = [0u8; 4];
        self.read_bytes(&mut bytes);
        u32::from_be_bytes(bytes)
    }

    // The signed number in the next four bytes.
    pub fn number(&mut self) -> i32 {
        self.word().cast_signed()
    }

    // The next word as a length. The scripts have none above `most`; were there one, all that follows would be read out of step,
    // and the mismatches would show it.
    pub fn length(&mut self, most: usize) -> usize
        ensures { result ≤ most }
    {
        (self.word() as usize).min(most)
    }

    // The bytes become the next ones of the input.
    pub fn read_bytes(&mut self, bytes: &mut [u8]) {
        let mut came = 0;
        while came < bytes.len() {
            let size = self.input.read(&mut bytes[came..]).unwrap_or(0);
            if size == 0 {
                break;
            }
            came += size;
        }
        bytes[came..].fill(0);
    }

    // The same where the input has a word for each byte.
    pub fn read_wide_bytes(&mut self, bytes: &mut [u8]) {
        for byte in bytes.iter_mut() {
            *byte = (self.word() % 256) as u8;
        }
    }

    // The words or numbers become the next ones of the input.
    pub fn read<T: Next>(&mut self, xs: &mut [T]) {
        for x in xs.iter_mut() {
            *x = T::next(self);
        }
    }

    // Whether the words or numbers are the next ones of the input, all of which are read.
    pub fn are_next<T: Next>(&mut self, xs: &[T]) -> bool {
        let mut is_same = true;
        for x in xs {
            if T::next(self) != *x {
                is_same = false;
            }
        }
        is_same
    }
}

// What stands in four bytes of the input: a word, or a signed number.
pub trait Next: Copy + PartialEq {
    fn next(stored: &mut Stored) -> Self;
}

impl Next for u32 {
    fn next(stored: &mut Stored) -> u32 {
        stored.word()
    }
}

impl Next for i32 {
    fn next(stored: &mut Stored) -> i32 {
        stored.number()
    }
}
