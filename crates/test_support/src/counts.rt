// What a run counts: 16 counts, of which the last is that of the mismatches.
ghost use Rattle.std.specs.Prelude.{◌<◌};

use super::input::Stored;

// The places of the others are each program's own.
pub const MISMATCHES: usize = 15;

#[derive(Clone, Copy, Debug, PartialEq, Eq)]
pub struct Tally {
    counts: [u32; 16],
}

impl Tally {
    // Nothing is counted yet.
    pub fn new() -> Tally {
        Tally { counts: [0; 16] }
    }

    // How often it was counted at the place.
    pub fn at(&self, place: usize) -> u32
        requires { place < 16 }
    {
        self.counts[place]
    }

    // One more at the place, where it is one. No run has 2^32 of anything, so that nothing wraps.
    pub fn count(&mut self, place: usize) {
        if place < 16 {
            self.counts[place] = self.counts[place].wrapping_add(1);
        }
    }

    // One more at the place if it is so, and otherwise one more mismatch.
    pub fn count_if(&mut self, place: usize, is_so: bool) {
        self.count(if is_so { place } else { MISMATCHES });
    }

    // One more mismatch, unless what was expected is so.
    pub fn expect(&mut self, is_so: bool) {
        if !is_so {
            self.count(MISMATCHES);
        }
    }

    // One more mismatch, where the input is none of the script's. Answers that there is nothing more to read.
    pub fn stop(&mut self) -> bool {
        self.count(MISMATCHES);
        false
    }

    // The words are expected to be the next ones of the input.
    pub fn expect_words(&mut self, stored: &mut Stored, words: &[u32]) {
        self.expect(stored.are_next(words));
    }
}
