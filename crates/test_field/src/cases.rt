// The stored cases: signed and residue with low ends, each compared with what its case says.
use test_support::counts::Tally;
use test_support::input::Stored;

// The places of the counts.
pub const READINGS: usize = 0;

pub const RESIDUES: usize = 1;

pub const REFUSED: usize = 2;

// A residue that is read, with the answer and the record from the input.
fn read(stored: &mut Stored, p: u32, low: u32, tally: &mut Tally) {
    let answer = signed::signed(p, low, stored.word());
    let number = stored.word();
    let record = stored.number();
    match answer {
        Ok(z) => tally.count_if(READINGS, number == 0 && z == record),
        Err(kind) => tally.count_if(REFUSED, u32::from(kind) == number),
    }
}

// The other way round.
fn unread(stored: &mut Stored, p: u32, low: u32, tally: &mut Tally) {
    let answer = signed::residue(p, low, stored.number());
    let number = stored.word();
    let residue = stored.word();
    match answer {
        Ok(v) => tally.count_if(RESIDUES, number == 0 && v == residue),
        Err(kind) => tally.count_if(REFUSED, u32::from(kind) == number),
    }
}

// The next case, and whether there was one. A kind above 2 is none of the script's.
fn next(stored: &mut Stored, tally: &mut Tally) -> bool {
    let kind = stored.word();
    if kind == 0 {
        return false;
    }
    let p = stored.word();
    let low = stored.word();
    match kind {
        1 => read(stored, p, low, tally),
        2 => unread(stored, p, low, tally),
        _ => return tally.stop(),
    }
    true
}

// All cases, of which there are at most 100,000.
pub fn run(stored: &mut Stored, tally: &mut Tally) {
    for _ in 0..100000 {
        if !next(stored, tally) {
            return;
        }
    }
}
