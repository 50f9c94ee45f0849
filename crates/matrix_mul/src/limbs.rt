// Sums of products at each place of a row, modulo p. The low and the high limbs of the products, of 32 bits each, are added apart,
// and reduced once at the end, by 2^32 and 2^64 modulo p.
ghost use Rattle.std.specs.Prelude.{◌≡◌, ◌*◌, ◌%◌, ◌<◌, ◌≤◌, length};
ghost use Rattle.checks.specs.Prime.{largest_modulus};
ghost use Rattle.field.specs.Residue.{reduce};
ghost use Rattle.field.specs.Limbs.{limb_base, whole, LimbFits};
ghost use Rattle.words.specs.Lengths.{widest_row};

use super::rows::{Four, four_at};
use field::sums::BASE;
use words::{WIDE, filled};

// A modulus p, with 2^32 and 2^64 modulo p.
#[derive(Clone, Copy)]
pub struct Powers {
    pub p: u32,
    pub once: u64,
    pub twice: u64,
    pub ghost positive: { 0 < p },
    pub ghost in_range: { p ≤ largest_modulus },
    pub ghost is_once: { once ≡ limb_base % p },
    pub ghost is_twice: { twice ≡ once * once % p },
}

impl Powers {
    // Those of p.
    pub fn of(p: u32) -> Powers
        requires { (0 < p) × (p ≤ largest_modulus) }
        ensures { result.p ≡ p }
    {
        let once = BASE % (p as u64);
        let twice = once * once % (p as u64);
        Powers { p, once, twice }
    }

    // The residue of lo + 2^32 × hi, with one division.
    pub fn folded(self, lo: u64, hi: u64) -> u32
        requires { LimbFits hi }
        ensures { result ≡ (reduce self.p (whole lo hi)).value }
    {
        let top = hi + lo / BASE;
        let x = top / BASE * self.twice + top % BASE * self.once + lo % BASE;
        (x % (self.p as u64)) as u32
    }
}

// Sums of low and of high limbs, at each place of the widest row.
#[derive(Drop)]
pub struct Limbs {
    pub lo: [u64; WIDE],
    pub hi: [u64; WIDE],
    pub ghost long_lo: { length lo ≡ widest_row },
    pub ghost long_hi: { length hi ≡ widest_row },
}

impl Limbs {
    ghost use Rattle.matrix_mul.specs.Rows.{FourInside, NothingBefore, four_at, NoLimbs, Ready, Added, whole_at, Summed};

    // Nothing is added yet.
    pub fn new() -> Limbs
        ensures { NoLimbs result }
    {
        Limbs {
            lo: filled(0),
            hi: filled(0),
        }
    }

    // Adds the limbs of the sums of products of four rows, at the first `width` places; in front of `from` the rows add nothing.
    pub fn add_rows(&mut self, width: usize, from: usize, table: &[u32], four: Four)
        requires { Ready width self.old × FourInside width table.now four × NothingBefore width from table.now four }
        ensures { Added width (four_at table.now four) self.old self.new }
    {
        for j in from..width {
            let x = four_at(table, four, j);
            self.lo[j] += x % BASE;
            self.hi[j] += x / BASE;
        }
    }

    // Adds to each number of `out` what the sums of limbs stand for, modulo p.
    pub fn fold_into(&self, powers: Powers, out: &mut [u32])
        requires { Ready (length out.old) self.now }
        ensures { Summed powers.p (whole_at self.now) out.old out.new }
    {
        for j in 0..out.len() {
            out[j] = powers.folded(self.lo[j] + (out[j] as u64), self.hi[j]);
        }
    }
}
