// The pivots of the worked rows, and what they give a row that is worked off: the multipliers that make it 0 there.
ghost use Rattle.matrix_echelon.specs.Pivots.{PivotsInside};

use matrix_mul::limbs::{Limbs, Powers};
use matrix_mul::rows::{Four, Row};

// The pivots of the worked rows, which are `width` numbers long: row t, below `rank`, has its pivot at places[t].
#[derive(Clone, Copy)]
pub struct Pivots<'a> {
    pub width: usize,
    pub rank: usize,
    pub places: &'a [u32],
    pub ghost placed: { PivotsInside width rank places.now },
}

impl Pivots<'_> {
    ghost use Rattle.std.specs.Prelude.{◌+◌, ◌<◌, ◌≤◌};
    ghost use Rattle.words.specs.Lengths.{longest_row};
    ghost use Rattle.matrix_mul.specs.Rows.{Ready};
    ghost use Rattle.matrix_echelon.specs.Group.{IsMultiplier, IsPivotRow, GroupTaken, NoPivotBefore};

    // The multiplier of the worked row t: the negative of the number at its pivot, which it makes 0.
    fn multiplier(self, powers: Powers, t: usize, limbs: &Limbs) -> u32
        requires { (t < self.rank) × Ready self.width limbs.now }
        ensures { IsMultiplier powers.p self.entry t limbs.now result }
    {
        let v = self.places[t] as usize;
        let x = powers.folded(limbs.lo[v], limbs.hi[v]);
        field::arith::minus(powers.p, 0, x)
    }

    // The worked row t with its multiplier; the first row, times 0, where there is no row t. The rows are taken one after the other.
    fn row(self, powers: Powers, t: usize, limbs: &Limbs) -> Row
        requires { (t ≤ longest_row + 3) × Ready self.width limbs.now }
        ensures { IsPivotRow powers.p self.entry t limbs.now result }
    {
        if t < self.rank {
            return Row {
                times: self.multiplier(powers, t, limbs),
                at: t * self.width,
                next: t + 1,
            };
        }
        Row {
            times: 0,
            at: 0,
            next: t + 1,
        }
    }

    // The four rows of the group that begins with row g: the multipliers are known at once, since each row of the group is 0 at the
    // pivots of the others.
    pub fn group(self, powers: Powers, g: usize, limbs: &Limbs) -> Four
        requires { (g ≤ longest_row) × Ready self.width limbs.now }
        ensures { GroupTaken powers.p self.entry g limbs.now result }
    {
        let a = self.row(powers, g, limbs);
        let b = self.row(powers, g + 1, limbs);
        let c = self.row(powers, g + 2, limbs);
        let d = self.row(powers, g + 3, limbs);
        Four { a, b, c, d }
    }

    // The least pivot of the rows of the group that begins with row g: in front of it they are 0.
    pub fn least(self, g: usize) -> usize
        requires { g ≤ longest_row }
        ensures { NoPivotBefore self.entry g result }
    {
        let mut least = self.width;
        for t in g..self.rank.min(g + 4) {
            least = least.min(self.places[t] as usize);
        }
        least
    }
}
