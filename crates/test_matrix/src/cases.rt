// The stored cases: the tables of one list, then the pairs of the other.
ghost use Rattle.std.specs.Prelude.{◌≤◌};

use test_support::counts::Tally;
use test_support::input::Stored;

// The next case of the list, which `compare` reads behind its sizes; and whether there was one. A table of more rows or columns than
// there is room for is none of the script's.
fn next<F: Fn(&mut Stored, u32, u32, u32, &mut Tally)>(
    stored: &mut Stored,
    compare: &F,
    tally: &mut Tally,
) -> bool
    requires { (stored : _) (p m n : _) (tally : _) → m ≤ 64 → n ≤ 64 → F.pre compare.now stored p m n tally }
{
    let p = stored.word();
    if p == 0 {
        return false;
    }
    let m = stored.word();
    let n = stored.word();
    if 64 < m || 64 < n {
        return tally.stop();
    }
    compare(stored, p, m, n, tally);
    true
}

// All cases of the list, of which there are at most 100,000.
pub fn run<F: Fn(&mut Stored, u32, u32, u32, &mut Tally)>(
    stored: &mut Stored,
    compare: &F,
    tally: &mut Tally,
)
    requires { (stored : _) (p m n : _) (tally : _) → m ≤ 64 → n ≤ 64 → F.pre compare.now stored p m n tally }
{
    for _ in 0..100000 {
        if !next(stored, compare, tally) {
            return;
        }
    }
}
