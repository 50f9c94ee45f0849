// The stored cases, those of one call after those of another.
use test_support::counts::Tally;
use test_support::input::Stored;

// The next case of the call, which `compare` reads behind its sizes; and whether there was one.
fn next<F: Fn(&mut Stored, u32, u32, u32, &mut Tally)>(
    stored: &mut Stored,
    compare: &F,
    tally: &mut Tally,
) -> bool
    requires { F.IsAlwaysCallable compare.now }
{
    let p = stored.word();
    if p == 0 {
        return false;
    }
    let n = stored.word();
    let s = stored.word();
    compare(stored, p, n, s, tally);
    true
}

// All cases of the call, of which there are at most 100,000.
pub fn run<F: Fn(&mut Stored, u32, u32, u32, &mut Tally)>(
    stored: &mut Stored,
    compare: &F,
    tally: &mut Tally,
)
    requires { F.IsAlwaysCallable compare.now }
{
    for _ in 0..100000 {
        if !next(stored, compare, tally) {
            return;
        }
    }
}
