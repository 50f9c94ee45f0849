// The test of p by the table of inverses. For an odd q with the inverse v modulo 2^32, and for s ≤ q < 2 s, q divides p
// exactly if p × v modulo 2^32 is at most p / s: a product takes the place of a division.
ghost use Rattle.std.specs.Prelude.{◌≡◌, ◌*◌, ◌%◌};
ghost use Rattle.algebra.specs.Answers.{Tells};
ghost use Rattle.checks.specs.Prime.{IsModulus, Sieved};
ghost use Rattle.checks.specs.Inverses.{word_base, Strikes};

use super::primes;

// Products are taken modulo 2^32.
const BASE: u64 = 4294967296;

// The product modulo 2^32.
fn wrapped(p: u32, v: u32) -> u32
    ensures { result ≡ p * v % word_base }
{
    ((p as u64) * (v as u64) % BASE) as u32
}

// Whether the product of p with an inverse of the part is at most `most`.
fn strikes(p: u32, most: u32, words: &[u32; 39]) -> bool
    ensures { Tells result (Strikes p most words.now) }
{
    for v in &words[1..] {
        if wrapped(p, *v) <= most {
            return true;
        }
    }
    false
}

// Whether p, which has no divisor below 33, has none at all: by the parts whose start's square is at most p.
pub fn is_prime(p: u32) -> bool
    requires { Sieved 33 p }
    ensures { Tells result (IsModulus p) }
{
    for part in 0..128 {
        let words = primes::inverses(part);
        let start = words[0];
        let most = p / start;
        if most < start {
            return true;
        }
        if strikes(p, most, &words) {
            return false;
        }
    }
    true
}
