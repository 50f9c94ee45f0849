// Sum, difference, product and inverse of residues.
ghost use Rattle.std.specs.Prelude.{◌≡◌, ◌<◌, ◌≤◌};
ghost use Rattle.checks.specs.Prime.{IsModulus};
ghost use Rattle.field.specs.Residue.{reduce, ◌⊕◌, ◌⊗◌, negated};
ghost use Rattle.checks.specs.Prime.{largest_modulus};

pub fn plus(p: u32, a: u32, b: u32) -> u32
    requires { (a < p) × (b < p) × (p ≤ largest_modulus) }
    ensures { result ≡ (reduce p a ⊕ reduce p b).value }
{
    let s = a + b;
    if p <= s { s - p } else { s }
}

pub fn minus(p: u32, a: u32, b: u32) -> u32
    requires { (a < p) × (b < p) × (p ≤ largest_modulus) }
    ensures { result ≡ (reduce p a ⊕ negated (reduce p b)).value }
{
    if b <= a { a - b } else { a + (p - b) }
}

// The product needs 64 bits before it is reduced.
pub fn times(p: u32, a: u32, b: u32) -> u32
    requires { (a < p) × (b < p) × (p ≤ largest_modulus) }
    ensures { result ≡ (reduce p a ⊗ reduce p b).value }
{
    ((a as u64) * (b as u64) % (p as u64)) as u32
}

// The r with a × r = 1, by Euclid's steps on a and p. Throughout a × s = x and a × t = -y modulo p, and x × t + y × s = p, so
// that s and t stay below p; p is prime, so x or y comes to 1 before either comes to 0.
pub fn inverse(p: u32, a: u32) -> u32
    requires { IsModulus p × (0 < a) × (a < p) }
    ensures { (result < p) × (reduce p a ⊗ reduce p result ≡ reduce p 1) }
{
    let mut x = a;
    let mut y = p;
    let mut s: u32 = 1;
    let mut t: u32 = 0;
    while 1 < x {
        t += y / x * s;
        y %= x;
        if y == 1 {
            return p - t;
        }
        s += x / y * t;
        x %= y;
    }
    s
}
