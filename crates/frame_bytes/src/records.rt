// What sealing checks of the records that it is given.
ghost use Rattle.std.specs.Prelude.{◌≤◌, ◌<◌};
ghost use Rattle.checks.specs.Prime.{largest_modulus};
ghost use Rattle.algebra.specs.Answers.{Tells};
ghost use Rattle.frame.specs.Sealing.{Records};

// Whether every number is a signed record modulo p, from -low to p - 1 - low.
pub fn all_records(p: u32, low: u32, numbers: &[i32]) -> bool
    requires { (low < p) × (p ≤ largest_modulus) }
    ensures { Tells result (Records p low numbers.now) }
{
    numbers.iter().all(|z| signed::in_range(p, low, *z))
}
