// Sealing a frame: its value for each word is the sum of products of that word of the records and the multipliers modulo p.
ghost use Rattle.std.specs.Prelude.{◌≡◌, ℕ, ◌+◌, ◌*◌, ◌≤◌, ◌<◌, length, get_or};
ghost use Rattle.checks.specs.Prime.{largest_modulus};
ghost use Rattle.checks.specs.Largest.{largest, most_words};
ghost use Rattle.signed.specs.Reading.{residue_of};
ghost use Rattle.frame.specs.Sealing.{Records, word_of, sealed_word, sealed};

use words::{ROW, filled};

// Writes the residue of word u of each of n records of s words to its place.
fn put_residues(
    p: u32,
    low: u32,
    records: &[i32],
    s: usize,
    u: usize,
    n: usize,
    residues: &mut [u32],
)
    requires { (low < p) × (p ≤ largest_modulus) × Records p low records.now × (s ≤ most_words) × (u < s) × (n ≤ largest)
        × (length records.now ≡ n * s) × (n ≤ length residues.old) }
    ensures { (n ≤ length residues.new)
        × ((j : ℕ) → j < n → get_or residues.new j 0 ≡ residue_of p (word_of s records.now j u)) }
{
    for j in 0..n {
        residues[j] = signed::residue_from(p, low, records[j * s + u]);
    }
}

// The value for word u of the frame of records of s words and multipliers that are known to be right.
fn value_of(p: u32, low: u32, records: &[i32], s: usize, u: usize, multipliers: &[u32]) -> u32
    requires { (low < p) × (p ≤ largest_modulus) × Records p low records.now × (s ≤ most_words) × (u < s)
        × (length multipliers.now ≤ largest) × (length records.now ≡ length multipliers.now * s) }
    ensures { result ≡ sealed_word p (length multipliers.now) s records.now multipliers.now u }
{
    let n = multipliers.len();
    let mut residues: [u32; ROW] = filled(0);
    put_residues(p, low, records, s, u, n, &mut residues);
    field::sums::dot(p, &residues[..n], multipliers, 0, 1)
}

// Writes the values of the frame, one for each word of its records.
pub fn put_values(p: u32, low: u32, records: &[i32], multipliers: &[u32], values: &mut [u32])
    requires { (low < p) × (p ≤ largest_modulus) × Records p low records.now × (length values.old ≤ most_words)
        × (length multipliers.now ≤ largest) × (length records.now ≡ length multipliers.now * length values.old) }
    ensures { values.new ≡ sealed p (length multipliers.now) (length values.old) records.now multipliers.now }
{
    let s = values.len();
    for (u, value) in values.iter_mut().enumerate() {
        *value = value_of(p, low, records, s, u, multipliers);
    }
}
