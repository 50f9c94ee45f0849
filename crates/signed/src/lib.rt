// The signed reading of residues, and its inverse: what a record is on the sheet and what travels in its place.
#![tactic(auto)]

ghost use Rattle.std.specs.Prelude.{◌≡◌, ◌<◌, ◌≤◌};
ghost use Rattle.checks.specs.Prime.{largest_modulus};
ghost use Rattle.algebra.specs.Answers.{Tells};
ghost use Rattle.checks.specs.Outcome.{outcome};
ghost use Rattle.signed.specs.Reading.{reading, residue_of, IsRecord};
ghost use Rattle.signed.specs.Balanced.{balanced_low};
ghost use Rattle.checks.specs.Told.{signed_told, value_told};
ghost use Rattle.checks.specs.Sizes.{Judges};
ghost use Rattle.signed.specs.Calls.{low_checks, signed_call, residue_call};

use checks::Refusal;

// The old low end, (p - 1)/2 rounded down: with it records are read as document 01 says.
pub fn balanced_low(p: u32) -> u32
    requires { 0 < p }
    ensures { result ≡ balanced_low p }
{
    (p - 1) / 2
}

// The reading of v with records from -low to p - 1 - low. It fits an i32, as its size is below p.
pub fn read_from(p: u32, low: u32, v: u32) -> i32
    requires { (v < p) × (low < p) × (p ≤ largest_modulus) }
    ensures { result ≡ reading p low v }
{
    if v < p - low {
        v as i32
    } else {
        -((p - v) as i32)
    }
}

// Whether the record lies from -low to p - 1 - low.
pub fn in_range(p: u32, low: u32, record: i32) -> bool
    requires { (low < p) × (p ≤ largest_modulus) }
    ensures { Tells result (IsRecord p low «record») }
{
    if record < -(low as i32) {
        return false;
    }
    record <= (p - 1 - low) as i32
}

// The residue that a record in range is read from.
pub fn residue_from(p: u32, low: u32, record: i32) -> u32
    requires { IsRecord p low «record» × (low < p) × (p ≤ largest_modulus) }
    ensures { (result < p) × (result ≡ residue_of p «record») }
{
    if record < 0 {
        p - ((-record) as u32)
    } else {
        record as u32
    }
}

// What both calls check first: 1, p no modulus, then 4, the low end not below p.
fn low_checks(p: u32, low: u32) -> Result<(), Refusal>
    ensures { Judges (low_checks p low) result }
{
    if !checks::is_modulus(p) {
        return Err(Refusal::Modulus);
    }
    if p <= low {
        return Err(Refusal::Number);
    }
    Ok(())
}

// The signed reading of the residue v modulo p, with records from -low to p - 1 - low. Refused are 1, p no modulus, and 4, the low end
// or then v not below p.
pub fn signed(p: u32, low: u32, v: u32) -> Result<i32, Refusal>
    ensures { outcome (signed_told result) tt ≡ signed_call p low v }
{
    low_checks(p, low)?;
    if p <= v {
        return Err(Refusal::Number);
    }
    Ok(read_from(p, low, v))
}

// The residue that the record modulo p is read from, with records from -low to p - 1 - low. Refused are 1, p no modulus, and 4, the low
// end not below p or then the record out of range.
pub fn residue(p: u32, low: u32, record: i32) -> Result<u32, Refusal>
    ensures { outcome (value_told result) tt ≡ residue_call p low «record» }
{
    low_checks(p, low)?;
    if !in_range(p, low, record) {
        return Err(Refusal::Number);
    }
    Ok(residue_from(p, low, record))
}
