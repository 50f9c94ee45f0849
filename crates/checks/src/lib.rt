// The refusal kinds, the test of the modulus, and what several calls check alike: the modulus, then the size.
#![tactic(auto)]

ghost use Rattle.std.specs.Prelude.{◌≡◌};
ghost use Rattle.algebra.specs.Answers.{Tells};
ghost use Rattle.checks.specs.Refusal.{refusal_number};
ghost use Rattle.checks.specs.Prime.{IsModulus};
ghost use Rattle.checks.specs.Sizes.{table_sizes, frame_sizes, Judges};

mod primes;
mod table;

// The most rows, columns or records.
pub const LARGEST: u32 = 64;

// The most words of a record.
pub const MOST_WORDS: u32 = 16;

// The largest modulus, 2^31 - 1.
pub const LARGEST_MODULUS: u32 = 2147483647;

// Why a call refuses: the kinds 1 to 11 of document 01's table, and those that document 02 adds.
#[derive(Clone, Copy, Debug, PartialEq, Eq)]
pub enum Refusal {
    // 1: p is no prime in range
    Modulus,
    // 2: m or n above 64; n of 0 for frames and open
    Size,
    // 3: a lent slice's length is not the one named
    Length,
    // 4: a number or a low end not below p, or a record out of range
    Number,
    // 5: no solution
    Insoluble,
    // 6: frame length
    FrameLength,
    // 7: bit at n or above
    Padding,
    // 8: multiplier 0 under a standing bit
    ZeroMultiplier,
    // 9: the frame contradicts the standing ones
    Conflict,
    // 10: t above the count
    Withdrawal,
    // 11: the words are no board
    NotBoard,
    // 12: s, the words of a record, not 1 to 16
    Words,
    // 15: the wanted row is no combination of the standing rows, so that it is not in their span
    NotInSpan,
    // 17: ADA differs from A, so that D is no inner inverse of A
    NotInner,
    // 18: DAD differs from D, so that D is no outer inverse of A
    NotOuter,
}

// The number that the documents give the kind.
impl From<Refusal> for u32 {
    ghost from_gives = { λ kind number. number ≡ refusal_number kind };

    fn from(kind: Refusal) -> u32 {
        match kind {
            Refusal::Modulus => 1,
            Refusal::Size => 2,
            Refusal::Length => 3,
            Refusal::Number => 4,
            Refusal::Insoluble => 5,
            Refusal::FrameLength => 6,
            Refusal::Padding => 7,
            Refusal::ZeroMultiplier => 8,
            Refusal::Conflict => 9,
            Refusal::Withdrawal => 10,
            Refusal::NotBoard => 11,
            Refusal::Words => 12,
            Refusal::NotInSpan => 15,
            Refusal::NotInner => 17,
            Refusal::NotOuter => 18,
        }
    }
}

// Whether p is a prime from 2 to 2,147,483,647: by division by 2 and the odd numbers below 33, which is all for a p below
// 31², and then by the table of inverses.
pub fn is_modulus(p: u32) -> bool
    ensures { Tells result (IsModulus p) }
{
    if p < 2 {
        return false;
    }
    if LARGEST_MODULUS < p {
        return false;
    }
    if p == 2 {
        return true;
    }
    if p % 2 == 0 {
        return false;
    }
    for q in (3..33).step_by(2) {
        if p / q < q {
            return true;
        }
        if p % q == 0 {
            return false;
        }
    }
    table::is_prime(p)
}

// 1 and 2 of the calls on tables: the modulus, then m and n at most 64.
pub fn table_sizes(p: u32, m: u32, n: u32) -> Result<(), Refusal>
    ensures { Judges (table_sizes p m n) result }
{
    if !is_modulus(p) {
        return Err(Refusal::Modulus);
    }
    if LARGEST < m {
        return Err(Refusal::Size);
    }
    if LARGEST < n {
        return Err(Refusal::Size);
    }
    Ok(())
}

// 1, 2 and 12 of the calls on frames, and of open: the modulus, then n from 1 to 64, then s from 1 to 16.
pub fn frame_sizes(p: u32, n: u32, s: u32) -> Result<(), Refusal>
    ensures { Judges (frame_sizes p n s) result }
{
    if !is_modulus(p) {
        return Err(Refusal::Modulus);
    }
    if n < 1 {
        return Err(Refusal::Size);
    }
    if LARGEST < n {
        return Err(Refusal::Size);
    }
    if s < 1 {
        return Err(Refusal::Words);
    }
    if MOST_WORDS < s {
        return Err(Refusal::Words);
    }
    Ok(())
}
