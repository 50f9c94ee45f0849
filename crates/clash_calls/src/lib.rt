// Which frames of a log quarrel: the public call clash.
#![tactic(auto)]

ghost use Rattle.std.specs.Prelude.{◌≡◌};
ghost use Rattle.checks.specs.Outcome.{outcome};
ghost use Rattle.checks.specs.Sizes.{Judges};
ghost use Rattle.checks.specs.Told.{result_told};
ghost use Rattle.clash.specs.Calls.{clash_checks, clash_call};

use checks::Refusal;
use words::all_below;

// What clash checks: 1; 2 for m and n; 12; 3 for the log, then the marks; 4.
fn clash_checks(p: u32, m: u32, n: u32, s: u32, log: &[u32], marks: &[u32]) -> Result<(), Refusal>
    ensures { Judges (clash_checks p m n s log.now marks.now) result }
{
    checks::table_sizes(p, m, n)?;
    if n < 1 {
        return Err(Refusal::Size);
    }
    if s < 1 {
        return Err(Refusal::Words);
    }
    if checks::MOST_WORDS < s {
        return Err(Refusal::Words);
    }
    let width = n as usize + s as usize;
    if log.len() != m as usize * width {
        return Err(Refusal::Length);
    }
    if marks.len() != m as usize {
        return Err(Refusal::Length);
    }
    if !all_below(p, log) {
        return Err(Refusal::Number);
    }
    Ok(())
}

// From a log of m frames, each n multipliers and then s values, the frames of the first clash: the first one that contradicts the
// earlier ones, and the earlier ones that it combines from. They have no common assignment, and without any one of them they have.
// Each row's mark becomes 1 if it is selected, else 0; answers how many are.
pub fn clash(p: u32, m: u32, n: u32, s: u32, log: &[u32], marks: &mut [u32]) -> Result<u32, Refusal>
    ensures { outcome (result_told result) marks.new ≡ clash_call p m n s log.now marks.old }
{
    clash_checks(p, m, n, s, log, marks)?;
    Ok(clash::select(p, m as usize, n as usize, s as usize, log, marks))
}
