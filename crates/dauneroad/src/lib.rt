// What C calls: each function hands its slices to the call below it and answers the number that is told. include/dauneroad.h
// declares them.
#![tactic(auto)]

ghost use Rattle.std.specs.Prelude.{◌≡◌};
ghost use Rattle.checks.specs.Told.{done_told, result_told};
ghost use Rattle.board_solve.specs.Told.{take_told};
ghost use Rattle.dauneroad.specs.Exports.{Small, answer, open_answer, take_answer, withdraw_answer, show_answer, relay_answer};
ghost use Rattle.dauneroad.specs.Exports.{read_answer, write_answer, seal_answer, signed_answer, residue_answer};
ghost use Rattle.dauneroad.specs.Exports.{quasiinverse_answer, kernel_answer, solve_answer, fit_answer, check_answer, clash_answer};

use board_calls::Taken;
use checks::Refusal;

// The number of what open answers: 0 when done, or the refusal's.
fn done_number(answer: Result<(), Refusal>) -> u32
    ensures { result ≡ (done_told answer).number }
{
    match answer {
        Ok(()) => 0,
        Err(kind) => u32::from(kind),
    }
}

// The number of what take answers: 0 for new, 100 for repeat, or the refusal's.
fn take_number(answer: Result<Taken, Refusal>) -> u32
    ensures { result ≡ (take_told answer).number }
{
    match answer {
        Ok(Taken::New(_)) => 0,
        Ok(Taken::Repeat(_)) => 100,
        Err(kind) => u32::from(kind),
    }
}

// The number of what the calls answer whose number tells the result: 200 plus it, or the refusal's.
fn result_number(answer: Result<u32, Refusal>) -> u32
    requires { Small (result_told answer) }
    ensures { result ≡ (result_told answer).number }
{
    match answer {
        Ok(k) => 200 + k,
        Err(kind) => u32::from(kind),
    }
}

#[unsafe(no_mangle)]
pub extern "C" fn dauneroad_open(p: u32, n: u32, s: u32, board: &mut [u32]) -> u32
    ensures { answer result board.new ≡ open_answer p n s board.old }
{
    done_number(board_calls::open(p, n, s, board))
}

#[unsafe(no_mangle)]
pub extern "C" fn dauneroad_take(board: &mut [u32], frame: &[u8], mix: &mut [u32]) -> u32
    ensures { answer result (board.new, mix.new) ≡ take_answer board.old frame.now mix.old }
{
    take_number(board_calls::take(board, frame, mix))
}

#[unsafe(no_mangle)]
pub extern "C" fn dauneroad_withdraw(board: &mut [u32], t: u32) -> u32
    ensures { answer result board.new ≡ withdraw_answer board.old t }
{
    result_number(board_calls::withdraw(board, t))
}

#[unsafe(no_mangle)]
pub extern "C" fn dauneroad_show(
    board: &[u32],
    low: u32,
    marks: &mut [u32],
    numbers: &mut [i32],
) -> u32
    ensures { answer result (marks.new, numbers.new)
        ≡ show_answer board.now low marks.old numbers.old }
{
    result_number(board_calls::show(board, low, marks, numbers))
}

#[unsafe(no_mangle)]
#[tactic(auto, using(crate::proofs::Bounds::small_relay))]
pub extern "C" fn dauneroad_relay(
    board: &[u32],
    wanted: &[u32],
    mix: &mut [u32],
    bytes: &mut [u8],
) -> u32
    ensures { answer result (mix.new, bytes.new)
        ≡ relay_answer board.now wanted.now mix.old bytes.old }
{
    result_number(relay_calls::relay(board, wanted, mix, bytes))
}

#[unsafe(no_mangle)]
#[tactic(auto, using(crate::proofs::Bounds::small_read))]
pub extern "C" fn dauneroad_read(
    p: u32,
    n: u32,
    s: u32,
    frame: &[u8],
    multipliers: &mut [u32],
    values: &mut [u32],
) -> u32
    ensures { answer result (multipliers.new, values.new)
        ≡ read_answer p n s frame.now multipliers.old values.old }
{
    result_number(frame_calls::read(p, n, s, frame, multipliers, values))
}

#[unsafe(no_mangle)]
#[tactic(auto, using(crate::proofs::Bounds::small_write))]
pub extern "C" fn dauneroad_write(
    p: u32,
    n: u32,
    s: u32,
    multipliers: &[u32],
    values: &[u32],
    bytes: &mut [u8],
) -> u32
    ensures { answer result bytes.new
        ≡ write_answer p n s multipliers.now values.now bytes.old }
{
    result_number(frame_calls::write(p, n, s, multipliers, values, bytes))
}

#[unsafe(no_mangle)]
pub extern "C" fn dauneroad_seal(
    p: u32,
    n: u32,
    s: u32,
    low: u32,
    records: &[i32],
    multipliers: &[u32],
    values: &mut [u32],
) -> u32
    ensures { answer result values.new
        ≡ seal_answer p n s low records.now multipliers.now values.old }
{
    result_number(frame_calls::seal(p, n, s, low, records, multipliers, values))
}

#[unsafe(no_mangle)]
pub extern "C" fn dauneroad_signed(p: u32, low: u32, v: u32, record: &mut i32) -> u32
    ensures { answer result «record».new ≡ signed_answer p low v «record».old }
{
    match signed::signed(p, low, v) {
        Ok(z) => {
            *record = z;
            0
        }
        Err(kind) => u32::from(kind),
    }
}

#[unsafe(no_mangle)]
pub extern "C" fn dauneroad_residue(p: u32, low: u32, record: i32, residue: &mut u32) -> u32
    ensures { answer result residue.new ≡ residue_answer p low «record» residue.old }
{
    match signed::residue(p, low, record) {
        Ok(v) => {
            *residue = v;
            0
        }
        Err(kind) => u32::from(kind),
    }
}

#[unsafe(no_mangle)]
pub extern "C" fn dauneroad_quasiinverse(
    p: u32,
    m: u32,
    n: u32,
    a: &[u32],
    d: &mut [u32],
    columns: &mut [u32],
    rows: &mut [u32],
) -> u32
    ensures { answer result (d.new, (columns.new, rows.new))
        ≡ quasiinverse_answer p m n a.now d.old columns.old rows.old }
{
    result_number(matrix_calls::quasiinverse(p, m, n, a, d, columns, rows))
}

#[unsafe(no_mangle)]
pub extern "C" fn dauneroad_kernel(p: u32, m: u32, n: u32, a: &[u32], basis: &mut [u32]) -> u32
    ensures { answer result basis.new ≡ kernel_answer p m n a.now basis.old }
{
    result_number(matrix_calls::kernel(p, m, n, a, basis))
}

#[unsafe(no_mangle)]
pub extern "C" fn dauneroad_solve(
    p: u32,
    m: u32,
    n: u32,
    a: &[u32],
    w: &[u32],
    z: &mut [u32],
    u: &mut [u32],
) -> u32
    ensures { answer result (z.new, u.new)
        ≡ solve_answer p m n a.now w.now z.old u.old }
{
    result_number(matrix_calls::solve(p, m, n, a, w, z, u))
}

#[unsafe(no_mangle)]
pub extern "C" fn dauneroad_fit(
    p: u32,
    m: u32,
    n: u32,
    a: &[u32],
    w: &[u32],
    z: &mut [u32],
    rest: &mut [u32],
) -> u32
    ensures { answer result (z.new, rest.new)
        ≡ fit_answer p m n a.now w.now z.old rest.old }
{
    result_number(matrix_calls::fit(p, m, n, a, w, z, rest))
}

#[unsafe(no_mangle)]
pub extern "C" fn dauneroad_check(p: u32, m: u32, n: u32, a: &[u32], d: &[u32]) -> u32
    ensures { answer result tt ≡ check_answer p m n a.now d.now }
{
    result_number(matrix_calls::check(p, m, n, a, d))
}

#[unsafe(no_mangle)]
#[tactic(auto, using(crate::proofs::Bounds::small_clash))]
pub extern "C" fn dauneroad_clash(
    p: u32,
    m: u32,
    n: u32,
    s: u32,
    log: &[u32],
    marks: &mut [u32],
) -> u32
    ensures { answer result marks.new ≡ clash_answer p m n s log.now marks.old }
{
    result_number(clash_calls::clash(p, m, n, s, log, marks))
}
