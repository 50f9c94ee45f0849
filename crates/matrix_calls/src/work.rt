// The work of the calls on a table, and on a system of it, that have passed the checks. Leaves for `lib.rt`, which meets what each
// requires.
ghost use Rattle.std.specs.Prelude.{◌≡◌, ◌*◌, length};
ghost use Rattle.checks.specs.Prime.{IsModulus};
ghost use Rattle.matrix.specs.Calls.{table_rank};
ghost use Rattle.checks.specs.Told.{result_told};
ghost use Rattle.matrix.specs.Parts.{InverseRoom, StoresInverse, StoresBasis, StoresFit, IsSolution};

use checks::Refusal;
use matrix::parts;
use matrix::table::{LinearSystem, Table};
use matrix_echelon::{forward, reduced};
use words::{ROW, WIDE_TABLE, filled};

// D, I and J of the table in lent memory, and its rank.
pub fn invert_ranked(table: Table, d: &mut [u32], columns: &mut [u32], rows: &mut [u32]) -> u32
    requires { InverseRoom table.height table.width d.old columns.old rows.old }
    ensures { let t = table.entry in (ok : IsModulus t.p)
        → StoresInverse t.p ok t.height t.width t.numbers.now d.new columns.new rows.new
        × (result ≡ table_rank t.p ok t.height t.width t.numbers.now) }
{
    table.invert(d, columns, rows);
    parts::count_marks(columns)
}

// The basis of the kernel of the table, and how many vectors it has. No column is carried along, so that the table's numbers stand
// for theirs too.
pub fn kernel_of(table: Table, basis: &mut [u32]) -> u32
    requires { length basis.old ≡ table.width * table.width }
    ensures { let t = table.entry in (ok : IsModulus t.p) → StoresBasis t.p ok t.height t.width t.numbers.now basis.new result }
{
    let mut e: [u32; WIDE_TABLE] = filled(0);
    let mut pivots: [u32; ROW] = filled(0);
    let rank = reduced::reduced(
        table.p,
        table.plain(),
        table.numbers,
        table.numbers,
        0,
        0,
        &mut e,
        &mut pivots,
    );
    let at = reduced::rows_by_pivot(rank, &pivots);
    parts::kernel_vectors(table.p, table.width, &at, &e, basis)
}

// The nearest fit: z becomes D w and rest what that leaves over of w. Where the rank is the number of rows nothing is left over.
pub fn fit_of(system: LinearSystem, z: &mut [u32], rest: &mut [u32]) -> u32
    requires { (length z.old ≡ system.table.width) × (length rest.old ≡ system.table.height) }
    ensures { let t = system.entry.table in (ok : IsModulus t.p)
        → StoresFit t.p ok t.height t.width t.numbers.now system.entry.w.now result z.new rest.new }
{
    let table = system.table;
    let rank = reduced::solution(table.p, table.plain(), table.numbers, system.w, 1, z);
    let full = table.height;
    if rank == full {
        words::clear(rest);
        return rank as u32;
    }
    system.remainder(z, rest);
    rank as u32
}

// The answer to the system: z becomes Dw and u 0, or u becomes the mix that shows that there is no solution. x is room
// for Dw, and u, until it is known, for what that leaves over.
fn solve_with(
    system: LinearSystem,
    x: &mut [u32],
    z: &mut [u32],
    u: &mut [u32],
) -> Result<u32, Refusal>
    requires { (length x.old ≡ system.table.width) × (length z.old ≡ system.table.width) × (length u.old ≡ system.table.height) }
    ensures { let t = system.entry.table in IsSolution t.p t.height t.width t.numbers.now system.entry.w.now z.old (result_told result) z.new u.new }
{
    let rank = fit_of(system, x, u);
    if let Some(y) = words::least_nonzero(u) {
        system.table.row_mix(y, u);
        return Err(Refusal::Insoluble);
    }
    words::copy(x, 0, system.table.width, z);
    Ok(rank)
}

// The same, with room for Dw made here.
pub fn solve_of(system: LinearSystem, z: &mut [u32], u: &mut [u32]) -> Result<u32, Refusal>
    requires { (length z.old ≡ system.table.width) × (length u.old ≡ system.table.height) }
    ensures { let t = system.entry.table in IsSolution t.p t.height t.width t.numbers.now system.entry.w.now z.old (result_told result) z.new u.new }
{
    let mut x: [u32; ROW] = filled(0);
    solve_with(system, &mut x[..system.table.width], z, u)
}

// The rank of the table.
pub fn rank_of(table: Table) -> u32
    ensures { let t = table.entry in (ok : IsModulus t.p) → result ≡ table_rank t.p ok t.height t.width t.numbers.now }
{
    forward::rank(table.p, table.plain(), table.numbers) as u32
}
