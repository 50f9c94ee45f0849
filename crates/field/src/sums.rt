// The sum of the products of a row and a column modulo p, for a row of any length. The low and the high limbs of the products, of 32
// bits each, are added apart and reduced once for each part of the row.
ghost use Rattle.std.specs.Prelude.{◌≡◌, ◌+◌, ◌<◌, ◌≤◌, length};
ghost use Rattle.field.specs.Residue.{reduce};
ghost use Rattle.field.specs.Products.{Reaches, sum_of_products};
ghost use Rattle.field.specs.Totals.{total, products};
ghost use Rattle.field.specs.Limbs.{limb_base, whole, LimbFits};

// 2^32, the base of the limbs.
pub const BASE: u64 = 4294967296;

// The length of a part: so many products are added before their sum is reduced. Any length below 2^32 would do, as sums of 2^32
// limbs have 64 bits, and the sum so far counts as one.
const PART: usize = 4096;

// The residue of lo + 2^32 × hi, with two divisions: what `lo` has above its low limb goes to `hi` first.
fn reduced(p: u32, lo: u64, hi: u64) -> u32
    requires { (0 < p) × LimbFits hi }
    ensures { result ≡ (reduce p (whole lo hi)).value }
{
    let m = p as u64;
    let top = (hi + lo / BASE) % m;
    ((top * BASE + lo % BASE) % m) as u32
}

// The residue of `sum` plus the products of `row` and the column of `table` that begins at `start` and goes on by `step`.
fn add_products(p: u32, sum: u32, row: &[u32], table: &[u32], start: usize, step: usize) -> u32
    requires { (0 < p) × (length row.now < limb_base) × Reaches (length row.now) start step (length table.now) }
    ensures { result ≡ (reduce p (sum + total (length row.now) (products row.now table.now start step))).value }
{
    let mut lo = sum as u64;
    let mut hi: u64 = 0;
    for t in 0..row.len() {
        let x = (row[t] as u64) * (table[start + t * step] as u64);
        lo += x % BASE;
        hi += x / BASE;
    }
    reduced(p, lo, hi)
}

// The same as `dot`, part after part: each begins with the sum so far.
fn dot_by_parts(p: u32, row: &[u32], table: &[u32], start: usize, step: usize) -> u32
    requires { (0 < p) × Reaches (length row.now) start step (length table.now) }
    ensures { result ≡ (sum_of_products p row.now table.now start step).value }
{
    let mut sum = 0;
    let mut from = 0;
    for part in row.chunks(PART) {
        sum = add_products(p, sum, part, table, start + from * step, step);
        from += part.len();
    }
    sum
}

// The sum of the products of `row` and the column of `table` that begins at `start` and goes on by `step`, read in place. A row of
// no more than one part, as all rows of tables and boards are, is summed at once.
pub fn dot(p: u32, row: &[u32], table: &[u32], start: usize, step: usize) -> u32
    requires { (0 < p) × Reaches (length row.now) start step (length table.now) }
    ensures { result ≡ (sum_of_products p row.now table.now start step).value }
{
    if PART < row.len() {
        return dot_by_parts(p, row, table, start, step);
    }
    add_products(p, 0, row, table, start, step)
}
