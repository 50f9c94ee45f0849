// What the calls on tables are made of beside the methods of `Table`: the number of marks, and the kernel vectors that a reduced form
// gives. The calls of `matrix_calls` meet what each requires.
ghost use Rattle.std.specs.Prelude.{◌≡◌, ℕ, ◌*◌, ◌≤◌, ◌<◌, length, get_or};
ghost use Rattle.algebra.specs.Kernel.{kernel_vector};
ghost use Rattle.checks.specs.Largest.{largest};
ghost use Rattle.field.specs.Residue.{residues};
ghost use Rattle.field.specs.Written.{numbers};
ghost use Rattle.field.proofs.Totals.{total};
ghost use Rattle.matrix.specs.Parts.{ReducedRows, IsFree, KernelVectors};

// The sum of marks, each 0 or 1.
pub fn count_marks(xs: &[u32]) -> u32
    requires { (length xs.now ≤ largest) × ((i : ℕ) → i < length xs.now → get_or xs.now i 0 ≤ 1) }
    ensures { result ≡ total (length xs.now) (λ i. get_or xs.now i 0) }
{
    xs.iter().sum()
}

// The number at j of the kernel vector of column c, which has no pivot: at a pivot the negative of what its row has at c, else 1
// at c itself and 0 elsewhere.
fn kernel_entry(p: u32, n: usize, at: &[u32], e: &[u32], c: usize, j: usize) -> u32
    requires { ReducedRows p n at.now e.now × IsFree n at.now c × (j < n) }
    ensures { (h : ReducedRows p n at.now e.now) → result ≡ (kernel_vector (residues p) h.m h.D h.A c j).value }
{
    let row = at[j] as usize;
    if row == 0 {
        return if j == c { 1 } else { 0 };
    }
    field::arith::minus(p, 0, e[(row - 1) * n + c])
}

// The kernel vector of column c, which has no pivot: column c of 1 - D A.
fn kernel_vector(p: u32, n: usize, at: &[u32], e: &[u32], c: usize, out: &mut [u32])
    requires { ReducedRows p n at.now e.now × IsFree n at.now c × (length out.old ≡ n) }
    ensures { (h : ReducedRows p n at.now e.now) → out.new ≡ numbers n (kernel_vector (residues p) h.m h.D h.A c) }
{
    for (j, x) in out.iter_mut().enumerate() {
        *x = kernel_entry(p, n, at, e, c, j);
    }
}

// The kernel vectors of the columns that have no pivot, vector after vector at the front of the basis, and how many they are; the
// rest of the basis becomes 0. at[j] tells which row of e has its pivot at j.
pub fn kernel_vectors(p: u32, n: usize, at: &[u32], e: &[u32], basis: &mut [u32]) -> u32
    requires { ReducedRows p n at.now e.now × (length basis.old ≡ n * n) }
    ensures { (h : ReducedRows p n at.now e.now)
        → KernelVectors h.m n h.D h.A at.now basis.new result }
{
    let mut k = 0;
    for c in 0..n {
        if at[c] == 0 {
            let from = k * n;
            let end = from + n;
            kernel_vector(p, n, at, e, c, &mut basis[from..end]);
            k += 1;
        }
    }
    let rest = k * n;
    words::clear(&mut basis[rest..]);
    k as u32
}
