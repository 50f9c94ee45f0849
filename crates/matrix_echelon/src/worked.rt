// The worked rows grow by one: a row that is not 0 is scaled to 1 at its pivot, its first place that is not 0, and the rows of its
// group of four are cleared there; the rows of earlier groups stay.
ghost use Rattle.matrix_echelon.specs.Worked.{Scalable, Scaled, Addable, MultipleAdded, GroupClearable, GroupCleared, Growable, RowGrown};

// Multiplies the numbers by s modulo p; those in front of `from` are 0.
fn scale(p: u32, s: u32, from: usize, x: &mut [u32])
    requires { Scalable p s from x.old }
    ensures { Scaled p s x.old x.new }
{
    for number in x[from..].iter_mut() {
        *number = field::arith::times(p, s, *number);
    }
}

// Adds c times the row x to the numbers of e from the place `at` on, modulo p; the numbers of x in front of `from` are 0.
fn add_multiple(p: u32, c: u32, x: &[u32], from: usize, e: &mut [u32], at: usize)
    requires { Addable p c x.now from e.old at }
    ensures { MultipleAdded p c x.now at e.old e.new }
{
    for j in from..x.len() {
        let y = (c as u64) * (x[j] as u64) + (e[at + j] as u64);
        e[at + j] = (y % (p as u64)) as u32;
    }
}

// Clears the rows of the group that row `rank` belongs to at the place v, where the row x has a 1 and in front of it zeros.
fn clear_group(p: u32, x: &[u32], v: usize, rank: usize, e: &mut [u32])
    requires { GroupClearable p x.now v rank e.old }
    ensures { GroupCleared p x.now v rank e.old e.new }
{
    for t in rank / 4 * 4..rank {
        let at = t * x.len();
        let c = field::arith::minus(p, 0, e[at + v]);
        add_multiple(p, c, x, v, e, at);
    }
}

// Makes x, whose first number that is not 0 stands at v, the worked row `rank`.
pub fn grow(p: u32, x: &mut [u32], v: usize, rank: usize, e: &mut [u32], pivots: &mut [u32])
    requires { Growable p x.old v rank e.old pivots.old }
    ensures { RowGrown p x.old v rank e.old pivots.old e.new pivots.new }
{
    let s = field::arith::inverse(p, x[v]);
    scale(p, s, v, x);
    clear_group(p, x, v, rank, e);
    words::put(x, e, rank * x.len());
    pivots[rank] = v as u32;
}
