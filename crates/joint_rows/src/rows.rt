// The weights of a window's pixels as a row of numbers, one for each guide.
ghost use Rattle.std.specs.Prelude.{◌≡◌, ◌+◌, ◌*◌, ◌<◌, ◌≤◌, length};
ghost use Rattle.spec.specs.Frame.{frame_of, plane};
ghost use Rattle.spec.specs.Checks.{Planned};
ghost use Rattle.big_endian_part.specs.Part.{Made};
ghost use Rattle.joint_rows.specs.Rows.{Mirror, TableRow, WeightRows};

use big_endian_part::copy_low_first;
use spec::{Guide, Plan};

// The built-in weights from 255 guides below the centre's to 255 above: guide f's row begins at place 255 - f.
pub fn mirror(out: &mut [u16])
    requires { 511 ≤ length out.old }
    ensures { Mirror out.new }
{
    let built = frame_weights::constants();
    for (k, weight) in out[..511].iter_mut().enumerate() {
        *weight = built[k.abs_diff(255)];
    }
}

// What a call of kind 1 makes once: the built-in weights, where the file has no table of its own.
pub fn built_rows(plan: Plan, out: &mut [u16])
    requires { 511 ≤ length out.old }
    ensures { WeightRows plan out.new }
{
    if plan.weights == 0 {
        mirror(out);
    }
}

// n numbers of a row that begins at a byte of the file, from one on. In two turns over a short array, because the compiler then does each for many
// numbers at a time and keeps them in registers.
fn fill_part(file: &[u8], first: usize, from: usize, n: usize, row: &mut [u16; 256])
    requires { (n ≤ 64) × (from + n ≤ 256) × (first + 2 * (from + n) ≤ length file.now) × (length row.old ≡ 256) }
    ensures { Made (plane file.now first) from n row.old row.new }
{
    let mut part = [0; 64];
    copy_low_first(file, first + 2 * from, n, &mut part);
    for k in 0..n {
        row[from + k] = part[k].swap_bytes();
    }
}

// The file's own row of a guide, into an array that is lent: by value it would be copied once more.
pub fn own_row(file: &[u8], plan: Plan, f: Guide, row: &mut [u16; 256])
    requires { (Planned file.now plan) × (f.0 < plan.guides) × (plan.weights ≡ 0 → ⊥) × (length row.old ≡ 256) }
    ensures { TableRow (frame_of file.now) plan.guides f.0 row.new }
{
    let m = plan.guides;
    let first = plan.table + 2 * (f.0 as usize * m);
    let parts = m / 64;
    for i in 0..parts {
        fill_part(file, first, 64 * i, 64, row);
    }
    fill_part(file, first, 64 * parts, m % 64, row);
}
