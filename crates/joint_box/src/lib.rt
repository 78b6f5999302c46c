// The balance box times a row of weights, in 32 bits: the cells' sizes add up to at most a window's 961 pixels, and a weight has 16 bits.
//
// Pairs of signed 16-bit numbers are multiplied and added in one instruction, and a weight is not signed. So half of what 16 bits can hold is taken
// off each weight, and comes back once, times the sum of the cells.
#![tactic(auto)]

ghost use Rattle.std.specs.Prelude.{◌≡◌, ◌≤◌};
ghost use Rattle.joint_cells.specs.Scan.{RowFits};
ghost use Rattle.joint_cells.specs.Box.{BoxInBounds};
ghost use Rattle.joint_box.specs.Products.{PartFits, box_dot, box_sum, centred, centred_part};

// Half of what 16 bits can hold.
const HALF: i32 = 32768;

// The cells of a part.
const PART: usize = 32;

// A weight less that half.
fn centred(weight: u16) -> i16
    ensures { result ≡ centred weight }
{
    (i32::from(weight) - HALF) as i16
}

// The products of n cells from one on with the weights less that half.
fn part(balance_box: &[i16; 256], row: &[u16], from: usize, n: usize) -> i32
    requires { PartFits n from balance_box.now row.now }
    ensures { result ≡ centred_part balance_box.now row.now from n }
{
    let cells = &balance_box[from..from + n];
    let mut sum: i32 = 0;
    for (cell, weight) in cells.iter().zip(&row[from..from + n]) {
        sum += i32::from(*cell) * i32::from(centred(*weight));
    }
    sum
}

// The first m cells, in 16 bits: eight are then added in one instruction.
fn sum_cells(balance_box: &[i16; 256], m: usize) -> i16
    requires { (m ≤ 256) × (BoxInBounds balance_box.now) }
    ensures { result ≡ box_sum balance_box.now m }
{
    let mut sum: i16 = 0;
    for cell in &balance_box[..m] {
        sum += *cell;
    }
    sum
}

// Over the first m cells. 32 at a time: of a part whose length is known the compiler makes one sum of products without a loop, which takes half the
// time.
pub fn box_dot(balance_box: &[i16; 256], row: &[u16], m: usize) -> i32
    requires { (m ≤ 256) × (RowFits m row.now) × (BoxInBounds balance_box.now) }
    ensures { result ≡ box_dot balance_box.now row.now m }
{
    let mut dot: i32 = 0;
    let parts = m / PART;
    for p in 0..parts {
        dot += part(balance_box, row, p * PART, PART);
    }
    let rest = parts * PART;
    dot += part(balance_box, row, rest, m - rest);
    // with that half back
    dot + HALF * i32::from(sum_cells(balance_box, m))
}
