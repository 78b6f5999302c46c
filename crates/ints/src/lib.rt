// The crate is its specs: the laws of integers that proofs of signed and float code cite. The functions here are its tests, and no
// crate calls them: each tries one part of the toolkit, and its name says which. The bounds in their contracts are of the size that
// sums over a window of 31 by 31 bytes have: 961 values, with a sum of at most 245055 and squares that sum to at most 62489025.
#![tactic(auto)]

ghost use Rattle.std.specs.Prelude.{◌≡◌, ◌≤◌, pos, nat_abs, ◌+ℤ◌, ◌-ℤ◌, ◌*ℤ◌, ◌≤ℤ◌, ◌<ℤ◌, length, get_or};
ghost use Rattle.std.specs.Int.Signed.{lt_z};
ghost use Rattle.std.specs.Float.{binary64};
ghost use Rattle.std.specs.Float.Ieee.{of_int};
ghost use Rattle.ints.specs.Sum.{Σ};
ghost use Rattle.ints.specs.Float.{FloatOf};

// Signed sums and products, where the proof writes each expression.
pub fn signed_by_hand(n: i64, q: i64, s: i64, e: i64) -> i64
    requires { (nat_abs n ≤ 961) × (nat_abs q ≤ 62489025) × (nat_abs s ≤ 245055) × (nat_abs e ≤ 65025) }
    ensures { result ≡ n *ℤ q -ℤ s *ℤ s +ℤ n *ℤ n *ℤ e }
{
    n * q - s * s + n * n * e
}

// The same with every expression found, with a `let` as a cell of its own, and with a contract in another form than the code's.
pub fn signed_found(v: i64, n: i64, x: i64, s: i64, g: i64, f: i64) -> i64
    requires { (nat_abs v ≤ 180156859227) × (nat_abs n ≤ 961) × (nat_abs x ≤ 255) × (nat_abs s ≤ 245055) × (nat_abs g ≤ 245055) × (nat_abs f ≤ 961) }
    ensures { result ≡ v *ℤ f +ℤ (n *ℤ x -ℤ s) *ℤ (n *ℤ g -ℤ s *ℤ f) }
{
    let a = n * x - s;
    let c = n * a;
    let d = v - s * a;
    c * g + d * f
}

// Unsigned operands of signed code.
pub fn unsigned_operands(n: u32, g: u16) -> i64
    requires { (n ≤ 961) × (g ≤ 255) }
    ensures { result ≡ pos n *ℤ pos g -ℤ pos 7 }
{
    n as i64 * g as i64 - 7
}

pub fn unsigned_to_signed(x: u32) -> i64
    ensures { result ≡ pos x }
{
    x as i64
}

// The result of a call, as an operand.
pub fn call_result(x: u32) -> i64
    ensures { result ≡ pos 3 *ℤ pos x }
{
    3 * unsigned_to_signed(x)
}

pub fn signed_to_unsigned(x: i64) -> u32
    requires { (pos 0 ≤ℤ x) × (x <ℤ pos 4294967296) }
    ensures { pos result ≡ x }
{
    x as u32
}

// A test of two signed numbers.
pub fn signed_test(u: i64, t: i64, w: i64) -> i64
    requires { (nat_abs u ≤ 1000000) × (nat_abs t ≤ 1000000) × (pos 0 ≤ℤ w) × (w ≤ℤ pos 1000) }
    ensures { (t ≤ℤ (pos 2 *ℤ u) → result ≡ u -ℤ w) × ((pos 2 *ℤ u) <ℤ t → result ≡ u +ℤ w) }
{
    if t <= 2 * u { u - w } else { u + w }
}

// A loop that sums signed terms.
pub fn signed_loop(a: &[u8], n: i64, s: i64) -> i64
    requires { (length a.now ≤ 961) × (nat_abs n ≤ 961) × (nat_abs s ≤ 245055) }
    ensures { result ≡ Σ (length a.now) (λ k. n *ℤ pos (get_or a.now k 0) -ℤ s) }
{
    let mut acc: i64 = 0;
    for x in a {
        acc += n * (*x as i64) - s;
    }
    acc
}

// Floats: every whole number on the way is at most 2 ^ 53 in size, so nothing is rounded.
pub fn float_found(v: i64, n: i64, x: i64, y: i64, s: i64) -> f64
    requires { (nat_abs v ≤ 180156859227) × (nat_abs n ≤ 961) × (nat_abs x ≤ 255) × (nat_abs y ≤ 255) × (nat_abs s ≤ 245055) }
    ensures { FloatOf binary64 result (v +ℤ (n *ℤ x -ℤ s) *ℤ (n *ℤ y -ℤ s)) }
{
    let m = n as f64;
    let t = s as f64;
    v as f64 + (m * (x as f64) - t) * (m * (y as f64) - t)
}

// A sum of two whole floats is the sum's float, the sign of a zero and all.
pub fn float_sum(a: i64, b: i64) -> f64
    requires { (nat_abs a ≤ 1000000000000) × (nat_abs b ≤ 1000000000000) }
    ensures { result ≡ of_int binary64 (a +ℤ b) }
{
    a as f64 + b as f64
}

pub fn float_less(a: i64, b: i64) -> bool
    requires { (nat_abs a ≤ 1000000000000) × (nat_abs b ≤ 1000000000000) }
    ensures { result ≡ lt_z a b }
{
    let x = a as f64;
    let y = b as f64;
    x < y
}

// To a float and back.
pub fn float_to_signed(a: i64) -> i64
    requires { nat_abs a ≤ 1000000000000 }
    ensures { result ≡ a }
{
    let x = a as f64;
    x as i64
}

// A test of two expressions, with a literal.
pub fn float_test(u: i64, t: i64) -> i64
    requires { (nat_abs u ≤ 1000000000000) × (nat_abs t ≤ 1000000000000) }
    ensures { (t <ℤ (pos 2 *ℤ u) → result ≡ pos 1) × ((pos 2 *ℤ u) ≤ℤ t → result ≡ pos 0) }
{
    let a = 2.0 * (u as f64);
    let b = t as f64;
    if b < a { 1 } else { 0 }
}

// A loop that sums whole numbers in a float.
pub fn float_loop(a: &[u8]) -> f64
    requires { length a.now ≤ 961 }
    ensures { FloatOf binary64 result (Σ (length a.now) (λ k. pos (get_or a.now k 0))) }
{
    let mut acc: f64 = 0.0;
    for x in a {
        acc += *x as f64;
    }
    acc
}
