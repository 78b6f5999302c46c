// One form for the weights of both kinds: guide f weighs slope times its number in a row, and offset. Kind 1: the table's row with slope 1 and offset
// 0; kind 2: the numbers 0 1 2 .. with the window's two coefficients.
ghost use Rattle.std.specs.Prelude.{◌≡◌, ◌≤◌, length, nat_abs, pos, ◌+ℤ◌, ◌*ℤ◌};
ghost use Rattle.balance.specs.Formula.{FormulaInBounds, Ramp};

#[derive(Clone, Copy)]
pub struct Formula {
    pub slope: i64,
    pub offset: i64,
}

// What a guide weighs whose number in the row is x.
pub fn weigh(slope: i64, offset: i64, x: i64) -> i64
    requires { (nat_abs slope ≤ 235497855) × (nat_abs offset ≤ 180155859075) × (nat_abs x ≤ 65535) }
    ensures { result ≡ slope *ℤ x +ℤ offset }
{
    slope * x + offset
}

impl Formula {
    // The row's numbers are the weights.
    pub const TABLE: Self = Formula {
        slope: 1,
        offset: 0,
    };

    // The same by the formula, of a row's own number.
    pub fn weigh(self, x: u16) -> i64
        requires { FormulaInBounds self }
        ensures { result ≡ self.slope *ℤ pos x +ℤ self.offset }
    {
        weigh(self.slope, self.offset, i64::from(x))
    }
}

// The numbers 0 1 2 .., m of them.
pub fn ramp(row: &mut [u16], m: usize)
    requires { (m ≤ length row.old) × (m ≤ 256) }
    ensures { (Ramp m row.new) × (length row.new ≡ length row.old) }
{
    for (k, number) in row[..m].iter_mut().enumerate() {
        *number = k as u16;
    }
}
