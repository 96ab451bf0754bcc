// A comparison of an attribute with a number, tried on the values of rows (specs/Cursor).
ghost use Rattle.std.specs.Prelude.{◌≡◌, true, false, ◌&&◌, ℕ, ◌≤◌, ◌<◌, ℤ, nat_abs, ◌*ℤ◌, pos, get_or, drop};
ghost use Rattle.std.specs.Int.Signed.{le_z};
ghost use Rattle.std.proofs.Math.Option.{some};
ghost use Rattle.model.specs.Meaning as M;
ghost use Rattle.numbers.specs.Numbers.{ordered, value_of, Small};
ghost use Rattle.catalogue.specs.Layout.{tuple_at};
ghost use Rattle.walks.specs.Walks.{place_at};
ghost use Rattle.decide.specs.Probe.{sided, holds};

use crate::chains::Rows;
use numbers::Ratio;

// How two values are compared.
#[derive(Clone, Copy)]
pub(crate) enum Operator {
    Equal,
    NotEqual,
    Less,
    AtMost,
    Greater,
    AtLeast,
}

impl Operator {
    // The operator of a number in a table of branches.
    fn of(code: usize) -> Operator
        ensures { (a x : ℤ) → holds result a x ≡ ordered code a x }
    {
        match code {
            1 => Operator::Equal,
            2 => Operator::NotEqual,
            3 => Operator::Less,
            4 => Operator::AtMost,
            5 => Operator::Greater,
            _ => Operator::AtLeast,
        }
    }

    // The same with the sides exchanged.
    fn turned(self) -> Operator
        ensures { (a x : ℤ) → holds result a x ≡ holds self x a }
    {
        match self {
            Operator::Equal => Operator::Equal,
            Operator::NotEqual => Operator::NotEqual,
            Operator::Less => Operator::Greater,
            Operator::AtMost => Operator::AtLeast,
            Operator::Greater => Operator::Less,
            Operator::AtLeast => Operator::AtMost,
        }
    }
}

// The cross product of a value with a denominator.
fn scaled(a: i32, d: i64) -> i64
    requires { nat_abs d ≤ 65535 }
    ensures { result ≡ a *ℤ d }
{
    i64::from(a) * d
}

// The value at a place, 0 past the end.
fn cell(column: &[i32], at: usize) -> i32
    ensures { result ≡ get_or column.now at (pos 0) }
{
    column.get(at).copied().unwrap_or(0)
}

// A comparison of an attribute with a number, so turned that no row asks for its operator: a value is between two bounds, or it is wanted that it is
// not. A value is multiplied before it is compared; a bound that is not there has 0 twice.
#[derive(Clone, Copy)]
pub struct Test {
    pub attribute: usize,
    pub lower: i64,
    pub low: i64,
    pub upper: i64,
    pub high: i64,
    pub wanted: bool,
    ghost attribute_fits: { attribute ≤ 65535 },
    ghost lower_fits: { nat_abs lower ≤ 65535 },
    ghost low_fits: { nat_abs low ≤ 140735340871680 },
    ghost upper_fits: { nat_abs upper ≤ 65535 },
    ghost high_fits: { nat_abs high ≤ 140735340871680 },
}

impl Test {
    ghost use Rattle.decide.specs.Cursor as C;

    fn equal_to(attribute: usize, x: Ratio, wanted: bool) -> Test
        requires { (attribute ≤ 65535) × Small x }
        ensures given { (result.attribute ≡ attribute) × (result.wanted ≡ wanted) }
        ensures inside { (u : ℤ) → C.inside result u ≡ le_z x.numerator (u *ℤ x.denominator) && le_z (u *ℤ x.denominator) x.numerator }
    {
        Test {
            attribute,
            lower: x.denominator,
            low: x.numerator,
            upper: x.denominator,
            high: x.numerator,
            wanted,
        }
    }

    fn at_most(attribute: usize, x: Ratio, wanted: bool) -> Test
        requires { (attribute ≤ 65535) × Small x }
        ensures given { (result.attribute ≡ attribute) × (result.wanted ≡ wanted) }
        ensures inside { (u : ℤ) → C.inside result u ≡ le_z (u *ℤ x.denominator) x.numerator }
    {
        Test {
            attribute,
            lower: 0,
            low: 0,
            upper: x.denominator,
            high: x.numerator,
            wanted,
        }
    }

    fn at_least(attribute: usize, x: Ratio, wanted: bool) -> Test
        requires { (attribute ≤ 65535) × Small x }
        ensures given { (result.attribute ≡ attribute) × (result.wanted ≡ wanted) }
        ensures inside { (u : ℤ) → C.inside result u ≡ le_z x.numerator (u *ℤ x.denominator) }
    {
        Test {
            attribute,
            lower: x.denominator,
            low: x.numerator,
            upper: 0,
            high: 0,
            wanted,
        }
    }

    // By an operator, against a number.
    fn by(attribute: usize, operator: Operator, x: Ratio) -> Test
        requires { (attribute ≤ 65535) × Small x }
        ensures given { result.attribute ≡ attribute }
        ensures met { (u : ℤ) → C.meets result u ≡ holds operator (u *ℤ x.denominator) x.numerator }
    {
        match operator {
            Operator::Equal => Test::equal_to(attribute, x, true),
            Operator::NotEqual => Test::equal_to(attribute, x, false),
            Operator::Less => Test::at_least(attribute, x, false),
            Operator::AtMost => Test::at_most(attribute, x, true),
            Operator::Greater => Test::at_most(attribute, x, false),
            Operator::AtLeast => Test::at_least(attribute, x, true),
        }
    }

    // Of an attribute against x, by the operator of a branch. With nothing none passes.
    pub(crate) fn of(attribute: usize, code: usize, mirrored: bool, x: Ratio) -> Test
        requires { (attribute ≤ 65535) × Small x }
        ensures given { result.attribute ≡ attribute }
        ensures met { (u : ℤ) → C.meets result u ≡ sided code mirrored (some (M.whole u)) (value_of x) }
    {
        if x.denominator <= 0 {
            let nothing = Ratio {
                numerator: -1,
                denominator: 0,
            };
            return Test::at_most(attribute, nothing, true);
        }
        let operator = Operator::of(code);
        if mirrored {
            return Test::by(attribute, operator.turned(), x);
        }
        Test::by(attribute, operator, x)
    }

    fn inside(&self, x: i32) -> bool
        ensures { result ≡ C.inside self.now x }
    {
        self.low <= scaled(x, self.lower) && scaled(x, self.upper) <= self.high
    }

    // Whether row i passes, by the values from the attribute's first one on: a row's place is then the place of its value.
    fn passes(&self, rows: &Rows, column: &[i32], i: usize) -> bool
        requires { (i ≤ 65535) × (column.now ≡ drop self.now.attribute rows.now.values.now) }
        ensures { result ≡ C.passes self.now (tuple_at rows.now.values.now (place_at rows.now.walks.now rows.now.walk i)) }
    {
        let place = walks::place(rows.walks, rows.walk, i);
        let between = self.inside(cell(column, place));
        if self.wanted { between } else { !between }
    }

    // The first row from `from` on that passes; where none does, the count of rows.
    pub(crate) fn next_row(&self, rows: &Rows, from: usize) -> usize
        requires { from ≤ rows.now.walk.count }
        ensures lower_bound { (from ≤ result) × (result ≤ rows.now.walk.count) }
        ensures by_index { (j : ℕ) → from ≤ j → j < result → C.passes self.now (tuple_at rows.now.values.now (place_at rows.now.walks.now rows.now.walk j)) ≡ false }
        ensures stopped { result < rows.now.walk.count → C.passes self.now (tuple_at rows.now.values.now (place_at rows.now.walks.now rows.now.walk result)) ≡ true }
    {
        let column = rows.values.get(self.attribute..).unwrap_or(&[]);
        for j in from..rows.walk.count {
            if self.passes(rows, column, j) {
                return j;
            }
        }
        rows.walk.count
    }
}
