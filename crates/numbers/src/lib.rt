// Exact values of terms, their comparison, and what an aggregate takes.
#![tactic(auto)]

ghost use Rattle.std.specs.Prelude.{◌≡◌, ℕ, ◌+◌, ◌*◌, ◌≤◌, ◌<◌, pos, nat_abs, ◌*ℤ◌, ◌+ℤ◌, get_or, true};
ghost use Rattle.std.proofs.Math.Option.{some};
ghost use Rattle.std.specs.Int.Signed.{le_z};
ghost use Rattle.model.specs.Meaning as M;
ghost use Rattle.numbers.specs.Numbers as N;
ghost use Rattle.numbers.specs.Memo as Memo;

// A value: numerator over denominator. Over 0 it is nothing: no number has that denominator.
#[derive(Clone, Copy)]
pub struct Ratio {
    pub numerator: i64,
    pub denominator: i64,
}

// What an aggregate has taken so far.
#[derive(Clone, Copy)]
pub struct Accumulator {
    pub count: u64,
    pub sum: i64,
    pub max: i64,
    pub min: i64,
}

// No value yet.
pub const EMPTY: Accumulator = Accumulator {
    count: 0,
    sum: 0,
    max: 0,
    min: 0,
};

fn over(a: i64, b: i64) -> Ratio
    ensures { result ≡ record { numerator = a; denominator = b } }
{
    Ratio {
        numerator: a,
        denominator: b,
    }
}

// A constant's or an attribute's value.
pub fn whole(x: i32) -> Ratio
    ensures result_value { N.value_of result ≡ some (M.whole x) }
    ensures small { N.Small result }
{
    over(i64::from(x), 1)
}

// Compares two numbers.
fn ordered(operator: usize, a: i64, b: i64) -> bool
    ensures { result ≡ N.ordered operator a b }
{
    match operator {
        1 => a == b,
        2 => a != b,
        3 => a < b,
        4 => a <= b,
        5 => b < a,
        _ => b <= a,
    }
}

// Compares exactly, by cross products. With nothing on a side every comparison is false.
pub fn compared(operator: usize, x: Ratio, y: Ratio) -> bool
    requires { N.Small x × N.Small y }
    ensures { result ≡ M.compare operator (N.value_of x) (N.value_of y) }
{
    let d = x.denominator;
    let e = y.denominator;
    if d <= 0 {
        return false;
    }
    if e <= 0 {
        return false;
    }
    ordered(operator, x.numerator * e, y.numerator * d)
}

fn larger(count: u64, a: i64, b: i64) -> i64
    ensures { result ≡ N.larger count a b }
{
    if count == 0 { b } else { a.max(b) }
}

fn smaller(count: u64, a: i64, b: i64) -> i64
    ensures { result ≡ N.smaller count a b }
{
    if count == 0 { b } else { a.min(b) }
}

// One value more.
pub fn add(a: Accumulator, x: i32) -> Accumulator
    requires { N.Bounded a × (a.count < 65535) }
    ensures value { result ≡ N.added a x }
    ensures bounded { N.Bounded result }
{
    let value = i64::from(x);
    Accumulator {
        count: a.count + 1,
        sum: a.sum + value,
        max: larger(a.count, a.max, value),
        min: smaller(a.count, a.min, value),
    }
}

// The best of so many values; of none, nothing.
fn best(count: u64, x: i64) -> Ratio
    requires { nat_abs x ≤ 2147483648 }
    ensures result_value { N.value_of result ≡ N.best_of count x }
    ensures small { N.Small result }
{
    if count == 0 {
        return over(0, 0);
    }
    over(x, 1)
}

// The value of an aggregate over the values taken. AVE of none is 0 over 0, nothing.
pub fn finish(function: u8, a: Accumulator) -> Ratio
    requires { N.Bounded a × (a.count ≤ 65535) }
    ensures result_value { N.value_of result ≡ N.finished function a }
    ensures small { N.Small result }
{
    match function {
        1 => over(a.count as i64, 1),
        2 => over(a.sum, 1),
        3 => over(a.sum, a.count as i64),
        4 => best(a.count, a.max),
        _ => best(a.count, a.min),
    }
}

// The cell at i, 0 past the end.
fn at(memo: &[i64], i: usize) -> i64
    ensures { result ≡ get_or memo.now i (pos 0) }
{
    memo.get(i).copied().unwrap_or(0)
}

// Where a variable's numerator stands; its denominator, raised by one, follows: 0 there says that nothing is kept, 1 that the value is nothing.
fn place(variable: u8) -> usize
    ensures value { result ≡ 2 * variable }
    ensures upper_bound { result ≤ 510 }
{
    2 * usize::from(variable)
}

// Whether the memo has a value for the variable.
pub fn knows(memo: &[i64], variable: u8) -> bool
    ensures { result ≡ Memo.knows memo.now variable }
{
    let i = place(variable);
    (-140735340871680..=140735340871680).contains(&at(memo, i))
        && (1..=65536).contains(&at(memo, i + 1))
}

// The value that the memo has.
pub fn recall(memo: &[i64], variable: u8) -> Ratio
    requires { Memo.knows memo.now variable ≡ true }
    ensures result_value { N.value_of result ≡ Memo.recalled memo.now variable }
    ensures small { N.Small result }
{
    let i = place(variable);
    let n = at(memo, i);
    let mark = at(memo, i + 1);
    over(n, mark - 1)
}
