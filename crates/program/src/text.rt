// Numbers and lines as text, written into a lent buffer. Each function returns the place after what it wrote.
ghost use Rattle.std.specs.Prelude.{◌≡◌, ℕ, suc, ◌+◌, ◌*◌, ◌≤◌, ◌<◌, ℤ, nat_abs, length};
ghost use Rattle.std.proofs.lemmas.List.Edits.{sets};
ghost use Rattle.program.specs.Text as T;

// The last digit of a number.
fn digit(n: u64) -> u8
    ensures { result ≡ T.digit n }
{
    48 + (n % 10) as u8
}

// A number in decimal, with at most k digits before the last.
fn digits(n: u64, k: usize, out: &mut [u8], at: usize) -> usize
    requires { at + length (T.digits k n) < 9223372036854775808 }
    ensures value { result ≡ at + length (T.digits k n) }
    ensures out_after { out.new ≡ sets out.old at (T.digits k n) }
{
    if k == 0 {
        return copier::put(out, at, digit(n));
    }
    if n < 10 {
        return copier::put(out, at, digit(n));
    }
    let to = digits(n / 10, k - 1, out, at);
    copier::put(out, to, digit(n))
}

// A number in decimal.
fn decimal(n: u64, out: &mut [u8], at: usize) -> usize
    requires { at + length (T.decimal n) < 9223372036854775808 }
    ensures value { result ≡ at + length (T.decimal n) }
    ensures out_after { out.new ≡ sets out.old at (T.decimal n) }
{
    digits(n, 19, out, at)
}

// How far below 0 a number is; 0 for one that is not.
fn below_zero(z: i64) -> u64
    ensures { result ≡ T.below_zero z }
{
    if z < 0 { (-1 - z) as u64 + 1 } else { 0 }
}

fn above_zero(z: i64) -> u64
    ensures { result ≡ T.above_zero z }
{
    if z < 0 { 0 } else { z as u64 }
}

// A signed number in decimal.
fn signed(z: i64, out: &mut [u8], at: usize) -> usize
    requires { at + length (T.signed z) < 9223372036854775808 }
    ensures value { result ≡ at + length (T.signed z) }
    ensures out_after { out.new ≡ sets out.old at (T.signed z) }
{
    let below = below_zero(z);
    if below == 0 {
        return decimal(above_zero(z), out, at);
    }
    let to = copier::put(out, at, 45);
    decimal(below, out, to)
}

// What follows an item of a line.
fn gap(left: usize) -> u8
    ensures { result ≡ T.gap left }
{
    if left == 0 { 10 } else { 32 }
}

// Bytes on a line.
pub(crate) fn bytes(items: &[u8], out: &mut [u8], at: usize) -> usize
    requires { at + length (T.line T.decimal items.now) < 9223372036854775808 }
    ensures value { result ≡ at + length (T.line T.decimal items.now) }
    ensures out_after { out.new ≡ sets out.old at (T.line T.decimal items.now) }
{
    let mut to = at;
    for i in 0..items.len() {
        to = decimal(u64::from(items[i]), out, to);
        to = copier::put(out, to, gap(items.len() - (i + 1)));
    }
    to
}

// Cells on a line.
fn cells(items: &[i64], out: &mut [u8], at: usize) -> usize
    requires { at + length (T.line T.signed items.now) < 9223372036854775808 }
    ensures value { result ≡ at + length (T.line T.signed items.now) }
    ensures out_after { out.new ≡ sets out.old at (T.line T.signed items.now) }
{
    let mut to = at;
    for i in 0..items.len() {
        let item = items[i];
        to = signed(item, out, to);
        to = copier::put(out, to, gap(items.len() - (i + 1)));
    }
    to
}

// The first rows of an answer, a line each.
pub(crate) fn table(rows: usize, columns: usize, answer: &[i64], out: &mut [u8], at: usize) -> usize
    requires columns_in_bounds { rows * columns ≤ length answer.now }
    requires answer_bound { at + length (T.table rows columns answer.now) < 9223372036854775808 }
    ensures value { result ≡ at + length (T.table rows columns answer.now) }
    ensures out_after { out.new ≡ sets out.old at (T.table rows columns answer.now) }
{
    let mut to = at;
    let mut from = 0;
    for _ in 0..rows {
        let end = from + columns;
        to = cells(&answer[from..end], out, to);
        from = end;
    }
    to
}

// A word and a number on a line.
pub(crate) fn labelled(word: &[u8], n: u64, out: &mut [u8], at: usize) -> usize
    requires { at + length (T.labelled word.now n) < 9223372036854775808 }
    ensures value { result ≡ at + length (T.labelled word.now n) }
    ensures out_after { out.new ≡ sets out.old at (T.labelled word.now n) }
{
    let after = copier::copy(out, at, word);
    let to = decimal(n, out, after);
    copier::put(out, to, 10)
}
