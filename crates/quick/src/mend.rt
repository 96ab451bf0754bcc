// The end of the pass: numbers mended where a RANGE symbol is not used, and the records written out.
ghost use Rattle.std.specs.Prelude.{◌≡◌, List, [], ℕ, ◌+◌, ◌-◌, ◌≤◌, length, take};
ghost use Rattle.std.proofs.lemmas.List.Edits.{sets};
ghost use Rattle.quel.specs.ReadText.{written};
ghost use Rattle.reader.specs.Readings.{reading_of};
ghost use Rattle.parts.specs.Renumber as Renumber;
ghost use Rattle.quick.specs.Mend.{Renumbered, new_number, table_ranges};

use model::Refusal;

// How many of n RANGE symbols are used; each gets as its number how many before it are.
fn renumber(symbols: &mut [u64; 160], n: usize) -> usize
    requires { (length symbols.old ≡ 160) × (n ≤ 30) }
    ensures value { result ≡ Renumber.used_before symbols.old n }
    ensures renumbered { Renumbered symbols.old symbols.new n }
{
    let mut count = 0u64;
    for i in 0..n {
        symbols[4 * i + 2] = count;
        count += symbols[124 + i] % 2;
    }
    count as usize
}

// The number that counts, of one that was given as if all n symbols were used.
fn number(symbols: &[u64; 160], n: usize, unused: u8, v: u8) -> u8
    requires { (n ≤ 30) × (unused ≤ n) }
    ensures { result ≡ new_number symbols.now n unused v }
{
    let i = v as usize;
    if i < n {
        return (symbols[4 * i + 2] % 256) as u8;
    }
    v - unused
}

// The variables of the records up to `to`, where some of n symbols are not used.
fn mend_records(symbols: &[u64; 160], made: &mut [u8; 1024], n: usize, unused: u8, to: usize)
    requires n_bound { (n ≤ 30) × (unused ≤ n) }
    requires made_len { (length made.old ≡ 1024) × (to ≤ 1021) }
    ensures made_len_2 { length made.new ≡ 1024 }
    ensures by_index { (S : List ℕ) → Renumbered S symbols.now n → unused ≡ n - Renumber.used_before S n
        → take to made.new ≡ Renumber.mended (Renumber.renumber S n) [] (take to made.old) }
{
    if unused == 0 {
        return;
    }
    let mut at = 0usize;
    while at < to {
        let k = made[at];
        if k < 21 {
            at += 1;
            continue;
        }
        if k == 21 {
            at += 2;
            continue;
        }
        if k == 32 {
            at += 5;
            continue;
        }
        if k == 34 {
            made[at + 2] = number(symbols, n, unused, made[at + 2]);
            at += 5;
            continue;
        }
        made[at + 1] = number(symbols, n, unused, made[at + 1]);
        at += 3;
    }
}

// The RANGE records of those of n symbols that are used; the place after them.
fn put_ranges(symbols: &[u64; 160], n: usize, out: &mut [u8]) -> usize
    requires { (n ≤ 30) × (length (table_ranges symbols.now 0 n) ≤ length out.old) }
    ensures value { result ≡ length (table_ranges symbols.now 0 n) }
    ensures out_after { out.new ≡ sets out.old 0 (table_ranges symbols.now 0 n) }
{
    let mut at = 0usize;
    for i in 0..n {
        if symbols[124 + i] % 2 == 0 {
            continue;
        }
        out[at] = 1;
        out[at + 1] = (symbols[4 * i + 2] % 256) as u8;
        out[at + 2] = (symbols[4 * i + 1] % 256) as u8;
        at += 3;
    }
    at
}

// The records of a text that was read, with n RANGE symbols, where there is room for them.
pub(crate) fn finish(
    symbols: &mut [u64; 160],
    made: &mut [u8; 1024],
    n: usize,
    to: usize,
    out: &mut [u8],
) -> Result<usize, Refusal>
    requires { (length symbols.old ≡ 160) × (n ≤ 30) × (length made.old ≡ 1024) × (to ≤ 1021) }
    ensures { reading_of result out.new
        ≡ written (Renumber.records_of symbols.old n (take to made.old)) out.old }
{
    let used = renumber(symbols, n);
    let length = 3 * used + to;
    if out.len() < length {
        return Err(Refusal::RecordRoom);
    }
    mend_records(symbols, made, n, (n - used) as u8, to);
    let at = put_ranges(symbols, n, out);
    out[at..at + to].copy_from_slice(&made[..to]);
    Ok(length)
}
