// The V's, the ^'s and the sign ahead of each token, counted by one loop from the right, so that a writer can put operators before their operands. A
// token's kind stands beside them.
ghost use Rattle.std.specs.Prelude.{◌≡◌, ◌+◌, suc, ◌<◌, length, get_or};
ghost use Rattle.elaborate.specs.Counts.{ors_in, ands_in, sign_in, skip_in, kind_in, Stepped, Counted};

// Five numbers as one, and no struct: the table holds the frames too, behind the token at hand.
fn pack(kind: u8, ors: u64, ands: u64, sign: u64, skip: u64) -> u64
    requires { (ors < 4096) × (ands < 4096) × (sign < 8) × (skip < 8192) }
    ensures { (ors_in result ≡ ors) × (ands_in result ≡ ands) × (sign_in result ≡ sign) × (skip_in result ≡ skip) × (kind_in result ≡ kind) }
{
    u64::from(kind) + 256 * skip + 2097152 * ors + 8589934592 * ands + 35184372088832 * sign
}

// A token that changes no count is one more before the level ends: most are such, and nothing is taken apart for them.
fn further(kind: u8, next: u64) -> u64
    requires { skip_in next < 8191 }
    ensures { (ors_in result ≡ ors_in next) × (ands_in result ≡ ands_in next) × (sign_in result ≡ sign_in next) × (skip_in result ≡ skip_in next + 1) × (kind_in result ≡ kind) }
{
    next % 281474976710656 / 256 * 256 + 256 + u64::from(kind)
}

// The place of a token of this kind, before `next`; `after` is where the level of `next` has ended. Signs have the kinds 7 to 12.
fn step(kind: u8, next: u64, after: u64) -> u64
    requires { (ors_in next < 4000) × (ands_in next < 4000) × (skip_in next < 4000) × (skip_in after < 4000) }
    ensures { Stepped kind next after result }
{
    match kind {
        7..=12 => pack(
            kind,
            next / 2097152 % 4096,
            next / 8589934592 % 4096,
            u64::from(kind) - 7,
            next / 256 % 8192 + 1,
        ),
        18 => pack(
            kind,
            next / 2097152 % 4096 + 1,
            0,
            next / 35184372088832 % 8,
            next / 256 % 8192 + 1,
        ),
        19 => pack(
            kind,
            next / 2097152 % 4096,
            next / 8589934592 % 4096 + 1,
            next / 35184372088832 % 8,
            next / 256 % 8192 + 1,
        ),
        20 => pack(
            kind,
            after / 2097152 % 4096,
            after / 8589934592 % 4096,
            after / 35184372088832 % 8,
            next / 256 % 8192 + 1 + after / 256 % 8192,
        ),
        21 => pack(kind, 0, 0, 0, 1),
        _ => further(kind, next),
    }
}

// Fills the place of each token, and the one after the last.
pub(crate) fn count(kinds: &[u8], counts: &mut [u64])
    requires { (length kinds.now < length counts.old) × (length kinds.now < 4000) }
    ensures { Counted kinds.now counts.new 0 }
{
    counts[kinds.len()] = 0;
    for i in (0..kinds.len()).rev() {
        let next = counts[i + 1];
        let after = counts[i + 1 + (next / 256 % 8192) as usize];
        counts[i] = step(kinds[i], next, after);
    }
}

pub(crate) fn entry(table: &[u64], i: usize) -> u64
    ensures { result ≡ get_or table.now i 0 }
{
    table.get(i).copied().unwrap_or(0)
}

// What an entry says: the token's kind.
pub(crate) fn kind(c: u64) -> u8
    ensures { result ≡ kind_in c }
{
    (c % 256) as u8
}

// How many V's stand ahead.
pub(crate) fn ors(c: u64) -> usize
    ensures { result ≡ ors_in c }
{
    (c / 2097152 % 4096) as usize
}

// How many ^'s stand ahead, before the next V.
pub(crate) fn ands(c: u64) -> usize
    ensures { result ≡ ands_in c }
{
    (c / 8589934592 % 4096) as usize
}

// The number of the operator ahead.
pub(crate) fn operator(c: u64) -> u8
    ensures { result ≡ suc (sign_in c) }
{
    (c / 35184372088832 % 8) as u8 + 1
}
