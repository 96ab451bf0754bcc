// The symbols in their table (parts/specs/Table): four words each, from 124 on whether X.A outside all aggregates used it, and behind them three numbers.
ghost use Rattle.std.specs.Prelude.{◌≡◌, ℕ, ◌+◌, ◌*◌, ◌≤◌, ◌<◌, length, get_or, set, IfSome, MatchOption};
ghost use Rattle.parts.specs.Table.{code_at, level_at, level_now, Finds, Slotted};

pub(crate) const LEVEL: usize = 155;

pub(crate) const NEXT: usize = 156;

pub(crate) const COUNT: usize = 157;

pub(crate) const CLOSED: u64 = 255;

pub(crate) const MOST: usize = 30;

// The slot with a code. Behind the last symbol stand zeros.
pub(crate) fn find(symbols: &[u64; 160], code: u64) -> Option<usize>
    ensures { MatchOption result (Finds symbols.now code 30) (λ i. (i < 30) × Finds symbols.now code i) }
{
    for i in 0..MOST {
        let c = symbols[4 * i];
        if c == code {
            return Some(i);
        }
        if c == 0 {
            return None;
        }
    }
    None
}

// The slot with a code whose symbol is not closed.
pub(crate) fn bound(symbols: &[u64; 160], code: u64) -> Option<usize>
    ensures { IfSome result (λ i. (i < 30) × (code_at symbols.now i ≡ code) × (level_at symbols.now i ≡ 255 → ⊥)) }
{
    let i = find(symbols, code)?;
    if symbols[4 * i + 3] == CLOSED {
        return None;
    }
    Some(i)
}

// A symbol more, in the slot i.
pub(crate) fn bind(
    symbols: &mut [u64; 160],
    i: usize,
    code: u64,
    relation: u64,
    number: u64,
    level: u64,
)
    requires { (length symbols.old ≡ 160) × (i < 30) }
    ensures slotted { Slotted symbols.old symbols.new i code relation number level }
    ensures by_index { (j : ℕ) → 155 ≤ j → get_or symbols.new j 0 ≡ get_or symbols.old j 0 }
{
    symbols[4 * i] = code;
    symbols[4 * i + 1] = relation;
    symbols[4 * i + 2] = number;
    symbols[4 * i + 3] = level;
}

// The symbol of a slot is used, where no aggregate is open.
pub(crate) fn mark(symbols: &mut [u64; 160], i: usize)
    requires { i < 30 }
    ensures symbols_after { level_now symbols.old ≡ 0 → symbols.new ≡ set symbols.old (124 + i) 1 }
    ensures symbols_unchanged { (level_now symbols.old ≡ 0 → ⊥) → symbols.new ≡ symbols.old }
{
    if symbols[LEVEL] == 0 {
        symbols[124 + i] = 1;
    }
}
