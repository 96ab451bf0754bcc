// RANGE, RETRIEVE and the targets.
ghost use Rattle.std.specs.Prelude.{◌≡◌, List, [], ℕ, ◌≤◌, ◌<◌, length, IfSome};
ghost use Rattle.quel.specs.Results.{Word};
ghost use Rattle.quel.specs.Names.{Entry};
ghost use Rattle.quel.specs.Elaboration.{Symbol};
ghost use Rattle.names.specs.Entries.{entries};
ghost use Rattle.parts.specs.Parts.{Copied};
ghost use Rattle.parts.specs.Table.{how_many, Ready};
ghost use Rattle.parts.specs.Reads.{Heads, SymbolsAt, RangeAt, RangesAt, HeadAt, TargetAt, TargetsAt};
ghost use Rattle.quick.specs.Index.{Indexed};
ghost use Rattle.quick.specs.Steps.{Lent, Went};

use crate::{LOST, Pass, Source, index, symbols, terms};

// The symbols of a relation, to the parenthesis that closes; to is how many there are.
fn bound(source: &Source<'_>, symbols: &mut [u64; 160], s: Pass, relation: u8) -> Pass
    requires { (s.at ≤ 254) × (length symbols.old ≡ 160) }
    ensures at_bound { (result.at ≤ 254) × (1 ≤ result.at → s.at < result.at) × (length symbols.new ≡ 160) × (result.to ≤ 30) }
    ensures by_index { (given : List ℕ) (es : List Entry) (ss : List Symbol) → Copied source.now.text.bytes given → Heads symbols.old ss
        → s.to ≡ length ss → 1 ≤ result.at → SymbolsAt es given s.at result.at symbols.new result.to relation ss }
{
    let mut at = s.at;
    for n in s.to..symbols::MOST {
        let Some(x) = source.text.name(at) else {
            return LOST;
        };
        let end = x.end;
        let code = x.value;
        if symbols::find(symbols, code).is_some() {
            return LOST;
        }
        symbols::bind(symbols, n, code, u64::from(relation), n as u64, 0);
        let Some(next) = source.text.past(end, 44) else {
            let Some(at) = source.text.past(end, 41) else {
                return LOST;
            };
            return Pass { at, to: n + 1 };
        };
        at = next;
    }
    LOST
}

// A relation and its symbols.
fn range(source: &Source<'_>, symbols: &mut [u64; 160], s: Pass) -> Pass
    requires { (s.at ≤ 254) × (length symbols.old ≡ 160) × Indexed source.now.list.now source.now.names.now }
    ensures at_bound { (result.at ≤ 254) × (1 ≤ result.at → s.at < result.at) × (length symbols.new ≡ 160) × (result.to ≤ 30) }
    ensures by_index { (given : List ℕ) (ss : List Symbol) → Copied source.now.text.bytes given → Heads symbols.old ss → s.to ≡ length ss
        → 1 ≤ result.at → RangeAt (entries source.now.list.now) given s.at result.at symbols.new result.to ss }
{
    let r = source.text.word(s.at);
    let end = r.end;
    if end == 0 {
        return LOST;
    }
    let Some(q) = index::relation_at(source.list, source.names, r.value) else {
        return LOST;
    };
    let Some(at) = source.text.past(end, 40) else {
        return LOST;
    };
    let to = s.to;
    bound(source, symbols, Pass { at, to }, source.list[q + 1])
}

// The RANGE list.
fn ranges(source: &Source<'_>, symbols: &mut [u64; 160], start: usize) -> Pass
    requires { (start ≤ 254) × Heads symbols.old [] × Indexed source.now.list.now source.now.names.now }
    ensures at_bound { (result.at ≤ 254) × (length symbols.new ≡ 160) × (result.to ≤ 30) }
    ensures by_index { (given : List ℕ) → Copied source.now.text.bytes given → 1 ≤ result.at
        → RangesAt (entries source.now.list.now) given start result.at symbols.new result.to }
{
    let mut at = start;
    let mut to = 0;
    loop {
        let g = range(source, symbols, Pass { at, to });
        let end = g.at;
        to = g.to;
        if end == 0 {
            return LOST;
        }
        let Some(next) = source.text.past(end, 58) else {
            return Pass { at: end, to };
        };
        at = next;
    }
}

// RANGE and its list, RETRIEVE, the workspace's name and the colon. The place after it.
pub(crate) fn head(source: &Source<'_>, symbols: &mut [u64; 160]) -> Option<usize>
    requires { Heads symbols.old [] × Indexed source.now.list.now source.now.names.now }
    ensures { IfSome result (λ at. (at ≤ 254) × (length symbols.new ≡ 160) × (how_many symbols.new ≤ 30)
        × ((given : List ℕ) → Copied source.now.text.bytes given → HeadAt (entries source.now.list.now) given at symbols.new)) }
{
    let k = source.text.word(source.text.skip(0));
    if k.value != 19658916 {
        return None;
    }
    let g = ranges(source, symbols, k.end);
    let at = g.at;
    if at == 0 {
        return None;
    }
    let r = source.text.word(at);
    if r.value != 346837159270 {
        return None;
    }
    let w = source.text.name(r.end)?;
    let n = g.to as u64;
    symbols[symbols::COUNT] = n;
    symbols[symbols::NEXT] = n;
    source.text.past(w.end, 58)
}

// A target is a term that is no constant.
fn target(source: &Source<'_>, symbols: &mut [u64; 160], made: &mut [u8; 1024], s: Pass) -> Pass
    requires lent { Lent source.now.list.now source.now.names.now symbols.old made.old }
    requires at_bound { (s.at ≤ 254) × (s.to ≤ 1000) }
    ensures went { Went s.at s.to result.at result.to symbols.new made.new }
    ensures by_index { (given : List ℕ) (ρ : List Symbol) (ws : List Word) → Copied source.now.text.bytes given → Ready symbols.old ws ρ → 1 ≤ result.at
        → TargetAt (entries source.now.list.now) ρ ws given s.at result.at symbols.old symbols.new made.old
        made.new s.to result.to }
{
    let to = s.to;
    let w = source.text.word(s.at);
    let c = terms::term(source, symbols, made, s, w);
    if made[to] == 32 {
        return LOST;
    }
    c
}

// The targets.
pub(crate) fn targets(
    source: &Source<'_>,
    symbols: &mut [u64; 160],
    made: &mut [u8; 1024],
    start: usize,
) -> Pass
    requires lent { Lent source.now.list.now source.now.names.now symbols.old made.old }
    requires start_bound { start ≤ 254 }
    ensures went { Went start 0 result.at result.to symbols.new made.new }
    ensures to_bound { 1 ≤ result.at → result.to ≤ 980 }
    ensures by_index { (given : List ℕ) (ρ : List Symbol) (ws : List Word) → Copied source.now.text.bytes given → Ready symbols.old ws ρ → 1 ≤ result.at
        → TargetsAt (entries source.now.list.now) ρ ws given start result.at symbols.old symbols.new made.old
        made.new 0 result.to }
{
    let mut at = start;
    let mut to = 0;
    loop {
        let t = target(source, symbols, made, Pass { at, to });
        let end = t.at;
        to = t.to;
        if end == 0 {
            return LOST;
        }
        if 980 < to {
            return LOST;
        }
        let Some(next) = source.text.past(end, 44) else {
            return Pass { at: end, to };
        };
        at = next;
    }
}
