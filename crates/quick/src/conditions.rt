// Conditions and their records.
ghost use Rattle.std.specs.Prelude.{◌≡◌, true, ◌∷◌, ◌++◌, ℕ, ◌+◌, ◌≤◌, ◌<◌, length, take, drop};
ghost use Rattle.quel.specs.Grammar.{IsFactor, IsCondition};
ghost use Rattle.parts.specs.Parts.{IsBracket};
ghost use Rattle.parts.specs.Table.{next_number, how_many};
ghost use Rattle.quick.specs.Index.{Indexed};
ghost use Rattle.quick.specs.Steps.{Lent, Went, Formed, FormedFrom, SomeAfter, Entered, SomePut};

use crate::lexis::Span;
use crate::{LOST, Pass, Source, index, lexis, symbols, terms};

// A comparison whose first word is w.
#[cycle(bracket_comparison_condition_factor_some_aggregate_closed_qualified_term)]
fn comparison(
    source: &Source<'_>,
    symbols: &mut [u64; 160],
    made: &mut [u8; 1024],
    s: Pass,
    w: Span,
) -> Pass
    requires lent { Lent source.now.list.now source.now.names.now symbols.old made.old }
    requires at_bound { (s.at ≤ 254) × (s.to ≤ 980) × (w.end ≤ 254) × (1 ≤ w.end → s.at < w.end) }
    ensures went { Went s.at s.to result.at result.to symbols.new made.new }
    ensures formed_from { FormedFrom source.now.text.bytes source.now.list.now symbols.old symbols.new made.old made.new
        s.at s.to result.at result.to w.end w.value }
{
    let from = s.to;
    let first = Pass {
        at: s.at,
        to: from + 2,
    };
    let a = terms::term(source, symbols, made, first, w);
    if a.at == 0 {
        return LOST;
    }
    let Some(o) = source.text.sign(a.at) else {
        return LOST;
    };
    let at = o.end;
    let to = a.to;
    if 980 < to {
        return LOST;
    }
    made[from] = 21;
    made[from + 1] = o.number;
    let v = source.text.word(at);
    terms::term(source, symbols, made, Pass { at, to }, v)
}

// A condition and the parenthesis after it.
#[cycle(bracket_comparison_condition_factor_some_aggregate_closed_qualified_term)]
pub(crate) fn bracket(
    source: &Source<'_>,
    symbols: &mut [u64; 160],
    made: &mut [u8; 1024],
    s: Pass,
) -> Pass
    requires lent { Lent source.now.list.now source.now.names.now symbols.old made.old }
    requires at_bound { s.at ≤ 254 }
    ensures went { Went s.at s.to result.at result.to symbols.new made.new }
    ensures formed { Formed source.now.text.bytes source.now.list.now symbols.old symbols.new made.old made.new
        s.at s.to result.at result.to IsBracket }
{
    let c = condition(source, symbols, made, s);
    if c.at == 0 {
        return LOST;
    }
    let Some(at) = source.text.past(c.at, 41) else {
        return LOST;
    };
    Pass { at, to: c.to }
}

// SOME's symbol with a code and its relation: bound in the next slot, the head of the record written.
fn enter(symbols: &mut [u64; 160], made: &mut [u8; 1024], to: usize, x: u64, relation: u8)
    requires symbols_len { (length symbols.old ≡ 160) × (how_many symbols.old < 30) × (next_number symbols.old ≤ 199) }
    requires to_bound { (to ≤ 1000) × (length made.old ≡ 1024) }
    ensures { Entered symbols.old symbols.new made.old made.new to x relation }
{
    let k = symbols[symbols::COUNT] as usize;
    let next = symbols[symbols::NEXT];
    made[to] = 22;
    made[to + 1] = lexis::low(next);
    made[to + 2] = relation;
    let level = symbols[symbols::LEVEL];
    symbols::bind(symbols, k, x, u64::from(relation), next, level);
    symbols[symbols::COUNT] = (k + 1) as u64;
    symbols[symbols::NEXT] = next + 1;
}

// SOME's symbol and relation, by their codes: looked up, bound, the record written. Whether it can be.
fn opened(
    source: &Source<'_>,
    symbols: &mut [u64; 160],
    made: &mut [u8; 1024],
    to: usize,
    x: u64,
    r: u64,
) -> bool
    requires indexed { Indexed source.now.list.now source.now.names.now × (length symbols.old ≡ 160) }
    requires to_bound { (to ≤ 1000) × (length made.old ≡ 1024) }
    ensures symbols_len { (length symbols.new ≡ 160) × (length made.new ≡ 1024) }
    ensures some_put { result ≡ true
        → SomePut source.now.list.now symbols.old symbols.new made.old made.new to x r }
{
    if 30 <= symbols[symbols::COUNT] {
        return false;
    }
    if symbols::find(symbols, x).is_some() {
        return false;
    }
    let Some(q) = index::relation_at(source.list, source.names, r) else {
        return false;
    };
    if 199 < symbols[symbols::NEXT] {
        return false;
    }
    enter(symbols, made, to, x, source.list[q + 1]);
    true
}

// SOME X IN R ( .. ), after SOME. Its symbol is closed behind it.
#[cycle(bracket_comparison_condition_factor_some_aggregate_closed_qualified_term)]
fn some(source: &Source<'_>, symbols: &mut [u64; 160], made: &mut [u8; 1024], s: Pass) -> Pass
    requires lent { Lent source.now.list.now source.now.names.now symbols.old made.old }
    requires at_bound { (s.at ≤ 254) × (s.to ≤ 980) }
    ensures went { Went s.at s.to result.at result.to symbols.new made.new }
    ensures some_after { SomeAfter source.now.text.bytes source.now.list.now symbols.old symbols.new made.old made.new
        s.at s.to result.at result.to }
{
    let Some(x) = source.text.name(s.at) else {
        return LOST;
    };
    let Some(r) = source.text.relation(x.end) else {
        return LOST;
    };
    let at = r.end;
    let from = s.to;
    let k = symbols[symbols::COUNT] as usize;
    if !opened(source, symbols, made, from, x.value, r.value) {
        return LOST;
    }
    let to = from + 3;
    let c = bracket(source, symbols, made, Pass { at, to });
    symbols[4 * k + 3] = symbols::CLOSED;
    c
}

#[cycle(bracket_comparison_condition_factor_some_aggregate_closed_qualified_term)]
fn factor(source: &Source<'_>, symbols: &mut [u64; 160], made: &mut [u8; 1024], s: Pass) -> Pass
    requires lent { Lent source.now.list.now source.now.names.now symbols.old made.old }
    requires at_bound { s.at ≤ 254 }
    ensures went { Went s.at s.to result.at result.to symbols.new made.new }
    ensures formed { Formed source.now.text.bytes source.now.list.now symbols.old symbols.new made.old made.new
        s.at s.to result.at result.to IsFactor }
{
    let mut at = s.at;
    let mut to = s.to;
    loop {
        if 980 < to {
            return LOST;
        }
        if let Some(at) = source.text.past(at, 40) {
            return bracket(source, symbols, made, Pass { at, to });
        }
        let w = source.text.word(at);
        if w.value == 783124 {
            at = w.end;
            return some(source, symbols, made, Pass { at, to });
        }
        if w.value != 26747 {
            return comparison(source, symbols, made, Pass { at, to }, w);
        }
        made[to] = 18;
        to += 1;
        at = w.end;
    }
}

// A byte in front of those from a place on.
fn insert(made: &mut [u8; 1024], from: usize, to: usize, b: u8)
    requires { (from ≤ to) × (to < 1024) × (length made.old ≡ 1024) }
    ensures made_len { length made.new ≡ 1024 }
    ensures made_after { take (to + 1) made.new ≡ take from made.old ++ (b ∷ drop from (take to made.old)) }
{
    made.copy_within(from..to, from + 1);
    made[from] = b;
}

// A condition; each ^ and V is written in front of what it joins.
#[cycle(bracket_comparison_condition_factor_some_aggregate_closed_qualified_term)]
pub(crate) fn condition(
    source: &Source<'_>,
    symbols: &mut [u64; 160],
    made: &mut [u8; 1024],
    s: Pass,
) -> Pass
    requires lent { Lent source.now.list.now source.now.names.now symbols.old made.old }
    requires at_bound { s.at ≤ 254 }
    ensures went { Went s.at s.to result.at result.to symbols.new made.new }
    ensures to_bound { 1 ≤ result.at → result.to ≤ 980 }
    ensures formed { Formed source.now.text.bytes source.now.list.now symbols.old symbols.new made.old made.new
        s.at s.to result.at result.to IsCondition }
{
    let start = s.to;
    let mut from = start;
    let mut c = s;
    loop {
        c = factor(source, symbols, made, c);
        let end = c.at;
        let to = c.to;
        if end == 0 {
            return LOST;
        }
        if 980 < to {
            return LOST;
        }
        if let Some(at) = source.text.past(end, 94) {
            insert(made, from, to, 19);
            c = Pass { at, to: to + 1 };
            continue;
        }
        let Some(at) = source.text.past_or(end) else {
            return c;
        };
        insert(made, start, to, 20);
        from = to + 1;
        c = Pass { at, to: from };
    }
}
