// Terms and their records; a condition inside an aggregate.
ghost use Rattle.std.specs.Prelude.{◌≡◌, List, ℕ, ◌+◌, ◌≤◌, ◌<◌, length};
ghost use Rattle.parts.specs.Table.{next_number};
ghost use Rattle.quick.specs.Index.{Indexed};
ghost use Rattle.quick.specs.Steps.{Lent, Went, TermedFrom, UseAfter, AggregateAfter, Closed, ClosedAfter, Constant, ValueAt, five_at};

use crate::lexis::Span;
use crate::{LOST, Pass, Source, conditions, index, lexis, symbols};

// A record of five bytes.
fn put(made: &mut [u8; 1024], to: usize, k: u8, a: u8, b: u8, c: u8, d: u8)
    requires { (to ≤ 1000) × (length made.old ≡ 1024) }
    ensures { made.new ≡ five_at made.old to k a b c d }
{
    made[to] = k;
    made[to + 1] = a;
    made[to + 2] = b;
    made[to + 3] = c;
    made[to + 4] = d;
}

// X.A, at its attribute; code is that of X.
fn used(
    source: &Source<'_>,
    symbols: &mut [u64; 160],
    made: &mut [u8; 1024],
    s: Pass,
    code: u64,
) -> Pass
    requires lent { Lent source.now.list.now source.now.names.now symbols.old made.old }
    requires at_bound { (s.at ≤ 254) × (s.to ≤ 1000) }
    ensures went { Went s.at s.to result.at result.to symbols.new made.new }
    ensures use_after { UseAfter source.now.text.bytes source.now.list.now symbols.old symbols.new made.old made.new
        s.at s.to result.at result.to code }
{
    let a = source.text.word(s.at);
    let at = a.end;
    if at == 0 {
        return LOST;
    }
    let Some(i) = symbols::find(symbols, code) else {
        return LOST;
    };
    if symbols[4 * i + 3] != symbols[symbols::LEVEL] {
        return LOST;
    }
    let relation = lexis::low(symbols[4 * i + 1]);
    let Some(p) = index::attribute_at(source.list, source.names, relation, a.value) else {
        return LOST;
    };
    symbols::mark(symbols, i);
    let from = s.to;
    made[from] = 33;
    made[from + 1] = lexis::low(symbols[4 * i + 2]);
    made[from + 2] = source.list[p + 2];
    let to = from + 3;
    Pass { at, to }
}

// A value's name.
fn value(source: &Source<'_>, made: &mut [u8; 1024], from: usize, w: Span) -> Pass
    requires { (from ≤ 1000) × (w.end ≤ 254) × (length made.old ≡ 1024) × Indexed source.now.list.now source.now.names.now }
    ensures at_le_end { (result.at ≤ w.end) × (1 ≤ result.at → (result.at ≡ w.end) × (from ≤ result.to)) × (length made.new ≡ 1024) }
    ensures value_at { 1 ≤ result.at → ValueAt source.now.list.now made.old made.new from w.end result.to w.value }
{
    let Some(p) = index::value_at(source.list, source.names, w.value) else {
        return LOST;
    };
    put(
        made,
        from,
        32,
        source.list[p + 1],
        source.list[p + 2],
        source.list[p + 3],
        source.list[p + 4],
    );
    let at = w.end;
    let to = from + 5;
    Pass { at, to }
}

fn number(source: &Source<'_>, made: &mut [u8; 1024], s: Pass) -> Pass
    requires { (s.at ≤ 254) × (s.to ≤ 1000) × (length made.old ≡ 1024) }
    ensures at_bound { (result.at ≤ 254) × (1 ≤ result.at → (s.at < result.at) × (s.to ≤ result.to)) × (length made.new ≡ 1024) }
    ensures by_index { (list : List ℕ) → Constant source.now.text.bytes list made.old made.new s.at s.to result.at result.to }
{
    let Some(x) = source.text.number(s.at) else {
        return LOST;
    };
    let at = x.end;
    let k = x.value;
    let from = s.to;
    put(
        made,
        from,
        32,
        lexis::low(k),
        lexis::low(k / 256),
        lexis::low(k / 65536),
        lexis::low(k / 16777216),
    );
    let to = from + 5;
    Pass { at, to }
}

// The condition of an aggregate over the symbol in the slot i, whose number is the last that was given; and the parenthesis after it.
#[cycle(bracket_comparison_condition_factor_some_aggregate_closed_qualified_term)]
fn qualified(
    source: &Source<'_>,
    symbols: &mut [u64; 160],
    made: &mut [u8; 1024],
    s: Pass,
    i: usize,
) -> Pass
    requires lent { Lent source.now.list.now source.now.names.now symbols.old made.old }
    requires at_bound { (s.at ≤ 254) × (i < 30) × (1 ≤ next_number symbols.old) }
    ensures went { Went s.at s.to result.at result.to symbols.new made.new }
    ensures closed_after { ClosedAfter source.now.text.bytes source.now.list.now symbols.old symbols.new made.old made.new
        s.at s.to result.at result.to i }
{
    let number = symbols[4 * i + 2];
    let level = symbols[4 * i + 3];
    let outer = symbols[symbols::LEVEL];
    if 99 < outer {
        return LOST;
    }
    symbols[4 * i + 2] = symbols[symbols::NEXT] - 1;
    symbols[4 * i + 3] = outer + 1;
    symbols[symbols::LEVEL] = outer + 1;
    let c = conditions::bracket(source, symbols, made, s);
    symbols[4 * i + 2] = number;
    symbols[4 * i + 3] = level;
    symbols[symbols::LEVEL] = outer;
    c
}

// What follows X.A in an aggregate over the symbol in the slot i: the end, or a condition.
#[cycle(bracket_comparison_condition_factor_some_aggregate_closed_qualified_term)]
fn closed(
    source: &Source<'_>,
    symbols: &mut [u64; 160],
    made: &mut [u8; 1024],
    s: Pass,
    i: usize,
) -> Pass
    requires lent { Lent source.now.list.now source.now.names.now symbols.old made.old }
    requires at_bound { (s.at ≤ 254) × (s.to ≤ 1005) × (i < 30) × (1 ≤ next_number symbols.old) }
    ensures went { Went s.at s.to result.at result.to symbols.new made.new }
    ensures closed { Closed source.now.text.bytes source.now.list.now symbols.old symbols.new made.old made.new
        s.at s.to result.at result.to i }
{
    let from = s.to;
    if let Some(at) = source.text.past(s.at, 41) {
        made[from] = 16;
        return Pass { at, to: from + 1 };
    }
    let Some(at) = source.text.past(s.at, 59) else {
        return LOST;
    };
    qualified(source, symbols, made, Pass { at, to: from }, i)
}

// An aggregate after its parenthesis; f is its function.
#[cycle(bracket_comparison_condition_factor_some_aggregate_closed_qualified_term)]
fn aggregate(
    source: &Source<'_>,
    symbols: &mut [u64; 160],
    made: &mut [u8; 1024],
    s: Pass,
    f: u8,
) -> Pass
    requires lent { Lent source.now.list.now source.now.names.now symbols.old made.old }
    requires at_bound { (s.at ≤ 254) × (s.to ≤ 1000) }
    ensures went { Went s.at s.to result.at result.to symbols.new made.new }
    ensures aggregate_after { AggregateAfter source.now.text.bytes source.now.list.now symbols.old symbols.new made.old made.new
        s.at s.to result.at result.to f }
{
    let Some(x) = source.text.attribute(s.at) else {
        return LOST;
    };
    let at = x.end;
    let Some(i) = symbols::bound(symbols, x.owner) else {
        return LOST;
    };
    let relation = lexis::low(symbols[4 * i + 1]);
    let Some(q) = index::attribute_at(source.list, source.names, relation, x.value) else {
        return LOST;
    };
    let next = symbols[symbols::NEXT];
    if 199 < next {
        return LOST;
    }
    put(
        made,
        s.to,
        34,
        f,
        lexis::low(next),
        relation,
        source.list[q + 2],
    );
    symbols[symbols::NEXT] = next + 1;
    let to = s.to + 5;
    closed(source, symbols, made, Pass { at, to }, i)
}

// A term whose first word is w; a number where there is none.
#[cycle(bracket_comparison_condition_factor_some_aggregate_closed_qualified_term)]
pub(crate) fn term(
    source: &Source<'_>,
    symbols: &mut [u64; 160],
    made: &mut [u8; 1024],
    s: Pass,
    w: Span,
) -> Pass
    requires lent { Lent source.now.list.now source.now.names.now symbols.old made.old }
    requires at_bound { (s.at ≤ 254) × (s.to ≤ 1000) × (w.end ≤ 254) × (1 ≤ w.end → s.at < w.end) }
    ensures went { Went s.at s.to result.at result.to symbols.new made.new }
    ensures termed_from { TermedFrom source.now.text.bytes source.now.list.now symbols.old symbols.new made.old made.new
        s.at s.to result.at result.to w.end w.value }
{
    let end = w.end;
    if end == 0 {
        return number(source, made, s);
    }
    let to = s.to;
    if let Some(at) = source.text.past(end, 46) {
        return used(source, symbols, made, Pass { at, to }, w.value);
    }
    if let Some(at) = source.text.past(end, 40) {
        let Some(f) = lexis::function(w.value) else {
            return LOST;
        };
        return aggregate(source, symbols, made, Pass { at, to }, f);
    }
    value(source, made, to, w)
}
