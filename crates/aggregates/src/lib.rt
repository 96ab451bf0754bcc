// Each aggregate of a query is evaluated once: a legal one is closed, so it has one value. A memo keeps it by its variable.
#![tactic(auto)]

ghost use Rattle.std.specs.Prelude.{◌≡◌, true, cond, ◌+◌, ◌≤◌, ◌<◌, pos, length, get_or, set};
ghost use Rattle.sizes.specs.Decode.{decode, decode_t};
ghost use Rattle.sizes.specs.Parts.{targets_at};
ghost use Rattle.walks.specs.Walks.{rows_by};
ghost use Rattle.numbers.specs.Numbers.{value_of, Small, Accumulates};
ghost use Rattle.numbers.specs.Memo as Memo;
ghost use Rattle.evaluator.specs.Evaluation.{value_at, values_on};
ghost use Rattle.walks.specs.Assigned.{assigned};
ghost use Rattle.decide.specs.Keys.{Faithful};
ghost use Rattle.aggregates.specs.Taken.{both_from, taken_by};
ghost use Rattle.aggregates.specs.Filled.{filled_c, filled_t, filled_ts};

use decide::chains::Rows;
use kinds::{ConditionRecord, TermRecord};
use numbers::{Accumulator, Ratio};

// What an aggregate takes: an attribute of its variable, of the rows that meet a condition, which is read down to a level.
#[derive(Clone, Copy)]
struct Column {
    variable: u8,
    attribute: usize,
    level: usize,
}

// Whether a level can stand in a table of branches.
fn compiled(level: usize) -> bool
    ensures { result ≡ true → (1 ≤ level) × (level ≤ 65535) }
{
    (1..=65535).contains(&level)
}

// Whether the conjuncts hold of a table with no ranges, comparisons first, of which those before branch `next` do.
fn both(
    t: &[u16],
    next: usize,
    q: &[u8],
    z: &[u16],
    walks: &[u16],
    chains: &[u16],
    values: &[i32],
    memo: &[i64],
    env: &mut [usize],
) -> bool
    requires { (256 ≤ length env.old) × (next ≤ 65535) × Faithful t.now walks.now values.now chains.now }
    ensures value { result ≡ both_from t.now q.now z.now walks.now values.now
        memo.now next (assigned values.now env.old) }
    ensures env_unchanged { env.new ≡ env.old }
{
    if !decide::leads(t, next, q, z, walks, chains, values, memo, env) {
        return false;
    }
    let second = kinds::size_at(t, 1);
    decide::leads(t, second, q, z, walks, chains, values, memo, env)
}

// The attribute of each row of the variable for which the conjuncts hold. Its own rows have no chain.
fn take(
    t: &[u16],
    q: &[u8],
    z: &[u16],
    walks: &[u16],
    chains: &[u16],
    values: &[i32],
    memo: &[i64],
    env: &mut [usize],
    column: Column,
) -> Accumulator
    requires { (256 ≤ length env.old) × Faithful t.now walks.now values.now chains.now × (column.variable < 256) }
    ensures accumulates { Accumulates result (taken_by t.now q.now z.now walks.now
        values.now memo.now env.old column.variable column.attribute) }
    ensures count_bound { result.count ≤ 65535 }
    ensures env_unchanged { env.new ≡ env.old }
{
    let walk = walks::walk_of(walks, column.variable);
    let rows = Rows {
        values,
        walks,
        walk,
    };
    let n = walk.count;
    let own = usize::from(column.variable);
    let old = env[own];
    let start = kinds::size_at(t, 0);
    let none = [0u16; 1];
    let cursor = decide::seeks::prepare(t, start, column.variable, &none, values, memo, env);
    let next = cursor.next;
    let mut taken = numbers::EMPTY;
    let mut i = 0;
    loop {
        let j = cursor.next_row(&rows, &none, i);
        if n <= j {
            env[own] = old;
            return taken;
        }
        i = j + 1;
        let row = walks::place(walks, walk, j);
        env[own] = row;
        if !both(t, next, q, z, walks, chains, values, memo, env) {
            continue;
        }
        taken = numbers::add(taken, catalogue::value(values, row, column.attribute));
    }
}

// The same where the conjuncts ask for rows of other variables: those of the first that has eight or more are chained.
fn take_linked(
    t: &[u16],
    q: &[u8],
    z: &[u16],
    walks: &[u16],
    values: &[i32],
    memo: &[i64],
    env: &mut [usize],
    column: Column,
) -> Accumulator
    requires { (256 ≤ length env.old) × (column.variable < 256) }
    ensures accumulates { Accumulates result (taken_by t.now q.now z.now walks.now
        values.now memo.now env.old column.variable column.attribute) }
    ensures count_bound { result.count ≤ 65535 }
    ensures env_unchanged { env.new ≡ env.old }
{
    let mut chains = [0u16; 2116];
    decide::seeks::link(q, 0, t, walks, values, &mut chains);
    take(t, q, z, walks, &chains, values, memo, env, column)
}

// Whether a branch asks for a row. It promises nothing: it only tells whether chains can be of use.
fn asks(t: &[u16]) -> bool {
    for i in 2..64 {
        if kinds::size_at(t, 8 * i) == 256 {
            return true;
        }
        if kinds::size_at(t, 8 * i + 5) == kinds::size_at(t, 8 * i + 6) {
            return false;
        }
    }
    false
}

// The attribute of each row of the variable that meets the condition that q starts with. With no ranges the plan looks at no catalogue: any bytes will do.
fn gather(
    q: &[u8],
    z: &[u16],
    walks: &[u16],
    values: &[i32],
    memo: &[i64],
    env: &mut [usize],
    column: Column,
) -> Accumulator
    requires { (256 ≤ length env.old) × (column.level ≤ 65535) × (column.variable < 256) }
    ensures accumulates { Accumulates result (values_on column.level q.now z.now walks.now values.now memo.now
        env.old column.variable column.attribute) }
    ensures count_bound { result.count ≤ 65535 }
    ensures env_unchanged { env.new ≡ env.old }
{
    let level = column.level;
    let mut t = [0u16; branches::ENTRIES];
    conjuncts::plan(q, z, 0, 0, level, memo, &mut t);
    if asks(&t) {
        return take_linked(&t, q, z, walks, values, memo, env, column);
    }
    let chains = [0u16; 1];
    take(&t, q, z, walks, &chains, values, memo, env, column)
}

// The value of the term that q starts with; an aggregate's condition is compiled once for its rows.
fn value(
    q: &[u8],
    z: &[u16],
    level: usize,
    walks: &[u16],
    values: &[i32],
    memo: &[i64],
    env: &mut [usize],
) -> Ratio
    requires { 256 ≤ length env.old }
    ensures result_value { value_of result ≡ value_at level q.now z.now walks.now values.now memo.now
        env.old }
    ensures small { Small result }
    ensures env_unchanged { env.new ≡ env.old }
{
    if !compiled(level) {
        return evaluator::term(q, z, level, walks, values, memo, env);
    }
    let TermRecord::Aggregate(function, variable, _, attribute) = kinds::term_record(q) else {
        return evaluator::term(q, z, level, walks, values, memo, env);
    };
    if numbers::knows(memo, variable) {
        return numbers::recall(memo, variable);
    }
    let n = kinds::record_length(kinds::byte(q, 0));
    let x = kinds::tail(q, n);
    let y = kinds::tail_sizes(z, n);
    let column = Column {
        variable,
        attribute: usize::from(attribute),
        level: level - 1,
    };
    let taken = gather(x, y, walks, values, memo, env, column);
    numbers::finish(function, taken)
}

fn store(memo: &mut [i64], i: usize, x: i64)
    ensures { memo.new ≡ set memo.old i x }
{
    if i < memo.len() {
        memo[i] = x;
    }
}

// Nothing is kept with the numerator 0, so that a value is kept in one way.
fn numerator(x: Ratio) -> i64
    requires { Small x }
    ensures { result ≡ Memo.numerator_of (value_of x) }
{
    if x.denominator <= 0 { 0 } else { x.numerator }
}

fn mark(x: Ratio) -> i64
    requires { Small x }
    ensures { result ≡ Memo.mark_of (value_of x) }
{
    x.denominator + 1
}

// Keeps a variable's value in the memo.
fn remember(memo: &mut [i64], variable: u8, x: Ratio)
    requires { Small x }
    ensures { memo.new ≡ Memo.remembered memo.old variable (value_of x) }
{
    let i = 2 * usize::from(variable);
    store(memo, i, numerator(x));
    store(memo, i + 1, mark(x));
}

// The aggregates of the condition that q starts with.
#[cycle(condition_term)]
pub fn condition(
    q: &[u8],
    z: &[u16],
    level: usize,
    walks: &[u16],
    values: &[i32],
    env: &mut [usize],
    memo: &mut [i64],
)
    requires { 256 ≤ length env.old }
    ensures memo_after { memo.new ≡ filled_c (decode level q.now z.now) (rows_by walks.now values.now)
        (assigned values.now env.old) memo.old }
    ensures env_unchanged { env.new ≡ env.old }
{
    if level == 0 {
        return;
    }
    let l = level - 1;
    let a = kinds::record_length(kinds::byte(q, 0));
    let b = a + kinds::size_at(z, a);
    let x = kinds::tail(q, a);
    let y = kinds::tail_sizes(z, a);
    let u = kinds::tail(q, b);
    let v = kinds::tail_sizes(z, b);
    match kinds::condition_record(q) {
        ConditionRecord::Not => {
            condition(x, y, l, walks, values, env, memo);
        }
        ConditionRecord::And => {
            condition(x, y, l, walks, values, env, memo);
            condition(u, v, l, walks, values, env, memo);
        }
        ConditionRecord::Or => {
            condition(x, y, l, walks, values, env, memo);
            condition(u, v, l, walks, values, env, memo);
        }
        ConditionRecord::Compare(_) => {
            term(x, y, l, walks, values, env, memo);
            term(u, v, l, walks, values, env, memo);
        }
        ConditionRecord::Some(_, _) => {
            condition(x, y, l, walks, values, env, memo);
        }
        ConditionRecord::True | ConditionRecord::False | ConditionRecord::Other => {}
    }
}

// The aggregates of the term that q starts with.
#[cycle(condition_term)]
fn term(
    q: &[u8],
    z: &[u16],
    level: usize,
    walks: &[u16],
    values: &[i32],
    env: &mut [usize],
    memo: &mut [i64],
)
    requires { 256 ≤ length env.old }
    ensures memo_after { memo.new ≡ filled_t (decode_t level q.now z.now) (rows_by walks.now values.now)
        (assigned values.now env.old) memo.old }
    ensures env_unchanged { env.new ≡ env.old }
{
    if level == 0 {
        return;
    }
    let TermRecord::Aggregate(_, variable, _, _) = kinds::term_record(q) else {
        return;
    };
    let a = kinds::record_length(kinds::byte(q, 0));
    condition(
        kinds::tail(q, a),
        kinds::tail_sizes(z, a),
        level - 1,
        walks,
        values,
        env,
        memo,
    );
    let x = value(q, z, level, walks, values, memo, env);
    remember(memo, variable, x);
}

// The same of a target. `value` has two callers by this, so its tables are no part of what the recursion takes of the stack for each aggregate inside
// another.
fn target_term(
    q: &[u8],
    z: &[u16],
    level: usize,
    walks: &[u16],
    values: &[i32],
    env: &mut [usize],
    memo: &mut [i64],
)
    requires { 256 ≤ length env.old }
    ensures memo_after { memo.new ≡ filled_t (decode_t level q.now z.now) (rows_by walks.now values.now)
        (assigned values.now env.old) memo.old }
    ensures env_unchanged { env.new ≡ env.old }
{
    if level == 0 {
        return;
    }
    let TermRecord::Aggregate(_, variable, _, _) = kinds::term_record(q) else {
        return;
    };
    let a = kinds::record_length(kinds::byte(q, 0));
    condition(
        kinds::tail(q, a),
        kinds::tail_sizes(z, a),
        level - 1,
        walks,
        values,
        env,
        memo,
    );
    let x = value(q, z, level, walks, values, memo, env);
    remember(memo, variable, x);
}

// How many targets are left, and the level down to which each is read.
#[derive(Clone, Copy)]
pub struct Left {
    pub targets: usize,
    pub level: usize,
}

// The aggregates of so many targets.
pub fn targets(
    q: &[u8],
    z: &[u16],
    left: Left,
    walks: &[u16],
    values: &[i32],
    env: &mut [usize],
    memo: &mut [i64],
)
    requires { 256 ≤ length env.old }
    ensures memo_after { memo.new ≡ filled_ts (targets_at left.targets left.level q.now z.now)
        (rows_by walks.now values.now) (assigned values.now env.old) memo.old }
    ensures env_unchanged { env.new ≡ env.old }
{
    let n = left.targets;
    let level = left.level;
    if n == 0 {
        return;
    }
    target_term(q, z, level, walks, values, env, memo);
    let size = kinds::size_at(z, 0);
    let rest = Left {
        targets: n - 1,
        level,
    };
    targets(
        kinds::tail(q, size),
        kinds::tail_sizes(z, size),
        rest,
        walks,
        values,
        env,
        memo,
    );
}
