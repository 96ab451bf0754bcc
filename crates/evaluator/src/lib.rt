// Conditions and terms evaluated over the bytes of a query. A table of sizes tells where a second child starts, so that
// AND, OR and SOME are left as soon as their truth is known. The level falls at each call. An aggregate that the memo
// knows, by its variable, is not evaluated again.
#![tactic(auto)]

ghost use Rattle.std.specs.Prelude.{◌≡◌, ◌≤◌, ◌<◌, length, get_or, set};
ghost use Rattle.model.specs.Search.{search};
ghost use Rattle.numbers.specs.Numbers.{value_of, Small, Accumulates};
ghost use Rattle.walks.specs.Walks.{walked};
ghost use Rattle.evaluator.specs.Evaluation.{holds_at, value_at, holds_on, values_on};

use kinds::{ConditionRecord, TermRecord};
use numbers::{Accumulator, Ratio};

// Whether a row was a hit, and how many rows were tried: up to the first hit, or all.
#[derive(Clone, Copy)]
struct Search {
    found: bool,
    tried: usize,
}

// The place of a variable's row.
fn place(env: &[usize], variable: u8) -> usize
    ensures { result ≡ get_or env.now variable 0 }
{
    env.get(usize::from(variable)).copied().unwrap_or(0)
}

fn set_place(env: &mut [usize], variable: u8, row: usize)
    ensures { env.new ≡ set env.old variable row }
{
    let i = usize::from(variable);
    if i < env.len() {
        env[i] = row;
    }
}

// Whether the condition that q starts with holds.
#[cycle(condition_gather_some_row_term)]
pub fn condition(
    q: &[u8],
    z: &[u16],
    level: usize,
    walks: &[u16],
    values: &[i32],
    memo: &[i64],
    env: &mut [usize],
) -> bool
    requires { 256 ≤ length env.old }
    ensures value { result ≡ holds_at level q.now z.now walks.now values.now memo.now env.old }
    ensures env_unchanged { env.new ≡ env.old }
{
    if level == 0 {
        return false;
    }
    let l = level - 1;
    let a = kinds::record_length(kinds::byte(q, 0));
    let x = kinds::tail(q, a);
    let y = kinds::tail_sizes(z, a);
    match kinds::condition_record(q) {
        ConditionRecord::True => true,
        ConditionRecord::Not => !condition(x, y, l, walks, values, memo, env),
        ConditionRecord::And => {
            if !condition(x, y, l, walks, values, memo, env) {
                return false;
            }
            let b = a + kinds::size_at(z, a);
            let u = kinds::tail(q, b);
            let v = kinds::tail_sizes(z, b);
            condition(u, v, l, walks, values, memo, env)
        }
        ConditionRecord::Or => {
            if condition(x, y, l, walks, values, memo, env) {
                return true;
            }
            let b = a + kinds::size_at(z, a);
            let u = kinds::tail(q, b);
            let v = kinds::tail_sizes(z, b);
            condition(u, v, l, walks, values, memo, env)
        }
        ConditionRecord::Compare(operator) => {
            let left = term(x, y, l, walks, values, memo, env);
            let b = a + kinds::size_at(z, a);
            let u = kinds::tail(q, b);
            let v = kinds::tail_sizes(z, b);
            let right = term(u, v, l, walks, values, memo, env);
            numbers::compared(usize::from(operator), left, right)
        }
        ConditionRecord::Some(variable, _) => {
            let asked = Asked { level: l, variable };
            some_row(x, y, asked, walks, values, memo, env).found
        }
        ConditionRecord::False => false,
        ConditionRecord::Other => false,
    }
}

// The value of the term that q starts with: a number, or nothing.
#[cycle(condition_gather_some_row_term)]
pub fn term(
    q: &[u8],
    z: &[u16],
    level: usize,
    walks: &[u16],
    values: &[i32],
    memo: &[i64],
    env: &mut [usize],
) -> Ratio
    requires { 256 ≤ length env.old }
    ensures result_value { value_of result ≡ value_at level q.now z.now walks.now values.now memo.now
        env.old }
    ensures small { Small result }
    ensures env_unchanged { env.new ≡ env.old }
{
    if level == 0 {
        return numbers::whole(0);
    }
    let l = level - 1;
    let at = kinds::record_length(kinds::byte(q, 0));
    match kinds::term_record(q) {
        TermRecord::Constant(a, b, c, d) => numbers::whole(kinds::constant(a, b, c, d)),
        TermRecord::Attribute(variable, attribute) => {
            let row = place(env, variable);
            numbers::whole(catalogue::value(values, row, usize::from(attribute)))
        }
        TermRecord::Aggregate(function, variable, _, attribute) => {
            if numbers::knows(memo, variable) {
                return numbers::recall(memo, variable);
            }
            let x = kinds::tail(q, at);
            let y = kinds::tail_sizes(z, at);
            let column = Column {
                level: l,
                variable,
                attribute: usize::from(attribute),
            };
            let taken = gather(x, y, column, walks, values, memo, env);
            numbers::finish(function, taken)
        }
        TermRecord::Other => numbers::whole(0),
    }
}

// What is asked of each row of a variable: the level down to which the condition is read, and the variable.
#[derive(Clone, Copy)]
struct Asked {
    level: usize,
    variable: u8,
}

// The search for a row of the variable that meets the condition; it ends at the first.
#[cycle(condition_gather_some_row_term)]
fn some_row(
    q: &[u8],
    z: &[u16],
    asked: Asked,
    walks: &[u16],
    values: &[i32],
    memo: &[i64],
    env: &mut [usize],
) -> Search
    requires { 256 ≤ length env.old }
    ensures tried_value { record { found = result.found; tried = result.tried } ≡ search
        (holds_on asked.level q.now z.now walks.now values.now memo.now env.old
        asked.variable)
        (walked walks.now values.now asked.variable) }
    ensures env_unchanged { env.new ≡ env.old }
{
    let walk = walks::walk_of(walks, asked.variable);
    let n = walk.count;
    let old = place(env, asked.variable);
    for i in 0..n {
        set_place(env, asked.variable, walks::place(walks, walk, i));
        if condition(q, z, asked.level, walks, values, memo, env) {
            set_place(env, asked.variable, old);
            let tried = i + 1;
            return Search { found: true, tried };
        }
    }
    set_place(env, asked.variable, old);
    Search {
        found: false,
        tried: n,
    }
}

// The same, and the attribute that is gathered of the rows that meet it.
#[derive(Clone, Copy)]
struct Column {
    level: usize,
    variable: u8,
    attribute: usize,
}

// The attribute of each row of the variable that meets the condition.
#[cycle(condition_gather_some_row_term)]
fn gather(
    q: &[u8],
    z: &[u16],
    column: Column,
    walks: &[u16],
    values: &[i32],
    memo: &[i64],
    env: &mut [usize],
) -> Accumulator
    requires { 256 ≤ length env.old }
    ensures accumulates { Accumulates result (values_on column.level q.now z.now walks.now values.now memo.now
        env.old column.variable column.attribute) }
    ensures count_bound { result.count ≤ 65535 }
    ensures env_unchanged { env.new ≡ env.old }
{
    let walk = walks::walk_of(walks, column.variable);
    let n = walk.count;
    let old = place(env, column.variable);
    let mut taken = numbers::EMPTY;
    for i in 0..n {
        let row = walks::place(walks, walk, i);
        set_place(env, column.variable, row);
        if condition(q, z, column.level, walks, values, memo, env) {
            taken = numbers::add(taken, catalogue::value(values, row, column.attribute));
        }
    }
    set_place(env, column.variable, old);
    taken
}
