// The odometer: range variables run over their rows, the last RANGE fastest. Each conjunct is tried as soon as the variables that it needs
// are bound; an assignment that meets all of them gives a row, if each target has a value.
#![tactic(auto)]

ghost use Rattle.std.specs.Prelude.{◌≡◌, true, false, List, ℕ, ◌≤◌, ◌<◌, ◌+◌, ◌-◌, ◌*◌, pos, nat_abs, length, get_or, set};
ghost use Rattle.model.specs.Meaning.{Assignment, Rows};
ghost use Rattle.model.specs.Meaning as M;
ghost use Rattle.numbers.specs.Numbers as N;
ghost use Rattle.sizes.specs.Decode.{decode_t};
ghost use Rattle.sizes.specs.Parts.{targets_at};
ghost use Rattle.rows.specs.Buffer.{added_all, start};
ghost use Rattle.rows.specs.Chains.{Linked};
ghost use Rattle.walks.specs.Walks.{rows_by};
ghost use Rattle.decide.specs.Keys.{Faithful};
ghost use Rattle.walks.specs.Assigned.{assigned};
ghost use Rattle.numbers.specs.Recalled.{value_by};
ghost use Rattle.branches.specs.Branches.{operand};
ghost use Rattle.odometer.specs.Plan.{Bounds, cells_by, cells_in, Listed, Put, Written, Cells, added_row, row_by, rows_from, rows_below};
ghost use Rattle.odometer.specs.Plan.{code_in, chains_in, list_in, table_in, front_of};

use kinds::TermRecord;
use numbers::Ratio;
use rows::Filled;

// How many entries of the lent table `work` are branches; behind them stand the chains, the list of targets, and the table of the answer's rows.
pub const BRANCHES: usize = branches::ENTRIES;

// How many the list has, two for each target.
const LIST: usize = 2 * model::TARGETS;

// Where a query's targets start, how many they are and how deep, and whether they are listed; how many ranges are left, and are bound; where in
// `work` the list starts; how many rows are stored, and whether a distinct row did not fit.
#[derive(Clone, Copy)]
pub struct Plan {
    pub targets: usize,
    pub columns: usize,
    pub level: usize,
    pub listed: bool,
    pub left: usize,
    pub depth: usize,
    pub front: usize,
    pub rows: usize,
    pub full: bool,
}

// The answer before the first row.
const NONE: Filled = Filled {
    rows: 0,
    full: false,
};

// Target i of the list.
fn put(list: &mut [u16], i: usize, variable: u16, attribute: u16)
    requires { (2 * i + 2 ≤ length list.old) × (i < 8) }
    ensures { list.new ≡ set (set list.old (2 * i) variable) (2 * i + 1) attribute }
{
    let at = 2 * i;
    list[at] = variable;
    list[at + 1] = attribute;
}

// The term that q starts with as target i of the list, an attribute or, from variable 256 on, an aggregate that the memo knows; false for any other.
fn list_target(q: &[u8], level: usize, memo: &[i64], list: &mut [u16], i: usize) -> bool
    requires { (2 * i + 2 ≤ length list.old) × (i < 8) }
    ensures e_value { result ≡ true → (z : List ℕ) (R : Rows) (e : Assignment) → value_by memo.now (decode_t level q.now z) R e
        ≡ operand memo.now (get_or list.new (2 * i) 0) (get_or list.new (2 * i + 1) 0) (pos 0) e }
    ensures by_index { (k : ℕ) → k < 2 * i → get_or list.new k 0 ≡ get_or list.old k 0 }
{
    if level == 0 {
        return false;
    }
    match kinds::term_record(q) {
        TermRecord::Attribute(variable, attribute) => {
            put(list, i, u16::from(variable), u16::from(attribute));
            true
        }
        TermRecord::Aggregate(_, variable, _, _) => {
            if !numbers::knows(memo, variable) {
                return false;
            }
            put(list, i, u16::from(variable) + 256, 0);
            true
        }
        TermRecord::Constant(_, _, _, _) | TermRecord::Other => false,
    }
}

// The targets that q starts with, in the list from target i on, so that no record is read again for each row; false where one cannot be listed.
fn list_targets(
    q: &[u8],
    z: &[u16],
    left: usize,
    level: usize,
    memo: &[i64],
    list: &mut [u16],
    i: usize,
) -> bool
    requires { (2 * (i + left) ≤ length list.old) × (i + left ≤ 8) }
    ensures e_value { result ≡ true → (R : Rows) (e : Assignment) → cells_by memo.now (targets_at left level q.now z.now) R
        e ≡ cells_in memo.now list.new left i e }
    ensures by_index { (k : ℕ) → k < 2 * i → get_or list.new k 0 ≡ get_or list.old k 0 }
{
    if left == 0 {
        return true;
    }
    if !list_target(q, level, memo, list, i) {
        return false;
    }
    let n = kinds::size_at(z, 0);
    let u = kinds::tail(q, n);
    let v = kinds::tail_sizes(z, n);
    list_targets(u, v, left - 1, level, memo, list, i + 1)
}

// b with the sign of a.
fn toward(a: i64, b: i64) -> i64
    requires { nat_abs b ≤ 65535 }
    ensures { result ≡ N.toward a b }
{
    if a < 0 { 0 - b } else { b }
}

// The cell of a target: the nearest whole number, halves away from zero. Signed division cuts off, so a half is added first.
fn cell(x: Ratio) -> i64
    requires { N.Small x × N.Number x }
    ensures { result ≡ M.cell (N.ratio_of x) }
{
    let n = x.numerator;
    let d = x.denominator;
    let half = toward(n, d);
    (2 * n + half) / (2 * d)
}

// Target i of the list into cell i of the row; false where it has no value.
fn listed_cell(
    list: &[u16],
    i: usize,
    values: &[i32],
    memo: &[i64],
    env: &[usize],
    row: &mut [i64],
) -> bool
    requires { (256 ≤ length env.now) × (i < length row.old) × (i < 8) × (length list.now ≤ 16) }
    ensures { Put result row.old i row.new (operand memo.now (get_or list.now (2 * i) 0)
        (get_or list.now (2 * i + 1) 0) (pos 0) (assigned values.now env.now)) }
{
    let at = 2 * i;
    let v = kinds::size_at(list, at);
    if v < 256 {
        row[i] = i64::from(catalogue::value(values, env[v], kinds::size_at(list, at + 1)));
        return true;
    }
    let x = branches::side(list, at, 0, values, memo, env);
    if x.denominator <= 0 {
        return false;
    }
    row[i] = cell(x);
    true
}

// The cells of the first n targets of the list.
fn listed_cells(
    list: &[u16],
    n: usize,
    values: &[i32],
    memo: &[i64],
    env: &[usize],
    row: &mut [i64],
) -> bool
    requires { (256 ≤ length env.now) × (n ≤ length row.old) × (n ≤ 8) × (length list.now ≤ 16) }
    ensures { Written result row.old 0 row.new (cells_in memo.now list.now n 0
        (assigned values.now env.now)) }
{
    for i in 0..n {
        if !listed_cell(list, i, values, memo, env, row) {
            return false;
        }
    }
    true
}

// How many targets are ahead, how deep they may be, and the cell of the first.
#[derive(Clone, Copy)]
struct Ahead {
    left: usize,
    level: usize,
    at: usize,
}

// The cells of the targets that are ahead; whether each target has a value, for without one there is no row.
fn targets(
    q: &[u8],
    z: &[u16],
    ahead: Ahead,
    walks: &[u16],
    values: &[i32],
    memo: &[i64],
    env: &mut [usize],
    row: &mut [i64],
) -> bool
    requires { (256 ≤ length env.old) × (ahead.at + ahead.left ≤ length row.old) }
    ensures written { Written result row.old ahead.at row.new (cells_by memo.now
        (targets_at ahead.left ahead.level q.now z.now) (rows_by walks.now values.now)
        (assigned values.now env.old)) }
    ensures env_unchanged { env.new ≡ env.old }
{
    if ahead.left == 0 {
        return true;
    }
    let x = evaluator::term(q, z, ahead.level, walks, values, memo, env);
    if x.denominator <= 0 {
        return false;
    }
    row[ahead.at] = cell(x);
    let n = kinds::size_at(z, 0);
    let u = kinds::tail(q, n);
    let v = kinds::tail_sizes(z, n);
    let rest = Ahead {
        left: ahead.left - 1,
        level: ahead.level,
        at: ahead.at + 1,
    };
    targets(u, v, rest, walks, values, memo, env, row)
}

// The cells of an assignment's row; whether each target has a value.
fn cells(
    list: &[u16],
    q: &[u8],
    z: &[u16],
    plan: Plan,
    walks: &[u16],
    values: &[i32],
    memo: &[i64],
    env: &mut [usize],
    row: &mut [i64],
) -> bool
    requires { (256 ≤ length env.old) × (plan.columns ≤ length row.old) × (plan.columns ≤ 8) × Listed list.now plan q.now z.now memo.now
        × (length list.now ≤ 16) }
    ensures cells { Cells result plan.columns row.new (row_by plan q.now z.now walks.now values.now
        memo.now (assigned values.now env.old)) }
    ensures env_unchanged { env.new ≡ env.old }
{
    if plan.listed {
        return listed_cells(list, plan.columns, values, memo, env, row);
    }
    let x = kinds::tail(q, plan.targets);
    let y = kinds::tail_sizes(z, plan.targets);
    let ahead = Ahead {
        left: plan.columns,
        level: plan.level,
        at: 0,
    };
    targets(x, y, ahead, walks, values, memo, env, row)
}

// The row of one assignment, if each of its targets has a value.
fn write(
    q: &[u8],
    z: &[u16],
    work: &mut [u16],
    plan: Plan,
    walks: &[u16],
    values: &[i32],
    memo: &[i64],
    env: &mut [usize],
    answer: &mut [i64],
) -> Filled
    requires { (256 ≤ length env.old) × Bounds plan (length work.old) × Linked plan.columns plan.rows answer.old (table_in plan work.old)
        × Listed (list_in plan work.old) plan q.now z.now memo.now }
    ensures answer_after { record { rows = result.rows; full = result.full; cells = answer.new }
        ≡ added_row (record { rows = plan.rows; full = plan.full; cells = answer.old })
        (row_by plan q.now z.now walks.now values.now memo.now
        (assigned values.now env.old)) }
    ensures env_unchanged { env.new ≡ env.old }
    ensures linked { Linked plan.columns result.rows answer.new (table_in plan work.new)
        × (front_of plan work.new ≡ front_of plan work.old) }
{
    let n = plan.columns;
    let front = plan.front;
    let behind = front + LIST;
    let state = Filled {
        rows: plan.rows,
        full: plan.full,
    };
    let mut row = [0i64; model::TARGETS];
    let list = &work[front..behind];
    if !cells(list, q, z, plan, walks, values, memo, env, &mut row) {
        return state;
    }
    rows::add_row(answer, &mut work[behind..], state, &row[..n])
}

// The variable of the first RANGE record that is left on each row that its cursor stops at; once the answer is full nothing can change.
fn each_row(
    q: &[u8],
    z: &[u16],
    work: &mut [u16],
    plan: Plan,
    walks: &[u16],
    values: &[i32],
    memo: &[i64],
    env: &mut [usize],
    answer: &mut [i64],
) -> Filled
    requires { (256 ≤ length env.old) × Bounds plan (length work.old) × Linked plan.columns plan.rows answer.old (table_in plan work.old)
        × Faithful (code_in work.old) walks.now values.now (chains_in plan work.old) × Listed (list_in plan work.old) plan q.now z.now memo.now
        × (1 ≤ plan.left) }
    ensures answer_after { record { rows = result.rows; full = result.full; cells = answer.new }
        ≡ added_all (record { rows = plan.rows; full = plan.full; cells = answer.old })
        (rows_below plan (code_in work.old) q.now z.now walks.now values.now
        memo.now (assigned values.now env.old)) }
    ensures env_unchanged { env.new ≡ env.old }
    ensures linked { Linked plan.columns result.rows answer.new (table_in plan work.new)
        × (front_of plan work.new ≡ front_of plan work.old) }
{
    let d = plan.depth;
    let front = plan.front;
    let variable = kinds::byte(q, kinds::RANGE * d + 1);
    let all = &work[..];
    let t = &all[..BRANCHES];
    let chains = &all[BRANCHES..front];
    let start = kinds::size_at(t, 2 * d + 2);
    let second = kinds::size_at(t, 2 * d + 3);
    let cursor = decide::seeks::prepare(t, start, variable, chains, values, memo, env);
    let next = cursor.next;
    let mut inner = plan;
    inner.left = plan.left - 1;
    inner.depth = plan.depth + 1;
    let left = inner.left;
    let walk = walks::walk_of(walks, variable);
    let rows = decide::chains::Rows {
        values,
        walks,
        walk,
    };
    let n = walk.count;
    let old = env[variable as usize];
    let mut i = 0;
    loop {
        let all = &work[..];
        let chains = &all[BRANCHES..front];
        let j = cursor.next_row(&rows, chains, i);
        if n <= j {
            env[variable as usize] = old;
            return Filled {
                rows: inner.rows,
                full: inner.full,
            };
        }
        i = j + 1;
        let full = inner.full;
        if full {
            continue;
        }
        env[variable as usize] = walks::place(walks, walk, j);
        let t = &all[..BRANCHES];
        if !decide::leads(t, next, q, z, walks, chains, values, memo, env) {
            continue;
        }
        if !decide::leads(t, second, q, z, walks, chains, values, memo, env) {
            continue;
        }
        if left == 0 {
            let filled = write(q, z, work, inner, walks, values, memo, env, answer);
            inner.rows = filled.rows;
            inner.full = filled.full;
            continue;
        }
        let filled = each_row(q, z, work, inner, walks, values, memo, env, answer);
        inner.rows = filled.rows;
        inner.full = filled.full;
    }
}

// With no RANGE there is one assignment, and its row is the answer.
fn only(
    q: &[u8],
    z: &[u16],
    plan: Plan,
    walks: &[u16],
    values: &[i32],
    memo: &[i64],
    env: &mut [usize],
    answer: &mut [i64],
) -> Filled
    requires { (256 ≤ length env.old) × (plan.columns ≤ 8) }
    ensures answer_after { record { rows = result.rows; full = result.full; cells = answer.new }
        ≡ added_row (start answer.old) (row_by plan q.now z.now walks.now values.now
        memo.now (assigned values.now env.old)) }
    ensures env_unchanged { env.new ≡ env.old }
{
    let n = plan.columns;
    let t = plan.targets;
    let x = kinds::tail(q, t);
    let y = kinds::tail_sizes(z, t);
    let mut row = [0i64; model::TARGETS];
    let ahead = Ahead {
        left: n,
        level: plan.level,
        at: 0,
    };
    if !targets(x, y, ahead, walks, values, memo, env, &mut row) {
        return NONE;
    }
    rows::only_row(answer, &row[..n])
}

// All assignments of the RANGE records. The targets are listed once it is known that there may be a row.
pub fn run(
    q: &[u8],
    z: &[u16],
    work: &mut [u16],
    plan: Plan,
    walks: &[u16],
    values: &[i32],
    memo: &[i64],
    env: &mut [usize],
    answer: &mut [i64],
) -> Filled
    requires { (256 ≤ length env.old) × Bounds plan (length work.old) × Linked plan.columns 0 answer.old (table_in plan work.old)
        × Faithful (code_in work.old) walks.now values.now (chains_in plan work.old) }
    ensures { record { rows = result.rows; full = result.full; cells = answer.new }
        ≡ added_all (start answer.old) (rows_from plan (code_in work.old) q.now z.now
        walks.now values.now memo.now (assigned values.now env.old)) }
{
    let d = plan.depth;
    let front = plan.front;
    let all = &work[..];
    let t = &all[..BRANCHES];
    let chains = &all[BRANCHES..front];
    let first = kinds::size_at(t, 2 * d);
    if !decide::leads(t, first, q, z, walks, chains, values, memo, env) {
        return NONE;
    }
    let second = kinds::size_at(t, 2 * d + 1);
    if !decide::leads(t, second, q, z, walks, chains, values, memo, env) {
        return NONE;
    }
    let left = plan.left;
    if left == 0 {
        return only(q, z, plan, walks, values, memo, env, answer);
    }
    let behind = front + LIST;
    let x = kinds::tail(q, plan.targets);
    let y = kinds::tail_sizes(z, plan.targets);
    let listed = list_targets(
        x,
        y,
        plan.columns,
        plan.level,
        memo,
        &mut work[front..behind],
        0,
    );
    let mut ready = plan;
    ready.listed = listed;
    ready.rows = 0;
    ready.full = false;
    each_row(q, z, work, ready, walks, values, memo, env, answer)
}
