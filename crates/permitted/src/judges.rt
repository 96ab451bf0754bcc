// Which rows of a relation meet a permit's condition: a mark for each row, and the condition taken apart once for all rows. NOT, AND and OR are
// marks upon marks, a comparison with something known is one short loop that takes the same way for every row; only what is left, as SOME, is asked row by row,
// the rows that it may find chained before the first.
ghost use Rattle.std.specs.Prelude.{◌≡◌, true, false, not, cond, ◌&&◌, ◌||◌, List, ℕ, ◌+◌, ◌*◌, ◌≤◌, ◌<◌, eqb, ℤ, pos, nat_abs, ◌*ℤ◌, length, get_or, drop, IfSome};
ghost use Rattle.std.proofs.Math.Option.{some};
ghost use Rattle.model.specs.Lists.{update};
ghost use Rattle.model.specs.Meaning.{Rows, Assignment, signed};
ghost use Rattle.model.specs.Meaning as M;
ghost use Rattle.catalogue.specs.Layout.{tuple_at, rows_of};
ghost use Rattle.numbers.specs.Numbers.{value_of, Number, Small};
ghost use Rattle.numbers.specs.Memo as Memo;
ghost use Rattle.sizes.specs.Decode.{first, second, decode_t};
ghost use Rattle.walks.specs.Walks.{Fits};
ghost use Rattle.numbers.specs.Recalled.{value_by};
ghost use Rattle.decide.specs.Keys.{Faithful};
ghost use Rattle.permitted.specs.Marked as J;
ghost use Rattle.permitted.specs.Meets.{meets_bytes, row_of};

use branches::{Room, Spot, Ways};
use kinds::{ConditionRecord, TermRecord};
use numbers::Ratio;
use walks::Walk;

const LEVELS: usize = model::PERMIT_LEVELS;

const VARIABLES: usize = model::PERMIT_VARIABLES as usize;

// A comparison of an attribute with a number, in a form that is the same for all operators: the value times `scale` against the number
// from below unless `above`, from above unless `below`, and turned round unless `wanted`.
#[derive(Clone, Copy)]
struct Test {
    above: bool,
    below: bool,
    wanted: bool,
    number: i64,
    scale: i64,
}

fn between(above: bool, below: bool, wanted: bool, n: i64, v: i64) -> bool
    ensures { result ≡ J.between above below wanted n v }
{
    let low = above || n <= v;
    let high = below || v <= n;
    (low && high) == wanted
}

fn joined(old: u8, b: bool) -> u8
    requires { old ≤ 1 }
    ensures { result ≡ cond b 1 old }
{
    old | u8::from(b)
}

// The cross product of a value with a denominator.
fn scaled(a: i32, d: i64) -> i64
    requires { nat_abs d ≤ 65535 }
    ensures { result ≡ a *ℤ d }
{
    i64::from(a) * d
}

// Marks the rows whose value passes a test; values are `width` apart.
fn mark_passing(values: &[i32], from: usize, width: usize, n: usize, test: Test, marks: &mut [u8])
    requires { (n ≤ length marks.old) × ((i : ℕ) → i < n → from + i * width < length values.now) × (from ≤ 8589934592) × (width ≤ 65535)
        × (n ≤ 65535) × (nat_abs test.scale ≤ 65535) × (nat_abs test.number ≤ 140735340871680) × J.Bits marks.old }
    ensures { J.Marked (λ i. J.passes test (get_or values.now (from + i * width) (pos 0))) n marks.old marks.new }
{
    let above = test.above;
    let below = test.below;
    let wanted = test.wanted;
    let number = test.number;
    let scale = test.scale;
    let mut at = from;
    for i in 0..n {
        let v = scaled(values[at], scale);
        marks[i] = joined(marks[i], between(above, below, wanted, number, v));
        at += width;
    }
}

fn test_with(above: bool, below: bool, wanted: bool, x: Ratio) -> Test
    ensures { result ≡ record { above = above; below = below; wanted = wanted; number = x.numerator; scale = x.denominator } }
{
    let number = x.numerator;
    let scale = x.denominator;
    Test {
        above,
        below,
        wanted,
        number,
        scale,
    }
}

// A comparison with x on the right.
fn test_of(operator: u8, x: Ratio, wanted: bool) -> Test
    ensures a_value { Small x → Number x → (a : ℤ) → J.passes result a ≡ J.turned wanted (M.compare operator (some (M.whole a)) (value_of x)) }
    ensures number_value { (result.number ≡ x.numerator) × (result.scale ≡ x.denominator) }
{
    match operator {
        1 => test_with(false, false, wanted, x),
        2 => test_with(false, false, !wanted, x),
        3 => test_with(false, true, !wanted, x),
        4 => test_with(true, false, wanted, x),
        5 => test_with(true, false, !wanted, x),
        _ => test_with(false, true, wanted, x),
    }
}

// Marks the first n rows if they are to be marked.
fn mark_if(b: bool, n: usize, marks: &mut [u8])
    requires { n ≤ length marks.old }
    ensures { J.Marked (λ i. b) n marks.old marks.new }
{
    if b {
        marks[..n].fill(1);
    }
}

// Marks by a comparison of an attribute with x; with nothing it is false. Not where values are missing, and it says so.
fn mark_against(
    operator: u8,
    attribute: u8,
    x: Ratio,
    walk: Walk,
    values: &[i32],
    wanted: bool,
    marks: &mut [u8],
) -> bool
    requires { (walk.count ≤ length marks.old) × Fits walk × Small x × J.Bits marks.old }
    ensures marked { result ≡ true → J.Marked (λ i. J.turned wanted (M.compare operator
        (some (M.whole (J.tuple_of values.now walk i attribute))) (value_of x))) walk.count marks.old marks.new }
    ensures marks_unchanged { result ≡ false → marks.new ≡ marks.old }
{
    let base = walk.base;
    let width = walk.width;
    let n = walk.count;
    let d = x.denominator;
    if d <= 0 {
        mark_if(!wanted, n, marks);
        return true;
    }
    let a = usize::from(attribute);
    if width <= a {
        return false;
    }
    if values.len() < base + n * width {
        return false;
    }
    let t = test_of(operator, x, wanted);
    mark_passing(values, base + a, width, n, t, marks);
    true
}

// An aggregate, where the memo knows it.
fn recalled(memo: &[i64], variable: u8) -> Option<Ratio>
    ensures { IfSome result (λ x. (Memo.knows memo.now variable ≡ true)
        × (value_of x ≡ Memo.recalled memo.now variable) × Small x) }
{
    if !numbers::knows(memo, variable) {
        return None;
    }
    Some(numbers::recall(memo, variable))
}

// The value of the term that q starts with, where it is known before the first row: a number, or an aggregate.
fn known_at(q: &[u8], level: usize, memo: &[i64]) -> Option<Ratio>
    ensures { IfSome result (λ x. ((z : List ℕ) (R : Rows) (e : Assignment) → value_of x
        ≡ value_by memo.now (decode_t level q.now z) R e) × Small x) }
{
    if level == 0 {
        return None;
    }
    match kinds::term_record(q) {
        TermRecord::Constant(a, b, c, d) => Some(numbers::whole(kinds::constant(a, b, c, d))),
        TermRecord::Aggregate(_, variable, _, _) => recalled(memo, variable),
        TermRecord::Attribute(_, _) | TermRecord::Other => None,
    }
}

// What is asked of a condition: at which level it is read, and the end that it is to lead to, 0 where it is to hold. A number, since a flag that is read
// from a struct costs an instruction for each row.
#[derive(Clone, Copy)]
struct Task {
    level: usize,
    end: usize,
}

// The other end.
fn other(end: usize) -> usize
    ensures { eqb result 0 ≡ not (eqb end 0) }
{
    if end == 0 { 1 } else { 0 }
}

// Marks the rows that other marks leave out.
fn mark_others(others: &[u8], n: usize, marks: &mut [u8])
    requires { (n ≤ length others.now) × (n ≤ length marks.old) × J.Bits marks.old }
    ensures { J.Marked (λ i. eqb (get_or others.now i 0) 0) n marks.old marks.new }
{
    for i in 0..n {
        marks[i] = joined(marks[i], others[i] == 0);
    }
}

// The end that a condition leads to where it is as wanted.
fn end_of(wanted: bool) -> usize
    ensures { result ≡ cond wanted 0 1 }
{
    if wanted { 0 } else { 1 }
}

// What decides which rows of a walk meet a condition: the walks of its other variables, the values, and the memo of its aggregates.
#[derive(Clone, Copy)]
struct Judging<'a> {
    walk: Walk,
    walks: &'a [u16],
    values: &'a [i32],
    memo: &'a [i64],
    ghost fits: { Fits walk },
    ghost few: { walk.count ≤ 1024 },
}

impl Judging<'_> {
    // Marks by the condition that q starts with, where it is a comparison of an attribute of variable 0 with a known term; whether it is.
    fn mark_compared(&self, q: &[u8], z: &[u16], task: Task, marks: &mut [u8]) -> bool
        requires { (self.now.walk.count ≤ length marks.old) × J.Bits marks.old }
        ensures marked { result ≡ true → (ws : List ℕ) → J.Marked (J.judged_on task.level q.now z.now ws
            self.now.values.now self.now.memo.now self.now.walk (eqb task.end 0)) self.now.walk.count marks.old marks.new }
        ensures marks_unchanged { result ≡ false → marks.new ≡ marks.old }
    {
        if task.level < 2 {
            return false;
        }
        let ConditionRecord::Compare(operator) = kinds::condition_record(q) else {
            return false;
        };
        let a = kinds::record_length(kinds::byte(q, 0));
        let TermRecord::Attribute(variable, attribute) = kinds::term_record(kinds::tail(q, a))
        else {
            return false;
        };
        if variable != 0 {
            return false;
        }
        let b = a + kinds::size_at(z, a);
        let Some(x) = known_at(kinds::tail(q, b), task.level - 1, self.memo) else {
            return false;
        };
        let wanted = task.end == 0;
        mark_against(
            operator,
            attribute,
            x,
            self.walk,
            self.values,
            wanted,
            marks,
        )
    }

    // Marks the rows that lead from a branch to 0, row by row. A row that is marked is not tried.
    fn mark_rows(
        &self,
        q: &[u8],
        z: &[u16],
        t: &[u16],
        start: usize,
        chains: &[u16],
        marks: &mut [u8],
    )
        requires { (start ≤ 65535) × (self.now.walk.count ≤ length marks.old) × J.Bits marks.old
            × Faithful t.now self.now.walks.now self.now.values.now chains.now }
        ensures { J.Marked (J.ran_on t.now start q.now z.now self.now.walks.now self.now.values.now self.now.memo.now self.now.walk)
            self.now.walk.count marks.old marks.new }
    {
        let walk = self.walk;
        let values = self.values;
        let mut env = [values.len(); 256];
        for i in 0..walk.count {
            if marks[i] != 0 {
                continue;
            }
            env[0] = walk.base + i * walk.width;
            let met = decide::leads(
                t, start, q, z, self.walks, chains, values, self.memo, &mut env,
            );
            marks[i] = u8::from(met);
        }
    }

    // The same where the table asks for rows of other variables: those are chained once for all rows of the walk, up to three of 1,024 rows.
    fn mark_linked(&self, q: &[u8], z: &[u16], t: &[u16], start: usize, marks: &mut [u8])
        requires { (start ≤ 65535) × (self.now.walk.count ≤ length marks.old) × J.Bits marks.old }
        ensures { J.Marked (J.ran_on t.now start q.now z.now self.now.walks.now self.now.values.now self.now.memo.now self.now.walk)
            self.now.walk.count marks.old marks.new }
    {
        let mut chains = [0u16; 6220];
        decide::seeks::link(q, 0, t, self.walks, self.values, &mut chains);
        self.mark_rows(q, z, t, start, &chains, marks);
    }

    // Marks by the condition that q starts with, row by row.
    fn judge_each(&self, q: &[u8], z: &[u16], task: Task, marks: &mut [u8])
        requires { (task.level ≤ 65535) × (self.now.walk.count ≤ length marks.old) × J.Bits marks.old }
        ensures { J.Marked (J.judged_on task.level q.now z.now self.now.walks.now self.now.values.now self.now.memo.now self.now.walk
            (eqb task.end 0)) self.now.walk.count marks.old marks.new }
    {
        let wanted = task.end == 0;
        let mut t = [0u16; branches::ENTRIES];
        let met = end_of(wanted);
        let unmet = end_of(!wanted);
        let room = Room { next: 2, end: 64 };
        let ways = Ways { met, unmet };
        let level = task.level;
        let spot = Spot { place: 0, level };
        let start = branches::compile(q, z, spot, self.memo, &mut t, room, ways);
        if kinds::byte(q, 0) == 22 {
            self.mark_linked(q, z, &t, start, marks);
            return;
        }
        let chains = [0u16; 1];
        self.mark_rows(q, z, &t, start, &chains, marks);
    }

    // What is no AND, OR or NOT: a comparison with something known in one loop, else row by row.
    fn judge_leaf(&self, q: &[u8], z: &[u16], task: Task, marks: &mut [u8])
        requires { (task.level ≤ 65535) × (self.now.walk.count ≤ length marks.old) × J.Bits marks.old }
        ensures { J.Marked (J.judged_on task.level q.now z.now self.now.walks.now self.now.values.now self.now.memo.now self.now.walk
            (eqb task.end 0)) self.now.walk.count marks.old marks.new }
    {
        if self.mark_compared(q, z, task, marks) {
            return;
        }
        self.judge_each(q, z, task, marks);
    }

    // Where two conditions are both as wanted: what either leaves out is marked apart, and the others are marked.
    #[cycle(judge_at_judge_both_judge_two)]
    fn judge_both(&self, q: &[u8], z: &[u16], task: Task, marks: &mut [u8])
        requires { (task.level ≤ 65534) × (self.now.walk.count ≤ length marks.old) × J.Bits marks.old }
        ensures { J.Marked (λ i. J.judged_on task.level (drop (first q.now) q.now)
            (drop (first q.now) z.now) self.now.walks.now self.now.values.now self.now.memo.now self.now.walk (eqb task.end 0) i
            && J.judged_on task.level (drop (second q.now z.now) q.now)
            (drop (second q.now z.now) z.now) self.now.walks.now self.now.values.now self.now.memo.now self.now.walk
            (eqb task.end 0) i) self.now.walk.count marks.old marks.new }
    {
        let mut others = [0u8; model::ROWS];
        let end = other(task.end);
        self.judge_two(q, z, Task { end, ..task }, &mut others);
        mark_others(&others, self.walk.count, marks);
    }

    // Where one of two conditions is as wanted: comparisons first, since a row that is marked is not tried again.
    #[cycle(judge_at_judge_both_judge_two)]
    fn judge_two(&self, q: &[u8], z: &[u16], task: Task, marks: &mut [u8])
        requires { (task.level ≤ 65534) × (self.now.walk.count ≤ length marks.old) × J.Bits marks.old }
        ensures { J.Marked (λ i. J.judged_on task.level (drop (first q.now) q.now)
            (drop (first q.now) z.now) self.now.walks.now self.now.values.now self.now.memo.now self.now.walk (eqb task.end 0) i
            || J.judged_on task.level (drop (second q.now z.now) q.now)
            (drop (second q.now z.now) z.now) self.now.walks.now self.now.values.now self.now.memo.now self.now.walk
            (eqb task.end 0) i) self.now.walk.count marks.old marks.new }
    {
        let a = kinds::record_length(kinds::byte(q, 0));
        let b = a + kinds::size_at(z, a);
        let x = kinds::tail(q, a);
        let y = kinds::tail_sizes(z, a);
        let u = kinds::tail(q, b);
        let v = kinds::tail_sizes(z, b);
        if kinds::byte(q, b) == 21 {
            self.judge_at(u, v, task, marks);
            self.judge_at(x, y, task, marks);
            return;
        }
        self.judge_at(x, y, task, marks);
        self.judge_at(u, v, task, marks);
    }

    // Marks the rows with which the condition that q starts with is as wanted.
    #[cycle(judge_at_judge_both_judge_two)]
    fn judge_at(&self, q: &[u8], z: &[u16], task: Task, marks: &mut [u8])
        requires { (task.level ≤ 65535) × (self.now.walk.count ≤ length marks.old) × J.Bits marks.old }
        ensures { J.Marked (J.judged_on task.level q.now z.now self.now.walks.now self.now.values.now self.now.memo.now self.now.walk
            (eqb task.end 0)) self.now.walk.count marks.old marks.new }
    {
        if task.level == 0 {
            self.judge_leaf(q, z, task, marks);
            return;
        }
        let under = Task {
            level: task.level - 1,
            ..task
        };
        match kinds::condition_record(q) {
            ConditionRecord::True => mark_if(task.end == 0, self.walk.count, marks),
            ConditionRecord::Not => {
                let a = kinds::record_length(kinds::byte(q, 0));
                let x = kinds::tail(q, a);
                let y = kinds::tail_sizes(z, a);
                let end = other(task.end);
                self.judge_at(x, y, Task { end, ..under }, marks);
            }
            ConditionRecord::And => {
                if task.end == 0 {
                    self.judge_both(q, z, under, marks);
                } else {
                    self.judge_two(q, z, under, marks);
                }
            }
            ConditionRecord::Or => {
                if task.end == 0 {
                    self.judge_two(q, z, under, marks);
                } else {
                    self.judge_both(q, z, under, marks);
                }
            }
            ConditionRecord::False
            | ConditionRecord::Compare(_)
            | ConditionRecord::Some(_, _)
            | ConditionRecord::Other => self.judge_leaf(q, z, task, marks),
        }
    }
}

// Whether the bytes are one comparison of an attribute of variable 0 with a number.
fn is_short(q: &[u8]) -> bool
    ensures { result ≡ true → J.Short q.now }
{
    if q.len() != 10 {
        return false;
    }
    if kinds::byte(q, 0) != 21 {
        return false;
    }
    if !kinds::is_code(false, kinds::byte(q, 1)) {
        return false;
    }
    if kinds::byte(q, 2) != 33 {
        return false;
    }
    if kinds::byte(q, 3) != 0 {
        return false;
    }
    kinds::byte(q, 5) == 32
}

// The usual permit needs none of the tables.
fn judge_short(q: &[u8], walk: Walk, values: &[i32], marks: &mut [u8]) -> bool
    requires { (walk.count ≤ length marks.old) × Fits walk × J.Bits marks.old }
    ensures marked { result ≡ true → (cb : List ℕ) → J.Marked (λ i. meets_bytes cb values.now q.now
        (J.tuple_of values.now walk i)) walk.count marks.old marks.new }
    ensures marks_unchanged { result ≡ false → marks.new ≡ marks.old }
{
    if !is_short(q) {
        return false;
    }
    let a = kinds::byte(q, 6);
    let b = kinds::byte(q, 7);
    let c = kinds::byte(q, 8);
    let d = kinds::byte(q, 9);
    let x = numbers::whole(kinds::constant(a, b, c, d));
    let operator = kinds::byte(q, 1);
    let attribute = kinds::byte(q, 4);
    mark_against(operator, attribute, x, walk, values, true, marks)
}

// Any condition of a permit, with its tables. Its aggregates are evaluated once.
fn judge_long(q: &[u8], catalogue: &[u8], values: &[i32], walk: Walk, marks: &mut [u8])
    requires { (walk.count ≤ 1024) × (walk.count ≤ length marks.old) × Fits walk × J.Bits marks.old }
    ensures { J.Marked (λ i. meets_bytes catalogue.now values.now q.now
        (J.tuple_of values.now walk i)) walk.count marks.old marks.new }
{
    let mut z = [0u16; model::PERMIT_BYTES];
    let mut none = [0u16; 1];
    conditions::condition(q, &mut z, 0, LEVELS, catalogue, 0, &mut none);
    let mut walks = [0u16; 8 * VARIABLES];
    allrows::fill(q, catalogue, &mut walks);
    let mut env = [values.len(); 256];
    let mut memo = [0i64; 2 * VARIABLES];
    aggregates::condition(q, &z, LEVELS, &walks, values, &mut env, &mut memo);
    let judging = Judging {
        walk,
        walks: &walks,
        values,
        memo: &memo,
    };
    let task = Task {
        level: LEVELS,
        end: 0,
    };
    judging.judge_at(q, &z, task, marks);
}

// Marks the rows of a relation that meet the condition of a permit.
pub(crate) fn judge(q: &[u8], catalogue: &[u8], values: &[i32], relation: u8, marks: &mut [u8])
    requires { (rows_of catalogue.now relation ≤ 1024) × (rows_of catalogue.now relation ≤ length marks.old) × J.Bits marks.old }
    ensures { J.Marked (λ i. meets_bytes catalogue.now values.now q.now
        (row_of catalogue.now values.now relation i)) (rows_of catalogue.now relation) marks.old
        marks.new }
{
    let walk = allrows::whole(catalogue, relation);
    if judge_short(q, walk, values, marks) {
        return;
    }
    judge_long(q, catalogue, values, walk, marks);
}
