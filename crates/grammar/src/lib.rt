// Well-formedness of whole queries and permit lists, nested as deep as the bytes allow. Conditions that are still to be read are counted, so that only
// an aggregate takes a level of the stack: 240 bytes for each 7 of the input.
#![tactic(auto)]

ghost use Rattle.std.specs.Prelude.{◌≡◌, ◌≤◌, cond, not};
ghost use Rattle.model.specs.Encoding.{failed, permits_read};
ghost use Rattle.model.specs.Checks.{fails20};
ghost use Rattle.kinds.specs.Tables.{conditions_of};
ghost use Rattle.kinds.specs.Places.{is_condition, is_term};
ghost use Rattle.grammar.specs.Sizes.{condition_size, term_size, permit_size, many, head_size};
ghost use Rattle.grammar.specs.Shapes.{is_target, ranges_part, targets_part, shape_of, shape_within, fails30_at, number_of, refused_as};

use kinds::{ConditionRecord, HeadRecord, PermitRecord, TermRecord};

fn is_condition(r: ConditionRecord) -> bool
    ensures { result ≡ is_condition r }
{
    match r {
        ConditionRecord::True
        | ConditionRecord::False
        | ConditionRecord::Not
        | ConditionRecord::And
        | ConditionRecord::Or
        | ConditionRecord::Some(_, _) => true,
        ConditionRecord::Compare(o) => kinds::is_code(false, o),
        ConditionRecord::Other => false,
    }
}

fn is_term(r: TermRecord) -> bool
    ensures { result ≡ is_term r }
{
    match r {
        TermRecord::Constant(_, _, _, _) | TermRecord::Attribute(_, _) => true,
        TermRecord::Aggregate(f, _, _, _) => kinds::is_code(true, f),
        TermRecord::Other => false,
    }
}

// How many conditions follow a record as its children.
fn children(kind: u8) -> usize
    ensures { (result ≡ conditions_of kind) × (result ≤ 2) }
{
    usize::from(kinds::child_counts(kind).conditions)
}

// The bytes of n conditions, one after the other.
#[cycle(conditions_head_term)]
fn conditions(q: &[u8], n: u8) -> Option<usize>
    ensures { result ≡ many condition_size n q.now }
{
    let mut at = 0;
    let mut pending = usize::from(n);
    while 0 < pending {
        let rest = kinds::tail(q, at);
        let m = head(rest)?;
        pending = pending - 1 + children(kinds::byte(rest, 0));
        at += m;
    }
    Some(at)
}

// The first record of a condition, and the terms that are its children.
#[cycle(conditions_head_term)]
fn head(q: &[u8]) -> Option<usize>
    ensures { result ≡ head_size q.now }
{
    if !is_condition(kinds::condition_record(q)) {
        return None;
    }
    let k = kinds::byte(q, 0);
    let mut at = kinds::record_length(k);
    for _ in 0..kinds::child_counts(k).terms {
        at += term(kinds::tail(q, at))?;
    }
    Some(at)
}

// The term that q starts with.
#[cycle(conditions_head_term)]
fn term(q: &[u8]) -> Option<usize>
    ensures { result ≡ term_size q.now }
{
    if !is_term(kinds::term_record(q)) {
        return None;
    }
    let k = kinds::byte(q, 0);
    let a = kinds::record_length(k);
    let n = conditions(kinds::tail(q, a), kinds::child_counts(k).conditions)?;
    Some(a + n)
}

// The condition that q starts with.
fn condition(q: &[u8]) -> Option<usize>
    ensures { result ≡ condition_size q.now }
{
    conditions(q, 1)
}

// The permit that a list starts with.
fn permit(q: &[u8]) -> Option<usize>
    ensures { result ≡ permit_size q.now }
{
    let PermitRecord::Permit(_, _) = kinds::permit_record(q) else {
        return None;
    };
    let start = kinds::record_length(kinds::byte(q, 0));
    let n = condition(kinds::tail(q, start))?;
    Some(start + n)
}

// Whether a list of permits is well formed.
fn permits(bytes: &[u8]) -> bool
    ensures { result ≡ not (failed (permits_read bytes.now)) }
{
    let mut at = 0;
    while at < bytes.len() {
        let Some(n) = permit(kinds::tail(bytes, at)) else {
            return false;
        };
        at += n;
    }
    true
}

// 20: over 2,048 bytes or not well formed.
fn permits_refused(bytes: &[u8]) -> bool
    ensures { result ≡ fails20 bytes.now }
{
    model::LIST_BYTES < bytes.len() || !permits(bytes)
}

// The RANGE records that q starts with: how many, and their bytes.
fn ranges(q: &[u8]) -> Option<(usize, usize)>
    ensures { result ≡ ranges_part q.now }
{
    let mut at = 0;
    let mut n = 0;
    while kinds::byte(q, at) == 1 {
        let HeadRecord::Range(_, _) = kinds::head_record(kinds::tail(q, at)) else {
            return None;
        };
        at += kinds::record_length(1);
        n += 1;
    }
    Some((n, at))
}

fn is_target(kind: u8) -> bool
    ensures { result ≡ is_target kind }
{
    kind == 33 || kind == 34
}

// The targets that q starts with: how many, and their bytes.
fn targets(q: &[u8]) -> Option<(usize, usize)>
    ensures { result ≡ targets_part q.now }
{
    let mut at = 0;
    let mut n = 0;
    while is_target(kinds::byte(q, at)) {
        at += term(kinds::tail(q, at))?;
        n += 1;
    }
    Some((n, at))
}

// A well-formed query: how many RANGEs and targets, and where the first target and the final condition start.
#[derive(Clone, Copy)]
pub struct Layout {
    pub ranges: usize,
    pub targets: usize,
    pub first: usize,
    pub condition: usize,
}

// RANGE records, at least one target, one condition, and no byte more.
fn query(q: &[u8]) -> Option<Layout>
    ensures { result ≡ shape_of q.now }
{
    let (n, a) = ranges(q)?;
    let (m, b) = targets(kinds::tail(q, a))?;
    if m == 0 {
        return None;
    }
    let c = condition(kinds::tail(q, a + b))?;
    if a + b + c != q.len() {
        return None;
    }
    Some(Layout {
        ranges: n,
        targets: m,
        first: a,
        condition: a + b,
    })
}

// The same, of at most so many bytes: a longer query is not looked at. The number of each case is 30's.
fn query_within(q: &[u8], limit: usize) -> Option<Layout>
    ensures value { result ≡ shape_within limit q.now }
    ensures result_value { number_of result ≡ cond (fails30_at limit q.now) 30 0 }
{
    if limit < q.len() { None } else { query(q) }
}

// What bytes are read as.
#[derive(Clone, Copy)]
pub enum Input {
    // a query of at most so many bytes
    Query(usize),
    Permits,
}

// Whether bytes are too many or not well formed, at any depth: 30 of a query, 20 of permits.
pub fn refused(bytes: &[u8], input: Input) -> bool
    ensures { result ≡ refused_as input bytes.now }
{
    match input {
        Input::Query(limit) => query_within(bytes, limit).is_none(),
        Input::Permits => permits_refused(bytes),
    }
}
