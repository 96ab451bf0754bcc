// Flat loops over the records of a query or a condition. A record's kind fixes its length and children follow their parent,
// so that a walk from record to record meets them all, at any depth, with no recursion.
#![tactic(auto)]

ghost use Rattle.std.specs.Prelude.{◌≡◌, true, false, ◌&&◌, List, ◌∷◌, ℕ, ◌≤◌, length, drop};
ghost use Rattle.std.specs.Iterator.{YieldsFirstRef, YieldsFirstBy, item_count};
ghost use Rattle.model.specs.Lists.{unique, cons_if};
ghost use Rattle.model.specs.Syntax.{variables};
ghost use Rattle.kinds.specs.Record.{record_at};
ghost use Rattle.scans.specs.Flat.{left_of, binding_of, flat_bindings, bindings_left, is_binding, bindings_of, bound_by, fresh};

use kinds::Record;

// The records of a query or a condition, one after the other, each as the bytes from it on.
#[derive(Clone, Copy)]
pub struct Records<'a> {
    rest: &'a [u8],
}

impl<'a> Records<'a> {
    pub fn of(q: &'a [u8]) -> Records<'a>
        ensures { result.rest.now ≡ q.now }
    {
        Records { rest: q }
    }
}

impl<'a> Iterator for Records<'a> {
    type Item = &'a [u8];

    ghost next_gives = { YieldsFirstRef left_of };

    ghost remaining = { item_count left_of };

    fn next(&mut self) -> Option<&'a [u8]> {
        let record = self.rest;
        let kind = *record.first()?;
        self.rest = &record[kinds::record_length(kind).min(record.len())..];
        Some(record)
    }
}

// A variable that a record binds, and the relation it is over.
#[derive(Clone, Copy)]
pub struct BoundVariable {
    pub variable: u8,
    pub relation: u8,
}

impl BoundVariable {
    // What a record binds.
    fn read(bytes: &[u8]) -> Option<BoundVariable>
        ensures { bound_by result ≡ binding_of (record_at bytes.now) }
    {
        if !may_bind(kinds::byte(bytes, 0)) {
            return None;
        }
        match kinds::read(bytes) {
            Record::Range(variable, relation)
            | Record::Some(variable, relation)
            | Record::Aggregate(_, variable, relation, _) => Some(BoundVariable {
                variable,
                relation,
            }),
            _ => None,
        }
    }
}

// What the record at a place binds.
pub fn binding(q: &[u8], at: usize) -> Option<BoundVariable>
    ensures { bound_by result ≡ binding_of (record_at (drop at q.now)) }
{
    BoundVariable::read(kinds::tail(q, at))
}

// What the records of a query or a condition bind, in byte order.
#[derive(Clone, Copy)]
pub struct BoundVariables<'a> {
    records: Records<'a>,
}

impl<'a> BoundVariables<'a> {
    pub fn of(q: &'a [u8]) -> BoundVariables<'a>
        ensures { bindings_left result ≡ flat_bindings q.now }
    {
        BoundVariables {
            records: Records::of(q),
        }
    }
}

impl<'a> Iterator for BoundVariables<'a> {
    type Item = BoundVariable;

    ghost next_gives = { YieldsFirstBy is_binding bindings_left };

    ghost remaining = { item_count bindings_left };

    fn next(&mut self) -> Option<BoundVariable> {
        while let Some(bytes) = self.records.next() {
            if let Some(bound) = BoundVariable::read(bytes) {
                return Some(bound);
            }
        }
        None
    }
}

// How many variables are bound, and whether no number is bound twice.
#[derive(Clone, Copy)]
pub struct Bindings {
    pub count: usize,
    pub once: bool,
}

// The kinds that bind a variable: most records need not be read.
fn may_bind(kind: u8) -> bool
    ensures { result ≡ false → (kind ≡ 1 → ⊥) × (kind ≡ 22 → ⊥) × (kind ≡ 34 → ⊥) }
{
    matches!(kind, 1 | 22 | 34)
}

// How many variables are bound.
fn count_bindings(q: &[u8]) -> usize
    ensures { result ≡ length (flat_bindings q.now) }
{
    BoundVariables::of(q).count()
}

// Marks a bound variable, unless it is marked already.
fn mark(seen: &mut [u8], variable: u8) -> bool
    requires { length seen.old ≡ 256 }
    ensures { (xs : List ℕ) → fresh seen.old (variable ∷ xs) ≡ (result && fresh seen.new xs) }
{
    let i = usize::from(variable);
    if seen[i] == 1 {
        return false;
    }
    seen[i] = 1;
    true
}

// Whether no bound variable is marked, or bound twice.
fn all_fresh(q: &[u8], seen: &mut [u8]) -> bool
    requires { length seen.old ≡ 256 }
    ensures { result ≡ fresh seen.old (variables (flat_bindings q.now)) }
{
    for b in BoundVariables::of(q) {
        if !mark(seen, b.variable) {
            return false;
        }
    }
    true
}

// Whether so many numbers are too few for one to stand twice.
fn few(zero: bool, bound: usize) -> bool
    ensures { result ≡ true → (zero ≡ true → bound ≡ 0) × (zero ≡ false → bound ≤ 1) }
{
    if zero { bound == 0 } else { bound <= 1 }
}

// Whether no number is bound twice; so many are bound.
fn once(q: &[u8], zero: bool, bound: usize) -> bool
    requires { bound ≡ length (flat_bindings q.now) }
    ensures { result ≡ unique (cons_if zero 0 (variables (flat_bindings q.now))) }
{
    if few(zero, bound) {
        return true;
    }
    let mut seen = [0u8; 256];
    seen[0] = zero as u8;
    all_fresh(q, &mut seen)
}

// What the records of a query or a condition bind; `zero`: variable 0 counts as bound.
pub fn tally(q: &[u8], zero: bool) -> Bindings
    ensures { result ≡ bindings_of zero q.now }
{
    let count = count_bindings(q);
    let once = once(q, zero, count);
    Bindings { count, once }
}
