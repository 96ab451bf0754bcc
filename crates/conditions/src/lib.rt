// The one reader of conditions and terms, of at most so many levels: sizes go into the table, and variables, relations and attributes are held to
// their scope. What is out of scope is read on, so that the answer says both: whether it can be read, and whether it is in scope.
#![tactic(auto)]

pub mod scope;

ghost use Rattle.std.specs.Prelude.{◌≡◌, true, false, ◌+◌, ◌≤◌, ◌<◌, length, drop};
ghost use Rattle.sizes.specs.Measured.{store, leaves, condition_table, term_table};
ghost use Rattle.conditions.specs.Reach.{scope_of, shape_in};
ghost use Rattle.conditions.specs.Answers.{told, reading, grown, bytes_of, kept, condition_reading, term_reading};
ghost use Rattle.conditions.specs.Answers.{some_reading, aggregate_reading, conditions_reading, terms_reading, size_of, two_measured};

use kinds::{ConditionRecord, TermRecord};

// What was read: its bytes, and whether it is in scope. None where it is not well formed, or nested deeper.
#[derive(Clone, Copy)]
pub struct Reading {
    pub length: usize,
    pub inside: bool,
}

// The same as the functions here hand it up: a number of bytes in scope or out of it, which fits two registers. A struct with a flag in an Option goes
// through memory at every record, with its padding.
#[derive(Clone, Copy)]
enum Part {
    Inside(usize),
    Outside(usize),
    Unread,
}

impl Part {
    ghost use Rattle.conditions.specs.Answers.{told};

    fn of(length: usize, inside: bool) -> Part
        ensures { told result ≡ reading length inside }
    {
        if inside {
            Part::Inside(length)
        } else {
            Part::Outside(length)
        }
    }

    fn reading(self) -> Option<Reading>
        ensures { result ≡ told self }
    {
        match self {
            Part::Inside(length) => Some(Reading {
                length,
                inside: true,
            }),
            Part::Outside(length) => Some(Reading {
                length,
                inside: false,
            }),
            Part::Unread => None,
        }
    }
}

// Keeps a size in the table.
fn put(z: &mut [u16], at: usize, n: usize)
    ensures { z.new ≡ store z.old at n }
{
    if n < 65536 && at < z.len() {
        z[at] = n as u16;
    }
}

// Keeps the size of a record with no child.
fn leaf(z: &mut [u16], at: usize, length: usize, inside: bool) -> Part
    ensures value { told result ≡ reading length inside }
    ensures z_after { z.new ≡ store z.old at length }
{
    put(z, at, length);
    Part::of(length, inside)
}

// Keeps the size of a record of so many bytes with what was read of its children.
fn parent(z: &mut [u16], at: usize, own: usize, children: Part) -> Part
    requires { own + bytes_of (told children) < 9223372036854775808 }
    ensures value { told result ≡ grown own (told children) }
    ensures z_after { z.new ≡ kept at own (told children) z.old }
{
    match children {
        Part::Inside(n) => leaf(z, at, own + n, true),
        Part::Outside(n) => leaf(z, at, own + n, false),
        Part::Unread => Part::Unread,
    }
}

// The condition at a place.
#[cycle(aggregate_condition_conditions_some_term_terms)]
fn condition_at(
    q: &[u8],
    z: &mut [u16],
    at: usize,
    level: usize,
    catalogue: &[u8],
    limit: u8,
    reach: &mut [u16],
) -> Part
    requires { (at ≤ length q.now) × (limit ≤ length reach.old) }
    ensures value { told result ≡ condition_reading (shape_in catalogue.now) limit level (scope_of reach.old) (drop at q.now) }
    ensures z_after { z.new ≡ condition_table level q.now at z.old }
    ensures reach_unchanged { reach.new ≡ reach.old }
{
    if level == 0 {
        return Part::Unread;
    }
    let l = level - 1;
    match kinds::condition_record(kinds::tail(q, at)) {
        ConditionRecord::True | ConditionRecord::False => leaf(
            z,
            at,
            kinds::record_length(16),
            true,
        ),
        ConditionRecord::Not => {
            let a = kinds::record_length(18);
            let inner = condition_at(q, z, at + a, l, catalogue, limit, reach);
            parent(z, at, a, inner)
        }
        ConditionRecord::And | ConditionRecord::Or => {
            let a = kinds::record_length(19);
            let inner = conditions(q, z, at + a, l, catalogue, limit, reach);
            parent(z, at, a, inner)
        }
        ConditionRecord::Compare(o) => {
            if !kinds::is_code(false, o) {
                return Part::Unread;
            }
            let a = kinds::record_length(21);
            let inner = terms(q, z, at + a, l, catalogue, limit, reach);
            parent(z, at, a, inner)
        }
        ConditionRecord::Some(v, r) => {
            let a = kinds::record_length(22);
            let under = Under {
                at: at + a,
                level: l,
                variable: v,
            };
            let inner = some(q, z, under, catalogue, limit, reach, r);
            parent(z, at, a, inner)
        }
        ConditionRecord::Other => Part::Unread,
    }
}

// Two conditions, one after the other.
#[cycle(aggregate_condition_conditions_some_term_terms)]
fn conditions(
    q: &[u8],
    z: &mut [u16],
    at: usize,
    level: usize,
    catalogue: &[u8],
    limit: u8,
    reach: &mut [u16],
) -> Part
    requires { (at ≤ length q.now) × (limit ≤ length reach.old) }
    ensures value { told result ≡ conditions_reading (shape_in catalogue.now) limit level (scope_of reach.old) (drop at q.now) }
    ensures z_after { leaves (size_of (told result)) z.new ≡ two_measured false level q.now at z.old }
    ensures reach_unchanged { reach.new ≡ reach.old }
{
    let Some(first) = condition_at(q, z, at, level, catalogue, limit, reach).reading() else {
        return Part::Unread;
    };
    let n = first.length;
    let Some(second) = condition_at(q, z, at + n, level, catalogue, limit, reach).reading() else {
        return Part::Unread;
    };
    Part::of(n + second.length, first.inside & second.inside)
}

// Two terms, one after the other.
#[cycle(aggregate_condition_conditions_some_term_terms)]
fn terms(
    q: &[u8],
    z: &mut [u16],
    at: usize,
    level: usize,
    catalogue: &[u8],
    limit: u8,
    reach: &[u16],
) -> Part
    requires { at ≤ length q.now }
    ensures value { told result ≡ terms_reading (shape_in catalogue.now) limit level (scope_of reach.now) (drop at q.now) }
    ensures z_after { leaves (size_of (told result)) z.new ≡ two_measured true level q.now at z.old }
{
    let Some(first) = term_at(q, z, at, level, catalogue, limit, reach).reading() else {
        return Part::Unread;
    };
    let n = first.length;
    let Some(second) = term_at(q, z, at + n, level, catalogue, limit, reach).reading() else {
        return Part::Unread;
    };
    Part::of(n + second.length, first.inside & second.inside)
}

// The condition under a SOME or an aggregate: where it stands, the level down to which it is read, and the variable that is bound.
#[derive(Clone, Copy)]
struct Under {
    at: usize,
    level: usize,
    variable: u8,
}

// The condition under SOME: its variable is in reach there, and as it was afterwards.
#[cycle(aggregate_condition_conditions_some_term_terms)]
fn some(
    q: &[u8],
    z: &mut [u16],
    under: Under,
    catalogue: &[u8],
    limit: u8,
    reach: &mut [u16],
    relation: u8,
) -> Part
    requires { (under.at ≤ length q.now) × (limit ≤ length reach.old) }
    ensures value { told result ≡ some_reading (shape_in catalogue.now) limit under.level (record { variable = under.variable; relation = relation })
        (scope_of reach.old) (drop under.at q.now) }
    ensures z_after { z.new ≡ condition_table under.level q.now under.at z.old }
    ensures reach_unchanged { reach.new ≡ reach.old }
{
    let old = scope::entry(reach, under.variable);
    scope::bind(reach, under.variable, relation);
    let inner = condition_at(q, z, under.at, under.level, catalogue, limit, reach);
    scope::put(reach, under.variable, old);
    let known = scope::known(catalogue, limit, under.variable, relation);
    let Some(r) = inner.reading() else {
        return Part::Unread;
    };
    Part::of(r.length, known & r.inside)
}

// The condition under an aggregate: of the variables in reach only its own reaches it.
#[cycle(aggregate_condition_conditions_some_term_terms)]
fn aggregate(
    q: &[u8],
    z: &mut [u16],
    under: Under,
    catalogue: &[u8],
    limit: u8,
    relation: u8,
    attribute: u8,
) -> Part
    requires { (under.at ≤ length q.now) × (under.variable < 256) }
    ensures value { told result ≡ aggregate_reading (shape_in catalogue.now) limit under.level (record { variable = under.variable; relation = relation })
        attribute (drop under.at q.now) }
    ensures z_after { z.new ≡ condition_table under.level q.now under.at z.old }
{
    let mut inner = [0u16; 256];
    scope::bind(&mut inner, under.variable, relation);
    let read = condition_at(q, z, under.at, under.level, catalogue, limit, &mut inner);
    let Some(r) = read.reading() else {
        return Part::Unread;
    };
    let has = scope::has(catalogue, usize::from(relation), attribute);
    let known = scope::known(catalogue, limit, under.variable, relation);
    Part::of(r.length, known & (has & r.inside))
}

// The term at a place.
#[cycle(aggregate_condition_conditions_some_term_terms)]
fn term_at(
    q: &[u8],
    z: &mut [u16],
    at: usize,
    level: usize,
    catalogue: &[u8],
    limit: u8,
    reach: &[u16],
) -> Part
    requires { at ≤ length q.now }
    ensures value { told result ≡ term_reading (shape_in catalogue.now) limit level (scope_of reach.now) (drop at q.now) }
    ensures z_after { z.new ≡ term_table level q.now at z.old }
{
    if level == 0 {
        return Part::Unread;
    }
    match kinds::term_record(kinds::tail(q, at)) {
        TermRecord::Constant(_, _, _, _) => leaf(z, at, kinds::record_length(32), true),
        TermRecord::Attribute(v, a) => {
            let inside = scope::attribute(catalogue, reach, v, a);
            leaf(z, at, kinds::record_length(33), inside)
        }
        TermRecord::Aggregate(f, v, r, a) => {
            if !kinds::is_code(true, f) {
                return Part::Unread;
            }
            let k = kinds::record_length(34);
            let under = Under {
                at: at + k,
                level: level - 1,
                variable: v,
            };
            let inner = aggregate(q, z, under, catalogue, limit, r, a);
            parent(z, at, k, inner)
        }
        TermRecord::Other => Part::Unread,
    }
}

// The condition at a place: what was read of it, and its sizes in the table.
pub fn condition(
    q: &[u8],
    z: &mut [u16],
    at: usize,
    level: usize,
    catalogue: &[u8],
    limit: u8,
    reach: &mut [u16],
) -> Option<Reading>
    requires { (at ≤ length q.now) × (limit ≤ length reach.old) }
    ensures value { result ≡ condition_reading (shape_in catalogue.now) limit level (scope_of reach.old) (drop at q.now) }
    ensures z_after { z.new ≡ condition_table level q.now at z.old }
    ensures reach_unchanged { reach.new ≡ reach.old }
{
    condition_at(q, z, at, level, catalogue, limit, reach).reading()
}

// The same of a term.
pub fn term(
    q: &[u8],
    z: &mut [u16],
    at: usize,
    level: usize,
    catalogue: &[u8],
    limit: u8,
    reach: &[u16],
) -> Option<Reading>
    requires { at ≤ length q.now }
    ensures value { result ≡ term_reading (shape_in catalogue.now) limit level (scope_of reach.now) (drop at q.now) }
    ensures z_after { z.new ≡ term_table level q.now at z.old }
{
    term_at(q, z, at, level, catalogue, limit, reach).reading()
}
