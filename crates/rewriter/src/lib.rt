// The rewriting: a query's bytes written anew, with guards after the conditions of its bindings.
#![tactic(auto)]

mod guard;

ghost use Rattle.std.specs.Prelude.{◌≡◌, List, [], ◌∷◌, ◌++◌, ℕ, ◌+◌, ◌≤◌, ◌<◌, length, drop, get_or};
ghost use Rattle.std.proofs.lemmas.List.Edits.{sets};
ghost use Rattle.sizes.specs.Decode.{first, second};
ghost use Rattle.copier.specs.Copied.{record_bytes};
ghost use Rattle.model.specs.Encoding.{encode_ranges};
ghost use Rattle.sizes.specs.Parts.{targets_at};
ghost use Rattle.queries.specs.Found.{head_ranges};
ghost use Rattle.rewriter.specs.Parts.{query_read, targets_bytes, targets_new, openings, range_guards, query_bytes, query_new};
ghost use Rattle.rewriter.specs.Rewritten.{masks_in, part_in, places_in, new_of, condition_bytes, condition_new, term_bytes, term_new};
ghost use Rattle.rewriter.specs.Applying.{masks_by, conditions_by};
ghost use Rattle.rewriter.specs.Rewritten.{both_bytes, both_new, under_bytes, under_new, Room, After};

use grammar::Layout;
use guard::Written;
use kinds::{ConditionRecord, HeadRecord, Record, TermRecord};

// A table of applying permits: so many numbers say where the permits' conditions stand, then each variable has a mask.
pub const PLACES: usize = 2 * model::PERMITS;

// The bytes of the permits' conditions, and the table that says where each one stands and which of them apply to a variable.
#[derive(Clone, Copy)]
pub struct Applying<'a> {
    pub permits: &'a [u8],
    pub table: &'a [u16],
}

impl<'a> Applying<'a> {
    // The permits that apply to a variable.
    pub fn mask(&self, variable: u8) -> usize
        ensures value { result ≡ get_or (masks_by self.now) variable 0 }
        ensures upper_bound { result ≤ 65535 }
    {
        kinds::size_at(self.table, PLACES + usize::from(variable))
    }

    // The bytes of permit k's condition.
    pub fn condition(&self, k: usize) -> &'a [u8]
        requires { k ≤ 65535 }
        ensures { result.now ≡ conditions_by self.now k }
    {
        let rest = kinds::tail(self.permits, self.place(2 * k));
        &rest[..self.place(2 * k + 1).min(rest.len())]
    }

    // One of the numbers that say where the conditions stand.
    fn place(&self, i: usize) -> usize
        ensures { result ≡ get_or (places_in self.now.table.now) i 0 }
    {
        if i < PLACES {
            kinds::size_at(self.table, i)
        } else {
            0
        }
    }
}

// A record, at the start of the bytes, with their table of sizes.
#[derive(Clone, Copy)]
struct Part<'a> {
    q: &'a [u8],
    z: &'a [u16],
}

impl<'a> Part<'a> {
    // What stands from a place on.
    fn from(&self, at: usize) -> Part<'a>
        ensures bytes { result.q.now ≡ drop at self.now.q.now }
        ensures sizes { result.z.now ≡ drop at self.now.z.now }
    {
        Part {
            q: kinds::tail(self.q, at),
            z: kinds::tail_sizes(self.z, at),
        }
    }

    fn first_child(&self) -> Part<'a>
        ensures bytes { result.q.now ≡ drop (first self.now.q.now) self.now.q.now }
        ensures sizes { result.z.now ≡ drop (first self.now.q.now) self.now.z.now }
    {
        self.from(kinds::record_length(kinds::byte(self.q, 0)))
    }

    fn second_child(&self) -> Part<'a>
        ensures bytes { result.q.now ≡ drop (second self.now.q.now self.now.z.now) self.now.q.now }
        ensures sizes { result.z.now ≡ drop (second self.now.q.now self.now.z.now) self.now.z.now }
    {
        let a = kinds::record_length(kinds::byte(self.q, 0));
        self.from(a + kinds::size_at(self.z, a))
    }
}

// Writes a record with no child.
fn leaf(out: &mut [u8], to: Written, item: Record) -> Written
    requires { to.at + length (record_bytes item) < 9223372036854775808 }
    ensures at_value { (result.at ≡ to.at + length (record_bytes item)) × (result.next ≡ to.next) }
    ensures out_after { out.new ≡ sets out.old to.at (record_bytes item) }
{
    let at = copier::put_record(out, to.at, item);
    Written { at, ..to }
}

// Writes the condition that q and its table stand for.
#[cycle(condition_conditions_term_terms_under)]
fn condition(part: &Part, level: usize, applying: &Applying, out: &mut [u8], to: Written) -> Written
    requires { Room to.at to.next (condition_bytes (masks_by applying.now) (conditions_by applying.now) level part.now.q.now part.now.z.now to.next)
        (condition_new (masks_by applying.now) (conditions_by applying.now) level part.now.q.now part.now.z.now) }
    ensures after { After to.at to.next (condition_bytes (masks_by applying.now) (conditions_by applying.now) level
        part.now.q.now part.now.z.now to.next) (condition_new (masks_by applying.now) (conditions_by applying.now)
        level part.now.q.now part.now.z.now) result.at result.next }
    ensures out_after { out.new ≡ sets out.old to.at (condition_bytes (masks_by applying.now)
        (conditions_by applying.now) level part.now.q.now part.now.z.now to.next) }
{
    if level == 0 {
        return leaf(out, to, Record::False);
    }
    match kinds::condition_record(part.q) {
        ConditionRecord::True => leaf(out, to, Record::True),
        ConditionRecord::Not => {
            let at = copier::put(out, to.at, 18);
            let child = part.first_child();
            condition(&child, level - 1, applying, out, Written { at, ..to })
        }
        ConditionRecord::And => {
            let at = copier::put(out, to.at, 19);
            conditions(part, level - 1, applying, out, Written { at, ..to })
        }
        ConditionRecord::Or => {
            let at = copier::put(out, to.at, 20);
            conditions(part, level - 1, applying, out, Written { at, ..to })
        }
        ConditionRecord::Compare(o) => {
            let at = copier::put_record(out, to.at, Record::Compare(o));
            terms(part, level - 1, applying, out, Written { at, ..to })
        }
        ConditionRecord::Some(v, r) => {
            let at = copier::put_record(out, to.at, Record::Some(v, r));
            under(part, level - 1, applying, out, Written { at, ..to }, v)
        }
        ConditionRecord::False | ConditionRecord::Other => leaf(out, to, Record::False),
    }
}

// Writes the term that q and its table stand for.
#[cycle(condition_conditions_term_terms_under)]
fn term(part: &Part, level: usize, applying: &Applying, out: &mut [u8], to: Written) -> Written
    requires { Room to.at to.next (term_bytes (masks_by applying.now) (conditions_by applying.now) level part.now.q.now part.now.z.now to.next)
        (term_new (masks_by applying.now) (conditions_by applying.now) level part.now.q.now part.now.z.now) }
    ensures after { After to.at to.next (term_bytes (masks_by applying.now) (conditions_by applying.now) level
        part.now.q.now part.now.z.now to.next) (term_new (masks_by applying.now) (conditions_by applying.now) level
        part.now.q.now part.now.z.now) result.at result.next }
    ensures out_after { out.new ≡ sets out.old to.at
        (term_bytes (masks_by applying.now) (conditions_by applying.now) level part.now.q.now part.now.z.now
        to.next) }
{
    if level == 0 {
        return leaf(out, to, Record::Constant(0, 0, 0, 0));
    }
    match kinds::term_record(part.q) {
        TermRecord::Constant(a, b, c, d) => leaf(out, to, Record::Constant(a, b, c, d)),
        TermRecord::Attribute(v, a) => leaf(out, to, Record::Attribute(v, a)),
        TermRecord::Aggregate(f, v, r, a) => {
            let at = copier::put_record(out, to.at, Record::Aggregate(f, v, r, a));
            under(part, level - 1, applying, out, Written { at, ..to }, v)
        }
        TermRecord::Other => leaf(out, to, Record::Constant(0, 0, 0, 0)),
    }
}

// Writes both children of a record, conditions.
#[cycle(condition_conditions_term_terms_under)]
fn conditions(
    part: &Part,
    level: usize,
    applying: &Applying,
    out: &mut [u8],
    to: Written,
) -> Written
    requires { Room to.at to.next (both_bytes (condition_bytes (masks_by applying.now) (conditions_by applying.now) level)
        (condition_new (masks_by applying.now) (conditions_by applying.now) level) part.now.q.now part.now.z.now to.next)
        (both_new (condition_new (masks_by applying.now) (conditions_by applying.now) level) part.now.q.now part.now.z.now) }
    ensures after { After to.at to.next (both_bytes (condition_bytes (masks_by applying.now) (conditions_by applying.now)
        level) (condition_new (masks_by applying.now) (conditions_by applying.now) level) part.now.q.now
        part.now.z.now to.next) (both_new (condition_new (masks_by applying.now) (conditions_by applying.now) level)
        part.now.q.now part.now.z.now) result.at result.next }
    ensures out_after { out.new ≡ sets out.old to.at
        (both_bytes (condition_bytes (masks_by applying.now) (conditions_by applying.now) level)
        (condition_new (masks_by applying.now) (conditions_by applying.now) level) part.now.q.now part.now.z.now
        to.next) }
{
    let x = part.first_child();
    let w = condition(&x, level, applying, out, to);
    let y = part.second_child();
    condition(&y, level, applying, out, w)
}

// Writes both children of a record, terms.
#[cycle(condition_conditions_term_terms_under)]
fn terms(part: &Part, level: usize, applying: &Applying, out: &mut [u8], to: Written) -> Written
    requires { Room to.at to.next (both_bytes (term_bytes (masks_by applying.now) (conditions_by applying.now) level)
        (term_new (masks_by applying.now) (conditions_by applying.now) level) part.now.q.now part.now.z.now to.next)
        (both_new (term_new (masks_by applying.now) (conditions_by applying.now) level) part.now.q.now part.now.z.now) }
    ensures after { After to.at to.next (both_bytes (term_bytes (masks_by applying.now) (conditions_by applying.now)
        level) (term_new (masks_by applying.now) (conditions_by applying.now) level) part.now.q.now
        part.now.z.now to.next) (both_new (term_new (masks_by applying.now) (conditions_by applying.now) level)
        part.now.q.now part.now.z.now) result.at result.next }
    ensures out_after { out.new ≡ sets out.old to.at
        (both_bytes (term_bytes (masks_by applying.now) (conditions_by applying.now) level)
        (term_new (masks_by applying.now) (conditions_by applying.now) level) part.now.q.now part.now.z.now
        to.next) }
{
    let x = part.first_child();
    let w = term(&x, level, applying, out, to);
    let y = part.second_child();
    term(&y, level, applying, out, w)
}

// Writes the condition under a binding: its variable's guard follows it.
#[cycle(condition_conditions_term_terms_under)]
fn under(
    part: &Part,
    level: usize,
    applying: &Applying,
    out: &mut [u8],
    to: Written,
    variable: u8,
) -> Written
    requires { Room to.at to.next (under_bytes (masks_by applying.now) (conditions_by applying.now) variable level part.now.q.now part.now.z.now to.next)
        (under_new (masks_by applying.now) (conditions_by applying.now) variable level part.now.q.now part.now.z.now) }
    ensures after { After to.at to.next (under_bytes (masks_by applying.now) (conditions_by applying.now) variable
        level part.now.q.now part.now.z.now to.next) (under_new (masks_by applying.now)
        (conditions_by applying.now) variable level part.now.q.now part.now.z.now) result.at result.next }
    ensures out_after { out.new ≡ sets out.old to.at (under_bytes (masks_by applying.now)
        (conditions_by applying.now) variable level part.now.q.now part.now.z.now to.next) }
{
    let m = applying.mask(variable);
    let at = guard::open_guard(out, to.at, m);
    let child = part.first_child();
    let w = condition(&child, level, applying, out, Written { at, ..to });
    guard::write_guard(out, w, applying, m, variable)
}

// Writes the RANGE records that q starts with, at most so many.
fn ranges(q: &[u8], left: usize, out: &mut [u8], at: usize) -> usize
    requires { at + length (encode_ranges (head_ranges left q.now) []) < 9223372036854775808 }
    ensures value { result ≡ at + length (encode_ranges (head_ranges left q.now) []) }
    ensures out_after { out.new ≡ sets out.old at (encode_ranges (head_ranges left q.now) []) }
{
    if left == 0 {
        return at;
    }
    let HeadRecord::Range(variable, relation) = kinds::head_record(q) else {
        return at;
    };
    let p = copier::put_record(out, at, Record::Range(variable, relation));
    ranges(kinds::tail(q, kinds::record_length(1)), left - 1, out, p)
}

// Writes so many targets.
fn targets(
    part: &Part,
    level: usize,
    left: usize,
    applying: &Applying,
    out: &mut [u8],
    to: Written,
) -> Written
    requires { Room to.at to.next (targets_bytes (masks_by applying.now) (conditions_by applying.now) (targets_at left level part.now.q.now part.now.z.now)
        to.next) (targets_new (masks_by applying.now) (conditions_by applying.now) (targets_at left level part.now.q.now part.now.z.now)) }
    ensures after { After to.at to.next (targets_bytes (masks_by applying.now) (conditions_by applying.now)
        (targets_at left level part.now.q.now part.now.z.now) to.next)
        (targets_new (masks_by applying.now) (conditions_by applying.now)
        (targets_at left level part.now.q.now part.now.z.now)) result.at result.next }
    ensures out_after { out.new ≡ sets out.old to.at (targets_bytes (masks_by applying.now)
        (conditions_by applying.now) (targets_at left level part.now.q.now part.now.z.now) to.next) }
{
    if left == 0 {
        return to;
    }
    let w = term(part, level, applying, out, to);
    let rest = part.from(kinds::size_at(part.z, 0));
    targets(&rest, level, left - 1, applying, out, w)
}

// Writes an AND for each RANGE with a guard, of at most so many.
fn open_ranges(q: &[u8], left: usize, applying: &Applying, out: &mut [u8], at: usize) -> usize
    requires { at + length (openings (masks_by applying.now) (head_ranges left q.now)) < 9223372036854775808 }
    ensures value { result ≡ at + length (openings (masks_by applying.now) (head_ranges left q.now)) }
    ensures out_after { out.new ≡ sets out.old at (openings (masks_by applying.now) (head_ranges left q.now)) }
{
    if left == 0 {
        return at;
    }
    let HeadRecord::Range(variable, _) = kinds::head_record(q) else {
        return at;
    };
    let rest = kinds::tail(q, kinds::record_length(1));
    let p = open_ranges(rest, left - 1, applying, out, at);
    guard::open_guard(out, p, applying.mask(variable))
}

// Writes the guards of the RANGEs, of at most so many.
fn guard_ranges(q: &[u8], left: usize, applying: &Applying, out: &mut [u8], to: Written) -> Written
    requires { Room to.at to.next (range_guards (masks_by applying.now) (conditions_by applying.now) (head_ranges left q.now) to.next)
        (new_of (masks_by applying.now) (conditions_by applying.now) (head_ranges left q.now)) }
    ensures after { After to.at to.next (range_guards (masks_by applying.now) (conditions_by applying.now)
        (head_ranges left q.now) to.next) (new_of (masks_by applying.now) (conditions_by applying.now)
        (head_ranges left q.now)) result.at result.next }
    ensures out_after { out.new ≡ sets out.old to.at (range_guards (masks_by applying.now)
        (conditions_by applying.now) (head_ranges left q.now) to.next) }
{
    if left == 0 {
        return to;
    }
    let HeadRecord::Range(v, _) = kinds::head_record(q) else {
        return to;
    };
    let w = guard::write_guard(out, to, applying, applying.mask(v), v);
    let rest = kinds::tail(q, kinds::record_length(1));
    guard_ranges(rest, left - 1, applying, out, w)
}

// Writes the query, rewritten, and returns the number of its bytes. Where they do not fit the buffer, what fits is written.
pub fn rewrite_query(
    q: &[u8],
    z: &[u16],
    layout: Layout,
    level: usize,
    permits: &[u8],
    table: &[u16],
    out: &mut [u8],
) -> usize
    requires { Room 0 8 (query_bytes (masks_in table.now) (part_in permits.now table.now) (query_read layout level q.now z.now))
        (query_new (masks_in table.now) (part_in permits.now table.now) (query_read layout level q.now z.now)) }
    ensures value { result ≡ length (query_bytes (masks_in table.now) (part_in permits.now table.now)
        (query_read layout level q.now z.now)) }
    ensures out_after { out.new ≡ sets out.old 0 (query_bytes (masks_in table.now) (part_in permits.now table.now)
        (query_read layout level q.now z.now)) }
{
    let applying = &Applying { permits, table };
    let whole = Part { q, z };
    let first = Written { at: 0, next: 8 };
    let at = ranges(q, layout.ranges, out, first.at);
    let head = whole.from(layout.first);
    let w = targets(
        &head,
        level,
        layout.targets,
        applying,
        out,
        Written { at, ..first },
    );
    let at = open_ranges(q, layout.ranges, applying, out, w.at);
    let tail = whole.from(layout.condition);
    let x = condition(&tail, level, applying, out, Written { at, ..w });
    guard_ranges(q, layout.ranges, applying, out, x).at
}
