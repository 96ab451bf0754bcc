// Records: one byte of kind, then a body whose length the kind fixes. Getters that are total, so that their callers need no bounds.
#![tactic(auto)]

ghost use Rattle.std.specs.Prelude.{◌≡◌, ◌%◌, ◌≤◌, cond, ltb, get_or, drop, nat_abs};
ghost use Rattle.model.specs.Syntax.{is_operator, is_function};
ghost use Rattle.model.specs.Meaning.{signed};
ghost use Rattle.kinds.specs.Tables.{byte_in, body_of, conditions_of, terms_of, record_length};
ghost use Rattle.kinds.specs.Record.{record_at};
ghost use Rattle.kinds.specs.Places.{condition_at, term_at, head_at, permit_at};

// Tables by kind: a word for each sixteen kinds that have any, of which only the first eight are in use, and in it a byte for each kind, the first
// one lowest. Words and no array: the compiler writes an array to the stack wherever it is read.
// The length of the body, 255 where no record has the kind.
const BODY_0: u64 = 0xffff_ffff_ffff_02ff;

const BODY_16: u64 = 0xff02_0100_0000_0000;

const BODY_32: u64 = 0xffff_ffff_ff04_0204;

const BODY_64: u64 = 0xffff_ffff_ffff_ff03;

// The length of a RANGE record, by the table (proofs/Entries: range_length): range i of a query that has passed stands at i times that.
pub const RANGE: usize = 3;

// How many conditions follow as children, and how many terms.
const CONDITIONS_16: u64 = 0x0001_0002_0201_0000;

const CONDITIONS_32: u64 = 0x0001_0000;

const CONDITIONS_64: u64 = 1;

const TERMS_16: u64 = 0x0200_0000_0000;

// The byte of a kind in its word.
fn entry(word: u64, kind: u8) -> u8
    ensures { result ≡ byte_in word (kind % 8) }
{
    ((word >> (8 * u64::from(kind % 8))) % 256) as u8
}

fn body_length(kind: u8) -> u8
    ensures { result ≡ body_of kind }
{
    if 8 <= kind % 16 {
        return 255;
    }
    match kind / 16 {
        0 => entry(BODY_0, kind),
        1 => entry(BODY_16, kind),
        2 => entry(BODY_32, kind),
        4 => entry(BODY_64, kind),
        _ => 255,
    }
}

fn child_conditions(kind: u8) -> u8
    ensures { result ≡ conditions_of kind }
{
    if 8 <= kind % 16 {
        return 0;
    }
    match kind / 16 {
        1 => entry(CONDITIONS_16, kind),
        2 => entry(CONDITIONS_32, kind),
        4 => entry(CONDITIONS_64, kind),
        _ => 0,
    }
}

fn child_terms(kind: u8) -> u8
    ensures { result ≡ terms_of kind }
{
    if 8 <= kind % 16 {
        return 0;
    }
    match kind / 16 {
        1 => entry(TERMS_16, kind),
        _ => 0,
    }
}

// How many conditions and how many terms follow a record of the kind as its children.
#[derive(Clone, Copy)]
pub struct ChildCounts {
    pub conditions: u8,
    pub terms: u8,
}

pub fn child_counts(kind: u8) -> ChildCounts
    ensures { (result.conditions ≡ conditions_of kind) × (result.terms ≡ terms_of kind) }
{
    let conditions = child_conditions(kind);
    let terms = child_terms(kind);
    ChildCounts { conditions, terms }
}

// The kind byte and the body; 1 where no record has the kind.
pub fn record_length(kind: u8) -> usize
    ensures value { result ≡ record_length kind }
    ensures lower_bound { (1 ≤ result) × (result ≤ 5) }
{
    let n = body_length(kind);
    if n == 255 { 1 } else { 1 + usize::from(n) }
}

// The byte at i, 0 past the end.
pub fn byte(q: &[u8], i: usize) -> u8
    ensures { result ≡ get_or q.now i 0 }
{
    q.get(i).copied().unwrap_or(0)
}

// The bytes from a on, none past the end.
pub fn tail(q: &[u8], a: usize) -> &[u8]
    ensures { result.now ≡ drop a q.now }
{
    q.get(a..).unwrap_or(&[])
}

// The same for a table of sizes.
pub fn tail_sizes(z: &[u16], a: usize) -> &[u16]
    ensures { result.now ≡ drop a z.now }
{
    z.get(a..).unwrap_or(&[])
}

// The size at i, 0 past the end.
pub fn size_at(z: &[u16], i: usize) -> usize
    ensures value { result ≡ get_or z.now i 0 }
    ensures upper_bound { result ≤ 65535 }
{
    usize::from(z.get(i).copied().unwrap_or(0))
}

// Whether a comparison's record knows the operator, or an aggregate's the function.
pub fn is_code(aggregate: bool, code: u8) -> bool
    ensures { result ≡ cond aggregate (is_function code) (is_operator code) }
{
    if aggregate {
        (1..=5).contains(&code)
    } else {
        (1..=6).contains(&code)
    }
}

// Any record, with the bytes of its body: what a walk from record to record meets, and what is written. Short: the bytes end before it does.
#[derive(Clone, Copy)]
pub enum Record {
    // variable, relation
    Range(u8, u8),
    True,
    False,
    Not,
    And,
    Or,
    // operator
    Compare(u8),
    // variable, relation
    Some(u8, u8),
    // four bytes, low first
    Constant(u8, u8, u8, u8),
    // variable, attribute
    Attribute(u8, u8),
    // function, variable, relation, attribute
    Aggregate(u8, u8, u8, u8),
    // relation, mask (low, high)
    Permit(u8, u8, u8),
    Unknown,
    Short,
}

// Whether so many bytes end before a record of the kind does. No record has more than five: the table is read at the end only.
fn cut(length: usize, kind: u8) -> bool
    ensures { result ≡ ltb length (record_length kind) }
{
    length < 5 && length < record_length(kind)
}

// The record that q starts with, for flat walks.
#[tactic(auto, unfolding(crate::specs::Record::record_at, crate::specs::Tables::record_length, crate::specs::Tables::of_kind, model::specs::Kinds::kind_of, model::specs::Kinds::find))]
pub fn read(q: &[u8]) -> Record
    ensures { result ≡ record_at q.now }
{
    if q.len() == 0 {
        return Record::Short;
    }
    let k = q[0];
    if cut(q.len(), k) {
        return Record::Short;
    }
    match k {
        1 => Record::Range(q[1], q[2]),
        16 => Record::True,
        17 => Record::False,
        18 => Record::Not,
        19 => Record::And,
        20 => Record::Or,
        21 => Record::Compare(q[1]),
        22 => Record::Some(q[1], q[2]),
        32 => Record::Constant(q[1], q[2], q[3], q[4]),
        33 => Record::Attribute(q[1], q[2]),
        34 => Record::Aggregate(q[1], q[2], q[3], q[4]),
        64 => Record::Permit(q[1], q[2], q[3]),
        _ => Record::Unknown,
    }
}

// A record where a condition stands. Other: one of another place, or none, or the bytes end before it does.
#[derive(Clone, Copy)]
pub enum ConditionRecord {
    True,
    False,
    Not,
    And,
    Or,
    // operator
    Compare(u8),
    // variable, relation
    Some(u8, u8),
    Other,
}

pub fn condition_record(q: &[u8]) -> ConditionRecord
    ensures { result ≡ condition_at q.now }
{
    match read(q) {
        Record::True => ConditionRecord::True,
        Record::False => ConditionRecord::False,
        Record::Not => ConditionRecord::Not,
        Record::And => ConditionRecord::And,
        Record::Or => ConditionRecord::Or,
        Record::Compare(o) => ConditionRecord::Compare(o),
        Record::Some(v, r) => ConditionRecord::Some(v, r),
        _ => ConditionRecord::Other,
    }
}

// A record where a term stands.
#[derive(Clone, Copy)]
pub enum TermRecord {
    // four bytes, low first
    Constant(u8, u8, u8, u8),
    // variable, attribute
    Attribute(u8, u8),
    // function, variable, relation, attribute
    Aggregate(u8, u8, u8, u8),
    Other,
}

pub fn term_record(q: &[u8]) -> TermRecord
    ensures { result ≡ term_at q.now }
{
    match read(q) {
        Record::Constant(a, b, c, d) => TermRecord::Constant(a, b, c, d),
        Record::Attribute(v, a) => TermRecord::Attribute(v, a),
        Record::Aggregate(f, v, r, a) => TermRecord::Aggregate(f, v, r, a),
        _ => TermRecord::Other,
    }
}

// A record at the head of a query, before its targets.
#[derive(Clone, Copy)]
pub enum HeadRecord {
    // variable, relation
    Range(u8, u8),
    Other,
}

pub fn head_record(q: &[u8]) -> HeadRecord
    ensures { result ≡ head_at q.now }
{
    let Record::Range(v, r) = read(q) else {
        return HeadRecord::Other;
    };
    HeadRecord::Range(v, r)
}

// A record where a permit starts.
#[derive(Clone, Copy)]
pub enum PermitRecord {
    // relation, mask
    Permit(u8, u16),
    Other,
}

// The mask is one number, its low byte read first.
pub fn permit_record(q: &[u8]) -> PermitRecord
    ensures { result ≡ permit_at q.now }
{
    let Record::Permit(relation, low, high) = read(q) else {
        return PermitRecord::Other;
    };
    let mask = u16::from(low) + 256 * u16::from(high);
    PermitRecord::Permit(relation, mask)
}

// A constant: two's complement, low first.
pub fn constant(a: u8, b: u8, c: u8, d: u8) -> i32
    ensures value { result ≡ signed a b c d }
    ensures result_bound { nat_abs result ≤ 2147483648 }
{
    i32::from_le_bytes([a, b, c, d])
}
