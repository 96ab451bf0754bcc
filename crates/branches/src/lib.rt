// The condition of a query as a table of branches (specs/Branches), so that no record is read again for each row. A comparison of attributes,
// numbers and known aggregates is kept as such, SOME by its place in the query.
#![tactic(auto)]

ghost use Rattle.std.specs.Prelude.{◌≡◌, ℕ, ◌+◌, ◌*◌, ◌≤◌, ◌<◌, length, get_or, drop, List, IfSome};
ghost use Rattle.std.proofs.lemmas.List.Edits.{sets};
ghost use Rattle.model.specs.Syntax.{Condition, AGGREGATE};
ghost use Rattle.model.specs.Meaning.{signed};
ghost use Rattle.numbers.specs.Numbers.{value_of, Small};
ghost use Rattle.kinds.specs.Places.{condition_at};
ghost use Rattle.sizes.specs.Decode.{decode, decode_t};
ghost use Rattle.walks.specs.Assigned.{assigned};
ghost use Rattle.branches.specs.Branches as B;
ghost use Rattle.branches.specs.Compiled as C;

use kinds::{ConditionRecord, TermRecord};
use numbers::Ratio;

// How many entries a table has: 64 branches of eight, then the halves of their numbers.
pub const ENTRIES: usize = 768;

// Where the low halves begin, and the high ones.
const NUMBERS: usize = 512;

const HIGH: usize = NUMBERS + 1;

// A number from its two halves.
fn joined(low: usize, high: usize) -> i32
    requires { (low ≤ 65535) × (high ≤ 65535) }
    ensures { result ≡ signed low 0 high 0 }
{
    let n = low + 65536 * high;
    (n as u32).cast_signed()
}

// Number j of a table: numbers stand behind the branches, as two halves each.
fn number(t: &[u16], j: usize) -> i32
    requires { j ≤ 1048576 }
    ensures { result ≡ B.number t.now j }
{
    let low = kinds::size_at(t, NUMBERS + 2 * j);
    let high = kinds::size_at(t, HIGH + 2 * j);
    joined(low, high)
}

// What the memo has for a variable, 0 where it does not know it.
fn recalled(memo: &[i64], variable: u8) -> Ratio
    ensures result_value { value_of result ≡ B.recalled_or0 memo.now variable }
    ensures small { Small result }
{
    if !numbers::knows(memo, variable) {
        return numbers::whole(0);
    }
    numbers::recall(memo, variable)
}

// One side of a comparison: the operand at i of the table, whose number is number j.
pub fn side(t: &[u16], i: usize, j: usize, values: &[i32], memo: &[i64], env: &[usize]) -> Ratio
    requires { (256 ≤ length env.now) × (i ≤ 1048576) × (j ≤ 1048576) }
    ensures result_value { value_of result ≡ B.operand memo.now (get_or t.now i 0) (get_or t.now (i + 1) 0)
        (B.number t.now j) (assigned values.now env.now) }
    ensures small { Small result }
{
    let v = kinds::size_at(t, i);
    if v < 256 {
        let row = env[v];
        return numbers::whole(catalogue::value(values, row, kinds::size_at(t, i + 1)));
    }
    if v < 512 {
        return recalled(memo, (v - 256) as u8);
    }
    numbers::whole(number(t, j))
}

// One side of a comparison, where it can be kept in numbers: an attribute of a variable, from variable 256 on a known aggregate, 512 a number,
// by its halves.
#[derive(Clone, Copy)]
struct Operand {
    variable: u16,
    attribute: u16,
    low: u16,
    high: u16,
}

// A comparison of two such sides.
#[derive(Clone, Copy)]
struct Comparison {
    operator: u8,
    left: Operand,
    right: Operand,
}

// Half of a number from two of its bytes.
fn half(a: u8, b: u8) -> u16
    ensures { result ≡ a + 256 * b }
{
    u16::from_le_bytes([a, b])
}

fn number_of(low: u16, high: u16) -> Operand
    ensures { result ≡ record { variable = 512; attribute = 0; low = low; high = high } }
{
    Operand {
        variable: 512,
        attribute: 0,
        low,
        high,
    }
}

fn attribute_of(variable: u8, attribute: u8) -> Operand
    ensures { result ≡ record { variable = variable; attribute = attribute; low = 0; high = 0 } }
{
    Operand {
        variable: u16::from(variable),
        attribute: u16::from(attribute),
        low: 0,
        high: 0,
    }
}

// An aggregate that the memo knows.
fn aggregate_of(memo: &[i64], variable: u8) -> Option<Operand>
    ensures { IfSome result (λ o. (f r a : ℕ) (c : Condition) → C.Means o memo.now (AGGREGATE f variable r a c)) }
{
    if !numbers::knows(memo, variable) {
        return None;
    }
    Some(Operand {
        variable: u16::from(variable) + 256,
        attribute: 0,
        low: 0,
        high: 0,
    })
}

// The term that q starts with.
fn operand_at(q: &[u8], level: usize, memo: &[i64]) -> Option<Operand>
    ensures { IfSome result (λ o. (z : List ℕ) → C.Means o memo.now (decode_t level q.now z)) }
{
    if level == 0 {
        return None;
    }
    match kinds::term_record(q) {
        TermRecord::Constant(a, b, c, d) => Some(number_of(half(a, b), half(c, d))),
        TermRecord::Attribute(variable, attribute) => Some(attribute_of(variable, attribute)),
        TermRecord::Aggregate(_, variable, _, _) => aggregate_of(memo, variable),
        TermRecord::Other => None,
    }
}

// The condition that q starts with, where it is a comparison of such terms; operator 0 is that of another branch.
fn comparison_at(q: &[u8], z: &[u16], level: usize, memo: &[i64]) -> Option<Comparison>
    ensures { IfSome result (λ x. C.Compares x memo.now (decode level q.now z.now)) }
{
    if level == 0 {
        return None;
    }
    let ConditionRecord::Compare(operator) = kinds::condition_record(q) else {
        return None;
    };
    if operator == 0 {
        return None;
    }
    let a = kinds::record_length(kinds::byte(q, 0));
    let b = a + kinds::size_at(z, a);
    let left = operand_at(kinds::tail(q, a), level - 1, memo)?;
    let right = operand_at(kinds::tail(q, b), level - 1, memo)?;
    Some(Comparison {
        operator,
        left,
        right,
    })
}

// Where a condition leads that holds, and one that does not.
#[derive(Clone, Copy)]
pub struct Ways {
    pub met: usize,
    pub unmet: usize,
}

// Writes numbers from place i of the table on: the eight of a branch, or the halves of its two numbers.
fn write(t: &mut [u16], i: usize, row: &[u16])
    requires { i + length row.now ≤ length t.old }
    ensures { t.new ≡ sets t.old i row.now }
{
    t[i..i + row.len()].copy_from_slice(row);
}

// The branches that are free: from one on, and below an end.
#[derive(Clone, Copy)]
pub struct Room {
    pub next: usize,
    pub end: usize,
}

// Where a condition stands, and down to which level it is read.
#[derive(Clone, Copy)]
pub struct Spot {
    pub place: usize,
    pub level: usize,
}

// Branch k for the condition at a place: a comparison where it is one.
fn single(q: &[u8], z: &[u16], spot: Spot, memo: &[i64], t: &mut [u16], k: usize, ways: Ways)
    requires { (768 ≤ length t.old) × (2 ≤ k) × (k < 64) × (ways.met < k) × (ways.unmet < k) × (spot.place ≤ 65535)
        × (spot.level ≤ 65535) }
    ensures { C.Compiled k k ways.met ways.unmet t.old t.new
        q.now z.now memo.now (decode spot.level (drop spot.place q.now)
        (drop spot.place z.now)) }
{
    let place = spot.place;
    let level = spot.level;
    let met = ways.met as u16;
    let unmet = ways.unmet as u16;
    let c = kinds::tail(q, place);
    let sizes = kinds::tail_sizes(z, place);
    let Some(x) = comparison_at(c, sizes, level, memo) else {
        write(
            t,
            8 * k,
            &[0, place as u16, level as u16, 0, 0, met, unmet, 0],
        );
        return;
    };
    let a = x.left;
    let b = x.right;
    let row = [
        u16::from(x.operator),
        a.variable,
        a.attribute,
        b.variable,
        b.attribute,
        met,
        unmet,
        0,
    ];
    write(t, 8 * k, &row);
    write(t, NUMBERS + 4 * k, &[a.low, a.high, b.low, b.high]);
}

// The conditions that consist of others. They have no body, so the byte of the kind is the whole record.
#[derive(Clone, Copy, PartialEq, Eq)]
pub enum Connective {
    Not,
    And,
    Or,
}

// The parts of such a condition and their places.
#[derive(Clone, Copy)]
pub struct Parts {
    pub kind: Connective,
    pub first: usize,
    pub second: usize,
}

fn kind_at(q: &[u8]) -> Option<Connective>
    ensures { IfSome result (λ k. condition_at q.now ≡ C.node k) }
{
    match kinds::byte(q, 0) {
        18 => Some(Connective::Not),
        19 => Some(Connective::And),
        20 => Some(Connective::Or),
        _ => None,
    }
}

// None for any other condition, and for two parts with no room for two branches.
pub fn parts_at(q: &[u8], z: &[u16], place: usize, level: usize, room: usize) -> Option<Parts>
    requires { place ≤ 65535 }
    ensures { IfSome result (λ x. C.Parted x room level place q.now z.now) }
{
    if level == 0 {
        return None;
    }
    let here = kinds::tail(q, place);
    let kind = kind_at(here)?;
    let first = place + kinds::record_length(kinds::byte(here, 0));
    let second = first + kinds::size_at(z, first);
    if 65535 < second {
        return None;
    }
    if kind != Connective::Not && room < 2 {
        return None;
    }
    Some(Parts {
        kind,
        first,
        second,
    })
}

// The place of what a SOME asks of a row, and its variable.
#[derive(Clone, Copy)]
struct Search {
    place: usize,
    variable: u8,
}

// None for any other condition, and where there is no room for two branches.
fn search_at(q: &[u8], place: usize, level: usize, room: usize) -> Option<Search>
    requires { place ≤ 65535 }
    ensures { IfSome result (λ s. C.Searched s.place s.variable room level place q.now) }
{
    if level == 0 || room < 2 {
        return None;
    }
    let here = kinds::tail(q, place);
    let ConditionRecord::Some(variable, _) = kinds::condition_record(here) else {
        return None;
    };
    let inner = place + kinds::record_length(kinds::byte(here, 0));
    if 65535 < inner {
        return None;
    }
    Some(Search {
        place: inner,
        variable,
    })
}

// Branches in a room for the condition at a place; the number of the last, with which it starts. The second part of an
// AND or an OR comes first, so that the first part can lead to it.
pub fn compile(
    q: &[u8],
    z: &[u16],
    spot: Spot,
    memo: &[i64],
    t: &mut [u16],
    room: Room,
    ways: Ways,
) -> usize
    requires { (768 ≤ length t.old) × (2 ≤ room.next) × (room.next < room.end)
        × (room.end ≤ 64) × (ways.met < room.next) × (ways.unmet < room.next) × (spot.place ≤ 65535) × (spot.level ≤ 65535) }
    ensures lower_bound { (room.next ≤ result) × (result < room.end) }
    ensures compiled { C.Compiled room.next result ways.met ways.unmet t.old t.new
        q.now z.now memo.now (decode spot.level (drop spot.place q.now)
        (drop spot.place z.now)) }
{
    let k = room.next;
    let end = room.end;
    let m = ways.met;
    let u = ways.unmet;
    let left = Room {
        next: k,
        end: end - 1,
    };
    let Some(x) = parts_at(q, z, spot.place, spot.level, end - k) else {
        let Some(s) = search_at(q, spot.place, spot.level, end - k) else {
            single(q, z, spot, memo, t, k, ways);
            return k;
        };
        let inner = Spot {
            place: s.place,
            level: spot.level - 1,
        };
        let ends = Ways { met: 0, unmet: 1 };
        let r = compile(q, z, inner, memo, t, left, ends);
        let row = [
            256,
            u16::from(s.variable),
            r as u16,
            0,
            0,
            m as u16,
            u as u16,
            0,
        ];
        write(t, 8 * (r + 1), &row);
        return r + 1;
    };
    let level = spot.level - 1;
    let first = Spot {
        place: x.first,
        level,
    };
    let second = Spot {
        place: x.second,
        level,
    };
    match x.kind {
        Connective::Not => {
            let turned = Ways { met: u, unmet: m };
            compile(q, z, first, memo, t, room, turned)
        }
        Connective::And => {
            let r = compile(q, z, second, memo, t, left, ways);
            let rest = Room { next: r + 1, end };
            let both = Ways { met: r, unmet: u };
            compile(q, z, first, memo, t, rest, both)
        }
        Connective::Or => {
            let r = compile(q, z, second, memo, t, left, ways);
            let rest = Room { next: r + 1, end };
            let either = Ways { met: m, unmet: r };
            compile(q, z, first, memo, t, rest, either)
        }
    }
}
