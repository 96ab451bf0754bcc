// The name list by the codes of its names, in a table (specs/Index), so that a look-up compares numbers.
ghost use Rattle.std.specs.Prelude.{◌≡◌, true, false, ◌&&◌, [], ℕ, ◌+◌, ◌-◌, ◌≤◌, ◌<◌, eqb, length, get_or, drop, IfSome, MatchOption};
ghost use Rattle.model.specs.Lists.{all};
ghost use Rattle.quel.specs.Results.{ok, Word};
ghost use Rattle.quel.specs.Tokens.{reserved};
ghost use Rattle.quel.specs.Names.{relation_named, attribute_named, value_named};
ghost use Rattle.quel.specs.Names as N;
ghost use Rattle.tokens.specs.Codes.{Spelt};
ghost use Rattle.tokens.specs.Kinds.{kind_spelled};
ghost use Rattle.names.specs.Entries.{width_of, entries};
ghost use Rattle.names.specs.Search.{good_code};
ghost use Rattle.quick.specs.Index.{padded_code, letter_code, is_like, put_in, Filled, Begun, Indexed, Sought, Told, bytes_at};

use crate::lexis;

// Whether spaces fill twelve bytes from the nth on. It begins at the first, so that the compiler unrolls it and goes on where the letters end.
fn spaces(name: &[u8], n: usize) -> bool
    requires { length name.now ≡ 12 }
    ensures { result ≡ all (λ b. eqb b 32) (drop n name.now) }
{
    for i in 0..12 {
        if i < n {
            continue;
        }
        if name[i] != 32 {
            return false;
        }
    }
    true
}

// The code of the n letters in front, if there are some and nothing but spaces after them.
fn padded(name: &[u8], n: usize, code: u64) -> Option<u64>
    requires { length name.now ≡ 12 }
    ensures { MatchOption result (0 ≡ padded_code n code name.now) (λ c. (c ≡ code) × (c ≡ padded_code n code name.now)) }
{
    if n == 0 {
        return None;
    }
    if spaces(name, n) { Some(code) } else { None }
}

// Twelve letters stay below 2^58, so that no letter asks whether there is room.
fn spelled(name: &[u8]) -> Option<u64>
    requires { length name.now ≡ 12 }
    ensures { MatchOption result (0 ≡ letter_code name.now) (λ c. (1 ≤ c) × (c ≡ letter_code name.now)) }
{
    let mut code = 1;
    for i in 0..12 {
        let b = u64::from(name[i]);
        if !lexis::is_letter(b) {
            return padded(name, i, code);
        }
        code = 26 * code + (b - 65);
    }
    Some(code)
}

// Whether a code is that of no reserved word. Most names spell more than RANGE, and of these only RETRIEVE is one.
fn is_free(code: u64) -> bool
    ensures { result ≡ eqb (kind_spelled reserved code) 0 }
{
    if 19658916 < code {
        return code != 346837159270;
    }
    !lexis::is_reserved(code)
}

// The code of the good name that ends at a place: 1 to 12 capitals, then spaces; not reserved.
fn code_before(list: &[u8], end: usize) -> Option<u64>
    requires { 12 ≤ end }
    ensures { IfSome result (λ c. (1 ≤ c) × (c ≡ good_code list.now (end - 12))) }
{
    if list.len() < end {
        return None;
    }
    let code = spelled(&list[end - 12..end])?;
    if is_free(code) { Some(code) } else { None }
}

// How many bytes a record of a kind has.
fn size(kind: u8) -> Option<usize>
    ensures { IfSome result (λ k. (80 ≤ kind) × (kind ≤ 82) × (k ≡ width_of kind) × (14 ≤ k) × (k ≤ 17)) }
{
    match kind {
        80 => Some(14),
        81 => Some(15),
        82 => Some(17),
        _ => None,
    }
}

// Only attributes belong to a relation.
fn like(list: &[u8], at: usize, kind: u8, relation: u8) -> bool
    requires { at + 14 ≤ length list.now }
    ensures { result ≡ is_like list.now at kind relation }
{
    list[at] == kind && (kind != 81 || list[at + 1] == relation)
}

// Whether the record of a slot has the name with the code, the kind and the relation.
fn named(list: &[u8], names: &[u64; 256], slot: usize, kind: u8, relation: u8, code: u64) -> bool
    requires { (length names.now ≡ 256) × (slot ≤ 63) × (get_or names.now (64 + slot) 0 + 14 ≤ length list.now) }
    ensures { result ≡ (eqb (get_or names.now slot 0) code
        && is_like list.now (get_or names.now (64 + slot) 0) kind relation) }
{
    names[slot] == code && like(list, names[64 + slot] as usize, kind, relation)
}

// The place of the record with a name.
fn look(list: &[u8], names: &[u64; 256], kind: u8, relation: u8, code: u64) -> Option<usize>
    requires { Begun list.now names.now }
    ensures result_in_bounds { IfSome result (λ r. r + 14 ≤ length list.now) }
    ensures by_index { (at n : ℕ) → Filled list.now names.now at n → (w : Word) → Spelt w code
        → MatchOption result (Sought list.now names.now n kind relation w (length list.now)) (Sought list.now names.now n kind relation w) }
{
    let mut slot = names[192 + (code % 64) as usize] as usize;
    while 0 < slot {
        if named(list, names, slot, kind, relation, code) {
            return Some(names[64 + slot] as usize);
        }
        slot = names[128 + slot] as usize;
    }
    None
}

// A record more, in a slot: it is the last of its bucket.
fn put(names: &mut [u64; 256], slot: usize, code: u64, at: usize)
    requires { (length names.old ≡ 256) × (slot ≤ 63) }
    ensures { names.new ≡ put_in names.old slot code at }
{
    let head = 192 + (code % 64) as usize;
    names[slot] = code;
    names[64 + slot] = at as u64;
    names[128 + slot] = names[head];
    names[head] = slot as u64;
}

// A list of at most 63 names, read into a cleared table. It gives up at one that is refused, and at a longer one.
pub(crate) fn listed(list: &[u8], names: &mut [u64; 256]) -> bool
    requires { (length names.old ≡ 256) × ((h : ℕ) → get_or names.old h 0 ≡ 0) }
    ensures { result ≡ true → (N.names list.now ≡ ok (entries list.now) [])
        × Indexed list.now names.new }
{
    let mut at = 0;
    let mut n = 0;
    while at < list.len() {
        let kind = list[at];
        let Some(k) = size(kind) else {
            return false;
        };
        if 62 < n {
            return false;
        }
        let end = at + k;
        let Some(code) = code_before(list, end) else {
            return false;
        };
        if look(list, names, kind, list[at + 1], code).is_some() {
            return false;
        }
        n += 1;
        put(names, n, code, at);
        at = end;
    }
    true
}

// The place of a relation's record; its number stands there after the kind.
pub(crate) fn relation_at(list: &[u8], names: &[u64; 256], code: u64) -> Option<usize>
    requires { Indexed list.now names.now }
    ensures { IfSome result (λ r. (r + 14 ≤ length list.now) × ((w : Word) → Spelt w code
        → Told list.now w r (relation_named (entries list.now) w) (get_or list.now (r + 1) 0))) }
{
    look(list, names, 80, 0, code)
}

// The place of the record of a relation's attribute; its number stands there after the relation.
pub(crate) fn attribute_at(
    list: &[u8],
    names: &[u64; 256],
    relation: u8,
    code: u64,
) -> Option<usize>
    requires { Indexed list.now names.now }
    ensures { IfSome result (λ r. (r + 14 ≤ length list.now) × ((w : Word) → Spelt w code
        → Told list.now w r (attribute_named (entries list.now) relation w) (get_or list.now (r + 2) 0))) }
{
    look(list, names, 81, relation, code)
}

// The place of a value's record; its four bytes stand there after the kind.
pub(crate) fn value_at(list: &[u8], names: &[u64; 256], code: u64) -> Option<usize>
    requires { Indexed list.now names.now }
    ensures { IfSome result (λ r. (r + 14 ≤ length list.now) × ((w : Word) → Spelt w code
        → Told list.now w r (value_named (entries list.now) w) (bytes_at list.now r))) }
{
    look(list, names, 82, 0, code)
}
