// The lent name list (document 02, Change 1): checked whole, and looked up, by its bytes; nothing is copied.
#![tactic(auto)]

ghost use Rattle.std.specs.Prelude.{◌≡◌, true, not, ◌||◌, List, ℕ, ◌+◌, ◌*◌, ◌≤◌, ◌<◌, eqb, length, get_or, take, drop, IsTrue, IfSome};
ghost use Rattle.quel.specs.Results.{Word};
ghost use Rattle.quel.specs.Names.{names, relation_named, attribute_named, value_named};
ghost use Rattle.tokens.specs.Codes.{Spelt};
ghost use Rattle.tokens.specs.Kinds.{code_of, nonzero};
ghost use Rattle.tokens.specs.Spans.{capped};
ghost use Rattle.names.specs.Entries.{place_of, name_at, entries};
ghost use Rattle.names.specs.Search.{is_named, seek, found_at, good_code, name_of, record_code, HeldIn, ChainedIn, listed_before, Told, Indexed};
ghost use Rattle.names.specs.Answers.{failed, found, valued, said};

// What a name is looked up as: a relation, an attribute of one, or a value.
#[derive(Clone, Copy)]
pub enum Sort {
    Relation,
    Attribute(u8),
    Value,
}

// A value's four bytes, low first; the number of a relation or of an attribute is the first of them.
pub type Bytes = (u8, u8, u8, u8);

// The kinds of records.
const RELATION: u8 = 80;

const ATTRIBUTE: u8 = 81;

const VALUE: u8 = 82;

// The code of the letters at a place, at most twelve. Where the list has twelve bytes the compiler is told so, and unrolls what reads them.
fn letters(list: &[u8], at: usize) -> u64
    requires { at ≤ length list.now + 5 }
    ensures { result ≡ capped (code_of (name_at list.now at)) }
{
    let end = at + 12;
    if end <= list.len() {
        return tokens::spelling(&list[at..end]).code;
    }
    tokens::spelling(kinds::tail(list, at)).code
}

// The code of a good name at a place: 1 to 12 capitals, then spaces; not reserved.
fn good_code(list: &[u8], at: usize) -> Option<u64>
    requires { at ≤ length list.now + 5 }
    ensures { result ≡ nonzero (good_code list.now at) }
{
    let end = at + 12;
    if list.len() < end {
        return None;
    }
    let s = tokens::spelling(&list[at..end]);
    if s.name { Some(s.code) } else { None }
}

// Where the name of a record begins.
#[tactic(auto, unfolding(crate::specs::Entries::place_of))]
fn place(kind: u8) -> usize
    ensures value { result ≡ place_of kind }
    ensures lower_bound { (2 ≤ result) × (result ≤ 5) }
{
    match kind {
        RELATION => 2,
        ATTRIBUTE => 3,
        _ => 5,
    }
}

// What a record is sought by: its kind, its relation, which only attributes have, and the code of its name.
#[derive(Clone, Copy)]
struct Sought {
    kind: u8,
    relation: u8,
    code: u64,
    ghost some: { 1 ≤ kind },
}

impl Sought {
    // Only attributes belong to a relation.
    fn belongs(self, list: &[u8], at: usize) -> bool
        requires { at ≤ length list.now }
        ensures { result ≡ (not (eqb self.kind 81) || eqb (get_or list.now (at + 1) 0) self.relation) }
    {
        self.kind != ATTRIBUTE || kinds::byte(list, at + 1) == self.relation
    }

    // Whether the record at a place is such a one. Compiled into the walks along a chain, which ask it for each link.
    #[inline(always)]
    fn is_at(self, list: &[u8], at: usize) -> bool
        requires { at ≤ length list.now }
        ensures value { (w : Word) → Spelt w self.code → result ≡ is_named self.kind self.relation w (drop at list.now) }
        ensures inside { IsTrue result → at < length list.now }
    {
        if kinds::byte(list, at) != self.kind {
            return false;
        }
        if !self.belongs(list, at) {
            return false;
        }
        letters(list, at + place(self.kind)) == self.code
    }

    // The place of the first such record.
    fn find(self, list: &[u8], from: usize) -> Option<usize>
        ensures value { (w : Word) → Spelt w self.code → found_at list.now result ≡ seek (is_named self.kind self.relation w) (drop from list.now) }
        ensures inside { IfSome result (λ i. i < length list.now) }
    {
        let mut at = from;
        while at < list.len() {
            if self.is_at(list, at) {
                return Some(at);
            }
            at += place(kinds::byte(list, at)) + 12;
        }
        None
    }

    // The place of such a record of a chain.
    fn follow(self, list: &[u8], index: &[u16]) -> Option<usize>
        requires { (length list.now + 7168 ≤ 14 * length index.now) × Indexed list.now index.now }
        ensures value { (w : Word) → Spelt w self.code → found_at list.now result ≡ seek (is_named self.kind self.relation w) list.now }
        ensures inside { IfSome result (λ i. i < length list.now) }
    {
        let mut link = kinds::size_at(index, buckets::bucket(self.code));
        while 0 < link {
            let i = link - 1;
            if self.is_at(list, i) {
                return Some(i);
            }
            link = kinds::size_at(index, 512 + i / 14);
        }
        None
    }

    // The place of such a record, by its chain where the table has the whole list.
    fn look(self, list: &[u8], index: &[u16]) -> Option<usize>
        requires { Indexed list.now index.now }
        ensures value { (w : Word) → Spelt w self.code → found_at list.now result ≡ seek (is_named self.kind self.relation w) list.now }
        ensures inside { IfSome result (λ i. i < length list.now) }
    {
        if list.len() + 7168 <= 14 * index.len() {
            self.follow(list, index)
        } else {
            self.find(list, 0)
        }
    }
}

// The code of a good record's name.
fn record_code(list: &[u8], at: usize) -> Option<u64>
    requires { at ≤ length list.now }
    ensures { result ≡ nonzero (record_code list.now at) }
{
    let kind = kinds::byte(list, at);
    if !(RELATION..=VALUE).contains(&kind) {
        return None;
    }
    good_code(list, at + place(kind))
}

// A record like the one at a place, whose name has the code.
fn like(list: &[u8], at: usize, code: u64) -> Sought
    requires first { at ≤ length list.now }
    requires some { 1 ≤ get_or list.now at 0 }
    ensures kind { result.kind ≡ get_or list.now at 0 }
    ensures relation { result.relation ≡ get_or list.now (at + 1) 0 }
    ensures code { result.code ≡ code }
{
    Sought {
        kind: kinds::byte(list, at),
        relation: kinds::byte(list, at + 1),
        code,
    }
}

// Whether a record of its bucket's chain is like the one at a place, whose name has the code.
fn known(list: &[u8], index: &[u16], at: usize, code: u64) -> bool
    requires here { (at ≤ length list.now) × (1 ≤ get_or list.now at 0) }
    requires named { Spelt (name_of list.now at) code }
    requires chained { ChainedIn list.now at (take 512 index.now) (drop 512 index.now) }
    ensures { (xs : List ℕ) → HeldIn list.now at (take 512 index.now) (drop 512 index.now) xs → result
        ≡ listed_before list.now at xs }
{
    let sought = like(list, at, code);
    let mut link = kinds::size_at(index, buckets::bucket(code));
    while 0 < link {
        let i = link - 1;
        if sought.is_at(list, i) {
            return true;
        }
        link = kinds::size_at(index, 512 + i / 14);
    }
    false
}

// Whether no record before a good one is like it. It is chained then; one that is past the table is held to those after it.
fn fresh(list: &[u8], at: usize, code: u64, index: &mut [u16]) -> bool
    requires { (at ≤ length list.now) × (code ≡ record_code list.now at) × (1 ≤ code) × (512 ≤ length index.old)
        × (length index.old ≤ 4608) × ChainedIn list.now at (take 512 index.old) (drop 512 index.old) }
    ensures { (xs : List ℕ) → HeldIn list.now at (take 512 index.old) (drop 512 index.old) xs
        → Told list.now at xs (take 512 index.new) (drop 512 index.new) result }
{
    if known(list, index, at, code) {
        return false;
    }
    let slot = at / 14;
    if 512 + slot < index.len() {
        buckets::put(index, buckets::bucket(code), slot, at);
        return true;
    }
    let sought = like(list, at, code);
    let end = at + place(sought.kind) + 12;
    sought.find(list, end).is_none()
}

// Whether a name list is good, from its first byte to its last; 51 otherwise. Its records are then chained by their names, as far as the table goes.
pub fn listed(list: &[u8], index: &mut [u16]) -> bool
    requires { (512 ≤ length index.old) × (length index.old ≤ 4608) × ((h : ℕ) → get_or index.old h 0 ≡ 0) }
    ensures value { result ≡ not (failed (names list.now)) }
    ensures indexed { result ≡ true → Indexed list.now index.new }
{
    let mut at = 0;
    while at < list.len() {
        let Some(code) = record_code(list, at) else {
            return false;
        };
        if !fresh(list, at, code, index) {
            return false;
        }
        at += place(kinds::byte(list, at)) + 12;
    }
    true
}

fn relation_named(list: &[u8], index: &[u16], code: u64) -> Option<Bytes>
    requires { Indexed list.now index.now }
    ensures { (w : Word) → Spelt w code → result ≡ found (relation_named (entries list.now) w) }
{
    let sought = Sought {
        kind: RELATION,
        relation: 0,
        code,
    };
    let at = sought.look(list, index)?;
    Some((kinds::byte(list, at + 1), 0, 0, 0))
}

fn attribute_named(list: &[u8], index: &[u16], relation: u8, code: u64) -> Option<Bytes>
    requires { Indexed list.now index.now }
    ensures { (w : Word) → Spelt w code → result ≡ found (attribute_named (entries list.now) relation w) }
{
    let sought = Sought {
        kind: ATTRIBUTE,
        relation,
        code,
    };
    let at = sought.look(list, index)?;
    Some((kinds::byte(list, at + 2), 0, 0, 0))
}

fn value_named(list: &[u8], index: &[u16], code: u64) -> Option<Bytes>
    requires { Indexed list.now index.now }
    ensures { (w : Word) → Spelt w code → result ≡ valued (value_named (entries list.now) w) }
{
    let sought = Sought {
        kind: VALUE,
        relation: 0,
        code,
    };
    let at = sought.look(list, index)?;
    Some((
        kinds::byte(list, at + 1),
        kinds::byte(list, at + 2),
        kinds::byte(list, at + 3),
        kinds::byte(list, at + 4),
    ))
}

// What a name says. A word of more than twelve letters is found nowhere.
pub fn meaning(list: &[u8], index: &[u16], sort: Sort, code: u64) -> Option<Bytes>
    requires { Indexed list.now index.now }
    ensures { (w : Word) → Spelt w code → result ≡ said (entries list.now) w sort }
{
    match sort {
        Sort::Relation => relation_named(list, index, code),
        Sort::Attribute(relation) => attribute_named(list, index, relation, code),
        Sort::Value => value_named(list, index, code),
    }
}
