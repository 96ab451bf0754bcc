// A text's tokens by their places: a number for each name, which symbols are used and bound, where the targets begin.
ghost use Rattle.std.specs.Prelude.{◌≡◌, cond, ◌&&◌, List, [], ◌∷◌, ℕ, ◌+◌, ◌<◌, ◌≤◌, length, get_or, take, drop};
ghost use Rattle.quel.specs.Results.{same_word, unique_words};
ghost use Rattle.quel.specs.Tokens.{is_letter, run};
ghost use Rattle.tokens.specs.Codes.{Spelt, Coded};
ghost use Rattle.flat.specs.Flat.{binders, main_of, last_of};
ghost use Rattle.flat.specs.Flat as F;
ghost use Rattle.elaborate.specs.Lookup.{ids_of, NamesWithin, NamesBelow};
ghost use Rattle.elaborate.specs.Places.{table, tokens_from, name_in, point_in, use_in, depth_kind, part_kind, bound_place, binds_kind};
ghost use Rattle.elaborate.specs.Numbers.{Numbered, Numbering, Met, Told, Noted, Used};
ghost use Rattle.elaborate.specs.Tables.{Clear};

use crate::lookups::Lookup;

// The code of every word of more than twelve letters.
const LONG: u64 = 288_230_376_151_711_744;

// The letters in front.
fn letters(q: &[u8]) -> &[u8]
    ensures { result.now ≡ run is_letter q.now }
{
    for (i, b) in q.iter().enumerate() {
        if !b.is_ascii_uppercase() {
            return &q[..i];
        }
    }
    q
}

// A text's tokens: their kinds, where they start, and the codes of the names.
#[derive(Clone, Copy)]
pub struct Tokens<'a> {
    pub text: &'a [u8],
    pub kinds: &'a [u8],
    pub starts: &'a [u16],
    pub numbers: &'a [u64],
    ghost few: { length kinds.now < 4000 },
    ghost numbered: { length kinds.now ≤ length numbers.now },
    ghost coded: { Coded text.now (table kinds.now starts.now numbers.now) (length kinds.now) },
}

impl<'a> Tokens<'a> {
    ghost use Rattle.elaborate.specs.Texts.{name_of};

    // The name at a place; no letters where there is none.
    fn word(&self, i: usize) -> &'a [u8]
        ensures { result.now ≡ name_of self.now i }
    {
        if self.kinds.len() <= i {
            return &self.text[..0];
        }
        if self.kinds[i] != 0 {
            return &self.text[..0];
        }
        letters(kinds::tail(self.text, kinds::size_at(self.starts, i)))
    }

    // Whether two places with names have one name.
    fn same_names(&self, i: usize, j: usize) -> bool
        requires { (i < length self.now.numbers.now) × (j < length self.now.numbers.now)
            × Spelt (name_of self.now i) (get_or self.now.numbers.now i 0)
            × Spelt (name_of self.now j) (get_or self.now.numbers.now j 0) }
        ensures { result ≡ same_word (name_of self.now i) (name_of self.now j) }
    {
        let code = self.numbers[i];
        if self.numbers[j] != code {
            return false;
        }
        if code < LONG {
            return true;
        }
        self.word(i) == self.word(j)
    }

    // The number of an earlier place with the name at i.
    fn earlier(&self, index: &[u16], ids: &[u16], i: usize) -> Option<u16>
        requires { (i < length self.now.kinds.now) × (i < length ids.now) × (get_or self.now.kinds.now i 0 ≡ 0)
            × Numbering (name_of self.now) i (take 512 index.now) (drop 512 index.now) ids.now }
        ensures { (f : Numbering (name_of self.now) i (take 512 index.now) (drop 512 index.now) ids.now) → Met (name_of self.now) ids.now i f.places result }
    {
        let mut link = kinds::size_at(index, buckets::bucket(self.numbers[i]));
        while 0 < link {
            let at = link - 1;
            if self.same_names(at, i) {
                return Some(ids[at]);
            }
            link = kinds::size_at(index, 512 + at);
        }
        None
    }

    // The number of the token at i, if it is a name: that of an earlier place with the name, or one more than its own place.
    fn enter(&self, index: &mut [u16], ids: &mut [u16], i: usize)
        requires { (i < length self.now.kinds.now) × (512 + i < length index.old) × (i < length ids.old)
            × Numbering (name_of self.now) i (take 512 index.old) (drop 512 index.old) ids.old }
        ensures { Numbering (name_of self.now) (i + 1) (take 512 index.new) (drop 512 index.new) ids.new }
    {
        if self.kinds[i] != 0 {
            return;
        }
        if let Some(id) = self.earlier(index, ids, i) {
            ids[i] = id;
            return;
        }
        buckets::put(index, buckets::bucket(self.numbers[i]), i, i);
        ids[i] = (i + 1) as u16;
    }

    // Numbers the names, with a table for the first place of each: two places have the same number where they have the same name, and 0 where they have
    // none.
    pub(crate) fn number(&self, index: &mut [u16], ids: &mut [u16])
        requires { (512 + length self.now.kinds.now ≤ length index.old) × (length self.now.kinds.now ≤ length ids.old)
            × ((h : ℕ) → get_or index.old h 0 ≡ 0) × ((h : ℕ) → get_or ids.old h 0 ≡ 0) }
        ensures { Numbered (name_of self.now) (length self.now.kinds.now) ids.new }
    {
        for i in 0..self.kinds.len() {
            self.enter(index, ids, i);
        }
    }
}

// Whether a point stands there.
#[tactic(auto, unfolding(crate::specs::Places::point_in))]
pub(crate) fn is_point(kinds: &[u8], i: usize) -> bool
    ensures { result ≡ point_in kinds.now i }
{
    kinds.get(i).is_some_and(|kind| 25 <= *kind)
}

fn deeper(d: usize) -> usize
    requires { d < 4000 }
    ensures { result ≡ F.deeper d }
{
    if d == 0 { 0 } else { d + 1 }
}

fn shallower(d: usize) -> usize
    ensures { result ≡ F.shallower d }
{
    if d <= 2 { 0 } else { d - 1 }
}

fn entered(d: usize) -> usize
    ensures { result ≡ F.enter d }
{
    if d == 0 { 1 } else { d }
}

// The depth in aggregates after a token. Functions have the kinds 2 to 6.
#[tactic(auto, unfolding(crate::specs::Places::depth_kind))]
fn depth(kind: u8, d: usize) -> usize
    requires { d < 4000 }
    ensures value { result ≡ depth_kind kind d }
    ensures upper_bound { result ≤ d + 1 }
{
    match kind {
        2..=6 => entered(d),
        20 => deeper(d),
        21 => shallower(d),
        _ => d,
    }
}

// Whether the token at i is the X of an X.A outside all aggregates.
#[tactic(auto, unfolding(crate::specs::Places::use_in))]
fn is_use(kinds: &[u8], d: usize, i: usize) -> bool
    requires { i < 4000 }
    ensures { result ≡ use_in kinds.now d i }
{
    kinds::byte(kinds, i) == 0 && d == 0 && is_point(kinds, i + 1)
}

// Marks the name at i, if it is used there.
fn note(kinds: &[u8], lookup: &Lookup, used: &mut [u64], d: usize, i: usize)
    requires { (i < 4000) × (get_or (ids_of lookup.now) i 0 < length used.old) }
    ensures { Noted (ids_of lookup.now) used.old i (use_in kinds.now d i) used.new }
{
    if is_use(kinds, d, i) {
        used[lookup.id_at(i)] = 4;
    }
}

// Marks, by their numbers, the names that tokens from a place on use outside all aggregates, in the table of what they stand for: nothing yet.
pub(crate) fn uses(kinds: &[u8], lookup: &Lookup, from: usize, used: &mut [u64])
    requires { (length kinds.now < 4000) × (length kinds.now < length used.old) × NamesWithin lookup.now (length kinds.now)
        × ((x : ℕ) → get_or used.old x 0 ≡ 0) }
    ensures by_index { (text ss ns : List ℕ) → Numbered (name_in text kinds.now ss) (length kinds.now) (ids_of lookup.now)
        → Used text (table kinds.now ss ns) (ids_of lookup.now) from used.new }
    ensures clear { Clear used.new }
{
    let mut d = 0;
    for i in from..kinds.len() {
        let kind = kinds[i];
        if kind == 0 {
            note(kinds, lookup, used, d, i);
            continue;
        }
        d = depth(kind, d);
    }
}

// Where symbols may be bound, after a token: 0 between the RANGE relations, 1 in their parentheses, 2 after RETRIEVE.
#[tactic(auto, unfolding(crate::specs::Places::part_kind))]
fn part(kind: u8, p: u8) -> u8
    requires { p ≤ 2 }
    ensures value { result ≡ part_kind kind p }
    ensures upper_bound { result ≤ 2 }
{
    match kind {
        14 => 2,
        20 if p == 0 => 1,
        21 if p == 1 => 0,
        _ => p,
    }
}

// The place of the name that a token binds: after SOME, or its own.
fn bound_place(kinds: &[u8], i: usize) -> usize
    requires { i < 4000 }
    ensures { result ≡ bound_place kinds.now i }
{
    if kinds::byte(kinds, i) == 16 {
        i + 1
    } else {
        i
    }
}

// Whether a token of a kind binds a name.
#[tactic(auto, unfolding(crate::specs::Places::binds_kind))]
fn binds(kind: u8, p: u8) -> bool
    ensures { result ≡ binds_kind kind p }
{
    kind == 16 || kind == 0 && p == 1
}

// Whether the token at i binds no name, or one that is not marked; it is marked then.
fn once(kinds: &[u8], lookup: &Lookup, seen: &mut [u8], p: u8, i: usize) -> bool
    requires { (i < length kinds.now) × (i < 4000) × NamesBelow lookup.now (length seen.old) }
    ensures { Told kinds.now (ids_of lookup.now) seen.old i
        (binds_kind (get_or kinds.now i 0) p) seen.new result }
{
    if !binds(kinds[i], p) {
        return true;
    }
    let x = lookup.id_at(bound_place(kinds, i));
    if seen[x] != 0 {
        return false;
    }
    seen[x] = 1;
    true
}

// Whether no symbol is bound twice, with a table for the marks.
fn unique_with(kinds: &[u8], lookup: &Lookup, seen: &mut [u8]) -> bool
    requires { (length kinds.now < 4000) × (length kinds.now < length seen.old) × NamesWithin lookup.now (length kinds.now)
        × ((x : ℕ) → get_or seen.old x 0 ≡ 0) }
    ensures { (text ss ns : List ℕ) → Numbered (name_in text kinds.now ss) (length kinds.now) (ids_of lookup.now)
        → result ≡ unique_words (binders 0 (tokens_from text (table kinds.now ss ns) 0)) }
{
    let mut p = 0;
    for (i, &kind) in kinds.iter().enumerate() {
        if !once(kinds, lookup, seen, p, i) {
            return false;
        }
        p = part(kind, p);
    }
    true
}

// The same with a table of N marks of its own.
fn unique_sized<const N: usize>(kinds: &[u8], lookup: &Lookup) -> bool
    requires { (length kinds.now < N) × (N ≤ 4000) × NamesWithin lookup.now (length kinds.now) }
    ensures { (text ss ns : List ℕ) → Numbered (name_in text kinds.now ss) (length kinds.now) (ids_of lookup.now)
        → result ≡ unique_words (binders 0 (tokens_from text (table kinds.now ss ns) 0)) }
{
    let mut seen = [0u8; N];
    unique_with(kinds, lookup, &mut seen)
}

// Whether no symbol is bound twice: the table is small where the tokens are few.
pub(crate) fn unique(kinds: &[u8], lookup: &Lookup) -> bool
    requires { (length kinds.now < 4000) × NamesWithin lookup.now (length kinds.now) }
    ensures { (text ss ns : List ℕ) → Numbered (name_in text kinds.now ss) (length kinds.now) (ids_of lookup.now)
        → result ≡ unique_words (binders 0 (tokens_from text (table kinds.now ss ns) 0)) }
{
    if kinds.len() <= 256 {
        return unique_sized::<257>(kinds, lookup);
    }
    unique_sized::<4000>(kinds, lookup)
}

// Where the targets begin: after RETRIEVE, the workspace's name and a colon.
pub(crate) fn main_place(kinds: &[u8]) -> usize
    requires { length kinds.now < 4000 }
    ensures by_index { (text ss ns : List ℕ) → tokens_from text (table kinds.now ss ns) result
        ≡ main_of (tokens_from text (table kinds.now ss ns) 0) }
    ensures upper_bound { (result < 4003) × (0 < length kinds.now → 1 ≤ result) }
{
    for (i, &kind) in kinds.iter().enumerate() {
        if kind == 14 {
            return i + 3;
        }
    }
    kinds.len()
}

// Whether a colon, and so a qualification, stands among the tokens from a place on.
pub(crate) fn qualified(kinds: &[u8], from: usize) -> bool
    ensures { (text ss ns : List ℕ) → last_of (tokens_from text (table kinds.now ss ns) from) ≡ cond result [] (16 ∷ []) }
{
    kinds::tail(kinds, from).contains(&23)
}
