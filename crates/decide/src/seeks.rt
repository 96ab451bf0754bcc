// Which rows of a variable a loop stops at (specs/Cursor): by the comparison of the first branch, whose side that does not run with the rows is read
// once; or by a chain (specs/Keys).
ghost use Rattle.std.specs.Prelude.{◌≡◌, true, false, cond, ltb, List, [], ◌∷◌, ℕ, ◌+◌, ◌-◌, ◌*◌, ◌/◌, ◌%◌, ◌≤◌, ◌<◌, length, get_or, IfSome, Some};
ghost use Rattle.std.specs.Option.{unwrap_or};
ghost use Rattle.std.proofs.lemmas.List.Edits.{sets};
ghost use Rattle.catalogue.specs.Layout.{tuple_at};
ghost use Rattle.walks.specs.Walks.{place_at};
ghost use Rattle.walks.specs.Assigned.{assigned};
ghost use Rattle.branches.specs.Branches.{field, operand, number};
ghost use Rattle.numbers.specs.Numbers.{value_of, Small};
ghost use Rattle.decide.specs.Keys as K;
ghost use Rattle.decide.specs.Cursor as C;

use crate::chains;
use crate::chains::{Chain, Entry, Rows};
pub use crate::probes::Test;
use numbers::Ratio;

// The rows that a loop stops at: every one, those that pass a test, those of a chain, or those of two.
#[derive(Clone, Copy)]
pub enum Stops {
    Every,
    Tested(Test),
    One(Entry),
    Two(Entry, Entry),
}

// What a loop over the rows of a variable has read before the first one: which rows it stops at (specs/Cursor), and the branch that such a row goes
// on from.
#[derive(Clone, Copy)]
pub struct Cursor {
    pub next: usize,
    pub stops: Stops,
}

impl Cursor {
    // The first row of a walk, from one on, that is stopped at; where there is none, the count of rows. The row before is one that was stopped at.
    pub fn next_row(&self, rows: &Rows, chains: &[u16], from: usize) -> usize
        requires { (from ≤ rows.now.walk.count) × C.Ready self.now rows.now.values.now rows.now.walks.now rows.now.walk chains.now
            × (0 < from → C.stops self.now (tuple_at rows.now.values.now (place_at rows.now.walks.now rows.now.walk (from - 1))) ≡ true) }
        ensures lower_bound { (from ≤ result) × (result ≤ rows.now.walk.count) }
        ensures by_index { (j : ℕ) → from ≤ j → j < result → C.stops self.now (tuple_at rows.now.values.now (place_at rows.now.walks.now rows.now.walk j)) ≡ false }
        ensures result_value { result < rows.now.walk.count → C.stops self.now (tuple_at rows.now.values.now (place_at rows.now.walks.now rows.now.walk result)) ≡ true }
    {
        match self.stops {
            Stops::Every => from,
            Stops::Tested(test) => test.next_row(rows, from),
            Stops::One(entry) => {
                let one = Chain {
                    rows: *rows,
                    entry,
                    table: chains,
                };
                one.follow(from)
            }
            Stops::Two(entry, other) => {
                let one = Chain {
                    rows: *rows,
                    entry,
                    table: chains,
                };
                one.either(other, from)
            }
        }
    }
}

// Where a branch leads if it holds: an earlier one, or 1.
fn onward_from(t: &[u16], start: usize) -> usize
    requires { start ≤ 65535 }
    ensures { result ≡ cond (ltb (field t.now start 5) start) (field t.now start 5) 1 }
{
    let met = kinds::size_at(t, 8 * start + 5);
    if met < start { met } else { 1 }
}

// Whether branch `start` is a comparison that leads to 1 where it fails.
fn fails_alone(t: &[u16], start: usize, operator: usize) -> bool
    requires { start ≤ 65535 }
    ensures { result ≡ true → (2 ≤ start) × ((operator ≡ 0 → ⊥) × ((operator ≡ 256 → ⊥) × (field t.now start 6 ≡ 1))) }
{
    2 <= start && (1..=255).contains(&operator) && kinds::size_at(t, 8 * start + 6) == 1
}

// An equality that a row of a variable must meet: where its other side stands in a table, the number of that side, the attribute, and the branch
// that a row may still lead from to 0 where it fails; 1 is no such branch.
#[derive(Clone, Copy)]
struct Key {
    place: usize,
    number: usize,
    attribute: usize,
    other: usize,
    ghost place_fits: { place ≤ 65535 },
    ghost number_fits: { number ≤ 255 },
    ghost attribute_fits: { attribute ≤ 65535 },
}

// Branch i, where it is such an equality.
fn key_at(t: &[u16], i: usize, variable: u8) -> Option<Key>
    requires { i < 64 }
    ensures { IfSome result (λ k. (k.other ≡ field t.now i 6) × K.Tells t.now i variable k.place k.number k.attribute × (k.place / 8 ≡ i)) }
{
    let p = 8 * i;
    if kinds::size_at(t, p) != 1 {
        return None;
    }
    let v = usize::from(variable);
    let a = kinds::size_at(t, p + 1);
    let b = kinds::size_at(t, p + 3);
    let other = kinds::size_at(t, p + 6);
    if a == v {
        if b == v {
            return None;
        }
        return Some(Key {
            place: p + 3,
            number: 2 * i + 1,
            attribute: kinds::size_at(t, p + 2),
            other,
        });
    }
    if b != v {
        return None;
    }
    Some(Key {
        place: p + 1,
        number: 2 * i,
        attribute: kinds::size_at(t, p + 4),
        other,
    })
}

// The first such equality on the way from branch `start` along what holds, as far as each branch fails as a whole.
fn key_of(t: &[u16], start: usize, variable: u8) -> Option<Key>
    requires { start < 64 }
    ensures { IfSome result (λ k. K.Decides t.now start k.other variable k.place k.number k.attribute
        × (k.place / 8 ≡ start → K.Tells t.now start variable k.place k.number k.attribute)) }
{
    let mut at = start;
    while 2 <= at {
        if let Some(key) = key_at(t, at, variable) {
            return Some(key);
        }
        if kinds::size_at(t, 8 * at + 6) != 1 {
            return None;
        }
        let to = kinds::size_at(t, 8 * at + 5);
        if at <= to {
            return None;
        }
        at = to;
    }
    None
}

// Whether a chain pays for so many rows, and has room before `end`.
fn pays(rows: usize, end: usize, length: usize) -> bool
    ensures { result ≡ true → (end ≤ length) × (end ≤ 65535) }
{
    8 <= rows && end <= length.min(65535)
}

// The number of a side and a branch in one: the number alone where the branch is 1.
fn mark(number: usize, other: usize) -> usize
    requires { (number ≤ 255) × (1 ≤ other) × (other ≤ 63) }
    ensures { (K.onward result ≡ other) × (result % 256 ≡ number) × (result ≤ 65535) }
{
    if other == 1 {
        number
    } else {
        number + 256 * other
    }
}

// The branch of such a number.
fn onward(mark: usize) -> usize
    ensures { result ≡ K.onward mark }
{
    if mark < 256 { 1 } else { mark / 256 }
}

// What a chain is for.
fn head(chains: &mut [u16], at: usize, variable: u8, number: usize, key: Key)
    requires { (at + 4 ≤ length chains.old) × (at ≤ 65535) × (number ≤ 65535) }
    ensures { chains.new ≡ sets chains.old at (variable ∷ key.place ∷ number ∷ key.attribute ∷ []) }
{
    chains[at] = u16::from(variable);
    chains[at + 1] = key.place as u16;
    chains[at + 2] = number as u16;
    chains[at + 3] = key.attribute as u16;
}

// What chains are made from: the branches, and the rows of all variables.
#[derive(Clone, Copy)]
struct Source<'a> {
    t: &'a [u16],
    walks: &'a [u16],
    values: &'a [i32],
}

impl Source<'_> {
    // A chain from place `free` on for the rows of a variable by the equality that leads from branch `start`, where there is one and a row that fails it
    // may lead on from branch `other` (1: from none); the next free place.
    fn add_key(
        &self,
        start: usize,
        other: usize,
        variable: u8,
        chains: &mut [u16],
        free: usize,
    ) -> Option<usize>
        requires { (start < 64) × (1 ≤ other) × (other < 64) × K.Filling free self.now.t.now self.now.walks.now self.now.values.now chains.old }
        ensures { K.Filling (unwrap_or result free) self.now.t.now self.now.walks.now self.now.values.now chains.new }
    {
        let key = key_of(self.t, start, variable)?;
        let walk = walks::walk_of(self.walks, variable);
        let end = free + 1028 + walk.count;
        if key.other != other {
            return None;
        }
        if !pays(walk.count, end, chains.len()) {
            return None;
        }
        head(chains, free, variable, mark(key.number, other), key);
        chains::build(
            self.values,
            self.walks,
            walk,
            key.attribute,
            chains,
            free + 4,
        );
        chains[start] = free as u16;
        Some(end)
    }

    // Chains from place `free` on for the rows of a variable by the equality that leads from branch `start`, where there is one, or by two of which a
    // row must meet one; the next free place.
    fn add(&self, start: usize, variable: u8, chains: &mut [u16], free: usize) -> usize
        requires { K.Filling free self.now.t.now self.now.walks.now self.now.values.now chains.old }
        ensures { K.Filling result self.now.t.now self.now.walks.now self.now.values.now chains.new }
    {
        if 64 <= start {
            return free;
        }
        if let Some(next) = self.add_key(start, 1, variable, chains, free) {
            return next;
        }
        let Some(key) = key_of(self.t, start, variable) else {
            return free;
        };
        let other = key.other;
        if other < 2 {
            return free;
        }
        if 64 <= other {
            return free;
        }
        let Some(behind) = self.add_key(other, 1, variable, chains, free) else {
            return free;
        };
        self.add_key(start, other, variable, chains, behind)
            .unwrap_or(behind)
    }

    // A chain for what branch i asks of a row, where it asks for one; the next free place.
    fn add_search(&self, i: usize, chains: &mut [u16], free: usize) -> usize
        requires { (i < 64) × K.Filling free self.now.t.now self.now.walks.now self.now.values.now chains.old }
        ensures { K.Filling result self.now.t.now self.now.walks.now self.now.values.now chains.new }
    {
        if kinds::size_at(self.t, 8 * i) != 256 {
            return free;
        }
        let Ok(variable) = u8::try_from(kinds::size_at(self.t, 8 * i + 1)) else {
            return free;
        };
        self.add(kinds::size_at(self.t, 8 * i + 2), variable, chains, free)
    }

    // Whether branch i is in use: one that is leads to two ends. It promises nothing: a look at all 62 would do as well.
    fn used(&self, i: usize) -> bool
        requires { i < 64 }
    {
        kinds::size_at(self.t, 8 * i + 5) != kinds::size_at(self.t, 8 * i + 6)
    }

    // Chains for the branches of a table that ask for a row; the next free place.
    fn add_searches(&self, chains: &mut [u16], free: usize) -> usize
        requires { K.Filling free self.now.t.now self.now.walks.now self.now.values.now chains.old }
        ensures { K.Filling result self.now.t.now self.now.walks.now self.now.values.now chains.new }
    {
        let mut next = free;
        for i in 2..64 {
            if !self.used(i) {
                return next;
            }
            next = self.add_search(i, chains, next);
        }
        next
    }
}

// Chains for what is walked again and again, in a cleared table: the ranges of a query after the first, and the rows that a branch asks for. With no range
// the query is not looked at.
pub fn link(q: &[u8], ranges: usize, t: &[u16], walks: &[u16], values: &[i32], chains: &mut [u16])
    requires { (ranges ≤ 7) × ((i : ℕ) → get_or chains.old i 0 ≡ 0) }
    ensures { K.Faithful t.now walks.now values.now chains.new }
{
    let source = Source { t, walks, values };
    let mut free = 64;
    for d in 1..ranges {
        let start = kinds::size_at(t, 2 * d + 2);
        let variable = kinds::byte(q, kinds::RANGE * d + 1);
        free = source.add(start, variable, chains, free);
    }
    source.add_searches(chains, free);
}

// What is known before a loop over the rows of a variable: the branches, the chains, the values, and where the other variables stand.
#[derive(Clone, Copy)]
struct Seek<'a> {
    t: &'a [u16],
    variable: u8,
    chains: &'a [u16],
    values: &'a [i32],
    memo: &'a [i64],
    env: &'a [usize],
    ghost places: { 256 ≤ length env.now },
}

impl Seek<'_> {
    // The side of a branch at a place, with its number.
    fn side(&self, place: usize, j: usize) -> Ratio
        requires { (place ≤ 1048576) × (j ≤ 1048576) }
        ensures value { value_of result ≡ operand self.now.memo.now (get_or self.now.t.now place 0) (get_or self.now.t.now (place + 1) 0)
            (number self.now.t.now j) (assigned self.now.values.now self.now.env.now) }
        ensures small { Small result }
    {
        branches::side(self.t, place, j, self.values, self.memo, self.env)
    }

    // The rows that meet the comparison of branch `start`, where it is one with the variable, and a row that does not leads to 1.
    fn tested(&self, start: usize) -> Option<Cursor>
        requires { start ≤ 65535 }
        ensures { IfSome result (λ c. (ws cs : List ℕ) → C.Prepared c self.now.t.now start self.now.variable ws self.now.values.now self.now.memo.now self.now.env.now cs) }
    {
        let p = 8 * start;
        let operator = kinds::size_at(self.t, p);
        let v = usize::from(self.variable);
        let a = kinds::size_at(self.t, p + 1);
        let b = kinds::size_at(self.t, p + 3);
        if !fails_alone(self.t, start, operator) {
            return None;
        }
        let next = onward_from(self.t, start);
        if a == v {
            if b == v {
                return None;
            }
            let x = self.side(p + 3, 2 * start + 1);
            let c = kinds::size_at(self.t, p + 2);
            return Some(Cursor {
                next,
                stops: Stops::Tested(Test::of(c, operator, false, x)),
            });
        }
        if b != v {
            return None;
        }
        let x = self.side(p + 1, 2 * start);
        let c = kinds::size_at(self.t, p + 4);
        Some(Cursor {
            next,
            stops: Stops::Tested(Test::of(c, operator, true, x)),
        })
    }

    // The place of the chain for the variable by branch `start`, if there is one.
    fn chain_of(&self, start: usize) -> Option<usize>
        ensures { IfSome result (λ at. K.Stands self.now.chains.now start self.now.variable at × (at ≤ 65535)) }
    {
        if 64 <= start {
            return None;
        }
        let at = kinds::size_at(self.chains, start);
        if at == 0 {
            return None;
        }
        if kinds::size_at(self.chains, at) != usize::from(self.variable) {
            return None;
        }
        Some(at)
    }

    // How the chain at a place is entered, where the value that it is entered with is whole.
    fn entered(&self, at: usize) -> Option<Entry>
        requires { at ≤ 65535 }
        ensures { IfSome result (λ x. K.Entering x at self.now.t.now self.now.values.now self.now.memo.now self.now.env.now self.now.chains.now) }
    {
        let place = kinds::size_at(self.chains, at + 1);
        let mark = kinds::size_at(self.chains, at + 2);
        let x = self.side(place, mark % 256);
        if x.denominator != 1 {
            return None;
        }
        Some(Entry {
            at: at + 4,
            attribute: kinds::size_at(self.chains, at + 3),
            value: x.numerator,
        })
    }

    // Where a row goes on that has the equality of the chain at `at`: behind branch `start` where that is the equality, else at `start`.
    fn behind(&self, start: usize, at: usize) -> usize
        requires { (start ≤ 65535) × (at ≤ 65535) }
        ensures upper_bound { result ≤ start }
        ensures follows { (v n a : ℕ) → (get_or self.now.chains.now (at + 1) 0 / 8 ≡ start
            → K.Tells self.now.t.now start v (get_or self.now.chains.now (at + 1) 0) n a)
            → K.Follows self.now.t.now start result v (get_or self.now.chains.now (at + 1) 0) n a }
    {
        if start < 2 {
            return start;
        }
        if kinds::size_at(self.chains, at + 1) / 8 != start {
            return start;
        }
        onward_from(self.t, start)
    }

    // The rows of the chain by branch `start`, or of two of which a row must have one, where there are chains that serve.
    fn chained(&self, start: usize) -> Option<Cursor>
        requires { start ≤ 65535 }
        ensures { IfSome result (λ c. (ws : List ℕ) → K.Faithful self.now.t.now ws self.now.values.now self.now.chains.now
            → C.Prepared c self.now.t.now start self.now.variable ws self.now.values.now self.now.memo.now self.now.env.now self.now.chains.now) }
    {
        let at = self.chain_of(start)?;
        let entry = self.entered(at)?;
        let other = onward(kinds::size_at(self.chains, at + 2));
        if other == 1 {
            return Some(Cursor {
                next: self.behind(start, at),
                stops: Stops::One(entry),
            });
        }
        let last = self.chain_of(other)?;
        if onward(kinds::size_at(self.chains, last + 2)) != 1 {
            return None;
        }
        let second = self.entered(last)?;
        Some(Cursor {
            next: start,
            stops: Stops::Two(entry, second),
        })
    }
}

// What a loop over the rows of a variable reads before the first one, where each is to lead from branch `start` to 0.
pub fn prepare(
    t: &[u16],
    start: usize,
    variable: u8,
    chains: &[u16],
    values: &[i32],
    memo: &[i64],
    env: &[usize],
) -> Cursor
    requires { (256 ≤ length env.now) × (start ≤ 65535) }
    ensures { (ws : List ℕ) → K.Faithful t.now ws values.now chains.now
        → C.Prepared result t.now start variable ws values.now memo.now env.now
        chains.now }
{
    let seek = Seek {
        t,
        variable,
        chains,
        values,
        memo,
        env,
    };
    if let Some(cursor) = seek.chained(start) {
        return cursor;
    }
    if let Some(cursor) = seek.tested(start) {
        return cursor;
    }
    Cursor {
        next: start,
        stops: Stops::Every,
    }
}
