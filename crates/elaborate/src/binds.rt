// The RANGE list: its symbols, with relations looked up, and a record for each symbol that is used.
ghost use Rattle.std.specs.Prelude.{◌≡◌, cond, List, ℕ, ◌+◌, ◌<◌, ◌≤◌, eqb, length, get_or, set, Some, None};
ghost use Rattle.quel.specs.Names.{Entry};
ghost use Rattle.names.specs.Entries.{entries};
ghost use Rattle.elaborate.specs.Lookup.{ids_of, Listed, NamesWithin};
ghost use Rattle.elaborate.specs.Reach.{mode_in, used_in, Bound};
ghost use Rattle.elaborate.specs.Tables.{Clear};
ghost use Rattle.elaborate.specs.Tallies.{Adds, Fills, Counts, Most};

use crate::lookups::Lookup;
use crate::{ahead, frames};
use names::Sort;

// The relation whose parentheses are open, the next variable's number, and where to write.
#[derive(Clone, Copy)]
pub struct Tally {
    pub relation: Option<u8>,
    pub n: usize,
    pub at: usize,
}

// How a symbol is entered: as a variable, or, where it is not used, as a relation alone.
fn entered(used: bool) -> u8
    ensures value { result ≡ cond used 1 2 }
    ensures upper_bound { result ≤ 2 }
{
    if used { 1 } else { 2 }
}

// Whether the name x is used: marked, or entered as a variable.
fn is_used(known: &[u64], x: usize) -> bool
    ensures { result ≡ used_in (get_or known.now x 0) }
{
    let c = ahead::entry(known, x);
    if c % 4 == 0 {
        return c != 0;
    }
    c % 4 == 1
}

// What the name x stands for, if it does not stand for anything yet.
fn settle(known: &mut [u64], x: usize, e: u64)
    requires { x < length known.old }
    ensures { known.new ≡ cond (eqb (mode_in (get_or known.old x 0)) 0) (set known.old x e) known.old }
{
    if known[x] % 4 == 0 {
        known[x] = e;
    }
}

// A symbol of the relation r, at token i.
fn symbol(lookup: &Lookup, known: &mut [u64], out: &mut [u8], s: Tally, r: u8, i: usize) -> Tally
    requires { (i < 4000) × (s.n < 4000) × (s.at < 4611686018427387904) × (s.relation ≡ Some r) × (get_or (ids_of lookup.now) i 0 < length known.old) }
    ensures by_index { (marks codes : List ℕ) (es : List Entry) (cs : List Bound) → Adds (ids_of lookup.now) marks codes es i s cs
        known.old out.old (Some result) known.new out.new }
    ensures counts { Counts s (Some result) }
{
    let x = lookup.id_at(i);
    let used = is_used(known, x);
    let v = (s.n % 256) as u8;
    settle(known, x, frames::pack(entered(used), r, v, 0));
    if !used {
        return s;
    }
    let at = copier::copy(out, s.at, &[1, v, r]);
    Tally {
        relation: Some(r),
        n: s.n + 1,
        at,
    }
}

// A name: a relation's, or a symbol in its parentheses; none where the relation is unknown.
fn name(lookup: &Lookup, known: &mut [u64], out: &mut [u8], s: Tally, i: usize) -> Option<Tally>
    requires { (i < 4000) × (s.n < 4000) × (s.at < 4611686018427387904) × (get_or (ids_of lookup.now) i 0 < length known.old)
        × Listed lookup.now }
    ensures by_index { (marks : List ℕ) (cs : List Bound) → Adds (ids_of lookup.now) marks lookup.now.numbers.now (entries lookup.now.list.now) i s cs
        known.old out.old result known.new out.new }
    ensures counts { Counts s result }
{
    if let Some(r) = s.relation {
        return Some(symbol(lookup, known, out, s, r, i));
    }
    let code = lookup.code(i);
    let relation = lookup.numbered(Sort::Relation, code)?;
    Some(Tally {
        relation: Some(relation),
        ..s
    })
}

// A token that is no name: ) closes a relation's parentheses.
fn passed(kind: u8, s: Tally) -> Tally
    ensures { result ≡ cond (eqb kind 21) (record { relation = None; n = s.n; at = s.at }) s }
{
    if kind == 21 {
        Tally {
            relation: None,
            ..s
        }
    } else {
        s
    }
}

// Enters the symbols of the RANGE list, and writes its records; names that are used are marked. None where a relation is unknown.
pub(crate) fn bind(
    kinds: &[u8],
    lookup: &Lookup,
    known: &mut [u64],
    out: &mut [u8],
) -> Option<Tally>
    requires { (length kinds.now < 4000) × (length kinds.now < length known.old)
        × NamesWithin lookup.now (length kinds.now) × Clear known.old × Listed lookup.now }
    ensures fills { Fills kinds.now (ids_of lookup.now) known.old lookup.now.numbers.now (entries lookup.now.list.now)
        out.old result known.new out.new }
    ensures most { Most (length kinds.now) result }
{
    let mut s = Tally {
        relation: None,
        n: 0,
        at: 0,
    };
    for (i, &kind) in kinds.iter().enumerate() {
        if kind == 14 {
            return Some(s);
        }
        if kind == 0 {
            s = name(lookup, known, out, s, i)?;
            continue;
        }
        s = passed(kind, s);
    }
    Some(s)
}
