// The table of applying permits: where each permit's condition stands, then for each variable a mask of those that apply to it.
// The rewriter is lent it. One walk over the bindings makes it, and with it check 33 and the length of the rewritten query.
#![tactic(auto)]

mod applying;
mod uses;

ghost use Rattle.std.specs.Prelude.{◌≡◌, not, ◌||◌, ◌+◌, ◌*◌, ◌^◌, ◌≤◌, ◌<◌, eqb, length, get_or, set, take};
ghost use Rattle.model.specs.Permits.{bit};
ghost use Rattle.catalogue.specs.Layout.{stored_of};
ghost use Rattle.scans.specs.Flat.{is_binding, flat_bindings};
ghost use Rattle.permits.specs.Entries.{entries};
ghost use Rattle.rewriter.specs.Rewritten.{places_in, masks_in};
ghost use Rattle.guards.specs.Filled.{placed_from, verdict_of, mask_for, masked, bit_of};
ghost use Rattle.guards.specs.Counted.{Short, turn_length, length_from, served_by, length_by, tally_all, check33};

use model::Refusal;
use scans::{BoundVariable, BoundVariables};

const PERMITS: u8 = model::PERMITS as u8;

// What a permit list is to a variable: bit k of the mask for permit k where it applies, and whether a permit bars it.
#[derive(Clone, Copy)]
struct Verdict {
    mask: u8,
    barred: bool,
}

// Of bound variables: whether each over a stored relation has a permit (33), and how many bytes their guards take.
#[derive(Clone, Copy)]
struct Tally {
    served: bool,
    length: usize,
}

fn put(table: &mut [u16], i: usize, x: usize)
    requires { x ≤ 65535 }
    ensures { table.new ≡ set table.old i x }
{
    if i < table.len() {
        table[i] = x as u16;
    }
}

// The permits from `at` on, at most so many, permit k first.
fn fill_places(permits: &[u8], at: usize, k: usize, left: usize, table: &mut [u16])
    requires { (at ≤ 65536) × (k + left ≤ 8) × (length permits.now ≤ 2048) }
    ensures { table.new ≡ placed_from left permits.now at k table.old }
{
    if left == 0 {
        return;
    }
    if permits.len() <= at {
        return;
    }
    let own = applying::header();
    let rest = kinds::tail(permits, at);
    put(table, 2 * k, at + own);
    let n = applying::size(rest);
    put(table, 2 * k + 1, n - own);
    fill_places(permits, at + n, k + 1, left - 1, table);
}

fn one_if(b: bool) -> u8
    ensures { (result ≡ bit_of b) × (result ≤ 1) }
{
    if b { 1 } else { 0 }
}

// Of the first so many permits: which apply to a variable, and whether one bars it.
fn standing(permits: &[u8], left: u8, relation: u8, used: u16) -> Verdict
    requires { left ≤ 8 }
    ensures value { result ≡ verdict_of (λ a. bit used a) relation (take left (entries permits.now)) }
    ensures mask_bound { result.mask < 2 ^ left }
{
    if left == 0 {
        return Verdict {
            mask: 0,
            barred: false,
        };
    }
    if permits.len() == 0 {
        return Verdict {
            mask: 0,
            barred: false,
        };
    }
    let first = one_if(applying::applies(permits, relation, used));
    let bars = applying::bars(permits, relation, used);
    let rest = standing(
        kinds::tail(permits, applying::size(permits)),
        left - 1,
        relation,
        used,
    );
    Verdict {
        mask: first + 2 * rest.mask,
        barred: bars | rest.barred,
    }
}

// The mask of a variable over a relation; 0 over a workspace, and where the variable is barred: 33 is then due.
fn mask_for(query: &[u8], permits: &[u8], catalogue: &[u8], variable: u8, relation: u8) -> u8
    ensures { result ≡ mask_for query.now permits.now catalogue.now (record { variable = variable; relation = relation }) }
{
    let known = catalogue::entry(catalogue, relation);
    if !known.stored {
        return 0;
    }
    let found = standing(permits, PERMITS, relation, uses::used_mask(query, variable));
    if found.barred {
        return 0;
    }
    found.mask
}

// The length of permit k's condition.
fn length_at(table: &[u16], k: usize) -> usize
    requires { k < 8 }
    ensures { result ≡ get_or (places_in table.now) (2 * k + 1) 0 }
{
    kinds::size_at(table, 2 * k + 1)
}

// What permit k adds to a guard if its bit, the mask's lowest, is set: its condition, with one byte more.
fn turn_length(table: &[u16], mask: u8, k: usize) -> usize
    requires { (k < 8) × Short (places_in table.now) }
    ensures { (result ≡ turn_length (places_in table.now) mask k) × (result ≤ 4097) }
{
    if mask % 2 != 1 {
        return 0;
    }
    1 + length_at(table, k)
}

// How many bytes the guard of a mask takes: its permits' conditions, the AND before them, and an OR between two.
fn guard_length(table: &[u16], mask: u8) -> usize
    requires { Short (places_in table.now) }
    ensures { (result ≡ length_from (places_in table.now) 8 mask 0) × (result ≤ 32776) }
{
    let mut n: usize = 0;
    let mut m = mask;
    for k in 0..model::PERMITS {
        n += turn_length(table, m, k);
        m /= 2;
    }
    n
}

// 33 of a variable with this mask: over a stored relation it has a permit.
fn served(catalogue: &[u8], relation: u8, mask: u8) -> bool
    ensures { result ≡ (not (stored_of catalogue.now relation) || not (eqb mask 0)) }
{
    if mask != 0 {
        return true;
    }
    let known = catalogue::entry(catalogue, relation);
    !known.stored
}

// Enters a bound variable into the table.
#[tactic(auto, unfolding(crate::specs::Counted::served_by))]
fn enter(
    query: &[u8],
    permits: &[u8],
    catalogue: &[u8],
    b: BoundVariable,
    table: &mut [u16],
) -> Tally
    requires { Short (places_in table.old) }
    ensures served { result.served ≡ served_by query.now permits.now catalogue.now (is_binding b) }
    ensures length { result.length ≡ length_by query.now permits.now catalogue.now (places_in table.old) (is_binding b) }
    ensures length_bound { result.length ≤ 32776 }
    ensures table_after { (masks_in table.new ≡ set (masks_in table.old) b.variable (mask_for query.now permits.now
        catalogue.now (is_binding b))) × (places_in table.new ≡ places_in table.old) }
{
    let mask = mask_for(query, permits, catalogue, b.variable, b.relation);
    put(
        table,
        rewriter::PLACES + usize::from(b.variable),
        usize::from(mask),
    );
    Tally {
        served: served(catalogue, b.relation, mask),
        length: guard_length(table, mask),
    }
}

// Enters all variables that the query binds; to the bytes of their guards the query's own are added.
#[tactic(auto, unfolding(model::specs::Lists::all, model::specs::Lists::total, crate::specs::Filled::masked, crate::specs::Counted::rewritten_length))]
fn enter_all(query: &[u8], permits: &[u8], catalogue: &[u8], table: &mut [u16]) -> Tally
    requires { (length query.now ≤ 1024) × Short (places_in table.old) }
    ensures value { result ≡ tally_all query.now permits.now catalogue.now (places_in table.old) }
    ensures table_after { (masks_in table.new ≡ masked query.now permits.now catalogue.now
        (flat_bindings query.now) (masks_in table.old)) × (places_in table.new ≡ places_in table.old) }
{
    let mut served = true;
    let mut length = query.len();
    for b in BoundVariables::of(query) {
        let t = enter(query, permits, catalogue, b, table);
        served &= t.served;
        length += t.length;
    }
    Tally { served, length }
}

// Fills the table: check 33, and where it passes how many bytes the rewritten query has. A variable without a permit does not end the walk: a refusal
// too is said after all of them.
pub fn fill(
    query: &[u8],
    permits: &[u8],
    catalogue: &[u8],
    table: &mut [u16],
) -> Result<usize, Refusal>
    requires { (length query.now ≤ 1024) × (length permits.now ≤ 2048) × Short (places_in table.old) }
    ensures value { result ≡ check33 query.now permits.now catalogue.now (places_in table.new) }
    ensures table_after { places_in table.new ≡ placed_from 8 permits.now 0 0 (places_in table.old) }
    ensures table_after_2 { masks_in table.new ≡ masked query.now permits.now catalogue.now
        (flat_bindings query.now) (masks_in table.old) }
{
    fill_places(permits, 0, 0, model::PERMITS, table);
    let t = enter_all(query, permits, catalogue, table);
    if !t.served {
        return Err(Refusal::NoPermit);
    }
    Ok(t.length)
}
