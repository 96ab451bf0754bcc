// The permitted rows of each variable of a query, as lists of row numbers in its table of walks. Only permits' conditions are computed on a row that
// is not permitted, before anything of the query runs. Variables over one relation with the same permits share a list.
#![tactic(auto)]

mod judges;

ghost use Rattle.std.specs.Prelude.{◌≡◌, true, ◌&&◌, map, ℕ, ◌+◌, ◌*◌, ◌%◌, ◌≤◌, ◌<◌, eqb, length, get_or, IfSome};
ghost use Rattle.model.specs.Lists.{all, unique, filter, below, Every};
ghost use Rattle.model.specs.Syntax.{Binding, variables};
ghost use Rattle.catalogue.specs.Layout.{rows_of};
ghost use Rattle.scans.specs.Flat.{flat_bindings};
ghost use Rattle.rewriter.specs.Rewritten.{masks_in, part_in};
ghost use Rattle.rewriter.specs.Applying.{masks_by, conditions_by};
ghost use Rattle.walks.specs.Walks.{walked, Fits};
ghost use Rattle.permitted.specs.Marked.{Bits, Marked};
ghost use Rattle.permitted.specs.Meets.{meets_bytes, row_of};
ghost use Rattle.permitted.specs.Given as G;

use rewriter::Applying;
use scans::{BoundVariable, BoundVariables};
use walks::Walk;

// Where the lists of rows begin in a table of walks.
const LISTS: usize = 8 * model::ASKED_VARIABLES as usize;

// How many rows are marked at once: no large array is cleared for a few.
const FEW: usize = 16;

const MANY: usize = model::ROWS;

// What a variable is given rows by: its relation, the mask of its permits, and where a list of its own would start.
#[derive(Clone, Copy)]
struct Grant {
    variable: u8,
    relation: u8,
    mask: u8,
    next: usize,
    ghost low: { variable < 8 },
}

impl Grant {
    // It tells the rows: variables with the same key share a list.
    fn key(&self) -> usize
        ensures { (result ≡ G.key_of self.now.relation self.now.mask) × (result ≤ 65535) }
    {
        256 * usize::from(self.relation) + usize::from(self.mask)
    }
}

// What rows are granted by: the permits that apply, and the relations with their rows.
#[derive(Clone, Copy)]
struct Granting<'a> {
    applying: Applying<'a>,
    catalogue: &'a [u8],
    values: &'a [i32],
}

// The number of the row that is met as the i-th of n.
fn number(latest: bool, n: usize, i: usize) -> usize
    requires { (i < n) × (n ≤ 65535) }
    ensures { (result ≡ G.number_at latest n i) × (result < n) }
{
    if latest { n - 1 - i } else { i }
}

// The numbers of the marked rows, as they are met, from a place of the table on; where they end. Each number is written, and the next one goes over it
// unless its row is marked: the way is the same for every row.
fn collect(marks: &[u8], latest: bool, n: usize, walks: &mut [u16], start: usize) -> usize
    requires { (n ≤ length marks.now) × (n ≤ 65535) × (start + n ≤ length walks.old) × (length walks.old ≤ 65535) × Bits marks.now }
    ensures listed { G.Listed (filter (λ i. eqb (get_or marks.now i 0) 1) (map (G.number_at latest n) (below n))) start result
        walks.old walks.new }
    ensures lower_bound { (start ≤ result) × (result ≤ start + n) }
{
    let mut at = start;
    for i in 0..n {
        let row = number(latest, n, i);
        walks[at] = row as u16;
        at += usize::from(marks[row]);
    }
    at
}

// A variable's walk and key.
fn enter(walks: &mut [u16], variable: u8, walk: Walk, key: usize)
    requires { Fits walk × (key ≤ 65535) × (variable < 8) × (64 ≤ length walks.old) }
    ensures { walks.new ≡ G.entered walks.old variable walk key }
{
    allrows::put(walks, variable, walk);
    walks[8 * usize::from(variable) + 5] = key as u16;
}

// A variable with the key.
fn with_key(walks: &[u16], key: usize) -> Option<u8>
    ensures { IfSome result (λ v. (v < 8) × (get_or walks.now (8 * v + 5) 0 ≡ key)) }
{
    (0..model::ASKED_VARIABLES).find(|&v| kinds::size_at(walks, 8 * usize::from(v) + 5) == key)
}

impl Granting<'_> {
    // Permit k, if its bit, the mask's lowest, is set.
    fn turn(&self, relation: u8, mask: u8, k: usize, marks: &mut [u8])
        requires { (k < 8) × (rows_of self.now.catalogue.now relation ≤ 1024)
            × (rows_of self.now.catalogue.now relation ≤ length marks.old) × Bits marks.old }
        ensures { Marked (λ i. eqb (mask % 2) 1 && meets_bytes self.now.catalogue.now self.now.values.now
            (conditions_by self.now.applying k) (row_of self.now.catalogue.now self.now.values.now relation i))
            (rows_of self.now.catalogue.now relation) marks.old marks.new }
    {
        if mask % 2 != 1 {
            return;
        }
        let q = self.applying.condition(k);
        judges::judge(q, self.catalogue, self.values, relation, marks);
    }

    // Marks the rows of a relation that meet the condition of a permit in the mask.
    fn mark(&self, relation: u8, mask: u8, marks: &mut [u8])
        requires { (rows_of self.now.catalogue.now relation ≤ 1024)
            × (rows_of self.now.catalogue.now relation ≤ length marks.old) × Bits marks.old }
        ensures { Marked (λ i. G.meets_any self.now.catalogue.now self.now.values.now (conditions_by self.now.applying)
            mask (row_of self.now.catalogue.now self.now.values.now relation i))
            (rows_of self.now.catalogue.now relation) marks.old marks.new }
    {
        let mut m = mask;
        for k in 0..model::PERMITS {
            self.turn(relation, m, k, marks);
            m /= 2;
        }
    }

    // The rows of a relation that meet a permit in the mask, by N marks.
    fn list_by<const N: usize>(&self, grant: Grant, walks: &mut [u16]) -> usize
        requires rows { (rows_of self.now.catalogue.now grant.relation ≤ N) × (N ≤ 1024) }
        requires room { G.Room (rows_of self.now.catalogue.now grant.relation) grant.next walks.old }
        ensures listed { G.Listed (G.numbers_for self.now.catalogue.now self.now.values.now
            (conditions_by self.now.applying) grant.mask grant.relation) grant.next result walks.old walks.new }
        ensures lower_bound { (grant.next ≤ result)
            × (result ≤ grant.next + rows_of self.now.catalogue.now grant.relation) }
    {
        let mut marks = [0u8; N];
        self.mark(grant.relation, grant.mask, &mut marks);
        let known = catalogue::entry(self.catalogue, grant.relation);
        collect(&marks, known.latest, known.rows, walks, grant.next)
    }

    // The same by as many marks as are needed.
    fn list(&self, grant: Grant, walks: &mut [u16]) -> usize
        requires rows { rows_of self.now.catalogue.now grant.relation ≤ 1024 }
        requires room { G.Room (rows_of self.now.catalogue.now grant.relation) grant.next walks.old }
        ensures listed { G.Listed (G.numbers_for self.now.catalogue.now self.now.values.now
            (conditions_by self.now.applying) grant.mask grant.relation) grant.next result walks.old walks.new }
        ensures lower_bound { (grant.next ≤ result)
            × (result ≤ grant.next + rows_of self.now.catalogue.now grant.relation) }
    {
        let known = catalogue::entry(self.catalogue, grant.relation);
        if known.rows <= FEW {
            return self.list_by::<FEW>(grant, walks);
        }
        self.list_by::<MANY>(grant, walks)
    }

    // A list of its own for a variable; where the next one can start.
    fn give_new(&self, grant: Grant, walks: &mut [u16]) -> usize
        requires some { grant.mask ≡ 0 → ⊥ }
        requires rows { rows_of self.now.catalogue.now grant.relation ≤ 1024 }
        requires room { G.Room (rows_of self.now.catalogue.now grant.relation) grant.next walks.old }
        requires keyed { G.Keyed self.now.catalogue.now self.now.values.now (conditions_by self.now.applying) walks.old grant.next }
        ensures { G.Stepped self.now.catalogue.now self.now.values.now (conditions_by self.now.applying) grant.variable
            (G.rows_for self.now.catalogue.now self.now.values.now (conditions_by self.now.applying) grant.mask grant.relation)
            (rows_of self.now.catalogue.now grant.relation) grant.next result walks.old walks.new }
    {
        let end = self.list(grant, walks);
        let all = allrows::whole(self.catalogue, grant.relation);
        let walk = Walk {
            start: grant.next,
            count: end - grant.next,
            ..all
        };
        enter(walks, grant.variable, walk, grant.key());
        end
    }

    // The list of another variable with the same key, or one of its own.
    fn give_listed(&self, grant: Grant, walks: &mut [u16]) -> usize
        requires some { grant.mask ≡ 0 → ⊥ }
        requires rows { rows_of self.now.catalogue.now grant.relation ≤ 1024 }
        requires room { G.Room (rows_of self.now.catalogue.now grant.relation) grant.next walks.old }
        requires keyed { G.Keyed self.now.catalogue.now self.now.values.now (conditions_by self.now.applying) walks.old grant.next }
        ensures { G.Stepped self.now.catalogue.now self.now.values.now (conditions_by self.now.applying) grant.variable
            (G.rows_for self.now.catalogue.now self.now.values.now (conditions_by self.now.applying) grant.mask grant.relation)
            (rows_of self.now.catalogue.now grant.relation) grant.next result walks.old walks.new }
    {
        let key = grant.key();
        let Some(other) = with_key(walks, key) else {
            return self.give_new(grant, walks);
        };
        let walk = walks::walk_of(walks, other);
        enter(walks, grant.variable, walk, key);
        grant.next
    }

    // Where 33 has passed, a mask of 0 is a workspace's, of which all rows are permitted.
    fn give(&self, grant: Grant, walks: &mut [u16]) -> usize
        requires rows { rows_of self.now.catalogue.now grant.relation ≤ 1024 }
        requires room { G.Room (rows_of self.now.catalogue.now grant.relation) grant.next walks.old }
        requires keyed { G.Keyed self.now.catalogue.now self.now.values.now (conditions_by self.now.applying) walks.old grant.next }
        ensures { G.Stepped self.now.catalogue.now self.now.values.now (conditions_by self.now.applying) grant.variable
            (G.rows_for self.now.catalogue.now self.now.values.now (conditions_by self.now.applying) grant.mask grant.relation)
            (rows_of self.now.catalogue.now grant.relation) grant.next result walks.old walks.new }
    {
        if grant.mask != 0 {
            return self.give_listed(grant, walks);
        }
        let all = allrows::whole(self.catalogue, grant.relation);
        enter(walks, grant.variable, all, 0);
        grant.next
    }

    // A bound variable of the query is given its rows.
    fn fill_one(&self, b: BoundVariable, next: usize, walks: &mut [u16]) -> usize
        requires low { b.variable < 8 }
        requires rows { rows_of self.now.catalogue.now b.relation ≤ 1024 }
        requires mask { get_or (masks_by self.now.applying) b.variable 0 < 256 }
        requires room { G.Room (rows_of self.now.catalogue.now b.relation) next walks.old }
        requires keyed { G.Keyed self.now.catalogue.now self.now.values.now (conditions_by self.now.applying) walks.old next }
        ensures { G.Stepped self.now.catalogue.now self.now.values.now (conditions_by self.now.applying) b.variable
            (G.rows_for self.now.catalogue.now self.now.values.now (conditions_by self.now.applying)
            (get_or (masks_by self.now.applying) b.variable 0) b.relation) (rows_of self.now.catalogue.now b.relation) next
            result walks.old walks.new }
    {
        let mask = self.applying.mask(b.variable) as u8;
        let grant = Grant {
            variable: b.variable,
            relation: b.relation,
            mask,
            next,
        };
        self.give(grant, walks)
    }
}

// The walks of all variables that the query binds, in a cleared table with 64 numbers and room for eight lists.
pub fn fill(
    query: &[u8],
    permits: &[u8],
    table: &[u16],
    catalogue: &[u8],
    values: &[i32],
    walks: &mut [u16],
)
    requires { (unique (variables (flat_bindings query.now)) ≡ true)
        × Every (G.Low catalogue.now (G.most_in walks.old)) (flat_bindings query.now) × (length (flat_bindings query.now) ≤ 8)
        × ((64 ≤ length walks.old) × (length walks.old ≤ 8256)) × ((i : ℕ) → get_or walks.old i 0 ≡ 0)
        × G.Bytes (masks_in table.now) }
    ensures { Every (λ (b : Binding). walked walks.new values.now b.variable
        ≡ G.rows_for catalogue.now values.now (part_in permits.now table.now)
        (get_or (masks_in table.now) b.variable 0) b.relation) (flat_bindings query.now) }
{
    let granting = Granting {
        applying: Applying { permits, table },
        catalogue,
        values,
    };
    let mut next = LISTS;
    for b in BoundVariables::of(query) {
        next = granting.fill_one(b, next, walks);
    }
}
