// The catalogue's records, checks 10 and 11, and the values of rows.
#![tactic(auto)]

ghost use Rattle.std.specs.Prelude.{◌≡◌, not, ℕ, ◌+◌, ◌*◌, ◌≤◌, ◌<◌, eqb, pos, length, get_or};
ghost use Rattle.model.specs.Checks.{fails10, refusal, keeper_checks};
ghost use Rattle.model.specs.Refusals.{code_of};
ghost use Rattle.catalogue.specs.Layout as L;

use model::Refusal;

// The length of a record, the same for all three kinds.
pub const RECORD: usize = 4;

// What the catalogue says of a relation.
#[derive(Clone, Copy)]
pub struct Relation {
    // whether there is such a relation
    pub listed: bool,
    pub stored: bool,
    // whether its latest row is met first
    pub latest: bool,
    pub attributes: usize,
    pub rows: usize,
}

// The byte at i, 0 past the end.
fn byte(bytes: &[u8], i: usize) -> usize
    ensures value { result ≡ get_or bytes.now i 0 }
    ensures upper_bound { result ≤ 255 }
{
    usize::from(bytes.get(i).copied().unwrap_or(0))
}

#[tactic(auto, unfolding(crate::specs::Layout::kind_of))]
fn kind(catalogue: &[u8], relation: u8) -> usize
    ensures { result ≡ L.kind_of catalogue.now relation }
{
    byte(catalogue, RECORD * usize::from(relation))
}

#[tactic(auto, unfolding(crate::specs::Layout::attributes_of))]
fn attributes(catalogue: &[u8], relation: u8) -> usize
    ensures value { result ≡ L.attributes_of catalogue.now relation }
    ensures upper_bound { result ≤ 255 }
{
    byte(catalogue, RECORD * usize::from(relation) + 1)
}

#[tactic(auto, unfolding(crate::specs::Layout::rows_of))]
fn rows(catalogue: &[u8], relation: u8) -> usize
    ensures value { result ≡ L.rows_of catalogue.now relation }
    ensures upper_bound { result ≤ 65535 }
{
    let at = RECORD * usize::from(relation);
    byte(catalogue, at + 2) + 256 * byte(catalogue, at + 3)
}

fn stored(catalogue: &[u8], relation: u8) -> bool
    ensures { result ≡ L.stored_of catalogue.now relation }
{
    kind(catalogue, relation) != 49
}

// Whether its latest row is met first.
fn latest(catalogue: &[u8], relation: u8) -> bool
    ensures { result ≡ L.latest_of catalogue.now relation }
{
    kind(catalogue, relation) == 50
}

// How many relations there are.
fn count(catalogue: &[u8]) -> usize
    ensures { result ≡ L.count_of catalogue.now }
{
    catalogue.len() / RECORD
}

// What the catalogue says of a relation; past its bytes they are read as 0.
pub fn entry(catalogue: &[u8], relation: u8) -> Relation
    ensures value { result ≡ L.relation_of catalogue.now relation }
    ensures attributes_bound { (result.attributes ≤ 255) × (result.rows ≤ 65535) }
{
    Relation {
        listed: usize::from(relation) < count(catalogue),
        stored: stored(catalogue, relation),
        latest: latest(catalogue, relation),
        attributes: attributes(catalogue, relation),
        rows: rows(catalogue, relation),
    }
}

// Where the values of a relation begin.
pub fn base(catalogue: &[u8], relation: u8) -> usize
    ensures value { result ≡ L.base_of catalogue.now relation }
    ensures upper_bound { result ≤ 16711425 * relation }
{
    let mut at = 0;
    for i in 0..relation {
        at += rows(catalogue, i) * attributes(catalogue, i);
    }
    at
}

// How many values the relations have in all; past the bytes of the catalogue there are none.
fn total(catalogue: &[u8]) -> usize
    ensures { result ≡ L.base_of catalogue.now 16 }
{
    let n = count(catalogue);
    if n < model::RELATIONS {
        return base(catalogue, n as u8 + 1);
    }
    base(catalogue, 16)
}

// The value of attribute i in the row that begins at `row`, 0 past the end.
pub fn value(values: &[i32], row: usize, i: usize) -> i32
    ensures { result ≡ get_or values.now (row + i) (pos 0) }
{
    let part = values.get(row..).unwrap_or(&[]);
    part.get(i).copied().unwrap_or(0)
}

// Whether a record has a known kind and numbers in their ranges.
fn known(catalogue: &[u8], relation: u8) -> bool
    ensures { result ≡ L.known_of catalogue.now relation }
{
    (48..=50).contains(&kind(catalogue, relation))
        && (1..=model::ATTRIBUTES).contains(&attributes(catalogue, relation))
        && rows(catalogue, relation) <= model::ROWS
}

// Check 10.
fn fails_10(catalogue: &[u8]) -> bool
    ensures { result ≡ fails10 catalogue.now }
{
    let n = count(catalogue);
    if n == 0 {
        return true;
    }
    if model::RELATIONS < n {
        return true;
    }
    if RECORD * n != catalogue.len() {
        return true;
    }
    for i in 0..n as u8 {
        if !known(catalogue, i) {
            return true;
        }
    }
    false
}

// Checks 10 and 11: the first that fails.
pub fn check(catalogue: &[u8], values: &[i32]) -> Result<(), Refusal>
    ensures { code_of result ≡ refusal (keeper_checks catalogue.now values.now) }
{
    if fails_10(catalogue) {
        return Err(Refusal::Catalogue);
    }
    if values.len() != total(catalogue) {
        return Err(Refusal::Values);
    }
    Ok(())
}
