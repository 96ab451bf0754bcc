// The answer buffer: distinct rows, row after row, and refusal 41.
#![tactic(auto)]

ghost use Rattle.std.specs.Prelude.{◌≡◌, ℕ, ◌+◌, ◌/◌, ◌≤◌, ◌<◌, min, length};
ghost use Rattle.std.specs.Int.Signed.{mag};
ghost use Rattle.model.specs.Meaning.{same_row};
ghost use Rattle.rows.specs.Buffer.{sought, added, start};
ghost use Rattle.rows.specs.Chains.{mixed, hashed, heads_of, nexts_of, bucket_of, Chained, Linked};

// How many rows are stored, and whether a distinct row did not fit.
#[derive(Clone, Copy)]
pub struct Filled {
    pub rows: usize,
    pub full: bool,
}

// Whether an equal row was found, and how many rows were tried: in their order up to that row, or all. It is no Option, since a search that finds none
// counts its rows too.
#[derive(Clone, Copy)]
struct Search {
    found: bool,
    tried: usize,
}

// Whether two rows are equal: one short loop that ends at the first cell that differs. The library's `==` takes four cells at a time, which for rows of
// four cells and more made a search twice as dear.
fn same(x: &[i64], y: &[i64]) -> bool
    ensures { result ≡ same_row x.now y.now }
{
    if x.len() != y.len() {
        return false;
    }
    for i in 0..x.len() {
        let (a, b) = (x[i], y[i]);
        if a != b {
            return false;
        }
    }
    true
}

// The search for the row among the first rows of the answer; ends at the first that equals it.
fn find(answer: &[i64], rows: usize, row: &[i64]) -> Search
    ensures { record { found = result.found; tried = result.tried } ≡ sought rows answer.now row.now }
{
    let none = Search {
        found: false,
        tried: rows,
    };
    let mut at = 0;
    for i in 0..rows {
        let Some(stored) = answer.get(at..at + row.len()) else {
            return none;
        };
        if same(row, stored) {
            return Search {
                found: true,
                tried: i + 1,
            };
        }
        at += row.len();
    }
    none
}

// How many rows of `columns` cells fit; none of no cells.
fn capacity(cells: usize, columns: usize) -> usize
    ensures { result ≡ cells / columns }
{
    cells.checked_div(columns).unwrap_or(0)
}

// A number from 0 on for each cell.
fn fold(x: i64) -> usize
    ensures { result ≡ mag x }
{
    if x < 0 { (-1 - x) as usize } else { x as usize }
}

pub fn mix(h: usize, x: i64) -> usize
    requires { h < 4294967296 }
    ensures value { result ≡ mixed h x }
    ensures upper_bound { result < 4294967296 }
{
    (h + fold(x) % 4294967296) * 1540483477 / 32768 % 4294967296
}

fn hash(row: &[i64]) -> usize
    ensures { result ≡ hashed 0 row.now }
{
    let mut h = 0;
    for &x in row {
        h = mix(h, x);
    }
    h
}

// How many heads a table of this length has.
fn heads(length: usize) -> usize
    ensures { result ≡ heads_of length }
{
    if length < 8192 { 512 } else { 4096 }
}

// How many rows it can link.
fn nexts(length: usize) -> usize
    ensures { result ≡ nexts_of length }
{
    length.saturating_sub(heads(length))
}

// The bucket of a row in a table of this length; for one that has no room no hash is made.
fn bucket(row: &[i64], length: usize) -> usize
    ensures { result ≡ bucket_of length row.now }
{
    if length < 512 {
        return 0;
    }
    hash(row) / 1024 % heads(length)
}

// The search for the row among those that the table links, along the chain of its bucket from the last row back: none of them equals another, so the
// one that is found is the first, and its number tells how many a walk would have tried.
fn chained(answer: &[i64], table: &[u16], rows: usize, row: &[i64], bucket: usize) -> Search
    requires { Linked (length row.now) rows answer.now table.now × (bucket ≡ bucket_of (length table.now) row.now) }
    ensures { record { found = result.found; tried = result.tried } ≡ sought (min rows (nexts_of (length table.now))) answer.now
        row.now }
{
    let first = heads(table.len());
    let mut link = kinds::size_at(table, bucket);
    while 0 < link {
        let at = (link - 1) * row.len();
        let end = at + row.len();
        if same(row, &answer[at..end]) {
            return Search {
                found: true,
                tried: link,
            };
        }
        link = kinds::size_at(table, first + (link - 1));
    }
    Search {
        found: false,
        tried: rows.min(nexts(table.len())),
    }
}

// The same among all rows that are stored: on its chain, then among those that found no room in the table.
fn known(answer: &[i64], table: &[u16], rows: usize, row: &[i64], bucket: usize) -> Search
    requires { Linked (length row.now) rows answer.now table.now × (bucket ≡ bucket_of (length table.now) row.now) }
    ensures { record { found = result.found; tried = result.tried } ≡ sought rows answer.now row.now }
{
    let linked = chained(answer, table, rows, row, bucket);
    if linked.found {
        return linked;
    }
    let n = nexts(table.len());
    if rows <= n {
        return linked;
    }
    let at = n * row.len();
    let rest = find(&answer[at..], rows - n, row);
    Search {
        found: rest.found,
        tried: n + rest.tried,
    }
}

// Row n at the front of its bucket's chain, where the table has room for it.
fn link(table: &mut [u16], n: usize, bucket: usize)
    requires { (length table.old ≤ 65535) × (bucket < heads_of (length table.old)) }
    ensures { (b : ℕ → ℕ) → b n ≡ bucket → Chained b (heads_of (length table.old)) (min n (nexts_of (length table.old)))
        table.old → Chained b (heads_of (length table.old)) (min (n + 1) (nexts_of (length table.old)))
        table.new }
{
    if nexts(table.len()) <= n {
        return;
    }
    let old = table[bucket];
    let at = heads(table.len()) + n;
    table[at] = old;
    table[bucket] = (n + 1) as u16;
}

// One row more: dropped where an equal one is stored; where it does not fit, 41 is certain and nothing is written.
pub fn add_row(answer: &mut [i64], table: &mut [u16], state: Filled, row: &[i64]) -> Filled
    requires { Linked (length row.now) state.rows answer.old table.old }
    ensures answer_after { record { rows = result.rows; full = result.full; cells = answer.new }
        ≡ added (record { rows = state.rows; full = state.full; cells = answer.old }) row.now }
    ensures linked { Linked (length row.now) result.rows answer.new table.new }
{
    let rows = state.rows;
    if state.full {
        return state;
    }
    let h = bucket(row, table.len());
    if known(answer, table, rows, row, h).found {
        return state;
    }
    if capacity(answer.len(), row.len()) <= rows {
        return Filled { rows, full: true };
    }
    let at = rows * row.len();
    let end = at + row.len();
    answer[at..end].copy_from_slice(row);
    link(table, rows, h);
    Filled {
        rows: rows + 1,
        full: false,
    }
}

// The one row of an answer.
pub fn only_row(answer: &mut [i64], row: &[i64]) -> Filled
    ensures { record { rows = result.rows; full = result.full; cells = answer.new } ≡ added (start answer.old) row.now }
{
    if capacity(answer.len(), row.len()) == 0 {
        return Filled {
            rows: 0,
            full: true,
        };
    }
    answer[..row.len()].copy_from_slice(row);
    Filled {
        rows: 1,
        full: false,
    }
}
