// The rows of a walk by the bucket of one of their values: for each bucket its first row, for each row the next of its bucket (specs/Chains).
ghost use Rattle.std.specs.Prelude.{◌≡◌, true, false, ◌||◌, ℕ, ◌+◌, ◌-◌, ◌≤◌, ◌<◌, length, get_or};
ghost use Rattle.walks.specs.Walks.{Fits};
ghost use Rattle.decide.specs.Chains as C;

use walks::Walk;

// Any function of the value will do.
#[tactic(auto, unfolding(crate::specs::Chains::bucket_of))]
fn bucket(x: i64) -> usize
    ensures value { result ≡ C.bucket_of x }
    ensures upper_bound { result < 1024 }
{
    rows::mix(0, x) / 1024 % 1024
}

// The value of an attribute in row i of a walk.
fn key(values: &[i32], walks: &[u16], walk: Walk, attribute: usize, i: usize) -> i64
    requires { Fits walk × (i ≤ 65535) }
    ensures { result ≡ C.key_at values.now walks.now walk attribute i }
{
    i64::from(catalogue::value(values, walks::place(walks, walk, i), attribute))
}

// Chains the rows, from place `at` of the table on: from the last row down, so that each bucket keeps their order.
pub(crate) fn build(
    values: &[i32],
    walks: &[u16],
    walk: Walk,
    attribute: usize,
    chains: &mut [u16],
    at: usize,
)
    requires { Fits walk × (at + 1024 + walk.count ≤ length chains.old) × ((h : ℕ) → h < 1024 → get_or chains.old (at + h) 0 ≡ 0) }
    ensures built { C.Built (C.bucket_at values.now walks.now walk attribute) walk.count at chains.new }
    ensures outside { C.Outside at (at + 1024 + walk.count) chains.old chains.new }
{
    for i in (0..walk.count).rev() {
        let h = at + bucket(key(values, walks, walk, attribute, i));
        chains[at + 1024 + i] = chains[h];
        chains[h] = (i + 1) as u16;
    }
}

// What a chain is followed by: where it stands, the attribute, and the value that is looked for.
#[derive(Clone, Copy)]
pub struct Entry {
    pub at: usize,
    pub attribute: usize,
    pub value: i64,
}

// The rows of a variable: their walk, and the values of their relation.
#[derive(Clone, Copy)]
pub struct Rows<'a> {
    pub values: &'a [i32],
    pub walks: &'a [u16],
    pub walk: Walk,
    ghost fits: { Fits walk },
}

// A chain in its table, and the rows that it chains. A link of the table is 0, or one more than the number of a row.
#[derive(Clone, Copy)]
pub(crate) struct Chain<'a> {
    pub(crate) rows: Rows<'a>,
    pub(crate) entry: Entry,
    pub(crate) table: &'a [u16],
    ghost entered: { C.Entered entry rows.values.now rows.walks.now rows.walk table.now },
}

impl Chain<'_> {
    ghost use Rattle.decide.specs.Linked as L;

    // Whether row i has the value.
    fn has(&self, i: usize) -> bool
        requires { i ≤ 65535 }
        ensures { result ≡ L.has_row self.now i }
    {
        let x = self.entry;
        key(
            self.rows.values,
            self.rows.walks,
            self.rows.walk,
            x.attribute,
            i,
        ) == x.value
    }

    // The link to the bucket's first row.
    fn head(&self) -> usize
        ensures { result ≡ L.head_of self.now }
    {
        let x = self.entry;
        kinds::size_at(self.table, x.at + bucket(x.value))
    }

    // The link from row i on.
    fn behind(&self, i: usize) -> usize
        requires { i ≤ 65535 }
        ensures { result ≡ L.link_behind self.now i }
    {
        kinds::size_at(self.table, self.entry.at + 1024 + i)
    }

    // The link to the bucket's first row from `from` on; the row before is one of the bucket.
    fn start(&self, from: usize) -> usize
        requires { (from ≤ self.now.rows.walk.count) × (0 < from → L.Has self.now (from - 1)) }
        ensures { C.First (L.InBucket self.now) from self.now.rows.walk.count result }
    {
        if from == 0 {
            return self.head();
        }
        self.behind(from - 1)
    }

    // From a link on, the first of the bucket's rows with the value itself.
    fn next_equal(&self, link: usize) -> Option<usize>
        requires { link ≤ self.now.rows.walk.count }
        ensures { (from : ℕ) → C.First (L.InBucket self.now) from self.now.rows.walk.count link → C.First (L.Has self.now) from self.now.rows.walk.count (L.link_of result) }
    {
        let mut at = link;
        while 0 < at {
            let i = at - 1;
            if self.has(i) {
                return Some(i);
            }
            at = self.behind(i);
        }
        None
    }

    // The first row from `from` on that has the value; where there is none, the count of rows. The row before `from` is one that has it.
    pub(crate) fn follow(&self, from: usize) -> usize
        requires { (from ≤ self.now.rows.walk.count) × (0 < from → L.Has self.now (from - 1)) }
        ensures lower_bound { (from ≤ result) × (result ≤ self.now.rows.walk.count) }
        ensures by_index { (j : ℕ) → from ≤ j → j < result → L.Has self.now j → ⊥ }
        ensures value_value { result < self.now.rows.walk.count → L.Has self.now result }
    {
        self.next_equal(self.start(from))
            .unwrap_or(self.rows.walk.count)
    }

    // The first row from `from` on and below `to` with the value, by a look at each; `to` where there is none.
    fn look(&self, from: usize, to: usize) -> usize
        requires { (from ≤ to) × (to ≤ self.now.rows.walk.count) }
        ensures lower_bound { (from ≤ result) × (result ≤ to) }
        ensures by_index { (j : ℕ) → from ≤ j → j < result → L.Has self.now j → ⊥ }
        ensures x_value { result < to → L.Has self.now result }
    {
        for j in from..to {
            if self.has(j) {
                return j;
            }
        }
        to
    }

    // The chain entered behind the row before `from`, where that has the value, else at its head.
    fn enter(&self, from: usize) -> usize
        requires { from ≤ self.now.rows.walk.count }
        ensures { C.Passing (L.value_in self.now) self.now.entry.value from self.now.rows.walk.count result }
    {
        if 0 < from && self.has(from - 1) {
            return self.start(from);
        }
        self.start(0)
    }

    // The same as `look` by the chain. It may have many rows before `from`, so no more than eight links are followed.
    fn reach(&self, from: usize, to: usize) -> usize
        requires { (from ≤ to) × (to ≤ self.now.rows.walk.count) }
        ensures lower_bound { (from ≤ result) × (result ≤ to) }
        ensures by_index { (j : ℕ) → from ≤ j → j < result → L.Has self.now j → ⊥ }
        ensures value_value { result < to → L.Has self.now result }
    {
        let mut link = self.enter(from);
        for _ in 0..8 {
            if link == 0 {
                return to;
            }
            let i = link - 1;
            if from <= i && self.has(i) {
                return i.min(to);
            }
            link = self.behind(i);
        }
        self.look(from, to)
    }

    // Whether the row before `from` has the value. It promises nothing: it only tells which of two chains is followed first.
    fn after(&self, from: usize) -> bool
        requires { from ≤ self.now.rows.walk.count }
    {
        from == 0 || self.has(from - 1)
    }

    // The first row from `from` on that this chain has or another one of the same rows; where there is none, the count of rows. That with the row before
    // `from` comes first, the other is followed no further than to its next row.
    pub(crate) fn either(&self, other: Entry, from: usize) -> usize
        requires { (from ≤ self.now.rows.walk.count) × C.Entered other self.now.rows.values.now self.now.rows.walks.now self.now.rows.walk self.now.table.now }
        ensures lower_bound { (from ≤ result) × (result ≤ self.now.rows.walk.count) }
        ensures by_index { (j : ℕ) → from ≤ j → j < result → L.Has self.now j → ⊥ }
        ensures by_index_2 { (j : ℕ) → from ≤ j → j < result → C.same (C.key_at self.now.rows.values.now self.now.rows.walks.now self.now.rows.walk other.attribute j) other.value
            ≡ true → ⊥ }
        ensures value_value { result < self.now.rows.walk.count → L.has_row self.now result || C.same
            (C.key_at self.now.rows.values.now self.now.rows.walks.now self.now.rows.walk other.attribute result) other.value ≡ true }
    {
        let n = self.rows.walk.count;
        let two = Chain {
            rows: self.rows,
            entry: other,
            table: self.table,
        };
        if self.after(from) {
            let to = self.reach(from, n);
            return two.reach(from, to);
        }
        let end = two.reach(from, n);
        self.reach(from, end)
    }
}
