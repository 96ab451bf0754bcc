// The rows of each variable, in the order in which they are walked (specs/Walks).
#![tactic(auto)]

ghost use Rattle.std.specs.Prelude.{◌≡◌, suc, ◌+◌, ◌-◌, ◌≤◌, cond, eqb, get_or};
ghost use Rattle.walks.specs.Walks as W;

// Where a variable's list stands in the table and how many rows it has; where the values of its relation begin and how many a row has.
#[derive(Clone, Copy)]
pub struct Walk {
    pub start: usize,
    pub count: usize,
    pub base: usize,
    pub width: usize,
}

// The walk of a variable.
pub fn walk_of(walks: &[u16], variable: u8) -> Walk
    ensures value { result ≡ W.walk_of walks.now variable }
    ensures fits { W.Fits result }
{
    let i = 8 * usize::from(variable);
    Walk {
        start: kinds::size_at(walks, i),
        count: kinds::size_at(walks, i + 1),
        base: kinds::size_at(walks, i + 2) + 65536 * kinds::size_at(walks, i + 3),
        width: kinds::size_at(walks, i + 4),
    }
}

// The number of row i of a walk that does not go through all rows in order.
fn row_at(walks: &[u16], walk: Walk, i: usize) -> usize
    requires { W.Fits walk × (i ≤ 65535) }
    ensures value { result ≡ cond (eqb walk.start 1) (walk.count - suc i) (get_or walks.now (walk.start + i) 0) }
    ensures upper_bound { result ≤ 65535 }
{
    if walk.start == 1 {
        return walk.count.saturating_sub(i + 1);
    }
    kinds::size_at(walks, walk.start + i)
}

// The place of row i of a walk among the values. The usual walk is told apart first: it is in every loop over rows.
pub fn place(walks: &[u16], walk: Walk, i: usize) -> usize
    requires { W.Fits walk × (i ≤ 65535) }
    ensures { result ≡ W.place_at walks.now walk i }
{
    if walk.start == 0 {
        return walk.base + i * walk.width;
    }
    walk.base + row_at(walks, walk, i) * walk.width
}
