// The walks of the variables that some bytes bind: all rows of their relations.
#![tactic(auto)]

ghost use Rattle.std.specs.Prelude.{◌≡◌, ◌≤◌, set};
ghost use Rattle.walks.specs.Walks.{Fits};
ghost use Rattle.scans.specs.Flat.{flat_bindings};
ghost use Rattle.allrows.specs.Filled.{written, whole_of, filled_by};

use scans::BoundVariables;
use walks::Walk;

// A cell of the table; past its end nothing. By index: what is written through get_mut is not known afterwards.
fn store(walks: &mut [u16], i: usize, x: usize)
    requires { x ≤ 65535 }
    ensures { walks.new ≡ set walks.old i x }
{
    if i < walks.len() {
        walks[i] = x as u16;
    }
}

// The walk of a variable.
pub fn put(walks: &mut [u16], variable: u8, walk: Walk)
    requires { Fits walk }
    ensures { walks.new ≡ written walks.old variable walk }
{
    let i = 8 * usize::from(variable);
    store(walks, i, walk.start);
    store(walks, i + 1, walk.count);
    store(walks, i + 2, walk.base % 65536);
    store(walks, i + 3, walk.base / 65536);
    store(walks, i + 4, walk.width);
}

// All rows of a relation.
pub fn whole(catalogue: &[u8], relation: u8) -> Walk
    ensures value { result ≡ whole_of catalogue.now relation }
    ensures fits { Fits result }
{
    let known = catalogue::entry(catalogue, relation);
    Walk {
        // 0 stands for the first row, 1 for the last.
        start: usize::from(known.latest),
        count: known.rows,
        base: catalogue::base(catalogue, relation),
        width: known.attributes,
    }
}

// The walks of all variables that the bytes bind.
#[tactic(auto, unfolding(crate::specs::Filled::filled_by))]
pub fn fill(query: &[u8], catalogue: &[u8], walks: &mut [u16])
    ensures { walks.new ≡ filled_by catalogue.now (flat_bindings query.now) walks.old }
{
    for b in BoundVariables::of(query) {
        put(walks, b.variable, whole(catalogue, b.relation));
    }
}
