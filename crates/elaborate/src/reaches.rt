// Parentheses opened and closed: what a name stands for is put into the table where it is bound, and what it stood for put back where that ends.
ghost use Rattle.std.specs.Prelude.{◌≡◌, ◌||◌, List, ℕ, ◌+◌, ◌-◌, ◌<◌, ◌≤◌, eqb, length, get_or, set};
ghost use Rattle.quel.specs.Results.{Word};
ghost use Rattle.quel.specs.Writing.{Reaches, around};
ghost use Rattle.elaborate.specs.Lookup.{ids_of, NamesBelow};
ghost use Rattle.elaborate.specs.Tables.{Same};
ghost use Rattle.elaborate.specs.Puts.{reach_after};
ghost use Rattle.elaborate.specs.Frames.{Stack, Opened, framed_reach, Small};
ghost use Rattle.elaborate.specs.After.{Fits};
ghost use Rattle.elaborate.specs.Modes.{action_no};

use crate::lookups::Lookup;
use crate::modes::Action;
use crate::{ahead, frames};
use kinds::Record;

// How many frames are open, and the innermost aggregate's.
#[derive(Clone, Copy)]
pub struct Reach {
    pub depth: usize,
    pub crossing: usize,
}

fn store(known: &mut [u64], x: usize, e: u64)
    ensures { known.new ≡ set known.old x e }
{
    if x < known.len() {
        known[x] = e;
    }
}

// A frame more, in which the name x stands for e.
fn push(known: &mut [u64], frames: &mut [u64], r: Reach, x: usize, e: u64)
    requires { (r.depth < length frames.old) × (r.crossing < 8192) × (x < 8192) × Small known.old }
    ensures { Opened r.depth r.crossing x e frames.old known.old frames.new known.new }
{
    let depth = r.depth;
    frames[depth] = frames::keep(x, r.crossing, ahead::entry(known, x));
    store(known, x, e);
}

// The frame of a record at token i: SOME binds the name after it, an aggregate that two tokens on, ( none.
fn enter(
    lookup: &Lookup,
    known: &mut [u64],
    frames: &mut [u64],
    r: Reach,
    item: Record,
    i: usize,
) -> Reach
    requires { (r.depth < length frames.old) × (r.depth < 8191) × (r.crossing < 8192) × (i < 4000)
        × NamesBelow lookup.now 8192 × NamesBelow lookup.now (length known.old)
        × Small known.old }
    ensures by_index { (w : ℕ → Word) (σ : Reaches) → Same w (ids_of lookup.now)
        → Stack w (ids_of lookup.now) frames.old r.depth r.crossing known.old σ
        → Stack w (ids_of lookup.now) frames.new result.depth result.crossing known.new
        (framed_reach (w (i + 1)) (w (i + 2)) item σ) }
    ensures depth_value { (result.depth ≡ r.depth + 1) × (result.crossing < 8192) × Small known.new
        × ((j : ℕ) → r.depth < j → get_or frames.new j 0 ≡ get_or frames.old j 0) }
{
    let depth = r.depth;
    match item {
        Record::Some(v, q) => {
            let x = lookup.id_at(i + 1);
            push(known, frames, r, x, frames::pack(1, q, v, depth + 1));
            Reach {
                depth: depth + 1,
                crossing: r.crossing,
            }
        }
        Record::Aggregate(_, v, q, _) => {
            let x = lookup.id_at(i + 2);
            push(known, frames, r, x, frames::pack(1, q, v, depth + 1));
            Reach {
                depth: depth + 1,
                crossing: depth + 1,
            }
        }
        _ => {
            let e = ahead::entry(known, 0);
            push(known, frames, r, 0, e);
            Reach {
                depth: depth + 1,
                crossing: r.crossing,
            }
        }
    }
}

// A frame less: what it kept is put back.
fn leave(known: &mut [u64], frames: &[u64], r: Reach) -> Reach
    requires { (r.crossing < 8192) × Small known.old }
    ensures by_index { (w : ℕ → Word) (ids : List ℕ) (σ : Reaches)
        → Stack w ids frames.now r.depth r.crossing known.old σ
        → Stack w ids frames.now result.depth result.crossing known.new (around σ) }
    ensures depth_le_depth { (result.depth ≤ r.depth) × (result.crossing < 8192) × Small known.new }
{
    let depth = r.depth;
    if depth == 0 {
        return r;
    }
    let c = ahead::entry(frames, depth - 1);
    if c % 4 == 0 {
        // Past the RANGE list's own frame no name stands for anything.
        known.fill(0);
        return Reach {
            depth: depth - 1,
            crossing: 0,
        };
    }
    store(known, (c / 4 % 8192) as usize, c / 268435456);
    Reach {
        depth: depth - 1,
        crossing: (c / 32768 % 8192) as usize,
    }
}

// An aggregate, SOME and ( open a frame.
fn opening(a: Action) -> bool
    ensures { result ≡ (eqb (action_no a) 4 || (eqb (action_no a) 6 || eqb (action_no a) 7)) }
{
    matches!(a, Action::Aggregate | Action::Some | Action::Open)
}

// ) closes one.
fn closing(a: Action) -> bool
    ensures { result ≡ (eqb (action_no a) 8 || eqb (action_no a) 9) }
{
    matches!(a, Action::Close | Action::Finish)
}

// The reaches after an action with this record at token i.
pub(crate) fn shift(
    lookup: &Lookup,
    known: &mut [u64],
    frames: &mut [u64],
    r: Reach,
    a: Action,
    item: Record,
    i: usize,
) -> Reach
    requires { (r.depth < length frames.old) × (r.depth < 8191) × (r.crossing < 8192) × (i < 4000)
        × NamesBelow lookup.now 8192 × NamesBelow lookup.now (length known.old)
        × Small known.old }
    ensures stack { Fits (action_no a) item → (w : ℕ → Word) (σ : Reaches) → Same w (ids_of lookup.now)
        → Stack w (ids_of lookup.now) frames.old r.depth r.crossing known.old σ
        → Stack w (ids_of lookup.now) frames.new result.depth result.crossing known.new
        (reach_after (action_no a) (w (i + 1)) (w (i + 2)) item σ) }
    ensures depth_bound { (result.depth ≤ r.depth + 1) × (result.crossing < 8192) × Small known.new
        × ((j : ℕ) → r.depth < j → get_or frames.new j 0 ≡ get_or frames.old j 0) }
{
    if opening(a) {
        return enter(lookup, known, frames, r, item, i);
    }
    if closing(a) {
        return leave(known, frames, r);
    }
    r
}
