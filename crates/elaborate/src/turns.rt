// A turn of the loop over a text's tokens: what it writes, and what is in reach after it.
ghost use Rattle.std.specs.Prelude.{◌≡◌, ◌&&◌, List, ◌++◌, ℕ, ◌+◌, ◌<◌, ◌≤◌, eqb, leb, length, get_or};
ghost use Rattle.std.proofs.lemmas.List.Edits.{sets};
ghost use Rattle.quel.specs.Writing.{Reaches};
ghost use Rattle.names.specs.Entries.{entries};
ghost use Rattle.elaborate.specs.Lookup.{ids_of, Listed, NamesBelow};
ghost use Rattle.elaborate.specs.Places.{table, name_in};
ghost use Rattle.copier.specs.Copied.{record_bytes};
ghost use Rattle.elaborate.specs.Tables.{Named};
ghost use Rattle.elaborate.specs.Puts.{number_after};
ghost use Rattle.elaborate.specs.Counts.{ors_in, ands_in, sign_in, Counted};
ghost use Rattle.elaborate.specs.Modes.{mode_no, action_no};
ghost use Rattle.elaborate.specs.Opens.{open_bytes};
ghost use Rattle.elaborate.specs.Frames.{Stack, Small};
ghost use Rattle.elaborate.specs.After.{Goes, Within};

use crate::items::Scope;
use crate::lookups::Lookup;
use crate::modes::{Action, Mode};
use crate::reaches::Reach;
use crate::{ahead, items, opens, reaches};
use kinds::Record;

// The loop's mode, the frames that are open, the next variable's number, and where to write.
#[derive(Clone, Copy)]
pub struct State {
    pub mode: Mode,
    pub reach: Reach,
    pub n: usize,
    pub at: usize,
}

// Writes what stands before a token's record and the record, and returns the place after it.
fn write(
    out: &mut [u8],
    at: usize,
    mode: Mode,
    kind: u8,
    counts: &[u64],
    i: usize,
    item: Record,
) -> usize
    requires { (at + 8197 < 9223372036854775808) × (i < 4000) × (i + 1 < length counts.now) }
    ensures value { result ≡ at + length (open_bytes (mode_no mode) kind (ors_in (get_or counts.now i 0)) (ands_in (get_or counts.now i 0))
        (1 + sign_in (get_or counts.now (i + 1) 0)) ++ record_bytes item) }
    ensures out_after { out.new ≡ sets out.old at (open_bytes (mode_no mode) kind (ors_in (get_or counts.now i 0))
        (ands_in (get_or counts.now i 0)) (1 + sign_in (get_or counts.now (i + 1) 0)) ++ record_bytes item) }
    ensures upper_bound { result ≤ at + 8197 }
{
    let p = opens::open(
        out,
        at,
        mode,
        kind,
        ahead::ors(counts[i]),
        ahead::ands(counts[i]),
        ahead::operator(counts[i + 1]),
    );
    copier::put_record(out, p, item)
}

// The next variable's number after an action.
fn number(a: Action, n: usize) -> usize
    requires { n < 8000 }
    ensures value { result ≡ number_after (action_no a) n }
    ensures upper_bound { result ≤ n + 1 }
{
    match a {
        Action::Aggregate | Action::Some => n + 1,
        _ => n,
    }
}

// Whether a token writes nothing and changes no reach.
fn quiet(mode: Mode, a: Action) -> bool
    ensures { result ≡ (leb 3 (mode_no mode) && eqb (action_no a) 0) }
{
    !mode.begins() && matches!(a, Action::Nothing)
}

// The turn of token i: the state after it, unless a name is unknown or out of reach. What was counted for the tokens behind is asked for no more: open
// frames are kept there.
pub(crate) fn turn(
    lookup: &Lookup,
    counts: &mut [u64],
    known: &mut [u64],
    out: &mut [u8],
    s: State,
    i: usize,
) -> Option<State>
    requires i_bound { (i < 4000) × (i + 1 < length counts.old) × (s.n < 8000) × (s.at + 8197 < 9223372036854775808) }
    requires depth_le_i { (s.reach.depth ≤ i) × (s.reach.crossing < 8192) × NamesBelow lookup.now 8192
        × NamesBelow lookup.now (length known.old) × Small known.old
        × Listed lookup.now }
    ensures by_index { (text ks ss : List ℕ) (σ : Reaches) → i < length ks → Counted ks counts.old i
        → Named (name_in text ks ss) (ids_of lookup.now) lookup.now.numbers.now
        → Stack (name_in text ks ss) (ids_of lookup.now) counts.old s.reach.depth s.reach.crossing known.old σ
        → Goes text (table ks ss lookup.now.numbers.now) (entries lookup.now.list.now) (ids_of lookup.now) i s σ
        out.old result counts.new known.new out.new }
    ensures within { Within s result }
    ensures by_index_2 { Small known.new
        × ((ks : List ℕ) → Counted ks counts.old i → Counted ks counts.new (i + 1)) }
{
    let kind = ahead::kind(counts[i]);
    let point = 25 <= ahead::kind(counts[i + 1]);
    let a = s.mode.action(kind, point);
    let mode = s.mode.next(kind, point);
    if quiet(s.mode, a) {
        return Some(State { mode, ..s });
    }
    let scope = Scope {
        i,
        kind,
        action: a,
        crossing: s.reach.crossing,
        n: s.n,
    };
    let r = items::item_at(lookup, known, scope)?;
    let at = write(out, s.at, s.mode, kind, counts, i, r);
    let reach = reaches::shift(lookup, known, counts, s.reach, a, r, i);
    let n = number(a, s.n);
    Some(State { mode, reach, n, at })
}
