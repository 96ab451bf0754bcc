// The loop over a text's tokens: turn after turn, up to the last token or a refusal.
ghost use Rattle.std.specs.Prelude.{◌≡◌, List, ℕ, ◌<◌, ◌≤◌, length, get_or};
ghost use Rattle.quel.specs.Elaboration.{Symbol};
ghost use Rattle.names.specs.Entries.{entries};
ghost use Rattle.elaborate.specs.Lookup.{ids_of, Listed, NamesBelow};
ghost use Rattle.elaborate.specs.Frames.{Small};
ghost use Rattle.elaborate.specs.Places.{table, name_in};
ghost use Rattle.elaborate.specs.Tables.{Named, Holds};
ghost use Rattle.elaborate.specs.Counts.{Counted};
ghost use Rattle.elaborate.specs.Ends.{Ends, Last};

use crate::lookups::Lookup;
use crate::modes::Mode;
use crate::reaches::Reach;
use crate::turns;
use crate::turns::State;

// The first token and how many there are, where to write, and the next variable's number.
#[derive(Clone, Copy)]
pub struct Start {
    pub first: usize,
    pub end: usize,
    pub at: usize,
    pub n: usize,
}

// Writes the records of the tokens from a place on, with the RANGE list's frame open, and returns the place after them, unless a name is unknown or
// out of reach.
pub(crate) fn run(
    lookup: &Lookup,
    counts: &mut [u64],
    known: &mut [u64],
    out: &mut [u8],
    start: Start,
) -> Option<usize>
    requires end_bound { (start.end < 4000) × (start.end < length counts.old) × (0 < start.end → 1 ≤ start.first)
        × (start.first < 4003) × (start.n < 4000) × (start.at < 4611686018427387904) }
    requires by_index { NamesBelow lookup.now 8192 × NamesBelow lookup.now (length known.old)
        × Small known.old × Listed lookup.now }
    ensures by_index_2 { (text ks ss : List ℕ) (ρ : List Symbol) → length ks ≡ start.end → Counted ks counts.old 0
        → Named (name_in text ks ss) (ids_of lookup.now) lookup.now.numbers.now
        → Holds (name_in text ks ss) (ids_of lookup.now) known.old 0 0 ρ
        → Ends text (table ks ss lookup.now.numbers.now) (entries lookup.now.list.now) ρ start.first start.at start.n
        out.old result out.new }
    ensures last { Last start.at result }
{
    counts[0] = 0;
    let mut s = State {
        mode: Mode::Rest,
        reach: Reach {
            depth: 1,
            crossing: 0,
        },
        n: start.n,
        at: start.at,
    };
    for i in start.first..start.end {
        s = turns::turn(lookup, counts, known, out, s, i)?;
    }
    Some(s.at)
}
