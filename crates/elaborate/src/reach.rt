// Which symbol a name stands for, where it stands.
ghost use Rattle.std.specs.Prelude.{◌≡◌, List, ℕ};
ghost use Rattle.quel.specs.Results.{Word};
ghost use Rattle.quel.specs.Elaboration.{Symbol, symbol_in};
ghost use Rattle.elaborate.specs.Lookup.{ids_of};
ghost use Rattle.elaborate.specs.Reach.{known_of, standing};
ghost use Rattle.elaborate.specs.Tables.{Holds};

use crate::ahead;
use crate::lookups::Lookup;

// A symbol: its relation, and its variable where that is in reach.
#[derive(Clone, Copy)]
pub struct Known {
    pub relation: u8,
    pub variable: Option<u8>,
}

// What an entry says: a symbol that was bound before the innermost aggregate's frame only names its relation.
fn decoded(c: u64, crossing: usize) -> Option<Known>
    ensures { result ≡ standing crossing c }
{
    if c % 4 == 0 {
        return None;
    }
    let relation = (c / 4 % 256) as u8;
    if c % 4 == 1 && crossing <= (c / 262144) as usize {
        let variable = Some((c / 1024 % 256) as u8);
        return Some(Known { relation, variable });
    }
    Some(Known {
        relation,
        variable: None,
    })
}

// What the name at x stands for.
pub(crate) fn seek(lookup: &Lookup, known: &[u64], crossing: usize, x: usize) -> Option<Known>
    ensures { (w : ℕ → Word) (ρ : List Symbol) (d : ℕ) → Holds w (ids_of lookup.now) known.now d crossing ρ → result
        ≡ known_of (symbol_in (w x) ρ) }
{
    decoded(ahead::entry(known, lookup.id_at(x)), crossing)
}
