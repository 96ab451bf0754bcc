// What names are looked up by. The lent table holds the chains of the name list, and behind them the number of each token's name.
ghost use Rattle.std.specs.Prelude.{◌≡◌, ◌≤◌, get_or};
ghost use Rattle.quel.specs.Results.{Word};
ghost use Rattle.tokens.specs.Codes.{Spelt};
ghost use Rattle.names.specs.Entries.{entries};
ghost use Rattle.names.specs.Answers.{said};
ghost use Rattle.elaborate.specs.Lookup.{room_of, chains_in, ids_of, Listed};
ghost use Rattle.elaborate.specs.Actions.{number_of};
ghost use Rattle.elaborate.specs.Tables.{code_at};

use names::{Bytes, Sort};

// The lent table, the number or code of each token, and the name list.
#[derive(Clone, Copy)]
pub struct Lookup<'a> {
    pub table: &'a [u16],
    pub numbers: &'a [u64],
    pub list: &'a [u8],
}

// What the chains take of so many places.
pub(crate) fn room(n: usize) -> usize
    ensures { result ≡ room_of n }
{
    if n <= 1023 { 768 } else { 4608 }
}

impl<'a> Lookup<'a> {
    // The chains of the name list.
    #[tactic(auto, unfolding(crate::specs::Lookup::chains_in))]
    pub(crate) fn chains(&self) -> &'a [u16]
        ensures { result.now ≡ chains_in self.now.table.now }
    {
        &self.table[..room(self.table.len()).min(self.table.len())]
    }

    // The number of the name at x, 0 where there is none.
    pub(crate) fn id_at(&self, x: usize) -> usize
        ensures value { result ≡ get_or (ids_of self.now) x 0 }
        ensures upper_bound { result ≤ 65535 }
    {
        kinds::size_at(kinds::tail_sizes(self.table, room(self.table.len())), x)
    }

    // The code of the name at x, that of no letters where there is none.
    pub(crate) fn code(&self, x: usize) -> u64
        ensures { result ≡ code_at (ids_of self.now) self.now.numbers.now x }
    {
        if self.id_at(x) == 0 {
            1
        } else {
            self.number(x)
        }
    }

    // The number or code of the token at x.
    pub(crate) fn number(&self, x: usize) -> u64
        ensures { result ≡ get_or self.now.numbers.now x 0 }
    {
        self.numbers.get(x).copied().unwrap_or(0)
    }

    // What a name says.
    pub(crate) fn meaning(&self, sort: Sort, name: u64) -> Option<Bytes>
        requires { Listed self.now }
        ensures { (z : Word) → Spelt z name → result ≡ said (entries self.now.list.now) z sort }
    {
        names::meaning(self.list, self.chains(), sort, name)
    }

    // The number of the relation or attribute with this name.
    pub(crate) fn numbered(&self, sort: Sort, name: u64) -> Option<u8>
        requires { Listed self.now }
        ensures { (z : Word) → Spelt z name → result ≡ number_of (said (entries self.now.list.now) z sort) }
    {
        let (number, _, _, _) = self.meaning(sort, name)?;
        Some(number)
    }
}
