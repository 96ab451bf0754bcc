// Whether a branch of a table leads to 0 (branches/specs/Branches). Comparisons are followed in one loop; where a branch asks for some row of a variable,
// its rows are tried, those that cannot meet what is asked passed over.
#![tactic(auto)]

pub mod chains;
pub mod probes;
pub mod seeks;

ghost use Rattle.std.specs.Prelude.{◌≡◌, cond, ◌+◌, ◌*◌, ◌≤◌, ◌<◌, length, get_or};
ghost use Rattle.walks.specs.Assigned.{assigned};
ghost use Rattle.branches.specs.Branches as B;
ghost use Rattle.decide.specs.Keys.{Faithful};
ghost use Rattle.walks.specs.Walks.{walked};
ghost use Rattle.model.specs.Lists.{update};
ghost use Rattle.model.specs.Search as M;

use chains::Rows;

// Whether a row was a hit, and how many rows were tried: up to the first hit, or all. It is no Option, since a search that finds none counts its rows too.
#[derive(Clone, Copy)]
struct Search {
    found: bool,
    tried: usize,
}

// What a table of branches is decided with: the query's bytes and their sizes, the rows that are walked, the chains, the values, and the memo.
#[derive(Clone, Copy)]
struct Decider<'a> {
    t: &'a [u16],
    q: &'a [u8],
    z: &'a [u16],
    walks: &'a [u16],
    chains: &'a [u16],
    values: &'a [i32],
    memo: &'a [i64],
    ghost faithful: { Faithful t.now walks.now values.now chains.now },
}

impl Decider<'_> {
    ghost use Rattle.decide.specs.Decider as D;

    // Whether branch i holds, which asks for no row.
    fn branch(&self, i: usize, env: &mut [usize]) -> bool
        requires { (256 ≤ length env.old) × (i ≤ 65535) × (get_or self.now.t.now (8 * i) 0 ≡ 256 → ⊥) }
        ensures value { result ≡ D.branch_holds self.now i (assigned self.now.values.now env.old) }
        ensures env_unchanged { env.new ≡ env.old }
    {
        let p = 8 * i;
        let operator = kinds::size_at(self.t, p);
        if operator == 0 {
            let place = kinds::size_at(self.t, p + 1);
            let level = kinds::size_at(self.t, p + 2);
            let c = kinds::tail(self.q, place);
            let sizes = kinds::tail_sizes(self.z, place);
            return evaluator::condition(c, sizes, level, self.walks, self.values, self.memo, env);
        }
        let a = branches::side(self.t, p + 1, 2 * i, self.values, self.memo, env);
        let b = branches::side(self.t, p + 3, 2 * i + 1, self.values, self.memo, env);
        numbers::compared(operator, a, b)
    }

    // Where branch i leads.
    fn way(&self, i: usize, met: bool) -> usize
        requires { i ≤ 65535 }
        ensures value { result ≡ cond met (get_or self.now.t.now (8 * i + 5) 0) (get_or self.now.t.now (8 * i + 6) 0) }
        ensures upper_bound { result ≤ 65535 }
    {
        kinds::size_at(self.t, if met { 8 * i + 5 } else { 8 * i + 6 })
    }

    // Follows the branches from `start` on up to an end, or to one that asks for a row.
    fn run(&self, start: usize, env: &mut [usize]) -> usize
        requires { (256 ≤ length env.old) × (start ≤ 65535) }
        ensures env_value { D.runs self.now result (assigned self.now.values.now env.old) ≡ D.runs self.now start (assigned self.now.values.now env.old) }
        ensures upper_bound { (result ≤ start) × (2 ≤ result → get_or self.now.t.now (8 * result) 0 ≡ 256) }
        ensures env_unchanged { env.new ≡ env.old }
    {
        let mut at = start;
        while 2 <= at {
            if kinds::size_at(self.t, 8 * at) == 256 {
                return at;
            }
            let met = self.branch(at, env);
            let to = self.way(at, met);
            if at <= to {
                return 1;
            }
            at = to;
        }
        at
    }

    // Whether branch `start` leads to 0.
    #[cycle(first_row_holds_some_row)]
    fn holds(&self, start: usize, env: &mut [usize]) -> bool
        requires { (256 ≤ length env.old) × (start ≤ 65535) }
        ensures value { result ≡ D.runs self.now start (assigned self.now.values.now env.old) }
        ensures env_unchanged { env.new ≡ env.old }
    {
        let mut from = start;
        loop {
            let at = self.run(from, env);
            if at < 2 {
                return at == 0;
            }
            let found = self.some_row(at, env);
            let to = self.way(at, found);
            if at <= to {
                return false;
            }
            from = to;
        }
    }

    // The search for a row of a variable that leads from branch `start` to 0: it ends at the first; rows that fail are passed over.
    #[cycle(first_row_holds_some_row)]
    fn first_row(&self, start: usize, variable: u8, env: &mut [usize]) -> Search
        requires { (256 ≤ length env.old) × (start ≤ 65535) }
        ensures value { record { found = result.found; tried = result.tried }
            ≡ M.search (λ x. D.runs self.now start (update (assigned self.now.values.now env.old) variable x))
            (walked self.now.walks.now self.now.values.now variable) }
        ensures env_unchanged { env.new ≡ env.old }
    {
        let walk = walks::walk_of(self.walks, variable);
        let rows = Rows {
            values: self.values,
            walks: self.walks,
            walk,
        };
        let n = walk.count;
        let own = usize::from(variable);
        let old = env[own];
        let cursor = seeks::prepare(
            self.t,
            start,
            variable,
            self.chains,
            self.values,
            self.memo,
            env,
        );
        let next = cursor.next;
        let mut i = 0;
        loop {
            let j = cursor.next_row(&rows, self.chains, i);
            if n <= j {
                env[own] = old;
                return Search {
                    found: false,
                    tried: n,
                };
            }
            env[own] = walks::place(self.walks, walk, j);
            if self.holds(next, env) {
                env[own] = old;
                return Search {
                    found: true,
                    tried: j + 1,
                };
            }
            i = j + 1;
        }
    }

    // Whether branch i holds, which asks for a row.
    #[cycle(first_row_holds_some_row)]
    fn some_row(&self, i: usize, env: &mut [usize]) -> bool
        requires { (256 ≤ length env.old) × (i ≤ 65535) × (get_or self.now.t.now (8 * i) 0 ≡ 256) }
        ensures value { result ≡ D.branch_holds self.now i (assigned self.now.values.now env.old) }
        ensures env_unchanged { env.new ≡ env.old }
    {
        let inner = kinds::size_at(self.t, 8 * i + 2);
        if i <= inner {
            return false;
        }
        let Ok(variable) = u8::try_from(kinds::size_at(self.t, 8 * i + 1)) else {
            return false;
        };
        self.first_row(inner, variable, env).found
    }
}

// Whether branch `start` leads to 0; 0 is that end, so that a stage with no conjunct costs no call.
pub fn leads(
    t: &[u16],
    start: usize,
    q: &[u8],
    z: &[u16],
    walks: &[u16],
    chains: &[u16],
    values: &[i32],
    memo: &[i64],
    env: &mut [usize],
) -> bool
    requires { (256 ≤ length env.old) × (start ≤ 65535) × Faithful t.now walks.now values.now chains.now }
    ensures value { result ≡ B.runs t.now q.now z.now walks.now values.now
        memo.now start (assigned values.now env.old) }
    ensures env_unchanged { env.new ≡ env.old }
{
    if start == 0 {
        return true;
    }
    let decider = Decider {
        t,
        q,
        z,
        walks,
        chains,
        values,
        memo,
    };
    decider.holds(start, env)
}
