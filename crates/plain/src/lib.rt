// A query answered over the rows of its walks; the plain evaluator takes all rows, with no permits.
#![tactic(auto)]

ghost use Rattle.std.specs.Prelude.{◌≡◌, false, ◌+◌, ◌≤◌, length};
ghost use Rattle.model.specs.Encoding.{query_of};
ghost use Rattle.model.specs.Meaning.{answers};
ghost use Rattle.model.specs.Catalogue.{catalogue_of, tuples_at, all_rows};
ghost use Rattle.model.specs.Calls.{give, evaluate};
ghost use Rattle.walks.specs.Walks.{rows_by};
ghost use Rattle.walks.specs.Assigned.{assigned};
ghost use Rattle.plain.specs.Reply.{answer_of, result_of, reply_of, plan_of, memo_of, Cleared, Answerable, Passed};

use aggregates::Left;
use grammar::Layout;
use model::Refusal;
use odometer::Plan;
use queries::Limits;
use rows::Filled;
use scans::Records;

const LEVELS: usize = model::PLAIN_LEVELS;

const BRANCHES: usize = odometer::BRANCHES;

const LIST: usize = 2 * model::TARGETS;

const FEW: usize = 1536;

const MANY: usize = 20480;

const TWO: usize = 4168;

const EIGHT: usize = 16480;

// The lengths of the tables that a query may be given: room for branches, for chains, for the list of targets and for the answer's rows. Few rows are up
// to 1,024, with 512 heads; many have 4,096 heads, and 16,384 of them are linked. Two chains are of 1,024 rows.
const SMALL: usize = BRANCHES + LIST + 1;

const FEW_ROWS: usize = BRANCHES + LIST + FEW;

const FEW_LINKED: usize = BRANCHES + TWO + LIST + FEW;

const MANY_ROWS: usize = BRANCHES + LIST + MANY;

const MANY_LINKED: usize = BRANCHES + TWO + LIST + MANY;

const MANY_CHAINED: usize = BRANCHES + EIGHT + LIST + MANY;

// The lengths of a table of sizes.
const SHORT: usize = 256;

const LONG: usize = model::PLAIN_BYTES;

// How many rows and columns an answer has, and whether a distinct row did not fit: 41, which the rows that fit come with.
#[derive(Clone, Copy)]
pub struct Reply {
    pub rows: usize,
    pub columns: usize,
    pub full: bool,
}

impl Reply {
    ghost use Rattle.plain.specs.Reply.{number_in};

    // The number for C, 0 where every row fitted.
    pub fn number(self) -> u8
        ensures { result ≡ number_in self }
    {
        if self.full {
            u8::from(Refusal::AnswerRoom)
        } else {
            0
        }
    }
}

// What the state of the buffer says.
fn filled(state: Filled, columns: usize) -> Reply
    ensures { result ≡ reply_of columns state }
{
    Reply {
        rows: state.rows,
        columns,
        full: state.full,
    }
}

// A query that passed its checks, with its table of sizes, its parts and how many levels it may have, over the rows of its walks.
#[derive(Clone, Copy)]
struct Asked<'a> {
    q: &'a [u8],
    z: &'a [u16],
    layout: Layout,
    level: usize,
    walks: &'a [u16],
    values: &'a [i32],
    ghost columns: { layout.targets ≤ 8 },
    ghost ranges: { layout.ranges ≤ 4 },
    ghost condition: { layout.condition ≤ 17216 },
    ghost levels: { level ≤ 64 },
}

impl<'a> Asked<'a> {
    ghost use Rattle.plain.specs.Asked.{query_in, rows_in, Answered, Trusts, HasPassed, Serves};

    // Each aggregate of the query, once.
    fn remember(&self, env: &mut [usize], memo: &mut [i64])
        requires { 256 ≤ length env.old }
        ensures memo_after { memo.new ≡ memo_of (query_in self.now) (rows_in self.now)
            (assigned self.now.values.now env.old) memo.old }
        ensures env_unchanged { env.new ≡ env.old }
    {
        let layout = self.layout;
        let level = self.level;
        let t = layout.first;
        let left = Left {
            targets: layout.targets,
            level,
        };
        let x = kinds::tail(self.q, t);
        let y = kinds::tail_sizes(self.z, t);
        aggregates::targets(x, y, left, self.walks, self.values, env, memo);
        let c = layout.condition;
        let u = kinds::tail(self.q, c);
        let v = kinds::tail_sizes(self.z, c);
        aggregates::condition(u, v, level, self.walks, self.values, env, memo);
    }

    // All ranges are left to bind, no target is listed yet, and no row stored. In the table the targets stand from `front` on.
    fn plan(&self, front: usize) -> Plan
        ensures { result ≡ plan_of self.now.layout self.now.level front }
    {
        let layout = self.layout;
        Plan {
            targets: layout.first,
            columns: layout.targets,
            level: self.level,
            listed: false,
            left: layout.ranges,
            depth: 0,
            front,
            rows: 0,
            full: false,
        }
    }

    // The branches at the start of the table, and chains behind them where there is room for some.
    fn furnish(&self, memo: &[i64], front: usize, work: &mut [u16])
        requires { Cleared front work.old }
        ensures { Serves self.now memo.now front work.old work.new }
    {
        let n = self.layout.ranges;
        let c = self.layout.condition;
        let (code, rest) = work.split_at_mut(BRANCHES);
        conjuncts::plan(self.q, self.z, n, c, self.level, memo, code);
        if front == BRANCHES {
            return;
        }
        let chains = &mut rest[..front - BRANCHES];
        decide::seeks::link(self.q, n, code, self.walks, self.values, chains);
    }

    // The answer, by a memo that says nothing false of the query. The table for branches, chains, targets and the answer's rows is lent, cleared.
    fn answer_in(&self, memo: &[i64], front: usize, answer: &mut [i64], work: &mut [u16]) -> Reply
        requires trusted { Trusts self.now memo.now }
        requires cleared { Cleared front work.old }
        ensures { Answered self.now result answer.old answer.new }
    {
        let mut env = [self.values.len(); 256];
        self.furnish(memo, front, work);
        let plan = self.plan(front);
        let state = odometer::run(
            self.q,
            self.z,
            work,
            plan,
            self.walks,
            self.values,
            memo,
            &mut env,
            answer,
        );
        filled(state, self.layout.targets)
    }

    // The same with a table of its own, of N numbers: no larger one stands on the stack and is cleared than the query needs.
    fn answer_sized<const N: usize>(&self, memo: &[i64], front: usize, answer: &mut [i64]) -> Reply
        requires trusted { Trusts self.now memo.now }
        requires room { (768 ≤ front) × (front + 16 ≤ N) × (N ≤ 65536) }
        ensures { Answered self.now result answer.old answer.new }
    {
        let mut work = [0u16; N];
        self.answer_in(memo, front, answer, &mut work)
    }

    // How many ranges after the first have so many rows that a chain may pay. It promises little, since any room will do: it only saves time.
    fn chained(&self) -> usize
        ensures { result ≤ 5 }
    {
        let mut n = 0;
        for i in 1..self.layout.ranges {
            let walk = walks::walk_of(self.walks, kinds::byte(self.q, kinds::RANGE * i + 1));
            n += usize::from(8 <= walk.count);
        }
        n
    }

    // How many rows the ranges can give, exact up to 1,024. It promises nothing, since a table of any length will do: it only saves time.
    fn most_rows(&self) -> usize {
        let mut n = 1;
        for i in 0..self.layout.ranges {
            let walk = walks::walk_of(self.walks, kinds::byte(self.q, kinds::RANGE * i + 1));
            n *= walk.count;
            if 1024 < n {
                break;
            }
        }
        n
    }

    // The answer for any number of rows, by the ranges and by the room for them, with room for the chains that may pay.
    fn answer_by(&self, memo: &[i64], answer: &mut [i64]) -> Reply
        requires { Trusts self.now memo.now }
        ensures { Answered self.now result answer.old answer.new }
    {
        let rows = answer.len().min(self.most_rows());
        let chains = self.chained() + holding(self.q) / 2;
        if 2 < chains {
            return self.answer_sized::<MANY_CHAINED>(memo, BRANCHES + EIGHT, answer);
        }
        if 1024 < rows {
            if chains == 0 {
                return self.answer_sized::<MANY_ROWS>(memo, BRANCHES, answer);
            }
            return self.answer_sized::<MANY_LINKED>(memo, BRANCHES + TWO, answer);
        }
        if chains == 0 {
            return self.answer_sized::<FEW_ROWS>(memo, BRANCHES, answer);
        }
        self.answer_sized::<FEW_LINKED>(memo, BRANCHES + TWO, answer)
    }

    // The same where the query may have aggregates: each is evaluated once, into a memo with two cells for each variable.
    fn answer_filled(&self, answer: &mut [i64]) -> Reply
        requires { HasPassed self.now }
        ensures { Answered self.now result answer.old answer.new }
    {
        let mut memo = [0i64; 512];
        let mut env = [self.values.len(); 256];
        self.remember(&mut env, &mut memo);
        self.answer_by(&memo, answer)
    }
}

// What `holding` says, with one record more; no more than 1,000 are counted.
fn counted(n: usize, kind: u8) -> usize
    ensures { n ≤ 1001 → result ≤ 1001 }
{
    if 999 < n {
        return n;
    }
    match kind {
        22 => n + 2,
        34 => n / 2 * 2 + 1,
        _ => n,
    }
}

// Twice the number of SOME records of a query, and 1 more where it has an aggregate. It promises little, since any memo that can be trusted and any
// room for chains will do: it only saves time.
fn holding(q: &[u8]) -> usize
    ensures { result ≤ 1001 }
{
    let mut n = 0;
    for record in Records::of(q) {
        n = counted(n, kinds::byte(record, 0));
    }
    n
}

// A query that passed its checks, over the rows of its walks. A memo that knows nothing can be trusted for any query: without aggregates no large one
// is cleared. For few rows no table is.
pub fn answer_query(
    q: &[u8],
    z: &[u16],
    layout: Layout,
    level: usize,
    walks: &[u16],
    values: &[i32],
    answer: &mut [i64],
) -> Reply
    requires { Passed layout level q.now z.now }
    ensures { answer_of result answer.new ≡ give (length (query_of q.now).targets)
        (answers (query_of q.now) (rows_by walks.now values.now)) answer.old }
{
    let asked = Asked {
        q,
        z,
        layout,
        level,
        walks,
        values,
    };
    let h = holding(q);
    if h % 2 == 1 {
        return asked.answer_filled(answer);
    }
    let memo = [0i64; 2];
    if h <= 1 && asked.most_rows() <= 16 {
        return asked.answer_sized::<SMALL>(&memo, BRANCHES, answer);
    }
    asked.answer_by(&memo, answer)
}

// The same over all rows.
fn answer_all(
    q: &[u8],
    z: &[u16],
    layout: Layout,
    level: usize,
    catalogue: &[u8],
    values: &[i32],
    answer: &mut [i64],
) -> Reply
    requires { Answerable layout level q.now z.now catalogue.now }
    ensures { answer_of result answer.new ≡ give (length (query_of q.now).targets)
        (answers (query_of q.now) (all_rows (tuples_at (catalogue_of catalogue.now) values.now))) answer.old }
{
    let mut walks = [0u16; 2048];
    allrows::fill(q, catalogue, &mut walks);
    answer_query(q, z, layout, level, &walks, values, answer)
}

// The checks by rising number, then the answer; the table of sizes is lent.
fn evaluate_with(
    z: &mut [u16],
    catalogue: &[u8],
    values: &[i32],
    query: &[u8],
    answer: &mut [i64],
) -> Result<Reply, Refusal>
    requires { length query.now ≤ 17216 → length query.now ≤ length z.old }
    ensures { result_of result answer.new ≡ evaluate catalogue.now values.now query.now answer.old }
{
    catalogue::check(catalogue, values)?;
    let limits = Limits {
        bytes: model::PLAIN_BYTES,
        levels: LEVELS,
        variables: model::PLAIN_VARIABLES,
    };
    let layout = queries::check(query, limits, catalogue, z)?;
    Ok(answer_all(query, z, layout, LEVELS, catalogue, values, answer))
}

// The same with a table of its own, of N numbers.
fn evaluate_sized<const N: usize>(
    catalogue: &[u8],
    values: &[i32],
    query: &[u8],
    answer: &mut [i64],
) -> Result<Reply, Refusal>
    requires short { length query.now ≤ 17216 → length query.now ≤ N }
    requires size { N ≤ 17216 }
    ensures { result_of result answer.new ≡ evaluate catalogue.now values.now query.now answer.old }
{
    let mut z = [0u16; N];
    evaluate_with(&mut z, catalogue, values, query, answer)
}

// evaluate of document 01: for every input the outcome that the model gives. A large table is not cleared for a short query.
pub fn evaluate(
    catalogue: &[u8],
    values: &[i32],
    query: &[u8],
    answer: &mut [i64],
) -> Result<Reply, Refusal>
    ensures { result_of result answer.new ≡ evaluate catalogue.now values.now query.now answer.old }
{
    if query.len() <= SHORT {
        return evaluate_sized::<SHORT>(catalogue, values, query, answer);
    }
    evaluate_sized::<LONG>(catalogue, values, query, answer)
}
