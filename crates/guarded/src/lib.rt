// The guarded call: the permits written into the query, and the query answered over the permitted rows.
#![tactic(auto)]

ghost use Rattle.std.specs.Prelude.{◌≡◌, ◌-◌, ◌/◌, ◌≤◌, length};
ghost use Rattle.model.specs.Encoding.{query_of};
ghost use Rattle.model.specs.Meaning.{answers};
ghost use Rattle.model.specs.Calls.{give, ask};
ghost use Rattle.model.specs.Lists.{all, Every};
ghost use Rattle.scans.specs.Flat.{flat_bindings};
ghost use Rattle.plain.specs.Reply.{answer_of, Answerable};
ghost use Rattle.permitted.specs.Given.{tiny, Low, Bytes};
ghost use Rattle.rewriter.specs.Rewritten.{places_in, masks_in};
ghost use Rattle.guarded.specs.Outcome.{result_of, given_rows, Bound, Checks32};

use grammar::Layout;
use model::Refusal;
use queries::Limits;
use scans::BoundVariables;

const LEVELS: usize = model::ASKED_LEVELS;

const VARIABLES: usize = model::ASKED_VARIABLES as usize;

// The tables of walks: eight numbers for each variable, and a list of as many rows as a relation can have, or of 16.
const WALKS: usize = VARIABLES * (8 + model::ROWS);

const FEW_WALKS: usize = VARIABLES * (8 + 16);

// Where the permits' conditions stand, and which permits apply to each variable.
const TABLE: usize = rewriter::PLACES + VARIABLES;

// The answer, and how many bytes the rewritten query has.
#[derive(Clone, Copy)]
pub struct Reply {
    pub answer: plain::Reply,
    pub length: usize,
}

// The asker's own query over the permitted rows of its variables, which are found first: nothing of it runs on another row. The table of walks has N
// numbers: a large one is not cleared where each bound relation has few rows.
fn answer_sized<const N: usize>(
    query: &[u8],
    z: &[u16],
    layout: Layout,
    catalogue: &[u8],
    values: &[i32],
    permits: &[u8],
    table: &[u16],
    answer: &mut [i64],
) -> plain::Reply
    requires passed { Answerable layout 32 query.now z.now catalogue.now × Bound catalogue.now query.now
        × Bytes (masks_in table.now) }
    requires room { (64 ≤ N) × (N ≤ 8256) × Every (Low catalogue.now ((N - 64) / 8)) (flat_bindings query.now) }
    ensures { answer_of result answer.new ≡ give (length (query_of query.now).targets)
        (answers (query_of query.now) (given_rows catalogue.now values.now permits.now
        (places_in table.now) (masks_in table.now))) answer.old }
{
    let mut walks = [0u16; N];
    permitted::fill(query, permits, table, catalogue, values, &mut walks);
    plain::answer_query(query, z, layout, LEVELS, &walks, values, answer)
}

// Whether each bound relation has at most 16 rows.
fn few(query: &[u8], catalogue: &[u8]) -> bool
    ensures { result ≡ all (tiny catalogue.now) (flat_bindings query.now) }
{
    BoundVariables::of(query).all(|b| catalogue::entry(catalogue, b.relation).rows <= 16)
}

fn answer_permitted(
    query: &[u8],
    z: &[u16],
    layout: Layout,
    catalogue: &[u8],
    values: &[i32],
    permits: &[u8],
    table: &[u16],
    answer: &mut [i64],
) -> plain::Reply
    requires { Answerable layout 32 query.now z.now catalogue.now × Bound catalogue.now query.now
        × Bytes (masks_in table.now) }
    ensures { answer_of result answer.new ≡ give (length (query_of query.now).targets)
        (answers (query_of query.now) (given_rows catalogue.now values.now permits.now
        (places_in table.now) (masks_in table.now))) answer.old }
{
    if few(query, catalogue) {
        return answer_sized::<FEW_WALKS>(
            query, z, layout, catalogue, values, permits, table, answer,
        );
    }
    answer_sized::<WALKS>(query, z, layout, catalogue, values, permits, table, answer)
}

// 33 and 40, then the rewritten query, byte by byte, and the answer: the query over the permitted rows gives what the rewritten one gives (demand 2).
// Which permits apply is found once, in one walk that says 33 and the length too; the guards are written from its table.
fn answer_query(
    query: &[u8],
    z: &[u16],
    layout: Layout,
    catalogue: &[u8],
    values: &[i32],
    permits: &[u8],
    rewritten: &mut [u8],
    answer: &mut [i64],
) -> Result<Reply, Refusal>
    requires { Checks32 layout catalogue.now values.now permits.now query.now z.now }
    ensures { result_of result answer.new rewritten.new
        ≡ ask catalogue.now values.now permits.now query.now rewritten.old answer.old }
{
    let mut table = [0u16; TABLE];
    let length = guards::fill(query, permits, catalogue, &mut table)?;
    if rewritten.len() < length {
        return Err(Refusal::RewrittenRoom);
    }
    rewriter::rewrite_query(query, z, layout, LEVELS, permits, &table, rewritten);
    let reply = answer_permitted(query, z, layout, catalogue, values, permits, &table, answer);
    Ok(Reply {
        answer: reply,
        length,
    })
}

// The checks by rising number; the table of sizes is lent.
fn ask_with(
    z: &mut [u16],
    catalogue: &[u8],
    values: &[i32],
    permits: &[u8],
    query: &[u8],
    rewritten: &mut [u8],
    answer: &mut [i64],
) -> Result<Reply, Refusal>
    requires { 1024 ≤ length z.old }
    ensures { result_of result answer.new rewritten.new
        ≡ ask catalogue.now values.now permits.now query.now rewritten.old answer.old }
{
    catalogue::check(catalogue, values)?;
    permits::check(permits, catalogue)?;
    let limits = Limits {
        bytes: model::ASKED_BYTES,
        levels: LEVELS,
        variables: model::ASKED_VARIABLES,
    };
    let layout = queries::check(query, limits, catalogue, z)?;
    answer_query(
        query, z, layout, catalogue, values, permits, rewritten, answer,
    )
}

// ask of document 01: for every input the outcome that the model gives.
pub fn ask(
    catalogue: &[u8],
    values: &[i32],
    permits: &[u8],
    query: &[u8],
    rewritten: &mut [u8],
    answer: &mut [i64],
) -> Result<Reply, Refusal>
    ensures { result_of result answer.new rewritten.new
        ≡ ask catalogue.now values.now permits.now query.now rewritten.old answer.old }
{
    let mut z = [0u16; model::ASKED_BYTES];
    ask_with(&mut z, catalogue, values, permits, query, rewritten, answer)
}
