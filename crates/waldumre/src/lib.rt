// What C calls: the exported functions. Each only hands on, so that its contract is the model's.
#![tactic(auto)]

ghost use Rattle.std.specs.Prelude.{◌≡◌};
ghost use Rattle.model.specs.Calls.{evaluate, ask};
ghost use Rattle.quel.specs.ReadText.{read_text};
ghost use Rattle.waldumre.specs.Outcome.{answer_of, outcome_of, reading_of, text_outcome_of};
ghost use Rattle.waldumre.specs.Outcome.{refused_as, answered_as, asked_as, read_as};
ghost use Rattle.waldumre.specs.AskText.{ask_text};

use model::Refusal;

// The number of a refusal, 0 where there is none, and the counts of rows, columns and rewritten bytes.
#[repr(C)]
#[derive(Clone, Copy)]
pub struct Outcome {
    pub number: u64,
    pub rows: u64,
    pub columns: u64,
    pub length: u64,
}

// A refusal is its number with zero counts.
fn refused(refusal: Refusal) -> Outcome
    ensures { result ≡ refused_as refusal }
{
    Outcome {
        number: u64::from(u8::from(refusal)),
        rows: 0,
        columns: 0,
        length: 0,
    }
}

impl From<Result<plain::Reply, Refusal>> for Outcome {
    ghost from_gives = { λ r o. o ≡ answered_as r };

    fn from(reply: Result<plain::Reply, Refusal>) -> Outcome {
        match reply {
            Ok(r) => Outcome {
                number: u64::from(r.number()),
                rows: r.rows as u64,
                columns: r.columns as u64,
                length: 0,
            },
            Err(refusal) => refused(refusal),
        }
    }
}

impl From<Result<guarded::Reply, Refusal>> for Outcome {
    ghost from_gives = { λ r o. o ≡ asked_as r };

    fn from(reply: Result<guarded::Reply, Refusal>) -> Outcome {
        match reply {
            Ok(r) => Outcome {
                number: u64::from(r.answer.number()),
                rows: r.answer.rows as u64,
                columns: r.answer.columns as u64,
                length: r.length as u64,
            },
            Err(refusal) => refused(refusal),
        }
    }
}

// The plain evaluator; it rewrites nothing, so its third count is 0.
#[unsafe(no_mangle)]
pub extern "C" fn waldumre_evaluate(
    catalogue: &[u8],
    values: &[i32],
    query: &[u8],
    answer: &mut [i64],
) -> Outcome
    ensures answer_after { answer_of result answer.new ≡ evaluate catalogue.now values.now query.now answer.old }
    ensures length_value { result.length ≡ 0 }
{
    Outcome::from(plain::evaluate(catalogue, values, query, answer))
}

// The guarded call.
#[unsafe(no_mangle)]
pub extern "C" fn waldumre_ask(
    catalogue: &[u8],
    values: &[i32],
    permits: &[u8],
    query: &[u8],
    rewritten: &mut [u8],
    answer: &mut [i64],
) -> Outcome
    ensures { outcome_of result answer.new rewritten.new
        ≡ ask catalogue.now values.now permits.now query.now rewritten.old answer.old }
{
    let r = guarded::ask(catalogue, values, permits, query, rewritten, answer);
    Outcome::from(r)
}

// The number of a refusal of the reader, 0 where there is none, and the length of the records.
#[repr(C)]
#[derive(Clone, Copy)]
pub struct Reading {
    pub number: u64,
    pub length: u64,
}

impl From<Result<usize, Refusal>> for Reading {
    ghost from_gives = { λ r o. o ≡ read_as r };

    fn from(read: Result<usize, Refusal>) -> Reading {
        match read {
            Ok(length) => Reading {
                number: 0,
                length: length as u64,
            },
            Err(refusal) => Reading {
                number: u64::from(u8::from(refusal)),
                length: 0,
            },
        }
    }
}

// A text of QUEL to a question's records, which waldumre_evaluate and waldumre_ask take.
#[unsafe(no_mangle)]
pub extern "C" fn waldumre_read_query(text: &[u8], names: &[u8], records: &mut [u8]) -> Reading
    ensures { reading_of result records.new ≡ read_text names.now text.now records.old }
{
    Reading::from(quick::read(text, names, records))
}

// The guarded call by text: 50, 51, 52 before all of ask's numbers.
#[unsafe(no_mangle)]
pub extern "C" fn waldumre_ask_text(
    catalogue: &[u8],
    values: &[i32],
    permits: &[u8],
    text: &[u8],
    names: &[u8],
    records: &mut [u8],
    rewritten: &mut [u8],
    answer: &mut [i64],
) -> Outcome
    ensures { text_outcome_of result answer.new rewritten.new records.new
        ≡ ask_text catalogue.now values.now permits.now text.now names.now
        records.old rewritten.old answer.old }
{
    match quick::read(text, names, records) {
        Ok(n) => waldumre_ask(catalogue, values, permits, &records[..n], rewritten, answer),
        Err(unread) => refused(unread),
    }
}
