// What C calls for a label book: a question asked as waldumre_ask does, and the book of its rows.
#![tactic(auto)]

mod book;

ghost use Rattle.std.specs.Prelude.{◌≡◌, ℕ, ◌*◌, ◌≤◌, List, length};
ghost use Rattle.model.specs.Book.{label_book, book_after};
ghost use Rattle.waldumre_book.specs.Outcome.{book_outcome_of, asked_as, ask_outcome};

use guarded::Reply;

// The number of a call whose answer makes no book.
const NO_BOOK: u64 = 53;

// The number of a refusal, 0 where there is none, and the counts of rows, columns and rewritten bytes.
#[repr(C)]
#[derive(Clone, Copy)]
pub struct Outcome {
    pub number: u64,
    pub rows: u64,
    pub columns: u64,
    pub length: u64,
}

// A refusal is its number with zero counts.
fn refused(number: u64) -> Outcome
    ensures { result ≡ record { number = number; rows = 0; columns = 0; length = 0 } }
{
    Outcome {
        number,
        rows: 0,
        columns: 0,
        length: 0,
    }
}

// What ask returned.
fn asked(r: Reply) -> Outcome
    ensures { result ≡ asked_as r }
{
    Outcome {
        number: u64::from(r.answer.number()),
        rows: r.answer.rows as u64,
        columns: r.answer.columns as u64,
        length: r.length as u64,
    }
}

// The book of a reply; 41 and then 53 make none.
fn booked(r: Reply, answer: &[i64], offers: &mut [i64], display: &mut [u8]) -> Outcome
    requires { r.answer.rows * r.answer.columns ≤ length answer.now }
    ensures { (bytes : List ℕ) → book_outcome_of result answer.now bytes (record { offers = offers.new; display = display.new })
        ≡ book_after (ask_outcome r answer.now bytes) (record { offers = offers.old; display = display.old }) }
{
    if r.answer.full {
        return asked(r);
    }
    let columns = r.answer.columns;
    let n = r.answer.rows * columns;
    if book::write(columns, &answer[..n], offers, display) {
        return asked(r);
    }
    refused(NO_BOOK)
}

// The book call. ask's own refusals go first, 41 too: a part of an answer makes no book. Then 53.
#[unsafe(no_mangle)]
pub extern "C" fn waldumre_label_book(
    catalogue: &[u8],
    values: &[i32],
    permits: &[u8],
    query: &[u8],
    rewritten: &mut [u8],
    answer: &mut [i64],
    offers: &mut [i64],
    display: &mut [u8],
) -> Outcome
    ensures { book_outcome_of result answer.new rewritten.new
        (record { offers = offers.new; display = display.new })
        ≡ label_book catalogue.now values.now permits.now query.now rewritten.old
        answer.old (record { offers = offers.old; display = display.old }) }
{
    match guarded::ask(catalogue, values, permits, query, rewritten, answer) {
        Ok(r) => booked(r, answer, offers, display),
        Err(refusal) => refused(u64::from(u8::from(refusal))),
    }
}
