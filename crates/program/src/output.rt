// What the program prints, of the bytes of its four files: text in a lent buffer.
ghost use Rattle.std.specs.Prelude.{◌≡◌, false, ℕ, ◌+◌, ◌*◌, ◌/◌, ◌≤◌, ◌<◌, ltb, length, take, pos, replicate};
ghost use Rattle.std.proofs.lemmas.List.Edits.{sets};
ghost use Rattle.model.specs.Refusals.{number_of};
ghost use Rattle.program.specs.Counts.{IsPrefixLen};
ghost use Rattle.program.specs.Output as O;

use crate::text;
use model::Refusal;

// Whether a values file is over its limit, or no multiple of 4 bytes.
fn unreadable(file: &[u8]) -> bool
    ensures { result ≡ O.unreadable file.now }
{
    if 32768 < file.len() {
        return true;
    }
    file.len() % 4 != 0
}

// The values of a file, 4 bytes each, to the start of the lent slice.
fn read_values(file: &[u8], values: &mut [i32])
    requires { length file.now ≤ 4 * length values.old }
    ensures { take (length file.now / 4) values.new ≡ O.numbers file.now }
{
    let mut i = 0;
    let mut at = 0;
    while at + 4 <= file.len() {
        let value = kinds::constant(file[at], file[at + 1], file[at + 2], file[at + 3]);
        values[i] = value;
        at += 4;
        i += 1;
    }
}

fn refused(refusal: Refusal, out: &mut [u8]) -> usize
    ensures value { result ≡ length (O.refused (number_of refusal)) }
    ensures out_after { out.new ≡ sets out.old 0 (O.refused (number_of refusal)) }
{
    text::labelled(b"refused ", u64::from(u8::from(refusal)), out, 0)
}

// The lines of an accepted call.
fn accepted(
    rows: usize,
    columns: usize,
    count: usize,
    rewritten: &[u8],
    answer: &[i64],
    out: &mut [u8],
) -> usize
    requires columns_in_bounds { rows * columns ≤ length answer.now }
    requires count_in_bounds { count ≤ length rewritten.now }
    requires answer_len_bound { length (O.accepted rows columns count rewritten.now answer.now) < 9223372036854775808 }
    ensures value { result ≡ length (O.accepted rows columns count rewritten.now answer.now) }
    ensures out_after { out.new ≡ sets out.old 0 (O.accepted rows columns count rewritten.now answer.now) }
{
    let a = text::labelled(b"rows ", rows as u64, out, 0);
    let b = text::labelled(b"columns ", columns as u64, out, a);
    let c = text::labelled(b"question ", count as u64, out, b);
    let d = text::bytes(&rewritten[..count], out, c);
    text::table(rows, columns, answer, out, d)
}

// The refusal of an unreadable values file: 10 goes first.
fn unread(catalogue: &[u8]) -> Refusal
    ensures { number_of result ≡ O.unread catalogue.now }
{
    match catalogue::check(catalogue, &[0i32; 1]) {
        Err(refusal) => refusal,
        Ok(()) => Refusal::Values,
    }
}

// The text, with the buffers lent.
fn respond_with(
    catalogue: &[u8],
    file: &[u8],
    permits: &[u8],
    question: &[u8],
    values: &mut [i32],
    rewritten: &mut [u8],
    answer: &mut [i64],
    out: &mut [u8],
) -> usize
    requires in_bounds { 8192 ≤ length values.old }
    requires rewritten_value { rewritten.old ≡ replicate 17216 0 }
    requires answer_value { answer.old ≡ replicate 4096 (pos 0) }
    ensures value { result ≡ length (O.output catalogue.now file.now permits.now question.now) }
    ensures out_after { out.new ≡ sets out.old 0 (O.output catalogue.now file.now permits.now
        question.now) }
    ensures upper_bound { result ≤ 470000 }
{
    if unreadable(file) {
        return refused(unread(catalogue), out);
    }
    read_values(file, values);
    let n = file.len() / 4;
    match guarded::ask(
        catalogue,
        &values[..n],
        permits,
        question,
        rewritten,
        answer,
    ) {
        Err(refusal) => refused(refusal, out),
        Ok(r) => {
            if r.answer.full {
                return refused(Refusal::AnswerRoom, out);
            }
            accepted(
                r.answer.rows,
                r.answer.columns,
                r.length,
                rewritten,
                answer,
                out,
            )
        }
    }
}

// The program as a function: the text that it prints of its files, at the start of the lent buffer, and its length. Past it the buffer is as it was.
pub(crate) fn respond(
    catalogue: &[u8],
    file: &[u8],
    permits: &[u8],
    question: &[u8],
    out: &mut [u8],
) -> usize
    requires { 470000 ≤ length out.old }
    ensures prefix_len { IsPrefixLen result out.new }
    ensures out_after { take result out.new ≡ O.output catalogue.now file.now permits.now question.now }
    ensures out_after_2 { out.new ≡ sets out.old 0 (O.output catalogue.now file.now permits.now
        question.now) }
{
    let mut values = [0i32; 8192];
    let mut rewritten = [0u8; model::PLAIN_BYTES];
    let mut answer = [0i64; 4096];
    respond_with(
        catalogue,
        file,
        permits,
        question,
        &mut values,
        &mut rewritten,
        &mut answer,
        out,
    )
}
