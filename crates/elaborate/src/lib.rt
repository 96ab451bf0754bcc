// The records of a text's tokens, with names numbered and looked up.
#![tactic(auto)]

mod ahead;
mod binds;
mod frames;
mod items;
mod lookups;
mod loops;
mod marks;
mod modes;
mod opens;
mod reach;
mod reaches;
mod turns;

ghost use Rattle.std.specs.Prelude.{◌≡◌, List, ℕ, ◌+◌, ◌≤◌, ◌<◌, length, get_or};
ghost use Rattle.flat.specs.Flat.{flat_text};
ghost use Rattle.names.specs.Entries.{entries};
ghost use Rattle.names.specs.Search.{Indexed};
ghost use Rattle.tokens.specs.Codes.{Coded};
ghost use Rattle.elaborate.specs.Lookup.{room_of, chains_in, ids_in, ids_of, Listed, NamesWithin};
ghost use Rattle.elaborate.specs.Places.{table, tokens_from, name_in};
ghost use Rattle.elaborate.specs.Numbers.{Numbered};
ghost use Rattle.elaborate.specs.Tables.{Named};
ghost use Rattle.elaborate.specs.Answers.{records_of, answered, writing};
ghost use Rattle.elaborate.specs.After.{ended};
ghost use Rattle.elaborate.specs.Whole.{Ready, outcome};

use lookups::Lookup;
use loops::Start;
use marks::Tokens;
use model::Refusal;

// Writes the records of all tokens, with tables for what stands ahead of them and for what names stand for: the place after them, unless a name is
// unknown or out of reach.
fn records_with(
    kinds: &[u8],
    lookup: &Lookup,
    counts: &mut [u64],
    known: &mut [u64],
    out: &mut [u8],
) -> Option<usize>
    requires { (length kinds.now < 4000) × (length kinds.now < length counts.old) × (length kinds.now < length known.old)
        × NamesWithin lookup.now (length kinds.now) × ((x : ℕ) → get_or known.old x 0 ≡ 0)
        × Listed lookup.now }
    ensures { (text ss : List ℕ) → Ready text (table kinds.now ss lookup.now.numbers.now) (ids_of lookup.now)
        → ended out.old 0 (flat_text (entries lookup.now.list.now)
        (tokens_from text (table kinds.now ss lookup.now.numbers.now) 0)) ≡ outcome result out.new }
{
    let first = marks::main_place(kinds);
    marks::uses(kinds, lookup, first, known);
    let s = binds::bind(kinds, lookup, known, out)?;
    ahead::count(kinds, counts);
    let start = Start {
        first,
        end: kinds.len(),
        at: s.at,
        n: s.n,
    };
    let at = loops::run(lookup, counts, known, out, start)?;
    if marks::qualified(kinds, first) {
        return Some(at);
    }
    Some(copier::put(out, at, 16))
}

// The same, with tables of N places of its own.
fn records_sized<const N: usize>(kinds: &[u8], lookup: &Lookup, out: &mut [u8]) -> Option<usize>
    requires { (length kinds.now < N) × (N ≤ 2001) × NamesWithin lookup.now (length kinds.now) × Listed lookup.now }
    ensures { (text ss : List ℕ) → Ready text (table kinds.now ss lookup.now.numbers.now) (ids_of lookup.now)
        → ended out.old 0 (flat_text (entries lookup.now.list.now)
        (tokens_from text (table kinds.now ss lookup.now.numbers.now) 0)) ≡ outcome result out.new }
{
    let mut counts = [0u64; N];
    let mut known = [0u64; N];
    records_with(kinds, lookup, &mut counts, &mut known, out)
}

// Writes the records of all tokens, and says where they end, unless a name is refused. What does not fit the buffer is not written. Few tokens take
// small tables, none over 2,048 bytes, and soon cleared; the large ones are for as many as a text can have.
fn records(kinds: &[u8], lookup: &Lookup, out: &mut [u8]) -> Option<usize>
    requires { (length kinds.now ≤ 2000) × NamesWithin lookup.now (length kinds.now) × Listed lookup.now }
    ensures { (text ss : List ℕ) → Ready text (table kinds.now ss lookup.now.numbers.now) (ids_of lookup.now)
        → ended out.old 0 (flat_text (entries lookup.now.list.now)
        (tokens_from text (table kinds.now ss lookup.now.numbers.now) 0)) ≡ outcome result out.new }
{
    if kinds.len() <= 255 {
        return records_sized::<256>(kinds, lookup, out);
    }
    records_sized::<2001>(kinds, lookup, out)
}

// The length of the records of all tokens; a name (51) or their length (52) may refuse them. They are written into a draft first, so that a buffer that is
// too short is not touched; where they are longer than that they are made twice.
fn write(kinds: &[u8], lookup: &Lookup, draft: &mut [u8], out: &mut [u8]) -> Result<usize, Refusal>
    requires { (length kinds.now ≤ 2000) × (length draft.old ≤ 2048) × NamesWithin lookup.now (length kinds.now)
        × Listed lookup.now }
    ensures { (text ss : List ℕ) → Ready text (table kinds.now ss lookup.now.numbers.now) (ids_of lookup.now)
        → answered result out.new ≡ writing
        (records_of text (table kinds.now ss lookup.now.numbers.now) lookup.now.list.now) out.old }
{
    let Some(length) = records(kinds, lookup, draft) else {
        return Err(Refusal::Name);
    };
    if out.len() < length {
        return Err(Refusal::RecordRoom);
    }
    if length <= draft.len() {
        copier::copy(out, 0, &draft[..length]);
        return Ok(length);
    }
    records(kinds, lookup, out);
    Ok(length)
}

// A text whose names are numbered: bound once, and its records.
fn resolve(
    kinds: &[u8],
    lookup: &Lookup,
    draft: &mut [u8],
    out: &mut [u8],
) -> Result<usize, Refusal>
    requires { (length kinds.now ≤ 2000) × (length draft.old ≤ 2048) × NamesWithin lookup.now (length kinds.now)
        × Listed lookup.now }
    ensures { (text ss : List ℕ) → Numbered (name_in text kinds.now ss) (length kinds.now) (ids_of lookup.now)
        → Named (name_in text kinds.now ss) (ids_of lookup.now) lookup.now.numbers.now → answered result out.new
        ≡ writing (records_of text (table kinds.now ss lookup.now.numbers.now) lookup.now.list.now) out.old }
{
    if !marks::unique(kinds, lookup) {
        return Err(Refusal::Name);
    }
    write(kinds, lookup, draft, out)
}

// Numbers the names, behind the chains; these stay.
fn number_names(tokens: &Tokens, lookup: &mut [u16], links: &mut [u16])
    requires { (512 + length tokens.now.kinds.now ≤ length links.old) × ((x : ℕ) → get_or links.old x 0 ≡ 0)
        × (room_of (length lookup.old) + length tokens.now.kinds.now ≤ length lookup.old) × ((x : ℕ) → get_or (ids_in lookup.old) x 0 ≡ 0) }
    ensures numbered { Numbered (name_in tokens.now.text.now tokens.now.kinds.now tokens.now.starts.now) (length tokens.now.kinds.now) (ids_in lookup.new) }
    ensures lookup_unchanged { chains_in lookup.new ≡ chains_in lookup.old }
{
    let k = lookups::room(lookup.len());
    tokens.number(links, &mut lookup[k..]);
}

// With a table of L links and a draft of D bytes.
fn elaborate_sized<const L: usize, const D: usize>(
    tokens: &Tokens,
    list: &[u8],
    lookup: &mut [u16],
    out: &mut [u8],
) -> Result<usize, Refusal>
    requires lent { (length tokens.now.kinds.now ≤ 2000) × Indexed list.now (chains_in lookup.old)
        × (room_of (length lookup.old) + length tokens.now.kinds.now ≤ length lookup.old) × ((x : ℕ) → get_or (ids_in lookup.old) x 0 ≡ 0) }
    requires sizes { (512 + length tokens.now.kinds.now ≤ L) × (L ≤ 2513) × (D ≤ 2048) }
    ensures { answered result out.new ≡ writing (records_of tokens.now.text.now
        (table tokens.now.kinds.now tokens.now.starts.now tokens.now.numbers.now) list.now)
        out.old }
{
    let mut links = [0u16; L];
    number_names(tokens, lookup, &mut links);
    let mut draft = [0u8; D];
    let lookup = Lookup {
        table: lookup,
        numbers: tokens.numbers,
        list,
    };
    resolve(tokens.kinds, &lookup, &mut draft, out)
}

// The length of the records of a text that the grammar has; a name (51) or their length (52) may refuse it. A refusal leaves the buffer as it was.
pub fn elaborate(
    text: &[u8],
    kinds: &[u8],
    starts: &[u16],
    numbers: &[u64],
    list: &[u8],
    lookup: &mut [u16],
    out: &mut [u8],
) -> Result<usize, Refusal>
    requires kinds_len_bound { (length kinds.now ≤ 2000) × (length kinds.now ≤ length numbers.now)
        × Coded text.now (table kinds.now starts.now numbers.now) (length kinds.now) × Indexed list.now (chains_in lookup.old) }
    requires kinds_in_bounds { (room_of (length lookup.old) + length kinds.now ≤ length lookup.old) × ((x : ℕ) → get_or (ids_in lookup.old) x 0 ≡ 0) }
    ensures { answered result out.new ≡ writing (records_of text.now
        (table kinds.now starts.now numbers.now) list.now)
        out.old }
{
    let tokens = Tokens {
        text,
        kinds,
        starts,
        numbers,
    };
    if kinds.len() <= 255 {
        return elaborate_sized::<768, 512>(&tokens, list, lookup, out);
    }
    elaborate_sized::<2513, 2048>(&tokens, list, lookup, out)
}
