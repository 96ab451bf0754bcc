// The reader of QUEL (document 02, Change 1): a text and a name list, to the records of a question in a lent buffer.
#![tactic(auto)]

mod syntax;

ghost use Rattle.std.specs.Prelude.{◌≡◌, true, not, ℕ, ◌+◌, ◌≤◌, ◌<◌, length, get_or};
ghost use Rattle.quel.specs.Names.{names};
ghost use Rattle.quel.specs.ReadText.{read_text};
ghost use Rattle.names.specs.Answers.{failed};
ghost use Rattle.names.specs.Search.{Indexed};
ghost use Rattle.elaborate.specs.Lookup.{room_of, chains_in, ids_in};
ghost use Rattle.reader.specs.Readings.{reading_of};

use model::Refusal;

// A text outside the grammar, by its tokens or by their order.
const GRAMMAR: Refusal = Refusal::Grammar;

// What the chains of the name list take of the table by which names are looked up.
#[tactic(auto, unfolding(elaborate::specs::Lookup::room_of))]
fn room(n: usize) -> usize
    ensures { result ≡ room_of n }
{
    if n <= 1023 { 768 } else { 4608 }
}

// Whether the name list is good. Its records are chained then; behind the chains all stays clear, for the numbers of the text's names.
fn chained(list: &[u8], lookup: &mut [u16]) -> bool
    requires { (room_of (length lookup.old) ≤ length lookup.old) × ((x : ℕ) → get_or lookup.old x 0 ≡ 0) }
    ensures value { result ≡ not (failed (names list.now)) }
    ensures indexed { (result ≡ true → Indexed list.now (chains_in lookup.new))
        × ((x : ℕ) → get_or (ids_in lookup.new) x 0 ≡ 0) }
{
    let k = room(lookup.len());
    names::listed(list, &mut lookup[..k])
}

// 50 for the text alone, 51 for the name list, then its names; the tables are lent.
fn read_with(
    text: &[u8],
    list: &[u8],
    kinds: &mut [u8],
    starts: &mut [u16],
    numbers: &mut [u64],
    lookup: &mut [u16],
    out: &mut [u8],
) -> Result<usize, Refusal>
    requires text_in_bounds { length text.now ≤ 2000 → (length text.now ≤ length kinds.old) × (length text.now ≤ length starts.old)
        × (length text.now ≤ length numbers.old) × (room_of (length lookup.old) + length text.now ≤ length lookup.old) }
    requires by_index { (x : ℕ) → get_or lookup.old x 0 ≡ 0 }
    ensures { reading_of result out.new ≡ read_text list.now text.now out.old }
{
    let Some(n) = tokens::cut(text, kinds, starts, numbers) else {
        return Err(GRAMMAR);
    };
    let kinds = &kinds[..n];
    if !syntax::accepted(kinds) {
        return Err(GRAMMAR);
    }
    if !chained(list, lookup) {
        return Err(Refusal::Name);
    }
    elaborate::elaborate(text, kinds, starts, numbers, list, lookup, out)
}

// Over tables of its own: for TEXT tokens, and of NAMES places for the names.
fn read_in<const TEXT: usize, const NAMES: usize>(
    text: &[u8],
    list: &[u8],
    out: &mut [u8],
) -> Result<usize, Refusal>
    requires tokens { length text.now ≤ 2000 → length text.now ≤ TEXT }
    requires names { room_of NAMES + TEXT ≤ NAMES }
    requires small { (TEXT ≤ 2000) × (NAMES ≤ 6608) }
    ensures { reading_of result out.new ≡ read_text list.now text.now out.old }
{
    let mut kinds = [0u8; TEXT];
    let mut starts = [0u16; TEXT];
    let mut numbers = [0u64; TEXT];
    let mut lookup = [0u16; NAMES];
    read_with(
        text,
        list,
        &mut kinds,
        &mut starts,
        &mut numbers,
        &mut lookup,
        out,
    )
}

// Reads a text: for every input what the definition gives, the length of the records or a refusal. A refusal leaves the buffer as it was.
pub fn read(text: &[u8], list: &[u8], out: &mut [u8]) -> Result<usize, Refusal>
    ensures { reading_of result out.new ≡ read_text list.now text.now out.old }
{
    // For a short text and a short list the tables are small, none over 2,048 bytes, and soon cleared.
    if list.len() <= 3584 && text.len() <= 255 {
        read_in::<255, 1023>(text, list, out)
    } else {
        read_in::<2000, 6608>(text, list, out)
    }
}
