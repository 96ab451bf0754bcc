// The reader of QUEL: a short text with a short name list in one pass, with no tokens; where that gives up, by tokens.
#![tactic(auto)]

mod conditions;
mod heads;
mod index;
mod lexis;
mod mend;
mod symbols;
mod terms;

ghost use Rattle.std.specs.Prelude.{◌≡◌, List, [], ℕ, ◌≤◌, ◌<◌, get_or, MatchOption};
ghost use Rattle.std.proofs.Math.ListN as L;
ghost use Rattle.quel.specs.Results.{Word};
ghost use Rattle.quel.specs.Elaboration.{Symbol};
ghost use Rattle.quel.specs.ReadText.{read_text};
ghost use Rattle.names.specs.Entries.{entries};
ghost use Rattle.reader.specs.Readings.{reading_of};
ghost use Rattle.parts.specs.Parts.{Copied};
ghost use Rattle.parts.specs.Table.{Ready};
ghost use Rattle.parts.specs.Reads.{Heads, RestAt};
ghost use Rattle.quick.specs.Steps.{Lent, Went};

use lexis::Text;
use model::Refusal;

// Where the pass stands in the text, 0 where it gave up, and how many bytes are written.
#[derive(Clone, Copy)]
struct Pass {
    at: usize,
    to: usize,
}

// It is no Option, since a pass comes back in two registers and an Option through memory: reading a text took 2.3 in a hundred more instructions.
const LOST: Pass = Pass { at: 0, to: 0 };

// What is read: a text, and a name list with its table.
#[derive(Drop)]
struct Source<'a> {
    text: Text,
    list: &'a [u8],
    names: &'a [u64; 256],
}

// The targets and the condition; TRUE where there is none.
fn rest(source: &Source<'_>, symbols: &mut [u64; 160], made: &mut [u8; 1024], start: usize) -> Pass
    requires lent { Lent source.now.list.now source.now.names.now symbols.old made.old }
    requires start_bound { start ≤ 254 }
    ensures went { Went start 0 result.at result.to symbols.new made.new }
    ensures to_bound { 1 ≤ result.at → result.to ≤ 981 }
    ensures by_index { (given : List ℕ) (ρ : List Symbol) (ws : List Word) → Copied source.now.text.bytes given → Ready symbols.old ws ρ → 1 ≤ result.at
        → RestAt (entries source.now.list.now) ρ ws given start result.at symbols.old symbols.new made.old
        made.new 0 result.to }
{
    let t = heads::targets(source, symbols, made, start);
    let end = t.at;
    if end == 0 {
        return LOST;
    }
    let to = t.to;
    let Some(at) = source.text.past(end, 58) else {
        made[to] = 16;
        return Pass {
            at: end,
            to: to + 1,
        };
    };
    conditions::condition(source, symbols, made, Pass { at, to })
}

// A text with its length, over cleared tables.
fn read_with(
    text: Text,
    length: usize,
    list: &[u8],
    names: &mut [u64; 256],
    symbols: &mut [u64; 160],
    made: &mut [u8; 1024],
    out: &mut [u8],
) -> Option<Result<usize, Refusal>>
    requires ended { (1 ≤ length) × Heads symbols.old [] × (L.length made.old ≡ 1024) }
    requires names_value { (L.length names.old ≡ 256) × ((h : ℕ) → get_or names.old h 0 ≡ 0) }
    ensures { (given : List ℕ) → Copied text.bytes given → length ≡ L.length given
        → MatchOption result (out.new ≡ out.old) (λ r. reading_of r out.new ≡ read_text list.now given out.old) }
{
    if !index::listed(list, names) {
        return None;
    }
    let source = Source { text, list, names };
    let at = heads::head(&source, symbols)?;
    let n = symbols[symbols::COUNT] as usize;
    let s = rest(&source, symbols, made, at);
    let end = s.at;
    if end != length {
        return None;
    }
    Some(mend::finish(symbols, made, n, s.to, out))
}

// What the definition gives, of a text that the pass reads whole; nothing, and the buffer as it was, of any other.
fn one_pass(given: &[u8], list: &[u8], out: &mut [u8]) -> Option<Result<usize, Refusal>>
    ensures { MatchOption result (out.new ≡ out.old) (λ r. reading_of r out.new ≡ read_text list.now given.now out.old) }
{
    let length = given.len();
    if length == 0 || 254 < length {
        return None;
    }
    let text = Text::of(given);
    let mut names = [0u64; 256];
    let mut symbols = [0u64; 160];
    let mut made = [0u8; 1024];
    read_with(text, length, list, &mut names, &mut symbols, &mut made, out)
}

// Reads a text: for every input what the definition gives. A refusal leaves the buffer as it was.
pub fn read(text: &[u8], list: &[u8], out: &mut [u8]) -> Result<usize, Refusal>
    ensures { reading_of result out.new ≡ read_text list.now text.now out.old }
{
    match one_pass(text, list, out) {
        Some(r) => r,
        None => reader::read(text, list, out),
    }
}
