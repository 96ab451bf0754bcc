// What each token of a text gives: its record, with its names looked up in what is in reach.
ghost use Rattle.std.specs.Prelude.{◌≡◌, List, ℕ, ◌+◌, ◌-◌, ◌<◌, get_or, Some};
ghost use Rattle.quel.specs.Elaboration.{Symbol, as_byte, symbol_in};
ghost use Rattle.quel.specs.Names.{relation_named, value_named};
ghost use Rattle.names.specs.Entries.{entries};
ghost use Rattle.quel.specs.Results.{Word};
ghost use Rattle.tokens.specs.Codes.{Spelt};
ghost use Rattle.elaborate.specs.Lookup.{ids_of, Listed};
ghost use Rattle.elaborate.specs.Reach.{known_of};
ghost use Rattle.elaborate.specs.Tables.{Named, Holds};
ghost use Rattle.elaborate.specs.Modes.{action_no};
ghost use Rattle.elaborate.specs.Actions.{some_by, value_by, constant_by, use_item, head_item, item_of};

use crate::lookups::Lookup;
use crate::modes::Action;
use crate::reach;
use crate::reach::Known;
use kinds::Record;
use names::Sort;

// The token at hand: its place, its kind and what is to be done there; the innermost aggregate's frame, and the next variable's number.
#[derive(Clone, Copy)]
pub struct Scope {
    pub i: usize,
    pub kind: u8,
    pub action: Action,
    pub crossing: usize,
    pub n: usize,
}

// X.A: the symbol's variable, and the attribute of its relation.
fn use_item(lookup: &Lookup, known: Option<Known>, attribute: u64) -> Option<Record>
    requires { Listed lookup.now }
    ensures { (z : Word) → Spelt z attribute → result ≡ use_item (entries lookup.now.list.now) z known }
{
    let known = known?;
    let variable = known.variable?;
    let a = lookup.numbered(Sort::Attribute(known.relation), attribute)?;
    Some(Record::Attribute(variable, a))
}

// An aggregate over a symbol's relation, with a new variable.
fn head_item(
    lookup: &Lookup,
    f: u8,
    n: usize,
    known: Option<Known>,
    attribute: u64,
) -> Option<Record>
    requires { Listed lookup.now }
    ensures { (z : Word) → Spelt z attribute → result ≡ head_item (entries lookup.now.list.now) f n z known }
{
    let r = known?.relation;
    let a = lookup.numbered(Sort::Attribute(r), attribute)?;
    Some(Record::Aggregate(f, (n % 256) as u8, r, a))
}

fn some_item(lookup: &Lookup, n: usize, relation: u64) -> Option<Record>
    requires { Listed lookup.now }
    ensures { (z : Word) → Spelt z relation → result ≡ some_by (as_byte n) (relation_named (entries lookup.now.list.now) z) }
{
    let r = lookup.numbered(Sort::Relation, relation)?;
    Some(Record::Some((n % 256) as u8, r))
}

fn value_item(lookup: &Lookup, value: u64) -> Option<Record>
    requires { Listed lookup.now }
    ensures { (z : Word) → Spelt z value → result ≡ value_by (value_named (entries lookup.now.list.now) z) }
{
    let (a, b, c, d) = lookup.meaning(Sort::Value, value)?;
    Some(Record::Constant(a, b, c, d))
}

fn constant_item(lookup: &Lookup, i: usize) -> Record
    ensures { Some result ≡ constant_by (get_or lookup.now.numbers.now i 0) }
{
    let k = lookup.number(i);
    Record::Constant(
        (k % 256) as u8,
        (k / 256 % 256) as u8,
        (k / 65536 % 256) as u8,
        (k / 16777216 % 256) as u8,
    )
}

// X.A.
fn use_at(lookup: &Lookup, known: &[u64], scope: Scope) -> Option<Record>
    requires { (scope.i < 4000) × Listed lookup.now }
    ensures { (w : ℕ → Word) (ρ : List Symbol) (d : ℕ) → Named w (ids_of lookup.now) lookup.now.numbers.now
        → Holds w (ids_of lookup.now) known.now d scope.crossing ρ → result
        ≡ use_item (entries lookup.now.list.now) (w (scope.i + 2)) (known_of (symbol_in (w scope.i) ρ)) }
{
    let symbol = reach::seek(lookup, known, scope.crossing, scope.i);
    use_item(lookup, symbol, lookup.code(scope.i + 2))
}

// An aggregate.
fn head_at(lookup: &Lookup, known: &[u64], scope: Scope) -> Option<Record>
    requires { (scope.i < 4000) × Listed lookup.now }
    ensures { (w : ℕ → Word) (ρ : List Symbol) (d : ℕ) → Named w (ids_of lookup.now) lookup.now.numbers.now
        → Holds w (ids_of lookup.now) known.now d scope.crossing ρ → result ≡ head_item (entries lookup.now.list.now) (scope.kind - 1)
        scope.n (w (scope.i + 4)) (known_of (symbol_in (w (scope.i + 2)) ρ)) }
{
    let symbol = reach::seek(lookup, known, scope.crossing, scope.i + 2);
    head_item(
        lookup,
        scope.kind.saturating_sub(1),
        scope.n,
        symbol,
        lookup.code(scope.i + 4),
    )
}

// The record of the token at hand, unless a name is unknown or out of reach. A token with no record has Short, the record of no bytes: an Option in
// the Option would be no plainer, and its writer and its frame would have a case more.
pub(crate) fn item_at(lookup: &Lookup, known: &[u64], scope: Scope) -> Option<Record>
    requires { (scope.i < 4000) × Listed lookup.now }
    ensures { (w : ℕ → Word) (ρ : List Symbol) (d : ℕ) → Named w (ids_of lookup.now) lookup.now.numbers.now
        → Holds w (ids_of lookup.now) known.now d scope.crossing ρ → result ≡ item_of (entries lookup.now.list.now) (action_no scope.action)
        (scope.kind - 1) (get_or lookup.now.numbers.now scope.i 0) (w scope.i) (w (scope.i + 2)) (w (scope.i + 3)) (w (scope.i + 4)) ρ
        scope.n }
{
    match scope.action {
        Action::Use => use_at(lookup, known, scope),
        Action::Value => value_item(lookup, lookup.code(scope.i)),
        Action::Number => Some(constant_item(lookup, scope.i)),
        Action::Aggregate => head_at(lookup, known, scope),
        Action::Not => Some(Record::Not),
        Action::Some => some_item(lookup, scope.n, lookup.code(scope.i + 3)),
        Action::Finish => Some(Record::True),
        Action::Nothing | Action::Open | Action::Close => Some(Record::Short),
    }
}
