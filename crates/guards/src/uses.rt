// S of a variable, the attributes that a query uses of it, by a flat walk.
ghost use Rattle.std.specs.Prelude.{◌≡◌, false, ◌||◌, ℕ, ◌<◌};
ghost use Rattle.model.specs.Permits.{bit};
ghost use Rattle.kinds.specs.Record.{record_at};
ghost use Rattle.scans.specs.Flat.{use_of, flat_uses, used_in};
ghost use Rattle.guards.specs.Uses.{used_by};

use kinds::TermRecord;
use scans::Records;

// An attribute of a variable that a record uses.
#[derive(Clone, Copy)]
struct Used {
    variable: u8,
    attribute: u8,
}

// The kinds that use a variable: most records need not be read.
fn may_use(kind: u8) -> bool
    ensures { result ≡ false → (kind ≡ 33 → ⊥) × (kind ≡ 34 → ⊥) }
{
    matches!(kind, 33 | 34)
}

// What a record uses.
fn usage(bytes: &[u8]) -> Option<Used>
    ensures { used_by result ≡ use_of (record_at bytes.now) }
{
    if !may_use(kinds::byte(bytes, 0)) {
        return None;
    }
    match kinds::term_record(bytes) {
        TermRecord::Attribute(variable, attribute)
        | TermRecord::Aggregate(_, variable, _, attribute) => Some(Used {
            variable,
            attribute,
        }),
        TermRecord::Constant(_, _, _, _) | TermRecord::Other => None,
    }
}

// The mask with a use of the variable added.
fn add(mask: u16, used: Option<Used>, variable: u8) -> u16
    ensures { (a : ℕ) → a < 16 → bit result a ≡ (bit mask a || used_in (used_by used) variable a) }
{
    let Some(used) = used else {
        return mask;
    };
    if used.variable != variable {
        return mask;
    }
    if 16 <= used.attribute {
        return mask;
    }
    mask | (1 << u16::from(used.attribute))
}

// S of a variable: bit a is set where attribute a is used of it.
pub(crate) fn used_mask(q: &[u8], variable: u8) -> u16
    ensures { (a : ℕ) → a < 16 → bit result a ≡ used_in (flat_uses q.now) variable a }
{
    let mut mask = 0;
    for record in Records::of(q) {
        mask = add(mask, usage(record), variable);
    }
    mask
}
