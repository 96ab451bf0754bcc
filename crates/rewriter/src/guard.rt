// A variable's guard: the conditions of the permits that apply, each copied with its variables renamed.
ghost use Rattle.std.specs.Prelude.{◌≡◌, [], ◌∷◌, ℕ, ◌+◌, ◌/◌, ◌≤◌, ◌<◌, length, drop, take, get_or};
ghost use Rattle.std.proofs.lemmas.List.Edits.{sets};
ghost use Rattle.model.specs.Lists.{index_of};
ghost use Rattle.model.specs.Syntax.{variables};
ghost use Rattle.kinds.specs.Record.{record_at};
ghost use Rattle.scans.specs.Flat.{flat_bindings};
ghost use Rattle.copier.specs.Copied.{record_bytes, renamed_record, number_in, copied_record, copied_bytes};
ghost use Rattle.rewriter.specs.Applying.{conditions_by};
ghost use Rattle.copier.specs.Guard.{or_nothing, opening, turn_bytes, turn_new, guard_bytes, guard_new};

use crate::Applying;
use kinds::Record;
use scans::{BoundVariables, Records};

// The place after what was written, and the next number for a new variable.
#[derive(Clone, Copy)]
pub struct Written {
    pub at: usize,
    pub next: usize,
}

// The place of w among the variables that a condition binds, in byte order; how many there are if it is none of them.
fn index_of(q: &[u8], w: u8) -> usize
    ensures { result ≡ index_of w (variables (flat_bindings q.now)) }
{
    BoundVariables::of(q)
        .take_while(|b| b.variable != w)
        .count()
}

// The number that variable w of a permit's condition takes.
fn number(q: &[u8], variable: u8, next: usize, w: u8) -> u8
    requires { next + length (flat_bindings q.now) < 256 }
    ensures { result ≡ number_in q.now variable next w }
{
    if w == 0 {
        return variable;
    }
    (next + index_of(q, w)) as u8
}

// A record of the condition q with its variable renamed.
fn renamed(q: &[u8], variable: u8, next: usize, item: Record) -> Record
    requires { next + length (flat_bindings q.now) < 256 }
    ensures { result ≡ renamed_record (number_in q.now variable next) item }
{
    match item {
        Record::Some(v, r) => Record::Some(number(q, variable, next, v), r),
        Record::Attribute(v, a) => Record::Attribute(number(q, variable, next, v), a),
        Record::Aggregate(f, v, r, a) => Record::Aggregate(f, number(q, variable, next, v), r, a),
        _ => item,
    }
}

// Writes a permit's condition for a guarded variable, its own variables from `next` up, and returns the place after it.
fn copy_condition(out: &mut [u8], at: usize, condition: &[u8], variable: u8, next: usize) -> usize
    requires { (at + length (copied_bytes condition.now variable next) < 9223372036854775808) × (next + length (flat_bindings condition.now) < 256) }
    ensures value { result ≡ at + length (copied_bytes condition.now variable next) }
    ensures out_after { out.new ≡ sets out.old at (copied_bytes condition.now variable next) }
{
    let mut to = at;
    for bytes in Records::of(condition) {
        let item = kinds::read(bytes);
        to = copier::put_record(out, to, renamed(condition, variable, next, item));
    }
    to
}

// Writes a byte, unless the mask is 0.
fn put_unless(out: &mut [u8], at: usize, mask: usize, b: u8) -> usize
    requires { at + length (or_nothing mask (b ∷ [])) < 9223372036854775808 }
    ensures value { result ≡ at + length (or_nothing mask (b ∷ [])) }
    ensures out_after { out.new ≡ sets out.old at (or_nothing mask (b ∷ [])) }
{
    if mask == 0 {
        return at;
    }
    copier::put(out, at, b)
}

// Writes the AND before a condition that gets a guard.
pub(crate) fn open_guard(out: &mut [u8], at: usize, mask: usize) -> usize
    requires { at + length (opening mask) < 9223372036854775808 }
    ensures value { result ≡ at + length (opening mask) }
    ensures out_after { out.new ≡ sets out.old at (opening mask) }
{
    put_unless(out, at, mask, 19)
}

// Writes one permit's condition if its bit, the mask's lowest, is set; an OR before it if there are more.
fn write_turn(out: &mut [u8], to: Written, condition: &[u8], mask: usize, variable: u8) -> Written
    requires { (to.at + length (turn_bytes mask condition.now variable to.next) < 9223372036854775808)
        × (to.next + turn_new mask condition.now < 256) }
    ensures at_value { (result.at ≡ to.at + length (turn_bytes mask condition.now variable to.next))
        × (result.next ≡ to.next + turn_new mask condition.now) }
    ensures out_after { out.new ≡ sets out.old to.at (turn_bytes mask condition.now variable to.next) }
{
    if mask % 2 != 1 {
        return to;
    }
    let p = put_unless(out, to.at, mask / 2, 20);
    let at = copy_condition(out, p, condition, variable, to.next);
    let bindings = scans::tally(condition, false);
    Written {
        at,
        next: to.next + bindings.count,
    }
}

// Writes the guard of a variable: the OR of the conditions of the permits in the mask.
pub(crate) fn write_guard(
    out: &mut [u8],
    to: Written,
    applying: &Applying,
    mask: usize,
    variable: u8,
) -> Written
    requires { (to.at + length (guard_bytes mask (conditions_by applying.now) variable to.next) < 9223372036854775808)
        × (to.next + guard_new mask (conditions_by applying.now) < 256) × (mask ≤ 65535) }
    ensures at_value { (result.at ≡ to.at + length (guard_bytes mask (conditions_by applying.now) variable to.next))
        × (result.next ≡ to.next + guard_new mask (conditions_by applying.now)) }
    ensures out_after { out.new ≡ sets out.old to.at (guard_bytes mask (conditions_by applying.now) variable to.next) }
{
    let mut m = mask;
    let mut k: usize = 0;
    let mut w = to;
    // No count: it ends after the mask's highest bit.
    while m != 0 {
        w = write_turn(out, w, applying.condition(k), m, variable);
        m /= 2;
        k += 1;
    }
    w
}
