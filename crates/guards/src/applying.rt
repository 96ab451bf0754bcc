// Which permits of a list apply to a variable, and which bar it. They are found by a flat walk: inside a condition no record has their kind.
ghost use Rattle.std.specs.Prelude.{◌≡◌, not, ◌||◌, ◌+◌, ◌≤◌, ◌<◌, length};
ghost use Rattle.model.specs.Permits.{bit};
ghost use Rattle.permits.specs.Entries.{span_of, size_of, entry_at};
ghost use Rattle.permits.specs.Applying as App;

use kinds::PermitRecord;
use scans::Records;

// How many bytes come before the next permit. The length of a record is asked by the walk, and here of the last one alone, which may be cut.
fn span(q: &[u8]) -> usize
    ensures value { result ≡ span_of q.now }
    ensures upper_bound { result ≤ length q.now + 4 }
{
    if q.is_empty() {
        return 0;
    }
    let mut at = 0;
    let mut kind = 0;
    for record in Records::of(q) {
        at = q.len() - record.len();
        kind = kinds::byte(record, 0);
        if kind == 64 {
            return at;
        }
    }
    at + kinds::record_length(kind)
}

// How many bytes of a permit stand before its condition.
pub(crate) fn header() -> usize
    ensures { result ≡ 4 }
{
    kinds::record_length(64)
}

// How many bytes the permit takes that a list starts with.
pub(crate) fn size(permits: &[u8]) -> usize
    ensures value { result ≡ size_of permits.now }
    ensures lower_bound { (4 ≤ result) × (result ≤ length permits.now + 8) }
{
    let own = header();
    own + span(kinds::tail(permits, own))
}

// Whether a mask has the bit of an attribute.
fn has(mask: u16, attribute: u16) -> bool
    requires { attribute < 16 }
    ensures { result ≡ bit mask attribute }
{
    (mask >> attribute) & 1 == 1
}

// Whether the mask has a used attribute, or, where none is wanted, has it not.
fn as_wanted(used: u16, mask: u16, wanted: bool, attribute: u16) -> bool
    requires { attribute < 16 }
    ensures { result ≡ (not (bit used attribute) || App.agree wanted (bit mask attribute)) }
{
    if !has(used, attribute) {
        return true;
    }
    if wanted {
        return has(mask, attribute);
    }
    !has(mask, attribute)
}

// Whether all used attributes are in the mask, or, where none is wanted, all outside it.
fn all_used(used: u16, mask: u16, wanted: bool) -> bool
    ensures { result ≡ App.all_used (λ a. bit used a) mask wanted }
{
    for a in 0..16 {
        if !as_wanted(used, mask, wanted, a) {
            return false;
        }
    }
    true
}

// Whether the permit that a list starts with is NO ACCESS: a condition that starts with FALSE is that record alone.
fn no_access(permits: &[u8]) -> bool
    ensures { result ≡ App.no_access_at (entry_at permits.now) }
{
    kinds::byte(permits, header()) == 17
}

// Whether the permit that a list starts with applies to a variable over the relation, of which these attributes are used.
pub(crate) fn applies(permits: &[u8], relation: u8, used: u16) -> bool
    ensures { result ≡ App.applies_to (λ a. bit used a) relation (entry_at permits.now) }
{
    if no_access(permits) {
        return false;
    }
    let PermitRecord::Permit(own, mask) = kinds::permit_record(permits) else {
        return false;
    };
    if own != relation {
        return false;
    }
    all_used(used, mask, true)
}

// Whether that permit bars the variable.
pub(crate) fn bars(permits: &[u8], relation: u8, used: u16) -> bool
    ensures { result ≡ App.bars_from (λ a. bit used a) relation (entry_at permits.now) }
{
    if !no_access(permits) {
        return false;
    }
    let PermitRecord::Permit(own, mask) = kinds::permit_record(permits) else {
        return false;
    };
    if own != relation {
        return false;
    }
    !all_used(used, mask, false)
}
