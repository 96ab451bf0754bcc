// The permit list: its checks 20 to 23, from one reading.
#![tactic(auto)]

ghost use Rattle.std.specs.Prelude.{◌≡◌, false, cond, not, ◌&&◌, ◌||◌, ◌+◌, ◌≤◌, ◌<◌, length, take, ltb};
ghost use Rattle.model.specs.Lists.{all};
ghost use Rattle.model.specs.Syntax.{variables};
ghost use Rattle.model.specs.Permits.{bit};
ghost use Rattle.model.specs.Catalogue.{catalogue_of, shape_of};
ghost use Rattle.model.specs.Checks.{fails10, fails20, permit_checks, refusal};
ghost use Rattle.model.specs.Refusals.{number_of, code_of};
ghost use Rattle.catalogue.specs.Layout.{count_of, stored_of, attributes_of};
ghost use Rattle.scans.specs.Flat.{flat_bindings, stored_in};
ghost use Rattle.conditions.specs.Reach.{shape_in, permit_scope};
ghost use Rattle.conditions.specs.Answers.{condition_reading};
ghost use Rattle.permits.specs.Masks as Lim;
ghost use Rattle.permits.specs.Granted.{Granted, Listed};

use conditions::Reading;
use grammar::Input;
use kinds::PermitRecord;
use model::Refusal;
use scans::BoundVariables;

const BYTES: usize = model::PERMIT_BYTES;

const LEVELS: usize = model::PERMIT_LEVELS;

const VARIABLES: u8 = model::PERMIT_VARIABLES;

fn part(q: &[u8], n: usize) -> &[u8]
    ensures { result.now ≡ take n q.now }
{
    &q[..n.min(q.len())]
}

// Whether an attribute is one that a relation of so many has, where the mask has its bit.
fn has_if_known(mask: u16, attribute: u16, attributes: usize) -> bool
    requires { attribute < 16 }
    ensures { result ≡ (not (bit mask attribute) || ltb attribute attributes) }
{
    (mask >> attribute) & 1 != 1 || usize::from(attribute) < attributes
}

// Whether a mask has only attributes that a relation of so many has.
fn attributes_in(mask: u16, attributes: usize) -> bool
    ensures { result ≡ Lim.attributes_in attributes mask }
{
    for a in 0..16 {
        if !has_if_known(mask, a, attributes) {
            return false;
        }
    }
    true
}

// A mask is not 0, and names attributes of the relation, or is ALL.
fn mask_in(mask: u16, attributes: usize) -> bool
    ensures { result ≡ Lim.mask_in attributes mask }
{
    mask != 0 && (mask == u16::MAX || attributes_in(mask, attributes))
}

// A permit within the limits (21): its bytes, whether all that it names is known (22), and stored (23).
#[derive(Clone, Copy)]
struct Grant {
    length: usize,
    known: bool,
    stored: bool,
}

// A list of permits within the limits: whether all that they name is known (22), and stored (23).
#[derive(Clone, Copy)]
struct Listing {
    known: bool,
    stored: bool,
}

// Whether a relation is known and a mask names attributes of it.
fn named(catalogue: &[u8], relation: u8, mask: u16) -> bool
    ensures { result ≡ (ltb relation (count_of catalogue.now) && Lim.mask_in (attributes_of catalogue.now relation) mask) }
{
    let known = catalogue::entry(catalogue, relation);
    known.listed && mask_in(mask, known.attributes)
}

// Whether all variables are bound to stored relations.
fn all_stored(q: &[u8], catalogue: &[u8]) -> bool
    ensures { result ≡ all (stored_in catalogue.now) (flat_bindings q.now) }
{
    BoundVariables::of(q).all(|b| catalogue::entry(catalogue, b.relation).stored)
}

// Whether a relation, and those that a condition binds, are stored; so many are bound.
fn stored(catalogue: &[u8], relation: u8, condition: &[u8], bound: usize) -> bool
    requires { bound ≡ length (flat_bindings condition.now) }
    ensures { result ≡ (stored_of catalogue.now relation && all (stored_in catalogue.now) (flat_bindings condition.now)) }
{
    catalogue::entry(catalogue, relation).stored && (bound == 0 || all_stored(condition, catalogue))
}

// The condition that bytes start with, variable 0 being a row of the relation.
fn condition(bytes: &[u8], z: &mut [u16], catalogue: &[u8], relation: u8) -> Option<Reading>
    ensures { result ≡ condition_reading (shape_in catalogue.now) 4 16 (permit_scope relation) bytes.now }
{
    let mut reach = [0u16; 256];
    conditions::scope::enter(catalogue, &mut reach, VARIABLES, 0, relation);
    conditions::condition(bytes, z, 0, LEVELS, catalogue, VARIABLES, &mut reach)
}

// The permit at a place.
fn permit(permits: &[u8], at: usize, catalogue: &[u8], z: &mut [u16]) -> Option<Grant>
    requires { (fails10 catalogue.now ≡ false) × (at ≤ length permits.now) }
    ensures { Granted result (shape_of (catalogue_of catalogue.now)) permits.now at }
{
    let here = kinds::tail(permits, at);
    let PermitRecord::Permit(relation, mask) = kinds::permit_record(here) else {
        return None;
    };
    let own = kinds::record_length(64);
    let bytes = kinds::tail(here, own);
    let r = condition(bytes, z, catalogue, relation)?;
    let n = r.length;
    if BYTES - own < n {
        return None;
    }
    let c = part(bytes, n);
    let bound = scans::tally(c, true);
    if model::PERMIT_BOUND < bound.count {
        return None;
    }
    Some(Grant {
        length: own + n,
        known: named(catalogue, relation, mask) & r.inside & bound.once,
        stored: stored(catalogue, relation, c, bound.count),
    })
}

// The permits from a place on, at most so many.
fn rest(permits: &[u8], at: usize, left: usize, catalogue: &[u8], z: &mut [u16]) -> Option<Listing>
    requires { (fails10 catalogue.now ≡ false) × (at ≤ length permits.now) }
    ensures { Listed result (shape_of (catalogue_of catalogue.now)) permits.now at left }
{
    if permits.len() <= at {
        return Some(Listing {
            known: true,
            stored: true,
        });
    }
    if left == 0 {
        return None;
    }
    let first = permit(permits, at, catalogue, z)?;
    let others = rest(permits, at + first.length, left - 1, catalogue, z)?;
    Some(Listing {
        known: first.known & others.known,
        stored: first.stored & others.stored,
    })
}

// Why a list was not read: it is not well formed at any depth (20), or else over a limit (21).
fn unread(permits: &[u8]) -> Refusal
    ensures { number_of result ≡ cond (fails20 permits.now) 20 21 }
{
    if grammar::refused(permits, Input::Permits) {
        Refusal::PermitSyntax
    } else {
        Refusal::PermitLimits
    }
}

// Checks 20 to 23 of a list, from one reading: the first that fails.
pub fn check(permits: &[u8], catalogue: &[u8]) -> Result<(), Refusal>
    requires { fails10 catalogue.now ≡ false }
    ensures { code_of result ≡ refusal (permit_checks (shape_of (catalogue_of catalogue.now)) permits.now) }
{
    if model::LIST_BYTES < permits.len() {
        return Err(Refusal::PermitSyntax);
    }
    let mut z = [0u16; BYTES];
    let Some(list) = rest(permits, 0, model::PERMITS, catalogue, &mut z) else {
        return Err(unread(permits));
    };
    if !list.known {
        return Err(Refusal::PermitScope);
    }
    if !list.stored {
        return Err(Refusal::PermitWorkspace);
    }
    Ok(())
}
