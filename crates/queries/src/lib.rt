// The checks of a query (30, 31, 32), and its table of sizes, from one reading. Only where it finds no query within the limits does the grammar say
// whether the query is ill formed or too large.
#![tactic(auto)]

ghost use Rattle.std.specs.Prelude.{◌≡◌, cond, true, false, ◌≤◌, ◌<◌, length, drop};
ghost use Rattle.model.specs.Lists.{all};
ghost use Rattle.model.specs.Syntax.{variables};
ghost use Rattle.model.specs.Scope.{known_binding};
ghost use Rattle.conditions.specs.Reach.{scope_of, shape_in};
ghost use Rattle.model.specs.Catalogue.{catalogue_of, shape_of};
ghost use Rattle.model.specs.Checks.{fails10, query_checks, refusal};
ghost use Rattle.model.specs.Refusals.{number_of, code_of};
ghost use Rattle.queries.specs.Parts.{reach_on, limits_of, Ready};
ghost use Rattle.grammar.specs.Shapes.{fails30_at};
ghost use Rattle.queries.specs.Found.{head_ranges, TargetsFound, Leads, Rest, Told};

use grammar::{Input, Layout};
use kinds::HeadRecord;
use model::Refusal;

// The limits of a call.
#[derive(Clone, Copy)]
pub struct Limits {
    pub bytes: usize,
    pub levels: usize,
    pub variables: u8,
}

// The RANGE records that a query starts with: how many, and whether they and their relations have known numbers.
#[derive(Clone, Copy)]
struct Ranges {
    count: usize,
    known: bool,
}

const NO_RANGES: Ranges = Ranges {
    count: 0,
    known: true,
};

// Puts the variables of the RANGE records that q starts with in reach, of at most so many.
fn bind_ranges(q: &[u8], left: usize, catalogue: &[u8], limit: u8, reach: &mut [u16]) -> Ranges
    requires { 256 ≤ length reach.old }
    ensures count_value { (result.count ≡ length (head_ranges left q.now))
        × (result.known ≡ all (known_binding (shape_in catalogue.now) limit) (head_ranges left q.now)) }
    ensures reach_after { scope_of reach.new ≡ reach_on (head_ranges left q.now) (scope_of reach.old) }
    ensures count_le_left { result.count ≤ left }
{
    if left == 0 {
        return NO_RANGES;
    }
    let HeadRecord::Range(variable, relation) = kinds::head_record(q) else {
        return NO_RANGES;
    };
    let rest = kinds::tail(q, kinds::record_length(1));
    let others = bind_ranges(rest, left - 1, catalogue, limit, reach);
    let known = conditions::scope::enter(catalogue, reach, limit, variable, relation);
    Ranges {
        count: 1 + others.count,
        known: known & others.known,
    }
}

// Targets one after the other: how many, the place after them, and whether they are in scope.
#[derive(Clone, Copy)]
struct Run {
    count: usize,
    end: usize,
    inside: bool,
}

// Where the next target stands, and the level down to which it is read.
#[derive(Clone, Copy)]
struct Next {
    at: usize,
    level: usize,
}

// The targets from a place on, at most so many.
fn targets(
    q: &[u8],
    z: &mut [u16],
    next: Next,
    left: usize,
    catalogue: &[u8],
    limit: u8,
    reach: &[u16],
) -> Option<Run>
    requires { next.at ≤ length q.now }
    ensures targets_found { TargetsFound result (shape_in catalogue.now) limit next.level (scope_of reach.now) q.now next.at left
        z.old z.new }
    ensures leads { Leads result next.level q.now next.at left }
    ensures z_unchanged { drop (length q.now) z.new ≡ drop (length q.now) z.old }
{
    let at = next.at;
    let level = next.level;
    if kinds::byte(q, at) < 33 {
        return Some(Run {
            count: 0,
            end: at,
            inside: true,
        });
    }
    if left == 0 {
        return None;
    }
    let first = conditions::term(q, z, at, level, catalogue, limit, reach)?;
    let behind = Next {
        at: at + first.length,
        level,
    };
    let others = targets(q, z, behind, left - 1, catalogue, limit, reach)?;
    Some(Run {
        count: others.count + 1,
        end: others.end,
        inside: first.inside & others.inside,
    })
}

// A whole query: where its parts stand, and whether it is in scope.
#[derive(Clone, Copy)]
struct Found {
    layout: Layout,
    inside: bool,
}

// The targets and the condition after so many RANGE records, whose variables are in reach.
fn rest(
    q: &[u8],
    z: &mut [u16],
    ranges: usize,
    level: usize,
    catalogue: &[u8],
    limit: u8,
    reach: &mut [u16],
) -> Option<Found>
    requires { (ranges ≤ 4) × (limit ≤ length reach.old) }
    ensures rest { Rest result (shape_in catalogue.now) limit level (scope_of reach.old) q.now ranges z.old
        z.new }
    ensures z_unchanged { drop (length q.now) z.new ≡ drop (length q.now) z.old }
{
    let first = kinds::RANGE * ranges;
    if q.len() < first {
        return None;
    }
    let next = Next { at: first, level };
    let run = targets(q, z, next, model::TARGETS, catalogue, limit, reach)?;
    if run.count == 0 {
        return None;
    }
    let condition = run.end;
    let last = conditions::condition(q, z, condition, level, catalogue, limit, reach)?;
    if condition + last.length != q.len() {
        return None;
    }
    let layout = Layout {
        ranges,
        targets: run.count,
        first,
        condition,
    };
    Some(Found {
        layout,
        inside: run.inside & last.inside,
    })
}

// A query that passes 30 and 31, its table of sizes filled; whether it passes 32.
fn read(q: &[u8], limits: Limits, catalogue: &[u8], z: &mut [u16]) -> Option<Found>
    requires { (fails10 catalogue.now ≡ false) × (length q.now ≤ limits.bytes → length q.now ≤ length z.old) × (limits.bytes < 65536) }
    ensures told { Told result limits (shape_of (catalogue_of catalogue.now)) q.now z.new }
    ensures z_unchanged { drop (length q.now) z.new ≡ drop (length q.now) z.old }
{
    let bytes = limits.bytes;
    let variables = limits.variables;
    let level = limits.levels;
    if bytes < q.len() {
        return None;
    }
    let bound = scans::tally(q, false);
    if usize::from(variables) < bound.count {
        return None;
    }
    let mut reach = [0u16; 256];
    let heads = bind_ranges(q, model::RANGES, catalogue, variables, &mut reach);
    let n = heads.count;
    let found = rest(q, z, n, level, catalogue, variables, &mut reach)?;
    Some(Found {
        layout: found.layout,
        inside: heads.known & found.inside & bound.once,
    })
}

// Why a query was not read: it is not well formed at any depth (30), or else over a limit (31).
fn unread(q: &[u8], bytes: usize) -> Refusal
    ensures { number_of result ≡ cond (fails30_at bytes q.now) 30 31 }
{
    if grammar::refused(q, Input::Query(bytes)) {
        Refusal::QuerySyntax
    } else {
        Refusal::QueryLimits
    }
}

// The checks of a query, by rising number, from one reading. Where it passes its table of sizes is left filled; where it does not, what stands in
// the table at the query's places is free. Past the query the table is as it was.
pub fn check(q: &[u8], limits: Limits, catalogue: &[u8], z: &mut [u16]) -> Result<Layout, Refusal>
    requires { (fails10 catalogue.now ≡ false) × (length q.now ≤ limits.bytes → length q.now ≤ length z.old) × (limits.bytes < 65536) }
    ensures result_value { code_of result ≡ refusal (query_checks (limits_of limits) (shape_of (catalogue_of catalogue.now)) q.now) }
    ensures ready { Ready result limits.levels q.now z.new }
    ensures z_unchanged { drop (length q.now) z.new ≡ drop (length q.now) z.old }
{
    let bytes = limits.bytes;
    let Some(found) = read(q, limits, catalogue, z) else {
        return Err(unread(q, bytes));
    };
    if !found.inside {
        return Err(Refusal::QueryScope);
    }
    Ok(found.layout)
}
