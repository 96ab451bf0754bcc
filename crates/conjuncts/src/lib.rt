// The condition of a query, split at its ANDs into conjuncts. Each is compiled into branches before those of its stage, so that it is tried as
// soon as the range variables it uses are bound (specs/Stages).
#![tactic(auto)]

ghost use Rattle.std.specs.Prelude.{◌≡◌, ℕ, ◌+◌, ◌*◌, ◌≤◌, ◌<◌, ℤ, length, get_or, drop, List, true, false};
ghost use Rattle.model.specs.Lists.{contains};
ghost use Rattle.model.specs.Syntax.{TRUE, variables};
ghost use Rattle.sizes.specs.Decode.{decode};
ghost use Rattle.sizes.specs.Parts.{ranges_at};
ghost use Rattle.conjuncts.specs.Stages as S;
ghost use Rattle.conjuncts.specs.Filling as F;

use branches::{Connective, Room, Spot, Ways};

// The last range that binds the variable, counted from 1; 0 where none does.
fn range_of(q: &[u8], ranges: usize, variable: u8) -> usize
    requires { ranges ≤ 7 }
    ensures upper_bound { result ≤ ranges }
    ensures q_value { contains variable (variables (drop result (ranges_at ranges q.now))) ≡ false }
{
    for i in (0..ranges).rev() {
        if kinds::byte(q, kinds::RANGE * i + 1) == variable {
            return i + 1;
        }
    }
    0
}

// The last range whose variable is used at a place, counted from 1: how many ranges must be bound for what stands there, be it a condition or a
// term. An aggregate in scope uses no range's variable. A child stands at most 65,540 bytes further on.
fn stage(q: &[u8], z: &[u16], ranges: usize, place: usize, level: usize) -> usize
    requires { (ranges ≤ 7) × (place + 65540 * level ≤ 4611686018427387904) }
    ensures upper_bound { result ≤ ranges }
    ensures settled { F.Settled result level (drop place q.now) (drop place z.now) (ranges_at ranges q.now) }
{
    if level == 0 {
        return 0;
    }
    let kind = kinds::byte(q, place);
    if kind == 33 {
        return range_of(q, ranges, kinds::byte(q, place + 1));
    }
    let children = kinds::child_counts(kind);
    let conditions = children.conditions;
    let n = conditions + children.terms;
    if n == 0 {
        return 0;
    }
    let l = level - 1;
    let first = place + kinds::record_length(kind);
    let a = stage(q, z, ranges, first, l);
    if a == ranges {
        return a;
    }
    if n == 1 {
        return a;
    }
    let second = first + kinds::size_at(z, first);
    a.max(stage(q, z, ranges, second, l))
}

// The same for the condition at a place. A comparison that begins with an attribute of the last range needs all of them: no more is looked at.
fn stage_at(q: &[u8], z: &[u16], ranges: usize, place: usize, level: usize) -> usize
    requires { (ranges ≤ 7) × (place ≤ 65535) × (level ≤ 65535) }
    ensures upper_bound { result ≤ ranges }
    ensures stable { F.Stable (decode level (drop place q.now) (drop place z.now)) result (ranges_at ranges q.now) }
{
    if ranges == 0 {
        return 0;
    }
    let variable = kinds::byte(q, kinds::RANGE * ranges - 2);
    if kinds::byte(q, place + 2) == 33 && kinds::byte(q, place + 3) == variable {
        return ranges;
    }
    stage(q, z, ranges, place, level)
}

// The stage of the condition at a place, with so many ranges bound: comparisons come before other conditions. An OR that begins with one stands with
// them where none is behind it, for its rows may be found by chains.
fn stage_number(q: &[u8], place: usize, bound: usize, t: &[u16]) -> usize
    requires { (bound ≤ 7) × (place ≤ 65535) }
    ensures { (2 * bound ≤ result) × (result ≤ 2 * bound + 1) }
{
    let s = 2 * bound;
    let kind = kinds::byte(q, place);
    if kind == 21 {
        return s;
    }
    if kind != 20 {
        return s + 1;
    }
    if kinds::byte(q, place + 1) != 21 {
        return s + 1;
    }
    if kinds::size_at(t, s) == 0 { s } else { s + 1 }
}

// Whether TRUE stands at a place: nothing to try. It has no body, so its byte is the whole record.
fn always(q: &[u8], place: usize, level: usize) -> bool
    ensures { result ≡ true → (z : List ℕ) → decode level (drop place q.now) z ≡ TRUE }
{
    level != 0 && kinds::byte(q, place) == 16
}

// The condition at a place before what stands at its stage, in branches of a room; the number of the next.
fn join(
    q: &[u8],
    z: &[u16],
    ranges: usize,
    spot: Spot,
    memo: &[i64],
    t: &mut [u16],
    room: Room,
) -> usize
    requires { (768 ≤ length t.old) × (2 ≤ room.next) × (room.next < room.end)
        × (room.end ≤ 64) × (ranges ≤ 7) × (spot.place ≤ 65535) × (spot.level ≤ 65535) × F.Begun room.next t.old }
    ensures lower_bound { (room.next ≤ result) × (result ≤ room.end) }
    ensures joined { F.Joined result t.old t.new q.now z.now
        memo.now (decode spot.level (drop spot.place q.now)
        (drop spot.place z.now)) (ranges_at ranges q.now) }
{
    let place = spot.place;
    let level = spot.level;
    let k = room.next;
    if always(q, place, level) {
        return k;
    }
    let bound = stage_at(q, z, ranges, place, level);
    let s = stage_number(q, place, bound, t);
    let after = kinds::size_at(t, s);
    let ways = Ways {
        met: after,
        unmet: 1,
    };
    let r = branches::compile(q, z, spot, memo, t, room, ways);
    t[s] = r as u16;
    r + 1
}

// The conjuncts of the condition at a place, the last first, in branches of a room; the number of the next.
fn split(
    q: &[u8],
    z: &[u16],
    ranges: usize,
    spot: Spot,
    memo: &[i64],
    t: &mut [u16],
    room: Room,
) -> usize
    requires { (768 ≤ length t.old) × (2 ≤ room.next) × (room.next < room.end)
        × (room.end ≤ 64) × (ranges ≤ 7) × (spot.place ≤ 65535) × (spot.level ≤ 65535) × F.Begun room.next t.old }
    ensures lower_bound { (room.next ≤ result) × (result ≤ room.end) }
    ensures joined { F.Joined result t.old t.new q.now z.now
        memo.now (decode spot.level (drop spot.place q.now)
        (drop spot.place z.now)) (ranges_at ranges q.now) }
{
    let x = match branches::parts_at(q, z, spot.place, spot.level, room.end - room.next) {
        Some(x) if x.kind == Connective::And => x,
        _ => return join(q, z, ranges, spot, memo, t, room),
    };
    let level = spot.level - 1;
    let first = Spot {
        place: x.first,
        level,
    };
    let second = Spot {
        place: x.second,
        level,
    };
    let left = Room {
        next: room.next,
        end: room.end - 1,
    };
    let next = split(q, z, ranges, second, memo, t, left);
    let rest = Room {
        next,
        end: room.end,
    };
    split(q, z, ranges, first, memo, t, rest)
}

// The condition at a place of a query with so many RANGE records, in a cleared table of at most 62 branches.
pub fn plan(
    q: &[u8],
    z: &[u16],
    ranges: usize,
    condition: usize,
    level: usize,
    memo: &[i64],
    t: &mut [u16],
)
    requires { (768 ≤ length t.old) × (ranges ≤ 7) × (condition ≤ 65535) × (level ≤ 65535) × ((s : ℕ) → get_or t.old s 0 ≡ 0) }
    ensures { (ws : List ℕ) (vs : List ℤ) → S.Planned t.new q.now z.now ws vs
        memo.now (decode level (drop condition q.now) (drop condition z.now)) (ranges_at ranges q.now) }
{
    let room = Room { next: 2, end: 64 };
    let spot = Spot {
        place: condition,
        level,
    };
    split(q, z, ranges, spot, memo, t, room);
}
