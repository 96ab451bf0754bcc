// Whether tokens are a text of the grammar: a machine with a stack, one step a token, so that parentheses may stand as deep as the text allows.
ghost use Rattle.std.specs.Prelude.{◌≡◌, List, [], ℕ, ◌≤◌, length, get_or};
ghost use Rattle.tokens.specs.Table.{Table, tokens_at};
ghost use Rattle.reader.specs.Machine.{sort, sort_number, rules, pick, code_of, may_end, AreSmall};
ghost use Rattle.reader.specs.Verdict.{is_text};

// Sorts of tokens: kinds, with one sort for all functions, one for all signs, and one for V and ^.
#[derive(Clone, Copy)]
enum Sort {
    Name,
    Number,
    Function,
    Sign,
    Range,
    Retrieve,
    Not,
    Some,
    In,
    Join,
    Left,
    Right,
    Comma,
    Colon,
    Semicolon,
    Point,
}

// The kinds are tokens' (specs/Table there).
impl From<u8> for Sort {
    ghost from_gives = { λ kind s. sort_number s ≡ sort kind };

    #[tactic(auto, unfolding(crate::specs::Machine::sort))]
    fn from(kind: u8) -> Sort {
        match kind {
            0 => Sort::Name,
            1 => Sort::Number,
            2..=6 => Sort::Function,
            7..=12 => Sort::Sign,
            13 => Sort::Range,
            14 => Sort::Retrieve,
            15 => Sort::Not,
            16 => Sort::Some,
            17 => Sort::In,
            18 | 19 => Sort::Join,
            20 => Sort::Left,
            21 => Sort::Right,
            22 => Sort::Comma,
            23 => Sort::Colon,
            24 => Sort::Semicolon,
            _ => Sort::Point,
        }
    }
}

// What a token does: it leads to another mode; it keeps a mode for after its ) and begins an aggregate or a condition in parentheses; or it takes up the
// mode kept last.
#[derive(Clone, Copy)]
enum Move {
    To(u8),
    Aggregate(u8),
    Open(u8),
    Back,
}

// The mode in which each begins. Modes are the places of the rules (specs/Machine).
const AGGREGATE: u8 = 25;

const CONDITION: u8 = 13;

// The move in a mode: RANGE from 1, RETRIEVE from 7, targets from 9, conditions from 13, aggregates from 25.
fn next(mode: u8, sort: Sort) -> Option<Move>
    ensures value { code_of result ≡ pick (get_or rules mode []) (sort_number sort) }
    ensures small { AreSmall result }
{
    let step = match (mode, sort) {
        (1, Sort::Range) => Move::To(2),
        (2, Sort::Name) => Move::To(3),
        (3, Sort::Left) => Move::To(4),
        (4, Sort::Name) => Move::To(5),
        (5, Sort::Comma) => Move::To(4),
        (5, Sort::Right) => Move::To(6),
        (6, Sort::Colon) => Move::To(2),
        (6, Sort::Retrieve) => Move::To(7),
        (7, Sort::Name) => Move::To(8),
        (8, Sort::Colon) => Move::To(9),
        (9, Sort::Name) => Move::To(10),
        (9, Sort::Function) => Move::Aggregate(12),
        (10, Sort::Point) => Move::To(11),
        (11, Sort::Name) => Move::To(12),
        (12, Sort::Comma) => Move::To(9),
        (12, Sort::Colon) => Move::To(13),
        (13, Sort::Not) => Move::To(13),
        (13, Sort::Some) => Move::To(14),
        (13, Sort::Left) => Move::Open(24),
        (13, Sort::Name) => Move::To(18),
        (13, Sort::Number) => Move::To(20),
        (13, Sort::Function) => Move::Aggregate(20),
        (14, Sort::Name) => Move::To(15),
        (15, Sort::In) => Move::To(16),
        (16, Sort::Name) => Move::To(17),
        (17, Sort::Left) => Move::Open(24),
        (18, Sort::Point) => Move::To(19),
        (18, Sort::Sign) => Move::To(21),
        (19, Sort::Name) => Move::To(20),
        (20, Sort::Sign) => Move::To(21),
        (21, Sort::Name) => Move::To(22),
        (21, Sort::Number) => Move::To(24),
        (21, Sort::Function) => Move::Aggregate(24),
        (22, Sort::Point) => Move::To(23),
        (22, Sort::Join) => Move::To(13),
        (22, Sort::Right) => Move::Back,
        (23, Sort::Name) => Move::To(24),
        (24, Sort::Join) => Move::To(13),
        (24, Sort::Right) => Move::Back,
        (25, Sort::Left) => Move::To(26),
        (26, Sort::Name) => Move::To(27),
        (27, Sort::Point) => Move::To(28),
        (28, Sort::Name) => Move::To(29),
        (29, Sort::Right) => Move::Back,
        (29, Sort::Semicolon) => Move::To(13),
        _ => return None,
    };
    Some(step)
}

// Whether a text may end in a mode: after a target or a factor.
fn may_end(mode: u8) -> bool
    ensures { result ≡ may_end mode }
{
    matches!(mode, 12 | 22 | 24)
}

// The machine over tokens, which ends with no parenthesis open.
fn run(kinds: &[u8], stack: &mut [u8]) -> bool
    requires { length kinds.now ≤ length stack.old }
    ensures { (text : List ℕ) (t : Table) → t.kinds ≡ kinds.now → result ≡ is_text (tokens_at text t 0 (length kinds.now)) }
{
    let mut mode = 1;
    let mut depth = 0;
    for &kind in kinds {
        let Some(step) = next(mode, Sort::from(kind)) else {
            return false;
        };
        match step {
            Move::To(m) => mode = m,
            Move::Aggregate(m) => {
                stack[depth] = m;
                depth += 1;
                mode = AGGREGATE;
            }
            Move::Open(m) => {
                stack[depth] = m;
                depth += 1;
                mode = CONDITION;
            }
            Move::Back => {
                if depth == 0 {
                    return false;
                }
                depth -= 1;
                mode = stack[depth];
            }
        }
    }
    may_end(mode) && depth == 0
}

// Whether tokens are a text, whatever their names and numbers are. The stack takes 2,000 bytes.
pub(crate) fn accepted(kinds: &[u8]) -> bool
    requires { length kinds.now ≤ 2000 }
    ensures { (text : List ℕ) (t : Table) → t.kinds ≡ kinds.now → result ≡ is_text (tokens_at text t 0 (length kinds.now)) }
{
    let mut stack = [0u8; 2000];
    run(kinds, &mut stack)
}
