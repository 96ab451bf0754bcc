// The mode of the loop over tokens: what is to be done at a token, and the mode after it.
ghost use Rattle.std.specs.Prelude.{◌≡◌, leb};
ghost use Rattle.elaborate.specs.Modes.{mode_no, action_no};
ghost use Rattle.elaborate.specs.Actions.{action_of, rest_of, next_of};

// Where a token stands: at the beginning of a condition, a conjunct or a factor, past an operand's first token, in the head of SOME, in an attribute, or
// in the head of an aggregate.
#[derive(Clone, Copy)]
pub enum Mode {
    Condition,
    Conjunct,
    Factor,
    Rest,
    InSome,
    InAttribute,
    InAggregate,
}

// Nothing, X.A, a value's name, a number, an aggregate, NOT, SOME, (, ), or the ) of an aggregate with no qualification.
#[derive(Clone, Copy)]
pub enum Action {
    Nothing,
    Use,
    Value,
    Number,
    Aggregate,
    Not,
    Some,
    Open,
    Close,
    Finish,
}

// The mode after an operand's first token, or what joins operands.
#[tactic(auto, unfolding(crate::specs::Actions::rest_of))]
fn rest(kind: u8, point: bool) -> Mode
    ensures { mode_no result ≡ rest_of kind point }
{
    match kind {
        0 => if point { Mode::InAttribute } else { Mode::Rest },
        2..=6 => Mode::InAggregate,
        18 => Mode::Conjunct,
        19 => Mode::Factor,
        23 => Mode::Condition,
        _ => Mode::Rest,
    }
}

impl Mode {
    // Whether a factor begins.
    pub(crate) fn begins(self) -> bool
        ensures { result ≡ leb (mode_no self) 2 }
    {
        matches!(self, Mode::Condition | Mode::Conjunct | Mode::Factor)
    }

    // What is to be done at a token.
    #[tactic(auto, unfolding(crate::specs::Actions::action_of))]
    pub(crate) fn action(self, kind: u8, point: bool) -> Action
        ensures { action_no result ≡ action_of (mode_no self) kind point }
    {
        match (self, kind) {
            (Mode::InAggregate, 21) => Action::Finish,
            (Mode::InSome | Mode::InAttribute | Mode::InAggregate, _) => Action::Nothing,
            (_, 0) => if point { Action::Use } else { Action::Value },
            (_, 1) => Action::Number,
            (_, 2..=6) => Action::Aggregate,
            (Mode::Rest, 21) => Action::Close,
            (Mode::Rest, _) => Action::Nothing,
            (_, 15) => Action::Not,
            (_, 16) => Action::Some,
            (_, 20) => Action::Open,
            _ => Action::Nothing,
        }
    }

    // The mode after a token.
    #[tactic(auto, unfolding(crate::specs::Actions::next_of))]
    pub(crate) fn next(self, kind: u8, point: bool) -> Mode
        ensures { mode_no result ≡ next_of (mode_no self) kind point }
    {
        match (self, kind) {
            (Mode::InAggregate, 21) => Mode::Rest,
            (Mode::InSome, 20) => Mode::Condition,
            (Mode::InAggregate | Mode::InSome, 24) => Mode::Condition,
            (Mode::InAggregate | Mode::InSome, _) => self,
            (Mode::InAttribute, 13..=255) => self,
            (Mode::InAttribute, _) => Mode::Rest,
            (Mode::Rest, _) => rest(kind, point),
            (_, 0..=6) => rest(kind, point),
            (_, 15) => Mode::Factor,
            (_, 16) => Mode::InSome,
            (_, 20) => Mode::Condition,
            _ => Mode::Rest,
        }
    }
}
