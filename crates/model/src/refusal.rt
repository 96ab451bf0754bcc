// Why a call is refused. The papers give each reason a number (specs/Refusals); C is told the number, 0 where nothing is refused.
ghost use Rattle.std.specs.Prelude.{◌≡◌};
ghost use Rattle.model.specs.Refusals.{number_of};

#[derive(Clone, Copy, Debug, PartialEq, Eq)]
pub enum Refusal {
    // the catalogue, and how many values there are
    Catalogue,
    Values,
    // the permit list: not well formed, over a limit, naming what is not there, or over a workspace
    PermitSyntax,
    PermitLimits,
    PermitScope,
    PermitWorkspace,
    // a query, likewise
    QuerySyntax,
    QueryLimits,
    QueryScope,
    // a variable over a stored relation with no permit that applies
    NoPermit,
    // no room for the rewritten query, or for a row
    RewrittenRoom,
    AnswerRoom,
    // a text outside the grammar, a name that is unknown, out of reach or bound twice, and no room for the records
    Grammar,
    Name,
    RecordRoom,
}

impl From<Refusal> for u8 {
    ghost from_gives = { λ r n. n ≡ number_of r };

    fn from(r: Refusal) -> u8 {
        match r {
            Refusal::Catalogue => 10,
            Refusal::Values => 11,
            Refusal::PermitSyntax => 20,
            Refusal::PermitLimits => 21,
            Refusal::PermitScope => 22,
            Refusal::PermitWorkspace => 23,
            Refusal::QuerySyntax => 30,
            Refusal::QueryLimits => 31,
            Refusal::QueryScope => 32,
            Refusal::NoPermit => 33,
            Refusal::RewrittenRoom => 40,
            Refusal::AnswerRoom => 41,
            Refusal::Grammar => 50,
            Refusal::Name => 51,
            Refusal::RecordRoom => 52,
        }
    }
}
