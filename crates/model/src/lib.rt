// The model: definitions in specs/, theorems in proofs/. It has no code but the limits of document 01, the numbers of specs/Limits: all crates read them here,
// and what they prove of the definitions holds for equal numbers only.
#![tactic(auto)]

mod refusal;

pub use refusal::Refusal;

// Of a query: its bytes, levels and bound variables, its RANGEs and targets.
#[derive(Clone, Copy)]
pub struct QueryLimits {
    pub bytes: usize,
    pub levels: usize,
    pub variables: u8,
    pub ranges: usize,
    pub targets: usize,
}

// Of the catalogue; of the permit list; of one permit, whose variables are numbered below a fourth limit; of a query that is asked, or put to the
// plain evaluator.
#[derive(Clone, Copy)]
pub struct AllLimits {
    pub relations: usize,
    pub attributes: usize,
    pub rows: usize,
    pub list_bytes: usize,
    pub permits: usize,
    pub permit_bytes: usize,
    pub permit_levels: usize,
    pub permit_bound: usize,
    pub permit_variables: u8,
    pub asked: QueryLimits,
    pub plain: QueryLimits,
}

pub const LIMITS: AllLimits = AllLimits {
    relations: 16,
    attributes: 16,
    rows: 1024,
    list_bytes: 2048,
    permits: 8,
    permit_bytes: 256,
    permit_levels: 16,
    permit_bound: 3,
    permit_variables: 4,
    asked: QueryLimits {
        bytes: 1024,
        levels: 32,
        variables: 8,
        ranges: 4,
        targets: 8,
    },
    plain: QueryLimits {
        bytes: 17216,
        levels: 64,
        variables: 200,
        ranges: 4,
        targets: 8,
    },
};

// Each by its name: a number is then a constant where it is read, and no record is made.
pub const RELATIONS: usize = LIMITS.relations;

pub const ATTRIBUTES: usize = LIMITS.attributes;

pub const ROWS: usize = LIMITS.rows;

pub const LIST_BYTES: usize = LIMITS.list_bytes;

pub const PERMITS: usize = LIMITS.permits;

pub const PERMIT_BYTES: usize = LIMITS.permit_bytes;

pub const PERMIT_LEVELS: usize = LIMITS.permit_levels;

pub const PERMIT_BOUND: usize = LIMITS.permit_bound;

pub const PERMIT_VARIABLES: u8 = LIMITS.permit_variables;

pub const ASKED_BYTES: usize = LIMITS.asked.bytes;

pub const ASKED_LEVELS: usize = LIMITS.asked.levels;

pub const ASKED_VARIABLES: u8 = LIMITS.asked.variables;

pub const PLAIN_BYTES: usize = LIMITS.plain.bytes;

pub const PLAIN_LEVELS: usize = LIMITS.plain.levels;

pub const PLAIN_VARIABLES: u8 = LIMITS.plain.variables;

pub const RANGES: usize = LIMITS.asked.ranges;

pub const TARGETS: usize = LIMITS.asked.targets;
