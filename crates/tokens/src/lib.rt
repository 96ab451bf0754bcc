// The tokens of a text: words, numbers and signs, each read as far as it goes.
#![tactic(auto)]

ghost use Rattle.std.specs.Prelude.{◌≡◌, true, false, List, ℕ, ◌∷◌, ◌+◌, ◌*◌, ◌-◌, ◌≤◌, ◌<◌, eqb, length, drop, Some, option_map};
ghost use Rattle.model.specs.Lists.{all};
ghost use Rattle.quel.specs.Tokens.{reserved, signs, is_blank, is_letter, is_digit, run, tokens};
ghost use Rattle.quel.specs.Lexical.{first};
ghost use Rattle.tokens.specs.Spans.{within, positional, capped};
ghost use Rattle.tokens.specs.Kinds.{number_of, code_of, kind_spelled, sign_kind, nonzero, is_name};
ghost use Rattle.tokens.specs.Pieces.{Leads, Opens, Single, read_of, counted};
ghost use Rattle.tokens.specs.Codes.{Coded};

// Numbers that bytes spell are held up to here: above every word of up to twelve letters, and every constant.
const LIMIT: u64 = 288_230_376_151_711_744;

// The largest number, and the smallest without its sign.
const LARGEST: u64 = 2147483647;

const SMALLEST: u64 = 2147483648;

// Bytes of the longest text.
const LONGEST: usize = 2000;

// The bytes from low to high, as the digits of a number.
#[derive(Clone, Copy)]
struct Digits {
    low: u8,
    high: u8,
    base: u64,
    ghost some: { 1 ≤ base },
    ghost few: { base ≤ 26 },
}

const LETTERS: Digits = Digits {
    low: b'A',
    high: b'Z',
    base: 26,
};

const DECIMALS: Digits = Digits {
    low: b'0',
    high: b'9',
    base: 10,
};

// The digits that some bytes begin with: how many, and the number that they spell after a start.
#[derive(Clone, Copy)]
struct Front {
    size: usize,
    value: u64,
}

impl Digits {
    fn has(self, b: u8) -> bool
        ensures { result ≡ within self.low self.high b }
    {
        (self.low..=self.high).contains(&b)
    }

    // One digit more, up to the limit.
    fn grown(self, n: u64, b: u8) -> u64
        requires limited { n ≤ 288230376151711744 }
        requires digit { self.low ≤ b }
        ensures { result ≡ capped (self.base * n + (b - self.low)) }
    {
        (self.base * n + u64::from(b - self.low)).min(LIMIT)
    }

    #[inline(always)]
    fn front(self, s: &[u8], start: u64) -> Front
        requires { start ≤ 288230376151711744 }
        ensures inside { result.size ≤ length s.now }
        ensures size { result.size ≡ length (run (within self.low self.high) s.now) }
        ensures value { result.value ≡ capped (positional self.base self.low start (run (within self.low self.high) s.now)) }
    {
        let mut value = start;
        for (size, &b) in s.iter().enumerate() {
            if !self.has(b) {
                return Front { size, value };
            }
            value = self.grown(value, b);
        }
        Front {
            size: s.len(),
            value,
        }
    }
}

// The kinds of tokens, in the order of their numbers (specs/Table).
#[derive(Clone, Copy)]
enum Kind {
    Name,
    Number,
    Count,
    Sum,
    Ave,
    Max,
    Min,
    Equal,
    Unequal,
    Less,
    AtMost,
    More,
    AtLeast,
    Range,
    Retrieve,
    Not,
    Some,
    In,
    Or,
    And,
    Left,
    Right,
    Comma,
    Colon,
    Semicolon,
    Point,
}

impl From<Kind> for u8 {
    ghost from_gives = { λ kind n. n ≡ number_of kind };

    fn from(kind: Kind) -> u8 {
        kind as u8
    }
}

// The kind of the reserved word that spells a number. RANGE RETRIEVE NOT SOME IN V COUNT SUM AVE MAX MIN
#[tactic(auto, unfolding(crate::specs::Kinds::kind_spelled, crate::specs::Spans::positional))]
fn reserved_kind(value: u64) -> Option<Kind>
    ensures { option_map number_of result ≡ nonzero (kind_spelled reserved value) }
{
    match value {
        19658916 => Some(Kind::Range),
        346837159270 => Some(Kind::Retrieve),
        26747 => Some(Kind::Not),
        783124 => Some(Kind::Some),
        897 => Some(Kind::In),
        47 => Some(Kind::Or),
        13055269 => Some(Kind::Count),
        30276 => Some(Kind::Sum),
        18126 => Some(Kind::Ave),
        25711 => Some(Kind::Max),
        25909 => Some(Kind::Min),
        _ => None,
    }
}

// Whether spaces fill a word from its nth byte on. It looks at every byte, so that for a name of twelve the compiler unrolls it.
fn are_spaces(word: &[u8], n: usize) -> bool
    ensures { result ≡ all (λ b. eqb b 32) (drop n word.now) }
{
    let mut spaces = true;
    for i in 0..word.len() {
        spaces &= i < n || word[i] == b' ';
    }
    spaces
}

// Whether n letters with this code are a name, and all that stands in front of spaces.
fn is_name(word: &[u8], n: usize, code: u64) -> bool
    requires inside { n ≤ length word.now }
    requires size { n ≡ length (run is_letter word.now) }
    requires code { code ≡ capped (code_of (run is_letter word.now)) }
    ensures { result ≡ is_name word.now }
{
    n != 0 && are_spaces(word, n) && reserved_kind(code).is_none()
}

// The code of the letters in front, and whether they are a name filled up with spaces.
#[derive(Clone, Copy)]
pub struct Spelled {
    pub code: u64,
    pub name: bool,
}

// Compiled into its callers, with what counts the letters: they know that a name has twelve bytes, and a list has hundreds of names.
#[inline(always)]
pub fn spelling(word: &[u8]) -> Spelled
    ensures code_value { result.code ≡ capped (code_of (run is_letter word.now)) }
    ensures name_value { result.name ≡ is_name word.now }
{
    let letters = LETTERS.front(word, 1);
    let code = letters.value;
    let name = is_name(word, letters.size, code);
    Spelled { code, name }
}

// The kind of a sign of one byte.
#[tactic(auto, unfolding(crate::specs::Kinds::sign_kind))]
fn sign_kind(b: u8) -> Option<Kind>
    ensures { option_map number_of result ≡ nonzero (sign_kind signs b) }
{
    match b {
        b'(' => Some(Kind::Left),
        b')' => Some(Kind::Right),
        b',' => Some(Kind::Comma),
        b'.' => Some(Kind::Point),
        b':' => Some(Kind::Colon),
        b';' => Some(Kind::Semicolon),
        b'^' => Some(Kind::And),
        b'=' => Some(Kind::Equal),
        b'#' => Some(Kind::Unequal),
        _ => None,
    }
}

// A token that some bytes begin with: its kind, how many bytes it has, and its number.
#[derive(Clone, Copy)]
struct Piece {
    kind: Kind,
    size: usize,
    value: u64,
}

fn word(s: &[u8]) -> Piece
    requires { first is_letter s.now ≡ true }
    ensures { Leads (Some result) s.now }
{
    let letters = LETTERS.front(s, 1);
    Piece {
        kind: reserved_kind(letters.value).unwrap_or(Kind::Name),
        size: letters.size,
        value: letters.value,
    }
}

fn number(s: &[u8]) -> Option<Piece>
    requires { first is_digit s.now ≡ true }
    ensures { Leads result s.now }
{
    let digits = DECIMALS.front(s, 0);
    let value = digits.value;
    if LARGEST < value {
        return None;
    }
    Some(Piece {
        kind: Kind::Number,
        size: digits.size,
        value,
    })
}

// After a minus, with digits straight after it.
fn negative(rest: &[u8]) -> Option<Piece>
    ensures { Leads result (45 ∷ rest.now) }
{
    let digits = DECIMALS.front(rest, 0);
    let value = digits.value;
    if digits.size == 0 || SMALLEST < value {
        return None;
    }
    Some(Piece {
        kind: Kind::Number,
        size: 1 + digits.size,
        value: (4294967296 - value) % 4294967296,
    })
}

// After < or >, which is of the kind with, if the = stands straight after it, and else of the kind alone.
fn with_equal(rest: &[u8], alone: Kind, with: Kind) -> Piece
    ensures { (b : ℕ) → Opens (number_of alone) (number_of with) b → Leads (Some result) (b ∷ rest.now) }
{
    if rest.starts_with(b"=") {
        Piece {
            kind: with,
            size: 2,
            value: 0,
        }
    } else {
        Piece {
            kind: alone,
            size: 1,
            value: 0,
        }
    }
}

// A byte that begins neither a word nor a number nor a sign of two bytes.
fn single(b: u8) -> Option<Piece>
    ensures { (rest : List ℕ) → Single b → Leads result (b ∷ rest) }
{
    sign_kind(b).map(|kind| Piece {
        kind,
        size: 1,
        value: 0,
    })
}

// The token that bytes begin with.
fn first_piece(s: &[u8]) -> Option<Piece>
    ensures { Leads result s.now }
{
    match s {
        [b'A'..=b'Z', ..] => Some(word(s)),
        [b'0'..=b'9', ..] => number(s),
        [b'-', rest @ ..] => negative(rest),
        [b'<', rest @ ..] => Some(with_equal(rest, Kind::Less, Kind::AtMost)),
        [b'>', rest @ ..] => Some(with_equal(rest, Kind::More, Kind::AtLeast)),
        [b, ..] => single(*b),
        [] => None,
    }
}

fn is_blank(b: u8) -> bool
    ensures { result ≡ is_blank b }
{
    matches!(b, b' ' | b'\n' | b'\r')
}

// The tokens of a text of at most 2,000 bytes, into arrays: kinds, where words start, and numbers; that of a name is its code. How many, or no text.
pub fn cut(text: &[u8], kinds: &mut [u8], starts: &mut [u16], numbers: &mut [u64]) -> Option<usize>
    requires { length text.now ≤ 2000 → (length text.now ≤ length kinds.old) × (length text.now ≤ length starts.old)
        × (length text.now ≤ length numbers.old) }
    ensures numbers_after { read_of result text.now (record {
      kinds = kinds.new;
      starts = starts.new;
      numbers = numbers.new;
    }) ≡ tokens text.now }
    ensures coded { Coded text.now (record {
      kinds = kinds.new;
      starts = starts.new;
      numbers = numbers.new;
    }) (counted result) }
    ensures result_bound { (counted result ≤ 2000) × (counted result ≤ length text.now) }
{
    if LONGEST < text.len() {
        return None;
    }
    let mut at = 0;
    let mut n = 0;
    while at < text.len() {
        if is_blank(text[at]) {
            at += 1;
            continue;
        }
        let piece = first_piece(&text[at..])?;
        kinds[n] = u8::from(piece.kind);
        starts[n] = at as u16;
        numbers[n] = piece.value;
        n += 1;
        at += piece.size;
    }
    Some(n)
}
