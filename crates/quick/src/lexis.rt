// Blanks, words, numbers and signs of a text that ends in zeros. A place that is handed on is one where no blank stands, so each is passed over once.
ghost use Rattle.std.specs.Prelude.{◌≡◌, false, not, eqb, List, ℕ, ◌+◌, ◌%◌, ◌≤◌, ◌<◌, length, get_or, IfSome};
ghost use Rattle.quel.specs.Results.{ok};
ghost use Rattle.quel.specs.Tokens.{Token, Sign, number, sign, key, or, reserved, is_blank, is_letter, is_digit, token, with_equal};
ghost use Rattle.quel.specs.Elaboration.{operator_of};
ghost use Rattle.tokens.specs.Kinds.{kind_spelled};
ghost use Rattle.parts.specs.Parts.{Copied};
ghost use Rattle.parts.specs.Places.{WordAt, NameAt, TokenAt, SignAt, FunctionAt};
ghost use Rattle.quick.specs.Lexis.{Ended, Blanks, Stretch, DigitsAt, AttributeAt, RelationAt};

// The lowest byte of a number.
pub(crate) fn low(x: u64) -> u8
    ensures { result ≡ x % 256 }
{
    (x % 256) as u8
}

// Where something ends, and the number that it spells.
#[derive(Clone, Copy)]
pub(crate) struct Span {
    pub end: usize,
    pub value: u64,
}

// No word. It is no Option, since a span comes back in two registers and an Option through memory: reading a text took 3.6 in a hundred more instructions.
const NONE: Span = Span { end: 0, value: 0 };

// Where a sign ends, and its number.
#[derive(Clone, Copy)]
pub(crate) struct Operator {
    pub end: usize,
    pub number: u8,
}

// X.A: where it ends, and both codes.
#[derive(Clone, Copy)]
pub(crate) struct Owned {
    pub end: usize,
    pub owner: u64,
    pub value: u64,
}

// Most bytes are above the blanks.
fn is_blank(b: u8) -> bool
    ensures { result ≡ is_blank b }
{
    b <= 32 && matches!(b, 32 | 10 | 13)
}

pub(crate) fn is_letter(b: u64) -> bool
    ensures { result ≡ is_letter b }
{
    (65..=90).contains(&b)
}

fn is_digit(b: u64) -> bool
    ensures { result ≡ is_digit b }
{
    (48..=57).contains(&b)
}

// Whether the word that spells a number is reserved. RANGE RETRIEVE NOT SOME IN V COUNT SUM AVE MAX MIN
#[tactic(auto, unfolding(tokens::specs::Kinds::kind_spelled, tokens::specs::Spans::positional))]
pub(crate) fn is_reserved(value: u64) -> bool
    ensures { result ≡ not (eqb (kind_spelled reserved value) 0) }
{
    matches!(
        value,
        19658916
            | 346837159270
            | 26747
            | 783124
            | 897
            | 47
            | 13055269
            | 30276
            | 18126
            | 25711
            | 25909
    )
}

// The function of an aggregate, if the word is one. COUNT SUM AVE MAX MIN
pub(crate) fn function(value: u64) -> Option<u8>
    ensures { IfSome result (λ f. (text : List ℕ) (i j : ℕ) → WordAt text i j value → FunctionAt text i j f) }
{
    match value {
        13055269 => Some(1),
        30276 => Some(2),
        18126 => Some(3),
        25711 => Some(4),
        25909 => Some(5),
        _ => None,
    }
}

// A text of at most 254 bytes with zeros behind it: every loop over letters, digits or blanks ends there.
#[derive(Drop)]
pub(crate) struct Text {
    bytes: [u8; 256],
    ghost ended: { Ended bytes },
}

impl Text {
    pub(crate) fn of(given: &[u8]) -> Self
        requires { length given.now ≤ 254 }
        ensures { Copied result.bytes given.now }
    {
        let mut bytes = [0u8; 256];
        bytes[..given.len()].copy_from_slice(given);
        Text { bytes }
    }

    // The place after blanks.
    pub(crate) fn skip(&self, at: usize) -> usize
        requires { at ≤ 254 }
        ensures lower_bound { (at ≤ result) × (result ≤ 254) }
        ensures by_index { (given : List ℕ) → Copied self.now.bytes given → Blanks given at result }
    {
        let mut i = at;
        // A plain loop: the zeros end it, and no byte asks whether it is the last.
        while is_blank(self.bytes[i]) {
            i += 1;
        }
        i
    }

    // Letters from a place on: where they end and their code. Of more than twelve, the first twelve.
    fn letters(&self, at: usize) -> Span
        requires { at ≤ 254 }
        ensures at_le_end { (at ≤ result.end) × (result.end ≤ 254) × (result.value < 288230376151711744) }
        ensures by_index { (given : List ℕ) → Copied self.now.bytes given → is_letter (get_or self.now.bytes result.end 0) ≡ false
            → Stretch given 65 90 26 1 at result.end result.value }
    {
        let mut value = 1u64;
        for n in 0..12 {
            let b = u64::from(self.bytes[at + n]);
            if !is_letter(b) {
                return Span { end: at + n, value };
            }
            value = 26 * value + (b - 65);
        }
        Span {
            end: at + 12,
            value,
        }
    }

    // A word of at most twelve letters, reserved or not.
    pub(crate) fn word(&self, at: usize) -> Span
        requires { at ≤ 254 }
        ensures end_bound { (result.end ≤ 254) × (1 ≤ result.end → at < result.end) × (result.end ≡ 0 → result.value ≡ 0) }
        ensures by_index { (given : List ℕ) → Copied self.now.bytes given → 1 ≤ result.end → WordAt given at result.end result.value }
    {
        let s = self.letters(at);
        let end = s.end;
        if end == at {
            return NONE;
        }
        if is_letter(u64::from(self.bytes[end])) {
            return NONE;
        }
        Span {
            end: self.skip(end),
            value: s.value,
        }
    }

    // A word that is not reserved.
    pub(crate) fn name(&self, at: usize) -> Option<Span>
        requires { at ≤ 254 }
        ensures { IfSome result (λ s. (at < s.end) × (s.end ≤ 254)
            × ((given : List ℕ) → Copied self.now.bytes given → NameAt given at s.end s.value)) }
    {
        let s = self.word(at);
        if s.end == 0 {
            return None;
        }
        if is_reserved(s.value) {
            return None;
        }
        Some(s)
    }

    // The place after a sign of one byte.
    pub(crate) fn past(&self, at: usize, b: u8) -> Option<usize>
        requires { (at ≤ 254) × (1 ≤ b) }
        ensures { IfSome result (λ j. (at < j) × (j ≤ 254)
            × ((given : List ℕ) (t : Token) → Copied self.now.bytes given → ((x : List ℕ) → token b x ≡ ok t x) → TokenAt given at j t)) }
    {
        if self.bytes[at] != b {
            return None;
        }
        Some(self.skip(at + 1))
    }

    // The place after a V that is a word of its own.
    pub(crate) fn past_or(&self, at: usize) -> Option<usize>
        requires { at ≤ 254 }
        ensures { IfSome result (λ j. (at < j) × (j ≤ 254)
            × ((given : List ℕ) → Copied self.now.bytes given → TokenAt given at j (key or))) }
    {
        if self.bytes[at] != 86 {
            return None;
        }
        if is_letter(u64::from(self.bytes[at + 1])) {
            return None;
        }
        Some(self.skip(at + 1))
    }

    // < or >, with the = straight after it, if there is one. The number is that of the sign alone.
    fn with_equal(&self, at: usize, number: u8) -> Operator
        requires { (at < 254) × (number ≤ 5) }
        ensures at_lt_end { (at < result.end) × (result.end ≤ 254) }
        ensures by_index { (given : List ℕ) (s t : Sign) → Copied self.now.bytes given → at < length given
            → ((x : List ℕ) → token (get_or given at 0) x ≡ with_equal (sign s) (sign t) x) → operator_of s ≡ number → operator_of t ≡ number + 1
            → SignAt given at result.end result.number }
    {
        if self.bytes[at + 1] == 61 {
            return Operator {
                end: at + 2,
                number: number + 1,
            };
        }
        Operator {
            end: at + 1,
            number,
        }
    }

    fn sign_at(&self, at: usize) -> Option<Operator>
        requires { at ≤ 254 }
        ensures { IfSome result (λ o. (at < o.end) × (o.end ≤ 254)
            × ((given : List ℕ) → Copied self.now.bytes given → SignAt given at o.end o.number)) }
    {
        match self.bytes[at] {
            61 => Some(Operator {
                end: at + 1,
                number: 1,
            }),
            35 => Some(Operator {
                end: at + 1,
                number: 2,
            }),
            60 => Some(self.with_equal(at, 3)),
            62 => Some(self.with_equal(at, 5)),
            _ => None,
        }
    }

    // A sign between terms and its number.
    pub(crate) fn sign(&self, at: usize) -> Option<Operator>
        requires { at ≤ 254 }
        ensures { IfSome result (λ o. (at < o.end) × (o.end ≤ 254)
            × ((given : List ℕ) → Copied self.now.bytes given → SignAt given at o.end o.number)) }
    {
        let o = self.sign_at(at)?;
        Some(Operator {
            end: self.skip(o.end),
            number: o.number,
        })
    }

    // Digits from a place on: where they end and their number. Of more than ten, the first ten. As one function with `letters`, by five numbers, it would be
    // no plainer.
    fn digits(&self, at: usize) -> Span
        requires { at ≤ 254 }
        ensures at_le_end { (at ≤ result.end) × (result.end ≤ 254) × (result.value < 10000000000) }
        ensures by_index { (given : List ℕ) → Copied self.now.bytes given → is_digit (get_or self.now.bytes result.end 0) ≡ false
            → Stretch given 48 57 10 0 at result.end result.value }
    {
        let mut value = 0u64;
        for n in 0..10 {
            let b = u64::from(self.bytes[at + n]);
            if !is_digit(b) {
                return Span { end: at + n, value };
            }
            value = 10 * value + (b - 48);
        }
        Span {
            end: at + 10,
            value,
        }
    }

    // At most ten digits.
    fn plain(&self, at: usize) -> Option<Span>
        requires { at ≤ 254 }
        ensures { IfSome result (λ s. (at < s.end) × (s.end ≤ 254)
            × ((given : List ℕ) → Copied self.now.bytes given → DigitsAt given at s.end s.value)) }
    {
        let s = self.digits(at);
        let end = s.end;
        if end == at {
            return None;
        }
        if is_digit(u64::from(self.bytes[end])) {
            return None;
        }
        Some(Span {
            end: self.skip(end),
            value: s.value,
        })
    }

    // A number: its 32 bits.
    pub(crate) fn number(&self, at: usize) -> Option<Span>
        requires { at ≤ 254 }
        ensures { IfSome result (λ s. (at < s.end) × (s.end ≤ 254) × (s.value < 4294967296)
            × ((given : List ℕ) → Copied self.now.bytes given → TokenAt given at s.end (number s.value))) }
    {
        if self.bytes[at] == 45 {
            let s = self.plain(at + 1)?;
            let value = s.value;
            if 2147483648 < value {
                return None;
            }
            return Some(Span {
                end: s.end,
                value: (4294967296 - value) % 4294967296,
            });
        }
        let s = self.plain(at)?;
        let value = s.value;
        if 2147483647 < value {
            return None;
        }
        Some(s)
    }

    pub(crate) fn attribute(&self, at: usize) -> Option<Owned>
        requires { at ≤ 254 }
        ensures { IfSome result (λ a. (at < a.end) × (a.end ≤ 254)
            × ((given : List ℕ) → Copied self.now.bytes given → AttributeAt given at a.end a.owner a.value)) }
    {
        let x = self.word(at);
        let end = x.end;
        if end == 0 {
            return None;
        }
        let p = self.past(end, 46)?;
        let a = self.word(p);
        let last = a.end;
        if last == 0 {
            return None;
        }
        Some(Owned {
            end: last,
            owner: x.value,
            value: a.value,
        })
    }

    // IN R ( after SOME X: the place after the parenthesis and the code of R.
    pub(crate) fn relation(&self, at: usize) -> Option<Span>
        requires { at ≤ 254 }
        ensures { IfSome result (λ s. (at < s.end) × (s.end ≤ 254)
            × ((given : List ℕ) → Copied self.now.bytes given → RelationAt given at s.end s.value)) }
    {
        let i = self.word(at);
        let code = i.value;
        if code != 897 {
            return None;
        }
        let r = self.word(i.end);
        let last = r.end;
        if last == 0 {
            return None;
        }
        let end = self.past(last, 40)?;
        Some(Span {
            end,
            value: r.value,
        })
    }
}
