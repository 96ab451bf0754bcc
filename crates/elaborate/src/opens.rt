// Writes what stands before a token's record.
ghost use Rattle.std.specs.Prelude.{◌≡◌, cond, ◌&&◌, [], ◌∷◌, ◌+◌, ◌<◌, leb, length};
ghost use Rattle.std.proofs.lemmas.List.Edits.{sets};
ghost use Rattle.quel.specs.Writing.{often};
ghost use Rattle.elaborate.specs.Opens.{open_bytes};
ghost use Rattle.elaborate.specs.Modes.{mode_no};

use crate::modes::Mode;

// Writes a byte n times, and returns the place after them.
fn many(out: &mut [u8], at: usize, b: u8, n: usize) -> usize
    requires { at + n < 9223372036854775808 }
    ensures value { result ≡ at + n }
    ensures out_after { out.new ≡ sets out.old at (often n b []) }
{
    for i in 0..n {
        copier::put(out, at + i, b);
    }
    at + n
}

// Writes the sign of a comparison, where a factor begins with an operand.
fn compare(out: &mut [u8], at: usize, mode: Mode, kind: u8, operator: u8) -> usize
    requires { at + 2 < 9223372036854775808 }
    ensures value { result ≡ at + length (cond (leb (mode_no mode) 2 && leb kind 6) (21 ∷ operator ∷ []) []) }
    ensures out_after { out.new ≡ sets out.old at (cond (leb (mode_no mode) 2 && leb kind 6) (21 ∷ operator ∷ []) []) }
{
    if mode.begins() && kind <= 6 {
        copier::copy(out, at, &[21, operator])
    } else {
        at
    }
}

// Writes all that stands before a token's record, and returns the place after it.
pub(crate) fn open(
    out: &mut [u8],
    at: usize,
    mode: Mode,
    kind: u8,
    ors: usize,
    ands: usize,
    operator: u8,
) -> usize
    requires { at + ors + ands + 2 < 9223372036854775808 }
    ensures value { result ≡ at + length (open_bytes (mode_no mode) kind ors ands operator) }
    ensures out_after { out.new ≡ sets out.old at (open_bytes (mode_no mode) kind ors ands operator) }
{
    let (ors, ands) = match mode {
        Mode::Condition => (ors, ands),
        Mode::Conjunct => (0, ands),
        _ => (0, 0),
    };
    let p = many(out, at, 20, ors);
    let q = many(out, p, 19, ands);
    compare(out, q, mode, kind, operator)
}
