// Writes into a lent buffer: bytes, and records of a query. What does not fit the buffer is not written.
#![tactic(auto)]

ghost use Rattle.std.specs.Prelude.{◌≡◌, [], ◌∷◌, ◌+◌, ◌<◌, length};
ghost use Rattle.std.proofs.lemmas.List.Edits.{sets};
ghost use Rattle.copier.specs.Copied.{record_bytes};

use kinds::Record;

// Writes a byte, and returns the place after it.
pub fn put(out: &mut [u8], at: usize, b: u8) -> usize
    requires { at + 1 < 9223372036854775808 }
    ensures value { result ≡ at + 1 }
    ensures out_after { out.new ≡ sets out.old at (b ∷ []) }
{
    if at < out.len() {
        out[at] = b;
    }
    at + 1
}

// Writes the bytes of src, and returns the place after them.
pub fn copy(out: &mut [u8], at: usize, src: &[u8]) -> usize
    requires { at + length src.now < 9223372036854775808 }
    ensures value { result ≡ at + length src.now }
    ensures out_after { out.new ≡ sets out.old at src.now }
{
    for (i, &b) in src.iter().enumerate() {
        put(out, at + i, b);
    }
    at + src.len()
}

// Writes a record of a query; no other.
pub fn put_record(out: &mut [u8], at: usize, item: Record) -> usize
    requires { at + length (record_bytes item) < 9223372036854775808 }
    ensures value { result ≡ at + length (record_bytes item) }
    ensures out_after { out.new ≡ sets out.old at (record_bytes item) }
{
    match item {
        Record::Range(v, r) => copy(out, at, &[1, v, r]),
        Record::True => put(out, at, 16),
        Record::False => put(out, at, 17),
        Record::Not => put(out, at, 18),
        Record::And => put(out, at, 19),
        Record::Or => put(out, at, 20),
        Record::Compare(o) => copy(out, at, &[21, o]),
        Record::Some(v, r) => copy(out, at, &[22, v, r]),
        Record::Constant(a, b, c, d) => copy(out, at, &[32, a, b, c, d]),
        Record::Attribute(v, a) => copy(out, at, &[33, v, a]),
        Record::Aggregate(f, v, r, a) => copy(out, at, &[34, f, v, r, a]),
        _ => at,
    }
}
