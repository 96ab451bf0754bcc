// Words by their buckets (specs/Chains), in one table: for each of 512 buckets the last place with a word of it, then for each place the one before it there.
#![tactic(auto)]

ghost use Rattle.std.specs.Prelude.{◌≡◌, ◌+◌, ◌%◌, ◌<◌, length, get_or, set, take, drop};

// The bucket of a word by its code, one of 512.
pub fn bucket(code: u64) -> usize
    ensures value { result ≡ code % 512 }
    ensures upper_bound { result < 512 }
{
    (code % 512) as usize
}

// A place at the front of its bucket's chain; its slot leads to the place before it.
pub fn put(index: &mut [u16], bucket: usize, slot: usize, place: usize)
    requires { (bucket < 512) × (512 + slot < length index.old) × (place < 65535) }
    ensures index_after { take 512 index.new ≡ set (take 512 index.old) bucket (place + 1) }
    ensures index_after_2 { drop 512 index.new ≡ set (drop 512 index.old) slot (get_or (take 512 index.old) bucket 0) }
{
    index[512 + slot] = index[bucket];
    index[bucket] = (place + 1) as u16;
}
