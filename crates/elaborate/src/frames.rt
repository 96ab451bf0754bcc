// What a name stands for as one number, and what a frame keeps of it.
ghost use Rattle.std.specs.Prelude.{◌≡◌, ◌<◌};
ghost use Rattle.elaborate.specs.Reach.{mode_in, relation_in, variable_in, place_in};
ghost use Rattle.elaborate.specs.Frames.{id_in, cross_in, old_in};

// Four numbers as one, and no struct: the tables of names stay small, and a frame keeps a whole entry.
pub(crate) fn pack(mode: u8, relation: u8, variable: u8, place: usize) -> u64
    requires { (mode < 4) × (place < 65536) }
    ensures result_value { (mode_in result ≡ mode) × (relation_in result ≡ relation) × (variable_in result ≡ variable) × (place_in result ≡ place) }
    ensures upper_bound { result < 68719476736 }
{
    u64::from(mode) + 4 * u64::from(relation) + 1024 * u64::from(variable) + 262144 * place as u64
}

// A frame: the number of the name that it binds, the innermost aggregate's frame round it, and what the name stood for.
pub(crate) fn keep(id: usize, crossing: usize, old: u64) -> u64
    requires { (id < 8192) × (crossing < 8192) × (old < 68719476736) }
    ensures { (mode_in result ≡ 1) × (id_in result ≡ id) × (cross_in result ≡ crossing) × (old_in result ≡ old) }
{
    1 + 4 * id as u64 + 32768 * crossing as u64 + 268435456 * old
}
