// Check 32's reach: each variable that is used stands in the scope of the record that binds it, and relations and attributes are known.
// A scope is a table: for each variable 0 where it is out of reach, else the number of its relation and 1.
ghost use Rattle.std.specs.Prelude.{◌≡◌, ◌+◌, ltb, get_or, set};
ghost use Rattle.model.specs.Catalogue.{attributes_at};
ghost use Rattle.model.specs.Scope.{known_binding, known_attribute};
ghost use Rattle.conditions.specs.Reach.{scope_of, shape_in};

// Whether the relation has the attribute.
pub(crate) fn has(catalogue: &[u8], relation: usize, attribute: u8) -> bool
    ensures { result ≡ ltb attribute (attributes_at (shape_in catalogue.now) relation) }
{
    relation < catalogue.len() / catalogue::RECORD
        && attribute < kinds::byte(catalogue, catalogue::RECORD * relation + 1)
}

// Whether a variable and its relation have known numbers.
pub(crate) fn known(catalogue: &[u8], limit: u8, variable: u8, relation: u8) -> bool
    ensures { result ≡ known_binding (shape_in catalogue.now) limit (record { variable = variable; relation = relation }) }
{
    variable < limit && catalogue::entry(catalogue, relation).listed
}

// Whether the variable is in reach and its relation has the attribute.
pub(crate) fn attribute(catalogue: &[u8], reach: &[u16], variable: u8, attribute: u8) -> bool
    ensures { result ≡ known_attribute (shape_in catalogue.now) (scope_of reach.now variable) attribute }
{
    let x = entry(reach, variable);
    x != 0 && has(catalogue, usize::from(x - 1), attribute)
}

// The entry of a variable, 0 past the end.
pub(crate) fn entry(reach: &[u16], variable: u8) -> u16
    ensures { result ≡ get_or reach.now variable 0 }
{
    reach.get(usize::from(variable)).copied().unwrap_or(0)
}

// Writes the entry of a variable.
pub(crate) fn put(reach: &mut [u16], variable: u8, entry: u16)
    ensures { reach.new ≡ set reach.old variable entry }
{
    let v = usize::from(variable);
    if v < reach.len() {
        reach[v] = entry;
    }
}

// Puts a variable in reach.
pub(crate) fn bind(reach: &mut [u16], variable: u8, relation: u8)
    ensures { reach.new ≡ set reach.old variable (relation + 1) }
{
    put(reach, variable, u16::from(relation) + 1);
}

// Puts a variable in reach; whether it and its relation have known numbers.
pub fn enter(catalogue: &[u8], reach: &mut [u16], limit: u8, variable: u8, relation: u8) -> bool
    ensures value { result ≡ known_binding (shape_in catalogue.now) limit (record { variable = variable; relation = relation }) }
    ensures reach_after { reach.new ≡ set reach.old variable (relation + 1) }
{
    bind(reach, variable, relation);
    known(catalogue, limit, variable, relation)
}
