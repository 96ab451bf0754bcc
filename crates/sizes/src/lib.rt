// What sizes of conditions and terms are, each stored in a table at the place where it starts, so that a part is found without reading what stands
// before it; what bytes with such a table stand for. Definitions and laws: the reader of conditions fills the table.
#![tactic(auto)]
