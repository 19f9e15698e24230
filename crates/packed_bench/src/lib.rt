// The bench in lent bytes: the parts of a record, a record, the table, the calls on it.
#![tactic(auto)]

pub mod calls;
mod entries;
pub mod packing;
pub mod record_parts;
pub mod table;
