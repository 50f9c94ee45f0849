// Tables: the type of a table that has passed the checks, and the parts that their calls are made of. 01's definitions are in specs/.
#![tactic(auto)]

pub mod parts;
pub mod table;
