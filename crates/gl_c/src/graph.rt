//! Calls that change the lock graph: they make, move and remove nodes.

mod nodes;
mod parents;
mod records;
mod schema;
