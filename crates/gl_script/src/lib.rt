//! The script language, as bytes: names, numbers, and the forms of a line.
//!
//! A line consists of fields that are separated by exactly one space. [`parse`] reads its command or
//! its listing. `specs/` defines the meaning of each line.
#![tactic(auto)]

mod fields;
mod form;
mod line;
mod listing;
mod reads;
mod series;
mod shapes;
mod topic;
mod verb;

pub use form::{Form, Language, Lists, Version};
pub use line::{Line, one_command, parse};
pub use listing::Listing;
pub use reads::{Name, Used};
pub use verb::{LockVerb, NumberVerb, RemovalVerb, RequestVerb, TxnVerb};
