//! Plan of the gates, headers and data on a part with sectors of different sizes, as `dfu plan` prints it.
#![tactic(auto)]

mod part;
mod pieces;
mod row;
mod sizes;
mod table;
mod text;
mod words;

pub use part::{Part, PartFault, part_in};
pub use row::{Row, RowFault, row_in};
pub use sizes::size_in;
pub use table::PARTS;
pub use text::{Plan, plan_objects, plan_text};
