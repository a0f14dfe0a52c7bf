// List rows rewritten and put in order: one table's columns in them, the list's part of a store while its rows change, and the rows of ways.
#![tactic(auto)]

mod columns;
mod replacing;
mod rewriting;
mod ways;

pub use columns::shows_row;
pub use replacing::replace_rows;
pub use rewriting::{clear_rows, settle_rows};
pub use ways::{Step, put_way_from};
