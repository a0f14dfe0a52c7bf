// A sheet: its words read by number, and its check. Any run of words is good, or refused by number.
#![tactic(auto)]

mod limits;
mod reading;
mod refusal;
mod rules;
mod tree;

ghost use Rattle.std.specs.Prelude.{◌≡◌};
ghost use Rattle.sheet.specs.Verdicts.{verdict_of};

pub use limits::{COLUMNS, CONDITIONS, LISTED, PARTS, PLACES, ROOM, ROWS, SHEET_WORDS, TABLES};
pub use reading::{
    Condition, Edge, Listing, condition_no, conditions, edge_no, edges, listed, listing_no,
    room_no, tables, width_no,
};
pub use refusal::{Refusal, number_of};
use rules::{counts_ok, words_ok};
pub use rules::{has_column, listing_of};
pub use tree::edge_into;
use tree::tree_ok;

// The check of a sheet.
pub fn verdict_of(sheet: &[u64]) -> Result<(), Refusal>
    ensures { result ≡ verdict_of sheet.now }
{
    if !counts_ok(sheet) {
        return Err(Refusal::BadCounts);
    }
    if !words_ok(sheet) {
        return Err(Refusal::BadWords);
    }
    if !tree_ok(sheet) {
        return Err(Refusal::NoTree);
    }
    Ok(())
}
