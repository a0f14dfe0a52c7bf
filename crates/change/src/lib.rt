// The change call: tests 1 to 7 in their order, and then the change itself.
#![tactic(auto)]

ghost use Rattle.meaning.specs.Change as Meant;
ghost use Rattle.meaning.specs.Base.{change_of};
ghost use Rattle.store.specs.Answers.{Says};

use change_asked::Kind;
use sheet::Refusal;
use store::Done;

// Inserts `new` (kind 1), deletes `old` (2) or updates `old` to `new` (3) in a table of which the store holds the side table and the list.
// A refusal leaves the store untouched. The kind comes as C gives it, a number.
pub fn change(
    sheet: &[u64],
    store: &mut [u64],
    kind: u64,
    table: u64,
    old: &[u64],
    new: &[u64],
) -> Result<Done, Refusal>
    ensures { Says (Meant.change sheet.now store.old (change_of kind table old.now new.now))
        result store.new }
{
    let plan = sheet_plan::check(sheet)?;
    if store.len() != plan.store {
        return Err(Refusal::WrongLength);
    }
    let kind = Kind::try_from(kind)?;
    change_asked::asked(sheet, kind, table, old, new)?;
    if !store::is_sound(&plan, store) {
        return Err(Refusal::NotSound);
    }
    change_apply::apply(sheet, &plan, store, kind, table as usize, old, new)
}
