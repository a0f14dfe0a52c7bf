// An insert below its tests 1 to 7, on a sound store: contradiction, room, and then the list's rows and the side row.
#![tactic(auto)]

ghost use Rattle.change_laws.specs.Ready.{Ready};
ghost use Rattle.walk.specs.Grounds.{Lent};
ghost use Rattle.change_insert.specs.Inserts.{Inserts};

use sheet::Refusal;
use sheet_plan::Plan;
use store::Done;

// Row enters its table, if it is qualified: its shown columns the side table, and a row for each way through it the list.
pub fn insert(
    sheet: &[u64],
    plan: &Plan,
    store: &mut [u64],
    table: usize,
    row: &[u64],
) -> Result<Done, Refusal>
    requires ready { Ready sheet.now store.old plan.now }
    requires lent { Lent sheet.now table row.now }
    ensures { Inserts sheet.now store.old table row.now result store.new }
{
    if !side_table::new_key(sheet, plan, store, table, row) {
        return Err(Refusal::Contradiction);
    }
    if !walk::is_qualified(sheet, plan, store, table, row) {
        return Ok(Done { taken: 0, added: 0 });
    }
    if !side_table::has_room(sheet, plan, store, table) {
        return Err(Refusal::NoRoom);
    }
    let list = store::part_of(plan, plan.tables);
    let count = change_added::add_ways(sheet, plan, store, list, table, row);
    let added = count.ok_or(Refusal::NoRoom)?;
    side_table::put_side(sheet, plan, store, table, row);
    Ok(Done {
        taken: 0,
        added: added as u64,
    })
}
