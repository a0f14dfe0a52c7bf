// A change below its tests, on a sound store: what it does to it and what it answers. The store is sound again after it.
#![tactic(auto)]

ghost use Rattle.std.specs.Prelude.{◌≡◌, Ok};
ghost use Rattle.meaning.specs.Base.{change_of};
ghost use Rattle.change_asked.specs.Kinds.{kind_number};
ghost use Rattle.change_asked.specs.Asked.{asked_of};
ghost use Rattle.change_laws.specs.Ready.{Ready};
ghost use Rattle.change_apply.specs.Applies.{Applies};

use change_asked::Kind;
use sheet::Refusal;
use sheet_plan::Plan;
use store::Done;

// The change that was asked for, by its kind.
pub fn apply(
    sheet: &[u64],
    plan: &Plan,
    store: &mut [u64],
    kind: Kind,
    table: usize,
    old: &[u64],
    new: &[u64],
) -> Result<Done, Refusal>
    requires ready { Ready sheet.now store.old plan.now }
    requires value { asked_of sheet.now (change_of (kind_number kind) table old.now new.now) ≡ Ok tt }
    ensures { Applies sheet.now store.old (change_of (kind_number kind) table old.now new.now) result store.new }
{
    match kind {
        Kind::Insert => change_insert::insert(sheet, plan, store, table, new),
        Kind::Delete => change_delete::delete(sheet, plan, store, table, old),
        Kind::Update => change_update::update(sheet, plan, store, table, old, new),
    }
}
