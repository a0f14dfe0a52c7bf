// What is derived of a good sheet (document 01): the root, Dep, Dep+ and Need, which tables are kept, which columns are child columns.
#![tactic(auto)]

ghost use Rattle.std.specs.Prelude.{◌≡◌, not, ◌&&◌, eqb, ltb, ◌<◌};
ghost use Rattle.lists.specs.Loops.{some};
ghost use Rattle.meaning.specs.Sheet.{sheet_of, table_count, edge_count};
ghost use Rattle.meaning.specs.Plan.{root};
ghost use Rattle.sheet.specs.Rules.{Counts};
ghost use Rattle.sheet.specs.Tree.{Joined, GoodSheet};
ghost use Rattle.derive.specs.Derived.{dep_no, listed_no, need_no, keeps_no, kept_no, leaves_by};

// The table with no edge into it; there is one, so the n behind the last is never answered.
pub fn root_of(sheet: &[u64]) -> usize
    requires { GoodSheet sheet.now }
    ensures { result ≡ root (sheet_of sheet.now) }
{
    let n = sheet::tables(sheet);
    let e = sheet::edges(sheet);
    (0..n)
        .find(|&t| e <= sheet::edge_into(sheet, t))
        .unwrap_or(n)
}

// Whether u is in Dep+(t), over paths of at most `left` edges (with 1: in Dep(t)). The walk goes from u, by the one edge
// into it, back towards t, and each step leaves a shorter path.
pub fn depends(sheet: &[u64], t: usize, u: usize, left: usize) -> bool
    requires { Joined sheet.now }
    ensures { result ≡ dep_no sheet.now left t u }
{
    if left == 0 {
        return false;
    }
    let k = sheet::edge_into(sheet, u);
    if sheet::edges(sheet) <= k {
        return false;
    }
    let edge = sheet::edge_no(sheet, k);
    if edge.promise != 1 {
        return false;
    }
    if edge.child == t {
        return true;
    }
    depends(sheet, t, edge.child, left - 1)
}

// Whether the list shows column c of table t.
fn is_listed(sheet: &[u64], t: usize, c: usize) -> bool
    requires { Counts sheet.now }
    ensures { result ≡ listed_no sheet.now t c }
{
    let p = sheet::listed(sheet);
    sheet::listing_of(sheet, t, c, p) < p
}

// Whether u is in Need(t), with `left` tables left on the path.
pub fn needs(sheet: &[u64], t: usize, u: usize, left: usize) -> bool
    requires { GoodSheet sheet.now × (t < table_count sheet.now) }
    ensures { result ≡ need_no sheet.now left t u }
{
    if left == 0 {
        return false;
    }
    if is_listed(sheet, t, 0) {
        return false;
    }
    let k = sheet::edge_into(sheet, t);
    if sheet::edges(sheet) <= k {
        return is_other(sheet::tables(sheet), t, u);
    }
    let edge = sheet::edge_no(sheet, k);
    if edge.child == u {
        return true;
    }
    needs(sheet, edge.child, u, left - 1)
}

// Whether u is one of n tables other than t.
fn is_other(n: usize, t: usize, u: usize) -> bool
    ensures { result ≡ (ltb u n && not (eqb u t)) }
{
    u < n && u != t
}

// Whether edge k keeps the root t: it is not promised, or leads from t to a table whose key the list does not show, and which so needs t.
fn keeps_root(sheet: &[u64], t: usize, k: usize) -> bool
    requires counts { Counts sheet.now }
    requires k_bound { k < edge_count sheet.now }
    ensures { result ≡ keeps_no sheet.now t k }
{
    let edge = sheet::edge_no(sheet, k);
    edge.promise != 1 || (edge.child == t && !is_listed(sheet, edge.parent, 0))
}

// Whether t has a side table: it has none exactly if Dep+(t) is every other table and t is in no table's Need. Nobody's Dep+ has the root, so
// every other table has one. The root's is every other table if each edge is promised, and a table that needs the root has on its way there
// one that is next to it.
pub fn is_kept(sheet: &[u64], t: usize) -> bool
    requires good_sheet { GoodSheet sheet.now }
    requires t_bound { t < table_count sheet.now }
    ensures { result ≡ kept_no sheet.now t }
{
    let e = sheet::edges(sheet);
    sheet::edge_into(sheet, t) < e || (0..e).any(|k| keeps_root(sheet, t, k))
}

// Whether c is the child column of an edge that leaves t. `change_asked::in_condition` asks the like of conditions: each is one chain over its own records.
pub fn is_child_column(sheet: &[u64], t: usize, c: usize) -> bool
    requires { Counts sheet.now }
    ensures { result ≡ some (leaves_by sheet.now t c) (edge_count sheet.now) }
{
    (0..sheet::edges(sheet)).any(|k| {
        let edge = sheet::edge_no(sheet, k);
        edge.child == t && edge.column == c
    })
}
