// Refusal 3: whether the edges are a tree.
ghost use Rattle.std.specs.Prelude.{◌≡◌, ℕ, ◌<◌};
ghost use Rattle.lists.specs.Loops.{every, first};
ghost use Rattle.meaning.specs.Sheet.{table_count, edge_count, sheet_of, good_tree};
ghost use Rattle.sheet.specs.Counted.{counted};
ghost use Rattle.sheet.specs.Rules.{Counts, Rules};
ghost use Rattle.sheet.specs.Tree.{goes_no, one_into, root_no, reached_no, Joined};

use crate::reading::{edge_no, edges, tables};

// How many edges go into table t.
fn edges_into(sheet: &[u64], t: usize) -> usize
    requires { Counts sheet.now }
    ensures { result ≡ counted (goes_no sheet.now t) (edge_count sheet.now) }
{
    (0..edges(sheet))
        .filter(|&k| edge_no(sheet, k).parent == t)
        .count()
}

// The edge into table t, or e where there is none: a number, as the definition `first` answers it. By a `for`, for speed, as `listing_of`.
pub fn edge_into(sheet: &[u64], t: usize) -> usize
    requires { Counts sheet.now }
    ensures { result ≡ first (goes_no sheet.now t) (edge_count sheet.now) }
{
    let e = edges(sheet);
    for k in 0..e {
        if edge_no(sheet, k).parent == t {
            return k;
        }
    }
    e
}

// Whether each table has at most one edge into it.
fn one_into_each(sheet: &[u64]) -> bool
    requires { Counts sheet.now }
    ensures { result ≡ every (one_into sheet.now) (table_count sheet.now) }
{
    (0..tables(sheet)).all(|t| edges_into(sheet, t) <= 1)
}

// How many tables have no edge into them.
fn roots(sheet: &[u64]) -> usize
    requires { Counts sheet.now }
    ensures { result ≡ counted (root_no sheet.now) (table_count sheet.now) }
{
    (0..tables(sheet))
        .filter(|&t| edges_into(sheet, t) == 0)
        .count()
}

// Whether table t is reached from the root in at most `left` edges: each step leaves one edge less to walk.
fn is_reached(sheet: &[u64], t: usize, left: usize) -> bool
    requires { Joined sheet.now × (t < table_count sheet.now) }
    ensures { result ≡ reached_no sheet.now left t }
{
    let k = edge_into(sheet, t);
    if edges(sheet) <= k {
        return true;
    }
    if left == 0 {
        return false;
    }
    let edge = edge_no(sheet, k);
    is_reached(sheet, edge.child, left - 1)
}

fn all_reached(sheet: &[u64]) -> bool
    requires { Joined sheet.now }
    ensures { result ≡ every (reached_no sheet.now (edge_count sheet.now)) (table_count sheet.now) }
{
    let e = edges(sheet);
    (0..tables(sheet)).all(|t| is_reached(sheet, t, e))
}

// Each table but one has exactly one edge into it, that one has none, and every table is reached from it.
pub fn tree_ok(sheet: &[u64]) -> bool
    requires { Rules sheet.now }
    ensures { result ≡ good_tree (sheet_of sheet.now) }
{
    roots(sheet) == 1 && one_into_each(sheet) && all_reached(sheet)
}
