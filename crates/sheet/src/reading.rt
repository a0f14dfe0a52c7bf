// A sheet's words, read by number. Nobody else indexes a sheet: what its first word or the place of a run means can be changed here alone.
ghost use Rattle.std.specs.Prelude.{◌≡◌, ℕ, ◌≤◌, ◌<◌};
ghost use Rattle.meaning.specs.Sheet.{table_count, edge_count, condition_count, listed_count, edges_at, conditions_at, listed_at, rooms_at};
ghost use Rattle.sheet.specs.Rules.{Counts};
ghost use Rattle.sheet.specs.Numbered.{width_no, room_no};
ghost use Rattle.sheet.specs.Read.{ReadsEdge, ReadsCondition, ReadsListing};

// The child's column joins the parent's key.
#[derive(Clone, Copy)]
pub struct Edge {
    pub child: usize,
    pub column: usize,
    pub parent: usize,
    pub promise: u64,
}

// lowest <= the column's value <= highest
#[derive(Clone, Copy)]
pub struct Condition {
    pub table: usize,
    pub column: usize,
    pub lowest: u64,
    pub highest: u64,
}

#[derive(Clone, Copy)]
pub struct Listing {
    pub table: usize,
    pub column: usize,
}

// How many tables, edges, conditions and listed columns the sheet has.
pub fn tables(sheet: &[u64]) -> usize
    requires { Counts sheet.now }
    ensures { result ≡ table_count sheet.now }
{
    sheet[0] as usize
}

pub fn edges(sheet: &[u64]) -> usize
    requires { Counts sheet.now }
    ensures { result ≡ edge_count sheet.now }
{
    sheet[1] as usize
}

pub fn conditions(sheet: &[u64]) -> usize
    requires { Counts sheet.now }
    ensures { result ≡ condition_count sheet.now }
{
    sheet[2] as usize
}

pub fn listed(sheet: &[u64]) -> usize
    requires { Counts sheet.now }
    ensures { result ≡ listed_count sheet.now }
{
    sheet[3] as usize
}

// Where each run of words begins: the edges behind the widths, then the conditions, the listed columns and the rooms.
fn edges_at(sheet: &[u64]) -> usize
    requires { Counts sheet.now }
    ensures { result ≡ edges_at sheet.now }
{
    4 + tables(sheet)
}

fn conditions_at(sheet: &[u64]) -> usize
    requires { Counts sheet.now }
    ensures { result ≡ conditions_at sheet.now }
{
    edges_at(sheet) + 4 * edges(sheet)
}

fn listed_at(sheet: &[u64]) -> usize
    requires { Counts sheet.now }
    ensures { result ≡ listed_at sheet.now }
{
    conditions_at(sheet) + 4 * conditions(sheet)
}

fn rooms_at(sheet: &[u64]) -> usize
    requires { Counts sheet.now }
    ensures { result ≡ rooms_at sheet.now }
{
    listed_at(sheet) + 2 * listed(sheet)
}

// How many columns table t has.
pub fn width_no(sheet: &[u64], t: usize) -> usize
    requires counts { Counts sheet.now }
    requires t_bound { t < table_count sheet.now }
    ensures { result ≡ width_no sheet.now t }
{
    sheet[4 + t] as usize
}

pub fn edge_no(sheet: &[u64], k: usize) -> Edge
    requires counts { Counts sheet.now }
    requires k_bound { k < edge_count sheet.now }
    ensures { ReadsEdge sheet.now k result }
{
    let at = edges_at(sheet) + 4 * k;
    Edge {
        child: sheet[at] as usize,
        column: sheet[at + 1] as usize,
        parent: sheet[at + 2] as usize,
        promise: sheet[at + 3],
    }
}

pub fn condition_no(sheet: &[u64], k: usize) -> Condition
    requires counts { Counts sheet.now }
    requires k_bound { k < condition_count sheet.now }
    ensures { ReadsCondition sheet.now k result }
{
    let at = conditions_at(sheet) + 4 * k;
    Condition {
        table: sheet[at] as usize,
        column: sheet[at + 1] as usize,
        lowest: sheet[at + 2],
        highest: sheet[at + 3],
    }
}

pub fn listing_no(sheet: &[u64], k: usize) -> Listing
    requires counts { Counts sheet.now }
    requires k_bound { k < listed_count sheet.now }
    ensures { ReadsListing sheet.now k result }
{
    let at = listed_at(sheet) + 2 * k;
    Listing {
        table: sheet[at] as usize,
        column: sheet[at + 1] as usize,
    }
}

// For how many rows a part has room: table t's, or at n the list's.
pub fn room_no(sheet: &[u64], part: usize) -> usize
    requires counts { Counts sheet.now }
    requires part_bound { part ≤ table_count sheet.now }
    ensures { result ≡ room_no sheet.now part }
{
    sheet[rooms_at(sheet) + part] as usize
}
