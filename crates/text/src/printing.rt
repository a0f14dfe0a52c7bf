// The text of a plan, written into a lent buffer.
ghost use Rattle.std.specs.Prelude.{◌≡◌, ◌++◌, ℕ, ◌+◌, ◌*◌, ◌≤◌, ◌<◌, ltb, length};
ghost use Rattle.text.specs.Printing.{decimal, member_text, set_text, head_text, refused_text, plan_text};
ghost use Rattle.meaning.specs.Limits.{most_tables};
ghost use Rattle.meaning.specs.Plan.{plan};
ghost use Rattle.sheet_plan.specs.Marks.{marked_in};
ghost use Rattle.text.specs.Laid.{sets_in, line_of, lines_in, answer_text};
ghost use Rattle.text.specs.Writing.{page, PutAt};

use plan_answer::PlanAnswer;

// Writes the items from `at` on, and answers where they end.
pub fn put<T: Copy>(items: &[T], out: &mut [T], at: usize) -> usize
    requires { at + length items.now ≤ length out.old }
    ensures { PutAt out.old at items.now out.new result }
{
    let end = at + items.len();
    out[at..end].copy_from_slice(items);
    end
}

// Writes a number's digits, at most 20.
fn put_number(n: u64, out: &mut [u8], at: usize) -> usize
    requires { at + 20 ≤ length out.old }
    ensures put_at { PutAt out.old at (decimal n) out.new result }
    ensures upper_bound { result ≤ at + 20 }
{
    if n < 10 {
        out[at] = b'0' + n as u8;
        return at + 1;
    }
    let end = put_number(n / 10, out, at);
    out[end] = b'0' + (n % 10) as u8;
    end + 1
}

// Writes one number of a set that begins at `from`: after a comma, unless it is the first.
fn put_member(x: u8, out: &mut [u8], from: usize, at: usize) -> usize
    requires x_bound { x < 10 }
    requires at_in_bounds { at + 2 ≤ length out.old }
    ensures { PutAt out.old at (member_text (ltb from at) x) out.new result }
{
    if from < at {
        out[at] = b',';
        out[at + 1] = b'0' + x;
        return at + 2;
    }
    out[at] = b'0' + x;
    at + 1
}

// Writes the numbers that row t of the marks has, or `-` for none.
fn put_set(marks: &[u64], t: usize, out: &mut [u8], at: usize) -> usize
    requires t_in_bounds { 8 * t + 8 ≤ length marks.now }
    requires at_in_bounds { at + 16 ≤ length out.old }
    ensures put_at { PutAt out.old at (set_text (marked_in marks.now t)) out.new result }
    ensures upper_bound { result ≤ at + 16 }
{
    let mut end = at;
    for x in 0..8u8 {
        if marks[8 * t + x as usize] == 1 {
            end = put_member(x, out, at, end);
        }
    }
    if end == at {
        out[at] = b'-';
        return at + 1;
    }
    end
}

// Writes what a number is called, and the number.
fn put_field(name: &[u8], n: u64, out: &mut [u8], at: usize) -> usize
    requires name_len_bound { length name.now ≤ 8 }
    requires at_in_bounds { at + 28 ≤ length out.old }
    ensures put_at { PutAt out.old at (name.now ++ decimal n) out.new result }
    ensures upper_bound { result ≤ at + 28 }
{
    let end = put(name, out, at);
    put_number(n, out, end)
}

// Writes what a set is called, and the set.
fn put_named(name: &[u8], marks: &[u64], t: usize, out: &mut [u8], at: usize) -> usize
    requires t_in_bounds { 8 * t + 8 ≤ length marks.now }
    requires name_len_bound { length name.now ≤ 6 }
    requires at_in_bounds { at + 22 ≤ length out.old }
    ensures put_at { PutAt out.old at (name.now ++ set_text (marked_in marks.now t)) out.new result }
    ensures upper_bound { result ≤ at + 22 }
{
    let end = put(name, out, at);
    put_set(marks, t, out, end)
}

fn put_sets(answer: &PlanAnswer, t: usize, out: &mut [u8], at: usize) -> usize
    requires t_bound { t < most_tables }
    requires at_in_bounds { at + 66 ≤ length out.old }
    ensures put_at { PutAt out.old at (sets_in answer.now t) out.new result }
    ensures upper_bound { result ≤ at + 66 }
{
    let a = put_named(b" cols ", &answer.columns, t, out, at);
    let b = put_named(b" dep ", &answer.dep, t, out, a);
    put_named(b" need ", &answer.need, t, out, b)
}

// Writes table t's line.
fn put_line(answer: &PlanAnswer, t: usize, out: &mut [u8], at: usize) -> usize
    requires t_bound { t < most_tables }
    requires at_in_bounds { at + 115 ≤ length out.old }
    ensures put_at { PutAt out.old at (line_of answer.now t) out.new result }
    ensures upper_bound { result ≤ at + 115 }
{
    let a = put_number(t as u64, out, at);
    let b = put_field(b" kept ", answer.kept[t], out, a);
    let c = put_sets(answer, t, out, b);
    put(b"\n", out, c)
}

fn put_head(root: u64, store: u64, out: &mut [u8], at: usize) -> usize
    requires { at + 57 ≤ length out.old }
    ensures put_at { PutAt out.old at (head_text root store) out.new result }
    ensures upper_bound { result ≤ at + 57 }
{
    let a = put_field(b"root ", root, out, at);
    let b = put_field(b" store ", store, out, a);
    put(b"\n", out, b)
}

fn put_refused(number: u64, out: &mut [u8], at: usize) -> usize
    requires { at + 29 ≤ length out.old }
    ensures put_at { PutAt out.old at (refused_text number) out.new result }
    ensures upper_bound { result ≤ at + 29 }
{
    let a = put_field(b"refused ", number, out, at);
    put(b"\n", out, a)
}

// Writes the tables' lines.
fn put_lines(answer: &PlanAnswer, out: &mut [u8], at: usize) -> usize
    requires tables_le_most_tables { answer.now.tables ≤ most_tables }
    requires tables_in_bounds { at + 115 * answer.now.tables ≤ length out.old }
    ensures put_at { PutAt out.old at (lines_in answer.now) out.new result }
    ensures upper_bound { result ≤ at + 115 * answer.now.tables }
{
    let mut end = at;
    for t in 0..answer.tables {
        end = put_line(answer, t, out, end);
    }
    end
}

// There is room in a page for the text of every plan.
pub const PAGE: usize = 1024;

// Writes the text of a plan: 57 bytes at most, and 115 for each of eight tables.
fn put_plan(a: PlanAnswer, out: &mut [u8]) -> usize
    requires tables_le_most_tables { a.tables ≤ most_tables }
    requires page_in_bounds { page ≤ length out.old }
    ensures put_at { PutAt out.old 0 (answer_text a) out.new result }
    ensures upper_bound { result ≤ page }
{
    let end = put_head(a.root as u64, a.store as u64, out, 0);
    put_lines(&a, out, end)
}

// Writes the plan of any words, or `refused` and the number. There is room for every plan.
pub fn put_plan_of(sheet: &[u64], out: &mut [u8; PAGE]) -> usize
    ensures put_at { PutAt out.old 0 (plan_text (plan sheet.now)) out.new result }
    ensures upper_bound { result ≤ page }
{
    match plan_answer::plan_of(sheet) {
        Ok(a) => put_plan(a, out),
        Err(refusal) => put_refused(u64::from(refusal), out, 0),
    }
}

// Writes the refusal of a text that isn't such numbers.
pub fn put_unread(out: &mut [u8; PAGE]) -> usize
    ensures put_at { PutAt out.old 0 (refused_text 1) out.new result }
    ensures upper_bound { result ≤ page }
{
    put_refused(1, out, 0)
}
