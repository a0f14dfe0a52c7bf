// Runs the worked cases on standard input through the real calls. A line of input is
//     # ..                     printed as it stands
//     sheet WORDS              the sheet from here on; a good one brings its store's length, up to 146
//     long N                   another length of the store
//     store WORDS              the store's words; zeros follow
//     every WORD               each word of the store
//     put PLACE WORD           one word of the store
//     fill WORDS               a fill from this base run
//     show N                   a part of the store
//     KIND TABLE M N WORDS     a change: the old row has M words, the new one N
//     largest                  a fill of a store of its own from the largest base run
// A call prints a line: what it is, its number, of a fill and a change also taken and added, and behind bars the words: all that a
// fill leaves, those that show hands back, the changed table's side table and the list, some of the largest store.
#![tactic(auto)]

mod largest;

ghost use Rattle.std.specs.Prelude.{◌<◌, ◌≤◌, length};

use reading::read_full;
use sheet::Refusal;
use store::Done;
use text::Reader;

// What a line that is no comment asks for.
#[derive(Clone, Copy)]
enum Line {
    Sheet,
    Long,
    Store,
    Every,
    Put,
    Fill,
    Show,
    Largest,
    Change,
}

// How many words the sheet has, and the store.
#[derive(Clone, Copy)]
struct Size {
    sheet: usize,
    store: usize,
}

fn read(text: &[u8]) -> Reader {
    Reader::new().take_chunk(text).finish()
}

// The numbers that a text says, 146 at most, and zeros behind them.
fn words_of(text: &[u8]) -> [u64; 146] {
    read(text).words
}

// How many they are.
fn count_of(text: &[u8]) -> usize
    ensures { result ≤ 146 }
{
    read(text).many.min(146)
}

// Writes to standard output. A write that fails is passed over.
fn print(rt: &impl Print, text: &[u8]) {
    let _ = rt.write_all(text);
}

fn print_word(rt: &impl Print, word: u64) {
    let _ = print!(rt; " {word}");
}

fn print_words(rt: &impl Print, words: &[u64]) {
    for word in words {
        print_word(rt, *word);
    }
}

// Words behind a bar.
fn print_part(rt: &impl Print, words: &[u64]) {
    print(rt, b" |");
    print_words(rt, words);
}

// The number, taken and added.
fn print_answer(rt: &impl Print, answer: Result<Done, Refusal>) {
    let done = answer.unwrap_or_default();
    print(rt, b":");
    print_words(rt, &[sheet::number_of(answer), done.taken, done.added]);
}

// The kind is the line's own number, since one that is no kind is printed too.
fn print_kind(rt: &impl Print, kind: u64) {
    match kind {
        1 => print(rt, b"insert"),
        2 => print(rt, b"delete"),
        3 => print(rt, b"update"),
        _ => print(rt, b"no kind"),
    }
}

fn print_shown(rt: &impl Print, sheet: &[u64], store: &[u64], number: u64) {
    let words = store::show(sheet, store, number).unwrap_or_default();
    print_part(rt, words);
}

fn change(
    rt: &impl Print,
    sheet: &[u64],
    store: &mut [u64],
    kind: u64,
    table: u64,
    old: &[u64],
    new: &[u64],
) {
    let answer = change::change(sheet, store, kind, table, old, new);
    print_kind(rt, kind);
    print_word(rt, table);
    print_words(rt, old);
    if kind == 3 {
        print(rt, b" to");
    }
    print_words(rt, new);
    print_answer(rt, answer);
    print_shown(rt, sheet, store, table);
    if 1 <= sheet.len() {
        let list = sheet[0];
        print_shown(rt, sheet, store, list);
    }
}

// The change that these words say.
fn change_of(rt: &impl Print, sheet: &[u64], store: &mut [u64], words: &[u64]) {
    let end = words.len();
    if end < 4 {
        return;
    }
    let kind = words[0];
    let table = words[1];
    let left = (end - 4) as u64;
    if left < words[2] || left - words[2] != words[3] {
        return;
    }
    let middle = 4 + words[2] as usize;
    change(
        rt,
        sheet,
        store,
        kind,
        table,
        &words[4..middle],
        &words[middle..end],
    );
}

fn fill(rt: &impl Print, sheet: &[u64], store: &mut [u64], base: &[u64]) {
    let answer = fill::fill(sheet, base, store);
    print(rt, b"fill");
    print_words(rt, base);
    print_answer(rt, answer);
    print_part(rt, store);
}

fn show(rt: &impl Print, sheet: &[u64], store: &[u64], words: &[u64]) {
    if words.len() < 1 {
        return;
    }
    let number = words[0];
    let part = store::show(sheet, store, number);
    print(rt, b"show");
    print_word(rt, number);
    print(rt, b":");
    print_word(rt, sheet::number_of(part));
    print_part(rt, part.unwrap_or_default());
}

// The counts, the first two rows of the list and its last.
fn print_some(rt: &impl Print, store: &[u64]) {
    if store.len() < 61449 {
        return;
    }
    print_part(rt, &store[0..9]);
    print_part(rt, &store[28681..28697]);
    print_part(rt, &store[61441..61449]);
}

// A function of its own, so that the arrays' lengths need no proof.
fn fill_arrays(rt: &impl Print, sheet: &[u64], base: &mut [u64; 589823], store: &mut [u64; 61449]) {
    largest::put_rows(base);
    let answer = fill::fill(sheet, base, store);
    print(rt, b"largest");
    print_answer(rt, answer);
    print_some(rt, store);
}

fn fill_largest(rt: &impl Print, sheet: &[u64]) {
    let mut base = [65535u64; 589823];
    let mut store = [77u64; 61449];
    fill_arrays(rt, sheet, &mut base, &mut store);
}

fn call(rt: &impl Print, line: Line, sheet: &[u64], store: &mut [u64], words: &[u64]) {
    match line {
        Line::Fill => fill(rt, sheet, store, words),
        Line::Show => show(rt, sheet, store, words),
        Line::Largest => fill_largest(rt, sheet),
        _ => change_of(rt, sheet, store, words),
    }
}

// A call, and its line.
fn call_line(
    rt: &impl Print,
    line: Line,
    numbers: &[u8],
    sheet: &[u64],
    store: &mut [u64],
    size: Size,
) {
    let words = words_of(numbers);
    let many = count_of(numbers);
    let m = size.sheet;
    let n = size.store;
    if sheet.len() < m || store.len() < n {
        return;
    }
    call(rt, line, &sheet[..m], &mut store[..n], &words[..many]);
    print(rt, b"\n");
}

// The length of the store of a good sheet; if there is no room for it, or of any other sheet, the length that was.
fn length_for(sheet: &[u64], was: usize) -> usize {
    match sheet_plan::check(sheet) {
        Ok(plan) if plan.store <= 146 => plan.store,
        _ => was,
    }
}

// Copies as many as there is place for.
fn copy(words: &[u64], to: &mut [u64]) {
    let n = words.len().min(to.len());
    to[..n].copy_from_slice(&words[..n]);
}

fn sheet_line(numbers: &[u8], sheet: &mut [u64], size: Size) -> Size {
    let words = words_of(numbers);
    let many = count_of(numbers);
    copy(&words, sheet);
    let long = length_for(&words[..many], size.store);
    Size {
        sheet: many,
        store: long,
    }
}

fn long_line(numbers: &[u8], size: Size) -> Size {
    let words = words_of(numbers);
    if 146 < words[0] {
        return size;
    }
    Size {
        sheet: size.sheet,
        store: words[0] as usize,
    }
}

fn store_line(numbers: &[u8], store: &mut [u64]) {
    let words = words_of(numbers);
    copy(&words, store);
}

fn every_line(numbers: &[u8], store: &mut [u64]) {
    store.fill(words_of(numbers)[0]);
}

fn put_line(numbers: &[u8], store: &mut [u64]) {
    let words = words_of(numbers);
    if store.len() as u64 <= words[0] {
        return;
    }
    store[words[0] as usize] = words[1];
}

// Gives the lengths after it.
fn run_line(
    rt: &impl Print,
    line: Line,
    numbers: &[u8],
    sheet: &mut [u64],
    store: &mut [u64],
    size: Size,
) -> Size {
    match line {
        Line::Sheet => return sheet_line(numbers, sheet, size),
        Line::Long => return long_line(numbers, size),
        Line::Store => store_line(numbers, store),
        Line::Every => every_line(numbers, store),
        Line::Put => put_line(numbers, store),
        _ => call_line(rt, line, numbers, sheet, store, size),
    }
    size
}

// The word that a line begins with says its kind.
fn kind_of(line: &[u8]) -> Line {
    let words: [(&[u8], Line); 8] = [
        (b"sheet", Line::Sheet),
        (b"long", Line::Long),
        (b"store", Line::Store),
        (b"every", Line::Every),
        (b"put", Line::Put),
        (b"fill", Line::Fill),
        (b"show", Line::Show),
        (b"largest", Line::Largest),
    ];
    for (word, kind) in &words {
        if line.starts_with(word) {
            return *kind;
        }
    }
    Line::Change
}

// Where the letters that a line begins with end.
fn letters_end(line: &[u8]) -> usize
    ensures { result ≤ length line.now }
{
    line.iter()
        .position(|&letter| letter < b'a')
        .unwrap_or(line.len())
}

fn comment_or_line(
    rt: &impl Print,
    line: &[u8],
    sheet: &mut [u64],
    store: &mut [u64],
    size: Size,
) -> Size {
    if line.starts_with(b"#") {
        print(rt, line);
        print(rt, b"\n");
        return size;
    }
    let (word, numbers) = line.split_at(letters_end(line));
    run_line(rt, kind_of(word), numbers, sheet, store, size)
}

fn run(rt: &impl Print, text: &[u8], sheet: &mut [u64], store: &mut [u64]) {
    let mut size = Size { sheet: 0, store: 0 };
    for line in text.split_inclusive(|&byte| byte == b'\n') {
        let line = line.strip_suffix(b"\n").unwrap_or(line);
        size = comment_or_line(rt, line, sheet, store, size);
    }
}

fn main(rt: HostRuntime) {
    let mut text = [0u8; 32768];
    let mut sheet = [0u64; 146];
    let mut store = [0u64; 146];
    let n = read_full(&mut rt.reader(), &mut text);
    run(&rt, &text[..n], &mut sheet, &mut store);
}
