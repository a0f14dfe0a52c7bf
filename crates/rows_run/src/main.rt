// Runs barcodes that differ by 4,294,967,296, the value 2^64 - 1 and equal rows through regions, through the sorts and through an order by key,
// and writes what stands there after each step.
#![tactic(auto)]

ghost use Rattle.std.specs.Prelude.{◌≡◌, ◌*◌, ◌/◌, ◌≤◌, length};
ghost use Rattle.rows.specs.Regions.{Region};
ghost use Rattle.rows.specs.Marks.{Run};
ghost use Rattle.key_order.specs.Orders.{InKeyOrder};

use key_order::{find_in_order, no_key_twice, order_by_key};
use sorting::{settle, sort_rows};

// A barcode, the one that differs from it in the upper 32 bits alone, that difference, and the greatest word.
const CODE: u64 = 31234000000001;

const TWIN: u64 = 31238294967297;

const STEP: u64 = 4294967296;

const LAST: u64 = 18446744073709551615;

// What is written goes to standard output. A write that fails is passed over.
fn word(rt: &impl Print, n: u64) {
    let _ = print!(rt; "{n} ");
}

fn end(rt: &impl Print) {
    let _ = rt.println("");
}

// The words of s on one line.
fn show(rt: &impl Print, s: &[u64]) {
    for n in s {
        word(rt, *n);
    }
    end(rt);
}

fn wide(r: u16) -> u64 {
    r as u64
}

fn show_numbers(rt: &impl Print, order: &[u16]) {
    for r in order {
        word(rt, wide(*r));
    }
    end(rt);
}

// A name and a number on one line.
fn say(rt: &impl Print, name: &str, n: u64) {
    let _ = println!(rt; "{name} {n}");
}

// Where a row was found; 99 if it is missing.
fn number(f: Option<usize>) -> u64 {
    match f {
        Some(i) => i as u64,
        None => 99,
    }
}

fn bit(b: bool) -> u64 {
    if b { 1 } else { 0 }
}

// Four rows of two words, put in out of order: the greatest is 2^64 - 1 in both.
fn put_barcodes(rt: &impl Print, s: &mut [u64])
    requires s_len { length s.old ≡ 10 }
    requires region { Region 2 0 s.old }
    ensures { Region 2 4 s.new }
{
    rows::put(s, 2, 0, &[TWIN, 7]);
    rows::put(s, 2, 1, &[LAST, LAST]);
    rows::put(s, 2, 2, &[CODE, 8]);
    rows::put(s, 2, 3, &[CODE, 7]);
    show(rt, s);
}

fn find_barcodes(rt: &impl Print, s: &[u64])
    requires { Region 2 4 s.now }
{
    say(rt, "place", rows::place(s, 2, 4, &[CODE, 9]) as u64);
    say(rt, "found", number(rows::find(s, 2, 4, &[TWIN, 7])));
    say(rt, "found", number(rows::find(s, 2, 4, &[TWIN, 8])));
}

fn find_keys(rt: &impl Print, s: &[u64])
    requires { Region 2 4 s.now }
{
    say(rt, "key", number(rows::find_key(s, 2, 4, LAST)));
    say(rt, "key", number(rows::find_key(s, 2, 4, STEP - 1)));
}

// Rows may be equal or have one key in a list, and not in a side table.
fn test_rooms(rt: &impl Print, s: &[u64], count: usize)
    requires { length s.now ≡ 10 }
{
    say(rt, "sound list", bit(rows::sound_region(s, 2, 5, count)));
    say(rt, "sound side", bit(rows::sound_side(s, 2, 5, count)));
}

fn take_barcode(rt: &impl Print, s: &mut [u64])
    requires s_len { length s.old ≡ 10 }
    requires region { Region 2 4 s.old }
{
    let left = rows::take(s, 2, 4, &[CODE, 8]);
    say(rt, "left", left as u64);
    show(rt, s);
    test_rooms(rt, s, left);
}

fn barcodes(rt: &impl Print) {
    let mut s: [u64; 10] = [0; 10];
    put_barcodes(rt, &mut s);
    find_barcodes(rt, &s);
    find_keys(rt, &s);
    test_rooms(rt, &s, 4);
    test_rooms(rt, &s, 3);
    test_rooms(rt, &s, 6);
    take_barcode(rt, &mut s);
}

// Five rows of one word, three of them equal.
fn put_equals(s: &mut [u64])
    requires s_len { length s.old ≡ 6 }
    requires region { Region 1 0 s.old }
    ensures { Region 1 5 s.new }
{
    rows::put(s, 1, 0, &[5]);
    rows::put(s, 1, 1, &[5]);
    rows::put(s, 1, 2, &[LAST]);
    rows::put(s, 1, 3, &[5]);
    rows::put(s, 1, 4, &[0]);
}

// Marks a row that equals x, and returns how many are marked.
fn mark_word(
    rt: &impl Print,
    s: &[u64],
    count: usize,
    x: u64,
    numbers: &mut [u16],
    many: usize,
) -> usize
    requires region { Region 1 count s.now }
    requires run { Run count numbers.old many }
    ensures { Run count numbers.new result }
{
    let more = rows::mark(s, 1, count, &[x], numbers, many);
    say(rt, "marked", bit(more));
    if more {
        return many + 1;
    }
    many
}

// Two rows that equal 5 are left to be marked, and none that equals 7.
fn mark_words(rt: &impl Print, s: &[u64], count: usize, numbers: &mut [u16]) -> usize
    requires region { Region 1 count s.now }
    requires run { Run count numbers.old 0 }
    ensures { Run count numbers.new result }
{
    let first = mark_word(rt, s, count, 5, numbers, 0);
    let second = mark_word(rt, s, count, 5, numbers, first);
    let third = mark_word(rt, s, count, 5, numbers, second);
    mark_word(rt, s, count, 7, numbers, third)
}

// One of the equal rows leaves, then two more in one pass.
fn take_equals(rt: &impl Print, s: &mut [u64], numbers: &mut [u16])
    requires s_len { length s.old ≡ 6 }
    requires numbers_len { length numbers.old ≡ 6 }
    requires region { Region 1 5 s.old }
{
    let left = rows::take(s, 1, 5, &[5]);
    let many = mark_words(rt, s, left, numbers);
    rows::take_marked(s, 1, left, &numbers[..many]);
    say(rt, "left", left as u64);
    say(rt, "left", (left - many) as u64);
}

fn equals(rt: &impl Print) {
    let mut s: [u64; 6] = [0; 6];
    let mut numbers: [u16; 6] = [0; 6];
    put_equals(&mut s);
    show(rt, &s);
    say(rt, "equal", rows::count_equal(&s, 1, 5, &[5]) as u64);
    take_equals(rt, &mut s, &mut numbers);
    show(rt, &s);
}

// Six rows of two words; the seventh stays where it is.
fn by_heap(rt: &impl Print) {
    let mut s: [u64; 14] = [TWIN, 7, LAST, 0, CODE, 8, CODE, 7, STEP, 1, 0, LAST, 0, 0];
    sort_rows(&mut s, 2, 6);
    show(rt, &s);
}

// Five rows of three words: three stand, and the two behind them, the last of which belongs in front of all, come in.
fn by_merge(rt: &impl Print) {
    let mut s: [u64; 15] = [1, 1, 1, 2, 0, LAST, STEP + 1, 0, 0, 1, 1, 1, 1, 1, 0];
    settle(&mut s, 3, 3, 5);
    show(rt, &s);
}

// Rows of no words, no rows, and rows of one word: a few, and many that fall.
fn narrow(rt: &impl Print) {
    let mut s: [u64; 5] = [3, 1, 4, 0, 2];
    sort_rows(&mut s, 0, 100);
    settle(&mut s, 5, 0, 0);
    show(rt, &s);
    settle(&mut s, 1, 0, 5);
    show(rt, &s);
    let mut falling: [u64; 18] = [
        18, 17, 16, 15, 14, 13, 12, 11, 10, 9, 8, 7, 6, 5, 4, 3, 2, 1,
    ];
    settle(&mut falling, 1, 0, 18);
    show(rt, &falling);
}

// The place of key k in order; 99 if it is missing.
fn look(rt: &impl Print, words: &[u64], order: &[u16], k: u64)
    requires order_in_bounds { length order.now * 2 ≤ length words.now }
    requires in_key_order { InKeyOrder words.now 2 order.now }
{
    word(rt, number(find_in_order(words, 2, order, k)));
}

fn look_up(rt: &impl Print, words: &[u64], order: &[u16])
    requires order_in_bounds { length order.now * 2 ≤ length words.now }
    requires in_key_order { InKeyOrder words.now 2 order.now }
{
    look(rt, words, order, TWIN);
    look(rt, words, order, CODE);
    look(rt, words, order, LAST);
    look(rt, words, order, STEP - 1);
    look(rt, words, order, 0);
    end(rt);
    if no_key_twice(words, 2, order) {
        let _ = rt.println("no key twice");
    } else {
        let _ = rt.println("a key twice");
    }
}

// The numbers of the rows of two words in the order of their keys, and where some keys stand.
fn by_key(rt: &impl Print, words: &[u64], order: &mut [u16], spare: &mut [u16])
    requires order_in_bounds { length order.old * 2 ≤ length words.now }
    requires order_len_bound { length order.old ≤ 65536 }
    requires order_in_bounds_2 { length order.old / 2 ≤ length spare.old }
{
    order_by_key(words, 2, order, spare);
    show_numbers(rt, order);
    look_up(rt, words, order);
}

fn numbers(rt: &impl Print) {
    let words: [u64; 12] = [TWIN, 0, CODE, 1, LAST, 2, 7, 3, STEP, 4, 0, 5];
    let mut order: [u16; 6] = [9; 6];
    let mut spare: [u16; 3] = [9; 3];
    by_key(rt, &words, &mut order, &mut spare);
}

// The first row and the last have one key.
fn twice(rt: &impl Print) {
    let words: [u64; 10] = [TWIN, 0, STEP, 1, 0, 2, CODE, 3, TWIN, 4];
    let mut order: [u16; 5] = [9; 5];
    let mut spare: [u16; 2] = [9; 2];
    by_key(rt, &words, &mut order, &mut spare);
}

fn main(rt: HostRuntime) {
    barcodes(&rt);
    equals(&rt);
    by_heap(&rt);
    by_merge(&rt);
    narrow(&rt);
    numbers(&rt);
    twice(&rt);
}
