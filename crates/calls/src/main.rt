// Answers calls that come as words on standard input, one after another, until it ends. docs/CALLS.md has the layout.
#![tactic(auto)]

ghost use Rattle.std.specs.Prelude.{◌+◌, ◌*◌, ◌≤◌, length};

use reading::read_full;
use std::io::Read;

// How a call went: answered, or no call is left, or what is wrong with the input.
#[derive(Clone, Copy)]
enum Step {
    Answered,
    Ended,
    Short,
    Long,
    Unknown,
    Unwritten,
}

// A call's runs.
#[derive(Drop)]
struct Runs<'a> {
    sheet: &'a mut [u64],
    base: &'a mut [u64],
    store: &'a mut [u64],
    old: &'a mut [u64],
    new: &'a mut [u64],
}

// Words are read and written as bytes through a buffer of so many.
const BYTES: usize = 32768;

// The words that the bytes say, eight bytes each, the lowest first.
fn decode(bytes: &[u8], words: &mut [u64])
    requires { 8 * length words.old ≤ length bytes.now }
{
    let mut eight = [0u8; 8];
    for (i, word) in words.iter_mut().enumerate() {
        eight.copy_from_slice(&bytes[8 * i..8 * i + 8]);
        *word = u64::from_le_bytes(eight);
    }
}

fn encode(words: &[u64], bytes: &mut [u8])
    requires { 8 * length words.now ≤ length bytes.old }
{
    for (i, word) in words.iter().enumerate() {
        bytes[8 * i..8 * i + 8].copy_from_slice(&word.to_le_bytes());
    }
}

// Reads as many words as there is place for. False if the input ends before.
fn read_words(input: &mut impl Read, bytes: &mut [u8; BYTES], words: &mut [u64]) -> bool {
    for part in words.chunks_mut(BYTES / 8) {
        let n = 8 * part.len();
        if read_full(input, &mut bytes[..n]) < n {
            return false;
        }
        decode(bytes, part);
    }
    true
}

fn write_words(rt: &impl Print, bytes: &mut [u8; BYTES], words: &[u64]) -> bool {
    for part in words.chunks(BYTES / 8) {
        encode(part, bytes);
        if rt.write_all(&bytes[..8 * part.len()]).is_err() {
            return false;
        }
    }
    true
}

// Writes an outcome: the call's number, two words of its answer, how many words follow, and these.
fn reply(
    rt: &impl Print,
    bytes: &mut [u8; BYTES],
    number: u64,
    a: u64,
    b: u64,
    words: &[u64],
) -> Step {
    let head = [number, a, b, words.len() as u64];
    if write_words(rt, bytes, &head) && write_words(rt, bytes, words) {
        Step::Answered
    } else {
        Step::Unwritten
    }
}

fn reply_plan(rt: &impl Print, bytes: &mut [u8; BYTES], sheet: &[u64]) -> Step {
    let mut answer = [0u64; 220];
    let number = oratjolet::oratjolet_plan(sheet, &mut answer);
    reply(rt, bytes, number, 0, 0, &answer)
}

fn reply_fill(rt: &impl Print, bytes: &mut [u8; BYTES], runs: Runs) -> Step {
    let Runs {
        sheet,
        base,
        store,
        ..
    } = runs;
    let mut taken: u64 = 0;
    let mut added: u64 = 0;
    let number = oratjolet::oratjolet_fill(sheet, base, store, &mut taken, &mut added);
    reply(rt, bytes, number, taken, added, store)
}

// The kind goes to the call as it came in, whatever it is.
fn reply_change(
    rt: &impl Print,
    bytes: &mut [u8; BYTES],
    runs: Runs,
    kind: u64,
    table: u64,
) -> Step {
    let Runs {
        sheet,
        store,
        old,
        new,
        ..
    } = runs;
    let mut taken: u64 = 0;
    let mut added: u64 = 0;
    let number = oratjolet::oratjolet_change(
        sheet, store, kind, table, old, new, &mut taken, &mut added,
    );
    reply(rt, bytes, number, taken, added, store)
}

fn reply_show(rt: &impl Print, bytes: &mut [u8; BYTES], runs: &Runs, part: u64) -> Step {
    let mut first: u64 = 0;
    let mut count: u64 = 0;
    let number = oratjolet::oratjolet_show(runs.sheet, runs.store, part, &mut first, &mut count);
    reply(rt, bytes, number, first, count, runs.store)
}

// Reads the runs of a call whose head has been read. False if the input ends before.
fn read_runs(input: &mut impl Read, bytes: &mut [u8; BYTES], runs: &mut Runs) -> bool {
    read_words(input, bytes, runs.sheet)
        && read_words(input, bytes, runs.base)
        && read_words(input, bytes, runs.store)
        && read_words(input, bytes, runs.old)
        && read_words(input, bytes, runs.new)
}

fn answer(rt: &impl Print, head: [u64; 8], bytes: &mut [u8; BYTES], runs: Runs) -> Step {
    match head[0] {
        1 => reply_plan(rt, bytes, runs.sheet),
        2 => reply_fill(rt, bytes, runs),
        3 => reply_change(rt, bytes, runs, head[6], head[7]),
        4 => reply_show(rt, bytes, &runs, head[6]),
        0 | 5..=u64::MAX => Step::Unknown,
    }
}

// Reads the runs of a call, as long as its head says, and answers it.
// The room comes slice by slice: cut out of a struct that is itself lent, five slices at once have no rule in the borrow checker.
fn read_and_answer(
    rt: &impl Print,
    input: &mut impl Read,
    head: [u64; 8],
    bytes: &mut [u8; BYTES],
    sheet: &mut [u64],
    base: &mut [u64],
    store: &mut [u64],
    old: &mut [u64],
    new: &mut [u64],
) -> Step {
    let s = head[1] as usize;
    let b = head[2] as usize;
    let t = head[3] as usize;
    let o = head[4] as usize;
    let n = head[5] as usize;
    if sheet.len() < s || base.len() < b || store.len() < t || old.len() < o || new.len() < n {
        return Step::Long;
    }
    let mut runs = Runs {
        sheet: &mut sheet[..s],
        base: &mut base[..b],
        store: &mut store[..t],
        old: &mut old[..o],
        new: &mut new[..n],
    };
    if read_runs(input, bytes, &mut runs) {
        answer(rt, head, bytes, runs)
    } else {
        Step::Short
    }
}

// Reads a call and answers it.
fn one_call(
    rt: &impl Print,
    input: &mut impl Read,
    bytes: &mut [u8; BYTES],
    room: &mut Runs,
) -> Step {
    let mut head = [0u64; 8];
    let mut space = [0u8; 64];
    match read_full(input, &mut space) {
        0 => Step::Ended,
        64 => {
            decode(&space, &mut head);
            read_and_answer(
                rt, input, head, bytes, room.sheet, room.base, room.store, room.old, room.new,
            )
        }
        _ => Step::Short,
    }
}

// A proved loop has to end, and nothing says that the input does: so the turns are counted down, from a number that no run uses up.
fn serve(rt: &impl Print, input: &mut impl Read, bytes: &mut [u8; BYTES], room: &mut Runs) -> Step {
    for _ in 0..u64::MAX {
        let step = one_call(rt, input, bytes, room);
        if !matches!(step, Step::Answered) {
            return step;
        }
    }
    Step::Ended
}

// A failed write is passed over, since nothing is left to be told.
fn complain(rt: &impl Eprint, text: &str) {
    let _ = eprintln!(rt; "calls: {text}");
}

// The largest of each run: a sheet of 1,024 words, base tables of 131,072, a store of 196,608, rows of 64. Every good store fits, not every base run.
fn main(rt: HostRuntime) {
    let mut bytes = [0u8; BYTES];
    let mut sheet = [0u64; 1024];
    let mut base = [0u64; 131072];
    let mut store = [0u64; 196608];
    let mut old = [0u64; 64];
    let mut new = [0u64; 64];
    let mut room = Runs {
        sheet: &mut sheet,
        base: &mut base,
        store: &mut store,
        old: &mut old,
        new: &mut new,
    };
    let step = serve(&rt, &mut rt.reader(), &mut bytes, &mut room);
    match step {
        Step::Answered | Step::Ended => {}
        Step::Short => complain(&rt, "the input ends within a call"),
        Step::Long => complain(&rt, "a run is longer than this program has room for"),
        Step::Unknown => complain(&rt, "no such call"),
        Step::Unwritten => complain(&rt, "standard output takes no more"),
    }
}
