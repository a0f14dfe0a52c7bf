// Prints the plan of the sheet that standard input says, or `refused` and the number.
#![tactic(auto)]

use std::io;
use std::io::Read;
use text::Reader;

// A proved loop has to end, and nothing says that the input does: so the turns are counted down, from a number that no run uses up.
fn read_all(input: &mut impl Read) -> io::Result<Reader> {
    let mut reader = Reader::new();
    let mut bytes = [0u8; 65536];
    for _ in 0..u64::MAX {
        let n = input.read(&mut bytes)?;
        if n == 0 {
            break;
        }
        reader = reader.take_chunk(&bytes[..n]);
    }
    Ok(reader)
}

// A failed read or write is the error that it returns.
fn main(rt: HostRuntime) -> io::Result<()> {
    let reader = read_all(&mut rt.reader())?;
    let mut out = [0u8; text::PAGE];
    let n = text::reply(reader, &mut out);
    rt.write_all(&out[..n])
}
