// The largest base run of eight tables whose root has two columns and whose other tables have one: 65,535 rows in each.
ghost use Rattle.std.specs.Prelude.{◌<◌, ◌≤◌, length};

// 65,535 keys in no order, any two of them alike in their low 32 bits.
fn barcode(i: usize) -> u64
    requires { i < 65535 }
{
    let k = i * 28657 % 65535;
    31234000000001 + 4294967296 * k as u64
}

// The i-th word behind the counts: the root's rows refer to their own key, and the other tables' keys come the other way round.
fn word(i: usize) -> u64 {
    if i < 131070 {
        return barcode(i / 2);
    }
    barcode(65534 - i % 65535)
}

// Puts the rows behind the eight counts.
pub fn put_rows(base: &mut [u64]) {
    for i in 8..base.len() {
        base[i] = word(i - 8);
    }
}
