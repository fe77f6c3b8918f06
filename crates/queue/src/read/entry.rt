// An entry: what the calls tell of a record.
ghost use Rattle.std.specs.Prelude.{◌≡◌, ◌+◌, ◌<◌, ◌≤◌, length};
ghost use Rattle.queue.specs.read.ReadingAs.{entry_len_value, EntryIn, entry_at};
ghost use Rattle.queue.specs.bytes.PutAs.{Put};

use crate::bytes::put::{copy_part, put_be};
use crate::layout::frame::Seen;

// How long the entry of a record is.
pub fn entry_len(x: Seen) -> usize
    requires { (1 ≤ x.mark) × (x.mark ≤ 400) × (x.facts.ins < 65536) × (x.facts.reads < 65536) }
    ensures { (result ≡ entry_len_value x) × (result < 4294967296) }
{
    let f = x.facts;
    let n = f.ins * 32 + f.reads * 32;
    x.mark - 1 + (4 + n as usize)
}

// The entry of the record read at base: the frame from its id to its place, the inputs and the read ids.
pub fn put_entry(src: &[u8], base: usize, x: Seen, dst: &mut [u8], at: usize) -> usize
    requires { EntryIn src.now base x × (at + entry_len_value x ≤ length dst.old) }
    ensures { Put dst.old at (entry_at src.now base x) (entry_len_value x) result dst.new }
{
    let f = x.facts;
    let n = f.ins * 32;
    let m = f.reads * 32;
    let i = base + x.at;
    let j = base + x.reads;
    let a = copy_part(src, base + 1, x.mark - 1, dst, at);
    let b = put_be(dst, a, 2, f.ins);
    let c = copy_part(src, i, n as usize, dst, b);
    let d = put_be(dst, c, 2, f.reads);
    copy_part(src, j, m as usize, dst, d)
}
