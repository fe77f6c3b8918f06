// Writers: each returns the position after what it wrote.
ghost use Rattle.std.specs.Prelude.{◌≡◌, ◌+◌, ◌-◌, ◌*◌, ◌<◌, ◌≤◌, [], ◌∷◌, length, take, drop, replicate};
ghost use Rattle.queue.specs.Hex.{dig_of, text_of};
ghost use Rattle.queue.specs.bytes.PutAs.{be_last, Put};

use crate::bytes::view::View;

/// A byte.
pub fn put_u8(dst: &mut [u8], at: usize, x: u8) -> usize
    requires { at + 1 ≤ length dst.old }
    ensures { Put dst.old at (x ∷ []) 1 result dst.new }
{
    dst[at] = x;
    at + 1
}

/// A number in n bytes, the highest first.
pub fn put_be(dst: &mut [u8], at: usize, n: usize, x: u64) -> usize
    requires { at + n ≤ length dst.old }
    ensures { Put dst.old at (be_last n x) n result dst.new }
{
    let mut v = x;
    for i in (0..n).rev() {
        dst[at + i] = (v % 256) as u8;
        v /= 256;
    }
    at + n
}

/// The n bytes of src from `from` on.
// Kept: a writer, which returns the place behind what it wrote.
pub fn copy_part(src: &[u8], from: usize, n: usize, dst: &mut [u8], at: usize) -> usize
    requires read { from + n ≤ length src.now }
    requires written { at + n ≤ length dst.old }
    ensures { Put dst.old at (take n (drop from src.now)) n result dst.new }
{
    dst[at..at + n].copy_from_slice(&src[from..from + n]);
    at + n
}

/// An id.
pub fn put_id(dst: &mut [u8], at: usize, id: [u8; 32]) -> usize
    requires { at + 32 ≤ length dst.old }
    ensures { Put dst.old at id 32 result dst.new }
{
    dst[at..at + 32].copy_from_slice(&id);
    at + 32
}

/// Zeros.
pub fn fill_zero(dst: &mut [u8], from: usize, to: usize) -> usize
    requires order { from ≤ to }
    requires inside { to ≤ length dst.old }
    ensures { Put dst.old from (replicate (to - from) 0) (to - from) result dst.new }
{
    dst[from..to].fill(0);
    to
}

// The digit of a number below 16.
#[tactic(auto, unfolding(crate::specs::Hex::dig_of))]
pub fn dig(d: u8) -> u8
    requires { d < 16 }
    ensures { result ≡ dig_of d }
{
    if d < 10 { 48 + d } else { 87 + d }
}

/// The n bytes of a frame from `from` on.
// Kept: the bytes are read through a view, of digits too.
pub fn copy_view(v: &View, from: usize, n: usize, dst: &mut [u8], at: usize) -> usize
    requires read { from + n ≤ length v.now }
    requires written { at + n ≤ length dst.old }
    ensures { Put dst.old at (take n (drop from v.now)) n result dst.new }
{
    let _size = v.len();
    for j in 0..n {
        dst[at + j] = v.byte(from + j);
    }
    at + n
}

/// The digits of n bytes of a frame, from `from` on.
// Kept: as at `copy_view`.
pub fn copy_text(v: &View, from: usize, n: usize, dst: &mut [u8], at: usize) -> usize
    requires read { from + n ≤ length v.now }
    requires written { at + 2 * n ≤ length dst.old }
    ensures { Put dst.old at (text_of (take n (drop from v.now))) (2 * n) result dst.new }
{
    let _size = v.len();
    let mut o = at;
    for j in 0..n {
        let b = v.byte(from + j);
        dst[o] = dig(b / 16);
        dst[o + 1] = dig(b % 16);
        o += 2;
    }
    o
}
