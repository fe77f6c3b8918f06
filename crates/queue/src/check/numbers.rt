// The finish numbers of tombstones in a table: are they distinct, and which of them stay?
ghost use Rattle.std.specs.Prelude.{◌≡◌, ℕ, ◌+◌, ◌<◌, ◌≤◌, true, false, ◌++◌, length, take, nat_le, nat_lt};
ghost use Rattle.queue.specs.Codec.{All};
ghost use Rattle.queue.specs.layout.FormsCodec.{rec_in_value};
ghost use Rattle.queue.specs.layout.RecordsAs.{RecordsIn, recs_at};
ghost use Rattle.queue.specs.check.NumbersAs.{number_f, numbers_of, over_in, Ordered, Differ, new_above_value};
ghost use Rattle.queue.specs.paper.Sound.{tombstones, distinct?};

use crate::check::filter::Filter;
use crate::layout::forms::after_in;
use crate::layout::frame::{Facts, Form, record_in};
use crate::layout::records::Records;

// The number of a tombstone behind k others.
fn add_number(f: Facts, v: &mut [u64], k: usize) -> usize
    requires { (k ≤ length v.old) × (f.holder ≡ false → k < length v.old) }
    ensures { (take result v.new ≡ take k v.old ++ number_f f) × (result ≤ length v.old) }
{
    if f.holder {
        return k;
    }
    let m = f.finish;
    v[k] = m.0;
    k + 1
}

/// The numbers of the tombstones among the records, and how many there are.
pub fn gather(s: &[u8], form: Form, recs: Records, v: &mut [u64]) -> usize
    requires { RecordsIn (rec_in_value form) s.now recs × (tombstones (recs_at (rec_in_value form) s.now recs) ≤ length v.old) }
    ensures { (take result v.new ≡ numbers_of (recs_at (rec_in_value form) s.now recs)) × (result ≤ length v.old) × (length v.new ≡ length v.old) }
{
    let mut i = recs.start;
    let mut k: usize = 0;
    for _left in (0..recs.count).rev() {
        let x = record_in(s, form, i);
        let f = x.facts;
        k = add_number(f, v, k);
        i = after_in(s, form.hex, i, x.size);
    }
    k
}

// How many of the numbers are above x?
fn count_above(v: &[u64], x: u64) -> u64
    ensures { (result ≡ over_in x v.now) × (result ≤ length v.now) }
{
    let mut total: u64 = 0;
    for y in v {
        total += u64::from(x < *y);
    }
    total
}

// Do numbers in order differ? Equal ones stand side by side.
fn neighbours_differ(v: &[u64]) -> bool
    requires { Ordered v.now }
    ensures { Differ v.now result }
{
    for i in 1..v.len() {
        let a = v[i - 1];
        let b = v[i];
        if a == b {
            return false;
        }
    }
    true
}

// Is each number new to the filter t? Then they are distinct; if not, they may be.
fn all_new(v: &[u64], t: &mut Filter) -> bool
    ensures { result ≡ true → Differ v.now true }
{
    for x in v {
        if t.seen(*x) {
            return false;
        }
        t.mark(*x);
    }
    true
}

// Are the numbers distinct? If the filter does not say so, they are put in order.
fn differ(v: &mut [u64]) -> bool
    ensures { Differ v.old result }
{
    let mut words = [0u64; 2048];
    if all_new(v, &mut Filter::new(&mut words)) {
        return true;
    }
    v.sort_unstable();
    neighbours_differ(v)
}

/// Are the finish numbers of the m tombstones among the records distinct?
pub fn distinct(s: &[u8], form: Form, recs: Records, m: u64) -> bool
    requires { RecordsIn (rec_in_value form) s.now recs × (tombstones (recs_at (rec_in_value form) s.now recs) ≡ m) × (m ≤ 1024) }
    ensures { result ≡ distinct? (recs_at (rec_in_value form) s.now recs) }
{
    if m == 0 {
        return true;
    }
    let mut v = [0u64; 1024];
    let k = gather(s, form, recs, &mut v);
    differ(&mut v[..k])
}

// Of the m numbers after num, how many are above x.
fn new_above(num: u64, m: u64, x: u64) -> u64
    requires { num + m < 18446744073709551616 }
    ensures { (result ≡ new_above_value num m x) × (result ≤ m) }
{
    if x < num {
        return m;
    }
    if x < num + m {
        return num + m - x;
    }
    0
}

/// The lowest of the numbers in the table and the m after num that has fewer than t above it.
pub fn floor_in(v: &[u64], num: u64, m: u64, t: u64) -> u64
    requires { (length v.now < 4294967296) × (m < 4294967296) × (num + m < 18446744073709551616) × (0 < t) × All (λ y. y ≤ num) v.now }
    ensures { (x : ℕ) → nat_lt (over_in x v.now + new_above_value num m x) t ≡ nat_le result x }
{
    let mut lo: u64 = 0;
    let mut hi = num + m;
    // Kept: the search is over numbers and not over a slice; the library has none for a range.
    while lo < hi {
        let mid = lo + (hi - lo) / 2;
        let a = count_above(v, mid);
        if a + new_above(num, m, mid) < t {
            hi = mid;
        } else {
            lo = mid + 1;
        }
    }
    hi
}
