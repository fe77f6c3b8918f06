// Parents first: the selection listed so that each record comes after all that it waits for. One counter a row: 0, it is listed; 1, it
// is unlisted and waits for nothing unlisted; more, it waits. Again and again the first row that holds 1 is listed, and the counters of
// those that wait for it fall.
ghost use Rattle.std.specs.Prelude.{◌≡◌, ◌+◌, ◌-◌, ◌*◌, ◌<◌, ◌≤◌, length, take, if◌then◌else◌, slice_index, slice_set};
ghost use Rattle.queue.specs.Refusal.{answer_of};
ghost use Rattle.queue.specs.Checked.{written};
ghost use Rattle.queue.specs.read.FeesAs.{rec_at_value};
ghost use Rattle.queue.specs.read.parents.Counters.{first_one, raise, lower, counted, picks};
ghost use Rattle.queue.specs.read.LinksAs.{Ones, Few, Clear, Lowered, ones, word_ones, kids_of, Named};
ghost use Rattle.queue.specs.paper.Lists.{map};
ghost use Rattle.queue.specs.paper.Calls.{told_out, ids_bytes};
ghost use Rattle.queue.specs.paper.Parents.{waits_for?, parents_first_value, parents_first_of};

use crate::Kind;
use crate::check::area::Area;
use crate::check::filter::Filter;
use crate::layout::frame::{Height, Time};
use crate::layout::records::Records;
use crate::read::links::{Slots, links};
use crate::read::select::{put_listed, select_places};
use crate::refusal::Refusal;

fn fill_ones(cs: &mut [u64])
    ensures { Ones (length cs.old) cs.new }
{
    cs.fill(1);
}

// One more at k, if it is to be; nothing past the end.
fn raise_if(cs: &mut [u64], odd: bool, k: usize)
    requires { slice_index cs.old k < 18446744073709551615 }
    ensures { cs.new ≡ (if odd then slice_set cs.old k (slice_index cs.old k + 1) else cs.old) }
{
    if !odd {
        return;
    }
    if cs.len() <= k {
        return;
    }
    let c = cs[k];
    cs[k] = c + 1;
}

// One less at k, if it is to be; nothing at 0 or past the end. No row before `from` holds 1; returns such a place for the counters then.
fn lower_if(cs: &mut [u64], odd: bool, k: usize, from: usize) -> usize
    ensures { Lowered cs.old from (if odd then slice_set cs.old k (slice_index cs.old k - 1) else cs.old) result cs.new }
{
    if !odd {
        return from;
    }
    if cs.len() <= k {
        return from;
    }
    let c = cs[k];
    if c == 0 {
        return from;
    }
    cs[k] = c - 1;
    if (c == 2) & (k < from) {
        return k;
    }
    from
}

// The rows named by the bits of a word rise, the first of them being base. Eight bits that are 0 are passed over at once. No counter is
// above `most`.
// Kept: the step is 8 or 1, and the loop ends when no bit is left, so that a word of few bits takes few turns.
fn raise_word(cs: &mut [u64], x: u64, base: usize, most: u64)
    requires { Few most cs.old × (most + 64 < 4294967296) × (base + 64 < 4294967296) }
    ensures { (cs.new ≡ raise (ones 64 x base) cs.old) × Few (most + 64) cs.new }
{
    let mut y = x;
    let mut j = base;
    while 0 < y {
        if y % 256 == 0 {
            y = y / 256;
            j += 8;
        } else {
            raise_if(cs, y % 2 == 1, j);
            y = y / 2;
            j += 1;
        }
    }
}

// The rows named by the bits of a word fall, likewise.
// Kept: as in raise_word.
fn lower_word(cs: &mut [u64], x: u64, base: usize, from: usize) -> usize
    requires { base + 64 < 4294967296 }
    ensures { Lowered cs.old from (lower (ones 64 x base) cs.old) result cs.new }
{
    let mut y = x;
    let mut j = base;
    let mut f = from;
    while 0 < y {
        if y % 256 == 0 {
            y = y / 256;
            j += 8;
        } else {
            f = lower_if(cs, y % 2 == 1, j, f);
            y = y / 2;
            j += 1;
        }
    }
    f
}

// The rows in a line of w words rise.
fn raise_line(cs: &mut [u64], bits: &[u64], start: usize, w: usize, most: u64)
    requires { (start + w ≤ length bits.now) × (w ≤ 32) × Few most cs.old × (most + 64 * w < 4294967296) }
    ensures { (cs.new ≡ raise (word_ones bits.now w start 0) cs.old) × Few (most + 64 * w) cs.new }
{
    let mut j: usize = 0;
    let mut top = most;
    for a in 0..w {
        raise_word(cs, bits[start + a], j, top);
        j += 64;
        top += 64;
    }
}

// The rows in a line of w words fall.
fn lower_line(cs: &mut [u64], bits: &[u64], start: usize, w: usize, from: usize) -> usize
    requires { (start + w ≤ length bits.now) × (w ≤ 32) }
    ensures { Lowered cs.old from (lower (word_ones bits.now w start 0) cs.old) result cs.new }
{
    let mut j: usize = 0;
    let mut f = from;
    for a in 0..w {
        f = lower_word(cs, bits[start + a], j, f);
        j += 64;
    }
    f
}

// Of each row, how many it waits for, and 1.
fn count_rows(bits: &[u64], w: usize, cs: &mut [u64])
    requires { (length cs.old * w ≤ length bits.now) × (w ≤ 32) × (length cs.old ≤ 2048) × Few 1 cs.old }
    ensures { cs.new ≡ counted (kids_of bits.now w) 0 (length cs.old) cs.old }
{
    let n = cs.len();
    let mut o: usize = 0;
    let mut top: u64 = 1;
    for i in 0..n {
        raise_line(cs, bits, o, w, top);
        o += w;
        top += 64 * w as u64;
    }
}

// The first row that holds 1, or their number; none before `from` does.
fn first_from(cs: &[u64], from: usize) -> usize
    requires { Clear from cs.now }
    ensures { result ≡ first_one cs.now }
{
    let n = cs.len();
    for i in from..n {
        if cs[i] == 1 {
            return i;
        }
    }
    n
}

// The places of the rows, in the order in which they are listed; returns how many.
fn list_rows(at: &[usize], bits: &[u64], w: usize, cs: &mut [u64], picked: &mut [usize]) -> usize
    requires { (length at.now ≡ length cs.old) × (length cs.old * w ≤ length bits.now) × (w ≤ 32) × (length cs.old ≤ 2048) × (length cs.old ≤ length picked.old) }
    ensures { (take result picked.new ≡ map (λ i. slice_index at.now i) (picks (kids_of bits.now w) (length cs.old) cs.old)) × (result ≤ length cs.old) }
{
    let n = cs.len();
    let mut from: usize = 0;
    for m in 0..n {
        let i = first_from(cs, from);
        if n <= i {
            return m;
        }
        picked[m] = at[i];
        cs[i] = 0;
        from = lower_line(cs, bits, i * w, w, i + 1);
    }
    n
}

// With tables of the given sizes for `links`, bits in lines of w words, and the places that are listed. The counters stand in cs.
fn parents_within<
    const SLOTS: usize,
    const LINKS: usize,
    const READS: usize,
    const BITS: usize,
    const ROWS: usize,
>(s: &[u8], at: &[usize], cs: &mut [u64], w: usize, out: &mut [u8]) -> Result<Kind, Refusal>
    requires rows { Named s.now at.now × (length s.now < 4294967296) × (length at.now ≡ length cs.old) × (length at.now ≤ 64 * w) × (w ≤ 32) }
    requires small { (SLOTS ≤ 65536) × (LINKS ≤ 65536) × (READS ≤ 65536) × (BITS ≤ 65536) }
    requires sizes { (0 < SLOTS) × (0 < LINKS) × (256 ≤ READS) × (length at.now ≤ ROWS) × (length at.now * w ≤ BITS) × (ROWS ≤ 2048) }
    ensures { written (answer_of result) out.new ≡ told_out (ids_bytes (map (λ r. r.id) (parents_first_value waits_for? (map (rec_at_value s.now) at.now)))) out.old }
{
    let mut rows = [0u64; SLOTS];
    let mut slots = Slots::new(&mut rows);
    let mut words = [0u64; LINKS];
    let mut v = [0u64; READS];
    let mut bits = [0u64; BITS];
    let mut picked = [0usize; ROWS];
    let mut t = Filter::new(&mut words);
    links(s, at, cs, &mut slots, &mut t, &mut v, &mut bits, w);
    fill_ones(cs);
    count_rows(&bits, w, cs);
    let r = list_rows(at, &bits, w, cs, &mut picked);
    put_listed(s, &picked[..r], out)
}

// With tables as large as the rows ask for. Each function with tables is called at two places that differ in a number, and makes its calls by
// itself: it is then too large for the compiler to take it in here together with its tables.
fn parents_sized(s: &[u8], at: &[usize], cs: &mut [u64], out: &mut [u8]) -> Result<Kind, Refusal>
    requires { Named s.now at.now × (length s.now < 4294967296) × (length at.now ≡ length cs.old) × (length at.now ≤ 2048) }
    ensures { written (answer_of result) out.new ≡ told_out (ids_bytes (map (λ r. r.id) (parents_first_value waits_for? (map (rec_at_value s.now) at.now)))) out.old }
{
    let n = at.len();
    if n <= 256 {
        return parents_within::<2048, 512, 1024, 4096, 512>(s, at, cs, 4, out);
    }
    if n <= 512 {
        return parents_within::<2048, 512, 1024, 4096, 512>(s, at, cs, 8, out);
    }
    if n <= 768 {
        return parents_within::<32768, 1024, 4096, 16384, 1024>(s, at, cs, 12, out);
    }
    if n <= 1024 {
        return parents_within::<32768, 1024, 4096, 16384, 1024>(s, at, cs, 16, out);
    }
    if n <= 1536 {
        return parents_within::<8192, 4096, 32768, 65536, 2048>(s, at, cs, 24, out);
    }
    parents_within::<8192, 4096, 32768, 65536, 2048>(s, at, cs, 32, out)
}

// In an area that is not longer than a place can say.
fn parents_in(area: &[u8], time: Time, height: Height, out: &mut [u8]) -> Result<Kind, Refusal>
    requires { length area.now < 4294967296 }
    ensures { written (answer_of result) out.new ≡ parents_first_of area.now time.0 height.0 out.old }
{
    let a = Area::read(area)?;
    let recs = Records {
        start: a.open.start,
        count: a.open.head.count,
    };
    let mut places = [0usize; 2048];
    let mut counters = [0u64; 2048];
    let n = select_places(area, recs, time, height, &mut places);
    parents_sized(area, &places[..n], &mut counters[..n], out)
}

// The ids of the selection, parents first. Refusals 3, 4. No queue stands in more than the first part of a long area.
pub fn parents_first(
    area: &[u8],
    time: Time,
    height: Height,
    out: &mut [u8],
) -> Result<Kind, Refusal>
    ensures { written (answer_of result) out.new ≡ parents_first_of area.now time.0 height.0 out.old }
{
    if area.len() < 4294967296 {
        return parents_in(area, time, height, out);
    }
    parents_in(&area[..4294967295], time, height, out)
}
