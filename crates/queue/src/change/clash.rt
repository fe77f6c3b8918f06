// Does a record spend, or read, one of the lent ids? These are put in order, and one pass over the records bisects each of its ids.
ghost use Rattle.std.specs.Prelude.{◌≡◌, ◌+◌, ◌<◌, ◌≤◌, true, false, length, take};
ghost use Rattle.queue.specs.layout.FrameCodec.{rec_c, id_c};
ghost use Rattle.queue.specs.layout.FormsCodec.{form_c};
ghost use Rattle.queue.specs.bytes.OrderAs.{order_number};
ghost use Rattle.queue.specs.bytes.ReaderAs.{whole, list_at};
ghost use Rattle.queue.specs.layout.RecordsAs.{RecordsIn, recs_at};
ghost use Rattle.queue.specs.change.ReopenAs.{IdsIn, ids_at};
ghost use Rattle.queue.specs.check.SuspectsAs.{id_r, InOrder};
ghost use Rattle.queue.specs.change.ClashAs.{row_has, below_row, RowsOf, CutId, any_of, MeetsIs, meets_ids, clashes};
ghost use Rattle.queue.specs.change.TouchAs.{SeenHere};
ghost use Rattle.queue.specs.paper.Ids.{cmp_l};
ghost use Rattle.queue.specs.paper.Lists.{any?};
ghost use Rattle.queue.specs.paper.Sound.{among?};

use crate::bytes::view::{View, compare_ids};
use crate::check::scan::has_id;
use crate::check::suspects::{in_order, order_rows, row_at};
use crate::layout::forms::after_in;
use crate::layout::frame::{Seen, record_at};
use crate::layout::records::Records;
use std::cmp::Ordering;

// The order of a row's id and an id. A row too near the end has no id.
fn cmp_row(ids: &[u8], x: u64, id: [u8; 32]) -> Ordering
    ensures { order_number result ≡ cmp_l (id_r false ids.now x) id }
{
    let v = View::new(ids, false, (x / 4294967296) as usize);
    if v.len() < 32 {
        return Ordering::Less;
    }
    compare_ids(v.id(0), id)
}

// A row for each of the m ids.
fn place_rows(ids: &[u8], m: u64, v: &mut [u64]) -> usize
    requires { IdsIn ids.now m × (m ≤ length v.old) × (length ids.now < 4294967296) }
    ensures { RowsOf ids.now m (take result v.new) × (result ≤ length v.old) × (length v.new ≡ length v.old) }
{
    let mut i: usize = 0;
    let mut k: usize = 0;
    for _left in (0..m).rev() {
        v[k] = row_at(ids, false, 0, i, 0);
        k += 1;
        i += 32;
    }
    k
}

// Is the row's id lower?
fn is_below(ids: &[u8], x: u64, id: [u8; 32]) -> bool
    ensures { result ≡ below_row ids.now id x }
{
    cmp_row(ids, x, id).is_lt()
}

// How many rows have a lower id.
fn bisect_id(ids: &[u8], v: &[u64], id: [u8; 32]) -> usize
    requires { InOrder false ids.now v.now }
    ensures { CutId ids.now v.now id result }
{
    v.partition_point(|x| is_below(ids, *x, id))
}

// Has a row the id?
fn has_row(ids: &[u8], v: &[u64], id: [u8; 32]) -> bool
    requires { InOrder false ids.now v.now }
    ensures { result ≡ any? (row_has ids.now id) v.now }
{
    let b = bisect_id(ids, v, id);
    if v.len() <= b {
        return false;
    }
    cmp_row(ids, v[b], id).is_eq()
}

// Is the id one of the m lent ones? Without an order, which there never is, each is compared.
fn is_lent(ids: &[u8], m: u64, v: &[u64], ordered: bool, id: [u8; 32]) -> bool
    requires { IdsIn ids.now m × RowsOf ids.now m v.now × (ordered ≡ true → InOrder false ids.now v.now) }
    ensures { result ≡ among? id (ids_at ids.now m) }
{
    if ordered {
        return has_row(ids, v, id);
    }
    has_id(&View::new(ids, false, 0), 0, m, id)
}

// Is one of the c ids at offset `at` of a frame one of the m lent ones?
fn any_lent(frame: &View, at: usize, c: u64, ids: &[u8], m: u64, v: &[u64], ordered: bool) -> bool
    requires { (at ≤ length frame.now) × (whole id_c c frame.now at ≡ true) × IdsIn ids.now m × RowsOf ids.now m v.now × (ordered ≡ true → InOrder false ids.now v.now) }
    ensures { result ≡ any_of (ids_at ids.now m) (list_at id_c c frame.now at) }
{
    let mut i = at;
    for _left in (0..c).rev() {
        let id = frame.id(i);
        if is_lent(ids, m, v, ordered, id) {
            return true;
        }
        i += 32;
    }
    false
}

// Is an id of the record read at base one of the m lent ids? Of those that it reads, or else of its inputs.
fn meets(
    s: &[u8],
    base: usize,
    x: Seen,
    read: bool,
    ids: &[u8],
    m: u64,
    v: &[u64],
    ordered: bool,
) -> bool
    requires { SeenHere s.now base x × IdsIn ids.now m × RowsOf ids.now m v.now × (ordered ≡ true → InOrder false ids.now v.now) }
    ensures { MeetsIs s.now base x read (ids_at ids.now m) result }
{
    let f = x.facts;
    let frame = View::new(s, false, base);
    if read {
        return any_lent(&frame, x.reads, f.reads, ids, m, v, ordered);
    }
    any_lent(&frame, x.at, f.ins, ids, m, v, ordered)
}

// The same of one of the records.
fn any_meets(
    s: &[u8],
    recs: Records,
    read: bool,
    ids: &[u8],
    m: u64,
    v: &[u64],
    ordered: bool,
) -> bool
    requires { RecordsIn (form_c false rec_c) s.now recs × IdsIn ids.now m × RowsOf ids.now m v.now × (ordered ≡ true → InOrder false ids.now v.now) }
    ensures { result ≡ meets_ids read (ids_at ids.now m) (recs_at (form_c false rec_c) s.now recs) }
{
    let mut i = recs.start;
    for _left in (0..recs.count).rev() {
        let x = record_at(s, i);
        if meets(s, i, x, read, ids, m, v, ordered) {
            return true;
        }
        i = after_in(s, false, i, x.size);
    }
    false
}

// The rows of v are put in order first.
fn clash_by(ids: &[u8], m: u64, s: &[u8], recs: Records, read: bool, v: &mut [u64]) -> bool
    requires { RecordsIn (form_c false rec_c) s.now recs × IdsIn ids.now m × RowsOf ids.now m v.old }
    ensures { result ≡ clashes read (ids_at ids.now m) (recs_at (form_c false rec_c) s.now recs) }
{
    order_rows(ids, false, v);
    let o = in_order(ids, false, v);
    any_meets(s, recs, read, ids, m, v, o)
}

// Does one of the records spend one of m lent ids, or, if so asked, read it?
pub fn ids_clash(ids: &[u8], m: u64, s: &[u8], recs: Records, read: bool) -> bool
    requires { IdsIn ids.now m × RecordsIn (form_c false rec_c) s.now recs × (m ≤ 128) × (length ids.now < 4294967296) }
    ensures { result ≡ clashes read (ids_at ids.now m) (recs_at (form_c false rec_c) s.now recs) }
{
    let mut v = [0u64; 128];
    let k = place_rows(ids, m, &mut v);
    clash_by(ids, m, s, recs, read, &mut v[..k])
}
