// Suspects: places of input ids that the filter already had. A row is a place and the number of its record, in one number.
// The rows are put in order by id and number, and one pass over all records bisects each input among them.
ghost use Rattle.std.specs.Prelude.{◌≡◌, ◌+◌, ◌/◌, ◌%◌, ◌<◌, ◌≤◌, Bool, true, false, ◌&&◌, not, length, take, drop, MatchOption, IfSome};
ghost use Rattle.std.specs.Ordering.{is_lt};
ghost use Rattle.queue.specs.bytes.Parts.{part};
ghost use Rattle.queue.specs.bytes.OrderAs.{order_number};
ghost use Rattle.queue.specs.bytes.ReaderLaws.{be_at};
ghost use Rattle.queue.specs.layout.FrameCodec.{id_c};
ghost use Rattle.queue.specs.layout.FormsCodec.{rec_in_value};
ghost use Rattle.queue.specs.bytes.ViewAs.{view};
ghost use Rattle.queue.specs.bytes.ReaderAs.{whole, list_at};
ghost use Rattle.queue.specs.layout.RecordsAs.{RecordsIn, recs_at};
ghost use Rattle.queue.specs.check.ScanAs.{unread?};
ghost use Rattle.queue.specs.check.SuspectsAs.{id_r, no_r, up_to, later, meets, crosses, held?, first?, Shuffled, InOrder, Cut, Full, Grown, Twice, Noted, Said, AllMarked, Owned};
ghost use Rattle.queue.specs.paper.Ids.{cmp_l, same?};
ghost use Rattle.queue.specs.paper.Lists.{any?, all?};
ghost use Rattle.queue.specs.paper.Sound.{among?, apart?, read_apart?};

use crate::bytes::view::View;
use crate::check::filter::{Filter, hash};
use crate::check::reads::reads_by;
use crate::layout::forms::after_in;
use crate::layout::frame::{Form, record_in};
use crate::layout::records::Records;
use std::cmp::Ordering;

// Kept with s, hex and base: a row is a place in the whole of s, and a view begins at its frame.

// Where the byte i of the frame at base stands.
fn place(s: &[u8], hex: bool, base: usize, i: usize) -> usize
    requires { i + 32 ≤ length (view hex s.now base) }
    ensures { (view hex s.now result ≡ drop i (view hex s.now base)) × (result ≤ length s.now) }
{
    if hex {
        return base + 2 * i;
    }
    base + i
}

/// The row of the id at offset i of the frame at base, which is that of record number k.
pub fn row_at(s: &[u8], hex: bool, base: usize, i: usize, k: u64) -> u64
    requires { (i + 32 ≤ length (view hex s.now base)) × (length s.now < 4294967296) × (k < 4294967296) }
    ensures { (id_r hex s.now result ≡ part 32 (view hex s.now base) i) × (no_r result ≡ k) }
{
    let p = place(s, hex, base, i);
    p as u64 * 4294967296 + k
}

// The order of two rows' ids, whatever the form and the rows. A row too near the end has no id.
#[inline(never)]
fn cmp_whole(s: &[u8], hex: bool, x: u64, y: u64) -> Ordering
    ensures { order_number result ≡ cmp_l (id_r hex s.now x) (id_r hex s.now y) }
{
    let a = View::new(s, hex, (x / 4294967296) as usize);
    let b = View::new(s, hex, (y / 4294967296) as usize);
    if a.len() < 32 {
        if b.len() < 32 {
            return Ordering::Equal;
        }
        return Ordering::Less;
    }
    if b.len() < 32 {
        return Ordering::Greater;
    }
    a.compare_at(0, &b, 0)
}

/// The order of two rows' ids. A row too near the end has no id. Most ids of bytes differ in the first word, which is looked at in place.
#[inline(always)]
pub fn cmp_rows(s: &[u8], hex: bool, x: u64, y: u64) -> Ordering
    ensures { order_number result ≡ cmp_l (id_r hex s.now x) (id_r hex s.now y) }
{
    if !hex {
        let a = View::new(s, false, (x / 4294967296) as usize);
        let b = View::new(s, false, (y / 4294967296) as usize);
        if 32 <= a.len() && 32 <= b.len() {
            let p = a.be(0, 8);
            let q = b.be(0, 8);
            if p < q {
                return Ordering::Less;
            }
            if q < p {
                return Ordering::Greater;
            }
        }
    }
    cmp_whole(s, hex, x, y)
}

// Is the row x not behind y?
fn up_to(s: &[u8], hex: bool, x: u64, y: u64) -> bool
    ensures { result ≡ up_to hex s.now x y }
{
    match cmp_rows(s, hex, x, y) {
        Ordering::Less => true,
        Ordering::Equal => x % 4294967296 <= y % 4294967296,
        Ordering::Greater => false,
    }
}

// The same of rows of bytes, where the first word of y's id is at hand. Most ids differ in it.
#[inline(always)]
fn up_to_first(s: &[u8], x: u64, y: u64, first: u64) -> bool
    ensures { (32 ≤ length (view false s.now (y / 4294967296))) × (first ≡ be_at 8 (view false s.now (y / 4294967296)) 0) → result ≡ up_to false s.now x y }
{
    let a = View::new(s, false, (x / 4294967296) as usize);
    if a.len() < 32 {
        return true;
    }
    let w = a.be(0, 8);
    if w < first {
        return true;
    }
    if first < w {
        return false;
    }
    up_to(s, false, x, y)
}

// The same of rows of digits, where y's id is at hand.
#[inline(always)]
fn up_to_id(s: &[u8], x: u64, y: u64, id: &[u8; 32]) -> bool
    ensures { id_r true s.now y ≡ id.now → result ≡ up_to true s.now x y }
{
    let a = View::new(s, true, (x / 4294967296) as usize);
    if a.len() < 32 {
        return true;
    }
    match a.compare_at(0, &View::new(id, false, 0), 0) {
        Ordering::Less => true,
        Ordering::Equal => x % 4294967296 <= y % 4294967296,
        Ordering::Greater => false,
    }
}

// The order of two rows: by id, then by number.
fn row_order(s: &[u8], hex: bool, x: u64, y: u64) -> Ordering
    ensures { is_lt result ≡ not (up_to hex s.now y x) }
{
    match cmp_rows(s, hex, x, y) {
        Ordering::Less => Ordering::Less,
        Ordering::Equal => (x % 4294967296).cmp(&(y % 4294967296)),
        Ordering::Greater => Ordering::Greater,
    }
}

/// The rows put in order by id, then by number.
pub fn order_rows(s: &[u8], hex: bool, v: &mut [u64])
    ensures same { Shuffled v.old v.new }
    ensures order { InOrder hex s.now v.new }
{
    v.sort_unstable_by(|x, y| row_order(s, hex, *x, *y));
}

/// Are the rows in order?
pub fn in_order(s: &[u8], hex: bool, v: &[u64]) -> bool
    ensures { result ≡ true → InOrder hex s.now v.now }
{
    for i in 1..v.len() {
        if !up_to(s, hex, v[i - 1], v[i]) {
            return false;
        }
    }
    true
}

// How many rows are not behind y, in any form and whether or not it has an id.
#[inline(never)]
fn bisect_any(s: &[u8], hex: bool, v: &[u64], y: u64) -> usize
    requires { InOrder hex s.now v.now }
    ensures { Cut hex s.now v.now y result result }
{
    v.partition_point(|x| up_to(s, hex, *x, y))
}

// The same of rows of digits: y's id is read once for all steps.
#[inline(never)]
fn bisect_digits(s: &[u8], v: &[u64], y: u64) -> usize
    requires { InOrder true s.now v.now }
    ensures { Cut true s.now v.now y result result }
{
    let frame = View::new(s, true, (y / 4294967296) as usize);
    if frame.len() < 32 {
        return bisect_any(s, true, v, y);
    }
    let id = frame.id(0);
    v.partition_point(|x| up_to_id(s, *x, y, &id))
}

/// How many rows are not behind y. Of bytes, the first word of y's id is read once for all steps.
#[inline(always)]
pub fn bisect(s: &[u8], hex: bool, v: &[u64], y: u64) -> usize
    requires { InOrder hex s.now v.now }
    ensures { Cut hex s.now v.now y result result }
{
    if hex {
        return bisect_digits(s, v, y);
    }
    let frame = View::new(s, hex, (y / 4294967296) as usize);
    if frame.len() < 32 {
        return bisect_any(s, hex, v, y);
    }
    let first = frame.be(0, 8);
    v.partition_point(|x| up_to_first(s, *x, y, first))
}

// Has the row x the id of y, and a higher number?
fn is_later(s: &[u8], hex: bool, y: u64, x: u64) -> bool
    ensures { result ≡ later hex s.now (id_r hex s.now y) (no_r y) x }
{
    cmp_rows(s, hex, y, x).is_eq() & (y % 4294967296 < x % 4294967296)
}

// Has a row the id of y, and a higher number?
fn look_all(s: &[u8], hex: bool, v: &[u64], y: u64) -> bool
    ensures { result ≡ any? (later hex s.now (id_r hex s.now y) (no_r y)) v.now }
{
    for x in v {
        if is_later(s, hex, y, *x) {
            return true;
        }
    }
    false
}

/// The same, quickly where the rows are in order.
pub fn any_later(s: &[u8], hex: bool, v: &[u64], ordered: bool, y: u64) -> bool
    requires { ordered ≡ true → InOrder hex s.now v.now }
    ensures { result ≡ any? (later hex s.now (id_r hex s.now y) (no_r y)) v.now }
{
    if ordered {
        let b = bisect(s, hex, v, y);
        if v.len() <= b {
            return false;
        }
        return cmp_rows(s, hex, y, v[b]).is_eq();
    }
    look_all(s, hex, v, y)
}

// Is one of the m ids at offset `ids` of the frame at base, which is that of record number k, a row's of a later record?
fn pass_ids(
    s: &[u8],
    hex: bool,
    v: &[u64],
    ordered: bool,
    base: usize,
    ids: usize,
    m: u64,
    k: u64,
) -> bool
    requires { (ids ≤ length (view hex s.now base)) × (whole id_c m (view hex s.now base) ids ≡ true) × (length s.now < 4294967296) × (k < 4294967296) × (ordered ≡ true → InOrder hex s.now v.now) }
    ensures { result ≡ meets hex s.now v.now k (list_at id_c m (view hex s.now base) ids) }
{
    let mut i = ids;
    for _left in (0..m).rev() {
        let y = row_at(s, hex, base, i, k);
        if any_later(s, hex, v, ordered, y) {
            return true;
        }
        i += 32;
    }
    false
}

// Is an id of a record a row's of a later one?
fn pass(s: &[u8], form: Form, recs: Records, v: &[u64], ordered: bool) -> bool
    requires { RecordsIn (rec_in_value form) s.now recs × (length s.now < 4294967296) × (recs.count < 4294967296) × (ordered ≡ true → InOrder form.hex s.now v.now) }
    ensures { result ≡ crosses form.hex s.now v.now 0 (recs_at (rec_in_value form) s.now recs) }
{
    let mut i = recs.start;
    let mut k: u64 = 0;
    for _left in (0..recs.count).rev() {
        let x = record_in(s, form, i);
        let f = x.facts;
        if pass_ids(s, form.hex, v, ordered, i, x.at, f.ins, k) {
            return true;
        }
        i = after_in(s, form.hex, i, x.size);
        k += 1;
    }
    false
}

/// Is the id of a row in a record before its own? The rows are put in another order.
pub fn crossed(s: &[u8], form: Form, recs: Records, v: &mut [u64]) -> bool
    requires { RecordsIn (rec_in_value form) s.now recs × (length s.now < 4294967296) × (recs.count < 4294967296) }
    ensures { Shuffled v.old v.new × (result ≡ crosses form.hex s.now v.old 0 (recs_at (rec_in_value form) s.now recs)) }
{
    if v.len() == 0 {
        return false;
    }
    order_rows(s, form.hex, v);
    let o = in_order(s, form.hex, v);
    pass(s, form, recs, v, o)
}

/// The row w behind m others: how many rows there are then. Full, the last table is looked through and begun anew. None, if a row's id
/// is in a record before its own, or if the table that is full is not the last one.
pub fn add(
    s: &[u8],
    form: Form,
    recs: Records,
    v: &mut [u64],
    last: bool,
    m: usize,
    w: u64,
) -> Option<usize>
    requires { RecordsIn (rec_in_value form) s.now recs × (length s.now < 4294967296) × (recs.count < 4294967296) × (m ≤ length v.old) × (0 < length v.old) }
    ensures { MatchOption result (Full last form.hex s.now (recs_at (rec_in_value form) s.now recs) (take m v.old)) (λ n. Grown form.hex s.now (recs_at (rec_in_value form) s.now recs) (take m v.old) w (take n v.new) × (n ≤ length v.old)) }
{
    if m < v.len() {
        v[m] = w;
        return Some(m + 1);
    }
    if !last {
        return None;
    }
    if crossed(s, form, recs, v) {
        return None;
    }
    v[0] = w;
    Some(1)
}

// An id at offset i of the frame at base, that of record number k: marked, or a suspect.
fn note(
    s: &[u8],
    form: Form,
    recs: Records,
    base: usize,
    i: usize,
    id: [u8; 32],
    k: u64,
    t: &mut Filter,
    v: &mut [u64],
    last: bool,
    m: usize,
) -> Option<usize>
    requires { RecordsIn (rec_in_value form) s.now recs × (length s.now < 4294967296) × (recs.count < 4294967296) × (m ≤ length v.old) × (0 < length v.old) × (k < 4294967296) × (i + 32 ≤ length (view form.hex s.now base)) × (part 32 (view form.hex s.now base) i ≡ id) × (all? (held? form.hex s.now (recs_at (rec_in_value form) s.now recs)) (take m v.old) ≡ true) × Owned (recs_at (rec_in_value form) s.now recs) k (same? id) }
    ensures { MatchOption result (Twice last (recs_at (rec_in_value form) s.now recs) t.old t.new) (λ n. Noted form.hex s.now (recs_at (rec_in_value form) s.now recs) k (same? id) t.old (take m v.old) t.new (take n v.new) × (n ≤ length v.old)) }
{
    let h = hash(id);
    if t.seen(h) {
        let w = row_at(s, form.hex, base, i, k);
        return add(s, form, recs, v, last, m, w);
    }
    t.mark(h);
    Some(m)
}

// The c ids at offset `ids` of the frame at base, that of record number k.
fn note_all(
    s: &[u8],
    form: Form,
    recs: Records,
    base: usize,
    ids: usize,
    c: u64,
    k: u64,
    t: &mut Filter,
    v: &mut [u64],
    last: bool,
    m: usize,
) -> Option<usize>
    requires { RecordsIn (rec_in_value form) s.now recs × (length s.now < 4294967296) × (recs.count < 4294967296) × (m ≤ length v.old) × (0 < length v.old) × (k < 4294967296) × (ids ≤ length (view form.hex s.now base)) × (whole id_c c (view form.hex s.now base) ids ≡ true) × (all? (held? form.hex s.now (recs_at (rec_in_value form) s.now recs)) (take m v.old) ≡ true) × Owned (recs_at (rec_in_value form) s.now recs) k (λ z. among? z (list_at id_c c (view form.hex s.now base) ids)) }
    ensures { MatchOption result (Twice last (recs_at (rec_in_value form) s.now recs) t.old t.new) (λ n. Noted form.hex s.now (recs_at (rec_in_value form) s.now recs) k (λ z. among? z (list_at id_c c (view form.hex s.now base) ids)) t.old (take m v.old) t.new (take n v.new) × (n ≤ length v.old)) }
{
    let frame = View::new(s, form.hex, base);
    let mut i = ids;
    let mut len = m;
    for _left in (0..c).rev() {
        let id = frame.id(i);
        len = note(s, form, recs, base, i, id, k, t, v, last, len)?;
        i += 32;
    }
    Some(len)
}

// Is no input in two records? None: not known, the table is full and not the last one.
// Whatever t holds: what it holds too much only costs time. Where none is in two, t has every input then.
fn apart_in(
    s: &[u8],
    form: Form,
    recs: Records,
    t: &mut Filter,
    v: &mut [u64],
    last: bool,
) -> Option<bool>
    requires { RecordsIn (rec_in_value form) s.now recs × (length s.now < 4294967296) × (recs.count < 4294967296) × (0 < length v.old) }
    ensures { Said last (apart? (recs_at (rec_in_value form) s.now recs)) result × IfSome result (λ b. b ≡ true → AllMarked (recs_at (rec_in_value form) s.now recs) t.new) }
{
    let mut i = recs.start;
    let mut k: u64 = 0;
    let mut m: usize = 0;
    for _left in (0..recs.count).rev() {
        let x = record_in(s, form, i);
        let f = x.facts;
        let Some(n) = note_all(s, form, recs, i, x.at, f.ins, k, t, v, last, m) else {
            return if last { Some(false) } else { None };
        };
        m = n;
        i = after_in(s, form.hex, i, x.size);
        k += 1;
    }
    Some(!crossed(s, form, recs, &mut v[..m]))
}

// The same of two tests: is no input in two records, and does no record spend what another reads? Where none reads an id,
// the second needs no look.
fn clear_by(
    s: &[u8],
    form: Form,
    recs: Records,
    unread: bool,
    t: &mut Filter,
    v: &mut [u64],
    last: bool,
) -> Option<bool>
    requires { RecordsIn (rec_in_value form) s.now recs × (length s.now < 4294967296) × (recs.count < 4294967296) × (0 < length v.old) × (unread ≡ true → all? unread? (recs_at (rec_in_value form) s.now recs) ≡ true) }
    ensures { Said last (apart? (recs_at (rec_in_value form) s.now recs) && read_apart? (recs_at (rec_in_value form) s.now recs)) result }
{
    let apart = apart_in(s, form, recs, t, v, last)?;
    if !apart {
        return Some(false);
    }
    if unread {
        return Some(true);
    }
    reads_by(s, form, recs, t.words(), v, last)
}

/// With room for few suspects; as often as needed, where it is the last table.
// Kept: the two differ in what they do where the table is full and where a place does not fit into a row, not in sizes alone.
pub fn apart_few(s: &[u8], form: Form, recs: Records, unread: bool, last: bool) -> Option<bool>
    requires { RecordsIn (rec_in_value form) s.now recs × (unread ≡ true → all? unread? (recs_at (rec_in_value form) s.now recs) ≡ true) }
    ensures { Said false (apart? (recs_at (rec_in_value form) s.now recs) && read_apart? (recs_at (rec_in_value form) s.now recs)) result }
{
    if s.len() < 4294967296 && recs.count < 4294967296 {
        let mut words = [0u64; 2048];
        let mut v = [0u64; 2048];
        let mut t = Filter::new(&mut words);
        return clear_by(s, form, recs, unread, &mut t, &mut v, last);
    }
    None
}

/// With room for many, as often as needed.
// Kept: as at `apart_few`.
pub fn apart_many(s: &[u8], form: Form, recs: Records, unread: bool, room: usize) -> bool
    requires { RecordsIn (rec_in_value form) s.now recs × (length s.now < 4294967296) × (recs.count < 4294967296) × (0 < room) × (room ≤ 65536) × (unread ≡ true → all? unread? (recs_at (rec_in_value form) s.now recs) ≡ true) }
    ensures { result ≡ (apart? (recs_at (rec_in_value form) s.now recs) && read_apart? (recs_at (rec_in_value form) s.now recs)) }
{
    let mut words = [0u64; 16384];
    let mut v = [0u64; 65536];
    let mut t = Filter::new(&mut words);
    clear_by(s, form, recs, unread, &mut t, &mut v[..room], true).unwrap()
}
