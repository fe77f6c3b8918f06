// Who waits for whom among rows of the selection: a bit for each pair, set where an output of one is wanted by the other.
// The ids that records want go into a table, a block of records at a time: each id into its slot, or behind others where the slot is
// taken. Its row names who wants it: those behind others are joined, so that one names up to 16 records. Then every output is looked
// up: in its slot, and by bisection among the others, if a filter says so. Slots and filter only cost or save time, whatever the ids are.
ghost use Rattle.std.specs.Prelude.{◌≡◌, ◌+◌, ◌*◌, ◌/◌, ◌%◌, ◌<◌, ◌≤◌, true, false, ◌&&◌, List, ℕ, length, take, get_or, set, nat_le, nat_lt};
ghost use Rattle.queue.specs.Codec.{All};
ghost use Rattle.queue.specs.layout.FrameCodec.{id_c};
ghost use Rattle.queue.specs.bytes.ViewAs.{view};
ghost use Rattle.queue.specs.bytes.ReaderAs.{whole, list_at};
ghost use Rattle.queue.specs.check.SuspectsAs.{id_r, no_r, later, InOrder};
ghost use Rattle.queue.specs.read.FeesAs.{Known};
ghost use Rattle.queue.specs.read.LinksAs.{wants_at, group_mask_value, names, Others, OutsTo, Short, Joined, hit, in_line, Zero, Cleared, Slotted, RowsHold, Rowed, Begins, Again, Thinner, Thinned, Linked, outputs_linked, LinksIn};
ghost use Rattle.queue.specs.paper.Lists.{any?};
ghost use Rattle.queue.specs.paper.Sound.{among?};
ghost use Rattle.queue.specs.check.FilterAs.{slot_l, hash_all_value};

use crate::bytes::view::{View, same_id};
use crate::check::filter::{Filter, bit, hash_all, slot};
use crate::check::suspects::{bisect, cmp_rows, in_order, order_rows, row_at};
use crate::layout::frame::record_at;
use std::marker::Model;

// The line of a row: its bits, in `width` words from `start` on.
#[derive(Clone, Copy)]
pub struct Line {
    pub width: usize,
    pub start: usize,
    pub row: usize,
}

// The records up to row `next` have their rows; so many of these stand behind each other.
#[derive(Clone, Copy)]
pub struct Batch {
    pub next: usize,
    pub len: usize,
}

// All set to 0, if they are to be.
pub fn clear(v: &mut [u64], go: bool)
    ensures { Cleared go v.old v.new }
{
    if !go {
        return;
    }
    v.fill(0);
}

/// The slots, at least one: a row in each, or 0.
#[derive(Drop)]
pub struct Slots<'a> {
    rows: &'a mut [u64],
}

// What its rows are.
impl<'a> Model for Slots<'a> {
    ghost Value = { List ℕ };

    ghost view = { λ s. s.rows.now };

    ghost invariant = { λ s. 0 < length s.rows.now };
}

impl<'a> Slots<'a> {
    /// As many slots as there are rows.
    #[inline(always)]
    pub fn new(rows: &'a mut [u64]) -> Slots<'a>
        requires { 0 < length rows.old }
        ensures { result ≡ rows.old }
    {
        Slots { rows }
    }

    // The row in the slot of the number h.
    #[inline(always)]
    fn row(&self, h: u64) -> u64
        ensures is { result ≡ get_or self.now (slot_l (length self.now) h) 0 }
        ensures some { 0 < length self.now }
    {
        let i = slot(self.rows.len(), h);
        self.rows[i]
    }

    // The row w into the slot of the number h.
    #[inline(always)]
    fn put(&mut self, h: u64, w: u64)
        ensures { self.new ≡ set self.old (slot_l (length self.old) h) w }
    {
        let i = slot(self.rows.len(), h);
        self.rows[i] = w;
    }

    // All set to 0, if they are to be.
    fn clear(&mut self, go: bool)
        ensures is { Cleared go self.old self.new }
        ensures size { length self.new ≡ length self.old }
    {
        clear(self.rows, go);
    }
}

// The row w into its slot, or behind the k rows of v; returns how many there are then.
fn keep_row(slots: &mut Slots, t: &mut Filter, v: &mut [u64], k: usize, h: u64, w: u64) -> usize
    requires { k < length v.old }
    ensures { Slotted h w k slots.old t.old v.old result slots.new t.new v.new }
{
    if slots.row(h) == 0 {
        slots.put(h, w);
        return k;
    }
    t.mark(h);
    v[k] = w;
    k + 1
}

// What rows of record number m have as their number: its group of 16 records, and its bit there.
fn group_mask(m: u64) -> u64
    requires { m < 2048 }
    ensures { (result ≡ group_mask_value m) × (result < 4294967296) }
{
    m / 16 * 65536 + bit(m % 16)
}

// Rows for the c ids at offset `at` of the frame at base, which record number m wants.
fn keep_ids(
    s: &[u8],
    base: usize,
    at: usize,
    c: u64,
    m: u64,
    slots: &mut Slots,
    t: &mut Filter,
    v: &mut [u64],
    k: usize,
) -> usize
    requires { (at ≤ length (view false s.now base)) × (whole id_c c (view false s.now base) at ≡ true) × (length s.now < 4294967296) × (m < 2048) × (k + c ≤ length v.old) }
    ensures { Rowed s.now m (list_at id_c c (view false s.now base) at) slots.old t.old (take k v.old) slots.new t.new (take result v.new) × (result ≤ k + c) }
{
    let frame = View::new(s, false, base);
    let mut i = at;
    let mut n = k;
    let g = group_mask(m);
    for _left in (0..c).rev() {
        let h = hash_all(frame.id(i));
        let w = row_at(s, false, base, i, g);
        n = keep_row(slots, t, v, n, h, w);
        i += 32;
    }
    n
}

// An offset and a number of ids in one.
fn pack(a: usize, n: u64) -> u64
    requires { (a < 4294967296) × (n < 4294967296) }
    ensures { (result / 4294967296 ≡ a) × (result % 4294967296 ≡ n) }
{
    a as u64 * 4294967296 + n
}

// Rows for what the records from row a on want, for as many records as there is room. Where their outputs stand goes into outs, so that
// where there is room for all no record is read again.
fn keep_rows(
    s: &[u8],
    at: &[usize],
    a: usize,
    outs: &mut [u64],
    slots: &mut Slots,
    t: &mut Filter,
    v: &mut [u64],
) -> Batch
    requires { All (Known s.now) at.now × All (Short s.now) at.now × (length s.now < 4294967296) × (a < length at.now) × (length at.now ≤ 2048) × (256 ≤ length v.old) × Zero slots.old × (length at.now ≡ length outs.old) × OutsTo s.now at.now outs.old a }
    ensures { RowsHold s.now slots.new t.new (take result.len v.new) (λ j z. (nat_le a j && nat_lt j result.next) && among? z (wants_at s.now at.now j)) × (a < result.next) × (result.next ≤ length at.now) × (result.len ≤ length v.old) × OutsTo s.now at.now outs.new result.next × (length slots.new ≡ length slots.old) × (length t.new ≡ length t.old) }
{
    let mut k: usize = 0;
    for b in a..at.len() {
        if v.len() - k < 256 {
            return Batch { next: b, len: k };
        }
        let p = at[b];
        let x = record_at(s, p);
        let f = x.facts;
        k = keep_ids(s, p, x.at, f.ins, b as u64, slots, t, v, k);
        k = keep_ids(s, p, x.reads, f.reads, b as u64, slots, t, v, k);
        outs[b] = pack(x.outs, f.outs);
    }
    Batch {
        next: at.len(),
        len: k,
    }
}

// Where the outputs of the records from row `from` on stand.
fn note_outs(s: &[u8], at: &[usize], from: usize, outs: &mut [u64])
    requires { All (Known s.now) at.now × (length s.now < 4294967296) × (length at.now ≡ length outs.old) × (length at.now ≤ 2048) × (from ≤ length at.now) × OutsTo s.now at.now outs.old from }
    ensures { OutsTo s.now at.now outs.new (length at.now) }
{
    for i in from..at.len() {
        let x = record_at(s, at[i]);
        let f = x.facts;
        outs[i] = pack(x.outs, f.outs);
    }
}

// Has the row x a number, and the id of y? Two ids are compared without an early way out; rows too near the end have none.
fn is_row_of(s: &[u8], y: u64, x: u64) -> bool
    ensures { result ≡ later false s.now (id_r false s.now y) 0 x }
{
    if x % 4294967296 == 0 {
        return false;
    }
    let a = View::new(s, false, (y / 4294967296) as usize);
    let b = View::new(s, false, (x / 4294967296) as usize);
    if a.len() < 32 {
        return cmp_rows(s, false, y, x).is_eq();
    }
    if b.len() < 32 {
        return cmp_rows(s, false, y, x).is_eq();
    }
    same_id(a.id(0), b.id(0))
}

// The bits of the group of n, without that of record number j.
fn others(n: u64, j: u64) -> u64
    ensures { Others n j result }
{
    let m = n % 65536;
    if j / 16 != n / 65536 {
        return m;
    }
    let b = bit(j % 16);
    if m / b % 2 == 0 {
        return m;
    }
    m - b
}

// The bits of the records that the row x is for, in a line: that of the line's own row stays out.
fn link_row(bits: &mut [u64], l: Line, found: bool, x: u64)
    requires { (l.start ≡ l.row * l.width) × (l.start + l.width ≤ length bits.old) }
    ensures { Joined l.width bits.old bits.new (λ i j. (found && names (no_r x) j) && in_line l.row i j) }
{
    if !found {
        return;
    }
    let n = x % 4294967296;
    let g = n / 65536;
    let a = g / 4;
    if l.width as u64 <= a {
        return;
    }
    let y = others(n, l.row as u64);
    let p = l.start + a as usize;
    let b = bits[p];
    bits[p] = b | y * bit(g % 4 * 16);
}

// The bits for the rows of v with the id of y. In order, these stand behind each other from `from` on.
fn link_run(s: &[u8], v: &[u64], from: usize, ordered: bool, y: u64, bits: &mut [u64], l: Line)
    requires { Begins ordered s.now v.now y from × (no_r y ≡ 0) × (l.start ≡ l.row * l.width) × (l.start + l.width ≤ length bits.old) }
    ensures { Joined l.width bits.old bits.new (λ i j. any? (hit s.now j (id_r false s.now y)) v.now && in_line l.row i j) }
{
    for k in from..v.len() {
        let x = v[k];
        let found = is_row_of(s, y, x);
        if ordered & !found {
            return;
        }
        link_row(bits, l, found, x);
    }
}

// The same, quickly where the rows are in order.
fn link_rows(s: &[u8], v: &[u64], ordered: bool, y: u64, bits: &mut [u64], l: Line)
    requires { (ordered ≡ true → InOrder false s.now v.now) × (no_r y ≡ 0) × (l.start ≡ l.row * l.width) × (l.start + l.width ≤ length bits.old) }
    ensures { Joined l.width bits.old bits.new (λ i j. any? (hit s.now j (id_r false s.now y)) v.now && in_line l.row i j) }
{
    if ordered {
        let b = bisect(s, false, v, y);
        link_run(s, v, b, true, y, bits, l);
        return;
    }
    link_run(s, v, 0, false, y, bits, l);
}

// The bits for all that want the id of y, whose number is h.
fn link_id(
    s: &[u8],
    y: u64,
    h: u64,
    slots: &Slots,
    t: &Filter,
    v: &[u64],
    ordered: bool,
    bits: &mut [u64],
    l: Line,
)
    requires { (h ≡ hash_all_value (id_r false s.now y)) × (no_r y ≡ 0) × (ordered ≡ true → InOrder false s.now v.now) × (l.start ≡ l.row * l.width) × (l.start + l.width ≤ length bits.old) }
    ensures { Linked l.width s.now slots.now t.now v.now bits.old bits.new (λ own i j. own j (id_r false s.now y) && in_line l.row i j) }
{
    let x = slots.row(h);
    let found = is_row_of(s, y, x);
    link_row(bits, l, found, x);
    if !t.seen(h) {
        return;
    }
    link_rows(s, v, ordered, y, bits, l);
}

// The bits for all that want one of the c ids at offset `at` of the frame at base.
fn link_ids(
    s: &[u8],
    base: usize,
    at: usize,
    c: u64,
    slots: &Slots,
    t: &Filter,
    v: &[u64],
    ordered: bool,
    bits: &mut [u64],
    l: Line,
)
    requires { (at ≤ length (view false s.now base)) × (whole id_c c (view false s.now base) at ≡ true) × (length s.now < 4294967296) × (ordered ≡ true → InOrder false s.now v.now) × (l.start ≡ l.row * l.width) × (l.start + l.width ≤ length bits.old) }
    ensures { Linked l.width s.now slots.now t.now v.now bits.old bits.new (λ own i j. any? (own j) (list_at id_c c (view false s.now base) at) && in_line l.row i j) }
{
    let frame = View::new(s, false, base);
    let mut i = at;
    for _left in (0..c).rev() {
        let h = hash_all(frame.id(i));
        let y = row_at(s, false, base, i, 0);
        link_id(s, y, h, slots, t, v, ordered, bits, l);
        i += 32;
    }
}

// The bits for all that want an output of a row.
fn link_all(
    s: &[u8],
    at: &[usize],
    outs: &[u64],
    slots: &Slots,
    t: &Filter,
    v: &[u64],
    ordered: bool,
    bits: &mut [u64],
    w: usize,
)
    requires { OutsTo s.now at.now outs.now (length at.now) × (length at.now ≡ length outs.now) × (length s.now < 4294967296) × (ordered ≡ true → InOrder false s.now v.now) × (length at.now * w ≤ length bits.old) × (length at.now ≤ 2048) }
    ensures { Linked w s.now slots.now t.now v.now bits.old bits.new (outputs_linked s.now at.now) }
{
    let mut o: usize = 0;
    for i in 0..at.len() {
        let p = at[i];
        let c = outs[i];
        let l = Line {
            width: w,
            start: o,
            row: i,
        };
        link_ids(
            s,
            p,
            (c / 4294967296) as usize,
            c % 4294967296,
            slots,
            t,
            v,
            ordered,
            bits,
            l,
        );
        o += w;
    }
}

// Has the last of the first k rows the id and the group of x?
fn is_again(s: &[u8], v: &[u64], k: usize, x: u64) -> bool
    requires { k ≤ length v.now }
    ensures { result ≡ true → Again s.now v.now k x }
{
    if k == 0 {
        return false;
    }
    let w = v[k - 1];
    cmp_rows(s, false, w, x).is_eq() & (w % 4294967296 / 65536 == x % 4294967296 / 65536)
}

// The row x behind k others, or its number into the last of these; returns how many there are then.
fn add_once(s: &[u8], v: &mut [u64], k: usize, x: u64) -> usize
    requires { k < length v.old }
    ensures { Thinner s.now v.old k x result v.new }
{
    if is_again(s, v, k, x) {
        let w = v[k - 1];
        v[k - 1] = w | x % 4294967296;
        return k;
    }
    v[k] = x;
    k + 1
}

// The rows of v, which is in order: those of one id and one group become one. An id that one record wants often costs no more, and
// one that all want a row for 16 records. How many are left, at the front.
fn thin(s: &[u8], v: &mut [u64]) -> usize
    ensures { Thinned s.now v.old (take result v.new) × (result ≤ length v.old) }
{
    let n = v.len();
    let mut k: usize = 0;
    for i in 0..n {
        let x = v[i];
        k = add_once(s, v, k, x);
    }
    k
}

// The bits for all that want an output of a row, by rows that have been put in order.
fn link_ordered(
    s: &[u8],
    at: &[usize],
    outs: &[u64],
    slots: &Slots,
    t: &Filter,
    v: &[u64],
    bits: &mut [u64],
    w: usize,
)
    requires { OutsTo s.now at.now outs.now (length at.now) × (length at.now ≡ length outs.now) × (length s.now < 4294967296) × (length at.now * w ≤ length bits.old) × (length at.now ≤ 2048) }
    ensures { Linked w s.now slots.now t.now v.now bits.old bits.new (outputs_linked s.now at.now) }
{
    let o = in_order(s, false, v);
    link_all(s, at, outs, slots, t, v, o, bits, w);
}

// The rows of v are put in order first, and joined.
fn link_block(
    s: &[u8],
    at: &[usize],
    outs: &[u64],
    slots: &Slots,
    t: &Filter,
    v: &mut [u64],
    bits: &mut [u64],
    w: usize,
)
    requires { OutsTo s.now at.now outs.now (length at.now) × (length at.now ≡ length outs.now) × (length s.now < 4294967296) × (length at.now * w ≤ length bits.old) × (length at.now ≤ 2048) }
    ensures { Linked w s.now slots.now t.now v.old bits.old bits.new (outputs_linked s.now at.now) }
{
    order_rows(s, false, v);
    let n = thin(s, v);
    link_ordered(s, at, outs, slots, t, &v[..n], bits, w);
}

// The bits of all pairs of rows: that of j in the line of i, where another record j wants an output of i. The slots are empty at first; in outs it is noted
// where outputs stand.
// Kept: each turn takes as many rows as there was room for, which no range says.
pub fn links(
    s: &[u8],
    at: &[usize],
    outs: &mut [u64],
    slots: &mut Slots,
    t: &mut Filter,
    v: &mut [u64],
    bits: &mut [u64],
    w: usize,
)
    requires { All (Known s.now) at.now × All (Short s.now) at.now × (length s.now < 4294967296) × (length at.now ≤ 2048) × (256 ≤ length v.old) × (length at.now * w ≤ length bits.old) × Zero slots.old × Zero bits.old × (length at.now ≡ length outs.old) }
    ensures is { LinksIn w s.now at.now bits.new }
    ensures sizes { (length slots.new ≡ length slots.old) × (length t.new ≡ length t.old) }
{
    let mut a: usize = 0;
    while a < at.len() {
        slots.clear(0 < a);
        t.clear(0 < a);
        let b = keep_rows(s, at, a, outs, slots, t, v);
        note_outs(s, at, b.next, outs);
        let n = b.len;
        link_block(s, at, outs, slots, t, &mut v[..n], bits, w);
        a = b.next;
    }
}
