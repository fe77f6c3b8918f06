// The frames of a queue in the other form: those of an area as lines of text, those of a text, under whatever kind, as an area's.
ghost use Rattle.std.specs.Prelude.{◌≡◌, cond, [], ◌∷◌, ◌+◌, ◌*◌, ◌≤◌, length, take};
ghost use Rattle.queue.specs.Codec.{encs};
ghost use Rattle.queue.specs.layout.FormsCodec.{rec_in_value, area_form, text_form};
ghost use Rattle.queue.specs.layout.RecordsAs.{RecordsIn, recs_at};
ghost use Rattle.queue.specs.bytes.PutAs.{Put};
ghost use Rattle.queue.specs.paper.Area.{line};
ghost use Rattle.queue.specs.paper.Kinds.{newest};
ghost use Rattle.image.specs.ImageAs.{HeadRoom, HeadPut, caller_end_value, priority_from_value, RecRoom, LeadPut, BackRoom, BackPut, RecPut, StoreRoom, StorePut};

use queue::bytes::put::{copy_text, copy_view, put_be, put_u8};
use queue::bytes::view::View;
use queue::check::area::Open;
use queue::layout::forms::after_in;
use queue::layout::frame::{
    CALLERS, Facts, Form, Head, NEWEST, READS, Seen, WIDE, record_at, record_in,
};
use queue::layout::head::put_limits;
use queue::layout::records::Records;

// The frame of n bytes at the start of a view, as a line.
// Kept: a view goes on behind its frame, so n is not how long it is.
fn put_line(v: &View, n: usize, dst: &mut [u8], at: usize) -> usize
    requires { (n ≤ length v.now) × (at + (2 * n + 1) ≤ length dst.old) }
    ensures { Put dst.old at (line (take n v.now)) (2 * n + 1) result dst.new }
{
    let e = copy_text(v, 0, n, dst, at);
    put_u8(dst, e, 10)
}

// The record frames of an area as lines.
fn put_lines(s: &[u8], recs: Records, dst: &mut [u8], to: usize) -> usize
    requires { RecordsIn (rec_in_value area_form) s.now recs × (to + length (encs (rec_in_value (text_form newest)) (recs_at (rec_in_value area_form) s.now recs)) ≤ length dst.old) }
    ensures { Put dst.old to (encs (rec_in_value (text_form newest)) (recs_at (rec_in_value area_form) s.now recs)) (length (encs (rec_in_value (text_form newest)) (recs_at (rec_in_value area_form) s.now recs))) result dst.new }
{
    let mut i = recs.start;
    let mut o = to;
    for _left in (0..recs.count).rev() {
        let x = record_at(s, i);
        o = put_line(&View::new(s, false, i), x.size, dst, o);
        i = after_in(s, false, i, x.size);
    }
    o
}

/// The header frame and the record frames of the queue that was read at base of an area, as lines.
pub fn put_image(s: &[u8], base: usize, x: Open, dst: &mut [u8], at: usize) -> usize
    requires { StoreRoom area_form (text_form newest) s.now base x at (length dst.old) }
    ensures { StorePut area_form (text_form newest) s.now base x dst.old at result dst.new }
{
    let h = x.head;
    let e = put_line(&View::new(s, false, base), h.size, dst, at);
    let recs = Records {
        start: x.start,
        count: h.count,
    };
    put_lines(s, recs, dst, e)
}

// The header that was read under a kind, under the newest one.
fn put_head(v: &View, kind: u8, h: Head, dst: &mut [u8], at: usize) -> usize
    requires { HeadRoom kind v.now h at (length dst.old) }
    ensures { HeadPut kind v.now h dst.old at result dst.new }
{
    let l = h.limits;
    let from = h.marks - 8;
    let a = put_u8(dst, at, NEWEST);
    let b = put_limits(l, dst, a);
    copy_view(v, from, h.size - from, dst, b)
}

// How far the caller reaches in a record of that kind: behind the frame's kind and the id, where the older ones have none.
fn caller_end(kind: u8) -> usize
    ensures { result ≡ caller_end_value kind }
{
    if CALLERS <= kind { 34 } else { 33 }
}

// The frame's kind, the id and the caller of the record that was read: where it has none, 0.
fn put_lead(v: &View, kind: u8, x: Seen, dst: &mut [u8], at: usize) -> usize
    requires { RecRoom kind v.now x at (length dst.old) }
    ensures { LeadPut kind v.now x dst.old at result dst.new }
{
    if CALLERS <= kind {
        return copy_view(v, 0, 34, dst, at);
    }
    let a = copy_view(v, 0, 33, dst, at);
    put_u8(dst, a, 0)
}

// That a holder reads nothing.
fn put_unread(holder: bool, dst: &mut [u8], at: usize) -> usize
    requires { at + cond holder 2 0 ≤ length dst.old }
    ensures { Put dst.old at (cond holder (0 ∷ 0 ∷ []) []) (cond holder 2 0) result dst.new }
{
    if holder {
        return put_be(dst, at, 2, 0);
    }
    at
}

/// n where there is something, else 0.
pub fn when(has: bool, n: usize) -> usize
    ensures { result ≡ cond has n 0 }
{
    if has { n } else { 0 }
}

/// Where the priority stands in a record of that kind.
pub fn priority_from(kind: u8, f: Facts) -> usize
    ensures { result ≡ priority_from_value kind f }
{
    let a = caller_end(kind);
    let b = when(f.due.is_some(), 8);
    let c = when(f.due_height.is_some(), 4);
    a + 12 + b + c
}

// What stands behind the priority, from `from` on: the older kinds have no read ids.
fn put_back(v: &View, kind: u8, x: Seen, from: usize, dst: &mut [u8], at: usize) -> usize
    requires { BackRoom kind v.now x from at (length dst.old) }
    ensures { BackPut kind v.now x from dst.old at result dst.new }
{
    if READS <= kind {
        return copy_view(v, from, x.size - from, dst, at);
    }
    let f = x.facts;
    let a = copy_view(v, from, x.reads - from, dst, at);
    let b = put_unread(f.holder, dst, a);
    copy_view(v, x.reads, x.size - x.reads, dst, b)
}

// The record that was read under a kind, under the newest one: the older ones have 4 bytes of priority, which become 8.
fn put_rec(v: &View, kind: u8, x: Seen, dst: &mut [u8], at: usize) -> usize
    requires { RecRoom kind v.now x at (length dst.old) }
    ensures { RecPut kind v.now x dst.old at result dst.new }
{
    if WIDE <= kind {
        return copy_view(v, 0, x.size, dst, at);
    }
    let f = x.facts;
    let from = caller_end(kind);
    let p = priority_from(kind, f);
    let a = put_lead(v, kind, x, dst, at);
    let b = copy_view(v, from, p - from, dst, a);
    let c = put_be(dst, b, 8, f.priority);
    put_back(v, kind, x, p + 4, dst, c)
}

// The records under the newest kind.
fn put_recs(s: &[u8], form: Form, recs: Records, dst: &mut [u8], to: usize) -> usize
    requires { RecordsIn (rec_in_value form) s.now recs × (to + length (encs (rec_in_value area_form) (recs_at (rec_in_value form) s.now recs)) ≤ length dst.old) }
    ensures { Put dst.old to (encs (rec_in_value area_form) (recs_at (rec_in_value form) s.now recs)) (length (encs (rec_in_value area_form) (recs_at (rec_in_value form) s.now recs))) result dst.new }
{
    let mut i = recs.start;
    let mut o = to;
    for _left in (0..recs.count).rev() {
        let x = record_in(s, form, i);
        o = put_rec(&View::new(s, form.hex, i), form.kind, x, dst, o);
        i = after_in(s, form.hex, i, x.size);
    }
    o
}

/// The header and the records of the queue that was read at base in a form, as an area has them.
pub fn put_queue(s: &[u8], form: Form, base: usize, x: Open, dst: &mut [u8], at: usize) -> usize
    requires { StoreRoom form area_form s.now base x at (length dst.old) }
    ensures { StorePut form area_form s.now base x dst.old at result dst.new }
{
    let h = x.head;
    let e = put_head(&View::new(s, form.hex, base), form.kind, h, dst, at);
    let recs = Records {
        start: x.start,
        count: h.count,
    };
    put_recs(s, form, recs, dst, e)
}
