// The way back: the image of kind 01 of a queue whose image of the newest kind a text is.
ghost use Rattle.std.specs.Prelude.{◌≡◌, true, ◌+◌, ◌*◌, ◌≤◌, length};
ghost use Rattle.queue.specs.Codec.{encs};
ghost use Rattle.queue.specs.layout.FrameAs.{limits_in, LimitsFit};
ghost use Rattle.queue.specs.layout.FormsCodec.{rec_in_value, text_form};
ghost use Rattle.queue.specs.layout.RecordsAs.{RecordsIn, recs_at};
ghost use Rattle.queue.specs.bytes.PutAs.{Put};
ghost use Rattle.queue.specs.paper.Kinds.{newest, oldest, rec_said?, shares_said?};
ghost use Rattle.queue.specs.paper.Lists.{all?};
ghost use Rattle.image.specs.ImageAs.{said_f, OldHeadRoom, OldHeadPut, CutIn, CutAt, OldRecRoom, OldRecPut, OldRoom, OldPut, Told, SaidIs, OldLen};

use super::frames::{priority_from, when};
use queue::bytes::put::{copy_text, put_be, put_u8};
use queue::bytes::view::View;
use queue::check::area::Open;
use queue::layout::forms::after_in;
use queue::layout::frame::{Facts, Form, Head, NEWEST, Seen, record_in};
use queue::layout::limits::Limits;
use queue::layout::records::Records;

// The frames of a text of the newest kind.
const TEXT: Form = Form {
    hex: true,
    kind: NEWEST,
};

// Can kind 01 say this of a record?
#[tactic(auto, unfolding(crate::specs::ImageAs::said_f))]
fn sayable(f: Facts) -> bool
    ensures { result ≡ said_f f }
{
    (f.priority < 2147483648 || 18446744071562067968 <= f.priority)
        && f.caller == 0
        && f.mark != 3
        && f.reads == 0
}

// Can it say all of the records?
fn sayable_recs(s: &[u8], recs: Records) -> bool
    requires { RecordsIn (rec_in_value (text_form newest)) s.now recs }
    ensures { result ≡ all? (rec_said? oldest) (recs_at (rec_in_value (text_form newest)) s.now recs) }
{
    let mut i = recs.start;
    for _left in (0..recs.count).rev() {
        let x = record_in(s, TEXT, i);
        let f = x.facts;
        if !sayable(f) {
            return false;
        }
        i = after_in(s, true, i, x.size);
    }
    true
}

// Are the shares P and fifteen zeros?
fn first_share(l: Limits) -> bool
    requires { LimitsFit l }
    ensures { result ≡ shares_said? oldest (limits_in l) }
{
    let mut first = [0u8; 64];
    put_be(&mut first, 0, 4, l.p);
    l.shares == first
}

/// Can kind 01 say the queue that was read from the text?
pub fn said(s: &[u8], x: Open) -> bool
    requires { Told s.now x }
    ensures { SaidIs s.now x result }
{
    let recs = Records {
        start: x.start,
        count: x.head.count,
    };
    first_share(x.head.limits) && sayable_recs(s, recs)
}

/// How long its image of kind 01 is: without the shares, and without caller, half of the priority and the count of read ids of each record.
pub fn old_len(n: usize, x: Open) -> usize
    requires { OldLen n x }
    ensures { n ≡ result + (128 + 10 * x.head.count + 4 * x.sums.holders) }
{
    let h = x.head;
    let a = x.sums;
    n - (128 + 10 * h.count as usize + 4 * a.holders as usize)
}

// The header that was read, as a line of kind 01.
fn put_old_head(v: &View, h: Head, dst: &mut [u8], at: usize) -> usize
    requires { OldHeadRoom v.now h at (length dst.old) }
    ensures { OldHeadPut v.now h dst.old at result dst.new }
{
    let from = h.marks - 8;
    let a = put_u8(dst, at, 48);
    let b = put_u8(dst, a, 49);
    let c = copy_text(v, 1, 16, dst, b);
    let d = copy_text(v, from, h.size - from, dst, c);
    put_u8(dst, d, 10)
}

/// Where the lower half of a record's priority stands, the count of its read ids, and that of its signed bytes.
#[derive(Clone, Copy)]
pub struct Cut {
    pub low: usize,
    pub reads: usize,
    pub signed: usize,
}

fn cut_at(x: Seen) -> Cut
    requires { CutIn x }
    ensures { CutAt x result }
{
    let f = x.facts;
    let p = priority_from(NEWEST, f);
    let e = x.size - when(f.holder, 4 + f.bytes as usize);
    let u = e - when(f.holder, 2);
    Cut {
        low: p + 4,
        reads: u,
        signed: e,
    }
}

// The record that was read, as a line of kind 01.
fn put_old_rec(v: &View, x: Seen, dst: &mut [u8], at: usize) -> usize
    requires { OldRecRoom v.now x at (length dst.old) }
    ensures { OldRecPut v.now x dst.old at result dst.new }
{
    let c = cut_at(x);
    let a = copy_text(v, 0, 33, dst, at);
    let b = copy_text(v, 34, c.low - 38, dst, a);
    let d = copy_text(v, c.low, c.reads - c.low, dst, b);
    let e = copy_text(v, c.signed, x.size - c.signed, dst, d);
    put_u8(dst, e, 10)
}

// The records of the text, as lines of kind 01.
fn put_old_recs(s: &[u8], recs: Records, dst: &mut [u8], to: usize) -> usize
    requires { RecordsIn (rec_in_value (text_form newest)) s.now recs × (all? (rec_said? oldest) (recs_at (rec_in_value (text_form newest)) s.now recs) ≡ true) × (to + length (encs (rec_in_value (text_form oldest)) (recs_at (rec_in_value (text_form newest)) s.now recs)) ≤ length dst.old) }
    ensures { Put dst.old to (encs (rec_in_value (text_form oldest)) (recs_at (rec_in_value (text_form newest)) s.now recs)) (length (encs (rec_in_value (text_form oldest)) (recs_at (rec_in_value (text_form newest)) s.now recs))) result dst.new }
{
    let mut i = recs.start;
    let mut o = to;
    for _left in (0..recs.count).rev() {
        let x = record_in(s, TEXT, i);
        o = put_old_rec(&View::new(s, true, i), x, dst, o);
        i = after_in(s, true, i, x.size);
    }
    o
}

/// The image of kind 01 of the queue that was read from the text.
pub fn put_old(s: &[u8], x: Open, dst: &mut [u8]) -> usize
    requires { OldRoom s.now x (length dst.old) }
    ensures { OldPut s.now x dst.old result dst.new }
{
    let h = x.head;
    let e = put_old_head(&View::new(s, true, 0), h, dst, 0);
    let recs = Records {
        start: x.start,
        count: h.count,
    };
    put_old_recs(s, recs, dst, e)
}
