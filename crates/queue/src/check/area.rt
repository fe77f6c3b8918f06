// A queue found in bytes or in a text, and whether it is sound.
ghost use Rattle.std.specs.Prelude.{◌≡◌, ◌+◌, ◌-◌, ◌*◌, ◌<◌, ◌≤◌, false, ◌&&◌, length, MatchOption, MatchResult};
ghost use Rattle.queue.specs.layout.FrameCodec.{rec_c};
ghost use Rattle.queue.specs.layout.FormsCodec.{form_c, rec_in_value, store_in};
ghost use Rattle.queue.specs.bytes.ReaderAs.{Fails, Found};
ghost use Rattle.queue.specs.layout.RecordsAs.{RecordsIn, recs_at};
ghost use Rattle.queue.specs.check.ScanAs.{SumsAs, counts_n};
ghost use Rattle.queue.specs.layout.FrameAs.{limits_in};
ghost use Rattle.queue.specs.check.AreaAs.{records_of, StoreAs, sound_l, Unfilled, FilledTo, AreaIn, NoArea};

use crate::bytes::view::View;
use crate::check::numbers::distinct;
use crate::check::scan::{Sums, apart, frames, zeros};
use crate::layout::forms::{after_in, ends_line};
use crate::layout::frame::{AREA, Form, Head, Height, head_of};
use crate::layout::limits::Limits;
use crate::layout::records::Records;
use crate::refusal::Refusal;

/// A queue without its persisted height: its header, where its records start and end, and what they come to.
#[derive(Clone, Copy)]
pub struct Open {
    pub head: Head,
    pub start: usize,
    pub next: usize,
    pub sums: Sums,
}

/// A header frame at base, and as many record frames as it says, in one form.
pub fn store_at(s: &[u8], form: Form, base: usize) -> Option<Open>
    requires { base ≤ length s.now }
    ensures { MatchOption result (Fails (store_in form) s.now base) (λ x. Found (store_in form) s.now base x.next (StoreAs form s.now base x)) }
{
    let head = head_of(&View::new(s, form.hex, base), form.kind)?;
    if !ends_line(s, form.hex, base, head.size) {
        return None;
    }
    let start = after_in(s, form.hex, base, head.size);
    let recs = Records {
        start,
        count: head.count,
    };
    let l = head.limits;
    let read = frames(s, form, recs, l.k, head.counter)?;
    Some(Open {
        head,
        start,
        next: read.next,
        sums: read.value,
    })
}

fn counts_ok(n: u64, p: u64, b: u64, t: u64, a: Sums) -> bool
    requires { (p ≤ 1024) × (b ≤ 16777216) × (t ≤ 1024) × (a.holders ≤ n) }
    ensures { result ≡ counts_n n p b t a }
{
    let held = (n <= 2 * p + t) & ((a.holders <= 2 * p) & (a.bytes <= 2 * b));
    let mined = (a.mined <= p) & (a.minedbytes <= b);
    held & (mined & (n - a.holders <= t))
}

/// The rules of a sound queue. Once the counts are right the tables of the last two are large enough; where the one pass could tell by
/// its filter, they need no look.
pub fn sound_at(s: &[u8], form: Form, x: Open) -> bool
    requires { RecordsIn (rec_in_value form) s.now (records_of x) × (length x.head.limits.shares ≡ 64) × SumsAs x.head.limits.k x.head.counter x.sums (recs_at (rec_in_value form) s.now (records_of x)) }
    ensures { result ≡ sound_l (limits_in x.head.limits) x.head.counter.0 (recs_at (rec_in_value form) s.now (records_of x)) }
{
    let h = x.head;
    let a = x.sums;
    let l = h.limits;
    if !Limits::right(l) {
        return false;
    }
    if !counts_ok(h.count, l.p, l.b, l.t, a) {
        return false;
    }
    if !(a.right & a.rises) {
        return false;
    }
    if a.clear & a.unread {
        return true;
    }
    let recs = Records {
        start: x.start,
        count: h.count,
    };
    let d = distinct(s, form, recs, h.count - a.holders);
    let o = apart(s, form, recs, a.unread, a.inputs <= 8192);
    d & o
}

/// A lent area that holds a sound queue: its persisted height, the queue, and how many bytes that needs.
#[derive(Clone, Copy)]
pub struct Area {
    pub persisted: Height,
    pub open: Open,
    pub need: usize,
}

// How long the area is that the limits need, where the rules hold and zeros stand behind the records up to there.
fn filled(s: &[u8], x: Open) -> Option<usize>
    requires { RecordsIn (form_c false rec_c) s.now (records_of x) × (length x.head.limits.shares ≡ 64) × SumsAs x.head.limits.k x.head.counter x.sums (recs_at (form_c false rec_c) s.now (records_of x)) × (x.next ≤ length s.now) }
    ensures { MatchOption result (Unfilled s.now x) (FilledTo s.now x) }
{
    if !sound_at(s, AREA, x) {
        return None;
    }
    let m = Limits::need(x.head.limits);
    let e = x.next;
    if s.len() < m {
        return None;
    }
    if m < e {
        return None;
    }
    if !zeros(s, e, m) {
        return None;
    }
    Some(m)
}

impl Area {
    /// The sound queue that lent bytes hold.
    pub fn read(s: &[u8]) -> Result<Area, Refusal>
        ensures { MatchResult result (AreaIn s.now) (NoArea s.now) }
    {
        let Some(persisted) = View::new(s, false, 0).number(0, 4) else {
            return Err(Refusal::AreaNotSound);
        };
        let Some(open) = store_at(s, AREA, 4) else {
            return Err(Refusal::AreaNotSound);
        };
        let Some(need) = filled(s, open) else {
            return Err(Refusal::AreaNotSound);
        };
        Ok(Area {
            persisted: Height(persisted.value),
            open,
            need,
        })
    }
}
