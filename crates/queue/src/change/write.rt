// The one writer of records that change: an area from an area and the rows of a plan.
ghost use Rattle.std.specs.Prelude.{◌≡◌, ℕ, ◌+◌, ◌*◌, ◌/◌, ◌<◌, ◌≤◌, false, ◌⊎◌, [], length, nat_le, nat_lt};
ghost use Rattle.queue.specs.Codec.{encs};
ghost use Rattle.queue.specs.theorems.Arguments.{Small};
ghost use Rattle.queue.specs.layout.FrameAs.{terms_at};
ghost use Rattle.queue.specs.bytes.PutAs.{Put};
ghost use Rattle.queue.specs.layout.FrameCodec.{rec_c};
ghost use Rattle.queue.specs.read.FindAs.{recs_in};
ghost use Rattle.queue.specs.check.RulesAs.{sum};
ghost use Rattle.queue.specs.check.AreaAs.{AreaIn};
ghost use Rattle.queue.specs.check.NumbersAs.{above};
ghost use Rattle.queue.specs.change.PlanAs.{state_f, reason_f, state_n, reason_n, state_j, reason_j, mark_n, row_numbers, place_n, place_len, tail_n, tail_len, lead_bytes, next_bytes, next_len, step_n, verdict_in_value, EntryFit, PartsIn, RowsIn, planned_in, planned_q, PlanFor};
ghost use Rattle.queue.specs.change.WriteAs.{TipIs, HeadIn, MovedFrom, MovedTo, marks_after, EndedFrom, EndedTo};
ghost use Rattle.queue.specs.change.TouchAs.{verdict_numbers};
ghost use Rattle.queue.specs.change.VerdictAs.{verdict_code};
ghost use Rattle.queue.specs.paper.Area.{area_bytes, over};
ghost use Rattle.queue.specs.paper.Changing.{withdrawn_mark};
ghost use Rattle.queue.specs.layout.StateAs.{state_code};
ghost use Rattle.queue.specs.layout.ReasonAs.{reason_code};

use crate::bytes::put::{copy_part, fill_zero, put_be, put_id, put_u8};
use crate::bytes::view::View;
use crate::change::finish::{Change, floor, plan_ended};
use crate::change::plan::{Row, number_of, row_of};
use crate::change::touch::{Judgement, verdict_of};
use crate::change::verdict::Verdict;
use crate::check::area::Area;
use crate::check::rules::Query;
use crate::layout::frame::{Facts, Finish, Head, Height, Seen, TERMS, record_at};
use crate::layout::head::{FRONT, Marks, put_front, tip_len};
use crate::layout::reason::Reason;
use crate::layout::records::Records;
use crate::layout::state::State;

// The tip of an area's cursor, where there is one.
pub fn tip_at(s: &[u8], h: Head) -> Option<[u8; 32]>
    requires { HeadIn s.now h }
    ensures { TipIs s.now h result }
{
    if h.tip {
        return Some(View::new(s, false, 4).id(94));
    }
    None
}

// The state and the reason of a record that is reopened.
fn state_again(f: Facts) -> State
    ensures { state_code result ≡ state_f f }
{
    if f.mark == 0 {
        if f.holder {
            return State::Queued;
        }
        return State::Expired;
    }
    if f.mark == State::Cancelled as u64 {
        State::Cancelled
    } else {
        State::Expired
    }
}

fn reason_again(f: Facts) -> Reason
    ensures { reason_code result ≡ reason_f f }
{
    if f.mark == 0 {
        if f.holder {
            return Reason::RolledBack;
        }
        return Reason::RolledBackAfterRelease;
    }
    if f.mark == State::Cancelled as u64 {
        return Reason::Cancelled;
    }
    if f.mark == State::Expired as u64 {
        Reason::DeadlineElapsed
    } else {
        Reason::RolledBackAfterRelease
    }
}

// State, reason and mark after a verdict; n is the finish number that the record gets, else 0.
// Kept: a number, since a record that stays has the state that was read of it, and areas that are not sound are read too.
fn state_next(what: Verdict, n: Finish, f: Facts) -> u64
    requires { f.state < 256 }
    ensures { (result ≡ state_n (verdict_code what) n.0 f) × (result < 256) }
{
    match what {
        Verdict::Reopened => u64::from(state_again(f)),
        Verdict::Cancelled => State::Cancelled as u64,
        Verdict::Expired => State::Expired as u64,
        _ => state_judged(what, n, f),
    }
}

// The same after a reconciliation's verdict: a record that is released is Mined.
// Kept: a number, as in state_next.
fn state_judged(what: Verdict, n: Finish, f: Facts) -> u64
    requires { f.state < 256 }
    ensures { (result ≡ state_j (verdict_code what) n.0 f) × (result < 256) }
{
    if n.0 != 0 {
        return State::Mined as u64;
    }
    match what {
        Verdict::Stays => f.state,
        Verdict::Confirmed => State::Mined as u64,
        Verdict::Queued => State::Queued as u64,
        _ => State::Conflicted as u64,
    }
}

// Kept: a number, as in state_next.
fn reason_next(what: Verdict, n: Finish, f: Facts) -> u64
    requires { f.reason < 256 }
    ensures { (result ≡ reason_n (verdict_code what) n.0 f) × (result < 256) }
{
    match what {
        Verdict::Reopened => u64::from(reason_again(f)),
        Verdict::Cancelled => Reason::Cancelled as u64,
        Verdict::Expired => Reason::DeadlineElapsed as u64,
        _ => reason_judged(what, n, f),
    }
}

// Kept: a number, as in state_next.
fn reason_judged(what: Verdict, n: Finish, f: Facts) -> u64
    requires { f.reason < 256 }
    ensures { (result ≡ reason_j (verdict_code what) n.0 f) × (result < 256) }
{
    if n.0 != 0 {
        return Reason::None as u64;
    }
    match what {
        Verdict::Stays => f.reason,
        Verdict::Confirmed => Reason::None as u64,
        Verdict::Queued => Reason::None as u64,
        _ => Reason::InputsUnavailable as u64,
    }
}

fn mark_next(what: Verdict, f: Facts) -> u64
    requires { (f.state < 256) × (f.mark < 256) }
    ensures { (result ≡ mark_n (verdict_code what) f) × (result < 256) }
{
    match what {
        Verdict::Reopened => 0,
        Verdict::Confirmed => mark_confirmed(f),
        _ => f.mark,
    }
}

// The mark of a record that is confirmed: what it was finished as before.
fn mark_confirmed(f: Facts) -> u64
    requires { (f.state < 256) × (f.mark < 256) }
    ensures { (result ≡ withdrawn_mark f.state f.reason f.mark) × (result < 256) }
{
    let released = f.reason == Reason::RolledBackAfterRelease as u64;
    if (f.state == State::Expired as u64) & released {
        return 3;
    }
    if (f.state == State::Cancelled as u64) | (f.state == State::Expired as u64) {
        return f.state;
    }
    f.mark
}

// A record's bytes up to its terms.
pub fn put_lead(
    id: [u8; 32],
    caller: u64,
    state: u64,
    reason: u64,
    dst: &mut [u8],
    at: usize,
) -> usize
    requires { at + terms_at ≤ length dst.old }
    ensures { Put dst.old at (lead_bytes id caller state reason) terms_at result dst.new }
{
    let a = put_u8(dst, at, 2);
    let b = put_id(dst, a, id);
    let c = put_be(dst, b, 1, caller);
    let d = put_be(dst, c, 1, state);
    put_be(dst, d, 1, reason)
}

// The place: the applied entry's, none, or the record's own.
fn put_place(
    src: &[u8],
    base: usize,
    x: Seen,
    t: &[u8],
    v: Judgement,
    dst: &mut [u8],
    at: usize,
) -> usize
    requires { PartsIn src.now base x × (verdict_code v.what ≡ 1 → v.at + 68 ≤ length t.now) × (at + place_len x (verdict_numbers v) ≤ length dst.old) }
    ensures { Put dst.old at (place_n src.now base x t.now (verdict_numbers v)) (place_len x (verdict_numbers v)) result dst.new }
{
    match v.what {
        Verdict::Confirmed => {
            let a = put_u8(dst, at, 1);
            copy_part(t, v.at + 32, 36, dst, a)
        }
        Verdict::Reopened => put_u8(dst, at, 0),
        _ => {
            let p = x.after;
            copy_part(src, base + p, x.mark - p, dst, at)
        }
    }
}

// Finish number and body: the record's own, or those of one that is finished.
fn put_tail(src: &[u8], base: usize, x: Seen, n: Finish, dst: &mut [u8], at: usize) -> usize
    requires { PartsIn src.now base x × (at + tail_len x n.0 ≤ length dst.old) }
    ensures { Put dst.old at (tail_n src.now base x n.0) (tail_len x n.0) result dst.new }
{
    if n.0 != 0 {
        let a = put_be(dst, at, 8, n.0);
        return put_u8(dst, a, 0);
    }
    let m = x.mark + 1;
    copy_part(src, base + m, x.size - m, dst, at)
}

// The record read at base, after its verdict.
fn put_next(
    src: &[u8],
    base: usize,
    x: Seen,
    t: &[u8],
    v: Judgement,
    n: Finish,
    dst: &mut [u8],
    at: usize,
) -> usize
    requires { PartsIn src.now base x × (verdict_code v.what ≡ 1 → v.at + 68 ≤ length t.now) × ((x.facts.state < 256) × (x.facts.reason < 256) × (x.facts.mark < 256)) × (at + next_len x (verdict_numbers v) n.0 ≤ length dst.old) }
    ensures { Put dst.old at (next_bytes src.now base x t.now (verdict_numbers v) n.0) (next_len x (verdict_numbers v) n.0) result dst.new }
{
    let f = x.facts;
    let id = x.id;
    let p = x.after;
    let a = put_lead(
        id,
        f.caller,
        state_next(v.what, n, f),
        reason_next(v.what, n, f),
        dst,
        at,
    );
    let b = copy_part(src, base + TERMS, p - TERMS, dst, a);
    let c = put_place(src, base, x, t, v, dst, b);
    let d = put_be(dst, c, 1, mark_next(v.what, f));
    put_tail(src, base, x, n, dst, d)
}

// The same, or nothing of one that is forgotten.
fn put_step(
    src: &[u8],
    base: usize,
    x: Seen,
    t: &[u8],
    v: Judgement,
    n: Finish,
    dst: &mut [u8],
    at: usize,
) -> usize
    requires { PartsIn src.now base x × (verdict_code v.what ≡ 1 → v.at + 68 ≤ length t.now) × ((x.facts.state < 256) × (x.facts.reason < 256) × (x.facts.mark < 256)) × (at + length (step_n src.now base x t.now (verdict_numbers v) n.0) ≤ length dst.old) }
    ensures { Put dst.old at (step_n src.now base x t.now (verdict_numbers v) n.0) (length (step_n src.now base x t.now (verdict_numbers v) n.0)) result dst.new }
{
    match v.what {
        Verdict::Forgotten => at,
        _ => put_next(src, base, x, t, v, n, dst, at),
    }
}

// A row's verdict; where an applied entry confirms its record, the record's own verdict has the entry's number.
fn verdict_in(t: &[u8], vs: &[u64], x: Row) -> Judgement
    requires { EntryFit t.now vs.now (row_numbers x) }
    ensures { (verdict_numbers result ≡ verdict_in_value vs.now (row_numbers x)) × (verdict_code result.what ≡ 1 → result.at + 68 ≤ length t.now) }
{
    match x.what {
        Verdict::Confirmed => {
            let i = x.index;
            verdict_of(t, vs[i])
        }
        _ => Judgement {
            what: x.what,
            at: 0,
        },
    }
}

// The records of src, each with its row's change, to place `to` of dst: what stands between two rows is copied in one piece.
fn put_rows(
    src: &[u8],
    a: Area,
    t: &[u8],
    vs: &[u64],
    rows: &[u64],
    dst: &mut [u8],
    to: usize,
) -> usize
    requires { AreaIn src.now a × Small t.now × RowsIn src.now a t.now vs.now rows.now × (to + length (encs rec_c (planned_in src.now a t.now vs.now rows.now)) ≤ length dst.old) }
    ensures { Put dst.old to (encs rec_c (planned_in src.now a t.now vs.now rows.now)) (length (encs rec_c (planned_in src.now a t.now vs.now rows.now))) result dst.new }
{
    let p = a.open;
    let h = p.head;
    let mut from = p.start;
    let mut o = to;
    for k in 0..rows.len() {
        let w = row_of(rows[k]);
        let at = w.place;
        let e = copy_part(src, from, at - from, dst, o);
        let x = record_at(src, at);
        let v = verdict_in(t, vs, w);
        let n = number_of(h.counter, w.rank);
        o = put_step(src, at, x, t, v, n, dst, e);
        from = at + x.size;
    }
    copy_part(src, from, p.next - from, dst, o)
}

// The queue of src with another front and what a plan makes of its records.
pub fn put_planned(
    src: &[u8],
    a: Area,
    m: Marks,
    t: &[u8],
    vs: &[u64],
    rows: &[u64],
    dst: &mut [u8],
)
    requires { PlanFor src.now a m t.now vs.now rows.now × (a.need ≤ length dst.old) }
    ensures { dst.new ≡ over (area_bytes (planned_q src.now a m t.now vs.now rows.now)) dst.old }
{
    let p = a.open;
    let h = p.head;
    let l = h.limits;
    let tip = m.tip;
    let to = FRONT + tip_len(tip);
    let e = put_rows(src, a, t, vs, rows, dst, to);
    put_front(l, m, dst);
    fill_zero(dst, e, a.need);
}

// The same for a plan without verdicts.
pub fn put_plain(src: &[u8], a: Area, m: Marks, rows: &[u64], dst: &mut [u8])
    requires { PlanFor src.now a m [] [] rows.now × (a.need ≤ length dst.old) }
    ensures { dst.new ≡ over (area_bytes (planned_q src.now a m [] [] rows.now)) dst.old }
{
    put_planned(src, a, m, &src[..0], &rows[..0], rows, dst);
}

// The queue of src with another persisted height and cursor.
pub fn put_moved(
    src: &[u8],
    a: Area,
    persisted: Height,
    cursor: Height,
    tip: Option<[u8; 32]>,
    dst: &mut [u8],
)
    requires { MovedFrom src.now a persisted cursor tip × (a.need ≤ length dst.old) }
    ensures { MovedTo src.now a persisted cursor tip dst.old dst.new }
{
    let x = a.open;
    let h = x.head;
    let n = h.counter;
    let m = Marks {
        persisted: persisted,
        revision: h.revision,
        cursor: cursor,
        tip: tip,
        counter: n,
        count: h.count,
    };
    let none = [0u64; 1];
    put_plain(src, a, m, &none[..0], dst);
}

// The floor where m more records are finished; what the check counted says whether any is forgotten.
fn floor_of(s: &[u8], a: Area, m: u64) -> Finish
    requires { AreaIn s.now a × (m ≤ a.open.head.count) × (a.open.head.counter.0 + m < 18446744073709551616) }
    ensures { ((sum Query.Tombstones (recs_in s.now a) + m ≤ a.open.head.limits.t) × (result.0 ≡ 0)) ⊎ ((x : ℕ) → nat_lt (above a.open.head.counter.0 m (recs_in s.now a) x) a.open.head.limits.t ≡ nat_le result.0 x) }
{
    let x = a.open;
    let h = x.head;
    let u = x.sums;
    let n = h.counter;
    let l = h.limits;
    if h.count - u.holders + m <= l.t {
        return Finish(0);
    }
    let recs = Records {
        start: x.start,
        count: h.count,
    };
    floor(s, recs, n, m, l.t)
}

// The front of a queue that is committed with m records finished and so many kept, under the cursor that it has.
pub fn marks_next(h: Head, tip: Option<[u8; 32]>, m: u64, kept: u64) -> Marks
    requires { h.counter.0 + m < 18446744073709551616 }
    ensures { result ≡ marks_after h tip m kept }
{
    let n = h.counter;
    let cursor = h.cursor;
    Marks {
        persisted: cursor,
        revision: std::num::wrapping_add_u64(h.revision, 1),
        cursor: cursor,
        tip: tip,
        counter: Finish(n.0 + m),
        count: kept,
    }
}

// The queue of src with those picked finished, m of them, and the lowest finish numbers beyond T forgotten.
pub fn put_ended(src: &[u8], a: Area, c: Change, id: [u8; 32], m: u64, dst: &mut [u8])
    requires { EndedFrom src.now a c id m × (a.need ≤ length dst.old) }
    ensures { EndedTo src.now a c id dst.old dst.new }
{
    let x = a.open;
    let h = x.head;
    let tip = tip_at(src, h);
    let f = floor_of(src, a, m);
    let mut rows = [0u64; 3072];
    let p = plan_ended(src, a, c, id, f, &mut rows);
    let marks = marks_next(h, tip, m, p.kept);
    put_plain(src, a, marks, &rows[..p.rows], dst);
}
