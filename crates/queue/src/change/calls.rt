// The changing calls and settling, on lent areas. Everything that can refuse is decided before a byte is written.
ghost use Rattle.std.specs.Prelude.{◌≡◌, ◌+◌, ◌<◌, ◌≤◌, true, false, [], length};
ghost use Rattle.queue.specs.layout.FrameAs.{terms_at};
ghost use Rattle.queue.specs.bytes.PutAs.{Put};
ghost use Rattle.queue.specs.layout.FrameCodec.{rec_c};
ghost use Rattle.queue.specs.layout.RecordsAs.{RecordsIn, recs_at};
ghost use Rattle.queue.specs.layout.FormsCodec.{form_c};
ghost use Rattle.queue.specs.change.FinishAs.{picked};
ghost use Rattle.queue.specs.paper.Lists.{filter, map, concat, count};
ghost use Rattle.queue.specs.paper.Records.{Rec};
ghost use Rattle.queue.specs.change.CallsAs.{end_bytes, id_if, picked_ids, FoundIn, HeldIn, CancelTold, ExpireTold};
ghost use Rattle.queue.specs.check.AreaAs.{AreaIn};
ghost use Rattle.queue.specs.Refusal.{answer_of};
ghost use Rattle.queue.specs.Checked.{outcome, written, set_cursor_of, cancel_of, expire_of};
ghost use Rattle.queue.specs.paper.Calls.{settle_shape?, settle_of};

use crate::Kind;
use crate::bytes::put::{copy_part, put_be, put_id};
use crate::bytes::view::View;
use crate::change::finish::{Change, hits, picks};
use crate::change::write::{put_ended, put_moved};
use crate::check::area::Area;
use crate::layout::frame::{Height, Seen, TERMS, Time, record_at};
use crate::layout::reason::Reason;
use crate::layout::records::Records;
use crate::layout::state::State;
use crate::read::entry::{entry_len, put_entry};
use crate::read::find::find_id;
use crate::refusal::Refusal;

/// Cursor setting. Refusals 3, 2, 5.
pub fn set_cursor(
    cur: &[u8],
    next: &mut [u8],
    height: u32,
    flag: u8,
    tip: &[u8],
) -> Result<Kind, Refusal>
    ensures { outcome (answer_of result) next.new [] ≡ set_cursor_of cur.now next.old height flag tip.now }
{
    let a = Area::read(cur)?;
    if next.len() < a.need {
        return Err(Refusal::AreaTooShort);
    }
    match flag {
        0 => {
            put_moved(cur, a, a.persisted, Height(height as u64), None, next);
            Ok(Kind::Memory)
        }
        1 if tip.len() == 32 => {
            let id = View::new(tip, false, 0).id(0);
            put_moved(cur, a, a.persisted, Height(height as u64), Some(id), next);
            Ok(Kind::Memory)
        }
        _ => Err(Refusal::Malformed),
    }
}

/// Settling. Refusals 3, 2, 5; 17 where the write failed.
pub fn settle(cur: &[u8], next: &mut [u8], kind: u64, outcome: u64) -> Result<Kind, Refusal>
    ensures { written (answer_of result) next.new ≡ settle_of cur.now next.old kind outcome }
{
    let a = Area::read(cur)?;
    if kind == 2 && outcome == 1 {
        if next.len() < a.need {
            return Err(Refusal::AreaTooShort);
        }
        copy_part(cur, 0, a.need, next, 0);
        return Err(Refusal::WriteFailed);
    }
    let _ = Area::read(next)?;
    if !settle_shape(kind, outcome) {
        return Err(Refusal::Malformed);
    }
    if outcome == 0 {
        return Ok(Kind::Nothing);
    }
    put_be(next, 0, 4, a.persisted.0);
    Err(Refusal::WriteFailed)
}

fn settle_shape(kind: u64, outcome: u64) -> bool
    ensures { result ≡ settle_shape? kind outcome }
{
    ((kind == 2) | (kind == 3)) & (outcome <= 1)
}

// The entry of the record read at base once it is cancelled: it has no inputs any more.
fn put_end(src: &[u8], base: usize, x: Seen, dst: &mut [u8]) -> usize
    requires { (terms_at ≤ x.mark) × (base + x.mark ≤ length src.now) × (x.mark + 3 ≤ length dst.old) }
    ensures { Put dst.old 0 (end_bytes src.now base x) (x.mark + 3) result dst.new }
{
    let id = x.id;
    let m = x.mark;
    let f = x.facts;
    let w = put_id(dst, 0, id);
    let a = put_be(dst, w, 1, f.caller);
    let b = put_be(dst, a, 1, State::Cancelled as u64);
    let c = put_be(dst, b, 1, Reason::Cancelled as u64);
    let d = copy_part(src, base + TERMS, m - TERMS, dst, c);
    put_be(dst, d, 4, 0)
}

/// Cancellation. Refusals 3, 2, 5, 13, 14, 15, 4.
pub fn cancel(cur: &[u8], next: &mut [u8], id: &[u8], out: &mut [u8]) -> Result<Kind, Refusal>
    ensures { outcome (answer_of result) next.new out.new ≡ cancel_of cur.now next.old out.old id.now }
{
    let a = Area::read(cur)?;
    if next.len() < a.need {
        return Err(Refusal::AreaTooShort);
    }
    if id.len() != 32 {
        return Err(Refusal::Malformed);
    }
    let k = View::new(id, false, 0).id(0);
    let recs = Records {
        start: a.open.start,
        count: a.open.head.count,
    };
    let Some(at) = find_id(cur, recs, k) else {
        return Err(Refusal::NotFound);
    };
    cancel_found(cur, next, a, k, at, out)
}

// From the record found on.
fn cancel_found(
    cur: &[u8],
    next: &mut [u8],
    a: Area,
    id: [u8; 32],
    at: usize,
    out: &mut [u8],
) -> Result<Kind, Refusal>
    requires { FoundIn cur.now a id at × (a.need ≤ length next.old) }
    ensures { CancelTold cur.now id (outcome (answer_of result) next.new out.new) next.old out.old }
{
    let x = record_at(cur, at);
    let f = x.facts;
    if f.state == State::Mined as u64 {
        return Err(Refusal::AlreadyMined);
    }
    if !f.holder {
        let n = entry_len(x);
        if out.len() < n {
            return Err(Refusal::OutputTooShort);
        }
        put_entry(cur, at, x, out, 0);
        return Ok(Kind::Nothing);
    }
    cancel_held(cur, next, a, id, at, x, out)
}

// A holder that is not Mined: it is finished.
fn cancel_held(
    cur: &[u8],
    next: &mut [u8],
    a: Area,
    id: [u8; 32],
    at: usize,
    x: Seen,
    out: &mut [u8],
) -> Result<Kind, Refusal>
    requires { HeldIn cur.now a id at x × (a.need ≤ length next.old) }
    ensures { CancelTold cur.now id (outcome (answer_of result) next.new out.new) next.old out.old }
{
    if a.open.head.counter.0 == u64::MAX {
        return Err(Refusal::CounterExhausted);
    }
    if out.len() < x.mark + 3 {
        return Err(Refusal::OutputTooShort);
    }
    put_ended(cur, a, Change::Named, id, 1, next);
    put_end(cur, at, x, out);
    Ok(Kind::Whole)
}

fn put_id_if(hit: bool, id: [u8; 32], dst: &mut [u8], at: usize) -> usize
    requires { at + length (id_if hit id) ≤ length dst.old }
    ensures { Put dst.old at (id_if hit id) (length (id_if hit id)) result dst.new }
{
    if hit {
        return put_id(dst, at, id);
    }
    at
}

// The ids of those of the records that are picked, to place `to` of dst.
fn put_picked(s: &[u8], recs: Records, c: Change, id: [u8; 32], dst: &mut [u8], to: usize) -> usize
    requires { RecordsIn (form_c false rec_c) s.now recs × (to + length (concat (picked_ids c id (recs_at (form_c false rec_c) s.now recs))) ≤ length dst.old) }
    ensures { Put dst.old to (concat (picked_ids c id (recs_at (form_c false rec_c) s.now recs))) (length (concat (picked_ids c id (recs_at (form_c false rec_c) s.now recs)))) result dst.new }
{
    let mut i = recs.start;
    let mut o = to;
    for _left in (0..recs.count).rev() {
        let x = record_at(s, i);
        let y = x.id;
        o = put_id_if(picks(c, id, x), y, dst, o);
        i = i + x.size;
    }
    o
}

/// Expiry. Refusals 3, 2, 15, 4.
pub fn expire(
    cur: &[u8],
    next: &mut [u8],
    time: u64,
    height: u32,
    out: &mut [u8],
) -> Result<Kind, Refusal>
    ensures { outcome (answer_of result) next.new out.new ≡ expire_of cur.now next.old out.old time height }
{
    let a = Area::read(cur)?;
    if next.len() < a.need {
        return Err(Refusal::AreaTooShort);
    }
    expire_found(cur, next, a, Time(time), Height(height as u64), out)
}

// Those that are due are finished; none is kind 0.
fn expire_found(
    cur: &[u8],
    next: &mut [u8],
    a: Area,
    time: Time,
    height: Height,
    out: &mut [u8],
) -> Result<Kind, Refusal>
    requires { AreaIn cur.now a × (a.need ≤ length next.old) }
    ensures { ExpireTold cur.now time.0 height.0 (outcome (answer_of result) next.new out.new) next.old out.old }
{
    let none = [0u8; 32];
    let recs = Records {
        start: a.open.start,
        count: a.open.head.count,
    };
    let due = Change::Due(time, height);
    let m = hits(cur, recs, due, none);
    if u64::MAX - a.open.head.counter.0 < m {
        return Err(Refusal::CounterExhausted);
    }
    if out.len() < 4 + 32 * (m as usize) {
        return Err(Refusal::OutputTooShort);
    }
    if m == 0 {
        put_be(out, 0, 4, 0);
        return Ok(Kind::Nothing);
    }
    put_ended(cur, a, due, none, m, next);
    let e = put_be(out, 0, 4, m);
    put_picked(cur, recs, due, none, out, e);
    Ok(Kind::Whole)
}
