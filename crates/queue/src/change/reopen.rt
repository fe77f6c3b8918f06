// Reopening: Mined records whose ids are listed lose their place. Everything that can refuse is decided before a byte is written.
ghost use Rattle.std.specs.Prelude.{◌≡◌, ◌+◌, ◌≤◌, true, false, [], length, take, if◌then◌else◌};
ghost use Rattle.queue.specs.Refusal.{answer_of};
ghost use Rattle.queue.specs.layout.FrameCodec.{rec_c};
ghost use Rattle.queue.specs.layout.RecordsAs.{RecordsIn, recs_at};
ghost use Rattle.queue.specs.layout.FormsCodec.{form_c};
ghost use Rattle.queue.specs.check.AreaAs.{AreaIn};
ghost use Rattle.queue.specs.change.ReopenAs.{IdsRise, ids_at, listed_s, again, AgainFrom, AgainTo, ReopenTold};
ghost use Rattle.queue.specs.change.PlanAs.{Planned};
ghost use Rattle.queue.specs.change.VerdictAs.{verdict_code};
ghost use Rattle.queue.specs.read.FindAs.{recs_in};
ghost use Rattle.queue.specs.paper.Lists.{any?, map};
ghost use Rattle.queue.specs.paper.Changing.{listed?};
ghost use Rattle.queue.specs.Checked.{outcome, reopen_of};

use crate::Kind;
use crate::bytes::view::View;
use crate::change::lent::{find_lent, rise};
use crate::change::plan::{Plan, Row, push_row};
use crate::change::verdict::Verdict;
use crate::change::write::{marks_next, put_plain, tip_at};
use crate::check::area::Area;
use crate::layout::frame::{Seen, record_at};
use crate::layout::records::Records;
use crate::layout::state::State;
use crate::refusal::Refusal;

// Is a record Mined, and one of k lent ids its own?
fn listed(ids: &[u8], k: u64, x: Seen) -> bool
    requires { IdsRise ids.now k }
    ensures { result ≡ listed_s (ids_at ids.now k) x }
{
    let f = x.facts;
    if f.state != State::Mined as u64 {
        return false;
    }
    let id = x.id;
    find_lent(ids, k, id)
}

// Is one of the records listed?
fn any_listed(s: &[u8], recs: Records, ids: &[u8], k: u64) -> bool
    requires { RecordsIn (form_c false rec_c) s.now recs × IdsRise ids.now k }
    ensures { result ≡ any? (listed? (ids_at ids.now k)) (recs_at (form_c false rec_c) s.now recs) }
{
    let mut i = recs.start;
    for _left in (0..recs.count).rev() {
        let x = record_at(s, i);
        if listed(ids, k, x) {
            return true;
        }
        i = i + x.size;
    }
    false
}

// What becomes of a record that is listed, and of one that is not.
fn opens_as(hit: bool) -> Verdict
    ensures { verdict_code result ≡ (if hit then 4 else 0) }
{
    if hit {
        return Verdict::Reopened;
    }
    Verdict::Stays
}

// Rows for those listed.
fn plan_listed(s: &[u8], a: Area, ids: &[u8], k: u64, rows: &mut [u64]) -> Plan
    requires { AreaIn s.now a × IdsRise ids.now k × (length rows.old ≡ 3072) }
    ensures { Planned s.now a [] [] (take result.rows rows.new) (map (again (ids_at ids.now k)) (recs_in s.now a)) result.kept × (result.rows ≤ 3072) }
{
    let p = a.open;
    let h = p.head;
    let mut i = p.start;
    let mut c: usize = 0;
    for _left in (0..h.count).rev() {
        let x = record_at(s, i);
        let hit = listed(ids, k, x);
        c = push_row(
            rows,
            c,
            Row {
                place: i,
                index: 0,
                rank: 0,
                what: opens_as(hit),
            },
        );
        i = i + x.size;
    }
    Plan {
        rows: c,
        kept: h.count,
    }
}

// The queue of src with those listed reopened.
fn put_opened(src: &[u8], a: Area, ids: &[u8], k: u64, dst: &mut [u8])
    requires { AgainFrom src.now a (ids_at ids.now k) × IdsRise ids.now k × (a.need ≤ length dst.old) }
    ensures { AgainTo src.now (ids_at ids.now k) dst.old dst.new }
{
    let x = a.open;
    let h = x.head;
    let tip = tip_at(src, h);
    let mut rows = [0u64; 3072];
    let p = plan_listed(src, a, ids, k, &mut rows);
    let marks = marks_next(h, tip, 0, p.kept);
    put_plain(src, a, marks, &rows[..p.rows], dst);
}

// No Mined id is kind 0.
fn reopen_those(cur: &[u8], next: &mut [u8], a: Area, ids: &[u8], k: u64) -> Result<Kind, Refusal>
    requires { AreaIn cur.now a × IdsRise ids.now k × (a.need ≤ length next.old) }
    ensures { ReopenTold cur.now (ids_at ids.now k) (outcome (answer_of result) next.new []) next.old }
{
    let o = a.open;
    let h = o.head;
    let recs = Records {
        start: o.start,
        count: h.count,
    };
    if !any_listed(cur, recs, ids, k) {
        return Ok(Kind::Nothing);
    }
    put_opened(cur, a, ids, k, next);
    Ok(Kind::Whole)
}

// Reopening. Refusals 3, 2, 5.
pub fn reopen(cur: &[u8], next: &mut [u8], ids: &[u8]) -> Result<Kind, Refusal>
    ensures { outcome (answer_of result) next.new [] ≡ reopen_of cur.now next.old ids.now }
{
    let a = Area::read(cur)?;
    if next.len() < a.need {
        return Err(Refusal::AreaTooShort);
    }
    let n = View::new(ids, false, 0).len();
    if n % 32 != 0 {
        return Err(Refusal::Malformed);
    }
    let k = (n / 32) as u64;
    if !rise(ids, k) {
        return Err(Refusal::Malformed);
    }
    reopen_those(cur, next, a, ids, k)
}
