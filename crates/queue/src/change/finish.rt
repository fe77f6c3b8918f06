// Finishing and forgetting: which records a call finishes, which it forgets, and the rows for both.
ghost use Rattle.std.specs.Prelude.{◌≡◌, ℕ, ◌+◌, ◌<◌, ◌≤◌, false, ◌⊎◌, [], length, take, if◌then◌else◌, nat_le, nat_lt};
ghost use Rattle.queue.specs.Codec.{All};
ghost use Rattle.queue.specs.layout.FrameCodec.{rec_c};
ghost use Rattle.queue.specs.layout.RecordsAs.{RecordsIn, recs_at};
ghost use Rattle.queue.specs.layout.FormsCodec.{form_c};
ghost use Rattle.queue.specs.paper.Lists.{count};
ghost use Rattle.queue.specs.paper.Sound.{holder?, tombstones};
ghost use Rattle.queue.specs.check.RulesAs.{sum};
ghost use Rattle.queue.specs.check.AreaAs.{AreaIn};
ghost use Rattle.queue.specs.read.FindAs.{recs_in};
ghost use Rattle.queue.specs.change.PlanAs.{Planned, ended_l};
ghost use Rattle.queue.specs.change.FinishAs.{picked_s, picked, end_what};
ghost use Rattle.queue.specs.check.NumbersAs.{above};
ghost use Rattle.queue.specs.change.VerdictAs.{verdict_code};

use crate::bytes::view::same_id;
use crate::change::plan::{Plan, Row, fate_of, is_kept, push_row};
use crate::change::verdict::Verdict;
use crate::check::area::Area;
use crate::check::numbers::{floor_in, gather};
use crate::check::rules::{Query, is_due};
use crate::layout::frame::{AREA, Finish, Height, Seen, Time, record_at};
use crate::layout::records::Records;

// Which records a call finishes: the one of an id, or those that are due.
#[derive(Clone, Copy)]
pub enum Change {
    Named,
    Due(Time, Height),
}

pub fn picks(c: Change, id: [u8; 32], x: Seen) -> bool
    ensures { result ≡ picked_s c id x }
{
    match c {
        Change::Named => {
            let rid = x.id;
            same_id(id, rid)
        }
        Change::Due(t, h) => {
            let f = x.facts;
            is_due(t, h, f)
        }
    }
}

// What becomes of a record that is picked, and of one that is not.
fn ends_as(c: Change, hit: bool) -> Verdict
    ensures { verdict_code result ≡ (if hit then end_what c else 0) }
{
    if !hit {
        return Verdict::Stays;
    }
    match c {
        Change::Named => Verdict::Cancelled,
        Change::Due(t, h) => Verdict::Expired,
    }
}

// The rank of a record that is picked behind `given` others; 0 for one that is not.
fn rank_next(hit: bool, given: u64) -> u64
    requires { given < 4294967296 }
    ensures { result ≡ (if hit then given + 1 else 0) }
{
    if hit {
        return given + 1;
    }
    0
}

// How many records a call finishes.
pub fn hits(s: &[u8], recs: Records, c: Change, id: [u8; 32]) -> u64
    requires { RecordsIn (form_c false rec_c) s.now recs }
    ensures { (result ≡ count (picked c id) (recs_at (form_c false rec_c) s.now recs)) × (result ≤ recs.count) }
{
    let mut i = recs.start;
    let mut total: u64 = 0;
    for _left in (0..recs.count).rev() {
        let x = record_at(s, i);
        total += u64::from(picks(c, id, x));
        i = i + x.size;
    }
    total
}

// The lowest finish number that stays once m records are finished after num: those below it are beyond t.
pub fn floor(s: &[u8], recs: Records, num: Finish, m: u64, t: u64) -> Finish
    requires { RecordsIn (form_c false rec_c) s.now recs × (recs.count < 4294967296) × (m ≤ recs.count) × (num.0 + m < 18446744073709551616) × (0 < t) × (t < 4294967296) × All (λ y. holder? y ≡ false → y.finish ≤ num.0) (recs_at (form_c false rec_c) s.now recs) × (tombstones (recs_at (form_c false rec_c) s.now recs) ≤ 1024) }
    ensures { ((sum Query.Tombstones (recs_at (form_c false rec_c) s.now recs) + m ≤ t) × (result.0 ≡ 0)) ⊎ ((x : ℕ) → nat_lt (above num.0 m (recs_at (form_c false rec_c) s.now recs) x) t ≡ nat_le result.0 x) }
{
    let mut v = [0u64; 1024];
    let k = gather(s, AREA, recs, &mut v);
    if k as u64 + m <= t {
        return Finish(0);
    }
    Finish(floor_in(&v[..k], num.0, m, t))
}

// Rows for those picked, finished with the numbers after the counter, and for those forgotten.
pub fn plan_ended(
    s: &[u8],
    a: Area,
    c: Change,
    id: [u8; 32],
    floor: Finish,
    rows: &mut [u64],
) -> Plan
    requires { AreaIn s.now a × (length rows.old ≡ 3072) × (count (picked c id) (recs_in s.now a) ≤ 2048) × (a.open.head.counter.0 + count (picked c id) (recs_in s.now a) < 18446744073709551616) }
    ensures { Planned s.now a [] [] (take result.rows rows.new) (ended_l s.now a c id floor.0) result.kept × (result.rows ≤ 3072) }
{
    let p = a.open;
    let h = p.head;
    let mut i = p.start;
    let mut k: usize = 0;
    let mut kept: u64 = 0;
    let mut given: u64 = 0;
    for _left in (0..h.count).rev() {
        let x = record_at(s, i);
        let f = x.facts;
        let hit = picks(c, id, x);
        let rank = rank_next(hit, given);
        let ended = ends_as(c, hit);
        let what = fate_of(ended, Verdict::Forgotten, rank, h.counter, floor, f);
        k = push_row(
            rows,
            k,
            Row {
                place: i,
                index: 0,
                rank: rank,
                what: what,
            },
        );
        kept += u64::from(is_kept(what));
        given += u64::from(hit);
        i = i + x.size;
    }
    Plan {
        rows: k,
        kept: kept,
    }
}
