// Reconciliation: confirmations, verdicts on pending records, releases. Everything that can refuse is decided before a byte is written.
ghost use Rattle.std.specs.Prelude.{◌≡◌, ◌+◌, ◌*◌, ◌<◌, ◌≤◌, min, true, false, [], ◌∷◌, length, take, nat_le};
ghost use Rattle.queue.specs.Refusal.{answer_of};
ghost use Rattle.queue.specs.Codec.{All};
ghost use Rattle.queue.specs.layout.FrameCodec.{id_c};
ghost use Rattle.queue.specs.bytes.PutAs.{Put};
ghost use Rattle.queue.specs.check.AreaAs.{limits, AreaIn};
ghost use Rattle.queue.specs.read.SelectAs.{row_of, Standing, ahead?};
ghost use Rattle.queue.specs.change.ReleaseAs.{StandsAt, walk_r};
ghost use Rattle.queue.specs.change.ReconcileAs.{asked, LentTo, JudgedIn, GoneAre, DecidedAre, ChangedIs, WholePlan, WholeTo, gone_bytes, FloorFor, CursorTold, ReconcileTold};
ghost use Rattle.queue.specs.paper.Lists.{one, map, sort};
ghost use Rattle.queue.specs.paper.Changing.{top_height};
ghost use Rattle.queue.specs.Checked.{outcome, reconcile_of};
ghost use Rattle.queue.specs.paper.Calls.{reconcile_args};

use crate::Kind;
use crate::bytes::put::{put_be, put_u8};
use crate::bytes::view::View;
use crate::change::block::Block;
use crate::change::finish::floor;
use crate::change::lent::reconcile_asks;
use crate::change::plan::Plan;
use crate::change::ranks::{order_ranks, plan_judged};
use crate::change::release::{Walked, gather_mined, release};
use crate::change::touch::any_touched;
use crate::change::verdicts::judge;
use crate::change::write::{put_moved, put_planned};
use crate::check::area::Area;
use crate::layout::frame::{Finish, Height};
use crate::layout::head::Marks;
use crate::layout::records::Records;
use crate::read::select::{NO_ROW, Ranked, order_ranked, put_ids};
use crate::refusal::Refusal;

// The rows in order, then the walk.
fn release_rows(
    s: &[u8],
    rows: &mut [Ranked],
    height: Height,
    window: u64,
    p: u64,
    b: u64,
    gone: &mut [usize],
) -> Walked
    requires { Standing (map row_of rows.old) × (length rows.old ≤ 2048) × (length gone.old ≡ 2048) × All (StandsAt s.now) (map row_of rows.old) }
    ensures { (result.gone ≤ length rows.old) × (take result.gone gone.new ≡ walk_r (limits p b 0 0) height.0 window s.now 0 0 (sort ahead? (map row_of rows.old))) × (length gone.new ≡ length gone.old) × (result.decided ≡ length rows.old) }
{
    order_ranked(rows);
    release(s, rows, height, window, p, b, gone)
}

// The one pass over the confirmations: the Mined holders after their verdicts in a table, in order, and walked. It says how many it
// decided, and leaves the places of the released in gone. The table stands in this frame alone.
#[inline(never)]
fn release_all(
    s: &[u8],
    a: Area,
    b: Block,
    t: &[u8],
    ids: &[u8],
    vs: &[u64],
    gone: &mut [usize],
) -> Walked
    requires { AreaIn s.now a × LentTo b t.now ids.now × JudgedIn s.now a b t.now ids.now vs.now × (length gone.old ≡ 2048) }
    ensures { (result.gone ≤ 2048) × GoneAre s.now (asked b t.now ids.now) (take result.gone gone.new) × (length gone.new ≡ 2048) × DecidedAre s.now (asked b t.now ids.now) result.decided }
{
    let o = a.open;
    let h = o.head;
    let l = h.limits;
    let recs = Records {
        start: o.start,
        count: h.count,
    };
    let mut rows = [NO_ROW; 2048];
    let c = gather_mined(s, recs, t, vs, &mut rows);
    release_rows(s, &mut rows[..c], b.height, b.window, l.p, l.b, gone)
}

// The lowest finish number that stays once g records are released; 0 where none is.
fn floor_for(s: &[u8], a: Area, g: u64) -> Finish
    requires { AreaIn s.now a × (g ≤ a.open.head.count) × (a.open.head.counter.0 + g < 18446744073709551616) }
    ensures { FloorFor s.now a g result.0 }
{
    if g == 0 {
        return Finish(0);
    }
    let o = a.open;
    let h = o.head;
    let n = h.counter;
    let l = h.limits;
    let recs = Records {
        start: o.start,
        count: h.count,
    };
    floor(s, recs, n, g, l.t)
}

// The rows for it: with the records at the places gone released; ranks has room for their ranks.
fn plan_whole(
    s: &[u8],
    a: Area,
    b: Block,
    t: &[u8],
    ids: &[u8],
    vs: &[u64],
    gone: &[usize],
    ranks: &mut [u64],
    rows: &mut [u64],
) -> Plan
    requires { AreaIn s.now a × LentTo b t.now ids.now × JudgedIn s.now a b t.now ids.now vs.now × GoneAre s.now (asked b t.now ids.now) gone.now × (a.open.head.counter.0 + length gone.now < 18446744073709551616) × (length rows.old ≡ 3072) }
    ensures { WholePlan s.now a (asked b t.now ids.now) t.now vs.now (take result.rows rows.new) result.kept × (result.rows ≤ 3072) }
{
    let g = gone.len() as u64;
    let f = floor_for(s, a, g);
    let ordered = order_ranks(s, gone, ranks);
    plan_judged(s, a, t, vs, gone, ranks, ordered, f, rows)
}

// The queue of src after its reconciliation, with the g records at the places gone released.
fn put_whole(
    src: &[u8],
    a: Area,
    b: Block,
    t: &[u8],
    ids: &[u8],
    vs: &[u64],
    gone: &[usize],
    g: u64,
    ranks: &mut [u64],
    dst: &mut [u8],
)
    requires { AreaIn src.now a × LentTo b t.now ids.now × JudgedIn src.now a b t.now ids.now vs.now × GoneAre src.now (asked b t.now ids.now) gone.now × (a.open.head.counter.0 + length gone.now < 18446744073709551616) × ChangedIs src.now (asked b t.now ids.now) true × (a.need ≤ length dst.old) × (g ≡ length gone.now) }
    ensures { WholeTo src.now (asked b t.now ids.now) dst.old dst.new }
{
    let o = a.open;
    let h = o.head;
    let n = h.counter;
    let height = b.height;
    let tip = b.tip;
    let mut rows = [0u64; 3072];
    let p = plan_whole(src, a, b, t, ids, vs, gone, ranks, &mut rows);
    let marks = Marks {
        persisted: height,
        revision: std::num::wrapping_add_u64(h.revision, 1),
        cursor: height,
        tip: Some(tip),
        counter: Finish(n.0 + g),
        count: p.kept,
    };
    put_planned(src, a, marks, t, vs, &rows[..p.rows], dst);
}

// The answer: whether anything changed, and the ids of the released.
fn put_gone(s: &[u8], changed: bool, gone: &[usize], dst: &mut [u8]) -> usize
    requires { All (λ p. p + 33 ≤ length s.now) gone.now × (length gone.now ≤ 2048) × (5 + 32 * length gone.now ≤ length dst.old) }
    ensures { Put dst.old 0 (gone_bytes s.now changed gone.now) (5 + 32 * length gone.now) result dst.new }
{
    let a = put_flag(dst, 0, changed);
    let b = put_be(dst, a, 4, gone.len() as u64);
    put_ids(s, gone, dst, b)
}

fn put_flag(dst: &mut [u8], at: usize, b: bool) -> usize
    requires { at + 1 ≤ length dst.old }
    ensures { Put dst.old at (one b ∷ []) 1 result dst.new }
{
    if b {
        return put_u8(dst, at, 1);
    }
    put_u8(dst, at, 0)
}

// Is the height at least 32 above the persisted one? The sum stops at the top of 32 bits.
fn is_far(persisted: Height, height: Height) -> bool
    requires { persisted.0 < 4294967296 }
    ensures { result ≡ nat_le (min (persisted.0 + 32) top_height) height.0 }
{
    let n = persisted.0 + 32;
    if n <= 4294967295 {
        return n <= height.0;
    }
    4294967295 <= height.0
}

// No record changed and none is released: the cursor moves.
fn put_cursor(
    cur: &[u8],
    next: &mut [u8],
    a: Area,
    height: Height,
    tip: [u8; 32],
) -> Result<Kind, Refusal>
    requires { AreaIn cur.now a × (height.0 < 4294967296) × id_c.ok tip × (a.need ≤ length next.old) }
    ensures { CursorTold cur.now height.0 tip (answer_of result) next.old next.new }
{
    let p = a.persisted;
    if is_far(p, height) {
        put_moved(cur, a, height, height, Some(tip), next);
        return Ok(Kind::Cursor);
    }
    put_moved(cur, a, p, height, Some(tip), next);
    Ok(Kind::Memory)
}

// With the released known. Refusals 15 and 4.
fn reconcile_gone(
    cur: &[u8],
    next: &mut [u8],
    a: Area,
    b: Block,
    t: &[u8],
    ids: &[u8],
    vs: &[u64],
    gone: &[usize],
    rows: &mut [u64],
    out: &mut [u8],
) -> Result<Kind, Refusal>
    requires { AreaIn cur.now a × LentTo b t.now ids.now × JudgedIn cur.now a b t.now ids.now vs.now × GoneAre cur.now (asked b t.now ids.now) gone.now × (a.need ≤ length next.old) }
    ensures { ReconcileTold cur.now (asked b t.now ids.now) (outcome (answer_of result) next.new out.new) next.old out.old }
{
    let o = a.open;
    let h = o.head;
    let c = h.counter;
    let g = gone.len();
    if 18446744073709551615 - c.0 < g as u64 {
        return Err(Refusal::CounterExhausted);
    }
    if out.len() < 5 + 32 * g {
        return Err(Refusal::OutputTooShort);
    }
    let changed = any_touched(vs) | (0 < g);
    put_gone(cur, changed, gone, out);
    if changed {
        // Two calls that differ, so that the compiler does not take put_whole in here together with its table.
        if g == 0 {
            put_whole(cur, a, b, t, ids, vs, gone, 0, rows, next);
            return Ok(Kind::Whole);
        }
        put_whole(cur, a, b, t, ids, vs, gone, g as u64, rows, next);
        return Ok(Kind::Whole);
    }
    let tip = b.tip;
    put_cursor(cur, next, a, b.height, tip)
}

// With what is lent known to fit. How many were decided is in no answer.
fn reconcile_lent(
    cur: &[u8],
    next: &mut [u8],
    a: Area,
    b: Block,
    t: &[u8],
    ids: &[u8],
    out: &mut [u8],
) -> Result<Kind, Refusal>
    requires { AreaIn cur.now a × LentTo b t.now ids.now × (a.need ≤ length next.old) }
    ensures { ReconcileTold cur.now (asked b t.now ids.now) (outcome (answer_of result) next.new out.new) next.old out.old }
{
    let o = a.open;
    let h = o.head;
    let n = h.count as usize;
    let mut vs = [0u64; 3072];
    let recs = Records {
        start: o.start,
        count: h.count,
    };
    judge(cur, recs, t, b, ids, &mut vs);
    let mut ranks = [0u64; 2048];
    let mut gone = [0usize; 2048];
    let w = release_all(cur, a, b, t, ids, &vs[..n], &mut gone);
    reconcile_gone(
        cur,
        next,
        a,
        b,
        t,
        ids,
        &vs[..n],
        &gone[..w.gone],
        &mut ranks[..w.gone],
        out,
    )
}

// Reconciliation. Refusals 3, 2, 5, 15, 4.
pub fn reconcile(
    cur: &[u8],
    next: &mut [u8],
    height: u32,
    tip: &[u8],
    applied: &[u8],
    flag: u8,
    ids: &[u8],
    window: u32,
    out: &mut [u8],
) -> Result<Kind, Refusal>
    ensures { outcome (answer_of result) next.new out.new ≡ reconcile_of cur.now next.old out.old (reconcile_args height tip.now applied.now flag ids.now window) }
{
    let a = Area::read(cur)?;
    if next.len() < a.need {
        return Err(Refusal::AreaTooShort);
    }
    if !reconcile_asks(tip, flag as u64, applied, ids) {
        return Err(Refusal::Malformed);
    }
    let i = View::new(tip, false, 0).id(0);
    let b = Block {
        height: Height(height as u64),
        tip: i,
        entries: (applied.len() / 68) as u64,
        caught: flag == 1,
        available: (ids.len() / 32) as u64,
        window: window as u64,
    };
    reconcile_lent(cur, next, a, b, applied, ids, out)
}
