// Which Mined holders a reconciliation releases, and in which order.
ghost use Rattle.std.specs.Prelude.{◌≡◌, ◌+◌, ◌-◌, ◌<◌, ◌≤◌, false, ◌||◌, length, take, nat_le, nat_lt};
ghost use Rattle.queue.specs.Codec.{All};
ghost use Rattle.queue.specs.layout.FrameCodec.{rec_c};
ghost use Rattle.queue.specs.layout.RecordsAs.{RecordsIn};
ghost use Rattle.queue.specs.layout.FormsCodec.{form_c};
ghost use Rattle.queue.specs.check.AreaAs.{limits};
ghost use Rattle.queue.specs.change.TouchAs.{verdict_numbers, InEntry};
ghost use Rattle.queue.specs.change.VerdictAs.{verdict_code};
ghost use Rattle.queue.specs.read.SelectAs.{row_of, RecStands};
ghost use Rattle.queue.specs.change.ReleaseAs.{mined_f, height_f, mined_of, MinedGathered, StandsAt, bytes_at, walk_r};
ghost use Rattle.queue.specs.paper.Lists.{map};

use crate::bytes::view::View;
use crate::change::touch::{Judgement, verdict_of};
use crate::change::verdict::Verdict;
use crate::layout::forms::after_in;
use crate::layout::frame::{Facts, Height, record_at};
use crate::layout::records::Records;
use crate::layout::state::State;
use crate::read::select::{Ranked, add_place, add_ranked};

// Is a record a Mined holder after the verdict on it?
fn mined_after(what: Verdict, f: Facts) -> bool
    ensures { result ≡ mined_f (verdict_code what) f }
{
    match what {
        Verdict::Confirmed => f.holder,
        Verdict::Stays => (f.state == State::Mined as u64) & f.holder,
        _ => false,
    }
}

// The height that it is Mined at then; 0 where it is not Mined.
fn height_after(t: &[u8], v: Judgement, f: Facts) -> Height
    requires { verdict_code v.what ≡ 1 → v.at + 68 ≤ length t.now }
    ensures { result.0 ≡ height_f t.now (verdict_numbers v) f }
{
    match v.what {
        Verdict::Confirmed => Height(View::new(t, false, 0).be(v.at + 32, 4)),
        _ => f.mined.unwrap_or(Height(0)),
    }
}

// A row for each Mined holder: height, how many records were left, place.
pub fn gather_mined(s: &[u8], recs: Records, t: &[u8], vs: &[u64], rows: &mut [Ranked]) -> usize
    requires { RecordsIn (form_c false rec_c) s.now recs × ((length vs.now ≡ recs.count) × All (InEntry t.now) vs.now) × (length (mined_of s.now recs t.now vs.now) ≤ length rows.old) }
    ensures { MinedGathered s.now recs.count (mined_of s.now recs t.now vs.now) (length rows.old) result rows.new }
{
    let mut i = recs.start;
    let mut j: usize = 0;
    let mut c: usize = 0;
    for left in (0..recs.count).rev() {
        let x = record_at(s, i);
        let f = x.facts;
        let v = verdict_of(t, vs[j]);
        let sel = mined_after(v.what, f);
        let h = height_after(t, v, f);
        let row = Ranked {
            rank: h.0,
            second: left + 1,
            place: i,
        };
        c = add_ranked(rows, c, sel, row);
        i = after_in(s, false, i, x.size);
        j += 1;
    }
    c
}

// The byte count of the record at p.
fn bytes_at(s: &[u8], p: usize) -> u64
    requires { RecStands s.now p }
    ensures { (result ≡ bytes_at s.now p) × (result < 4294967296) }
{
    let x = record_at(s, p);
    let f = x.facts;
    f.bytes
}

// Is one released that is Mined at level, after seen others, with so many bytes up to it?
fn is_out(height: Height, window: u64, p: u64, b: u64, level: Height, seen: u64, bytes: u64) -> bool
    ensures { result ≡ (nat_le window (height.0 - level.0) || (nat_le p seen || nat_lt b bytes)) }
{
    let d = height.0.saturating_sub(level.0);
    (window <= d) | ((p <= seen) | (b < bytes))
}

// What the walk came to: how many Mined holders it decided, and how many of these are released.
#[derive(Clone, Copy)]
pub struct Walked {
    pub decided: u64,
    pub gone: usize,
}

// The one walk over the Mined holders: each is decided, and the places of the released go to the front of gone, in this order.
pub fn release(
    s: &[u8],
    rows: &[Ranked],
    height: Height,
    window: u64,
    p: u64,
    b: u64,
    gone: &mut [usize],
) -> Walked
    requires { (length rows.now ≤ length gone.old) × (length rows.now ≤ 2048) × All (StandsAt s.now) (map row_of rows.now) }
    ensures { (result.gone ≤ length rows.now) × (take result.gone gone.new ≡ walk_r (limits p b 0 0) height.0 window s.now 0 0 (map row_of rows.now)) × (length gone.new ≡ length gone.old) × (result.decided ≡ length rows.now) }
{
    let mut g: usize = 0;
    let mut decided: u64 = 0;
    let mut sum: u64 = 0;
    for (j, row) in rows.iter().enumerate() {
        sum = sum + bytes_at(s, row.place);
        let out = is_out(height, window, p, b, Height(row.rank), j as u64, sum);
        g = add_place(gone, g, out, row.place);
        decided = decided + 1;
    }
    Walked {
        decided: decided,
        gone: g,
    }
}
