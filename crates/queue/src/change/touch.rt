// What a reconciliation makes of one record, before anything is released.
ghost use Rattle.std.specs.Prelude.{◌≡◌, ◌+◌, ◌<◌, ◌≤◌, true, false, ◌&&◌, length, take, ◌==◌, MatchOption};
ghost use Rattle.queue.specs.layout.FrameCodec.{rec_c, id_c};
ghost use Rattle.queue.specs.bytes.ReaderAs.{whole, list_at};
ghost use Rattle.queue.specs.layout.RecordsAs.{RecordsIn, recs_at};
ghost use Rattle.queue.specs.layout.FormsCodec.{form_c};
ghost use Rattle.queue.specs.bytes.ViewAs.{view};
ghost use Rattle.queue.specs.change.ReopenAs.{IdsRise, ids_at};
ghost use Rattle.queue.specs.change.OwnAs.{bits_in, wanted_of, wanted_at, FlagsAre, QuickFor};
ghost use Rattle.queue.specs.change.TouchAs.{EntriesRise, EntryAt, NoEntry, SeenHere, ConfirmedIs, own_ids, judge_f, verdict_numbers, verdict_of_value, InEntry, TouchIs, JudgedAt, changed?};
ghost use Rattle.queue.specs.change.VerdictAs.{verdict_code};
ghost use Rattle.queue.specs.paper.Lists.{any?, all?};
ghost use Rattle.queue.specs.paper.Sound.{among?};
ghost use Rattle.queue.specs.paper.Changing.{queued_outputs};

use crate::bytes::view::{View, compare_ids, same_id};
use crate::change::block::Block;
use crate::change::lent;
use crate::change::own::all_set;
use crate::change::verdict::Verdict;
use crate::check::rules::pending;
use crate::check::scan::has_id;
use crate::layout::forms::after_in;
use crate::layout::frame::{Facts, Seen, record_at};
use crate::layout::reason::Reason;
use crate::layout::records::Records;
use crate::layout::state::State;
use std::cmp::Ordering;

// The number of the applied entry of an id, of k entries, which rise. Those before lo are lower, those from hi on are higher.
// Kept: an entry of 68 bytes is found by its first 32. The library's binary_search takes whole elements, and partition_point with a test of
// the entry that it leads to is no plainer; a bisection moves one of its two bounds at each turn, which no range does.
fn find_entry(t: &[u8], k: u64, id: [u8; 32]) -> Option<usize>
    requires { EntriesRise t.now k }
    ensures { MatchOption result (NoEntry t.now k id) (EntryAt t.now k id) }
{
    let v = View::new(t, false, 0);
    let mut lo: usize = 0;
    let mut hi = k as usize;
    while lo < hi {
        let m = lo + (hi - lo) / 2;
        let y = v.id(68 * m);
        match compare_ids(id, y) {
            Ordering::Less => hi = m,
            Ordering::Equal => return Some(m),
            Ordering::Greater => lo = m + 1,
        }
    }
    None
}

// Is the record read at base Mined in the block of the applied entry at p, at its height?
fn confirmed(s: &[u8], base: usize, x: Seen, t: &[u8], p: usize) -> bool
    requires { SeenHere s.now base x × (p + 68 ≤ length t.now) }
    ensures { ConfirmedIs s.now base x t.now p result }
{
    let f = x.facts;
    if f.state != State::Mined as u64 {
        return false;
    }
    let Some(height) = f.mined else {
        return false;
    };
    let entry = View::new(t, false, 0);
    let n = entry.be(p + 32, 4);
    let frame = View::new(s, false, base);
    let a = frame.id(x.after + 5);
    let b = entry.id(p + 36);
    (height.0 == n) & same_id(a, b)
}

// Is the id an output of a Queued one of the records?
fn is_output(s: &[u8], recs: Records, id: [u8; 32]) -> bool
    requires { RecordsIn (form_c false rec_c) s.now recs }
    ensures { result ≡ among? id (queued_outputs (recs_at (form_c false rec_c) s.now recs)) }
{
    let mut i = recs.start;
    for _left in (0..recs.count).rev() {
        let x = record_at(s, i);
        if in_outputs(s, i, x, id) {
            return true;
        }
        i = after_in(s, false, i, x.size);
    }
    false
}

// Is the id an output of the record read at base, and that record Queued?
fn in_outputs(s: &[u8], base: usize, x: Seen, id: [u8; 32]) -> bool
    requires { (x.outs ≤ length (view false s.now base)) × (whole id_c x.facts.outs (view false s.now base) x.outs ≡ true) }
    ensures { result ≡ (x.facts.state == 0 && among? id (list_at id_c x.facts.outs (view false s.now base) x.outs)) }
{
    let f = x.facts;
    if f.state != State::Queued as u64 {
        return false;
    }
    has_id(&View::new(s, false, base), x.outs, f.outs, id)
}

// Is the id available, or an output of a Queued record?
fn owned(s: &[u8], recs: Records, ids: &[u8], m: u64, id: [u8; 32]) -> bool
    requires { RecordsIn (form_c false rec_c) s.now recs × IdsRise ids.now m }
    ensures { result ≡ among? id (own_ids (ids_at ids.now m) (recs_at (form_c false rec_c) s.now recs)) }
{
    if lent::find_lent(ids, m, id) {
        return true;
    }
    is_output(s, recs, id)
}

// Are the c ids at offset `from` of a frame owned?
fn fine(s: &[u8], recs: Records, frame: &View, from: usize, c: u64, ids: &[u8], m: u64) -> bool
    requires { RecordsIn (form_c false rec_c) s.now recs × IdsRise ids.now m × (from ≤ length frame.now) × (whole id_c c frame.now from ≡ true) }
    ensures { result ≡ all? (λ i. among? i (own_ids (ids_at ids.now m) (recs_at (form_c false rec_c) s.now recs))) (list_at id_c c frame.now from) }
{
    let mut i = from;
    for _left in (0..c).rev() {
        let id = frame.id(i);
        if !owned(s, recs, ids, m, id) {
            return false;
        }
        i += 32;
    }
    true
}

// Are all ids that the record read at base wants owned? By their flags, which begin at g, where there are flags.
fn all_owned(
    s: &[u8],
    recs: Records,
    base: usize,
    x: Seen,
    ids: &[u8],
    m: u64,
    quick: bool,
    flags: &[u64],
    g: usize,
) -> bool
    requires { RecordsIn (form_c false rec_c) s.now recs × IdsRise ids.now m × SeenHere s.now base x × QuickFor quick (own_ids (ids_at ids.now m) (recs_at (form_c false rec_c) s.now recs)) (wanted_at (view false s.now base) x) (bits_in flags.now) g (x.facts.ins + x.facts.reads) }
    ensures { result ≡ all? (λ i. among? i (own_ids (ids_at ids.now m) (recs_at (form_c false rec_c) s.now recs))) (wanted_at (view false s.now base) x) }
{
    let f = x.facts;
    if quick {
        return all_set(flags, g, f.ins + f.reads);
    }
    let frame = View::new(s, false, base);
    if !fine(s, recs, &frame, x.at, f.ins, ids, m) {
        return false;
    }
    fine(s, recs, &frame, x.reads, f.reads, ids, m)
}

// What becomes of a record, and where the applied entry begins that confirms it.
#[derive(Clone, Copy)]
pub struct Judgement {
    pub what: Verdict,
    pub at: usize,
}

fn pending_verdict(fine: bool, f: Facts) -> Verdict
    ensures { verdict_code result ≡ judge_f fine f }
{
    if fine {
        if (f.state == State::Queued as u64) & (f.reason == Reason::None as u64) {
            return Verdict::Stays;
        }
        return Verdict::Queued;
    }
    if (f.state == State::Conflicted as u64) & (f.reason == Reason::InputsUnavailable as u64) {
        return Verdict::Stays;
    }
    Verdict::Conflicted
}

// The verdict on the one of the records that was read at base; the flags of the ids that it wants begin at g, where there are
// flags.
// Kept: in one number, what and four times the number of the applied entry, since the verdicts on all records lie in a slice of fixed
// memory, a word for each.
fn touched(
    s: &[u8],
    recs: Records,
    base: usize,
    x: Seen,
    t: &[u8],
    b: Block,
    ids: &[u8],
    quick: bool,
    flags: &[u64],
    g: usize,
) -> u64
    requires { RecordsIn (form_c false rec_c) s.now recs × SeenHere s.now base x × EntriesRise t.now b.entries × IdsRise ids.now b.available × QuickFor quick (own_ids (ids_at ids.now b.available) (recs_at (form_c false rec_c) s.now recs)) (wanted_at (view false s.now base) x) (bits_in flags.now) g (x.facts.ins + x.facts.reads) }
    ensures { TouchIs s.now recs base x t.now b.entries b.caught (ids_at ids.now b.available) result }
{
    let id = x.id;
    let f = x.facts;
    if let Some(at) = find_entry(t, b.entries, id) {
        if confirmed(s, base, x, t, 68 * at) {
            return Verdict::Stays as u64;
        }
        return at as u64 * 4 + Verdict::Confirmed as u64;
    }
    if !(b.caught & pending(f.state)) {
        return Verdict::Stays as u64;
    }
    let a = all_owned(s, recs, base, x, ids, b.available, quick, flags, g);
    u64::from(pending_verdict(a, f))
}

// A verdict from its number.
pub fn verdict_of(t: &[u8], c: u64) -> Judgement
    requires { InEntry t.now c }
    ensures { verdict_numbers result ≡ verdict_of_value c }
{
    let what = Verdict::of_number(c % 4);
    match what {
        Verdict::Confirmed => Judgement {
            what: what,
            at: 68 * (c / 4) as usize,
        },
        _ => Judgement { what: what, at: 0 },
    }
}

// The verdicts on the records, to the front of vs; quickly where there are flags of all wanted ids.
pub fn judge_all(
    s: &[u8],
    recs: Records,
    t: &[u8],
    b: Block,
    ids: &[u8],
    quick: bool,
    flags: &[u64],
    vs: &mut [u64],
)
    requires { RecordsIn (form_c false rec_c) s.now recs × EntriesRise t.now b.entries × IdsRise ids.now b.available × (recs.count ≤ length vs.old) × (recs.count < 4294967296) × (quick ≡ true → FlagsAre (λ z. among? z (own_ids (ids_at ids.now b.available) (recs_at (form_c false rec_c) s.now recs))) (wanted_of (recs_at (form_c false rec_c) s.now recs)) (bits_in flags.now)) }
    ensures { JudgedAt s.now recs b t.now ids.now (take recs.count vs.new) }
{
    let mut i = recs.start;
    let mut j: usize = 0;
    let mut g: usize = 0;
    for _left in (0..recs.count).rev() {
        let x = record_at(s, i);
        let f = x.facts;
        let c = touched(s, recs, i, x, t, b, ids, quick, flags, g);
        vs[j] = c;
        g = g + (f.ins + f.reads) as usize;
        i = after_in(s, false, i, x.size);
        j += 1;
    }
}

// Does a verdict change its record?
pub fn any_touched(vs: &[u64]) -> bool
    ensures { result ≡ any? changed? vs.now }
{
    for v in vs {
        if *v % 4 != Verdict::Stays as u64 {
            return true;
        }
    }
    false
}
