// Admission: a new record among the others, or the old one of its id. Everything that can refuse is decided before a byte is written.
ghost use Rattle.std.specs.Prelude.{◌≡◌, ◌+◌, ◌/◌, ◌%◌, ◌^◌, ◌<◌, ◌≤◌, true, false, ◌&&◌, ◌||◌, ◌++◌, length, ◌==◌, nat_le, nat_lt};
ghost use Rattle.std.proofs.Math.Option.{some};
ghost use Rattle.queue.specs.Refusal.{answer_of, refused_number};
ghost use Rattle.queue.specs.Codec.{be, encs};
ghost use Rattle.queue.specs.bytes.PutAs.{Put};
ghost use Rattle.queue.specs.bytes.ReaderAs.{reads?};
ghost use Rattle.queue.specs.bytes.ViewAs.{view};
ghost use Rattle.queue.specs.layout.FrameCodec.{rec_c};
ghost use Rattle.queue.specs.layout.HeadAs.{tip_in};
ghost use Rattle.queue.specs.change.AdmitAs.{flag_of, time_of, height_of, given_as, asked_as, raw, new_of, opt_len_value, label_size_value, terms_len, held_len, new_len, new_terms, held_lent, TermsFit, HeldFit, WithFrom, WithTo, PendingsAre, FullIs, RoomIs, FreeIs, entry_new_len_value, args_of, NumbersFit, AskedIn, AskedIs, LentIds, ReadIs, CrossIs, TipFor, KnownAt, OldTold, NewTold, FoundTold, ListsAre, FlagsRight};
ghost use Rattle.queue.specs.check.AreaAs.{AreaIn};
ghost use Rattle.queue.specs.read.ReadingAs.{Here};
ghost use Rattle.queue.specs.read.FindAs.{recs_in, spot_numbers, SpotIn};
ghost use Rattle.queue.specs.change.WriteAs.{HeadIn};
ghost use Rattle.queue.specs.paper.Records.{Rec};
ghost use Rattle.queue.specs.paper.Sound.{label_len};
ghost use Rattle.queue.specs.paper.Area.{flagged, id_list_bytes, terms_bytes, held_bytes};
ghost use Rattle.queue.specs.Checked.{outcome, admit_of};
ghost use Rattle.queue.specs.paper.Changing.{put};
ghost use Rattle.queue.specs.paper.Calls.{items, given, entry_bytes, admit_args};

use crate::Kind;
use crate::bytes::put::{copy_part, fill_zero, put_be, put_id, put_u8};
use crate::bytes::view::View;
use crate::change::clash::ids_clash;
use crate::change::write::{put_lead, tip_at};
use crate::check::area::Area;
use crate::check::rules::{Query, height_reached, pending, time_reached};
use crate::check::scan::tally;
use crate::layout::frame::{Head, Height, Time, record_at};
use crate::layout::head::{FRONT, Marks, put_front, tip_len};
use crate::layout::limits::Limits;
use crate::layout::reason::Reason;
use crate::layout::records::Records;
use crate::layout::state::State;
use crate::read::entry::{entry_len, put_entry};
use crate::read::find::{Spot, find_spot};
use crate::refusal::Refusal;

// What an admission is asked with, but for the lent lists: id and numbers.
// Kept: the flags of label and tip, beside the lent bytes. With an Option of a lent slice it would be no value that is copied, and each
// function that takes it would name a lifetime.
#[derive(Clone, Copy)]
pub struct Asked {
    pub id: [u8; 32],
    pub caller: u64,
    pub now: Time,
    pub time: Option<Time>,
    pub height: Option<Height>,
    pub priority: u64,
    pub labelflag: u64,
    pub fee: u64,
    pub cost: u64,
    pub tipheight: Height,
    pub tipflag: u64,
}

// The same before its flags are checked: a number counts where its flag is 1.
#[derive(Clone, Copy)]
pub struct Offered {
    pub id: [u8; 32],
    pub caller: u64,
    pub now: Time,
    pub timeflag: u64,
    pub time: Time,
    pub heightflag: u64,
    pub height: Height,
    pub priority: u64,
    pub labelflag: u64,
    pub fee: u64,
    pub cost: u64,
    pub tipheight: Height,
    pub tipflag: u64,
}

// A flag, and the time where there is one.
// Kept: beside put_height. One function over `Option<u64>` was tried, with `time.map(|time| time.0)`; what the closure gives has no name that
// a law can be told by, and the proof did not close.
fn put_time(time: Option<Time>, dst: &mut [u8], at: usize) -> usize
    requires { (at + opt_len_value (flag_of time) 8 ≤ length dst.old) × ((time_of time).0 < 256 ^ 8) }
    ensures { Put dst.old at (flagged (be 8) (given (flag_of time) (time_of time).0)) (opt_len_value (flag_of time) 8) result dst.new }
{
    match time {
        Some(t) => {
            let a = put_u8(dst, at, 1);
            put_be(dst, a, 8, t.0)
        }
        None => put_u8(dst, at, 0),
    }
}

// A flag, and the height where there is one.
// Kept: beside put_time, for the same reason.
fn put_height(height: Option<Height>, dst: &mut [u8], at: usize) -> usize
    requires { (at + opt_len_value (flag_of height) 4 ≤ length dst.old) × ((height_of height).0 < 256 ^ 4) }
    ensures { Put dst.old at (flagged (be 4) (given (flag_of height) (height_of height).0)) (opt_len_value (flag_of height) 4) result dst.new }
{
    match height {
        Some(h) => {
            let a = put_u8(dst, at, 1);
            put_be(dst, a, 4, h.0)
        }
        None => put_u8(dst, at, 0),
    }
}

fn put_label(flag: u64, label: &[u8], dst: &mut [u8], at: usize) -> usize
    requires { (at + label_size_value flag label.now ≤ length dst.old) × (flag ≡ 1 → length label.now ≤ 200) }
    ensures { Put dst.old at (flagged (λ l. be 1 (length l) ++ l) (given flag label.now)) (label_size_value flag label.now) result dst.new }
{
    if flag == 1 {
        let n = label.len();
        let a = put_u8(dst, at, 1);
        let b = put_be(dst, a, 1, n as u64);
        return copy_part(label, 0, n, dst, b);
    }
    put_u8(dst, at, 0)
}

// The terms of a new record of n bytes.
fn put_terms(x: Asked, label: &[u8], n: u64, dst: &mut [u8], at: usize) -> usize
    requires { TermsFit (raw x) label.now n × (at + terms_len (raw x) label.now ≤ length dst.old) }
    ensures { Put dst.old at (terms_bytes (new_terms (raw x) label.now n)) (terms_len (raw x) label.now) result dst.new }
{
    let t = x.now;
    let a = put_be(dst, at, 8, t.0);
    let b = put_time(x.time, dst, a);
    let c = put_height(x.height, dst, b);
    let d = put_be(dst, c, 8, x.priority);
    let e = put_label(x.labelflag, label, dst, d);
    let f = put_be(dst, e, 8, x.fee);
    let g = put_be(dst, f, 4, n);
    put_be(dst, g, 8, x.cost)
}

// How many ids there are, and the ids.
fn put_id_list(ids: &[u8], dst: &mut [u8], at: usize) -> usize
    requires { (length ids.now % 32 ≡ 0) × (length ids.now / 32 < 65536) × (at + (2 + length ids.now) ≤ length dst.old) }
    ensures { Put dst.old at (id_list_bytes (items 32 ids.now)) (2 + length ids.now) result dst.new }
{
    let n = ids.len();
    let a = put_be(dst, at, 2, (n / 32) as u64);
    copy_part(ids, 0, n, dst, a)
}

// The holder flag, inputs, outputs, read ids and bytes.
fn put_held(
    inputs: &[u8],
    outputs: &[u8],
    reads: &[u8],
    bytes: &[u8],
    dst: &mut [u8],
    at: usize,
) -> usize
    requires { HeldFit inputs.now outputs.now reads.now bytes.now × (at + held_len inputs.now outputs.now reads.now bytes.now ≤ length dst.old) }
    ensures { Put dst.old at (flagged held_bytes (some (held_lent inputs.now outputs.now reads.now bytes.now))) (held_len inputs.now outputs.now reads.now bytes.now) result dst.new }
{
    let n = bytes.len();
    let a = put_u8(dst, at, 1);
    let b = put_id_list(inputs, dst, a);
    let c = put_id_list(outputs, dst, b);
    let d = put_id_list(reads, dst, c);
    let e = put_be(dst, d, 4, n as u64);
    copy_part(bytes, 0, n, dst, e)
}

// The new record: Queued, reason 0, with no place, mark and finish number.
fn put_new(
    x: Asked,
    inputs: &[u8],
    outputs: &[u8],
    reads: &[u8],
    bytes: &[u8],
    label: &[u8],
    dst: &mut [u8],
    at: usize,
) -> usize
    requires { TermsFit (raw x) label.now (length bytes.now) × HeldFit inputs.now outputs.now reads.now bytes.now × (at + new_len (raw x) inputs.now outputs.now reads.now bytes.now label.now ≤ length dst.old) }
    ensures { Put dst.old at (rec_c.enc (new_of (raw x) x.id inputs.now outputs.now reads.now bytes.now label.now)) (new_len (raw x) inputs.now outputs.now reads.now bytes.now label.now) result dst.new }
{
    let id = x.id;
    let a = put_lead(
        id,
        x.caller,
        State::Queued as u64,
        Reason::None as u64,
        dst,
        at,
    );
    let b = put_terms(x, label, bytes.len() as u64, dst, a);
    let c = fill_zero(dst, b, b + 10);
    put_held(inputs, outputs, reads, bytes, dst, c)
}

// The records of src with the new one in its place and no other of its id, to place `to` of dst: what stands before it and what stands
// behind it are copied in one piece each.
fn put_among(
    src: &[u8],
    a: Area,
    p: Spot,
    x: Asked,
    inputs: &[u8],
    outputs: &[u8],
    reads: &[u8],
    bytes: &[u8],
    label: &[u8],
    dst: &mut [u8],
    to: usize,
) -> usize
    requires { AreaIn src.now a × SpotIn src.now a x.id (spot_numbers p) × (TermsFit (raw x) label.now (length bytes.now) × HeldFit inputs.now outputs.now reads.now bytes.now) × (to + length (encs rec_c (put (new_of (raw x) x.id inputs.now outputs.now reads.now bytes.now label.now) (recs_in src.now a))) ≤ length dst.old) }
    ensures { Put dst.old to (encs rec_c (put (new_of (raw x) x.id inputs.now outputs.now reads.now bytes.now label.now) (recs_in src.now a))) (length (encs rec_c (put (new_of (raw x) x.id inputs.now outputs.now reads.now bytes.now label.now) (recs_in src.now a)))) result dst.new }
{
    let o = a.open;
    let start = o.start;
    let at = p.at();
    let b = copy_part(src, start, at - start, dst, to);
    let c = put_new(x, inputs, outputs, reads, bytes, label, dst, b);
    let next = p.next();
    copy_part(src, next, o.next - next, dst, c)
}

// The queue of src with the new record in it, under that cursor.
fn put_with(
    src: &[u8],
    a: Area,
    p: Spot,
    t: Tip,
    x: Asked,
    inputs: &[u8],
    outputs: &[u8],
    reads: &[u8],
    bytes: &[u8],
    label: &[u8],
    dst: &mut [u8],
)
    requires { WithFrom src.now a t.height.0 (tip_in t.id) (new_of (raw x) x.id inputs.now outputs.now reads.now bytes.now label.now) × SpotIn src.now a x.id (spot_numbers p) × (TermsFit (raw x) label.now (length bytes.now) × HeldFit inputs.now outputs.now reads.now bytes.now) × (a.need ≤ length dst.old) }
    ensures { WithTo src.now t.height.0 (tip_in t.id) (new_of (raw x) x.id inputs.now outputs.now reads.now bytes.now label.now) dst.old dst.new }
{
    let o = a.open;
    let h = o.head;
    let n = h.counter;
    let c = t.height;
    let tip = t.id;
    let to = FRONT + tip_len(tip);
    let e = put_among(src, a, p, x, inputs, outputs, reads, bytes, label, dst, to);
    let marks = Marks {
        persisted: c,
        revision: std::num::wrapping_add_u64(h.revision, 1),
        cursor: c,
        tip: tip,
        counter: n,
        count: h.count + 1 - u64::from(p.is_occupied()),
    };
    let l = h.limits;
    put_front(l, marks, dst);
    fill_zero(dst, e, a.need);
}

// Do the pending records of a caller reach its share? n: all pending records. They are counted only where these do.
fn share_full(s: &[u8], a: Area, caller: u64, n: u64) -> bool
    requires { AreaIn s.now a × (caller ≤ 15) × PendingsAre s.now n }
    ensures { FullIs s.now caller result }
{
    let o = a.open;
    let h = o.head;
    let l = h.limits;
    let v = l.shares;
    let m = Limits::share(v, caller);
    if n < m {
        return false;
    }
    let recs = Records {
        start: o.start,
        count: h.count,
    };
    m <= tally(s, recs, Query::PendingOf(caller))
}

// Is there room for one more pending record of n bytes, of that caller? Refusal 10, 18 or 11 where there is not.
fn room_for(s: &[u8], a: Area, caller: u64, n: u64) -> Result<(), Refusal>
    requires { AreaIn s.now a × (caller ≤ 15) }
    ensures { RoomIs s.now caller n (refused_number result) }
{
    let o = a.open;
    let h = o.head;
    let l = h.limits;
    let b = l.b;
    let u = o.sums;
    let m = u.holders - u.mined;
    if l.p <= m {
        return Err(Refusal::QueueFull);
    }
    if share_full(s, a, caller, m) {
        return Err(Refusal::ShareExhausted);
    }
    if b < n {
        return Err(Refusal::ByteBudgetExhausted);
    }
    if b - n < u.bytes - u.minedbytes {
        return Err(Refusal::ByteBudgetExhausted);
    }
    Ok(())
}

// The entry of the new record.
fn put_told(
    x: Asked,
    inputs: &[u8],
    outputs: &[u8],
    reads: &[u8],
    bytes: &[u8],
    label: &[u8],
    dst: &mut [u8],
) -> usize
    requires { TermsFit (raw x) label.now (length bytes.now) × HeldFit inputs.now outputs.now reads.now bytes.now × (entry_new_len_value (raw x) inputs.now reads.now label.now ≤ length dst.old) }
    ensures { Put dst.old 0 (entry_bytes (new_of (raw x) x.id inputs.now outputs.now reads.now bytes.now label.now)) (entry_new_len_value (raw x) inputs.now reads.now label.now) result dst.new }
{
    let id = x.id;
    let a = put_id(dst, 0, id);
    let w = put_be(dst, a, 1, x.caller);
    let b = put_be(dst, w, 2, 0);
    let c = put_terms(x, label, bytes.len() as u64, dst, b);
    let d = put_u8(dst, c, 0);
    let e = put_id_list(inputs, dst, d);
    put_id_list(reads, dst, e)
}

// How long a flag is, with a number of so many bytes where there is one.
fn optional_len<T: Copy>(value: Option<T>, width: usize) -> usize
    requires { width ≤ 8 }
    ensures { (result ≡ opt_len_value (flag_of value) width) × (result ≤ 9) }
{
    match value {
        Some(_) => 1 + width,
        None => 1,
    }
}

fn label_size(flag: u64, label: &[u8]) -> usize
    requires { flag ≡ 1 → length label.now ≤ 200 }
    ensures { (result ≡ label_size_value flag label.now) × (result ≤ 202) }
{
    if flag == 1 { 2 + label.len() } else { 1 }
}

// An entry without its terms and ids: id, caller, state, reason, mined flag, the counts of inputs and read ids. And the terms that are
// always there.
const ENTRY: usize = 40;

const FIXED_TERMS: usize = 36;

// How long the entry of the new record is.
fn entry_new_len(x: Asked, inputs: &[u8], reads: &[u8], label: &[u8]) -> usize
    requires { (x.labelflag ≡ 1 → length label.now ≤ 200) × (length inputs.now < 4294967296) × (length reads.now < 4294967296) }
    ensures { result ≡ entry_new_len_value (raw x) inputs.now reads.now label.now }
{
    let a = optional_len(x.time, 8);
    let b = optional_len(x.height, 4);
    let c = label_size(x.labelflag, label);
    ENTRY + (FIXED_TERMS + (a + (b + c)) + (inputs.len() + reads.len()))
}

// A cursor: its height, and its tip where there is one.
#[derive(Clone, Copy)]
pub struct Tip {
    pub height: Height,
    pub id: Option<[u8; 32]>,
}

// The cursor of the next queue: the one asked with if there are no records, else the queue's own.
fn tip_for(s: &[u8], h: Head, x: Asked, tip: &[u8]) -> Tip
    requires { HeadIn s.now h × (x.tipflag ≡ 1 → length tip.now ≡ 32) }
    ensures { TipFor s.now h (raw x) tip.now result }
{
    if 0 < h.count {
        let c = h.cursor;
        let i = tip_at(s, h);
        return Tip { height: c, id: i };
    }
    let g = x.tipheight;
    if x.tipflag == 1 {
        let i = View::new(tip, false, 0).id(0);
        return Tip {
            height: g,
            id: Some(i),
        };
    }
    Tip {
        height: g,
        id: None,
    }
}

// Nothing refuses the record but a short output: it is put at its spot.
fn admit_free(
    cur: &[u8],
    next: &mut [u8],
    a: Area,
    p: Spot,
    x: Asked,
    inputs: &[u8],
    outputs: &[u8],
    reads: &[u8],
    bytes: &[u8],
    label: &[u8],
    tip: &[u8],
    out: &mut [u8],
) -> Result<Kind, Refusal>
    requires { (AreaIn cur.now a × SpotIn cur.now a x.id (spot_numbers p)) × AskedIn (raw x) x.id inputs.now outputs.now reads.now bytes.now label.now tip.now a.open.head.limits.k × FreeIs cur.now x.caller (length bytes.now) inputs.now reads.now 0 × (a.need ≤ length next.old) }
    ensures { NewTold cur.now (args_of (raw x) x.id inputs.now outputs.now reads.now bytes.now label.now tip.now) (outcome (answer_of result) next.new out.new) next.old out.old }
{
    let n = entry_new_len(x, inputs, reads, label);
    if out.len() < n {
        return Err(Refusal::OutputTooShort);
    }
    let o = a.open;
    let h = o.head;
    let t = tip_for(cur, h, x, tip);
    put_with(cur, a, p, t, x, inputs, outputs, reads, bytes, label, next);
    put_told(x, inputs, outputs, reads, bytes, label, out);
    Ok(Kind::Whole)
}

// Does a record read one of the inputs?
fn inputs_read(s: &[u8], a: Area, inputs: &[u8]) -> bool
    requires { AreaIn s.now a × LentIds inputs.now }
    ensures { ReadIs s.now inputs.now result }
{
    let o = a.open;
    let h = o.head;
    let u = o.sums;
    if u.unread {
        return false;
    }
    let n = (inputs.len() / 32) as u64;
    let recs = Records {
        start: o.start,
        count: h.count,
    };
    ids_clash(inputs, n, s, recs, true)
}

// Does a record read one of the inputs, or spend one of the read ids?
fn reads_cross(s: &[u8], a: Area, inputs: &[u8], reads: &[u8]) -> bool
    requires { AreaIn s.now a × LentIds inputs.now × LentIds reads.now }
    ensures { CrossIs s.now inputs.now reads.now result }
{
    let o = a.open;
    let h = o.head;
    let m = (reads.len() / 32) as u64;
    if inputs_read(s, a, inputs) {
        return true;
    }
    if m == 0 {
        return false;
    }
    let recs = Records {
        start: o.start,
        count: h.count,
    };
    ids_clash(reads, m, s, recs, false)
}

// 10, 18, 11, 12 or 20 for a new record of that caller, of n bytes.
fn new_refusal(
    s: &[u8],
    a: Area,
    caller: u64,
    n: u64,
    inputs: &[u8],
    reads: &[u8],
) -> Result<(), Refusal>
    requires { AreaIn s.now a × (caller ≤ 15) × LentIds inputs.now × LentIds reads.now }
    ensures { FreeIs s.now caller n inputs.now reads.now (refused_number result) }
{
    room_for(s, a, caller, n)?;
    let o = a.open;
    let h = o.head;
    let m = (inputs.len() / 32) as u64;
    let recs = Records {
        start: o.start,
        count: h.count,
    };
    if ids_clash(inputs, m, s, recs, false) {
        return Err(Refusal::InputReserved);
    }
    if reads_cross(s, a, inputs, reads) {
        return Err(Refusal::ReadAndSpent);
    }
    Ok(())
}

// Does a pending or Mined record stand at that spot?
fn holder_at(s: &[u8], p: Spot) -> bool
    requires { (spot_numbers p).found ≡ true → reads? rec_c (view false s.now (spot_numbers p).at) 0 ≡ true }
    ensures { KnownAt s.now (spot_numbers p) result }
{
    match p {
        Spot::Occupied { at, .. } => {
            let y = record_at(s, at);
            let f = y.facts;
            pending(f.state) | (f.state == State::Mined as u64)
        }
        Spot::Vacant { .. } => false,
    }
}

// The old record at `at` is the answer. Refusal 4.
fn tell_old(s: &[u8], at: usize, out: &mut [u8]) -> Result<Kind, Refusal>
    requires { (y : Rec) × Here s.now at y }
    ensures { OldTold s.now at (answer_of result) out.old out.new }
{
    let y = record_at(s, at);
    let n = entry_len(y);
    if out.len() < n {
        return Err(Refusal::OutputTooShort);
    }
    put_entry(s, at, y, out, 0);
    Ok(Kind::Nothing)
}

// From the id on: the old record, or a new one.
fn admit_named(
    cur: &[u8],
    next: &mut [u8],
    a: Area,
    x: Asked,
    inputs: &[u8],
    outputs: &[u8],
    reads: &[u8],
    bytes: &[u8],
    label: &[u8],
    tip: &[u8],
    out: &mut [u8],
) -> Result<Kind, Refusal>
    requires { AreaIn cur.now a × AskedIn (raw x) x.id inputs.now outputs.now reads.now bytes.now label.now tip.now a.open.head.limits.k × (a.need ≤ length next.old) }
    ensures { FoundTold cur.now (args_of (raw x) x.id inputs.now outputs.now reads.now bytes.now label.now tip.now) (outcome (answer_of result) next.new out.new) next.old out.old }
{
    let o = a.open;
    let h = o.head;
    let id = x.id;
    let recs = Records {
        start: o.start,
        count: h.count,
    };
    let p = find_spot(cur, recs, id);
    if holder_at(cur, p) {
        return tell_old(cur, p.at(), out);
    }
    new_refusal(cur, a, x.caller, bytes.len() as u64, inputs, reads)?;
    admit_free(
        cur, next, a, p, x, inputs, outputs, reads, bytes, label, tip, out,
    )
}

fn long_label(flag: u64, label: &[u8]) -> bool
    ensures { result ≡ nat_lt 200 (label_len (given flag label.now)) }
{
    (flag == 1) & (200 < label.len())
}

fn given_id(flag: u64, n: usize) -> bool
    ensures { result ≡ (nat_le flag 1 && (flag == 0 || n == 32)) }
{
    (flag <= 1) & ((flag == 0) | (n == 32))
}

// Is the id whole, and are the lists, and is there such a caller?
fn lists_whole(id: &[u8], caller: u64, inputs: &[u8], outputs: &[u8], reads: &[u8]) -> bool
    ensures { ListsAre id.now caller inputs.now outputs.now reads.now result }
{
    let a = View::new(id, false, 0).len();
    let b = View::new(inputs, false, 0).len();
    let c = View::new(outputs, false, 0).len();
    let d = View::new(reads, false, 0).len();
    ((a == 32) & (caller <= 15)) & ((b % 32 == 0) & ((c % 32 == 0) & (d % 32 == 0)))
}

// Are the flags listed, and is the tip whole where there is one?
fn flags_listed(x: Offered, bytes: &[u8], label: &[u8], tip: &[u8]) -> bool
    ensures { FlagsRight x bytes.now label.now tip.now result }
{
    let _bytes = View::new(bytes, false, 0).len();
    let _label = View::new(label, false, 0).len();
    let c = View::new(tip, false, 0).len();
    ((x.timeflag <= 1) & (x.heightflag <= 1)) & ((x.labelflag <= 1) & given_id(x.tipflag, c))
}

fn over_k(k: u64, n: usize, m: usize, d: usize) -> bool
    ensures { result ≡ (nat_lt k (n / 32) || (nat_lt k (m / 32) || nat_lt k (d / 32))) }
{
    (k < (n / 32) as u64) | ((k < (m / 32) as u64) | (k < (d / 32) as u64))
}

// 5, 6, 7, 8 or 9 for what is asked, under K.
fn asked_refusal(
    k: u64,
    x: Offered,
    id: &[u8],
    inputs: &[u8],
    outputs: &[u8],
    reads: &[u8],
    bytes: &[u8],
    label: &[u8],
    tip: &[u8],
) -> Result<(), Refusal>
    requires { NumbersFit x }
    ensures { AskedIs k (args_of x id.now inputs.now outputs.now reads.now bytes.now label.now tip.now) (refused_number result) }
{
    let l = lists_whole(id, x.caller, inputs, outputs, reads);
    let f = flags_listed(x, bytes, label, tip);
    if !(l & f) {
        return Err(Refusal::Malformed);
    }
    if over_k(k, inputs.len(), outputs.len(), reads.len()) {
        return Err(Refusal::TooManyInputs);
    }
    let t = x.now;
    let d = given_by(x.timeflag, x.time);
    if time_reached(d, t) {
        return Err(Refusal::TimeDeadlineElapsed);
    }
    let g = x.tipheight;
    let h = given_by(x.heightflag, x.height);
    if height_reached(h, g) {
        return Err(Refusal::HeightDeadlineElapsed);
    }
    if long_label(x.labelflag, label) {
        return Err(Refusal::LabelTooLong);
    }
    Ok(())
}

// A value that counts where its flag is 1.
fn given_by<T: Copy>(flag: u64, value: T) -> Option<T>
    ensures { result ≡ given_as flag value }
{
    if flag == 1 { Some(value) } else { None }
}

// What is asked, by the flags.
fn asked_by_flags(x: Offered) -> Asked
    ensures { result ≡ asked_as x }
{
    let id = x.id;
    let now = x.now;
    let tipheight = x.tipheight;
    let time = given_by(x.timeflag, x.time);
    let height = given_by(x.heightflag, x.height);
    Asked {
        id: id,
        caller: x.caller,
        now: now,
        time: time,
        height: height,
        priority: x.priority,
        labelflag: x.labelflag,
        fee: x.fee,
        cost: x.cost,
        tipheight: tipheight,
        tipflag: x.tipflag,
    }
}

// Refusals 3, 2, 5, 6, 7, 8, 9.
fn admit_asked(
    cur: &[u8],
    next: &mut [u8],
    x: Offered,
    id: &[u8],
    inputs: &[u8],
    outputs: &[u8],
    reads: &[u8],
    bytes: &[u8],
    label: &[u8],
    tip: &[u8],
    out: &mut [u8],
) -> Result<Kind, Refusal>
    requires { NumbersFit x × (length id.now ≡ 32 → x.id ≡ id.now) }
    ensures { outcome (answer_of result) next.new out.new ≡ admit_of cur.now next.old out.old (args_of x id.now inputs.now outputs.now reads.now bytes.now label.now tip.now) }
{
    let a = Area::read(cur)?;
    if next.len() < a.need {
        return Err(Refusal::AreaTooShort);
    }
    let o = a.open;
    let h = o.head;
    let m = h.limits;
    asked_refusal(m.k, x, id, inputs, outputs, reads, bytes, label, tip)?;
    let y = asked_by_flags(x);
    admit_named(
        cur, next, a, y, inputs, outputs, reads, bytes, label, tip, out,
    )
}

// The id that is lent; zeros where it is not whole.
fn lent_id(id: &[u8]) -> [u8; 32]
    ensures { length id.now ≡ 32 → result ≡ id.now }
{
    if id.len() == 32 {
        return View::new(id, false, 0).id(0);
    }
    [0u8; 32]
}

// Admission. Refusals 3, 2, 5, 6, 7, 8, 9, 10, 18, 11, 12, 20, 4.
pub fn admit(
    cur: &[u8],
    next: &mut [u8],
    id: &[u8],
    caller: u8,
    inputs: &[u8],
    outputs: &[u8],
    reads: &[u8],
    bytes: &[u8],
    clock: u64,
    timeflag: u8,
    time: u64,
    heightflag: u8,
    height: u32,
    priority: u64,
    labelflag: u8,
    label: &[u8],
    fee: u64,
    cost: u64,
    tipheight: u32,
    tipflag: u8,
    tip: &[u8],
    out: &mut [u8],
) -> Result<Kind, Refusal>
    ensures { outcome (answer_of result) next.new out.new ≡ admit_of cur.now next.old out.old (admit_args id.now caller inputs.now outputs.now reads.now bytes.now clock timeflag time heightflag height priority labelflag label.now fee cost tipheight tipflag tip.now) }
{
    let k = lent_id(id);
    let x = Offered {
        id: k,
        caller: caller as u64,
        now: Time(clock),
        timeflag: timeflag as u64,
        time: Time(time),
        heightflag: heightflag as u64,
        height: Height(height as u64),
        priority: priority,
        labelflag: labelflag as u64,
        fee: fee,
        cost: cost,
        tipheight: Height(tipheight as u64),
        tipflag: tipflag as u64,
    };
    admit_asked(
        cur, next, x, id, inputs, outputs, reads, bytes, label, tip, out,
    )
}
