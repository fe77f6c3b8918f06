// Loops over the records of a queue, as bytes or as lines of text.
ghost use Rattle.std.specs.Prelude.{◌≡◌, ◌+◌, ◌-◌, ◌*◌, ◌<◌, ◌≤◌, true, false, ◌&&◌, length, take, drop, nat_eq};
ghost use Rattle.queue.specs.layout.FrameCodec.{rec_c, id_c};
ghost use Rattle.queue.specs.layout.FormsCodec.{form_c, rec_in_value};
ghost use Rattle.queue.specs.bytes.ViewAs.{view};
ghost use Rattle.queue.specs.bytes.ReaderAs.{whole, list_at};
ghost use Rattle.queue.specs.layout.RecordsAs.{RecordsIn, recs_at};
ghost use Rattle.queue.specs.check.RulesAs.{sum};
ghost use Rattle.queue.specs.check.ScanAs.{no_sums_value, Under, SumsAdded, unread?, above_last, Checked};
ghost use Rattle.queue.specs.check.FilterAs.{hash_l, hash_n, held_by_value, Passed, New, NewSeen};
ghost use Rattle.queue.specs.paper.Ids.{same?};
ghost use Rattle.queue.specs.Areas.{zero?, zero_in};
ghost use Rattle.queue.specs.paper.Lists.{all?};
ghost use Rattle.queue.specs.paper.Sound.{among?, apart?, read_apart?};

use crate::bytes::view::{Read, View, compare_ids, same_id};
use crate::check::filter::{Filter, hash, hash_number};
use crate::check::reads::reads_passes;
use crate::check::rules::{Query, right, weigh};
use crate::check::suspects::{apart_few, apart_many};
use crate::layout::forms::{after_in, ends_line};
use crate::layout::frame::{Facts, Finish, Form, Seen, read_record_in, record_at, record_in};
use crate::layout::records::Records;

/// What the records count for, for one question.
pub fn tally(s: &[u8], recs: Records, q: Query) -> u64
    requires { RecordsIn (form_c false rec_c) s.now recs × (recs.count < 4294967296) }
    ensures { (result ≡ sum q (recs_at (form_c false rec_c) s.now recs)) × (result ≤ recs.count * 4294967295) }
{
    let mut i = recs.start;
    let mut total: u64 = 0;
    for _left in (0..recs.count).rev() {
        let x = record_at(s, i);
        let f = x.facts;
        total += weigh(q, f);
        i = after_in(s, false, i, x.size);
    }
    total
}

/// What the rules ask of the records: four counts, whether each is right, whether their ids rise, whether none reads an id; `clear` says
/// that no input is in two of them and no finish number is twice, where a filter could tell. The number of inputs is in no contract:
/// it only says which tables serve.
#[derive(Clone, Copy)]
pub struct Sums {
    pub holders: u64,
    pub bytes: u64,
    pub mined: u64,
    pub minedbytes: u64,
    pub right: bool,
    pub rises: bool,
    pub unread: bool,
    pub clear: bool,
    pub inputs: u64,
}

/// The sums of no records.
pub fn no_sums() -> Sums
    ensures { result ≡ no_sums_value }
{
    Sums {
        holders: 0,
        bytes: 0,
        mined: 0,
        minedbytes: 0,
        right: true,
        rises: true,
        unread: true,
        clear: true,
        inputs: 0,
    }
}

// One record more; `up` says that its id is above the last one, `clear` that the filter tells it from all before it.
fn add_sums(a: Sums, k: u64, c: Finish, f: Facts, up: bool, clear: bool) -> Sums
    requires { Under a 18446744069414584319 × (f.bytes < 4294967296) }
    ensures { SumsAdded k c a f up result × (result.clear ≡ clear) }
{
    let h = a.holders + weigh(Query::Holders, f);
    let b = a.bytes + weigh(Query::HeldBytes, f);
    let m = a.mined + weigh(Query::MinedHolders, f);
    let e = a.minedbytes + weigh(Query::MinedBytes, f);
    let r = a.right & right(k, c, f);
    let u = a.rises & up;
    let d = a.unread & (f.reads == 0);
    Sums {
        holders: h,
        bytes: b,
        mined: m,
        minedbytes: e,
        right: r,
        rises: u,
        unread: d,
        clear: clear,
        inputs: std::num::wrapping_add_u64(a.inputs, f.ins),
    }
}

// Is the id above the last one, if there is one?
fn is_above(last: Option<[u8; 32]>, id: [u8; 32]) -> bool
    ensures { result ≡ above_last last id }
{
    match last {
        Some(last) => compare_ids(last, id).is_lt(),
        None => true,
    }
}

// Is each of the c ids at offset `ids` of a frame new to the filter t? Then all are marked.
fn new_ids(v: &View, ids: usize, c: u64, t: &mut Filter) -> bool
    requires { (ids ≤ length v.now) × (whole id_c c v.now ids ≡ true) }
    ensures { (length t.new ≡ length t.old) × (result ≡ true → New (λ z. among? z (list_at id_c c v.now ids)) hash_l t.old t.new) }
{
    let mut i = ids;
    for _left in (0..c).rev() {
        let id = v.id(i);
        let h = hash(id);
        if t.seen(h) {
            return false;
        }
        t.mark(h);
        i += 32;
    }
    true
}

fn new_number(n: Finish, t: &mut Filter) -> bool
    ensures { (length t.new ≡ length t.old) × (result ≡ true → New (λ m. nat_eq n.0 m) hash_n t.old t.new) }
{
    let h = hash_number(n.0);
    if t.seen(h) {
        return false;
    }
    t.mark(h);
    true
}

// Are the inputs of the record read from v new to the filter, and, of a tombstone, its finish number? Not asked once one was not.
fn new_record(clear: bool, v: &View, x: Seen, t: &mut Filter) -> bool
    requires { (x.at ≤ length v.now) × (whole id_c x.facts.ins v.now x.at ≡ true) }
    ensures { (length t.new ≡ length t.old) × (result ≡ true → NewSeen v.now x clear t.old t.new) }
{
    if !clear {
        return false;
    }
    let f = x.facts;
    if !new_ids(v, x.at, f.ins, t) {
        return false;
    }
    if f.holder {
        return true;
    }
    let n = f.finish;
    new_number(n, t)
}

// The one pass of the check over the records, with a filter: where they end and what they come to, if they stand there.
// Whatever t holds: what it holds too much only costs time.
fn frames_by(
    s: &[u8],
    form: Form,
    recs: Records,
    k: u64,
    c: Finish,
    t: &mut Filter,
) -> Option<Read<Sums>>
    requires { (recs.start ≤ length s.now) × (recs.count < 4294967296) }
    ensures { Checked form s.now recs k c result }
{
    let mut i = recs.start;
    let mut a = no_sums();
    let mut last = None;
    for _left in (0..recs.count).rev() {
        let x = read_record_in(s, form, i)?;
        if !ends_line(s, form.hex, i, x.size) {
            return None;
        }
        let f = x.facts;
        let id = x.id;
        let up = is_above(last, id);
        let v = View::new(s, form.hex, i);
        let clear = new_record(a.clear, &v, x, t);
        a = add_sums(a, k, c, f, up, clear);
        last = Some(id);
        i = after_in(s, form.hex, i, x.size);
    }
    Some(Read { value: a, next: i })
}

/// The records of a queue, if they stand there: where they end and what they come to.
pub fn frames(s: &[u8], form: Form, recs: Records, k: u64, c: Finish) -> Option<Read<Sums>>
    requires { (recs.start ≤ length s.now) × (recs.count < 4294967296) }
    ensures { Checked form s.now recs k c result }
{
    let mut words = [0u64; 4096];
    frames_by(s, form, recs, k, c, &mut Filter::new(&mut words))
}

/// Is the id one of the n ids at offset `at` of a frame?
pub fn has_id(v: &View, at: usize, n: u64, id: [u8; 32]) -> bool
    requires { (at ≤ length v.now) × (whole id_c n v.now at ≡ true) }
    ensures { result ≡ among? id (list_at id_c n v.now at) }
{
    let mut i = at;
    for _left in (0..n).rev() {
        if same_id(id, v.id(i)) {
            return true;
        }
        i += 32;
    }
    false
}

/// How many of the records have the input id?
pub fn held_by(s: &[u8], form: Form, recs: Records, id: [u8; 32]) -> u64
    requires { RecordsIn (rec_in_value form) s.now recs }
    ensures { result ≡ held_by_value (recs_at (rec_in_value form) s.now recs) id }
{
    let mut i = recs.start;
    let mut total: u64 = 0;
    for _left in (0..recs.count).rev() {
        let x = record_in(s, form, i);
        let f = x.facts;
        let v = View::new(s, form.hex, i);
        total += u64::from(has_id(&v, x.at, f.ins, id));
        i = after_in(s, form.hex, i, x.size);
    }
    total
}

// Is the id in two or more records? Only an id that the filter has is looked for; another is marked.
fn shared(s: &[u8], form: Form, recs: Records, id: [u8; 32], t: &mut Filter) -> bool
    requires { RecordsIn (rec_in_value form) s.now recs }
    ensures { Passed (same? id) hash_l (held_by_value (recs_at (rec_in_value form) s.now recs)) t.old result t.new }
{
    let h = hash(id);
    if t.seen(h) {
        let c = held_by(s, form, recs, id);
        return 1 < c;
    }
    t.mark(h);
    false
}

// Is one of the m ids at offset `ids` of a frame in two or more records?
fn any_shared(
    s: &[u8],
    form: Form,
    recs: Records,
    v: &View,
    ids: usize,
    m: u64,
    t: &mut Filter,
) -> bool
    requires { RecordsIn (rec_in_value form) s.now recs × (ids ≤ length v.now) × (whole id_c m v.now ids ≡ true) }
    ensures { Passed (λ z. among? z (list_at id_c m v.now ids)) hash_l (held_by_value (recs_at (rec_in_value form) s.now recs)) t.old result t.new }
{
    let mut i = ids;
    for _left in (0..m).rev() {
        let id = v.id(i);
        if shared(s, form, recs, id, t) {
            return true;
        }
        i += 32;
    }
    false
}

// Whatever t holds: what it holds too much only costs time.
fn apart_by(s: &[u8], form: Form, recs: Records, t: &mut Filter) -> bool
    requires { RecordsIn (rec_in_value form) s.now recs }
    ensures { result ≡ apart? (recs_at (rec_in_value form) s.now recs) }
{
    let mut i = recs.start;
    for _left in (0..recs.count).rev() {
        let x = record_in(s, form, i);
        let f = x.facts;
        let v = View::new(s, form.hex, i);
        if any_shared(s, form, recs, &v, x.at, f.ins, t) {
            return false;
        }
        i = after_in(s, form.hex, i, x.size);
    }
    true
}

// A pass for each id that the filter has, and for each id that is only read: slow where these are many, but for an area of any size.
fn apart_passes(s: &[u8], form: Form, recs: Records, unread: bool) -> bool
    requires { RecordsIn (rec_in_value form) s.now recs × (unread ≡ true → all? unread? (recs_at (rec_in_value form) s.now recs) ≡ true) }
    ensures { result ≡ (apart? (recs_at (rec_in_value form) s.now recs) && read_apart? (recs_at (rec_in_value form) s.now recs)) }
{
    let mut words = [0u64; 2048];
    if !apart_by(s, form, recs, &mut Filter::new(&mut words)) {
        return false;
    }
    if unread {
        return true;
    }
    reads_passes(s, form, recs)
}

// Where room for few suspects is not enough: with `room` rows for them.
fn apart_long(s: &[u8], form: Form, recs: Records, unread: bool, room: usize) -> bool
    requires { RecordsIn (rec_in_value form) s.now recs × (0 < room) × (room ≤ 65536) × (unread ≡ true → all? unread? (recs_at (rec_in_value form) s.now recs) ≡ true) }
    ensures { result ≡ (apart? (recs_at (rec_in_value form) s.now recs) && read_apart? (recs_at (rec_in_value form) s.now recs)) }
{
    if s.len() < 4294967296 && recs.count < 4294967296 {
        return apart_many(s, form, recs, unread, room);
    }
    apart_passes(s, form, recs, unread)
}

/// Is no input in two records, and does no record spend what another reads? Few inputs are looked at with small tables, as often as
/// needed; `unread` says that no record reads an id.
/// The long way is called at two places that differ in two numbers: the compiler then makes no single call of them, which it
/// would take in here together with the large tables.
pub fn apart(s: &[u8], form: Form, recs: Records, unread: bool, few: bool) -> bool
    requires { RecordsIn (rec_in_value form) s.now recs × (unread ≡ true → all? unread? (recs_at (rec_in_value form) s.now recs) ≡ true) }
    ensures { result ≡ (apart? (recs_at (rec_in_value form) s.now recs) && read_apart? (recs_at (rec_in_value form) s.now recs)) }
{
    if let Some(apart) = apart_few(s, form, recs, unread, few) {
        return apart;
    }
    if form.hex {
        return apart_long(s, form, recs, unread, 32768);
    }
    apart_long(s, form, recs, unread, 65536)
}

// No early way out, so that the loop can be done many bytes at a time.
fn zeros_part(s: &[u8], from: usize, to: usize) -> bool
    requires { (from ≤ to) × (to ≤ length s.now) }
    ensures { result ≡ zero? (take (to - from) (drop from s.now)) }
{
    let mut bits: u8 = 0;
    for i in from..to {
        bits |= s[i];
    }
    bits == 0
}

// The same of n bytes and the n behind them, which are read side by side: more of them in each turn.
// Kept: with one half in each turn `sound` takes longer (docs/DECISIONS.md, "Zeros").
fn zeros_two(s: &[u8], from: usize, n: usize) -> bool
    requires { from + n + n ≤ length s.now }
    ensures { result ≡ (zero_in s.now from (from + n) && zero_in s.now (from + n) (from + n + n)) }
{
    let mut bits: u8 = 0;
    for i in 0..n {
        bits |= s[from + i] | s[from + n + i];
    }
    bits == 0
}

/// Most of them from a multiple of 64 on: of an area that begins at one of 16 no word is read across two lines of the cache.
pub fn zeros(s: &[u8], from: usize, to: usize) -> bool
    requires { (from ≤ to) × (to ≤ length s.now) }
    ensures { result ≡ zero? (take (to - from) (drop from s.now)) }
{
    let k = 64 - from % 64;
    if to - from <= k {
        return zeros_part(s, from, to);
    }
    let a = from + k;
    let n = (to - a) / 128 * 64;
    let x = zeros_part(s, from, a);
    let y = zeros_two(s, a, n);
    let z = zeros_part(s, a + n + n, to);
    x & (y & z)
}
