// Which wanted ids, inputs and read ids, are owned: available, or an output of a Queued record. There is a flag for each wanted id of all
// records, in their order, a bit of a word. The ids that are not available go into a filter, and the outputs that it has into a table of
// rows. Full, and at the end, it is put in order, and each wanted id without a flag is looked up in it.
ghost use Rattle.std.specs.Prelude.{◌≡◌, ◌+◌, ◌*◌, ◌<◌, ◌≤◌, Bool, true, false, ◌&&◌, List, [], length, take, drop, if◌then◌else◌, ◌==◌, slice_index, slice_set};
ghost use Rattle.queue.specs.bytes.Parts.{part};
ghost use Rattle.queue.specs.layout.FrameCodec.{rec_c, id_c};
ghost use Rattle.queue.specs.layout.FormsCodec.{form_c};
ghost use Rattle.queue.specs.bytes.ViewAs.{view};
ghost use Rattle.queue.specs.bytes.ReaderAs.{whole, list_at};
ghost use Rattle.queue.specs.layout.RecordsAs.{RecordsIn, recs_at};
ghost use Rattle.queue.specs.change.ReopenAs.{IdsRise, ids_at};
ghost use Rattle.queue.specs.check.FilterAs.{hash_l, mark_l};
ghost use Rattle.queue.specs.check.SuspectsAs.{id_r, no_r, later, InOrder};
ghost use Rattle.queue.specs.change.TouchAs.{own_ids};
ghost use Rattle.queue.specs.change.OwnAs.{set?, bits_in, Fits, wanted_of, mark_all_value, miss_all, FlagsAre, Noted, Settled, Taken};
ghost use Rattle.queue.specs.paper.Records.{Id};
ghost use Rattle.queue.specs.paper.Lists.{any?, all?};
ghost use Rattle.queue.specs.paper.Sound.{among?};
ghost use Rattle.queue.specs.paper.Changing.{queued_outputs};

use crate::bytes::view::View;
use crate::change::lent::find_lent;
use crate::check::filter::{bit, hash, mark, seen};
use crate::check::suspects::{any_later, in_order, order_rows, row_at};
use crate::layout::forms::after_in;
use crate::layout::frame::{Seen, record_at};
use crate::layout::records::Records;
use crate::layout::state::State;
use crate::read::links::clear;

// How many ids the records want.
pub fn count_wanted(s: &[u8], recs: Records) -> u64
    requires { RecordsIn (form_c false rec_c) s.now recs × (recs.count < 4294967296) }
    ensures { (result ≡ length (wanted_of (recs_at (form_c false rec_c) s.now recs))) × (result ≤ recs.count * 131070) }
{
    let mut i = recs.start;
    let mut total: u64 = 0;
    for _left in (0..recs.count).rev() {
        let x = record_at(s, i);
        let f = x.facts;
        total = total + (f.ins + f.reads);
        i = after_in(s, false, i, x.size);
    }
    total
}

// Is flag g set?
fn flag_at(flags: &[u64], g: usize) -> bool
    requires { g < 64 * length flags.now }
    ensures { result ≡ set? (slice_index (bits_in flags.now) g) }
{
    let w = flags[g / 64];
    let b = bit((g % 64) as u64);
    w / b % 2 == 1
}

fn set_flag(flags: &mut [u64], g: usize)
    requires { g < 64 * length flags.old }
    ensures { bits_in flags.new ≡ slice_set (bits_in flags.old) g 1 }
{
    let i = g / 64;
    let b = bit((g % 64) as u64);
    let w = flags[i];
    flags[i] = w | b;
}

// Are the c flags from g on set?
pub fn all_set(flags: &[u64], g: usize, c: u64) -> bool
    requires { Fits (g + c) flags.now }
    ensures { result ≡ all? set? (take c (drop g (bits_in flags.now))) }
{
    let mut i = g;
    for _left in (0..c).rev() {
        if !flag_at(flags, i) {
            return false;
        }
        i += 1;
    }
    true
}

// The flag of an available id, or the id into the filter.
fn note_id(flags: &mut [u64], g: usize, t: &mut [u64], id: [u8; 32], found: bool)
    requires { (g < 64 * length flags.old) × (0 < length t.old) }
    ensures { ((bits_in flags.new) ≡ (if found then slice_set (bits_in flags.old) g 1 else bits_in flags.old)) × (t.new ≡ (if found then t.old else mark_l t.old (hash_l id))) }
{
    if found {
        set_flag(flags, g);
        return;
    }
    mark(t, hash(id));
}

// The flags from `from` on of those of the c ids at offset `at` of a frame that are available; the others into the filter.
fn note_ids(
    frame: &View,
    at: usize,
    c: u64,
    ids: &[u8],
    m: u64,
    flags: &mut [u64],
    from: usize,
    t: &mut [u64],
)
    requires { (at ≤ length frame.now) × (whole id_c c frame.now at ≡ true) × IdsRise ids.now m × Fits (from + c) flags.old × (0 < length t.old) }
    ensures { ((bits_in flags.new) ≡ mark_all_value (λ z. among? z (ids_at ids.now m)) (list_at id_c c frame.now at) (bits_in flags.old) from) × (t.new ≡ miss_all (λ z. among? z (ids_at ids.now m)) (list_at id_c c frame.now at) t.old) }
{
    let mut i = at;
    let mut g = from;
    for _left in (0..c).rev() {
        let id = frame.id(i);
        let found = find_lent(ids, m, id);
        note_id(flags, g, t, id, found);
        i += 32;
        g += 1;
    }
}

// The flags of all wanted ids of the records that are available; the others into the filter.
fn note_all(s: &[u8], recs: Records, ids: &[u8], m: u64, flags: &mut [u64], t: &mut [u64])
    requires { RecordsIn (form_c false rec_c) s.now recs × IdsRise ids.now m × Fits (length (wanted_of (recs_at (form_c false rec_c) s.now recs))) flags.old × (0 < length t.old) }
    ensures { ((bits_in flags.new) ≡ mark_all_value (λ z. among? z (ids_at ids.now m)) (wanted_of (recs_at (form_c false rec_c) s.now recs)) (bits_in flags.old) 0) × (t.new ≡ miss_all (λ z. among? z (ids_at ids.now m)) (wanted_of (recs_at (form_c false rec_c) s.now recs)) t.old) }
{
    let mut i = recs.start;
    let mut g: usize = 0;
    for _left in (0..recs.count).rev() {
        let x = record_at(s, i);
        let f = x.facts;
        let frame = View::new(s, false, i);
        note_ids(&frame, x.at, f.ins, ids, m, flags, g, t);
        g = g + f.ins as usize;
        note_ids(&frame, x.reads, f.reads, ids, m, flags, g, t);
        g = g + f.reads as usize;
        i = after_in(s, false, i, x.size);
    }
}

// The flag of the id at offset i of the frame at base, if it is a row's.
fn mark_id(s: &[u8], base: usize, i: usize, v: &[u64], ordered: bool, flags: &mut [u64], g: usize)
    requires { (i + 32 ≤ length (view false s.now base)) × (length s.now < 4294967296) × (ordered ≡ true → InOrder false s.now v.now) × (g < 64 * length flags.old) }
    ensures { (bits_in flags.new) ≡ (if any? (later false s.now (part 32 (view false s.now base) i) 0) v.now then slice_set (bits_in flags.old) g 1 else bits_in flags.old) }
{
    if flag_at(flags, g) {
        return;
    }
    let y = row_at(s, false, base, i, 0);
    if any_later(s, false, v, ordered, y) {
        set_flag(flags, g);
    }
}

// The flags from `from` on of those of the c ids at offset `at` of the frame at base that are rows'.
fn mark_ids(
    s: &[u8],
    base: usize,
    at: usize,
    c: u64,
    v: &[u64],
    ordered: bool,
    flags: &mut [u64],
    from: usize,
)
    requires { (at ≤ length (view false s.now base)) × (whole id_c c (view false s.now base) at ≡ true) × (length s.now < 4294967296) × (ordered ≡ true → InOrder false s.now v.now) × Fits (from + c) flags.old }
    ensures { (bits_in flags.new) ≡ mark_all_value (λ z. any? (later false s.now z 0) v.now) (list_at id_c c (view false s.now base) at) (bits_in flags.old) from }
{
    let mut i = at;
    let mut g = from;
    for _left in (0..c).rev() {
        mark_id(s, base, i, v, ordered, flags, g);
        i += 32;
        g += 1;
    }
}

// The flags of all wanted ids of the records that are rows'.
fn mark_all(s: &[u8], recs: Records, v: &[u64], ordered: bool, flags: &mut [u64])
    requires { RecordsIn (form_c false rec_c) s.now recs × (length s.now < 4294967296) × (ordered ≡ true → InOrder false s.now v.now) × Fits (length (wanted_of (recs_at (form_c false rec_c) s.now recs))) flags.old }
    ensures { (bits_in flags.new) ≡ mark_all_value (λ z. any? (later false s.now z 0) v.now) (wanted_of (recs_at (form_c false rec_c) s.now recs)) (bits_in flags.old) 0 }
{
    let mut i = recs.start;
    let mut g: usize = 0;
    for _left in (0..recs.count).rev() {
        let x = record_at(s, i);
        let f = x.facts;
        mark_ids(s, i, x.at, f.ins, v, ordered, flags, g);
        g = g + f.ins as usize;
        mark_ids(s, i, x.reads, f.reads, v, ordered, flags, g);
        g = g + f.reads as usize;
        i = after_in(s, false, i, x.size);
    }
}

// The flags of the wanted ids that are rows', the rows put in order first.
fn flag_rows(s: &[u8], recs: Records, v: &mut [u64], flags: &mut [u64])
    requires { RecordsIn (form_c false rec_c) s.now recs × (length s.now < 4294967296) × Fits (length (wanted_of (recs_at (form_c false rec_c) s.now recs))) flags.old }
    ensures { Settled s.now (wanted_of (recs_at (form_c false rec_c) s.now recs)) (bits_in flags.old) v.old (bits_in flags.new) v.new }
{
    order_rows(s, false, v);
    let o = in_order(s, false, v);
    mark_all(s, recs, v, o, flags);
}

// The row w behind k others, if the filter has its id, whose number is h; a full table is settled and begun anew. Returns how many rows
// there are then.
fn add_output(
    s: &[u8],
    recs: Records,
    v: &mut [u64],
    flags: &mut [u64],
    t: &[u64],
    k: usize,
    w: u64,
    h: u64,
) -> usize
    requires { RecordsIn (form_c false rec_c) s.now recs × (length s.now < 4294967296) × Fits (length (wanted_of (recs_at (form_c false rec_c) s.now recs))) flags.old × (k ≤ length v.old) × (0 < length v.old) × (0 < length t.now) × (h ≡ hash_l (id_r false s.now w)) }
    ensures { Taken s.now (wanted_of (recs_at (form_c false rec_c) s.now recs)) t.now (bits_in flags.old) (take k v.old) (λ z. later false s.now z 0 w) (bits_in flags.new) (take result v.new) × (result ≤ length v.old) }
{
    if !seen(t, h) {
        return k;
    }
    if k < v.len() {
        v[k] = w;
        return k + 1;
    }
    flag_rows(s, recs, v, flags);
    v[0] = w;
    1
}

// The c ids at offset `outs` of the frame at base.
fn add_rows(
    s: &[u8],
    recs: Records,
    v: &mut [u64],
    flags: &mut [u64],
    t: &[u64],
    k: usize,
    base: usize,
    outs: usize,
    c: u64,
) -> usize
    requires { RecordsIn (form_c false rec_c) s.now recs × (length s.now < 4294967296) × Fits (length (wanted_of (recs_at (form_c false rec_c) s.now recs))) flags.old × (k ≤ length v.old) × (0 < length v.old) × (0 < length t.now) × (outs ≤ length (view false s.now base)) × (whole id_c c (view false s.now base) outs ≡ true) }
    ensures { Taken s.now (wanted_of (recs_at (form_c false rec_c) s.now recs)) t.now (bits_in flags.old) (take k v.old) (λ z. among? z (list_at id_c c (view false s.now base) outs)) (bits_in flags.new) (take result v.new) × (result ≤ length v.old) }
{
    let frame = View::new(s, false, base);
    let mut i = outs;
    let mut h = k;
    for _left in (0..c).rev() {
        let id = frame.id(i);
        let w = row_at(s, false, base, i, 1);
        h = add_output(s, recs, v, flags, t, h, w, hash(id));
        i += 32;
    }
    h
}

// The outputs of the record read at base, if that is Queued.
fn add_outputs(
    s: &[u8],
    recs: Records,
    v: &mut [u64],
    flags: &mut [u64],
    t: &[u64],
    k: usize,
    base: usize,
    x: Seen,
) -> usize
    requires { RecordsIn (form_c false rec_c) s.now recs × (length s.now < 4294967296) × Fits (length (wanted_of (recs_at (form_c false rec_c) s.now recs))) flags.old × (k ≤ length v.old) × (0 < length v.old) × (0 < length t.now) × (x.outs ≤ length (view false s.now base)) × (whole id_c x.facts.outs (view false s.now base) x.outs ≡ true) }
    ensures { Taken s.now (wanted_of (recs_at (form_c false rec_c) s.now recs)) t.now (bits_in flags.old) (take k v.old) (λ z. (x.facts.state == 0) && among? z (list_at id_c x.facts.outs (view false s.now base) x.outs)) (bits_in flags.new) (take result v.new) × (result ≤ length v.old) }
{
    let f = x.facts;
    if f.state != State::Queued as u64 {
        return k;
    }
    add_rows(s, recs, v, flags, t, k, base, x.outs, f.outs)
}

// The outputs of the Queued ones of the records, those that the filter has; returns how many rows are left.
fn add_queued(s: &[u8], recs: Records, v: &mut [u64], flags: &mut [u64], t: &[u64]) -> usize
    requires { RecordsIn (form_c false rec_c) s.now recs × (length s.now < 4294967296) × Fits (length (wanted_of (recs_at (form_c false rec_c) s.now recs))) flags.old × (0 < length v.old) × (0 < length t.now) }
    ensures { Taken s.now (wanted_of (recs_at (form_c false rec_c) s.now recs)) t.now (bits_in flags.old) [] (λ z. among? z (queued_outputs (recs_at (form_c false rec_c) s.now recs))) (bits_in flags.new) (take result v.new) × (result ≤ length v.old) }
{
    let mut i = recs.start;
    let mut k: usize = 0;
    for _left in (0..recs.count).rev() {
        let x = record_at(s, i);
        k = add_outputs(s, recs, v, flags, t, k, i, x);
        i = after_in(s, false, i, x.size);
    }
    k
}

// The flags of the wanted ids of the records that are available, and the filter of the others, if they are to be and there is room.
// t is a slice and no `Filter`: the caller knows afterwards what its words are, and without a word the answer is false.
pub fn note_flags(
    s: &[u8],
    recs: Records,
    ids: &[u8],
    m: u64,
    go: bool,
    total: u64,
    flags: &mut [u64],
    t: &mut [u64],
) -> bool
    requires { RecordsIn (form_c false rec_c) s.now recs × IdsRise ids.now m × (go ≡ true → total ≡ length (wanted_of (recs_at (form_c false rec_c) s.now recs))) × (total ≤ 524288) }
    ensures { (result ≡ true → go ≡ true) × (result ≡ true → Noted (λ z. among? z (ids_at ids.now m)) (wanted_of (recs_at (form_c false rec_c) s.now recs)) flags.new t.new) }
{
    let words = (total + 63) / 64;
    if !(go & (words <= flags.len() as u64) & (0 < t.len())) {
        return false;
    }
    clear(flags, true);
    note_all(s, recs, ids, m, flags, t);
    true
}

// The flags of the wanted ids that are outputs of Queued records beside those that were noted, if there is room for rows. Outputs are
// looked at only where an id is not available, and ids looked up only where the filter has an output.
pub fn own_flags(
    s: &[u8],
    recs: Records,
    total: u64,
    v: &mut [u64],
    flags: &mut [u64],
    t: &[u64],
) -> bool
    requires { RecordsIn (form_c false rec_c) s.now recs × (length s.now < 4294967296) × Fits (length (wanted_of (recs_at (form_c false rec_c) s.now recs))) flags.old × (total ≡ length (wanted_of (recs_at (form_c false rec_c) s.now recs))) × (0 < length t.now) }
    ensures { result ≡ true → (own : List Id) → Noted (λ z. among? z own) (wanted_of (recs_at (form_c false rec_c) s.now recs)) flags.old t.now → FlagsAre (λ z. among? z (own_ids own (recs_at (form_c false rec_c) s.now recs))) (wanted_of (recs_at (form_c false rec_c) s.now recs)) (bits_in flags.new) }
{
    if v.len() == 0 {
        return false;
    }
    if all_set(flags, 0, total) {
        return true;
    }
    let k = add_queued(s, recs, v, flags, t);
    if k == 0 {
        return true;
    }
    flag_rows(s, recs, &mut v[..k], flags);
    true
}
