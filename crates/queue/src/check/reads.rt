// Ids that are only read: no record spends what another reads. This is asked once no input is in two records: then nobody else
// spends what a record reads and spends itself.
ghost use Rattle.std.specs.Prelude.{◌≡◌, ◌+◌, ◌<◌, ◌≤◌, true, false, not, ◌&&◌, [], ◌∷◌, length, take, MatchOption};
ghost use Rattle.queue.specs.bytes.Parts.{part};
ghost use Rattle.queue.specs.layout.FrameCodec.{id_c};
ghost use Rattle.queue.specs.layout.FormsCodec.{rec_in_value};
ghost use Rattle.queue.specs.bytes.ViewAs.{view};
ghost use Rattle.queue.specs.bytes.ReaderAs.{whole, list_at};
ghost use Rattle.queue.specs.layout.RecordsAs.{RecordsIn, recs_at};
ghost use Rattle.queue.specs.check.FilterAs.{hash_l, marked};
ghost use Rattle.queue.specs.check.SuspectsAs.{Said, AllMarked};
ghost use Rattle.queue.specs.check.ReadsAs.{strange?, Foreign, Spent, Asked, Passes};
ghost use Rattle.queue.specs.paper.Lists.{all?};
ghost use Rattle.queue.specs.paper.Sound.{among?, apart?, read_apart?};

use crate::bytes::view::View;
use crate::check::filter::{hash, seen};
use crate::check::scan::{has_id, held_by};
use crate::check::suspects::{add, crossed, row_at};
use crate::layout::forms::after_in;
use crate::layout::frame::{Form, Seen, record_in};
use crate::layout::records::Records;

// The number of a row of a read id: above that of every record.
const LAST: u64 = 4294967295;

// May another record spend the id than the one whose k input ids stand at offset `ins` of the frame v? t has every input.
fn suspect(v: &View, ins: usize, k: u64, id: [u8; 32], t: &[u64]) -> bool
    requires { (0 < length t.now) × (ins ≤ length v.now) × (whole id_c k v.now ins ≡ true) }
    ensures { result ≡ (marked t.now (hash_l id) && not (among? id (list_at id_c k v.now ins))) }
{
    if seen(t, hash(id)) {
        return !has_id(v, ins, k, id);
    }
    false
}

// The read id at offset i of the frame at base, that of a record that was read as x: a row, where another record may spend it.
fn note_read(
    s: &[u8],
    form: Form,
    recs: Records,
    base: usize,
    x: Seen,
    i: usize,
    id: [u8; 32],
    t: &[u64],
    v: &mut [u64],
    last: bool,
    m: usize,
) -> Option<usize>
    requires { RecordsIn (rec_in_value form) s.now recs × (length s.now < 4294967296) × (recs.count < 4294967296) × (m ≤ length v.old) × (0 < length v.old) × (0 < length t.now) × (x.at ≤ length (view form.hex s.now base)) × (whole id_c x.facts.ins (view form.hex s.now base) x.at ≡ true) × (i + 32 ≤ length (view form.hex s.now base)) × (part 32 (view form.hex s.now base) i ≡ id) × (all? (strange? form.hex s.now (recs_at (rec_in_value form) s.now recs)) (take m v.old) ≡ true) × AllMarked (recs_at (rec_in_value form) s.now recs) t.now × Foreign (recs_at (rec_in_value form) s.now recs) (id ∷ []) (list_at id_c x.facts.ins (view form.hex s.now base) x.at) }
    ensures { MatchOption result (Spent last (recs_at (rec_in_value form) s.now recs)) (λ n. Asked form.hex s.now (recs_at (rec_in_value form) s.now recs) (id ∷ []) (list_at id_c x.facts.ins (view form.hex s.now base) x.at) (take m v.old) (take n v.new) × (n ≤ length v.old)) }
{
    let f = x.facts;
    let frame = View::new(s, form.hex, base);
    if suspect(&frame, x.at, f.ins, id, t) {
        let w = row_at(s, form.hex, base, i, LAST);
        return add(s, form, recs, v, last, m, w);
    }
    Some(m)
}

// The read ids of the record that was read as x from the frame at base.
fn note_reads(
    s: &[u8],
    form: Form,
    recs: Records,
    base: usize,
    x: Seen,
    t: &[u64],
    v: &mut [u64],
    last: bool,
    m: usize,
) -> Option<usize>
    requires { RecordsIn (rec_in_value form) s.now recs × (length s.now < 4294967296) × (recs.count < 4294967296) × (m ≤ length v.old) × (0 < length v.old) × (0 < length t.now) × (x.at ≤ length (view form.hex s.now base)) × (whole id_c x.facts.ins (view form.hex s.now base) x.at ≡ true) × (x.reads ≤ length (view form.hex s.now base)) × (whole id_c x.facts.reads (view form.hex s.now base) x.reads ≡ true) × (all? (strange? form.hex s.now (recs_at (rec_in_value form) s.now recs)) (take m v.old) ≡ true) × AllMarked (recs_at (rec_in_value form) s.now recs) t.now × Foreign (recs_at (rec_in_value form) s.now recs) (list_at id_c x.facts.reads (view form.hex s.now base) x.reads) (list_at id_c x.facts.ins (view form.hex s.now base) x.at) }
    ensures { MatchOption result (Spent last (recs_at (rec_in_value form) s.now recs)) (λ n. Asked form.hex s.now (recs_at (rec_in_value form) s.now recs) (list_at id_c x.facts.reads (view form.hex s.now base) x.reads) (list_at id_c x.facts.ins (view form.hex s.now base) x.at) (take m v.old) (take n v.new) × (n ≤ length v.old)) }
{
    let f = x.facts;
    let frame = View::new(s, form.hex, base);
    let mut i = x.reads;
    let mut len = m;
    for _left in (0..f.reads).rev() {
        let id = frame.id(i);
        len = note_read(s, form, recs, base, x, i, id, t, v, last, len)?;
        i += 32;
    }
    Some(len)
}

/// Does no record spend what another reads? None: not known, the table is full and not the last one.
pub fn reads_by(
    s: &[u8],
    form: Form,
    recs: Records,
    t: &[u64],
    v: &mut [u64],
    last: bool,
) -> Option<bool>
    requires { RecordsIn (rec_in_value form) s.now recs × (length s.now < 4294967296) × (recs.count < 4294967296) × (0 < length v.old) × (0 < length t.now) × (apart? (recs_at (rec_in_value form) s.now recs) ≡ true) × AllMarked (recs_at (rec_in_value form) s.now recs) t.now }
    ensures { Said last (read_apart? (recs_at (rec_in_value form) s.now recs)) result }
{
    let mut i = recs.start;
    let mut m: usize = 0;
    for _left in (0..recs.count).rev() {
        let x = record_in(s, form, i);
        let Some(n) = note_reads(s, form, recs, i, x, t, v, last, m) else {
            return if last { Some(false) } else { None };
        };
        m = n;
        i = after_in(s, form.hex, i, x.size);
    }
    Some(!crossed(s, form, recs, &mut v[..m]))
}

// Is the read id of the record that was read as x from the frame v one of its own inputs, or nobody's? A pass over the records.
fn pass_read(s: &[u8], form: Form, recs: Records, v: &View, x: Seen, id: [u8; 32]) -> bool
    requires { RecordsIn (rec_in_value form) s.now recs × (x.at ≤ length v.now) × (whole id_c x.facts.ins v.now x.at ≡ true) × Foreign (recs_at (rec_in_value form) s.now recs) (id ∷ []) (list_at id_c x.facts.ins v.now x.at) }
    ensures { Passes (recs_at (rec_in_value form) s.now recs) (id ∷ []) (list_at id_c x.facts.ins v.now x.at) result }
{
    let f = x.facts;
    if has_id(v, x.at, f.ins, id) {
        return true;
    }
    held_by(s, form, recs, id) == 0
}

// Is each read id of the record that was read as x from the frame v one of its own inputs, or nobody's?
fn pass_reads(s: &[u8], form: Form, recs: Records, v: &View, x: Seen) -> bool
    requires { RecordsIn (rec_in_value form) s.now recs × (x.at ≤ length v.now) × (whole id_c x.facts.ins v.now x.at ≡ true) × (x.reads ≤ length v.now) × (whole id_c x.facts.reads v.now x.reads ≡ true) × Foreign (recs_at (rec_in_value form) s.now recs) (list_at id_c x.facts.reads v.now x.reads) (list_at id_c x.facts.ins v.now x.at) }
    ensures { Passes (recs_at (rec_in_value form) s.now recs) (list_at id_c x.facts.reads v.now x.reads) (list_at id_c x.facts.ins v.now x.at) result }
{
    let f = x.facts;
    let mut i = x.reads;
    for _left in (0..f.reads).rev() {
        let id = v.id(i);
        if !pass_read(s, form, recs, v, x, id) {
            return false;
        }
        i += 32;
    }
    true
}

/// Does no record spend what another reads? Slow, but for an area of any size.
pub fn reads_passes(s: &[u8], form: Form, recs: Records) -> bool
    requires { RecordsIn (rec_in_value form) s.now recs × (apart? (recs_at (rec_in_value form) s.now recs) ≡ true) }
    ensures { result ≡ read_apart? (recs_at (rec_in_value form) s.now recs) }
{
    let mut i = recs.start;
    for _left in (0..recs.count).rev() {
        let x = record_in(s, form, i);
        let v = View::new(s, form.hex, i);
        if !pass_reads(s, form, recs, &v, x) {
            return false;
        }
        i = after_in(s, form.hex, i, x.size);
    }
    true
}
