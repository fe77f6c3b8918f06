// The reading calls that write a count and a piece for each record that passes.
ghost use Rattle.std.specs.Prelude.{◌≡◌, ◌+◌, ◌<◌, ◌≤◌, true, false, [], length, if◌then◌else◌};
ghost use Rattle.queue.specs.Refusal.{answer_of};
ghost use Rattle.queue.specs.layout.FrameCodec.{rec_c};
ghost use Rattle.queue.specs.layout.FormsCodec.{form_c};
ghost use Rattle.queue.specs.layout.RecordsAs.{RecordsIn, recs_at};
ghost use Rattle.queue.specs.bytes.PutAs.{Put};
ghost use Rattle.queue.specs.read.PiecesAs.{due_at, passes_f, piece_at, piece_len_value, PieceIn, pieces_of, told_pieces, MeasureAs};
ghost use Rattle.queue.specs.Checked.{written};
ghost use Rattle.queue.specs.paper.Reading.{record_ids_value, guarded_ids_value, due_states, confirmations};
ghost use Rattle.queue.specs.paper.Calls.{counted, entry_bytes, ids_bytes, placed_bytes, due_bytes, read_of};

use crate::Kind;
use crate::bytes::put::{copy_part, put_be};
use crate::check::area::Area;
use crate::check::rules;
use crate::layout::forms::after_in;
use crate::layout::frame::{Facts, Height, Seen, Time, record_at};
use crate::layout::records::Records;
use crate::layout::state::State;
use crate::read::entry::{entry_len, put_entry};
use crate::refusal::Refusal;

// What to write of which records.
#[derive(Clone, Copy)]
pub enum What {
    Ids,
    Guarded,
    DueBy(Time, Height),
    Confirmed,
    Entries,
}

#[derive(Clone, Copy)]
pub struct Sizes {
    pub count: u64,
    pub size: usize,
}

fn passes(w: What, f: Facts) -> bool
    ensures { result ≡ passes_f w f }
{
    match w {
        What::Ids => true,
        What::Guarded => f.holder,
        What::DueBy(t, h) => rules::is_due(t, h, f),
        What::Confirmed => (f.state == State::Mined as u64) & f.mined.is_some(),
        What::Entries => true,
    }
}

fn piece_len(w: What, x: Seen) -> usize
    requires { (x.after + 1 ≤ x.mark) × (x.mark ≤ 400) × (x.facts.ins < 65536) × (x.facts.reads < 65536) }
    ensures { (result ≡ piece_len_value w x) × (result < 4294967296) }
{
    match w {
        What::Ids => 32,
        What::Guarded => 32,
        What::DueBy(_, _) => 33,
        What::Confirmed => 32 + (x.mark - x.after - 1),
        What::Entries => entry_len(x),
    }
}

// Id, mined height and block id: the place's flag is left out.
fn put_confirmed(src: &[u8], base: usize, x: Seen, dst: &mut [u8], at: usize) -> usize
    requires { PieceIn src.now base x × (at + piece_len_value What.Confirmed x ≤ length dst.old) }
    ensures { Put dst.old at (piece_at What.Confirmed src.now base x) (piece_len_value What.Confirmed x) result dst.new }
{
    let n = x.mark - x.after - 1;
    let p = base + x.after + 1;
    let a = copy_part(src, base + 1, 32, dst, at);
    copy_part(src, p, n, dst, a)
}

// Id and state: the caller between them is left out.
fn put_due(src: &[u8], base: usize, dst: &mut [u8], at: usize) -> usize
    requires { (base + 35 ≤ length src.now) × (at + 33 ≤ length dst.old) }
    ensures { Put dst.old at (due_at src.now base) 33 result dst.new }
{
    let a = copy_part(src, base + 1, 32, dst, at);
    copy_part(src, base + 34, 1, dst, a)
}

// The piece of the record read at base.
fn put_piece(src: &[u8], base: usize, x: Seen, w: What, dst: &mut [u8], at: usize) -> usize
    requires { PieceIn src.now base x × (at + piece_len_value w x ≤ length dst.old) }
    ensures { Put dst.old at (piece_at w src.now base x) (piece_len_value w x) result dst.new }
{
    match w {
        What::Ids => copy_part(src, base + 1, 32, dst, at),
        What::Guarded => copy_part(src, base + 1, 32, dst, at),
        What::DueBy(_, _) => put_due(src, base, dst, at),
        What::Confirmed => put_confirmed(src, base, x, dst, at),
        What::Entries => put_entry(src, base, x, dst, at),
    }
}

// Only if the record passes.
fn add_piece(src: &[u8], base: usize, x: Seen, w: What, dst: &mut [u8], at: usize) -> usize
    requires { PieceIn src.now base x × (at + (if passes_f w x.facts then piece_len_value w x else 0) ≤ length dst.old) }
    ensures { Put dst.old at (if passes_f w x.facts then piece_at w src.now base x else []) (if passes_f w x.facts then piece_len_value w x else 0) result dst.new }
{
    let f = x.facts;
    if passes(w, f) {
        return put_piece(src, base, x, w, dst, at);
    }
    at
}

fn size_if(a: bool, n: usize) -> usize
    ensures { (result ≡ (if a then n else 0)) × (result ≤ n) }
{
    if a { n } else { 0 }
}

// How many of the records pass, and how long their pieces are.
pub fn measure(s: &[u8], recs: Records, w: What) -> Sizes
    requires { RecordsIn (form_c false rec_c) s.now recs × (recs.count < 4294967296) }
    ensures { MeasureAs w (recs_at (form_c false rec_c) s.now recs) recs.count result }
{
    let mut i = recs.start;
    let mut count: u64 = 0;
    let mut size: usize = 0;
    for _left in (0..recs.count).rev() {
        let x = record_at(s, i);
        let f = x.facts;
        let p = passes(w, f);
        count = count + u64::from(p);
        size = size + size_if(p, piece_len(w, x));
        i = after_in(s, false, i, x.size);
    }
    Sizes {
        count: count,
        size: size,
    }
}

pub fn put_pieces(s: &[u8], recs: Records, w: What, dst: &mut [u8], at: usize) -> usize
    requires { RecordsIn (form_c false rec_c) s.now recs × (at + length (pieces_of w (recs_at (form_c false rec_c) s.now recs)) ≤ length dst.old) }
    ensures { Put dst.old at (pieces_of w (recs_at (form_c false rec_c) s.now recs)) (length (pieces_of w (recs_at (form_c false rec_c) s.now recs))) result dst.new }
{
    let mut i = recs.start;
    let mut o = at;
    for _left in (0..recs.count).rev() {
        let x = record_at(s, i);
        o = add_piece(s, i, x, w, dst, o);
        i = after_in(s, false, i, x.size);
    }
    o
}

// Refusals 3 and 4, or the count and the pieces.
fn told(area: &[u8], w: What, out: &mut [u8]) -> Result<Kind, Refusal>
    ensures { written (answer_of result) out.new ≡ told_pieces w area.now out.old }
{
    let a = Area::read(area)?;
    let o = a.open;
    let h = o.head;
    let recs = Records {
        start: o.start,
        count: h.count,
    };
    let m = measure(area, recs, w);
    if out.len() < 4 + m.size {
        return Err(Refusal::OutputTooShort);
    }
    let p = put_be(out, 0, 4, m.count);
    put_pieces(area, recs, w, out, p);
    Ok(Kind::Nothing)
}

pub fn record_ids(area: &[u8], out: &mut [u8]) -> Result<Kind, Refusal>
    ensures { written (answer_of result) out.new ≡ read_of (λ q. ids_bytes (record_ids_value q)) area.now out.old }
{
    told(area, What::Ids, out)
}

// The ids of the holders.
pub fn guarded_ids(area: &[u8], out: &mut [u8]) -> Result<Kind, Refusal>
    ensures { written (answer_of result) out.new ≡ read_of (λ q. ids_bytes (guarded_ids_value q)) area.now out.old }
{
    told(area, What::Guarded, out)
}

// Id and state of each pending record that expiry would finish.
pub fn due(area: &[u8], time: Time, height: Height, out: &mut [u8]) -> Result<Kind, Refusal>
    ensures { written (answer_of result) out.new ≡ read_of (λ q. counted due_bytes (due_states time.0 height.0 q)) area.now out.old }
{
    told(area, What::DueBy(time, height), out)
}

// Id, mined height and block id of each Mined record.
pub fn confirmations(area: &[u8], out: &mut [u8]) -> Result<Kind, Refusal>
    ensures { written (answer_of result) out.new ≡ read_of (λ q. counted placed_bytes (confirmations q)) area.now out.old }
{
    told(area, What::Confirmed, out)
}

// The entry of each record.
pub fn list(area: &[u8], out: &mut [u8]) -> Result<Kind, Refusal>
    ensures { written (answer_of result) out.new ≡ read_of (λ q. counted entry_bytes q.recs) area.now out.old }
{
    told(area, What::Entries, out)
}
