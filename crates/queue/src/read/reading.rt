// Reading calls: what each answers of the queue in a lent area.
ghost use Rattle.std.specs.Prelude.{◌≡◌, ℕ, MatchResult};
ghost use Rattle.queue.specs.read.ReadingAs.{LookedUp, LookRefused, SignedAt, SignedRefused, part_in};
ghost use Rattle.queue.specs.Refusal.{answer_of, number_told, test_told};
ghost use Rattle.queue.specs.paper.Lists.{one, is_empty?};
ghost use Rattle.queue.specs.Checked.{written};
ghost use Rattle.queue.specs.paper.Reading.{deadline_due?};
ghost use Rattle.queue.specs.paper.Calls.{cursor_bytes, entry_of, signed_bytes_of, read_of, number_of};

use crate::Kind;
use crate::bytes::put::copy_part;
use crate::bytes::view::View;
use crate::check::area::Area;
use crate::check::rules::Query;
use crate::check::scan::tally;
use crate::layout::frame::{Height, Time, record_at};
use crate::layout::records::Records;
use crate::read::entry::{entry_len, put_entry};
use crate::read::find::find_id;
use crate::refusal::Refusal;

/// Where the record with this id stands. Refusals 3, 5 and 13.
pub fn look(area: &[u8], id: &[u8]) -> Result<usize, Refusal>
    ensures { MatchResult result (LookedUp area.now id.now) (LookRefused area.now id.now) }
{
    let a = Area::read(area)?;
    if id.len() != 32 {
        return Err(Refusal::Malformed);
    }
    let k = View::new(id, false, 0).id(0);
    let recs = Records {
        start: a.open.start,
        count: a.open.head.count,
    };
    find_id(area, recs, k).ok_or(Refusal::NotFound)
}

/// Where signed bytes stand.
#[derive(Clone, Copy)]
pub struct Place {
    pub start: usize,
    pub len: usize,
}

/// The place of a record's signed bytes. Refusals 3, 5 and 13.
pub fn signed_place(area: &[u8], id: &[u8]) -> Result<Place, Refusal>
    ensures { MatchResult result (SignedAt area.now id.now) (SignedRefused area.now id.now) }
{
    let at = look(area, id)?;
    let x = record_at(area, at);
    let f = x.facts;
    if !f.holder {
        return Err(Refusal::NotFound);
    }
    Ok(Place {
        start: at + (x.size - f.bytes as usize),
        len: f.bytes as usize,
    })
}

/// The part of the area that holds a record's signed bytes; empty with a refusal.
pub fn signed_bytes<'a>(area: &'a [u8], id: &[u8]) -> &'a [u8]
    ensures { result.now ≡ part_in area.now (signed_bytes_of area.now id.now (0, 0)).1 }
{
    match signed_place(area, id) {
        Ok(p) => &area[p.start..p.start + p.len],
        Err(_) => &area[0..0],
    }
}

/// The entry of the record with this id, in out. Refusals 3, 5, 13 and 4.
pub fn entry(area: &[u8], id: &[u8], out: &mut [u8]) -> Result<Kind, Refusal>
    ensures { written (answer_of result) out.new ≡ entry_of area.now id.now out.old }
{
    let at = look(area, id)?;
    let x = record_at(area, at);
    let n = entry_len(x);
    if out.len() < n {
        return Err(Refusal::OutputTooShort);
    }
    put_entry(area, at, x, out, 0);
    Ok(Kind::Nothing)
}

/// The revision. Refusal 3.
pub fn revision(area: &[u8]) -> Result<u64, Refusal>
    ensures { (old : ℕ) → number_told result old ≡ number_of (λ q. q.revision) area.now old }
{
    Ok(Area::read(area)?.open.head.revision)
}

/// The height that was last observed. Refusal 3.
pub fn observed_height(area: &[u8]) -> Result<u64, Refusal>
    ensures { (old : ℕ) → number_told result old ≡ number_of (λ q. q.cursor) area.now old }
{
    Ok(Area::read(area)?.open.head.cursor.0)
}

/// Are there no records? Refusal 3.
pub fn is_empty(area: &[u8]) -> Result<bool, Refusal>
    ensures { (old : ℕ) → test_told result old ≡ number_of (λ q. one (is_empty? q.recs)) area.now old }
{
    Ok(Area::read(area)?.open.head.count == 0)
}

/// Is a pending record's deadline due? Refusal 3.
pub fn deadline_due(area: &[u8], time: Time, height: Height) -> Result<bool, Refusal>
    ensures { (old : ℕ) → test_told result old ≡ number_of (λ q. one (deadline_due? time.0 height.0 q)) area.now old }
{
    let a = Area::read(area)?;
    let recs = Records {
        start: a.open.start,
        count: a.open.head.count,
    };
    Ok(0 < tally(area, recs, Query::Due(time, height)))
}

/// The cursor's height, tip flag and tip, as they stand in the header. Refusals 3 and 4.
pub fn observation_cursor(area: &[u8], out: &mut [u8]) -> Result<Kind, Refusal>
    ensures { written (answer_of result) out.new ≡ read_of cursor_bytes area.now out.old }
{
    let h = Area::read(area)?.open.head;
    let n = h.after - h.marks;
    if out.len() < n {
        return Err(Refusal::OutputTooShort);
    }
    copy_part(area, 4 + h.marks, n, out, 0);
    Ok(Kind::Nothing)
}
