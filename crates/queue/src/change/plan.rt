// A plan: a row for each of an area's records that changes, by rising places. A call decides its rows, then `write` applies them.
ghost use Rattle.std.specs.Prelude.{◌≡◌, ◌+◌, ◌<◌, ◌≤◌, length, if◌then◌else◌, not, ◌==◌, ◌&&◌};
ghost use Rattle.queue.specs.change.PlanAs.{row_of, row_numbers, Packs, RowAdded, number_n, stay_f};
ghost use Rattle.queue.specs.change.VerdictAs.{verdict_code};

use crate::change::verdict::Verdict;
use crate::layout::frame::{Facts, Finish};

// Where a record stands, which of the area's records it is, its rank among those that the call finishes, from 1 on (0: it does not
// finish it), and what becomes of it. There are at most 3,072, one for each record.
#[derive(Clone, Copy)]
pub struct Row {
    pub place: usize,
    pub index: usize,
    pub rank: u64,
    pub what: Verdict,
}

// A row from its number.
pub fn row_of(w: u64) -> Row
    ensures { row_numbers result ≡ row_of w }
{
    Row {
        place: (w / 134217728) as usize,
        index: (w / 32768 % 4096) as usize,
        rank: w / 8 % 4096,
        what: Verdict::of_number(w % 8),
    }
}

fn row_number(x: Row) -> u64
    requires { Packs (row_numbers x) }
    ensures { row_of result ≡ row_numbers x }
{
    ((x.place as u64 * 4096 + x.index as u64) * 4096 + x.rank) * 8 + u64::from(x.what)
}

// Is no row needed for its record, as that stays what it is?
fn is_idle(x: Row) -> bool
    ensures { result ≡ ((verdict_code x.what == 0) && (x.rank == 0)) }
{
    x.what == Verdict::Stays && x.rank == 0
}

// A row behind k others, if its record changes; returns how many there are then.
pub fn push_row(rows: &mut [u64], k: usize, x: Row) -> usize
    requires { (k < length rows.old) × Packs (row_numbers x) }
    ensures { RowAdded (row_numbers x) k rows.old result rows.new }
{
    let w = row_number(x);
    if is_idle(x) {
        return k;
    }
    rows[k] = w;
    k + 1
}

// The finish number of a record by its rank; 0 where that is 0.
pub fn number_of(counter: Finish, rank: u64) -> Finish
    requires { counter.0 + rank < 18446744073709551616 }
    ensures { result.0 ≡ number_n counter.0 rank }
{
    if rank == 0 {
        return Finish(0);
    }
    Finish(counter.0 + rank)
}

// Does a record stay? n is the finish number that it gets, or 0; a tombstone whose number is below the floor is forgotten.
fn stays(n: Finish, floor: Finish, f: Facts) -> bool
    ensures { result ≡ stay_f n.0 floor.0 f }
{
    if n.0 != 0 {
        return floor.0 <= n.0;
    }
    let m = f.finish;
    f.holder | (floor.0 <= m.0)
}

// What becomes of a record: `what` as it is, or it is forgotten.
pub fn fate_of<T: Copy>(
    what: T,
    forgotten: T,
    rank: u64,
    counter: Finish,
    floor: Finish,
    f: Facts,
) -> T
    requires { counter.0 + rank < 18446744073709551616 }
    ensures { result ≡ (if stay_f (number_n counter.0 rank) floor.0 f then what else forgotten) }
{
    let n = number_of(counter, rank);
    if stays(n, floor, f) {
        return what;
    }
    forgotten
}

// Does a record stay with this verdict?
pub(crate) fn is_kept(what: Verdict) -> bool
    ensures { result ≡ not (verdict_code what == 7) }
{
    what != Verdict::Forgotten
}

// What a planner leaves: how many rows, and how many records stay.
#[derive(Clone, Copy)]
pub struct Plan {
    pub rows: usize,
    pub kept: u64,
}
