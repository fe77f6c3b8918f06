// The rows of a reconciliation: what becomes of each record after its verdict, and the ranks of the released.
ghost use Rattle.std.specs.Prelude.{◌≡◌, ◌+◌, ◌<◌, ◌≤◌, true, false, length, take, slice_set};
ghost use Rattle.queue.specs.Codec.{All};
ghost use Rattle.queue.specs.check.AreaAs.{AreaIn};
ghost use Rattle.queue.specs.change.PlanAs.{Planned};
ghost use Rattle.queue.specs.read.SelectAs.{id_at};
ghost use Rattle.queue.specs.change.TouchAs.{InEntry};
ghost use Rattle.queue.specs.change.RanksAs.{RankRows, Ranked, kept_in};
ghost use Rattle.queue.specs.paper.Lists.{map};
ghost use Rattle.queue.specs.paper.Changing.{place_in};

use crate::bytes::view::{View, same_id};
use crate::change::plan::{Plan, Row, fate_of, is_kept, push_row};
use crate::change::verdict::Verdict;
use crate::check::area::Area;
use crate::check::suspects::{bisect, cmp_rows, in_order, order_rows, row_at};
use crate::layout::frame::{Finish, record_at};

// The place of an id among the ids of the records at these places, from 1 on; 0 where it is none of them.
fn rank_in(s: &[u8], gone: &[usize], id: [u8; 32]) -> u64
    requires { All (λ p. p + 33 ≤ length s.now) gone.now × (length gone.now ≤ 2048) }
    ensures { (result ≡ place_in id (map (id_at s.now) gone.now)) × (result ≤ length gone.now) }
{
    let v = View::new(s, false, 0);
    for (j, p) in gone.iter().enumerate() {
        let y = v.id(*p + 1);
        if same_id(id, y) {
            return (j as u64) + 1;
        }
    }
    0
}

// A row for each of the records at these places: where its id stands, and its rank, from 1 on.
fn rank_rows(s: &[u8], gone: &[usize], rows: &mut [u64])
    requires { All (λ p. p + 33 ≤ length s.now) gone.now × (length gone.now ≤ 2048) × (length s.now < 4294967296) × (length rows.old ≡ length gone.now) }
    ensures { RankRows s.now gone.now rows.new }
{
    for (j, p) in gone.iter().enumerate() {
        let w = row_at(s, false, *p, 1, j as u64 + 1);
        put_rank(rows, j, w);
    }
}

fn put_rank(rows: &mut [u64], j: usize, w: u64)
    requires { j < length rows.old }
    ensures { rows.new ≡ slice_set rows.old j w }
{
    rows[j] = w;
}

// These rows in the order of their ids; false where they are not: then a rank is looked for by a scan.
pub fn order_ranks(s: &[u8], gone: &[usize], rows: &mut [u64]) -> bool
    requires { All (λ p. p + 33 ≤ length s.now) gone.now × (length gone.now ≤ 2048) }
    ensures { result ≡ true → Ranked s.now gone.now rows.new }
{
    if 4294967296 <= s.len() {
        return false;
    }
    if rows.len() != gone.len() {
        return false;
    }
    rank_rows(s, gone, rows);
    order_rows(s, false, rows);
    in_order(s, false, rows)
}

// The rank of the record read at base, as rank_in has it; by bisection where the rows are in order.
fn rank_of(s: &[u8], gone: &[usize], rows: &[u64], ordered: bool, base: usize, id: [u8; 32]) -> u64
    requires { (All (λ p. p + 33 ≤ length s.now) gone.now × (length gone.now ≤ 2048)) × (ordered ≡ true → Ranked s.now gone.now rows.now) × (base + 33 ≤ length s.now) × (id_at s.now base ≡ id) }
    ensures { (result ≡ place_in id (map (id_at s.now) gone.now)) × (result ≤ length gone.now) }
{
    if !ordered {
        return rank_in(s, gone, id);
    }
    let y = row_at(s, false, base, 1, 0);
    let b = bisect(s, false, rows, y);
    if rows.len() <= b {
        return 0;
    }
    let w = rows[b];
    if !cmp_rows(s, false, y, w).is_eq() {
        return 0;
    }
    w % 4294967296
}

// Rows for the records that a verdict changes, for those at the places gone, which are released, and for those below the floor.
pub fn plan_judged(
    s: &[u8],
    a: Area,
    t: &[u8],
    vs: &[u64],
    gone: &[usize],
    ranks: &[u64],
    ordered: bool,
    floor: Finish,
    rows: &mut [u64],
) -> Plan
    requires { AreaIn s.now a × ((length vs.now ≡ a.open.head.count) × All (InEntry t.now) vs.now) × (All (λ p. p + 33 ≤ length s.now) gone.now × (length gone.now ≤ 2048) × (ordered ≡ true → Ranked s.now gone.now ranks.now)) × (a.open.head.counter.0 + length gone.now < 18446744073709551616) × (length rows.old ≡ 3072) }
    ensures { Planned s.now a t.now vs.now (take result.rows rows.new) (kept_in s.now a t.now vs.now gone.now floor.0) result.kept × (result.rows ≤ 3072) }
{
    let p = a.open;
    let h = p.head;
    let mut i = p.start;
    let mut j: usize = 0;
    let mut k: usize = 0;
    let mut kept: u64 = 0;
    for _left in (0..h.count).rev() {
        let x = record_at(s, i);
        let f = x.facts;
        let id = x.id;
        let rank = rank_of(s, gone, ranks, ordered, i, id);
        let verdict = Verdict::of_number(vs[j] % 4);
        let what = fate_of(verdict, Verdict::Forgotten, rank, h.counter, floor, f);
        k = push_row(
            rows,
            k,
            Row {
                place: i,
                index: j,
                rank: rank,
                what: what,
            },
        );
        kept += u64::from(is_kept(what));
        i = i + x.size;
        j += 1;
    }
    Plan {
        rows: k,
        kept: kept,
    }
}
