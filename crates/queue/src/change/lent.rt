// Lent ids that rise, and what is lent to a reconciliation: entries and ids that are whole and rise.
ghost use Rattle.queue.specs.paper.Ids.{rise?};
ghost use Rattle.std.specs.Prelude.{◌≡◌, ◌*◌, length};
ghost use Rattle.queue.specs.change.TouchAs.{entry_ids};
ghost use Rattle.queue.specs.change.LentAs.{EntriesAre, IdsAre, ReconcileAsked};
ghost use Rattle.queue.specs.change.ReopenAs.{IdsIn, ids_at, IdsRise};
ghost use Rattle.queue.specs.paper.Sound.{among?};

use crate::bytes::view::{View, compare_ids};

// Do the ids of k entries rise strictly?
pub fn entries_rise(t: &[u8], k: u64) -> bool
    requires { length t.now ≡ k * 68 }
    ensures { result ≡ rise? (entry_ids t.now k) }
{
    let v = View::new(t, false, 0);
    let mut i: usize = 0;
    for _left in (1..k).rev() {
        if !v.compare_at(i, &v, i + 68).is_lt() {
            return false;
        }
        i += 68;
    }
    true
}

// Are the entries whole, and do they rise?
fn entries_ask(t: &[u8]) -> bool
    ensures { EntriesAre t.now result }
{
    let n = View::new(t, false, 0).len();
    if n % 68 != 0 {
        return false;
    }
    entries_rise(t, (n / 68) as u64)
}

// Are the ids whole, and do they rise?
fn ids_ask(ids: &[u8]) -> bool
    ensures { IdsAre ids.now result }
{
    let n = View::new(ids, false, 0).len();
    if n % 32 != 0 {
        return false;
    }
    rise(ids, (n / 32) as u64)
}

// Check 5 of a reconciliation.
pub fn reconcile_asks(tip: &[u8], flag: u64, t: &[u8], ids: &[u8]) -> bool
    ensures { ReconcileAsked tip.now flag t.now ids.now result }
{
    let n = View::new(tip, false, 0).len();
    let a = (n == 32) & (flag <= 1);
    let b = entries_ask(t);
    let c = ids_ask(ids);
    a & (b & c)
}

// Do n lent ids rise strictly?
pub fn rise(ids: &[u8], n: u64) -> bool
    requires { IdsIn ids.now n }
    ensures { result ≡ rise? (ids_at ids.now n) }
{
    if n == 0 {
        return true;
    }
    let v = View::new(ids, false, 0);
    let mut prev = v.id(0);
    let mut i: usize = 32;
    for _left in (0..n - 1).rev() {
        let id = v.id(i);
        if !compare_ids(prev, id).is_lt() {
            return false;
        }
        prev = id;
        i += 32;
    }
    true
}

// Is the id one of k lent ids, which rise?
pub fn find_lent(ids: &[u8], k: u64, id: [u8; 32]) -> bool
    requires { IdsRise ids.now k }
    ensures { result ≡ among? id (ids_at ids.now k) }
{
    let (rows, _) = ids[..32 * k as usize].as_chunks::<32>();
    rows.binary_search(&id).is_ok()
}
