// The rules of one record, on what was read of it, and what a record counts for. The tests of a rule are joined by `&` and `|`: in the
// one pass over all records each branch costs.
ghost use Rattle.std.specs.Prelude.{◌≡◌, ◌<◌, is_some};
ghost use Rattle.queue.specs.paper.Sound.{pending?, held_right?, reason_right?, place_right?, mark_right?, finish_right?, sizes_right?};
ghost use Rattle.queue.specs.check.RulesAs.{right_f, due_f, time_due, height_due, weight};

use crate::layout::frame::{Facts, Finish, Height, Time};
use crate::layout::reason::Reason;
use crate::layout::state::State;

/// What to count.
#[derive(Clone, Copy)]
pub enum Query {
    Holders,
    HeldBytes,
    MinedHolders,
    MinedBytes,
    Tombstones,
    Due(Time, Height),
    PendingOf(u64),
}

/// Is it a pending state?
pub fn pending(state: u64) -> bool
    ensures { result ≡ pending? state }
{
    (state == State::Queued as u64) | (state == State::Conflicted as u64)
}

fn held_right(state: u64, holder: bool) -> bool
    ensures { result ≡ held_right? state holder }
{
    let waits = pending(state) & holder;
    let ended = (state == State::Cancelled as u64) | (state == State::Expired as u64);
    waits | ((ended & !holder) | (state == State::Mined as u64))
}

fn reason_right(state: u64, n: u64) -> bool
    ensures { result ≡ reason_right? state n }
{
    let rolled_back = (n == Reason::None as u64) | (n == Reason::RolledBack as u64);
    let elapsed = (n == Reason::DeadlineElapsed as u64)
        | (n == Reason::RolledBackAfterRelease as u64);
    let queued = (state == State::Queued as u64) & rolled_back;
    let conflicted = (state == State::Conflicted as u64) & (n == Reason::InputsUnavailable as u64);
    let mined = (state == State::Mined as u64) & (n == Reason::None as u64);
    let cancelled = (state == State::Cancelled as u64) & (n == Reason::Cancelled as u64);
    let expired = (state == State::Expired as u64) & elapsed;
    queued | (conflicted | (mined | (cancelled | expired)))
}

fn place_right(state: u64, placed: bool) -> bool
    ensures { result ≡ place_right? state placed }
{
    if placed {
        state == State::Mined as u64
    } else {
        state != State::Mined as u64
    }
}

fn mark_right(state: u64, holder: bool, mark: u64) -> bool
    ensures { result ≡ mark_right? state holder mark }
{
    let withdrawn = (mark == 3) | ((mark == 4) | (mark == 5));
    (mark == 0) | (withdrawn & ((state == State::Mined as u64) & !holder))
}

fn finish_right(counter: Finish, holder: bool, n: Finish) -> bool
    ensures { result ≡ finish_right? counter.0 holder n.0 }
{
    if holder {
        n.0 == 0
    } else {
        (1 <= n.0) & (n.0 <= counter.0)
    }
}

fn sizes_right(k: u64, f: Facts) -> bool
    ensures { result ≡ sizes_right? k f.label f.ins f.outs f.reads f.holder f.size f.bytes }
{
    let few = (f.ins <= k) & ((f.outs <= k) & (f.reads <= k));
    ((f.label <= 200) & few) & (!f.holder | (f.size == f.bytes))
}

/// Is a record right by itself, under K and the counter?
pub fn right(k: u64, counter: Finish, f: Facts) -> bool
    ensures { result ≡ right_f k counter.0 f }
{
    let a = held_right(f.state, f.holder) & reason_right(f.state, f.reason);
    let b = place_right(f.state, f.mined.is_some()) & mark_right(f.state, f.holder, f.mark);
    let c = (f.caller <= 15) & finish_right(counter, f.holder, f.finish);
    let d = sizes_right(k, f);
    (a & b) & (c & d)
}

/// Is there a deadline, and is it reached? Deadlines are compared only with their own kind.
pub fn time_reached(due: Option<Time>, now: Time) -> bool
    ensures { result ≡ time_due due now.0 }
{
    match due {
        Some(due) => due.0 <= now.0,
        None => false,
    }
}

/// The same of a height.
pub fn height_reached(due: Option<Height>, height: Height) -> bool
    ensures { result ≡ height_due due height.0 }
{
    match due {
        Some(due) => due.0 <= height.0,
        None => false,
    }
}

/// Is a pending record's deadline reached?
pub fn is_due(now: Time, height: Height, f: Facts) -> bool
    ensures { result ≡ due_f now.0 height.0 f }
{
    pending(f.state) & (time_reached(f.due, now) | height_reached(f.due_height, height))
}

/// What a record counts for.
pub fn weigh(q: Query, f: Facts) -> u64
    requires { f.bytes < 4294967296 }
    ensures { (result ≡ weight q f) × (result < 4294967296) }
{
    match q {
        Query::Holders => u64::from(f.holder),
        Query::HeldBytes => f.bytes,
        Query::MinedHolders => u64::from((f.state == State::Mined as u64) & f.holder),
        Query::MinedBytes => {
            if f.state == State::Mined as u64 {
                f.bytes
            } else {
                0
            }
        }
        Query::Tombstones => u64::from(!f.holder),
        Query::Due(t, h) => u64::from(is_due(t, h, f)),
        Query::PendingOf(c) => u64::from(pending(f.state) & (f.caller == c)),
    }
}
