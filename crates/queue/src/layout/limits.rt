// The limits of a queue: how many pending records, bytes, tombstones, and inputs or outputs in a transaction; and the sixteen
// callers' shares of the pending records.
ghost use Rattle.std.specs.Prelude.{◌≡◌, ◌≤◌, true, length, nat_le, slice_index};
ghost use Rattle.queue.specs.Refusal.{answer_of};
ghost use Rattle.queue.specs.paper.Lists.{all?};
ghost use Rattle.queue.specs.paper.Sound.{in_range, limits_right?, need};
ghost use Rattle.queue.specs.layout.FrameAs.{limits_in};
ghost use Rattle.queue.specs.layout.LimitsAs.{LentShares, need_most};
ghost use Rattle.queue.specs.Checked.{written};
ghost use Rattle.queue.specs.paper.Calls.{numbers, fresh_of};

use crate::Kind;
use crate::bytes::put::{copy_part, fill_zero};
use crate::bytes::view::View;
use crate::layout::frame::{Finish, Height};
use crate::layout::head::{Marks, put_front};
use crate::refusal::Refusal;

/// The shares as they stand in a header: sixteen numbers of 4 bytes.
#[derive(Clone, Copy)]
pub struct Limits {
    pub p: u64,
    pub b: u64,
    pub t: u64,
    pub k: u64,
    pub shares: [u8; 64],
}

// Shares that are lent; zeros where they are not whole.
fn lent_shares(shares: &[u8]) -> [u8; 64]
    ensures { LentShares shares.now result }
{
    let mut lent = [0; 64];
    if View::new(shares, false, 0).len() == 64 {
        copy_part(shares, 0, 64, &mut lent, 0);
        return lent;
    }
    lent
}

impl Limits {
    /// The most pending records.
    pub const MAX_PENDING: u64 = 1024;

    /// The most bytes of pending records.
    pub const MAX_BYTES: u64 = 16777216;

    /// The most tombstones.
    pub const MAX_TOMBSTONES: u64 = 1024;

    /// The most inputs, outputs or read ids of a transaction.
    pub const MAX_INPUTS: u64 = 128;

    /// Are P, B, T and K in range?
    #[tactic(auto, unfolding(crate::specs::paper::Sound::in_range))]
    pub fn check(l: Limits) -> bool
        ensures { result ≡ in_range (limits_in l) }
    {
        1 <= l.p
            && l.p <= Limits::MAX_PENDING
            && 1 <= l.b
            && l.b <= Limits::MAX_BYTES
            && 1 <= l.t
            && l.t <= Limits::MAX_TOMBSTONES
            && 1 <= l.k
            && l.k <= Limits::MAX_INPUTS
    }

    /// Is no share over p?
    pub fn shares_fit(shares: [u8; 64], p: u64) -> bool
        ensures { result ≡ all? (λ n. nat_le n p) (numbers shares) }
    {
        let v = View::new(&shares, false, 0);
        for i in 0..16 {
            if p < v.be(4 * i, 4) {
                return false;
            }
        }
        true
    }

    /// Are all of them in range, the shares too?
    pub fn right(l: Limits) -> bool
        requires { length l.shares ≡ 64 }
        ensures { result ≡ limits_right? (limits_in l) }
    {
        let shares = l.shares;
        Limits::check(l) && Limits::shares_fit(shares, l.p)
    }

    /// A caller's share.
    pub fn share(shares: [u8; 64], caller: u64) -> u64
        requires { caller ≤ 15 }
        ensures { result ≡ slice_index (numbers shares) caller }
    {
        View::new(&shares, false, 0).be(4 * caller as usize, 4)
    }

    /// How many bytes an area needs.
    pub fn need(l: Limits) -> usize
        requires { in_range (limits_in l) ≡ true }
        ensures { (result ≡ need (limits_in l)) × (result ≤ need_most) }
    {
        (2 * l.b + 2 * l.p * (512 + 96 * l.k) + 512 * l.t + 512) as usize
    }

    /// A fresh queue under these limits. Refusals 1, 2, 5.
    pub fn fresh(
        p: u64,
        b: u64,
        t: u64,
        k: u64,
        shares: &[u8],
        area: &mut [u8],
    ) -> Result<Kind, Refusal>
        ensures { written (answer_of result) area.new ≡ fresh_of p b t k shares.now area.old }
    {
        let lent = lent_shares(shares);
        let l = Limits {
            p,
            b,
            t,
            k,
            shares: lent,
        };
        let right = Limits::check(l) & Limits::shares_fit(lent, p);
        if !right {
            return Err(Refusal::LimitOutOfRange);
        }
        let n = Limits::need(l);
        if area.len() < n {
            return Err(Refusal::AreaTooShort);
        }
        if shares.len() != 64 {
            return Err(Refusal::Malformed);
        }
        let m = Marks {
            persisted: Height(0),
            revision: 0,
            cursor: Height(0),
            tip: None,
            counter: Finish(0),
            count: 0,
        };
        let e = put_front(l, m, area);
        fill_zero(area, e, n);
        Ok(Kind::Nothing)
    }
}
