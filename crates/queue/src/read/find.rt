// Where the record of an id stands among the records of an area, or would stand.
ghost use Rattle.std.specs.Prelude.{◌≡◌, true, false, MatchOption};
ghost use Rattle.std.proofs.Math.Option.{none};
ghost use Rattle.queue.specs.layout.FrameCodec.{rec_c};
ghost use Rattle.queue.specs.layout.FormsCodec.{form_c};
ghost use Rattle.queue.specs.layout.RecordsAs.{RecordsIn, recs_at};
ghost use Rattle.queue.specs.read.ReadingAs.{StandsAt};
ghost use Rattle.queue.specs.paper.Lists.{find};
ghost use Rattle.queue.specs.paper.Changing.{named?};
ghost use Rattle.queue.specs.read.FindAs.{SpotAs, spot_numbers};

use crate::bytes::view::compare_ids;
use crate::layout::forms::after_in;
use crate::layout::frame::record_at;
use crate::layout::records::Records;
use std::cmp::Ordering;

/// The place of the record with this id among the records of an area.
pub fn find_id(s: &[u8], recs: Records, id: [u8; 32]) -> Option<usize>
    requires { RecordsIn (form_c false rec_c) s.now recs }
    ensures { MatchOption result (find (named? id) (recs_at (form_c false rec_c) s.now recs) ≡ none) (StandsAt s.now id recs.start (recs_at (form_c false rec_c) s.now recs)) }
{
    let mut i = recs.start;
    for _left in (0..recs.count).rev() {
        let x = record_at(s, i);
        if compare_ids(id, x.id).is_eq() {
            return Some(i);
        }
        i = after_in(s, false, i, x.size);
    }
    None
}

// The spot of an id among records: where its record stands, and where the next one begins; or where it would stand.
#[derive(Clone, Copy)]
pub enum Spot {
    Occupied { at: usize, next: usize },
    Vacant { at: usize },
}

impl Spot {
    /// Does a record stand there?
    pub(crate) fn is_occupied(self) -> bool
        ensures { result ≡ (spot_numbers self).found }
    {
        match self {
            Spot::Occupied { .. } => true,
            Spot::Vacant { .. } => false,
        }
    }

    /// Where the record stands, or would stand.
    pub(crate) fn at(self) -> usize
        ensures { result ≡ (spot_numbers self).at }
    {
        match self {
            Spot::Occupied { at, .. } => at,
            Spot::Vacant { at } => at,
        }
    }

    /// Where the next record begins.
    pub(crate) fn next(self) -> usize
        ensures { result ≡ (spot_numbers self).next }
    {
        match self {
            Spot::Occupied { next, .. } => next,
            Spot::Vacant { at } => at,
        }
    }
}

// The spot of this id among the records of an area, whose ids rise.
pub fn find_spot(s: &[u8], recs: Records, id: [u8; 32]) -> Spot
    requires { RecordsIn (form_c false rec_c) s.now recs }
    ensures { SpotAs s.now id recs.start (recs_at (form_c false rec_c) s.now recs) (spot_numbers result) }
{
    let mut i = recs.start;
    for _left in (0..recs.count).rev() {
        let x = record_at(s, i);
        let next = after_in(s, false, i, x.size);
        match compare_ids(id, x.id) {
            Ordering::Less => return Spot::Vacant { at: i },
            Ordering::Equal => return Spot::Occupied { at: i, next },
            Ordering::Greater => i = next,
        }
    }
    Spot::Vacant { at: i }
}
