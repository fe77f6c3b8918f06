// What is promised over every list of calls, failed writes and cuts, and of every answer. Each promise is the contract of a
// function that does nothing: it holds because this crate is proved. docs/PROOFS.md says each in words.
ghost use Rattle.image.specs.paper.Back.{ComesBack, OpensThere};
ghost use Rattle.pokerbox.specs.paper.Claim.{BestSets, Claim, FromImage, OnePasses, OrderedLists, Templates};
ghost use Rattle.pokerbox.specs.paper.Refusals.{Demand1};
ghost use Rattle.pokerbox.specs.paper.Withdrawn.{WithdrawnStays, WithdrawnUnselected};
ghost use Rattle.queue.specs.paper.Changing.{WithinShare};

/// Every call answers, for all lent bytes and numbers: the first of its refusals that applies, or its result. A refusal other than
/// 17 changes nothing that was lent.
pub fn every_call_answers()
    ensures { Demand1 }
{}

/// From a fresh queue on: answers, queue and stored file are those of the plain machine, whatever writes fail and wherever
/// power is cut; opening gives exactly its records; the bounds hold.
pub fn survives()
    ensures { Claim }
{}

/// The same from any stored image, also of an older kind.
pub fn survives_from_an_image()
    ensures { FromImage }
{}

/// No list handed to a template has an id or an input twice, nor spends what another of its records reads.
pub fn no_input_twice()
    ensures { Templates }
{}

/// Nor has the list with parents first, in which no child stands before its parent.
pub fn parents_come_first()
    ensures { OrderedLists }
{}

/// Nor has a set of best fees.
pub fn no_input_twice_in_a_block()
    ensures { BestSets }
{}

/// A withdrawal that was kept stays: the id is in no selection until a later admission of it was kept.
pub fn withdrawn_stays()
    ensures stays { WithdrawnStays }
    ensures unselected { WithdrawnUnselected }
{}

/// A reconciliation decides each Mined holder exactly once.
pub fn decided_once()
    ensures { OnePasses }
{}

/// What the converter accepts opens in the base's library as the same queue, and comes back as it was.
pub fn converts_back()
    ensures there { OpensThere }
    ensures back { ComesBack }
{}

/// An admission that enters leaves its wallet within its share and all pending records within P.
pub fn within_share()
    ensures { WithinShare }
{}
