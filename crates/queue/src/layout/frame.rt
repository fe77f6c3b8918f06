// The frames of a header and of a record, read from a view. Every reader is total: of what is short or bad it gives none.
ghost use Rattle.std.specs.Prelude.{◌≡◌, ◌+◌, ◌^◌, ◌<◌, ◌≤◌, true, false, length, slice_index, IfSome};
ghost use Rattle.queue.specs.layout.FrameCodec.{id_c, four_c, shares_c, limits_k, label_c, widen, priority_c, terms_k, place_c, reads_c, body_k, mark_c, rest_k, caller_c, rec_k, rec_c};
ghost use Rattle.queue.specs.bytes.ReaderAs.{Found, Reads, reads?};
ghost use Rattle.queue.specs.Codec.{be_c, opt_c};
ghost use Rattle.queue.specs.layout.FrameAs.{times, heights, mined_at, ListAs, TermsAs, BodyAs, RestAs, SeenAs, SeenUnder, SeenAt, FourAs, SharesAs, LimitsAs, HeadAt};
ghost use Rattle.queue.specs.paper.Sound.{label_len};
ghost use Rattle.queue.specs.paper.Lists.{is_some};
ghost use Rattle.queue.specs.paper.Kinds.{newest, has_reads, kind?};
ghost use Rattle.queue.specs.bytes.ViewAs.{view as frame_at};

use crate::bytes::put::{copy_view, put_be};
use crate::bytes::view::{Items, Read, View};
use crate::layout::limits::Limits;

/// Milliseconds.
#[derive(Clone, Copy)]
pub struct Time(pub u64);

/// A block's height.
#[derive(Clone, Copy)]
pub struct Height(pub u64);

/// A finish number.
#[derive(Clone, Copy)]
pub struct Finish(pub u64);

/// How the frames of a queue stand: as bytes or as lines of text, and under which header kind.
#[derive(Clone, Copy)]
pub struct Form {
    pub hex: bool,
    pub kind: u8,
}

/// The header kind that is written.
pub const NEWEST: u8 = 6;

// The header kind that brought the withdrawn mark 3.
const MARK_3: u8 = 3;

/// The header kind that brought the caller and the shares.
pub const CALLERS: u8 = 4;

/// The header kind that brought the read ids.
pub const READS: u8 = 5;

/// The header kind that brought priorities of 64 bits.
pub const WIDE: u8 = 6;

/// The frames of an area.
pub const AREA: Form = Form {
    hex: false,
    kind: NEWEST,
};

/// The terms of a record, without its fee and its cost.
#[derive(Clone, Copy)]
pub struct Terms {
    pub created: Time,
    pub due: Option<Time>,
    pub due_height: Option<Height>,
    pub priority: u64,
    pub label: u64,
    pub size: u64,
}

/// What a holder has; where there is none, its lists are empty.
// Kept: the lists of a record without a holder are empty and not absent, so that what counts or copies them asks nothing first.
#[derive(Clone, Copy)]
pub struct Body {
    pub holder: bool,
    pub inputs: Items,
    pub outputs: Items,
    pub reads: Items,
    pub signed: Items,
}

/// What stands behind the terms, with where the mark and the holder flag stand.
#[derive(Clone, Copy)]
pub struct Rest {
    pub mined: Option<Height>,
    pub mark: u64,
    pub finish: Finish,
    pub held: Body,
    pub marks: usize,
    pub body: usize,
}

// Kept: numbers for state, reason and mark, since any byte may stand there in an area that is not sound; `holder`, since the counts of a record
// without a holder are 0 and not absent, so that sums ask nothing first.
/// What the rules look at in a record.
// Kept as numbers: state, reason and mark, since any byte may stand there in an area that is not sound.
#[derive(Clone, Copy)]
pub struct Facts {
    pub caller: u64,
    pub state: u64,
    pub reason: u64,
    pub created: Time,
    pub due: Option<Time>,
    pub due_height: Option<Height>,
    pub priority: u64,
    pub label: u64,
    pub size: u64,
    pub mined: Option<Height>,
    pub mark: u64,
    pub finish: Finish,
    pub holder: bool,
    pub ins: u64,
    pub outs: u64,
    pub reads: u64,
    pub bytes: u64,
}

/// Where the terms of a record of an area start: behind its kind, id, caller, state and reason.
pub const TERMS: usize = 36;

/// A record read. Its terms end at after, its place at after..mark, its withdrawn mark at mark, its holder flag at
/// body, its inputs at at, its outputs at outs, its read ids at reads, its signed bytes at content; the frame ends at size.
#[derive(Clone, Copy)]
pub struct Seen {
    pub id: [u8; 32],
    pub facts: Facts,
    pub after: usize,
    pub mark: usize,
    pub body: usize,
    pub at: usize,
    pub outs: usize,
    pub reads: usize,
    pub content: usize,
    pub size: usize,
}

/// P, B, T and K.
#[derive(Clone, Copy)]
pub struct Numbers {
    pub p: u64,
    pub b: u64,
    pub t: u64,
    pub k: u64,
}

// Kept: the tip is passed over; where it stands is said by the two places, and is read where it is wanted (`write::tip_at`).
/// A header read. Its cursor height and tip stand at marks..after, its counter at after; the frame ends at size.
#[derive(Clone, Copy)]
pub struct Head {
    pub limits: Limits,
    pub revision: u64,
    pub cursor: Height,
    pub tip: bool,
    pub counter: Finish,
    pub count: u64,
    pub marks: usize,
    pub after: usize,
    pub size: usize,
}

// The label's length, 0 if there is none.
#[inline(always)]
pub fn label_at(v: &View, at: usize) -> Option<Read<u64>>
    ensures read { Reads label_c v.now at result (λ x o. label_len o ≡ x.value) }
    ensures small { IfSome result (λ x. x.value < 256) }
{
    let flag = v.flag(at)?;
    if !flag.value {
        return Some(Read {
            value: 0,
            next: flag.next,
        });
    }
    let label = v.counted(flag.next, 1, 1)?;
    Some(Read {
        value: label.value.len,
        next: label.next,
    })
}

// A number of 32 bits as one of 64, both two's complement.
#[inline(always)]
fn widened(v: u64) -> u64
    requires { v < 4294967296 }
    ensures { result ≡ widen v }
{
    if v < 2147483648 {
        v
    } else {
        v + 18446744069414584320
    }
}

// A priority as the kind has it: 8 bytes, or 4 with their sign.
#[inline(always)]
fn priority_at(v: &View, kind: u8, at: usize) -> Option<Read<u64>>
    ensures { Reads (priority_c kind) v.now at result (λ x a. a ≡ x.value) }
{
    if WIDE <= kind {
        return v.number(at, 8);
    }
    let low = v.number(at, 4)?;
    Some(Read {
        value: widened(low.value),
        next: low.next,
    })
}

// A deadline, if there is one.
#[inline(always)]
fn time_at(v: &View, at: usize) -> Option<Read<Option<Time>>>
    ensures { Reads (opt_c (be_c 8)) v.now at result (λ x o. times o ≡ x.value) }
{
    let time = v.optional(at, 8)?;
    Some(Read {
        value: time.value.map(Time),
        next: time.next,
    })
}

#[inline(always)]
fn height_at(v: &View, at: usize) -> Option<Read<Option<Height>>>
    ensures { Reads (opt_c (be_c 4)) v.now at result (λ x o. heights o ≡ x.value) }
{
    let height = v.optional(at, 4)?;
    Some(Read {
        value: height.value.map(Height),
        next: height.next,
    })
}

#[inline(always)]
fn terms_at(v: &View, kind: u8, at: usize) -> Option<Read<Terms>>
    ensures { Reads (terms_k kind) v.now at result (λ x t. TermsAs x.value t) }
{
    let created = v.number(at, 8)?;
    let due = time_at(v, created.next)?;
    let due_height = height_at(v, due.next)?;
    let priority = priority_at(v, kind, due_height.next)?;
    let label = label_at(v, priority.next)?;
    let fee = v.skip(label.next, 8)?;
    let size = v.number(fee, 4)?;
    let next = v.skip(size.next, 8)?;
    Some(Read {
        value: Terms {
            created: Time(created.value),
            due: due.value,
            due_height: due_height.value,
            priority: priority.value,
            label: label.value,
            size: size.value,
        },
        next,
    })
}

// The mined place: the height; the block's id is passed over.
#[inline(always)]
pub fn place_at(v: &View, at: usize) -> Option<Read<Option<Height>>>
    ensures read { Reads place_c v.now at result (λ x o. mined_at o ≡ x.value) }
    ensures small { IfSome result (λ x. IfSome x.value (λ h. h.0 < 4294967296)) }
{
    let flag = v.flag(at)?;
    if !flag.value {
        return Some(Read {
            value: None,
            next: flag.next,
        });
    }
    let height = v.number(flag.next, 4)?;
    let next = v.skip(height.next, 32)?;
    Some(Read {
        value: Some(Height(height.value)),
        next,
    })
}

// The read ids where the kind has them; else none.
#[inline(always)]
fn reads_at(v: &View, kind: u8, at: usize) -> Option<Read<Items>>
    requires { at ≤ length v.now }
    ensures read { Reads (reads_c kind) v.now at result (λ x l. ListAs v.now x.value l) }
    ensures absent { IfSome result (λ x. has_reads kind ≡ false → (x.value.start ≡ at) × (x.next ≡ at)) }
{
    if kind < READS {
        return Some(Read {
            value: Items { len: 0, start: at },
            next: at,
        });
    }
    v.counted(at, 2, 32)
}

#[inline(always)]
fn body_at(v: &View, kind: u8, at: usize) -> Option<Read<Body>>
    ensures { Reads (body_k kind) v.now at result (λ x o. BodyAs kind v.now x.value x.next o) }
{
    let flag = v.flag(at)?;
    if !flag.value {
        let none = Items {
            len: 0,
            start: flag.next,
        };
        return Some(Read {
            value: Body {
                holder: false,
                inputs: none,
                outputs: none,
                reads: none,
                signed: none,
            },
            next: flag.next,
        });
    }
    let inputs = v.counted(flag.next, 2, 32)?;
    let outputs = v.counted(inputs.next, 2, 32)?;
    let reads = reads_at(v, kind, outputs.next)?;
    let signed = v.counted(reads.next, 4, 1)?;
    Some(Read {
        value: Body {
            holder: true,
            inputs: inputs.value,
            outputs: outputs.value,
            reads: reads.value,
            signed: signed.value,
        },
        next: signed.next,
    })
}

// The withdrawn mark, if the kind has it.
#[inline(always)]
fn mark_at(v: &View, kind: u8, at: usize) -> Option<Read<u64>>
    ensures { Reads (mark_c kind) v.now at result (λ x a. a ≡ x.value) }
{
    let mark = v.number(at, 1)?;
    if kind < MARK_3 && mark.value == 3 {
        None
    } else {
        Some(mark)
    }
}

#[inline(always)]
fn rest_at(v: &View, kind: u8, at: usize) -> Option<Read<Rest>>
    ensures { Reads (rest_k kind) v.now at result (λ x t. RestAs kind v.now at x.value x.next t) }
{
    let place = place_at(v, at)?;
    let mark = mark_at(v, kind, place.next)?;
    let finish = v.number(mark.next, 8)?;
    let body = body_at(v, kind, finish.next)?;
    Some(Read {
        value: Rest {
            mined: place.value,
            mark: mark.value,
            finish: Finish(finish.value),
            held: body.value,
            marks: place.next,
            body: finish.next,
        },
        next: body.next,
    })
}

// The caller where the kind has it; else 0.
#[inline(always)]
fn caller_at(v: &View, kind: u8, at: usize) -> Option<Read<u64>>
    requires { at ≤ length v.now }
    ensures { Reads (caller_c kind) v.now at result (λ x a. a ≡ x.value) }
{
    if kind < CALLERS {
        return Some(Read { value: 0, next: at });
    }
    v.number(at, 1)
}

// The record at the start of a view. Its code stands once for areas and once for the rest, so that the compiler makes it part of
// `read_record`, where form and kind are known.
fn record_of<const AREA: bool>(v: &View, kind: u8) -> Option<Seen>
    ensures { SeenAt kind v.now result }
{
    let start = v.tag(0, 2)?;
    let id = v.read_id(start)?;
    let caller = caller_at(v, kind, id.next)?;
    let state = v.number(caller.next, 1)?;
    let reason = v.number(state.next, 1)?;
    let terms = terms_at(v, kind, reason.next)?;
    let rest = rest_at(v, kind, terms.next)?;
    let t = terms.value;
    let r = rest.value;
    let held = r.held;
    let id = id.value;
    Some(Seen {
        id,
        facts: Facts {
            caller: caller.value,
            state: state.value,
            reason: reason.value,
            created: t.created,
            due: t.due,
            due_height: t.due_height,
            priority: t.priority,
            label: t.label,
            size: t.size,
            mined: r.mined,
            mark: r.mark,
            finish: r.finish,
            holder: held.holder,
            ins: held.inputs.len,
            outs: held.outputs.len,
            reads: held.reads.len,
            bytes: held.signed.len,
        },
        after: terms.next,
        mark: r.marks,
        body: r.body,
        at: held.inputs.start,
        outs: held.outputs.start,
        reads: held.reads.start,
        content: held.signed.start,
        size: rest.next,
    })
}

/// The record of an area at base, if one stands there.
pub fn read_record(s: &[u8], base: usize) -> Option<Seen>
    ensures { SeenAt newest (frame_at false s.now base) result }
{
    record_of::<true>(&View::new(s, false, base), NEWEST)
}

/// The record in any form at base, if one stands there.
pub fn read_record_in(s: &[u8], form: Form, base: usize) -> Option<Seen>
    ensures { SeenAt form.kind (frame_at form.hex s.now base) result }
{
    if !form.hex && form.kind == NEWEST {
        return read_record(s, base);
    }
    record_of::<false>(&View::new(s, form.hex, base), form.kind)
}

/// The record of an area that is known to stand at base.
#[inline(always)]
pub fn record_at(s: &[u8], base: usize) -> Seen
    requires { reads? rec_c (frame_at false s.now base) 0 ≡ true }
    ensures { Found rec_c (frame_at false s.now base) 0 result.size (SeenAs (frame_at false s.now base) result) }
{
    read_record(s, base).unwrap()
}

/// The record in any form that is known to stand at base.
#[inline(always)]
pub fn record_in(s: &[u8], form: Form, base: usize) -> Seen
    requires { reads? (rec_k form.kind) (frame_at form.hex s.now base) 0 ≡ true }
    ensures { Found (rec_k form.kind) (frame_at form.hex s.now base) 0 result.size (SeenUnder form.kind (frame_at form.hex s.now base) result) }
{
    read_record_in(s, form, base).unwrap()
}

fn numbers_at(v: &View, at: usize) -> Option<Read<Numbers>>
    ensures { Reads four_c v.now at result (λ x m. FourAs x.value m) }
{
    let p = v.number(at, 4)?;
    let b = v.number(p.next, 4)?;
    let t = v.number(b.next, 4)?;
    let k = v.number(t.next, 4)?;
    Some(Read {
        value: Numbers {
            p: p.value,
            b: b.value,
            t: t.value,
            k: k.value,
        },
        next: k.next,
    })
}

// The sixteen shares where the kind has them; else P and fifteen zeros.
fn shares_at(v: &View, kind: u8, at: usize, p: u64) -> Option<Read<[u8; 64]>>
    requires inside { at ≤ length v.now }
    requires small { p < 4294967296 }
    ensures { Reads (shares_c kind p) v.now at result (λ x l. SharesAs x.value l) }
{
    let mut shares = [0; 64];
    if kind < CALLERS {
        put_be(&mut shares, 0, 4, p);
        return Some(Read {
            value: shares,
            next: at,
        });
    }
    let next = v.skip(at, 64)?;
    copy_view(v, at, 64, &mut shares, 0);
    Some(Read {
        value: shares,
        next,
    })
}

// The limits with the shares.
fn limits_at(v: &View, kind: u8, at: usize) -> Option<Read<Limits>>
    ensures { Reads (limits_k kind) v.now at result (λ x m. LimitsAs x.value m) }
{
    let numbers = numbers_at(v, at)?;
    let n = numbers.value;
    let read = shares_at(v, kind, numbers.next, n.p)?;
    let shares = read.value;
    Some(Read {
        value: Limits {
            p: n.p,
            b: n.b,
            t: n.t,
            k: n.k,
            shares,
        },
        next: read.next,
    })
}

// Is there a tip? Its id is passed over.
fn tip_at(v: &View, at: usize) -> Option<Read<bool>>
    ensures { Reads (opt_c id_c) v.now at result (λ x o. is_some o ≡ x.value) }
{
    let flag = v.flag(at)?;
    if !flag.value {
        return Some(flag);
    }
    let next = v.skip(flag.next, 32)?;
    Some(Read { value: true, next })
}

/// The first byte of a frame, which tells the header kind; 0 if there is none.
pub fn kind_of(v: &View) -> u8
    ensures { result ≡ slice_index v.now 0 }
{
    if v.len() == 0 { 0 } else { v.byte(0) }
}

/// Is it a header kind?
pub fn is_known(kind: u8) -> bool
    ensures { result ≡ kind? kind }
{
    matches!(kind, 1 | 3 | 4 | 5 | 6)
}

/// The header at the start of a view.
pub fn head_of(v: &View, kind: u8) -> Option<Head>
    ensures { HeadAt kind v.now result }
{
    let start = v.tag(0, kind)?;
    let limits = limits_at(v, kind, start)?;
    let revision = v.number(limits.next, 8)?;
    let cursor = v.number(revision.next, 4)?;
    let tip = tip_at(v, cursor.next)?;
    let counter = v.number(tip.next, 8)?;
    let count = v.number(counter.next, 4)?;
    Some(Head {
        limits: limits.value,
        revision: revision.value,
        cursor: Height(cursor.value),
        tip: tip.value,
        counter: Finish(counter.value),
        count: count.value,
        marks: revision.next,
        after: tip.next,
        size: count.next,
    })
}
