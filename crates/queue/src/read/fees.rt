// Best fees for a block: of the first candidates of the selection the set with the most fee that fits into a byte limit, as good as
// a budget of nodes allows. A set is a number: the candidate at place p counts 2^p in it.
ghost use Rattle.std.specs.Prelude.{◌≡◌, ◌+◌, ◌-◌, ◌*◌, ◌^◌, ◌<◌, ◌≤◌, true, false, length, take, nat_lt};
ghost use Rattle.queue.specs.Refusal.{answer_of};
ghost use Rattle.queue.specs.Codec.{All};
ghost use Rattle.queue.specs.Checked.{written};
ghost use Rattle.queue.specs.read.SelectAs.{id_at, RecStands};
ghost use Rattle.queue.specs.read.fees.Walk.{fitting};
ghost use Rattle.queue.specs.read.fees.Masks.{places, item, visit_m, pass_m, walk_m, Shape, unmask, said};
ghost use Rattle.queue.specs.read.FeesAs.{Known, Candidates, sizes_of, fees_of, rec_at_value, choice_bytes};
ghost use Rattle.queue.specs.paper.Lists.{total, map};
ghost use Rattle.queue.specs.paper.Calls.{told_out};
ghost use Rattle.queue.specs.paper.Fees.{best_fees_value, size_of, fee_of, search_of, best_fees_of};

use crate::Kind;
use crate::bytes::put::put_be;
use crate::bytes::view::View;
use crate::check::area::Area;
use crate::layout::frame::{Height, Time, record_at};
use crate::layout::records::Records;
use crate::read::select::{add_place, put_ids, select_places};
use crate::refusal::Refusal;

// The best set and its fee, the nodes counted, the largest bound: so far.
#[derive(Clone, Copy)]
pub struct SoFar {
    pub set: u64,
    pub fee: u64,
    pub nodes: u64,
    pub bound: u64,
}

// The best set and its fee, the nodes counted, the distance.
#[derive(Clone, Copy)]
pub struct Choice {
    pub set: u64,
    pub fee: u64,
    pub nodes: u64,
    pub distance: u64,
}

// How many signed bytes a candidate has, and its fee.
#[derive(Clone, Copy)]
pub struct Candidate {
    pub size: u64,
    pub fee: u64,
}

const NO_CANDIDATE: Candidate = Candidate { size: 0, fee: 0 };

// A visited node is counted, and kept if it is better.
fn visit(x: SoFar, set: u64, fee: u64) -> SoFar
    requires { x.nodes + 1 < 2 ^ 64 }
    ensures { result ≡ visit_m set fee x }
{
    let nodes = x.nodes + 1;
    let bound = x.bound;
    if x.fee < fee {
        return SoFar {
            set,
            fee,
            nodes,
            bound,
        };
    }
    let set = x.set;
    let fee = x.fee;
    SoFar {
        set,
        fee,
        nodes,
        bound,
    }
}

// An unvisited node has a bound.
fn pass_by(x: SoFar, b: u64) -> SoFar
    ensures { result ≡ pass_m b x }
{
    let set = x.set;
    let fee = x.fee;
    let nodes = x.nodes;
    let mut bound = x.bound;
    if bound < b {
        bound = b;
    }
    SoFar {
        set,
        fee,
        nodes,
        bound,
    }
}

// The fees of the last k candidates that fit singly.
fn fit(candidates: &[Candidate], k: usize, left: u64) -> u64
    requires { (k ≤ length candidates.now) × (total (item (fees_of candidates.now)) (places (length (sizes_of candidates.now)) k) < 2 ^ 64) }
    ensures { result ≡ fitting (item (sizes_of candidates.now)) (item (fees_of candidates.now)) left (places (length (sizes_of candidates.now)) k) }
{
    let n = candidates.len();
    let mut sum: u64 = 0;
    for i in n - k..n {
        let c = candidates[i];
        if c.size <= left {
            sum += c.fee;
        }
    }
    sum
}

// The node that has taken `set`, with `fee`, and has `left` bytes left; the last k candidates are undecided, and the next of
// them counts `bit` in a set. Its parent was visited.
fn walk(
    candidates: &[Candidate],
    k: usize,
    bit: u64,
    set: u64,
    fee: u64,
    left: u64,
    budget: u64,
    x: SoFar,
) -> SoFar
    requires { Shape (sizes_of candidates.now) (fees_of candidates.now) k bit set fee }
    ensures { result ≡ walk_m (item (sizes_of candidates.now)) (item (fees_of candidates.now)) budget (places (length (sizes_of candidates.now)) k) set fee left x }
{
    let nodes = x.nodes;
    if budget <= nodes {
        let more = fit(candidates, k, left);
        return pass_by(x, fee + more);
    }
    let v = visit(x, set, fee);
    if k == 0 {
        return v;
    }
    let c = candidates[candidates.len() - k];
    let m = k - 1;
    let next = bit + bit;
    if left < c.size {
        return walk(candidates, m, next, set, fee, left, budget, v);
    }
    let y = walk(
        candidates,
        m,
        next,
        set + bit,
        fee + c.fee,
        left - c.size,
        budget,
        v,
    );
    walk(candidates, m, next, set, fee, left, budget, y)
}

// The search from the root.
fn search(candidates: &[Candidate], limit: u64, budget: u64) -> Choice
    requires { (length candidates.now ≤ 20) × (total (item (fees_of candidates.now)) (places (length (sizes_of candidates.now)) (length (sizes_of candidates.now))) < 2 ^ 64) × (0 < budget) }
    ensures { result ≡ said (best_fees_value (item (sizes_of candidates.now)) (item (fees_of candidates.now)) (places (length (sizes_of candidates.now)) (length (sizes_of candidates.now))) limit budget) }
{
    let n = candidates.len();
    let none = SoFar {
        set: 0,
        fee: 0,
        nodes: 0,
        bound: 0,
    };
    let x = walk(candidates, n, 1, 0, 0, limit, budget, none);
    let set = x.set;
    let fee = x.fee;
    let nodes = x.nodes;
    let bound = x.bound;
    if bound <= fee {
        return Choice {
            set,
            fee,
            nodes,
            distance: 0,
        };
    }
    Choice {
        set,
        fee,
        nodes,
        distance: bound - fee,
    }
}

// Whether the fees sum to a number of 64 bits. The sum itself is never made: the room for it is counted down.
fn fees_fit(candidates: &[Candidate]) -> bool
    ensures { result ≡ nat_lt (total (item (fees_of candidates.now)) (places (length (fees_of candidates.now)) (length (fees_of candidates.now)))) (2 ^ 64) }
{
    let mut room: u64 = 18446744073709551615;
    for c in candidates {
        if room < c.fee {
            return false;
        }
        room -= c.fee;
    }
    true
}

// The candidate at p: the terms end with fee, size and cost.
fn candidate_at(s: &[u8], p: usize) -> Candidate
    requires { RecStands s.now p }
    ensures { (result.size ≡ size_of (rec_at_value s.now p)) × (result.fee ≡ fee_of (rec_at_value s.now p)) }
{
    let x = record_at(s, p);
    Candidate {
        size: x.facts.bytes,
        fee: View::new(s, false, p).be(x.after - 20, 8),
    }
}

// The candidates at these places, to the front of a table.
fn fill(s: &[u8], at: &[usize], candidates: &mut [Candidate])
    requires { (length at.now ≤ 20) × (length candidates.old ≡ 20) × All (Known s.now) at.now }
    ensures { Candidates s.now at.now (take (length at.now) candidates.new) × (length candidates.new ≡ 20) }
{
    for (j, p) in at.iter().enumerate() {
        candidates[j] = candidate_at(s, *p);
    }
}

// The places of a set, to the front of picked; returns how many.
fn pick(at: &[usize], set: u64, picked: &mut [usize]) -> usize
    requires { (length at.now ≤ 20) × (length picked.old ≡ 20) }
    ensures { (result ≤ 20) × (length picked.new ≡ 20) × (take result picked.new ≡ map (item at.now) (unmask (length at.now) 0 set)) }
{
    let mut g: usize = 0;
    let mut m = set;
    for p in at {
        g = add_place(picked, g, m % 2 == 1, *p);
        m = m / 2;
    }
    g
}

// The answer: fee, nodes, distance, and the ids of the records at these places. Refusal 4.
fn put_best(s: &[u8], picked: &[usize], b: Choice, out: &mut [u8]) -> Result<Kind, Refusal>
    requires { All (λ p. p + 33 ≤ length s.now) picked.now × (length picked.now ≤ 20) × (b.nodes < 4294967296) }
    ensures { written (answer_of result) out.new ≡ told_out (choice_bytes b (map (id_at s.now) picked.now)) out.old }
{
    let n = picked.len();
    if out.len() < 24 + 32 * n {
        return Err(Refusal::OutputTooShort);
    }
    let c = put_be(out, 0, 8, b.fee);
    let d = put_be(out, c, 4, b.nodes);
    let e = put_be(out, d, 8, b.distance);
    let f = put_be(out, e, 4, n as u64);
    put_ids(s, picked, out, f);
    Ok(Kind::Nothing)
}

// The candidates at these places, known. Refusals 21, 4.
fn best_known(
    s: &[u8],
    at: &[usize],
    candidates: &[Candidate],
    limit: u64,
    budget: u64,
    out: &mut [u8],
) -> Result<Kind, Refusal>
    requires { (length at.now ≤ 20) × All (Known s.now) at.now × Candidates s.now at.now candidates.now × (0 < budget) × (budget ≤ 2097151) }
    ensures { written (answer_of result) out.new ≡ search_of (map (rec_at_value s.now) at.now) limit budget out.old }
{
    if !fees_fit(candidates) {
        return Err(Refusal::FeesTooLarge);
    }
    let b = search(candidates, limit, budget);
    let mut picked = [0usize; 20];
    let n = pick(at, b.set, &mut picked);
    put_best(s, &picked[..n], b, out)
}

// The candidates at these places.
fn best_at(s: &[u8], at: &[usize], limit: u64, budget: u64, out: &mut [u8]) -> Result<Kind, Refusal>
    requires { (length at.now ≤ 20) × All (Known s.now) at.now × (0 < budget) × (budget ≤ 2097151) }
    ensures { written (answer_of result) out.new ≡ search_of (map (rec_at_value s.now) at.now) limit budget out.old }
{
    let n = at.len();
    let mut candidates = [NO_CANDIDATE; 20];
    fill(s, at, &mut candidates);
    best_known(s, at, &candidates[..n], limit, budget, out)
}

fn first_20(n: usize) -> usize
    ensures { (result ≤ 20) × (result ≤ n) × (20 ≤ n → result ≡ 20) × (n ≤ 20 → result ≡ n) }
{
    if 20 < n { 20 } else { n }
}

// Best fees for a block at a time and a height. Refusals 3, 5, 21, 4.
pub fn best_fees(
    area: &[u8],
    limit: u64,
    budget: u64,
    time: Time,
    height: Height,
    out: &mut [u8],
) -> Result<Kind, Refusal>
    ensures { written (answer_of result) out.new ≡ best_fees_of area.now limit budget time.0 height.0 out.old }
{
    let a = Area::read(area)?;
    if budget < 1 {
        return Err(Refusal::Malformed);
    }
    if 2097151 < budget {
        return Err(Refusal::Malformed);
    }
    let recs = Records {
        start: a.open.start,
        count: a.open.head.count,
    };
    let mut places = [0usize; 2048];
    let n = select_places(area, recs, time, height, &mut places);
    best_at(area, &places[..first_20(n)], limit, budget, out)
}
