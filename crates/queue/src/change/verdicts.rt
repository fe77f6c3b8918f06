// The verdicts of a reconciliation, worked out once, with tables as large as the number of wanted ids, inputs and read ids, asks for.
ghost use Rattle.std.specs.Prelude.{◌≡◌, ◌<◌, ◌≤◌, true, false, length, take};
ghost use Rattle.queue.specs.layout.FrameCodec.{rec_c};
ghost use Rattle.queue.specs.layout.FormsCodec.{form_c};
ghost use Rattle.queue.specs.layout.RecordsAs.{RecordsIn, recs_at};
ghost use Rattle.queue.specs.change.ReopenAs.{IdsRise};
ghost use Rattle.queue.specs.change.OwnAs.{wanted_of};
ghost use Rattle.queue.specs.change.TouchAs.{EntriesRise, JudgedAt};

use crate::change::block::Block;
use crate::change::own::{count_wanted, note_flags, own_flags};
use crate::change::touch::judge_all;
use crate::layout::records::Records;

// With flags for all wanted ids, if they are to be, and room for so many rows of outputs, words of flags and words of a filter.
fn judge_within<const ROWS: usize, const FLAGS: usize, const FILTER: usize>(
    s: &[u8],
    recs: Records,
    t: &[u8],
    b: Block,
    ids: &[u8],
    go: bool,
    total: u64,
    vs: &mut [u64],
)
    requires asked { RecordsIn (form_c false rec_c) s.now recs × EntriesRise t.now b.entries × IdsRise ids.now b.available × (recs.count ≤ length vs.old) × (recs.count < 4294967296) × (go ≡ true → length s.now < 4294967296) × (go ≡ true → total ≡ length (wanted_of (recs_at (form_c false rec_c) s.now recs))) × (total ≤ 524288) }
    requires small { (ROWS ≤ 65536) × (FLAGS ≤ 65536) × (FILTER ≤ 65536) }
    ensures { JudgedAt s.now recs b t.now ids.now (take recs.count vs.new) }
{
    let mut rows = [0u64; ROWS];
    let mut flags = [0u64; FLAGS];
    let mut filter = [0u64; FILTER];
    let noted = note_flags(
        s,
        recs,
        ids,
        b.available,
        go,
        total,
        &mut flags,
        &mut filter,
    );
    if !noted {
        judge_all(s, recs, t, b, ids, false, &flags, vs);
        return;
    }
    let quick = own_flags(s, recs, total, &mut rows, &mut flags, &filter);
    judge_all(s, recs, t, b, ids, quick, &flags, vs);
}

// The verdicts on the records, to the front of vs, with tables for few or for many wanted ids; smaller ones would only cost time. Each of
// the two is called at two places that differ in two values: the compiler then makes no single call of them, which it would take in here
// together with the tables.
pub fn judge(s: &[u8], recs: Records, t: &[u8], b: Block, ids: &[u8], vs: &mut [u64])
    requires { RecordsIn (form_c false rec_c) s.now recs × EntriesRise t.now b.entries × IdsRise ids.now b.available × (recs.count ≤ length vs.old) × (recs.count < 4294967296) }
    ensures { JudgedAt s.now recs b t.now ids.now (take recs.count vs.new) }
{
    let total = count_wanted(s, recs);
    if !(b.caught & (s.len() < 4294967296)) {
        judge_within::<2048, 128, 512>(s, recs, t, b, ids, false, 0, vs);
        return;
    }
    if total <= 8192 {
        judge_within::<2048, 128, 512>(s, recs, t, b, ids, true, total, vs);
        return;
    }
    if total <= 524288 {
        judge_within::<65536, 8192, 16384>(s, recs, t, b, ids, true, total, vs);
        return;
    }
    judge_within::<65536, 8192, 16384>(s, recs, t, b, ids, false, 0, vs);
}
