// The exported calls, for C and Rust: each is the library's, under the same name and contract.
// Kept: the C interface; only a static library can give an archive, and no other crate can stand on one.
#![tactic(auto)]

ghost use Rattle.std.specs.Prelude.{◌≡◌, [], ◌++◌, ◌≤◌};
ghost use Rattle.queue.specs.Codec.{be};
ghost use Rattle.queue.specs.check.AreaAs.{limits};
ghost use Rattle.queue.specs.paper.Lists.{one, is_empty?};
ghost use Rattle.queue.specs.paper.Reading.{deadline_due?, record_ids_value, guarded_ids_value, reserved_inputs_value, due_states, confirmations};
ghost use Rattle.queue.specs.paper.Calls.{number, kind_number_value, gives, counted, entry_bytes, ids_bytes, placed_bytes, due_bytes, cursor_bytes, admit_args, reconcile_args, admitting, cancelling, expiring, reconciling, reopening, setting_cursor, call_of, fresh_of, sound_of, settle_of, read_of, number_of, entry_of, signed_bytes_of, selection_at_of};
ghost use Rattle.queue.specs.paper.Fees.{best_fees_of};
ghost use Rattle.queue.specs.paper.Parents.{parents_first_of};
ghost use Rattle.image.specs.paper.Image.{image_of, open_of, need_of, image_limits_of, convert_of};

/// A fresh queue into area: 1, 2, 5.
#[unsafe(no_mangle)]
pub extern "C" fn pokerbox_fresh(
    p: u64,
    b: u64,
    t: u64,
    k: u64,
    shares: &[u8],
    area: &mut [u8],
) -> u64
    ensures { (result, area.new) ≡ gives (fresh_of p b t k shares.now area.old) }
{
    pokerbox::pokerbox_fresh(p, b, t, k, shares, area)
}

/// Does the area hold a sound queue? 3 if not.
#[unsafe(no_mangle)]
pub extern "C" fn pokerbox_sound(area: &[u8]) -> u64
    ensures { result ≡ number (sound_of area.now) }
{
    pokerbox::pokerbox_sound(area)
}

/// Admission: the entry in out, old or new. 3, 2, 5, 6, 7, 8, 9, 10, 18, 11, 12, 20, 4.
#[unsafe(no_mangle)]
pub extern "C" fn pokerbox_admit(
    cur: &[u8],
    next: &mut [u8],
    id: &[u8],
    caller: u8,
    inputs: &[u8],
    outputs: &[u8],
    reads: &[u8],
    bytes: &[u8],
    clock: u64,
    timeflag: u8,
    time: u64,
    heightflag: u8,
    height: u32,
    priority: u64,
    labelflag: u8,
    label: &[u8],
    fee: u64,
    cost: u64,
    tipheight: u32,
    tipflag: u8,
    tip: &[u8],
    out: &mut [u8],
) -> u64
    ensures { (result, (next.new, out.new)) ≡ gives (call_of (admitting (admit_args id.now caller inputs.now outputs.now reads.now bytes.now clock timeflag time heightflag height priority labelflag label.now fee cost tipheight tipflag tip.now)) cur.now next.old out.old) }
{
    pokerbox::pokerbox_admit(
        cur, next, id, caller, inputs, outputs, reads, bytes, clock, timeflag, time, heightflag,
        height, priority, labelflag, label, fee, cost, tipheight, tipflag, tip, out,
    )
}

/// Cancellation: the entry in out. 3, 2, 5, 13, 14, 15, 4.
#[unsafe(no_mangle)]
pub extern "C" fn pokerbox_cancel(cur: &[u8], next: &mut [u8], id: &[u8], out: &mut [u8]) -> u64
    ensures { (result, (next.new, out.new)) ≡ gives (call_of (cancelling id.now) cur.now next.old out.old) }
{
    pokerbox::pokerbox_cancel(cur, next, id, out)
}

/// Expiry: the ids finished in out. 3, 2, 15, 4.
#[unsafe(no_mangle)]
pub extern "C" fn pokerbox_expire(
    cur: &[u8],
    next: &mut [u8],
    time: u64,
    height: u32,
    out: &mut [u8],
) -> u64
    ensures { (result, (next.new, out.new)) ≡ gives (call_of (expiring time height) cur.now next.old out.old) }
{
    pokerbox::pokerbox_expire(cur, next, time, height, out)
}

/// Reconciliation: whether anything changed and the ids released in out. 3, 2, 5, 15, 4.
#[unsafe(no_mangle)]
pub extern "C" fn pokerbox_reconcile(
    cur: &[u8],
    next: &mut [u8],
    height: u32,
    tip: &[u8],
    applied: &[u8],
    caughtup: u8,
    available: &[u8],
    window: u32,
    out: &mut [u8],
) -> u64
    ensures { (result, (next.new, out.new)) ≡ gives (call_of (reconciling (reconcile_args height tip.now applied.now caughtup available.now window)) cur.now next.old out.old) }
{
    pokerbox::pokerbox_reconcile(
        cur, next, height, tip, applied, caughtup, available, window, out,
    )
}

/// Reopening. 3, 2, 5.
#[unsafe(no_mangle)]
pub extern "C" fn pokerbox_reopen(cur: &[u8], next: &mut [u8], ids: &[u8]) -> u64
    ensures { (result, (next.new, [])) ≡ gives (call_of (reopening ids.now) cur.now next.old []) }
{
    pokerbox::pokerbox_reopen(cur, next, ids)
}

/// Cursor setting. 3, 2, 5.
#[unsafe(no_mangle)]
pub extern "C" fn pokerbox_set_cursor(
    cur: &[u8],
    next: &mut [u8],
    height: u32,
    flag: u8,
    tip: &[u8],
) -> u64
    ensures { (result, (next.new, [])) ≡ gives (call_of (setting_cursor height flag tip.now) cur.now next.old []) }
{
    pokerbox::pokerbox_set_cursor(cur, next, height, flag, tip)
}

/// Settling. 3, 2, 5; 17 where the write failed.
#[unsafe(no_mangle)]
pub extern "C" fn pokerbox_settle(cur: &[u8], next: &mut [u8], kind: u64, outcome: u64) -> u64
    ensures { (result, next.new) ≡ gives (settle_of cur.now next.old kind outcome) }
{
    pokerbox::pokerbox_settle(cur, next, kind, outcome)
}

/// The image of the queue in area: into out, its length behind size. 3, 4.
#[unsafe(no_mangle)]
pub extern "C" fn pokerbox_image(area: &[u8], out: &mut [u8], size: &mut u64) -> u64
    ensures { (result, (out.new, size.new)) ≡ gives (image_of area.now out.old size.old) }
{
    pokerbox::pokerbox_image(area, out, size)
}

/// The queue of an image into area. 16, 2.
#[unsafe(no_mangle)]
pub extern "C" fn pokerbox_open(text: &[u8], area: &mut [u8]) -> u64
    ensures { (result, area.new) ≡ gives (open_of text.now area.old) }
{
    pokerbox::pokerbox_open(text, area)
}

/// The image of kind 01 of the queue whose image of kind 06 the text is: into out, its length behind size. 16, 22, 4.
#[unsafe(no_mangle)]
pub extern "C" fn pokerbox_convert(text: &[u8], out: &mut [u8], size: &mut u64) -> u64
    ensures { (result, (out.new, size.new)) ≡ gives (convert_of text.now out.old size.old) }
{
    pokerbox::pokerbox_convert(text, out, size)
}

/// How many bytes an area needs under these limits. 1.
#[unsafe(no_mangle)]
pub extern "C" fn pokerbox_need(p: u64, b: u64, t: u64, k: u64, value: &mut u64) -> u64
    ensures { (result, value.new) ≡ gives (need_of (limits p b t k) value.old) }
{
    pokerbox::pokerbox_need(p, b, t, k, value)
}

/// The limits and shares of an image's queue, and how many bytes an area needs under them. 16, 4.
#[unsafe(no_mangle)]
pub extern "C" fn pokerbox_image_limits(
    text: &[u8],
    p: &mut u64,
    b: &mut u64,
    t: &mut u64,
    k: &mut u64,
    shares: &mut [u8],
    need: &mut u64,
) -> u64
    ensures { (result, ((p.new, (b.new, (t.new, (k.new, need.new)))), shares.new)) ≡ gives (image_limits_of text.now (p.old, (b.old, (t.old, (k.old, need.old)))) shares.old) }
{
    pokerbox::pokerbox_image_limits(text, p, b, t, k, shares, need)
}

/// The entry of an id. 3, 5, 13, 4.
#[unsafe(no_mangle)]
pub extern "C" fn pokerbox_entry(area: &[u8], id: &[u8], out: &mut [u8]) -> u64
    ensures { (result, out.new) ≡ gives (entry_of area.now id.now out.old) }
{
    pokerbox::pokerbox_entry(area, id, out)
}

/// The selection at a time and a height. 3, 4.
#[unsafe(no_mangle)]
pub extern "C" fn pokerbox_selection_entries_at(
    area: &[u8],
    time: u64,
    height: u32,
    out: &mut [u8],
) -> u64
    ensures { (result, out.new) ≡ gives (selection_at_of area.now time height out.old) }
{
    pokerbox::pokerbox_selection_entries_at(area, time, height, out)
}

/// The same, parents first: each record after all that it waits for. 3, 4.
#[unsafe(no_mangle)]
pub extern "C" fn pokerbox_selection_parents_first(
    area: &[u8],
    time: u64,
    height: u32,
    out: &mut [u8],
) -> u64
    ensures { (result, out.new) ≡ gives (parents_first_of area.now time height out.old) }
{
    pokerbox::pokerbox_selection_parents_first(area, time, height, out)
}

/// Best fees for a block of at most `limit` bytes: fee, nodes, distance, and the ids of the set. 3, 5, 21, 4.
#[unsafe(no_mangle)]
pub extern "C" fn pokerbox_best_fees(
    area: &[u8],
    limit: u64,
    budget: u64,
    time: u64,
    height: u32,
    out: &mut [u8],
) -> u64
    ensures { (result, out.new) ≡ gives (best_fees_of area.now limit budget time height out.old) }
{
    pokerbox::pokerbox_best_fees(area, limit, budget, time, height, out)
}

/// The selection at time 0 and height 0. 3, 4.
#[unsafe(no_mangle)]
pub extern "C" fn pokerbox_selection_entries(area: &[u8], out: &mut [u8]) -> u64
    ensures { (result, out.new) ≡ gives (selection_at_of area.now 0 0 out.old) }
{
    pokerbox::pokerbox_selection_entries(area, out)
}

/// The ids of the records. 3, 4.
#[unsafe(no_mangle)]
pub extern "C" fn pokerbox_record_ids(area: &[u8], out: &mut [u8]) -> u64
    ensures { (result, out.new) ≡ gives (read_of (λ q. ids_bytes (record_ids_value q)) area.now out.old) }
{
    pokerbox::pokerbox_record_ids(area, out)
}

/// The ids of the holders. 3, 4.
#[unsafe(no_mangle)]
pub extern "C" fn pokerbox_guarded_ids(area: &[u8], out: &mut [u8]) -> u64
    ensures { (result, out.new) ≡ gives (read_of (λ q. ids_bytes (guarded_ids_value q)) area.now out.old) }
{
    pokerbox::pokerbox_guarded_ids(area, out)
}

/// The input ids of all records, rising, each once. 3, 4.
#[unsafe(no_mangle)]
pub extern "C" fn pokerbox_reserved_inputs(area: &[u8], out: &mut [u8]) -> u64
    ensures { (result, out.new) ≡ gives (read_of (λ q. ids_bytes (reserved_inputs_value q)) area.now out.old) }
{
    pokerbox::pokerbox_reserved_inputs(area, out)
}

/// The revision, and the reserved inputs. 3, 4.
#[unsafe(no_mangle)]
pub extern "C" fn pokerbox_reservation_snapshot(area: &[u8], out: &mut [u8]) -> u64
    ensures { (result, out.new) ≡ gives (read_of (λ q. be 8 q.revision ++ ids_bytes (reserved_inputs_value q)) area.now out.old) }
{
    pokerbox::pokerbox_reservation_snapshot(area, out)
}

/// The ids of the holders, and the reserved inputs. 3, 4.
#[unsafe(no_mangle)]
pub extern "C" fn pokerbox_guard_snapshot(area: &[u8], out: &mut [u8]) -> u64
    ensures { (result, out.new) ≡ gives (read_of (λ q. ids_bytes (guarded_ids_value q) ++ ids_bytes (reserved_inputs_value q)) area.now out.old) }
{
    pokerbox::pokerbox_guard_snapshot(area, out)
}

/// The entries of all records. 3, 4.
#[unsafe(no_mangle)]
pub extern "C" fn pokerbox_list(area: &[u8], out: &mut [u8]) -> u64
    ensures { (result, out.new) ≡ gives (read_of (λ q. counted entry_bytes q.recs) area.now out.old) }
{
    pokerbox::pokerbox_list(area, out)
}

/// The Mined records with their places. 3, 4.
#[unsafe(no_mangle)]
pub extern "C" fn pokerbox_confirmations(area: &[u8], out: &mut [u8]) -> u64
    ensures { (result, out.new) ≡ gives (read_of (λ q. counted placed_bytes (confirmations q)) area.now out.old) }
{
    pokerbox::pokerbox_confirmations(area, out)
}

/// The records that are due, with their states. 3, 4.
#[unsafe(no_mangle)]
pub extern "C" fn pokerbox_due(area: &[u8], time: u64, height: u32, out: &mut [u8]) -> u64
    ensures { (result, out.new) ≡ gives (read_of (λ q. counted due_bytes (due_states time height q)) area.now out.old) }
{
    pokerbox::pokerbox_due(area, time, height, out)
}

/// The cursor: height, and tip if there is one. 3, 4.
#[unsafe(no_mangle)]
pub extern "C" fn pokerbox_observation_cursor(area: &[u8], out: &mut [u8]) -> u64
    ensures { (result, out.new) ≡ gives (read_of cursor_bytes area.now out.old) }
{
    pokerbox::pokerbox_observation_cursor(area, out)
}

/// The revision. 3.
#[unsafe(no_mangle)]
pub extern "C" fn pokerbox_revision(area: &[u8], value: &mut u64) -> u64
    ensures { (result, value.new) ≡ gives (number_of (λ q. q.revision) area.now value.old) }
{
    pokerbox::pokerbox_revision(area, value)
}

/// The cursor height. 3.
#[unsafe(no_mangle)]
pub extern "C" fn pokerbox_observed_height(area: &[u8], value: &mut u64) -> u64
    ensures { (result, value.new) ≡ gives (number_of (λ q. q.cursor) area.now value.old) }
{
    pokerbox::pokerbox_observed_height(area, value)
}

/// 1 without records, else 0. 3.
#[unsafe(no_mangle)]
pub extern "C" fn pokerbox_is_empty(area: &[u8], value: &mut u64) -> u64
    ensures { (result, value.new) ≡ gives (number_of (λ q. one (is_empty? q.recs)) area.now value.old) }
{
    pokerbox::pokerbox_is_empty(area, value)
}

/// 1 if a deadline is due, else 0. 3.
#[unsafe(no_mangle)]
pub extern "C" fn pokerbox_deadline_due(area: &[u8], time: u64, height: u32, value: &mut u64) -> u64
    ensures { (result, value.new) ≡ gives (number_of (λ q. one (deadline_due? time height q)) area.now value.old) }
{
    pokerbox::pokerbox_deadline_due(area, time, height, value)
}

/// Where the signed bytes of an id stand in the area. 3, 5, 13.
#[unsafe(no_mangle)]
pub extern "C" fn pokerbox_signed_bytes(
    area: &[u8],
    id: &[u8],
    start: &mut u64,
    size: &mut u64,
) -> u64
    ensures { (result, (start.new, size.new)) ≡ gives (signed_bytes_of area.now id.now (start.old, size.old)) }
{
    pokerbox::pokerbox_signed_bytes(area, id, start, size)
}
