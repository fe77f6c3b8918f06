// The stored image of a queue: lines of hexadecimal, one frame a line.
#![tactic(auto)]

ghost use Rattle.std.specs.Prelude.{◌≡◌, ℕ, ◌≤◌, length};
ghost use Rattle.queue.specs.bytes.PutAs.{Put};
ghost use Rattle.queue.specs.Checked.{written};
ghost use Rattle.queue.specs.Refusal.{answer_of, number_told, size_told};
ghost use Rattle.queue.specs.check.AreaAs.{limits};
ghost use Rattle.image.specs.ImageAs.{AreaHeld, ImageLen, AreaRoom, AreaPut, limits_told};
ghost use Rattle.image.specs.paper.Image.{image_of, open_of, need_of, Five, image_limits_of, convert_of};

use back::{old_len, put_old, said};
use frames::{put_image, put_queue};
use queue::Kind;
use queue::bytes::put::{copy_part, fill_zero, put_be};
use queue::check::area::Area;
use queue::layout::frame::NEWEST;
use queue::layout::limits::Limits;
use queue::refusal::Refusal;
use text::Text;

pub mod back;
pub mod frames;
pub mod text;

/// How long the image of the queue is that was read from an area: two digits a byte of its frames, and an end for each.
pub fn image_len(a: Area) -> usize
    requires { AreaHeld a }
    ensures { ImageLen a result }
{
    let x = a.open;
    let h = x.head;
    2 * (x.next - 4) + 1 + (h.count as usize)
}

/// The image writer. All that can refuse comes before the first byte is written.
pub fn write(area: &[u8], out: &mut [u8]) -> Result<u64, Refusal>
    ensures { (old : ℕ) → size_told result out.new old ≡ image_of area.now out.old old }
{
    let a = Area::read(area)?;
    let n = image_len(a);
    if out.len() < n {
        return Err(Refusal::OutputTooShort);
    }
    let x = a.open;
    put_image(area, 4, x, out, 0);
    Ok(n as u64)
}

// The area of the queue that was read from a text; its persisted height is its cursor's.
fn put_area(s: &[u8], t: Text, dst: &mut [u8]) -> usize
    requires { AreaRoom s.now t (length dst.old) }
    ensures { AreaPut s.now t dst.old result dst.new }
{
    let x = t.open;
    let h = x.head;
    let c = h.cursor;
    let a = put_be(dst, 0, 4, c.0);
    let e = put_queue(s, t.form, 0, x, dst, a);
    fill_zero(dst, e, t.need)
}

/// Opening. All that can refuse comes before the first byte is written.
pub fn open(text: &[u8], area: &mut [u8]) -> Result<Kind, Refusal>
    ensures { written (answer_of result) area.new ≡ open_of text.now area.old }
{
    let t = Text::read(text)?;
    if area.len() < t.need {
        return Err(Refusal::AreaTooShort);
    }
    put_area(text, t, area);
    Ok(Kind::Nothing)
}

/// How many bytes an area needs under these limits. Refusal 1.
pub fn area_need(p: u64, b: u64, t: u64, k: u64) -> Result<u64, Refusal>
    ensures { (old : ℕ) → number_told result old ≡ need_of (limits p b t k) old }
{
    let l = Limits {
        p,
        b,
        t,
        k,
        shares: [0u8; 64],
    };
    if !Limits::check(l) {
        return Err(Refusal::LimitOutOfRange);
    }
    Ok(Limits::need(l) as u64)
}

// The shares over the start of dst.
fn put_shares(shares: [u8; 64], dst: &mut [u8]) -> usize
    requires { 64 ≤ length dst.old }
    ensures { Put dst.old 0 shares 64 result dst.new }
{
    copy_part(&shares, 0, 64, dst, 0)
}

/// The limits of an image's queue, and how many bytes an area needs under them.
#[derive(Clone, Copy)]
pub struct ImageLimits {
    pub limits: Limits,
    pub need: u64,
}

/// The limits of the queue whose image the text is, and its shares over the start of an output. Refusals 16, as opening, 4.
pub fn image_limits(text: &[u8], shares: &mut [u8]) -> Result<ImageLimits, Refusal>
    ensures { (old : Five) → limits_told result shares.new old ≡ image_limits_of text.now old shares.old }
{
    let x = Text::read(text)?;
    if shares.len() < 64 {
        return Err(Refusal::OutputTooShort);
    }
    let l = x.open.head.limits;
    put_shares(l.shares, shares);
    Ok(ImageLimits {
        limits: l,
        need: x.need as u64,
    })
}

/// From an image of the newest kind to the image of kind 01 of the same queue. All that can refuse comes before the first byte is written.
#[tactic(auto, using(crate::proofs::BackLaws::another_kind, crate::proofs::BackLaws::newest_told))]
pub fn convert(text: &[u8], out: &mut [u8]) -> Result<u64, Refusal>
    ensures { (old : ℕ) → size_told result out.new old ≡ convert_of text.now out.old old }
{
    let t = Text::read(text)?;
    let form = t.form;
    if form.kind != NEWEST {
        return Err(Refusal::NotAnImage);
    }
    let x = t.open;
    if !said(text, x) {
        return Err(Refusal::NotConvertible);
    }
    let n = old_len(text.len(), x);
    if out.len() < n {
        return Err(Refusal::OutputTooShort);
    }
    put_old(text, x, out);
    Ok(n as u64)
}
