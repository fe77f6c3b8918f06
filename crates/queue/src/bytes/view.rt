// A frame where it stands, as bytes or, where hex is true, as two digits a byte. A place in it is counted in bytes of the frame.
ghost use Rattle.std.specs.Prelude.{◌≡◌, ◌+◌, ◌^◌, ◌<◌, ◌≤◌, ◌*◌, List, ℕ, length, slice_index, MatchOption, IfSome};
ghost use Rattle.std.specs.Option.{ForSome};
ghost use Rattle.queue.specs.bytes.Parts.{part};
ghost use Rattle.queue.specs.bytes.OrderAs.{order_number};
ghost use Rattle.queue.specs.paper.Ids.{cmp_l, same?};
ghost use Rattle.queue.specs.bytes.ReaderLaws.{be_at, SmallAt};
ghost use Rattle.queue.specs.Codec.{be_c, opt_c};
ghost use Rattle.queue.specs.layout.FrameCodec.{id_c, tag_c};
ghost use Rattle.queue.specs.bytes.ViewAs.{nib_of, view as frame_at, shown};

use std::cmp::Ordering;
use std::marker::Model;

/// A value read, and where what stands behind it begins.
#[derive(Clone, Copy)]
pub struct Read<T> {
    pub value: T,
    pub next: usize,
}

/// How many items there are, and where they start.
#[derive(Clone, Copy)]
pub struct Items {
    pub len: u64,
    pub start: usize,
}

/// A frame that stands in lent bytes, as it is or in digits: its bytes, and all behind it.
#[derive(Drop)]
pub struct View<'a> {
    bytes: &'a [u8],
    hex: bool,
}

// What the frame's bytes are, and all behind it.
impl<'a> Model for View<'a> {
    ghost Value = { List ℕ };

    ghost view = { λ v. shown v.hex v.bytes.now };

    ghost invariant = { λ v. SmallAt (shown v.hex v.bytes.now) };
}

#[tactic(auto, unfolding(crate::specs::bytes::ViewAs::nib_of))]
pub fn nib(c: u8) -> u8
    ensures is { result ≡ nib_of c }
    ensures small { result < 16 }
{
    (c % 16 + 9 * (c / 64)) % 16
}

#[tactic(auto, using(crate::specs::bytes::ViewAs::shown_fits))]
impl<'a> View<'a> {
    ghost use Rattle.queue.specs.bytes.ReaderAs.{Fails, Found, Reads, Skips, Counted, flag_c, option_of};

    /// The frame that stands at base.
    #[inline(always)]
    pub fn new(s: &'a [u8], hex: bool, base: usize) -> View<'a>
        ensures { result ≡ frame_at hex s.now base }
    {
        View {
            bytes: &s[base.min(s.len())..],
            hex,
        }
    }

    /// How many bytes the frame can have.
    #[inline(always)]
    pub fn len(&self) -> usize
        ensures is { result ≡ length self.now }
        ensures bytes { SmallAt self.now }
    {
        if self.hex {
            self.bytes.len() / 2
        } else {
            self.bytes.len()
        }
    }

    /// The byte at a place.
    #[inline(always)]
    pub fn byte(&self, at: usize) -> u8
        requires { at < length self.now }
        ensures { result ≡ slice_index self.now at }
    {
        if self.hex {
            nib(self.bytes[2 * at]) * 16 + nib(self.bytes[2 * at + 1])
        } else {
            self.bytes[at]
        }
    }

    // The number of the n bytes from at on, byte by byte.
    #[inline(always)]
    fn be_bytes(&self, at: usize, n: usize) -> u64
        requires few { n ≤ 8 }
        requires inside { at + n ≤ length self.now }
        ensures is { result ≡ be_at n self.now at }
        ensures small { result < 256 ^ n }
    {
        let _ = &self.bytes;
        let mut v = 0;
        for i in 0..n {
            v = v * 256 + u64::from(self.byte(at + i));
        }
        v
    }

    /// The same. Eight bytes in two halves: of these the compiler makes one load, of a chain of eight it makes none.
    #[inline(always)]
    pub fn be(&self, at: usize, n: usize) -> u64
        requires few { n ≤ 8 }
        requires inside { at + n ≤ length self.now }
        ensures is { result ≡ be_at n self.now at }
        ensures small { result < 256 ^ n }
    {
        let _ = &self.bytes;
        if n == 8 {
            self.be_bytes(at, 4) * 4294967296 + self.be_bytes(at + 4, 4)
        } else {
            self.be_bytes(at, n)
        }
    }

    /// The id at a place.
    #[inline(always)]
    pub fn id(&self, at: usize) -> [u8; 32]
        requires { at + 32 ≤ length self.now }
        ensures is { result ≡ part 32 self.now at }
        ensures found { Found id_c self.now at (at + 32) (λ a. a ≡ result) }
        ensures fits { at + 32 < 2 ^ 63 }
    {
        let _ = &self.bytes;
        let mut id = [0; 32];
        for (i, b) in id.iter_mut().enumerate() {
            *b = self.byte(at + i);
        }
        id
    }

    // The order of two ids where they stand, byte by byte.
    #[inline(always)]
    fn compare_bytes(&self, at: usize, other: &View, at2: usize) -> Ordering
        requires first { at + 32 ≤ length self.now }
        requires second { at2 + 32 ≤ length other.now }
        ensures { order_number result ≡ cmp_l (part 32 self.now at) (part 32 other.now at2) }
    {
        let _ = &self.bytes;
        let _ = &other.bytes;
        for i in 0..32 {
            let x = self.byte(at + i);
            let y = other.byte(at2 + i);
            if x < y {
                return Ordering::Less;
            }
            if y < x {
                return Ordering::Greater;
            }
        }
        Ordering::Equal
    }

    /// The order of two ids where they stand.
    #[inline(always)]
    pub fn compare_at(&self, at: usize, other: &View, at2: usize) -> Ordering
        requires first { at + 32 ≤ length self.now }
        requires second { at2 + 32 ≤ length other.now }
        ensures { order_number result ≡ cmp_l (part 32 self.now at) (part 32 other.now at2) }
    {
        if self.hex {
            self.compare_bytes(at, other, at2)
        } else if other.hex {
            self.compare_bytes(at, other, at2)
        } else {
            compare_words(self.bytes, at, other.bytes, at2)
        }
    }

    /// The place behind n bytes, if they are there.
    #[inline(always)]
    pub fn skip(&self, at: usize, n: usize) -> Option<usize>
        ensures { Skips self.now at n result }
    {
        let left = self.len().checked_sub(at)?;
        if left < n { None } else { Some(at + n) }
    }

    /// A number of n bytes.
    #[inline(always)]
    pub fn number(&self, at: usize, n: usize) -> Option<Read<u64>>
        requires { n ≤ 8 }
        ensures read { Reads (be_c n) self.now at result (λ x a. a ≡ x.value) }
        ensures small { IfSome result (λ r. r.value < 256 ^ n) }
    {
        let next = self.skip(at, n)?;
        Some(Read {
            value: self.be(at, n),
            next,
        })
    }

    /// An id, if there is room for one.
    #[inline(always)]
    pub fn read_id(&self, at: usize) -> Option<Read<[u8; 32]>>
        ensures { Reads id_c self.now at result (λ x a. a ≡ x.value) }
    {
        let next = self.skip(at, 32)?;
        Some(Read {
            value: self.id(at),
            next,
        })
    }

    /// The place behind the byte n, which says what stands behind it.
    #[inline(always)]
    pub fn tag(&self, at: usize, n: u8) -> Option<usize>
        ensures { MatchOption result (Fails (tag_c n) self.now at) (λ next. Found (tag_c n) self.now at next (λ _. Unit {0})) }
    {
        if at < self.len() && self.byte(at) == n {
            Some(at + 1)
        } else {
            None
        }
    }

    /// A flag: the byte 0 or 1.
    #[inline(always)]
    pub fn flag(&self, at: usize) -> Option<Read<bool>>
        ensures { Reads flag_c self.now at result (λ x b. x.value ≡ b) }
    {
        if self.len() <= at {
            return None;
        }
        match self.byte(at) {
            0 => Some(Read {
                value: false,
                next: at + 1,
            }),
            1 => Some(Read {
                value: true,
                next: at + 1,
            }),
            _ => None,
        }
    }

    /// A flag, and a number of n bytes if it is 1.
    #[inline(always)]
    pub fn optional(&self, at: usize, n: usize) -> Option<Read<Option<u64>>>
        requires { n ≤ 8 }
        ensures read { Reads (opt_c (be_c n)) self.now at result (λ x o. option_of o ≡ x.value) }
        ensures small { IfSome result (λ r. ForSome r.value (λ x. x < 256 ^ n)) }
    {
        let flag = self.flag(at)?;
        if !flag.value {
            return Some(Read {
                value: None,
                next: flag.next,
            });
        }
        let x = self.number(flag.next, n)?;
        Some(Read {
            value: Some(x.value),
            next: x.next,
        })
    }

    /// A count of w bytes, and as many items of `each` bytes.
    #[inline(always)]
    pub fn counted(&self, at: usize, w: usize, each: u64) -> Option<Read<Items>>
        requires width { w ≤ 4 }
        requires size { each ≤ 32 }
        ensures { Counted self.now at w each result }
    {
        let count = self.number(at, w)?;
        let next = self.skip(count.next, (count.value * each) as usize)?;
        Some(Read {
            value: Items {
                len: count.value,
                start: count.next,
            },
            next,
        })
    }
}

/// Eight bytes as a number.
pub fn word(s: &[u8], at: usize) -> u64
    requires { at + 8 ≤ length s.now }
    ensures { result ≡ be_at 8 s.now at }
{
    View::new(s, false, 0).be(at, 8)
}

// The order of two ids in bytes, by words of 8: the order of such words as numbers is that of their bytes.
fn compare_words(s: &[u8], at: usize, t: &[u8], at2: usize) -> Ordering
    requires first { at + 32 ≤ length s.now }
    requires second { at2 + 32 ≤ length t.now }
    ensures { order_number result ≡ cmp_l (part 32 s.now at) (part 32 t.now at2) }
{
    for k in 0..4 {
        let x = word(s, at + 8 * k);
        let y = word(t, at2 + 8 * k);
        if x < y {
            return Ordering::Less;
        }
        if y < x {
            return Ordering::Greater;
        }
    }
    Ordering::Equal
}

/// The order of two ids by value.
pub fn compare_ids(a: [u8; 32], b: [u8; 32]) -> Ordering
    ensures { order_number result ≡ cmp_l a b }
{
    compare_words(&a, 0, &b, 0)
}

/// Are two ids the same? No early way out, so that the loop can be done many bytes at a time.
pub fn same_id(a: [u8; 32], b: [u8; 32]) -> bool
    ensures { result ≡ same? a b }
{
    let mut same = true;
    for i in 0..32 {
        same &= a[i] == b[i];
    }
    same
}
