// A filter: numbers marked in a table of bits. It can only say yes too often, so that only speed depends on what is marked where.
ghost use Rattle.std.specs.Prelude.{◌≡◌, ◌^◌, ◌<◌, List, ℕ, true, false, length, replicate};
ghost use Rattle.queue.specs.check.FilterAs.{slot_l, mask_l, hash_l, hash_n, marked, mark_l, hash_all_value};

use crate::bytes::view::word;
use std::marker::Model;

/// The bit k of a word.
pub fn bit(k: u64) -> u64
    requires { k < 64 }
    ensures { result ≡ 2 ^ k }
{
    1u64 << k
}

// Four bits of a word.
fn mask(h: u64) -> u64
    ensures { result ≡ mask_l h }
{
    let a = bit(h / 16384 % 64);
    let b = bit(h / 1048576 % 64);
    let c = bit(h / 67108864 % 64);
    let d = bit(h / 4294967296 % 64);
    a | b | c | d
}

/// The place of a number in a table of n words.
pub fn slot(n: usize, h: u64) -> usize
    requires { 0 < n }
    ensures { (result ≡ slot_l n h) × (result < n) }
{
    h as usize % n
}

/// Is the number marked in these words? So may be one that never was. Words that are only shared serve, of which no `Filter` can be made.
#[inline(always)]
pub fn seen(t: &[u64], h: u64) -> bool
    requires { 0 < length t.now }
    ensures { result ≡ marked t.now h }
{
    let i = slot(t.len(), h);
    let m = mask(h);
    let w = t[i];
    (w | m) == w
}

/// Marks the number in these words, of which the caller knows afterwards what they are.
#[inline(always)]
pub fn mark(t: &mut [u64], h: u64)
    requires { 0 < length t.old }
    ensures { t.new ≡ mark_l t.old h }
{
    let i = slot(t.len(), h);
    let m = mask(h);
    let w = t[i];
    t[i] = w | m;
}

/// Words of bits, at least one: whatever they hold, it only costs time.
#[derive(Drop)]
pub struct Filter<'a> {
    words: &'a mut [u64],
}

// What its words are.
impl<'a> Model for Filter<'a> {
    ghost Value = { List ℕ };

    ghost view = { λ t. t.words.now };

    ghost invariant = { λ t. 0 < length t.words.now };
}

impl<'a> Filter<'a> {
    /// A filter with these words.
    #[inline(always)]
    pub fn new(words: &'a mut [u64]) -> Filter<'a>
        requires { 0 < length words.old }
        ensures { result ≡ words.old }
    {
        Filter { words }
    }

    /// Its words, for what takes a slice of them.
    #[inline(always)]
    pub fn words(&self) -> &[u64]
        ensures is { result.now ≡ self.now }
        ensures some { 0 < length self.now }
    {
        &self.words[..]
    }

    /// Is the number marked? So may be one that never was.
    #[inline(always)]
    pub fn seen(&self, h: u64) -> bool
        ensures is { result ≡ marked self.now h }
        ensures some { 0 < length self.now }
    {
        seen(self.words, h)
    }

    /// Marks the number.
    #[inline(always)]
    pub fn mark(&mut self, h: u64)
        ensures is { self.new ≡ mark_l self.old h }
        ensures some { 0 < length self.old }
    {
        mark(self.words, h);
    }

    /// Sets all bits to 0, if they are to be.
    pub(crate) fn clear(&mut self, go: bool)
        ensures zero { go ≡ true → self.new ≡ replicate (length self.old) 0 }
        ensures same { go ≡ false → self.new ≡ self.old }
        ensures size { length self.new ≡ length self.old }
    {
        if go {
            self.words.fill(0);
        }
    }
}

/// A number of an id: its first and its last 8 bytes added, modulo the largest prime below 2 ^ 38.
pub fn hash(id: [u8; 32]) -> u64
    ensures { result ≡ hash_l id }
{
    let a = word(&id, 0);
    let b = word(&id, 24);
    std::num::wrapping_add_u64(a, b) % 274877906899
}

/// A number of a number, spread over 38 bits, so that numbers that count up seldom meet in a filter.
pub fn hash_number(n: u64) -> u64
    ensures { result ≡ hash_n n }
{
    n % 4294967291 * 2654435769 % 274877906899
}

/// Another number of an id: its four words of 8 bytes added, and spread, so that ids that count up are far from each other.
pub fn hash_all(id: [u8; 32]) -> u64
    ensures { result ≡ hash_all_value id }
{
    let a = word(&id, 0);
    let b = word(&id, 8);
    let c = word(&id, 16);
    let d = word(&id, 24);
    let x = std::num::wrapping_add_u64(a, b);
    let y = std::num::wrapping_add_u64(c, d);
    let h = std::num::wrapping_add_u64(x, y) % 274877906899;
    h * 41475557 / 8192
}
