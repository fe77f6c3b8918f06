// The list's lines read, and answers written. What is not there reads as 0, or as no bytes.
ghost use Rattle.std.specs.Prelude.{◌≤◌, ◌<◌, length};

use queue::bytes::put::{copy_text, copy_view};
use queue::bytes::view::View;
use std::io;
use std::io::{Read, Write};

// The next byte of the input, if there is one.
fn next_byte(list: &mut impl Read) -> io::Result<Option<u8>> {
    let mut one = [0u8; 1];
    let got = list.read(&mut one)?;
    Ok(one[..got].first().copied())
}

// The next line of the input: how long it is without its last byte, or nothing at the end of the input.
pub fn read_line(list: &mut impl Read, line: &mut [u8]) -> io::Result<Option<usize>> {
    for (n, place) in line.iter_mut().enumerate() {
        let Some(byte) = next_byte(list)? else {
            return Ok(n.checked_sub(1));
        };
        *place = byte;
        if byte == b'\n' {
            return Ok(Some(n));
        }
    }
    Ok(line.len().checked_sub(1))
}

// All bytes from at on; all of them where at is behind their end.
pub fn rest(s: &[u8], at: usize) -> &[u8] {
    s.get(at..).unwrap_or(s)
}

// At most n bytes of the rest from at on.
// Kept: n is how many a step asks for, and not how many there are.
pub fn part(s: &[u8], at: usize, n: usize) -> &[u8] {
    let t = rest(s, at);
    t.get(..n).unwrap_or(t)
}

// The bytes of the digits from the line's third byte on, into arg: how many.
pub fn arguments(line: &[u8], arg: &mut [u8]) -> usize {
    let digits = View::new(line, true, 2);
    let n = digits.len();
    if n <= arg.len() {
        copy_view(&digits, 0, n, arg, 0);
        return n;
    }
    0
}

// The byte at a place.
pub fn byte_at(args: &[u8], at: usize) -> u8 {
    args.get(at).copied().unwrap_or(0)
}

// The N bytes of a number, from at on.
pub fn bytes_at<const N: usize>(args: &[u8], at: usize) -> [u8; N] {
    args.get(at..)
        .and_then(|tail| tail.first_chunk())
        .copied()
        .unwrap_or([0; N])
}

// A length of 2 bytes.
pub fn length_at(args: &[u8], at: usize) -> usize
    ensures { result < 65536 }
{
    usize::from(u16::from_be_bytes(bytes_at(args, at)))
}

// Bytes to the start of another slice, as many as it takes: how many.
// Kept: the library copies as many as there are on both sides, and nothing where these differ.
pub fn copy(src: &[u8], dst: &mut [u8]) -> usize
    ensures { (result ≤ length src.now) × (result ≤ length dst.old) }
{
    let n = src.len().min(dst.len());
    dst[..n].copy_from_slice(&src[..n]);
    n
}

// A blank and the bytes' digits.
pub fn say_bytes(answers: &mut impl Write, bytes: &[u8]) -> io::Result<()> {
    let mut digits = [0u8; 65536];
    let frame = View::new(bytes, false, 0);
    let n = frame.len().min(digits.len() / 2);
    copy_text(&frame, 0, n, &mut digits, 0);
    answers.write_all(b" ")?;
    answers.write_all(&digits[..2 * n])
}

// A step's letter, a blank and the number that the call gave back.
pub fn say_number(answers: &mut impl Write, letter: u8, number: u64) -> io::Result<()> {
    answers.write_all(&[letter, b' '])?;
    write!(answers, "{number}")
}

// The same as a line.
pub fn say_line(answers: &mut impl Write, letter: u8, number: u64) -> io::Result<()> {
    say_number(answers, letter, number)?;
    answers.write_all(b"\n")
}
