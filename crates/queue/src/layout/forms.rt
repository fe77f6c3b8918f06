// Where a frame ends: behind its bytes in an area, behind its line in a text.
ghost use Rattle.std.specs.Prelude.{◌≡◌, ◌+◌, ◌≤◌, length};
ghost use Rattle.queue.specs.bytes.ViewAs.{view};
ghost use Rattle.queue.specs.Hex.{digit?, digits?};
ghost use Rattle.queue.specs.layout.FormsCodec.{after_in_value, ends_line_value};

fn is_digit(c: u8) -> bool
    ensures { result ≡ digit? c }
{
    (47 < c) & (c < 58) | (96 < c) & (c < 103)
}

// No early way out, so that the loop can be done many bytes at a time.
fn all_digits(s: &[u8], base: usize, n: usize) -> bool
    requires { base + n ≤ length s.now }
    ensures { result ≡ digits? n s.now base }
{
    let mut ok = true;
    for j in 0..n {
        ok &= is_digit(s[base + j]);
    }
    ok
}

// Kept with s, hex and base: what is asked lies behind a frame in s, and a view begins at its frame.

/// In a text: is the frame of n bytes at base in digits, and does its line end?
pub fn ends_line(s: &[u8], hex: bool, base: usize, n: usize) -> bool
    requires { n ≤ length (view hex s.now base) }
    ensures { result ≡ ends_line_value hex s.now base n }
{
    if !hex {
        return true;
    }
    let end = base + 2 * n;
    if s.len() <= end {
        return false;
    }
    s[end] == 10 && all_digits(s, base, 2 * n)
}

/// Where the frame after the one of n bytes at base starts.
pub fn after_in(s: &[u8], hex: bool, base: usize, n: usize) -> usize
    requires { n ≤ length (view hex s.now base) }
    ensures { result ≡ after_in_value hex s.now base n }
{
    if !hex {
        return base + n;
    }
    let end = base + 2 * n;
    if end < s.len() { end + 1 } else { end }
}
