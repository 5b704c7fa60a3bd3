//! Where bytes are cut: after their first line, and before the zeros at their end.
//! Both give parts of the bytes and copy nothing.

ghost use Rattle.std.specs.Prelude.{◌≡◌, ◌≢◌, ◌<◌, ◌≤◌, ℕ, ◌∷◌, length, slice_index};
ghost use Rattle.text_strings.specs.Lines.{line_feed, lines_of};
ghost use Rattle.text_strings.specs.Shown.{without_end_zeros};

/// The byte that ends a line.
const LINE_FEED: u8 = b'\n';

/// The place of the first line feed, or the number of bytes where there is none.
fn line_end(bytes: &[u8]) -> usize
    ensures within { result ≤ length bytes.now }
    ensures before { (k : ℕ) → k < result → slice_index bytes.now k ≢ line_feed }
    ensures found { result < length bytes.now → slice_index bytes.now result ≡ line_feed }
{
    for (place, byte) in bytes.iter().enumerate() {
        if *byte == LINE_FEED {
            return place;
        }
    }
    bytes.len()
}

/// The first line of the bytes, and the bytes after its line feed. There is to be a byte.
pub fn first_line(bytes: &[u8]) -> (&[u8], &[u8])
    requires { 0 < length bytes.now }
    ensures lines { lines_of bytes.now ≡ result.0.now ∷ lines_of result.1.now }
    ensures fewer { length result.1.now < length bytes.now }
{
    let end = line_end(bytes);
    if end < bytes.len() {
        (&bytes[..end], &bytes[end + 1..])
    } else {
        (bytes, &[])
    }
}

/// The bytes without the zeros at their end.
pub fn without_end_zeros(bytes: &[u8]) -> &[u8]
    ensures { result.now ≡ without_end_zeros bytes.now }
{
    let mut end = bytes.len();
    while end > 0 && bytes[end - 1] == 0 {
        end -= 1;
    }
    &bytes[..end]
}
