//! The lines of a text.

ghost use Rattle.std.specs.Prelude.{◌≡◌, ◌+◌, ◌≤◌, ◌<◌, ◌∷◌, length, drop};
ghost use Rattle.std.specs.List.{prefix_len};
ghost use Rattle.text_scan.specs.Bytes.{is_comment_byte};
ghost use Rattle.text_scan.specs.Lines.{lines_of};

/// Where the line that goes on at `from` ends, before its newline if it has one.
#[inline]
pub(crate) fn line_end(text: &[u8], from: usize) -> usize
    requires { from ≤ length text.now }
    ensures end { result ≡ from + prefix_len is_comment_byte (drop from text.now) }
    ensures within { result ≤ length text.now }
{
    let mut end = from;
    while end < text.len() && text[end] != b'\n' {
        end += 1;
    }
    end
}

/// The line that begins at `from`, without its newline.
pub fn line_at<'a>(text: &'a [u8], from: usize) -> &'a [u8]
    requires { from < length text.now }
    ensures line { lines_of (drop from text.now)
        ≡ result.now ∷ lines_of (drop (from + length result.now + 1) text.now) }
    ensures within { from + length result.now ≤ length text.now }
{
    let end = line_end(text, from);
    &text[from..end]
}
