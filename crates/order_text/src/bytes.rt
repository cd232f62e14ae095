// What bytes of a text stand for: the mark in front of it, the end of a figure, the end of a line.
ghost use Rattle.std.specs.Prelude.{◌≡◌};
ghost use Rattle.order_text.specs.Text.{ends_figure, ends_line, mark_length};

// The length of the byte order mark of UTF-8 where a text begins with it; else 0.
pub(crate) fn mark_length(text: &[u8]) -> usize
    ensures { result ≡ mark_length text.now }
{
    match text {
        [239, 187, 191, ..] => 3,
        _ => 0,
    }
}

// Whether a byte may stand right behind a figure: a space, a tab, a carriage return, a newline, or
// the # of a comment.
pub(crate) fn ends_figure(byte: u8) -> bool
    ensures { result ≡ ends_figure byte }
{
    matches!(byte, b' ' | b'\t' | b'\r' | b'\n' | b'#')
}

// Whether a byte ends a line: a carriage return, or a newline that does not stand right behind one.
pub(crate) fn ends_line(returned: bool, byte: u8) -> bool
    ensures { result ≡ ends_line returned byte }
{
    (byte == b'\r') | (byte == b'\n') & !returned
}
