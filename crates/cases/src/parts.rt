// A text in parts: the fields of a line, the words of a field.

// Has each line of the input looked at, the last one too where no newline ends it.
pub fn each_line<F: Fn(&[u8])>(input: &[u8], look: F)
    requires { F.IsAlwaysCallable look }
{
    for line in input.split(|&byte| byte == b'\n') {
        look(line);
    }
}

// A field of a line; the first is field 0.
pub fn field(line: &[u8], n: usize) -> &[u8] {
    part(line, n, b'|')
}

// The first byte, which tells what a line is; a # where there is none.
pub fn first(line: &[u8]) -> u8 {
    line.first().copied().unwrap_or(b'#')
}

// What stands between two separators, or at an end; nothing where there are fewer.
pub fn part(text: &[u8], n: usize, separator: u8) -> &[u8] {
    text.split(|&byte| byte == separator).nth(n).unwrap_or(&[])
}
