//! The line of an offset.

ghost use Rattle.std.specs.Prelude.{◌≡◌, ◌+◌, ◌≤◌, ◌<◌, ◌^◌, drop, length, position, IfSome};
ghost use Rattle.cc_report.specs.Excerpt.{after, before, column, is_line_end, last_line, line_length};

// Where what follows on the last line end begins.
fn line_start(bytes: &[u8]) -> usize
    ensures start { drop result bytes.now ≡ last_line bytes.now }
    ensures inside { result ≤ length bytes.now }
{
    let mut start = 0;
    for index in 0..bytes.len() {
        if bytes[index] == b'\n' {
            start = index + 1;
        }
    }
    start
}

// Where the first line end is.
fn line_end(bytes: &[u8]) -> Option<usize>
    ensures value { result ≡ position is_line_end bytes.now }
    ensures inside { IfSome result (λ index. index ≤ length bytes.now) }
{
    bytes.iter().position(|byte| *byte == b'\n')
}

fn line_length(bytes: &[u8]) -> usize
    ensures value { result ≡ line_length bytes.now }
    ensures inside { result ≤ length bytes.now }
{
    match line_end(bytes) {
        Some(index) => index,
        None => bytes.len(),
    }
}

/// Of the line of an offset, what stands before it.
pub fn before(source: &[u8], at: usize) -> &[u8]
    requires { at ≤ length source.now }
    ensures { result.now ≡ before source.now at }
{
    let earlier = &source[..at];
    &earlier[line_start(earlier)..]
}

/// Of the line of an offset, what stands from it on.
pub fn after(source: &[u8], at: usize) -> &[u8]
    requires { at ≤ length source.now }
    ensures { result.now ≡ after source.now at }
{
    let later = &source[at..];
    &later[..line_length(later)]
}

/// The column of an offset, counted from 1. It is at most the length of the text. It takes time
/// linear in the text before it.
pub fn column(source: &[u8], at: usize) -> usize
    requires inside { at ≤ length source.now }
    requires small { length source.now < 2 ^ 63 }
    ensures { result ≡ column source.now at }
{
    before(source, at).len() + 1
}
