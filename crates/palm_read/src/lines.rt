//! The cutting of a text into lines.
ghost use Rattle.std.specs.Prelude.{◌≡◌, ◌<◌, ◌≤◌, [], drop, IfNone, IfSome, length};
ghost use Rattle.palm_read.specs.Lines.{HasNoFeed, IsNextFeed, IsNextLine, without_return};

/// The line without the carriage return that belongs to its end.
pub fn without_return(line: &[u8]) -> &[u8]
    ensures { result.now ≡ without_return line.now }
{
    match line {
        [front @ .., b'\r'] => front,
        _ => line,
    }
}

/// The place of the first line feed from a place on.
pub fn next_feed(text: &[u8], from: usize) -> Option<usize>
    requires { from ≤ length text.now }
    ensures found { IfSome result (λ end. IsNextFeed text.now from end) }
    ensures none { IfNone result (HasNoFeed (drop from text.now)) }
{
    let rest = &text[from..];
    let place = rest.iter().position(|b| *b == b'\n')?;
    Some(from + place)
}

/// The line that begins at a place, without its end, and where the next one begins. There is none at the end of the text.
pub fn next_line(text: &[u8], from: usize) -> Option<(&[u8], usize)>
    requires { from ≤ length text.now }
    ensures some { IfSome result (λ found. IsNextLine text.now from found.0.now found.1) }
    ensures none { IfNone result (drop from text.now ≡ []) }
{
    if from == text.len() {
        return None;
    }
    match next_feed(text, from) {
        Some(end) => Some((without_return(&text[from..end]), end + 1)),
        None => Some((without_return(&text[from..]), text.len())),
    }
}
