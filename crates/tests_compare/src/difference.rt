//! The first line that differs.
ghost use Rattle.std.specs.Prelude.{◌≡◌, IfNone, IfSome};

use std::fmt;

/// The first line in which a text is not the expected one, counted from 1, and what stands there in both. A line has its line
/// feed, and one that is not there is empty.
#[derive(Clone, Copy, PartialEq)]
pub struct Difference<'a> {
    pub line: usize,
    pub expected: &'a [u8],
    pub got: &'a [u8],
}

impl fmt::Debug for Difference<'_> {
    fn fmt<W: fmt::Write>(&self, f: &mut fmt::Formatter<W>) -> fmt::Result {
        write!(
            f,
            "line {}: expected '{}', got '{}'",
            self.line,
            self.expected.escape_ascii(),
            self.got.escape_ascii()
        )
    }
}

/// Where the text differs first from the expected one: nowhere exactly if they are the same.
pub fn first_difference<'a>(expected: &'a [u8], got: &'a [u8]) -> Option<Difference<'a>>
    ensures same { IfNone result (expected.now ≡ got.now) }
    ensures other { IfSome result (λ difference. ¬ (expected.now ≡ got.now)) }
{
    if expected == got {
        return None;
    }
    let mut lines = got.split_inclusive(|byte| *byte == b'\n');
    let mut line = 1_usize;
    for wanted in expected.split_inclusive(|byte| *byte == b'\n') {
        let found = lines.next().unwrap_or(&[]);
        if found != wanted {
            return Some(Difference {
                line,
                expected: wanted,
                got: found,
            });
        }
        line = line.saturating_add(1);
    }
    Some(Difference {
        line,
        expected: &[],
        got: lines.next().unwrap_or(&[]),
    })
}
