//! The verdict on a text.
ghost use Rattle.std.specs.Prelude.{IfOk};
ghost use Rattle.palm_claim.specs.Judging.{IsVerdictFrom};
ghost use Rattle.palm_claim.specs.Own.{family_of};

use crate::body::Body;
use crate::checker::Checker;
use palm_base::NoMemory;
use palm_read::next_line;
use std::alloc::Global;

/// The verdict of the family on a text: its first line that has a cause, or how it ends. A text may be of any length.
pub fn check_text<B: Body>(alloc: Global, bytes: &[u8]) -> Result<B::Verdict, NoMemory>
    ensures { IfOk result (IsVerdictFrom (family_of B.own) B.blank bytes.now) }
{
    let mut checker = Checker::<B>::new(alloc);
    let mut number = 1u64;
    let mut from = 0;
    while let Some((line, next)) = next_line(bytes, from) {
        if let Some(cause) = checker.take(line)? {
            return Ok(B::refused(number, cause));
        }
        number += 1;
        from = next;
    }
    Ok(checker.ending(number))
}
