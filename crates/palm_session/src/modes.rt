//! The mode in which a line is read, and what a line leaves of it.
ghost use Rattle.std.specs.Prelude.{◌≡◌};
ghost use Rattle.palm_session.specs.Modes.{begun, mode_after};

use palm_lang::{Line, Mode};

/// The mode after a line that is no comment and not the header, whether it was refused or not: the first one sets version 1.
pub(crate) fn begun(mode: Mode) -> Mode
    ensures { result ≡ begun mode }
{
    match mode {
        Mode::First | Mode::One => Mode::One,
        Mode::Two => Mode::Two,
    }
}

/// The mode after a line that was read: a comment leaves it, and the header sets version 2.
pub(crate) fn mode_after(mode: Mode, line: &Line) -> Mode
    ensures { result ≡ mode_after mode line.now }
{
    match line {
        Line::Comment => mode,
        Line::Header => Mode::Two,
        _ => begun(mode),
    }
}
