//! Whether a session goes on.
ghost use Rattle.std.specs.Prelude.{◌≡◌};
ghost use Rattle.palm_session.specs.declared.remainder.Remainder.TheVariants.{End};

use crate::remainder::Remainder;

/// Whether a session goes on.
#[derive(Clone, Copy, Debug, PartialEq, Eq)]
pub enum Going {
    /// There may be more lines.
    More,
    /// A `quit` line was answered.
    Quit,
}

impl Going {
    /// A session ends where nothing but that is left of a request.
    pub(crate) fn after(remainder: &Remainder) -> Going
        ensures quit { result ≡ Going.Quit → remainder.now ≡ End }
        ensures more { result ≡ Going.More → remainder.now ≡ End → ⊥ }
    {
        match remainder {
            Remainder::End => Going::Quit,
            _ => Going::More,
        }
    }
}
