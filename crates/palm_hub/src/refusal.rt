//! Why a hub line is refused.

/// Why a hub line is refused.
#[derive(Clone, Copy, Debug, PartialEq, Eq)]
pub enum Refusal {
    /// The line does not begin with a name and a space or a tab.
    NoName,
    /// The name is new, and as many sessions were opened as may be.
    TooMany,
    /// The session of the name has answered `quit`.
    Over,
}

impl Refusal {
    ghost use Rattle.std.specs.Prelude.{◌≡◌};
    ghost use Rattle.palm_hub.specs.Hub.{refusal_text};

    /// The line that tells it.
    pub(crate) fn text(self) -> &'static [u8]
        ensures { result.now ≡ refusal_text self }
    {
        match self {
            Refusal::NoName => b"hub error H1 no session name\n",
            Refusal::TooMany => b"hub error H2 too many sessions\n",
            Refusal::Over => b"hub error H3 session over\n",
        }
    }
}
