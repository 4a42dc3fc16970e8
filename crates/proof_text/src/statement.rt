//! What a line of a proof says, and how far a proof has come.
use palm_base::{CidList, Sequence, Value};
use palm_claim::Ground;
use palm_read::{Name, NameList};

/// `NAME=VALUE`
#[derive(Debug, Drop)]
pub struct NamedPair {
    pub name: Name,
    pub value: Value,
}

/// Pairs by name.
pub type NamedPairList = Sequence<NamedPair>;

/// What only a line of a proof says.
#[derive(Debug, Drop)]
pub enum ProofPhrase {
    /// `palm-proof 1`
    Header,
    /// `lemma NAME=VALUE NAME=VALUE`, or `lemma` alone
    Lemma(NamedPairList),
    /// `step NAME VALUE`, and its ground
    Step {
        name: Name,
        value: Value,
        ground: Ground,
    },
    /// `wipe NAME`
    Wipe(Name),
    /// `none NAME NAME`, or `none` alone
    Users(NameList),
    /// `end`
    End,
}

/// Which lines a proof has had, in the order of its parts.
#[derive(Debug, Drop)]
pub enum Stage {
    /// No line yet.
    Unopened,
    /// The header, and variables.
    Declaring,
    /// A constraint.
    Listing,
    /// The first line of a lemma, and its steps.
    Reasoning,
    /// The wipe of a lemma.
    Wiped,
    /// The `none` line, which names these users.
    Told(CidList),
    /// The end, behind the `none` line.
    Closed(CidList),
}
