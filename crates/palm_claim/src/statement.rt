//! What a line says, in a certificate or in a proof, and how far a certificate has come.
use crate::ground::StepList;
use crate::verdict::Claim;
use palm_base::Value;
use palm_read::{DomainText, Name, Shape};

/// What a line of such a text says: what a line of a session may say there, or a phrase, which no session has.
#[derive(Drop)]
pub enum Statement<P> {
    /// A blank line, or one whose first byte that is no blank is `#`.
    Comment,
    /// `var NAME DOMAIN`
    Variable { name: Name, domain: DomainText },
    /// `add NAME : CONSTRAINT`
    Constraint { name: Name, shape: Shape },
    /// What only lines of such texts say.
    Phrase(P),
}

/// What only a line of a certificate says.
#[derive(Debug, Drop)]
pub enum CertificatePhrase {
    /// `palm-cert 1`
    Header,
    /// `step NAME VALUE by NAME`, with ` from K K K` where it has reasons
    Step {
        name: Name,
        value: Value,
        by: Name,
        reasons: StepList,
    },
    /// `claim NAME VALUE`
    ValueClaim {
        name: Name,
        value: Value,
    },
    /// `claim conflict NAME`
    ConflictClaim(Name),
    /// `end`
    End,
}

/// Which lines a certificate has had, in the order of its parts.
#[derive(Debug, Drop)]
pub enum Stage {
    /// No line yet.
    Unopened,
    /// The header, and variables.
    Declaring,
    /// A constraint.
    Listing,
    /// A step.
    Proving,
    /// The claim.
    Claimed(Claim),
    /// The end, behind the claim.
    Closed(Claim),
}
