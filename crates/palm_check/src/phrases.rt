//! Reading steps and claims.
ghost use Rattle.palm_claim.specs.Reader.{claim_at, step_at};
ghost use Rattle.palm_read.specs.Reader.Held.{Gives};

use palm_claim::CertificatePhrase;
use palm_read::{Cursor, LineError, Name};
use std::alloc::Global;
use text_check::{read_reasons, read_value};

/// Reads a name, a value, `by` and the reasons.
#[tactic(auto, unfolding(palm_claim::specs::Reader::step_at, palm_read::specs::Reader::Steps::and_then))]
pub fn step(cursor: &mut Cursor<'_>, alloc: Global) -> Result<CertificatePhrase, LineError>
    ensures { Gives (λ phrase. phrase) result cursor.new (step_at cursor.old) }
{
    let name = cursor.owned_name(alloc)?;
    let value = read_value(cursor)?;
    cursor.keyword(b"by")?;
    let by = cursor.owned_name(alloc)?;
    let reasons = read_reasons(cursor, alloc)?;
    Ok(CertificatePhrase::Step {
        name,
        value,
        by,
        reasons,
    })
}

/// Reads `conflict` and a name, or a name and a value.
#[tactic(auto, unfolding(palm_claim::specs::Reader::claim_at, palm_read::specs::Reader::Steps::and_then, palm_read::specs::Reader::Steps::when, palm_read::specs::Reader::Steps::choose))]
pub fn claim(cursor: &mut Cursor<'_>, alloc: Global) -> Result<CertificatePhrase, LineError>
    ensures { Gives (λ phrase. phrase) result cursor.new (claim_at cursor.old) }
{
    let first = cursor.owned_name(alloc)?;
    let Some(second) = cursor.name() else {
        let value = read_value(cursor)?;
        return Ok(CertificatePhrase::ValueClaim { name: first, value });
    };
    if first.as_slice() != b"conflict".as_slice() {
        return Err(LineError::Form);
    }
    let name = Name::from_slice(alloc, second)?;
    Ok(CertificatePhrase::ConflictClaim(name))
}
