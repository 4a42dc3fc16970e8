//! Reading steps and pairs.
ghost use Rattle.palm_read.specs.Reader.Held.{Gives};
ghost use Rattle.proof_text.specs.Reader.{ground_at, of_lemma_at, step_at};

use palm_claim::Ground;
use palm_read::{Cursor, LineError, Name};
use proof_text::{NamedPair, ProofPhrase};
use std::alloc::Global;
use text_check::{Items, number_up_to, read_reasons, read_value};

/// Reads a name, a value and why the step takes the pair out.
#[tactic(auto, unfolding(proof_text::specs::Reader::step_at, palm_read::specs::Reader::Steps::and_then))]
pub fn step(cursor: &mut Cursor<'_>, alloc: Global) -> Result<ProofPhrase, LineError>
    ensures { Gives (λ phrase. phrase) result cursor.new (step_at cursor.old) }
{
    let name = cursor.owned_name(alloc)?;
    let value = read_value(cursor)?;
    let ground = step_ground(cursor, alloc)?;
    Ok(ProofPhrase::Step {
        name,
        value,
        ground,
    })
}

/// Reads why a step takes its pair out.
#[tactic(auto, unfolding(proof_text::specs::Reader::ground_at, proof_text::specs::Reader::by_at, palm_read::specs::Reader::Steps::and_then, palm_read::specs::Reader::Steps::when))]
fn step_ground(cursor: &mut Cursor<'_>, alloc: Global) -> Result<Ground, LineError>
    ensures { Gives (λ why. why) result cursor.new (ground_at cursor.old) }
{
    if cursor.takes_word(b"by") {
        let name = cursor.owned_name(alloc)?;
        let reasons = read_reasons(cursor, alloc)?;
        Ok(Ground::By { name, reasons })
    } else if cursor.takes_word(b"assume") {
        Ok(Ground::Assumed)
    } else {
        of_lemma(cursor)
    }
}

/// Reads `lemma` and a number.
#[tactic(auto, unfolding(proof_text::specs::Reader::of_lemma_at, proof_text::specs::Reader::lemma_number_at, palm_read::specs::Reader::Steps::and_then, palm_read::specs::Reader::Steps::choose))]
fn of_lemma(cursor: &mut Cursor<'_>) -> Result<Ground, LineError>
    ensures { Gives (λ why. why) result cursor.new (of_lemma_at cursor.old) }
{
    cursor.keyword(b"lemma")?;
    let Some(digits) = cursor.digits() else {
        return Err(LineError::Form);
    };
    match number_up_to(u64::MAX, digits) {
        Some(number) => Ok(Ground::OfLemma(number)),
        None => Err(LineError::Form),
    }
}

/// Pairs of names and values, with `=` between them.
pub struct NamedPairs;

impl Items for NamedPairs {
    ghost use Rattle.palm_read.proofs.cited.Many.{item_shortens};
    ghost use Rattle.proof_text.proofs.cited.Phrases.{pair_item};
    ghost use Rattle.proof_text.specs.Reader.{next_pair};

    #[tactic(auto, unfolding(proof_text::specs::Reader::next_pair, palm_read::specs::Reader::Steps::and_then, palm_read::specs::Reader::Steps::when))]
    fn next(cursor: &mut Cursor<'_>, alloc: Global) -> Result<Option<NamedPair>, LineError> {
        let Some(text) = cursor.name() else {
            return Ok(None);
        };
        let name = Name::from_slice(alloc, text)?;
        cursor.sign(b"=")?;
        let value = read_value(cursor)?;
        Ok(Some(NamedPair { name, value }))
    }

    ghost next_at = { next_pair };

    ghost shortens = { item_shortens pair_item };

    type Item = NamedPair;
}
