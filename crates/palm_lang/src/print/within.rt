//! That a variable has a value of a domain, at the end of what was written.
#![tactic(auto, using(crate::proofs::PrintLemmas::keeping))]

ghost use Rattle.palm_lang.specs.Print.{Puts};
ghost use Rattle.palm_read.specs.Interval.{domain_with};
ghost use Rattle.palm_read.specs.Within.{within_words};
ghost use Rattle.palm_read.specs.Words.{spaced};

use crate::print::domains::{put_domain, put_values};
use crate::print::words::{put_name, put_text};
use palm_base::{NoMemory, Value};
use palm_read::{DomainText, Name};

/// `x in 1..3` or `x in {1,3}`, as a line writes it
pub(crate) fn put_within(
    name: &Name,
    domain: &DomainText,
    out: &mut Vec<u8>,
) -> Result<(), NoMemory>
    ensures { Puts out.old.items out.new.items (spaced (within_words name.now domain.now)) result }
{
    put_name(name, out)?;
    put_text(" in ", out)?;
    put_domain(domain, out)
}

/// `x in 1..3` or `x in {1,3}`, of ascending values
pub(crate) fn put_within_con(
    name: &Name,
    values: &[Value],
    out: &mut Vec<u8>,
) -> Result<(), NoMemory>
    ensures { Puts out.old.items out.new.items (spaced (within_words name.now (domain_with values.now))) result }
{
    put_name(name, out)?;
    put_text(" in ", out)?;
    put_values(values, out)
}
