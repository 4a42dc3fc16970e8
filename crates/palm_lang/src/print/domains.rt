//! Domains at the end of what was written.
#![tactic(auto, using(crate::proofs::PrintLemmas::keeping))]

ghost use Rattle.palm_lang.specs.Print.{Puts};
ghost use Rattle.palm_read.specs.Domain.{domain_text};
ghost use Rattle.palm_read.specs.Interval.{values_text};

use crate::print::lists::{put_range, put_set};
use palm_base::{NoMemory, Value};
use palm_read::{DomainText, is_interval};

/// A domain as a line writes it.
pub(crate) fn put_domain(domain: &DomainText, out: &mut Vec<u8>) -> Result<(), NoMemory>
    ensures { Puts out.old.items out.new.items (domain_text domain.now) result }
{
    match domain {
        DomainText::Range { low, high } => put_range(low, high, out),
        DomainText::Set(values) => put_set(values.as_slice(), out),
    }
}

/// `LO..HI` where the values are all from LO to HI, and else `{v,v}`
pub(crate) fn put_values(values: &[Value], out: &mut Vec<u8>) -> Result<(), NoMemory>
    ensures { Puts out.old.items out.new.items (values_text values.now) result }
{
    if is_interval(values) {
        put_range(&values[0], &values[values.len() - 1], out)
    } else {
        put_set(values, out)
    }
}
