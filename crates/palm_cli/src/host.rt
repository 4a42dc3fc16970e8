//! What the program does with what its host gives it: words and streams in, a status out.
ghost use Rattle.std.specs.Prelude.{◌≡◌, ℕ, map, string_bytes, drop, IfOk};
ghost use Rattle.std.specs.Vec.Iter.{into_iter_items};
ghost use Rattle.palm_session.specs.Objects.{numbered};
ghost use Rattle.palm_pump.specs.Streams.{streams};
ghost use Rattle.palm_cli.specs.Commands.{Generates, JudgesSource, Refuses, Runs};
ghost use Rattle.palm_cli.specs.Host.{LacksMemory, words_told};
ghost use Rattle.palm_cli.specs.Stock.{RunsStock};
ghost use Rattle.palm_cli.specs.Words.{IsGen, IsJudge, IsNoCommand, IsRun};
ghost use Rattle.palm_cli.specs.declared.status.Status.TheVariants as statuses;
ghost use Rattle.palm_cli.specs.declared.words.Evidence.{Evidence};

use crate::command::top;
use crate::status::Status;
use crate::stock::{stock_guides, stock_orders};
use palm_base::{NoMemory, Sink, Source};
use std::alloc::Global;
use std::env::Args;
use std::io;
use std::io::ErrorKind;

/// Does what the words after the program's name say, with the stock guides and orders, and answers how that ended.
/// Words that are no text count as none at all, so that the usage line answers them.
pub fn program<S: Source, K: Sink>(
    alloc: Global,
    args: io::Result<Args>,
    source: &mut S,
    sink: &mut K,
) -> Status
    ensures runs { IsRun (words_told args) →
        Runs (numbered 3) (numbered 2)
        (streams (S.state source.old) (K.state sink.old)) (streams (S.state source.new) (K.state sink.new)) result }
    ensures led { IsRun (words_told args) →
        RunsStock (streams (S.state source.old) (K.state sink.old)) (streams (S.state source.new) (K.state sink.new)) result }
    ensures judges { (evidence : Evidence) → IsJudge (words_told args) evidence →
        JudgesSource evidence (streams (S.state source.old) (K.state sink.old)) (streams (S.state source.new) (K.state sink.new)) result }
    ensures generates { (size : ℕ) → IsGen (words_told args) size →
        Generates size (streams (S.state source.old) (K.state sink.old)) (streams (S.state source.new) (K.state sink.new)) result }
    ensures refuses { IsNoCommand (words_told args) →
        Refuses (streams (S.state source.old) (K.state sink.old)) (streams (S.state source.new) (K.state sink.new)) result }
    // Without memory for the words nothing is done.
    ensures lacks { LacksMemory args → (result ≡ statuses.NoMemory)
        × (streams (S.state source.new) (K.state sink.new) ≡ streams (S.state source.old) (K.state sink.old)) }
{
    let Ok(words) = words_of(alloc, args) else {
        return Status::NoMemory;
    };
    let Ok(guides) = stock_guides(alloc) else {
        return Status::NoMemory;
    };
    let Ok(orders) = stock_orders(alloc) else {
        return Status::NoMemory;
    };
    top(alloc, &words, source, sink, guides, orders)
}

/// The words after the program's name, and none where they are no text.
fn words_of(alloc: Global, args: io::Result<Args>) -> Result<Vec<String>, NoMemory>
    ensures told { IfOk result (λ words. map string_bytes words.items ≡ words_told args) }
    ensures some { IfOk result (λ words. LacksMemory args → ⊥) }
{
    match args {
        Ok(args) => behind_first(alloc, args),
        Err(error) if error.kind() == ErrorKind::OutOfMemory => Err(NoMemory),
        Err(_) => Ok(Vec::new(alloc)),
    }
}

/// The words behind the first one.
fn behind_first(alloc: Global, mut args: Args) -> Result<Vec<String>, NoMemory>
    ensures { IfOk result (λ words. words.items ≡ drop 1 (into_iter_items args)) }
{
    let mut words = Vec::new(alloc);
    let _ = args.next();
    while let Some(word) = args.next() {
        words.push(word)?;
    }
    Ok(words)
}
