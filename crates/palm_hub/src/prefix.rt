//! A sink that writes a prefix before each line.
ghost use Rattle.std.specs.Prelude.{◌≡◌, ◌≢◌, ◌<◌, ◌≤◌, ◌&&◌, false, length, take, All, IfNone, IfOk, IfSome};
ghost use Rattle.palm_base.specs.Streams.{HasCause, IsSameSink};
ghost use Rattle.palm_hub.specs.Prefixed.{Extends, IsLineOf, WritesMarked, due, is_calm, rebuilt, shown_behind};

use palm_base::{Failed, Sink};
use std::marker::{Brand, PhantomData};

/// What stood there when a sink with a prefix was made: the bytes that the sink behind it told, its count of faults, and the
/// prefix.
pub trait Start {
    ghost use Rattle.std.specs.Prelude.{ℕ, List, Option};

    ghost written: { Option (List ℕ) };

    ghost faults: { ℕ };

    ghost prefix: { List ℕ };
}

impl Start for Brand {
    ghost use Rattle.std.specs.Prelude.{[], None};

    ghost written = { None };

    ghost faults = { 0 };

    ghost prefix = { [] };
}

/// A sink before another one. Its bytes written are the bytes that were sent to it; the sink behind it gets them with the
/// prefix before each line. Its count of faults is that of the sink behind it.
///
/// What the sink behind it tells can always be built again of what was sent (`built`). Where a line begins, nothing of a
/// prefix stands behind the last line feed (`proper`), unless a write failed within a prefix, and then the count of faults
/// rose (`cause`).
#[derive(Drop)]
pub struct PrefixSink<'a, 'b, K: Sink, B: Start> {
    inner: &'a mut K,
    prefix: &'b [u8],
    shown: usize,
    torn: bool,
    of: PhantomData<B>,
    ghost same: { prefix.now ≡ B.prefix },
    ghost few: { shown ≤ length B.prefix },
    ghost built: { rebuilt B.written B.prefix shown (K.state inner.now).written ≡ (K.state inner.now).written },
    ghost proper: { shown ≡ due B.written B.prefix torn shown (K.state inner.now).written },
    ghost later: { B.faults ≤ (K.state inner.now).faults },
    ghost cause: { torn && is_calm B.faults (K.state inner.now).faults ≡ false },
}

impl<'a, 'b, K: Sink, B: Start> PrefixSink<'a, 'b, K, B> {
    /// A sink before this one, at the beginning of a line.
    pub fn new(inner: &'a mut K, prefix: &'b [u8]) -> PrefixSink<'a, 'b, K, B>
        requires written { (K.state inner.old).written ≡ B.written }
        requires faults { (K.state inner.old).faults ≡ B.faults }
        requires prefix { prefix.now ≡ B.prefix }
        ensures same { result.inner.ghost_name ≡ inner.entry.ghost_name }
        ensures inner { result.inner.now ≡ inner.old }
        ensures whole { result.torn ≡ false }
    {
        PrefixSink {
            inner,
            prefix,
            shown: 0,
            torn: false,
            of: PhantomData,
        }
    }
}

impl<'a, 'b, K: Sink, B: Start> Sink for PrefixSink<'a, 'b, K, B> {
    ghost use Rattle.palm_hub.specs.Prefixed.{prefixed};

    ghost state = { λ s. prefixed B.written B.prefix s.inner.ghost_name s.torn (K.state s.inner.now) };

    fn write(&mut self, piece: &[u8]) -> Result<usize, Failed> {
        let line = first_line(piece);
        let (shown, written) = write_line(self.inner, self.prefix, self.shown, line);
        self.shown = shown;
        self.torn |= written.is_err();
        written
    }
}

/// The place of the first line feed.
fn feed_place(piece: &[u8]) -> Option<usize>
    ensures found { IfSome result (λ end. (end < length piece.now) × All (λ b. b ≢ 10) (take end piece.now)) }
    ensures none { IfNone result (All (λ b. b ≢ 10) piece.now) }
{
    piece.iter().position(|b| *b == b'\n')
}

/// The first line of a piece with its line feed, or all of it.
fn first_line(piece: &[u8]) -> &[u8]
    requires { 0 < length piece.now }
    ensures { IsLineOf result.now piece.now }
{
    match feed_place(piece) {
        Some(end) => &piece[..end + 1],
        None => piece,
    }
}

/// Writes what is missing of a prefix, and tells how much of it stands there then.
fn show<K: Sink>(inner: &mut K, prefix: &[u8], before: usize) -> (usize, Result<(), Failed>)
    requires { before ≤ length prefix.now }
    ensures cause { HasCause (K.state inner.old).faults (K.state inner.new).faults result.1 }
    ensures stands { IsSameSink (K.state inner.old) (K.state inner.new) result.1 }
    ensures bytes { Extends (K.state inner.old).written (K.state inner.new).written prefix.now before result.0 }
    ensures all { IfOk result.1 (λ _. result.0 ≡ length prefix.now) }
{
    let mut shown = before;
    while shown < prefix.len() {
        match inner.write(&prefix[shown..]) {
            Ok(count) => shown += count,
            Err(failed) => return (shown, Err(failed)),
        }
    }
    (shown, Ok(()))
}

/// Writes what is missing of a prefix, and then bytes of a line. It tells how much of a prefix stands there then.
fn write_line<K: Sink>(
    inner: &mut K,
    prefix: &[u8],
    before: usize,
    line: &[u8],
) -> (usize, Result<usize, Failed>)
    requires few { before ≤ length prefix.now }
    requires some { 0 < length line.now }
    ensures cause { HasCause (K.state inner.old).faults (K.state inner.new).faults result.1 }
    ensures stands { IsSameSink (K.state inner.old) (K.state inner.new) result.1 }
    ensures bytes { WritesMarked (K.state inner.old).written (K.state inner.new).written prefix.now before line.now result.0 result.1 }
{
    let (shown, whole) = show(inner, prefix, before);
    if let Err(failed) = whole {
        return (shown, Err(failed));
    }
    match inner.write(line) {
        Ok(count) => (next_shown(prefix, &line[..count]), Ok(count)),
        Err(failed) => (shown, Err(failed)),
    }
}

/// How much of a prefix stands behind bytes of a line: none behind a line feed, and in the line all of it.
fn next_shown(prefix: &[u8], bytes: &[u8]) -> usize
    ensures { result ≡ shown_behind prefix.now bytes.now }
{
    if bytes.ends_with(b"\n") {
        0
    } else {
        prefix.len()
    }
}
