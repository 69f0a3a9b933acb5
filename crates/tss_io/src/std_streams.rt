//! A source and a sink over std's `Read` and `Write`: the edge to files, pipes and terminals. They
//! tell no bytes; what std says of the reader's and the writer's bytes, their clauses say of a
//! call. An interrupted call is made again, at most 16 times in a row, and then fails.
ghost use Rattle.std.specs.Io.KnownBytes.{Appends, Keeps, ReadConsumes, WriteAppends};
ghost use Rattle.std.specs.IoError.{error_kind};
ghost use Rattle.std.specs.Prelude.{◌≡◌, ◌≤◌, ◌<◌, ◌↔◌, ℕ, None, length, take, IsTrue, IfOk, OnOk, OnErr, MatchResult};
ghost use Rattle.tss_io.specs.Streams.{next_count};

use crate::faults::Failed;
use crate::sink::Sink;
use crate::source::Source;
use std::io;
use std::io::{ErrorKind, Read, Write};
use std::marker::Model;

// How many times in a row an interrupted call is made again.
const RETRIES: u32 = 16;

// Makes the call, and again where it was interrupted. The answer is the last call's.
macro_rules! retrying {
    ($call:expr) => {{
        for _ in 0..RETRIES {
            match $call {
                Err(fault) if is_interrupted(&fault) => {}
                answer => return answer,
            }
        }
        $call
    }};
}

fn is_interrupted(fault: &io::Error) -> bool
    ensures { IsTrue result ↔ (error_kind fault.now ≡ ErrorKind.Interrupted) }
{
    fault.kind() == ErrorKind::Interrupted
}

/// A source that reads by std's `Read`.
#[derive(Drop)]
pub struct StdSource<R> {
    reader: R,
    calls: u64,
    faults: u64,
}

impl<R> Model for StdSource<R> {
    ghost use Rattle.tss_io.specs.Streams.{Counted};

    ghost Value = { Counted R };

    ghost view = { λ s. record { stream = s.reader; calls = s.calls; faults = s.faults } };
}

impl<R: Read> StdSource<R> {
    ghost use Rattle.tss_io.specs.Streams.{Counted};

    /// A source over the reader. It takes no memory.
    pub fn new(reader: R) -> StdSource<R>
        ensures { result ≡ record { stream = reader; calls = 0; faults = 0 } }
    {
        StdSource {
            reader,
            calls: 0,
            faults: 0,
        }
    }
}

impl<R: Read> Source for StdSource<R> {
    ghost left = { λ _. None };

    ghost faults = { λ s. s.faults };

    ghost calls = { λ s. s.calls };

    fn read(&mut self, out: &mut [u8]) -> Result<usize, Failed>
        requires { 0 < length out.old }
        ensures within { IfOk result (λ n. n ≤ length out.new) }
        ensures never_falls { self.old.faults ≤ self.new.faults }

        // Beyond the trait: what the reader gave, none only at its end, and nothing on `Failed`;
        // and the exact counts.
        ensures given { ReadConsumes (R.remaining self.old.stream)
            (R.remaining self.new.stream) result out.new }
        ensures counted { self.new.calls ≡ next_count self.old.calls }
        ensures ok { OnOk result (self.new.faults ≡ self.old.faults) }
        ensures err { OnErr result (self.new.faults ≡ next_count self.old.faults) }
    {
        self.calls = self.calls.saturating_add(1);
        let answer = read_retrying(&mut self.reader, out);
        if answer.is_err() {
            self.faults = self.faults.saturating_add(1);
        }
        answer.map_err(|_| Failed)
    }
}

fn read_retrying<R: Read>(reader: &mut R, out: &mut [u8]) -> io::Result<usize>
    ensures within { IfOk result (λ n. n ≤ length out.new) }
    ensures given { ReadConsumes (R.remaining reader.old) (R.remaining reader.new) result out.new }
{
    retrying!(reader.read(out))
}

/// A sink that writes by std's `Write`, and flushes after each write. A write that takes nothing
/// fails.
#[derive(Drop)]
pub struct StdSink<W> {
    writer: W,
    calls: u64,
    faults: u64,
}

impl<W> Model for StdSink<W> {
    ghost use Rattle.tss_io.specs.Streams.{Counted};

    ghost Value = { Counted W };

    ghost view = { λ s. record { stream = s.writer; calls = s.calls; faults = s.faults } };
}

impl<W: Write> StdSink<W> {
    ghost use Rattle.tss_io.specs.Streams.{Counted};

    /// A sink over the writer. It takes no memory.
    pub fn new(writer: W) -> StdSink<W>
        ensures { result ≡ record { stream = writer; calls = 0; faults = 0 } }
    {
        StdSink {
            writer,
            calls: 0,
            faults: 0,
        }
    }
}

impl<W: Write> Sink for StdSink<W> {
    ghost taken = { λ _. None };

    ghost faults = { λ s. s.faults };

    ghost calls = { λ s. s.calls };

    fn put(&mut self, piece: &[u8]) -> Result<usize, Failed>
        requires { 0 < length piece.now }
        ensures progress { IfOk result (λ n. 1 ≤ n) }
        ensures within { IfOk result (λ n. n ≤ length piece.now) }
        ensures never_falls { self.old.faults ≤ self.new.faults }

        // Beyond the trait: what the writer took, on `Failed` a front of the piece, since the flush
        // may have failed; and the exact counts.
        ensures gained { IfOk result (λ n.
            Appends (W.contents self.old.stream) (W.contents self.new.stream) (take n piece.now)) }
        ensures front { OnErr result ((n : ℕ)
            × Appends (W.contents self.old.stream) (W.contents self.new.stream)
            (take n piece.now)) }
        ensures counted { self.new.calls ≡ next_count self.old.calls }
        ensures ok { OnOk result (self.new.faults ≡ self.old.faults) }
        ensures err { OnErr result (self.new.faults ≡ next_count self.old.faults) }
    {
        self.calls = self.calls.saturating_add(1);
        let answer = write_and_flush(&mut self.writer, piece);
        if answer.is_err() {
            self.faults = self.faults.saturating_add(1);
        }
        answer
    }
}

fn write_and_flush<W: Write>(writer: &mut W, piece: &[u8]) -> Result<usize, Failed>
    ensures progress { IfOk result (λ n. 1 ≤ n) }
    ensures within { IfOk result (λ n. n ≤ length piece.now) }
    ensures gained { IfOk result
        (λ n. Appends (W.contents writer.old) (W.contents writer.new) (take n piece.now)) }
    ensures front { OnErr result
        ((n : ℕ) × Appends (W.contents writer.old) (W.contents writer.new) (take n piece.now)) }
{
    let Ok(count) = write_retrying(writer, piece) else {
        return Err(Failed);
    };
    if count == 0 || flush_retrying(writer).is_err() {
        return Err(Failed);
    }
    Ok(count)
}

fn write_retrying<W: Write>(writer: &mut W, piece: &[u8]) -> io::Result<usize>
    ensures within { IfOk result (λ n. n ≤ length piece.now) }
    ensures gained { WriteAppends (W.contents writer.old) (W.contents writer.new) result piece.now }
{
    retrying!(writer.write(piece))
}

fn flush_retrying<W: Write>(writer: &mut W) -> io::Result<()>
    ensures kept { Keeps (W.contents writer.old) (W.contents writer.new) }
{
    retrying!(writer.flush())
}
