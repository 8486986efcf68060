//! A reader and a writer for the tests. They follow a script, and count the calls that they get by themselves.

ghost use Rattle.std.specs.Prelude.{◌≤◌, length};

use platform_answers::counted::{Input, Output, ReadCounts, WriteCounts};
use std::alloc::Global;
use std::io;
use std::io::{ErrorKind, Read, Write};

/// Calls by their numbers, from `first` on and before `end`. The first call has number 1.
#[derive(Clone, Copy)]
pub struct Calls {
    pub first: u64,
    pub end: u64,
}

/// No call.
pub const NEVER: Calls = Calls { first: 0, end: 0 };

/// Returns the call with this number alone.
pub fn only(number: u64) -> Calls {
    Calls {
        first: number,
        end: number.saturating_add(1),
    }
}

impl Calls {
    fn has(&self, number: u64) -> bool {
        self.first <= number && number < self.end
    }
}

/// Returns the counts of an input, by the calls that return them.
pub fn reads_of<R>(input: &Input<R>) -> ReadCounts {
    ReadCounts {
        reads: input.reads(),
        room: input.room(),
        interrupted_reads: input.interrupted_reads(),
        failed_reads: input.failed_reads(),
        bytes: input.bytes(),
        empty_reads: input.empty_reads(),
    }
}

/// Returns the counts of an output, by the calls that return them.
pub fn writes_of<W>(output: &Output<W>) -> WriteCounts {
    WriteCounts {
        writes: output.writes(),
        interrupted_writes: output.interrupted_writes(),
        failed_writes: output.failed_writes(),
        empty_writes: output.empty_writes(),
        flushes: output.flushes(),
        interrupted_flushes: output.interrupted_flushes(),
        failed_flushes: output.failed_flushes(),
        flushed_writes: output.flushed_writes(),
    }
}

/// A reader that gives a text and then so many times `a`, in pieces of at most `most` bytes. Some of its calls go
/// wrong.
#[derive(Drop)]
pub struct ScriptedReader<'a> {
    pub text: &'a [u8],
    pub letters: u64,
    pub most: usize,
    pub interrupted: Calls,
    pub failing: Calls,
    /// The counts of the calls so far.
    pub counts: ReadCounts,
    /// The number of calls with an empty piece.
    pub empty_pieces: u64,
}

/// Returns a reader of the text and then of `letters` times `a`, none of whose calls goes wrong.
pub fn reader_over(text: &[u8], letters: u64) -> ScriptedReader<'_> {
    ScriptedReader {
        text,
        letters,
        most: usize::MAX,
        interrupted: NEVER,
        failing: NEVER,
        counts: reads_of(&Input::new(())),
        empty_pieces: 0,
    }
}

impl<'a> ScriptedReader<'a> {
    /// Fills the piece as far as the script does, and returns the number of bytes.
    fn give(&mut self, piece: &mut [u8]) -> usize
        ensures { result ≤ length piece.old }
    {
        let most = self.most.min(piece.len());
        for (index, place) in piece[..most].iter_mut().enumerate() {
            if let Some((byte, rest)) = self.text.split_first() {
                *place = *byte;
                self.text = rest;
            } else if self.letters > 0 {
                *place = b'a';
                self.letters -= 1;
            } else {
                return index;
            }
        }
        most
    }
}

impl<'a> Read for ScriptedReader<'a> {
    fn read(&mut self, buf: &mut [u8]) -> io::Result<usize> {
        let counts = &mut self.counts;
        counts.reads = counts.reads.saturating_add(1);
        counts.room = counts.room.saturating_add(buf.len() as u64);
        if buf.is_empty() {
            self.empty_pieces = self.empty_pieces.saturating_add(1);
        }
        if self.interrupted.has(counts.reads) {
            counts.interrupted_reads = counts.interrupted_reads.saturating_add(1);
            return Err(io::Error::from(ErrorKind::Interrupted));
        }
        if self.failing.has(counts.reads) {
            counts.failed_reads = counts.failed_reads.saturating_add(1);
            return Err(io::Error::from(ErrorKind::BrokenPipe));
        }
        let given = self.give(buf);
        self.counts.bytes = self.counts.bytes.saturating_add(given as u64);
        if given == 0 {
            self.counts.empty_reads = self.counts.empty_reads.saturating_add(1);
        }
        Ok(given)
    }
}

/// A writer that takes at most `most` bytes a call. Some of its calls go wrong.
#[derive(Drop)]
pub struct ScriptedWriter {
    pub got: Vec<u8>,
    /// The length of the whole output.
    pub whole: usize,
    pub most: usize,
    pub interrupted: Calls,
    pub failing: Calls,
    pub idle: Calls,
    pub interrupted_flushes: Calls,
    pub failing_flushes: Calls,
    /// The counts of the calls so far.
    pub counts: WriteCounts,
    /// The number of writes that were given something else than all that remained of the output.
    pub partial_writes: u64,
}

/// Returns a writer for an output of this length.
pub fn writer_to(alloc: Global, whole: usize) -> ScriptedWriter {
    ScriptedWriter {
        got: Vec::new(alloc),
        whole,
        most: usize::MAX,
        interrupted: NEVER,
        failing: NEVER,
        idle: NEVER,
        interrupted_flushes: NEVER,
        failing_flushes: NEVER,
        counts: writes_of(&Output::new(())),
        partial_writes: 0,
    }
}

impl Write for ScriptedWriter {
    fn write(&mut self, buf: &[u8]) -> io::Result<usize> {
        let counts = &mut self.counts;
        counts.writes = counts.writes.saturating_add(1);
        if self.got.len().saturating_add(buf.len()) != self.whole {
            self.partial_writes = self.partial_writes.saturating_add(1);
        }
        if self.interrupted.has(counts.writes) {
            counts.interrupted_writes = counts.interrupted_writes.saturating_add(1);
            return Err(io::Error::from(ErrorKind::Interrupted));
        }
        if self.failing.has(counts.writes) {
            counts.failed_writes = counts.failed_writes.saturating_add(1);
            return Err(io::Error::from(ErrorKind::BrokenPipe));
        }
        if self.idle.has(counts.writes) {
            counts.empty_writes = counts.empty_writes.saturating_add(1);
            return Ok(0);
        }
        let most = self.most.min(buf.len());
        self.got.extend_from_slice(&buf[..most])?;
        Ok(most)
    }

    fn flush(&mut self) -> io::Result<()> {
        let counts = &mut self.counts;
        counts.flushes = counts.flushes.saturating_add(1);
        counts.flushed_writes = counts.writes;
        if self.interrupted_flushes.has(counts.flushes) {
            counts.interrupted_flushes = counts.interrupted_flushes.saturating_add(1);
            return Err(io::Error::from(ErrorKind::Interrupted));
        }
        if self.failing_flushes.has(counts.flushes) {
            counts.failed_flushes = counts.failed_flushes.saturating_add(1);
            return Err(io::Error::from(ErrorKind::BrokenPipe));
        }
        Ok(())
    }
}

/// A reader and writer whose calls all fail with an error of this kind.
#[derive(Drop)]
pub struct Failing(pub ErrorKind);

impl Read for Failing {
    fn read(&mut self, _buf: &mut [u8]) -> io::Result<usize> {
        Err(io::Error::from(self.0))
    }
}

impl Write for Failing {
    fn write(&mut self, _buf: &[u8]) -> io::Result<usize> {
        Err(io::Error::from(self.0))
    }

    fn flush(&mut self) -> io::Result<()> {
        Err(io::Error::from(self.0))
    }
}
