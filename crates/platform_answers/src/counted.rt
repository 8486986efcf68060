//! A reader and a writer that count the calls that they get, and the results of these.
//!
//! No clause can say how many calls of the wrapped reader or writer are made for one of these calls, nor with which
//! piece. The tests compare the counts with the calls that a reader and a writer got.
ghost use Rattle.std.specs.Prelude.{◌≡◌, ◌≢◌, ◌↔◌, ◌<◌, IsTrue, IfOk, IfErr, OnOk, length};
ghost use Rattle.std.specs.Io.{ReadsAtMost, WritesAtMost};
ghost use Rattle.std.specs.Io.KnownBytes.{Keeps, ReadConsumes, WriteAppends};
ghost use Rattle.std.specs.IoError.{error_kind};
ghost use Rattle.platform_answers.specs.Counts.{reader_of, read_counts, writer_of, write_counts};
ghost use Rattle.platform_answers.specs.Counts.{no_reads, after_read, after_interrupted_read, after_failed_read};
ghost use Rattle.platform_answers.specs.Counts.{no_writes, after_write, after_interrupted_write, after_failed_write};
ghost use Rattle.platform_answers.specs.Counts.{after_flush, after_interrupted_flush, after_failed_flush};

use std::io;
use std::io::{ErrorKind, Read, Write};

/// The counts of reads. Each count stays at its greatest value once it has reached it.
#[derive(Clone, Copy, Debug, PartialEq, Eq)]
pub struct ReadCounts {
    /// The reads that were requested.
    pub reads: u64,
    /// The bytes that the reads had room for.
    pub room: u64,
    /// The reads that were interrupted.
    pub interrupted_reads: u64,
    /// The reads that failed otherwise.
    pub failed_reads: u64,
    /// The bytes that the reads returned.
    pub bytes: u64,
    /// The reads that returned no byte.
    pub empty_reads: u64,
}

/// The counts of writes and flushes. Each count stays at its greatest value once it has reached it.
#[derive(Clone, Copy, Debug, PartialEq, Eq)]
pub struct WriteCounts {
    /// The writes that were requested.
    pub writes: u64,
    /// The writes that were interrupted.
    pub interrupted_writes: u64,
    /// The writes that failed otherwise.
    pub failed_writes: u64,
    /// The writes that took no byte of a piece that is not empty.
    pub empty_writes: u64,
    /// The flushes that were requested.
    pub flushes: u64,
    /// The flushes that were interrupted.
    pub interrupted_flushes: u64,
    /// The flushes that failed otherwise.
    pub failed_flushes: u64,
    /// The writes before the last flush.
    pub flushed_writes: u64,
}

/// A reader whose reads are counted.
#[derive(Drop)]
pub struct Input<R> {
    reader: R,
    counts: ReadCounts,
}

/// A writer whose writes and flushes are counted.
#[derive(Drop)]
pub struct Output<W> {
    writer: W,
    counts: WriteCounts,
}

/// Returns whether the call was only interrupted, and can be made again.
pub fn is_interrupted(e: &io::Error) -> bool
    ensures { IsTrue result ↔ (error_kind e.now ≡ ErrorKind.Interrupted) }
{
    e.kind() == ErrorKind::Interrupted
}

impl<R> Input<R> {
    /// Wraps a reader, with all counts at 0.
    pub fn new(reader: R) -> Input<R>
        ensures reader { reader_of result ≡ reader }
        ensures counts { read_counts result ≡ no_reads }
    {
        Input {
            reader,
            counts: ReadCounts {
                reads: 0,
                room: 0,
                interrupted_reads: 0,
                failed_reads: 0,
                bytes: 0,
                empty_reads: 0,
            },
        }
    }

    /// Returns the number of reads that were requested.
    pub fn reads(&self) -> u64
        ensures { result ≡ (read_counts self.now).reads }
    {
        self.counts.reads
    }

    /// Returns the number of bytes that the reads had room for.
    pub fn room(&self) -> u64
        ensures { result ≡ (read_counts self.now).room }
    {
        self.counts.room
    }

    /// Returns the number of reads that were interrupted.
    pub fn interrupted_reads(&self) -> u64
        ensures { result ≡ (read_counts self.now).interrupted_reads }
    {
        self.counts.interrupted_reads
    }

    /// Returns the number of reads that failed otherwise.
    pub fn failed_reads(&self) -> u64
        ensures { result ≡ (read_counts self.now).failed_reads }
    {
        self.counts.failed_reads
    }

    /// Returns the number of bytes that the reads returned.
    pub fn bytes(&self) -> u64
        ensures { result ≡ (read_counts self.now).bytes }
    {
        self.counts.bytes
    }

    /// Returns the number of reads that returned no byte.
    pub fn empty_reads(&self) -> u64
        ensures { result ≡ (read_counts self.now).empty_reads }
    {
        self.counts.empty_reads
    }
}

impl<R: Read> Input<R> {
    /// Reads into the piece, which is not empty, and counts one read and its room. Returns the number of bytes that
    /// were read, which is 0 at the end. An error is counted by its kind.
    pub fn read(&mut self, piece: &mut [u8]) -> io::Result<usize>
        requires { 0 < length piece.old }
        ensures bound { ReadsAtMost result piece.new }
        ensures bytes { ReadConsumes (R.remaining (reader_of self.old))
            (R.remaining (reader_of self.new)) result piece.new }
        ensures ok { IfOk result (λ n. read_counts self.new
            ≡ after_read (length piece.old) n (read_counts self.old)) }
        ensures interrupted { IfErr result
            (λ e. error_kind e ≡ ErrorKind.Interrupted
            → read_counts self.new ≡ after_interrupted_read (length piece.old) (read_counts self.old)) }
        ensures failed { IfErr result
            (λ e. error_kind e ≢ ErrorKind.Interrupted
            → read_counts self.new ≡ after_failed_read (length piece.old) (read_counts self.old)) }
    {
        let room = piece.len() as u64;
        let outcome = self.reader.read(piece);
        let counts = &mut self.counts;
        counts.reads = counts.reads.saturating_add(1);
        counts.room = counts.room.saturating_add(room);
        match outcome {
            Ok(n) => {
                counts.bytes = counts.bytes.saturating_add(n as u64);
                if n == 0 {
                    counts.empty_reads = counts.empty_reads.saturating_add(1);
                }
                Ok(n)
            }
            Err(e) => {
                if is_interrupted(&e) {
                    counts.interrupted_reads = counts.interrupted_reads.saturating_add(1);
                } else {
                    counts.failed_reads = counts.failed_reads.saturating_add(1);
                }
                Err(e)
            }
        }
    }
}

impl<W> Output<W> {
    /// Wraps a writer, with all counts at 0.
    pub fn new(writer: W) -> Output<W>
        ensures writer { writer_of result ≡ writer }
        ensures counts { write_counts result ≡ no_writes }
    {
        Output {
            writer,
            counts: WriteCounts {
                writes: 0,
                interrupted_writes: 0,
                failed_writes: 0,
                empty_writes: 0,
                flushes: 0,
                interrupted_flushes: 0,
                failed_flushes: 0,
                flushed_writes: 0,
            },
        }
    }

    /// Returns the number of writes that were requested.
    pub fn writes(&self) -> u64
        ensures { result ≡ (write_counts self.now).writes }
    {
        self.counts.writes
    }

    /// Returns the number of writes that were interrupted.
    pub fn interrupted_writes(&self) -> u64
        ensures { result ≡ (write_counts self.now).interrupted_writes }
    {
        self.counts.interrupted_writes
    }

    /// Returns the number of writes that failed otherwise.
    pub fn failed_writes(&self) -> u64
        ensures { result ≡ (write_counts self.now).failed_writes }
    {
        self.counts.failed_writes
    }

    /// Returns the number of writes that took no byte of a piece that is not empty.
    pub fn empty_writes(&self) -> u64
        ensures { result ≡ (write_counts self.now).empty_writes }
    {
        self.counts.empty_writes
    }

    /// Returns the number of flushes that were requested.
    pub fn flushes(&self) -> u64
        ensures { result ≡ (write_counts self.now).flushes }
    {
        self.counts.flushes
    }

    /// Returns the number of flushes that were interrupted.
    pub fn interrupted_flushes(&self) -> u64
        ensures { result ≡ (write_counts self.now).interrupted_flushes }
    {
        self.counts.interrupted_flushes
    }

    /// Returns the number of flushes that failed otherwise.
    pub fn failed_flushes(&self) -> u64
        ensures { result ≡ (write_counts self.now).failed_flushes }
    {
        self.counts.failed_flushes
    }

    /// Returns the number of writes before the last flush.
    pub fn flushed_writes(&self) -> u64
        ensures { result ≡ (write_counts self.now).flushed_writes }
    {
        self.counts.flushed_writes
    }
}

impl<W: Write> Output<W> {
    /// Writes the piece, and counts one write. Returns the number of its bytes that were taken; a write that takes none
    /// of a piece that is not empty is counted as an empty write. An error is counted by its kind.
    pub fn write(&mut self, piece: &[u8]) -> io::Result<usize>
        ensures bound { WritesAtMost result piece.now }
        ensures bytes { WriteAppends (W.contents (writer_of self.old))
            (W.contents (writer_of self.new)) result piece.now }
        ensures ok { IfOk result (λ n. write_counts self.new
            ≡ after_write (length piece.now) n (write_counts self.old)) }
        ensures interrupted { IfErr result
            (λ e. error_kind e ≡ ErrorKind.Interrupted
            → write_counts self.new ≡ after_interrupted_write (write_counts self.old)) }
        ensures failed { IfErr result
            (λ e. error_kind e ≢ ErrorKind.Interrupted
            → write_counts self.new ≡ after_failed_write (write_counts self.old)) }
    {
        let outcome = self.writer.write(piece);
        let counts = &mut self.counts;
        counts.writes = counts.writes.saturating_add(1);
        match outcome {
            Ok(n) => {
                if n == 0 && !piece.is_empty() {
                    counts.empty_writes = counts.empty_writes.saturating_add(1);
                }
                Ok(n)
            }
            Err(e) => {
                if is_interrupted(&e) {
                    counts.interrupted_writes = counts.interrupted_writes.saturating_add(1);
                } else {
                    counts.failed_writes = counts.failed_writes.saturating_add(1);
                }
                Err(e)
            }
        }
    }

    /// Flushes, and counts one flush. An error is counted by its kind.
    pub fn flush(&mut self) -> io::Result<()>
        ensures bytes { Keeps (W.contents (writer_of self.old)) (W.contents (writer_of self.new)) }
        ensures ok { OnOk result (write_counts self.new ≡ after_flush (write_counts self.old)) }
        ensures interrupted { IfErr result
            (λ e. error_kind e ≡ ErrorKind.Interrupted
            → write_counts self.new ≡ after_interrupted_flush (write_counts self.old)) }
        ensures failed { IfErr result
            (λ e. error_kind e ≢ ErrorKind.Interrupted
            → write_counts self.new ≡ after_failed_flush (write_counts self.old)) }
    {
        let outcome = self.writer.flush();
        let counts = &mut self.counts;
        counts.flushes = counts.flushes.saturating_add(1);
        counts.flushed_writes = counts.writes;
        match outcome {
            Ok(()) => Ok(()),
            Err(e) => {
                if is_interrupted(&e) {
                    counts.interrupted_flushes = counts.interrupted_flushes.saturating_add(1);
                } else {
                    counts.failed_flushes = counts.failed_flushes.saturating_add(1);
                }
                Err(e)
            }
        }
    }
}
