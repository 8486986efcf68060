//! Tests of runs in memory: the answers, and runs over readers and writers that go wrong.

use crate::scripted::{
    Calls, Failing, NEVER, ScriptedReader, ScriptedWriter, only, reader_over, reads_of, writer_to,
    writes_of,
};
use platform_answers::counted::{Input, Output, ReadCounts, WriteCounts};
use platform_answers::{Outcome, RunError, run};
use std::alloc::Global;
use std::io;
use std::io::{ErrorKind, Read, Write};
use std::process::Abort;

/// The result of a run, and the counts of its calls.
#[derive(Drop)]
struct Counted {
    ended: Result<Outcome, RunError>,
    reads: ReadCounts,
    writes: WriteCounts,
}

/// Runs over a reader and a writer, and counts the calls.
fn run_counted<R: Read + Drop, W: Write + Drop>(alloc: Global, reader: R, writer: W) -> Counted {
    let mut input = Input::new(reader);
    let mut output = Output::new(writer);
    let ended = run(alloc, &mut input, &mut output);
    Counted {
        ended,
        reads: reads_of(&input),
        writes: writes_of(&output),
    }
}

fn assert_ended(
    rt: &impl Abort,
    ended: Result<Outcome, RunError>,
    want: Result<Outcome, RunError>,
) {
    assert_eq!(rt; ended, want);
}

fn assert_written(rt: &impl Abort, written: &[u8], want: &[u8]) {
    assert_eq!(rt; written, want);
}

fn assert_count(rt: &impl Abort, count: u64, want: u64) {
    assert_eq!(rt; count, want);
}

/// Asserts that the reader got exactly the calls that were counted, none with an empty piece.
fn assert_reads(rt: &impl Abort, reader: &ScriptedReader<'_>, counted: ReadCounts) {
    assert_eq!(rt; reader.counts, counted);
    assert_count(rt, reader.empty_pieces, 0);
}

/// Asserts that the writer got exactly the calls that were counted, and that each write was given all that remained.
fn assert_writes(rt: &impl Abort, writer: &ScriptedWriter, counted: WriteCounts) {
    assert_eq!(rt; writer.counts, counted);
    assert_count(rt, writer.partial_writes, 0);
}

/// Asserts the result of a run over both and its output, and of its calls what `assert_reads` and `assert_writes` do.
fn assert_run(
    rt: &impl Abort,
    alloc: Global,
    reader: &mut ScriptedReader<'_>,
    writer: &mut ScriptedWriter,
    ended: Result<Outcome, RunError>,
    want: &[u8],
) {
    let run = run_counted(alloc, &mut *reader, &mut *writer);
    assert_ended(rt, run.ended, ended);
    assert_reads(rt, reader, run.reads);
    assert_writes(rt, writer, run.writes);
    assert_written(rt, &writer.got, want);
}

/// Asserts the result of a run over the reader, and its output: all of it in one write, which is flushed, and nothing
/// if the run fails.
fn assert_read(
    rt: &impl Abort,
    alloc: Global,
    reader: &mut ScriptedReader<'_>,
    ended: Result<Outcome, RunError>,
    want: &[u8],
) {
    let mut writer = writer_to(alloc, want.len());
    assert_run(rt, alloc, reader, &mut writer, ended, want);
    let calls = u64::from(ended.is_ok());
    assert_count(rt, writer.counts.writes, calls);
    assert_count(rt, writer.counts.flushes, calls);
}

/// Asserts the result of a run over `LINUX` to the writer, the number of its writes and flushes, and its output.
fn assert_linux(
    rt: &impl Abort,
    alloc: Global,
    writer: &mut ScriptedWriter,
    ended: Result<Outcome, RunError>,
    (writes, flushes): (u64, u64),
    want: &[u8],
) {
    assert_run(rt, alloc, &mut reader_over(LINUX, 0), writer, ended, want);
    assert_count(rt, writer.counts.writes, writes);
    assert_count(rt, writer.counts.flushes, flushes);
}

/// Asserts that a run over a text in memory, and one by the script, have this result and exactly this output.
fn assert_answers(rt: &impl Abort, alloc: Global, text: &[u8], outcome: Outcome, want: &[u8]) {
    let mut written = Vec::new(alloc);
    let run = run_counted(alloc, text, &mut written);
    assert_ended(rt, run.ended, Ok(outcome));
    assert_written(rt, &written, want);
    assert_read(rt, alloc, &mut reader_over(text, 0), Ok(outcome), want);
}

/// Asserts the answer in a row: an input, ` => ` and its output. In a row, `|` ends a line.
fn assert_row(rt: &impl Abort, alloc: Global, row: &str, outcome: Outcome) {
    let lines = row.replace(alloc, '|', "\n").expect(rt, "memory");
    let (text, want) = lines.split_once(" => ").expect(rt, row);
    assert_answers(rt, alloc, text.as_bytes(), outcome, want.as_bytes());
}

/// Asserts the answers in the rows of a table, and the number of the rows.
fn assert_rows(rt: &impl Abort, alloc: Global, table: &str, count: u64, outcome: Outcome) {
    assert_count(rt, table.lines().count() as u64, count);
    for row in table.lines() {
        assert_row(rt, alloc, row, outcome);
    }
}

/// A target on which the condition is true by two of its facts.
const LINUX: &[u8] =
    b"cfg(all(unix, target_os = \"linux\"))\nx86_64-unknown-linux-gnu\nunix\ntarget_os=\"linux\"\n";

/// The number of reads of one byte for `LINUX`, the last of which meets the end.
const LINUX_READS: u64 = 85;

/// The number of writes of one byte for `LINUX_MEETS`.
const LINUX_WRITES: u64 = 58;

/// The output for `LINUX`, 58 bytes.
const LINUX_MEETS: &[u8] = b"condition: cfg(all(unix, target_os = \"linux\"))\nmatch: yes\n";

/// The output for the empty input.
const NAMELESS: &[u8] = b"condition: \nmatch: yes\n";

const LONG: &[u8] = b"input is longer than 1048576 bytes\n";

/// Returns the output for `count` times `a`: the letters as the condition, and that it is not true.
fn answer_to_letters(rt: &impl Abort, alloc: Global, count: usize) -> String {
    let letters = "a".repeat(alloc, count).expect(rt, "memory");
    let answer = format!(in alloc; "condition: {letters}\nmatch: no\n");
    answer.expect(rt, "memory")
}

/// Conditions that are true, in rows as `assert_row` reads them.
const MET: &str = "\
| => condition: |match: yes|
cfg( a )|x|r#a| => condition: cfg(a)|match: yes|
unix|unix|a| => condition: unix|match: yes|
a|a => condition: a|match: yes|
x86_64-apple-darwin|x86_64-apple-darwin => condition: x86_64-apple-darwin|match: yes|
cfg(k = \"2\")|x|k = \"1\"|k = \"2\"| => condition: cfg(k = \"2\")|match: yes|
cfg(all(unix, not(windows), ))|x|unix| => condition: cfg(all(unix, not(windows)))|match: yes|
cfg(true)| => condition: cfg(true)|match: yes|
cfg(r#false)|x|false| => condition: cfg(r#false)|match: yes|
cfg(r#true = \"x\")|x|true = \"x\"| => condition: cfg(r#true = \"x\")|match: yes|
cfg(a)|x|all|a| => condition: cfg(a)|match: yes|
";

#[test]
fn conditions_are_met(rt: HostRuntime) {
    assert_answers(&rt, rt.alloc(), LINUX, Outcome::Match, LINUX_MEETS);
    assert_answers(&rt, rt.alloc(), b"", Outcome::Match, NAMELESS);
    assert_rows(&rt, rt.alloc(), MET, 11, Outcome::Match);
}

/// Conditions that are false, in rows as `assert_row` reads them.
const NOT_MET: &str = "\
cfg(unix)|unix| => condition: cfg(unix)|match: no|
a|| => condition: a|match: no|
a|b => condition: a|match: no|
foo|x|foo| => condition: foo|match: no|
caf\u{e9}-1.2|x => condition: caf\u{e9}-1.2|match: no|
x\u{b2}|x => condition: x\u{b2}|match: no|
cfg(k = \"1\")|x|k| => condition: cfg(k = \"1\")|match: no|
cfg(any())|x|unix| => condition: cfg(any())|match: no|
cfg(false)|x|false| => condition: cfg(false)|match: no|
";

#[test]
fn conditions_are_not_met(rt: HostRuntime) {
    assert_rows(&rt, rt.alloc(), NOT_MET, 9, Outcome::NoMatch);
}

/// Inputs whose condition is rejected, in rows as `assert_row` reads them.
const REFUSED_CONDITIONS: &str = "\
!foo|x|unix|| => line 1: failed to parse `!foo` as a cfg expression: invalid target specifier: unexpected character \
    ! in target name|
cfg(true = \"x\")|x|true = \"x\"| => line 1: failed to parse `true = \"x\"` as a cfg expression: unexpected content \
    `= \"x\"` found after cfg expression|
cfg(a b)|x => line 1: failed to parse `a b` as a cfg expression: unexpected content `b` found after cfg expression|
cfg(a) |x| => line 1: failed to parse `cfg(a) ` as a cfg expression: invalid target specifier: unexpected `(` \
    character, cfg expressions must start with `cfg(`|
a\u{20ac}b(|x| => line 1: failed to parse `a\u{20ac}b(` as a cfg expression: invalid target specifier: unexpected \
    `(` character, cfg expressions must start with `cfg(`|
a\u{20ac}b|x| => line 1: failed to parse `a\u{20ac}b` as a cfg expression: invalid target specifier: unexpected \
    character \u{20ac} in target name|
target_os = \"linux\"|x| => line 1: failed to parse `target_os = \"linux\"` as a cfg expression: invalid target \
    specifier: unexpected character   in target name|
a\r|x| => line 1: failed to parse `a\r` as a cfg expression: invalid target specifier: unexpected character \r in \
    target name|
cfg()|x| => line 1: failed to parse `` as a cfg expression: expected start of a cfg expression, but cfg expression \
    ended|
cfg(all)|x|all| => line 1: failed to parse `all` as a cfg expression: expected `(`, but cfg expression ended|
";

#[test]
fn conditions_are_refused(rt: HostRuntime) {
    assert_rows(&rt, rt.alloc(), REFUSED_CONDITIONS, 10, Outcome::Refused);
}

/// Inputs with a fact that is rejected, in rows as `assert_row` reads them.
const REFUSED_FACTS: &str = "\
cfg(unix)|x|unix|| => line 4: failed to parse `` as a cfg expression: expected identifier, but cfg expression ended|
a|b|| => line 3: failed to parse `` as a cfg expression: expected identifier, but cfg expression ended|
7|x|7| => line 3: failed to parse `7` as a cfg expression: unexpected character `7` in cfg, expected parens, a \
    comma, an identifier, or a string|
a|x|all()| => line 3: failed to parse `all()` as a cfg expression: unexpected content `()` found after cfg \
    expression|
";

#[test]
fn facts_are_refused(rt: HostRuntime) {
    assert_rows(&rt, rt.alloc(), REFUSED_FACTS, 4, Outcome::Refused);
    assert_answers(
        &rt,
        rt.alloc(),
        b"\xff",
        Outcome::Refused,
        b"input is not UTF-8\n",
    );
}

/// Conditions with a warning, which are false, in rows as `assert_row` reads them.
const WARNED_OF: &str = "\
cfg(any(test, windows))|x|unix| => condition: cfg(any(test, windows))|match: no|warning: Found `test` in \
    `target.'cfg(...)'.dependencies`. This value is not supported for selecting dependencies and will not work as \
    expected. To learn more visit \
    https://doc.rust-lang.org/cargo/reference/specifying-dependencies.html#platform-specific-dependencies|
cfg(any(r#true = \"x\", feature = \"w\"))|x| => condition: cfg(any(r#true = \"x\", feature = \"w\"))|match: no|\
    warning: Found `feature = ...` in `target.'cfg(...)'.dependencies`. This key is not supported for selecting \
    dependencies and will not work as expected. Use the [features] section instead: \
    https://doc.rust-lang.org/cargo/reference/features.html|
";

#[test]
fn conditions_are_warned_of(rt: HostRuntime) {
    assert_rows(&rt, rt.alloc(), WARNED_OF, 2, Outcome::NoMatch);
}

#[test]
fn limit_of_bytes(rt: HostRuntime) {
    let answer = answer_to_letters(&rt, rt.alloc(), 1_048_576);
    let mut most = reader_over(b"", 1_048_576);
    assert_read(
        &rt,
        rt.alloc(),
        &mut most,
        Ok(Outcome::NoMatch),
        answer.as_bytes(),
    );
    let mut more = reader_over(b"", 1_048_577);
    assert_read(&rt, rt.alloc(), &mut more, Ok(Outcome::Refused), LONG);
}

#[test]
fn one_byte_a_read(rt: HostRuntime) {
    for interrupted in 0..LINUX_READS + 1 {
        let mut reader = reader_over(LINUX, 0);
        reader.most = 1;
        reader.interrupted = only(interrupted);
        assert_read(
            &rt,
            rt.alloc(),
            &mut reader,
            Ok(Outcome::Match),
            LINUX_MEETS,
        );
        assert_count(&rt, reader.counts.bytes, LINUX_READS - 1);
        assert_count(&rt, reader.counts.empty_reads, 1);
    }
}

#[test]
fn a_read_fails(rt: HostRuntime) {
    for number in 1..LINUX_READS + 1 {
        let mut reader = reader_over(LINUX, 0);
        reader.most = 1;
        reader.failing = only(number);
        assert_read(&rt, rt.alloc(), &mut reader, Err(RunError::Read), b"");
        assert_count(&rt, reader.counts.reads, number);
    }
}

/// Asserts the result of a run over no byte at the limit of reads, where those before `end` are interrupted.
fn assert_interrupted_reads(
    rt: &impl Abort,
    alloc: Global,
    end: u64,
    ended: Result<Outcome, RunError>,
    want: &[u8],
) {
    let mut reader = reader_over(b"", 0);
    reader.interrupted = Calls { first: 1, end };
    assert_read(rt, alloc, &mut reader, ended, want);
    assert_count(rt, reader.counts.reads, 1_048_578);
}

#[test]
fn reads_are_interrupted(rt: HostRuntime) {
    assert_interrupted_reads(&rt, rt.alloc(), 1_048_578, Ok(Outcome::Match), NAMELESS);
    assert_interrupted_reads(&rt, rt.alloc(), u64::MAX, Err(RunError::Read), b"");
}

#[test]
fn one_byte_a_read_without_end(rt: HostRuntime) {
    let mut reader = reader_over(b"", u64::MAX);
    reader.most = 1;
    assert_read(&rt, rt.alloc(), &mut reader, Ok(Outcome::Refused), LONG);
}

/// Returns a reader of as many letters as an input may have, one per read, where read 5 is interrupted, and so are
/// those after it before `end`.
fn most_letters(end: u64) -> ScriptedReader<'static> {
    let mut reader = reader_over(b"", 1_048_576);
    reader.most = 1;
    reader.interrupted = Calls { first: 5, end };
    reader
}

#[test]
fn interruptions_at_the_limit_of_reads(rt: HostRuntime) {
    let answer = answer_to_letters(&rt, rt.alloc(), 1_048_576);
    let mut once = most_letters(6);
    assert_read(
        &rt,
        rt.alloc(),
        &mut once,
        Ok(Outcome::NoMatch),
        answer.as_bytes(),
    );
    let mut twice = most_letters(7);
    assert_read(&rt, rt.alloc(), &mut twice, Err(RunError::Read), b"");
}

/// Returns a writer for the output for `LINUX`.
fn linux_writer(alloc: Global) -> ScriptedWriter {
    writer_to(alloc, LINUX_MEETS.len())
}

#[test]
fn one_byte_a_write(rt: HostRuntime) {
    for interrupted in 0..LINUX_WRITES + 1 {
        let mut writer = linux_writer(rt.alloc());
        writer.most = 1;
        writer.interrupted = only(interrupted);
        let calls = (LINUX_WRITES + interrupted.min(1), 1);
        assert_linux(
            &rt,
            rt.alloc(),
            &mut writer,
            Ok(Outcome::Match),
            calls,
            LINUX_MEETS,
        );
    }
}

#[test]
fn one_byte_a_write_and_two_interruptions(rt: HostRuntime) {
    let mut writer = linux_writer(rt.alloc());
    writer.most = 1;
    writer.interrupted = Calls { first: 3, end: 5 };
    let got = &LINUX_MEETS[..57];
    assert_linux(
        &rt,
        rt.alloc(),
        &mut writer,
        Err(RunError::Write),
        (59, 0),
        got,
    );
}

#[test]
fn writes_are_interrupted(rt: HostRuntime) {
    let mut writer = linux_writer(rt.alloc());
    writer.interrupted = Calls { first: 1, end: 59 };
    assert_linux(
        &rt,
        rt.alloc(),
        &mut writer,
        Ok(Outcome::Match),
        (59, 1),
        LINUX_MEETS,
    );
    let mut endless = linux_writer(rt.alloc());
    endless.interrupted = Calls {
        first: 1,
        end: u64::MAX,
    };
    assert_linux(
        &rt,
        rt.alloc(),
        &mut endless,
        Err(RunError::Write),
        (59, 0),
        b"",
    );
}

/// An output that is longer than the pieces of the input, to a writer that is interrupted as often as it may be.
#[test]
fn a_long_output_in_the_last_write(rt: HostRuntime) {
    let answer = answer_to_letters(&rt, rt.alloc(), 10_000);
    let mut writer = writer_to(rt.alloc(), 10_022);
    writer.interrupted = Calls {
        first: 1,
        end: 10_023,
    };
    let mut reader = reader_over(b"", 10_000);
    let want = answer.as_bytes();
    assert_run(
        &rt,
        rt.alloc(),
        &mut reader,
        &mut writer,
        Ok(Outcome::NoMatch),
        want,
    );
    assert_count(&rt, writer.counts.writes, 10_023);
}

/// Asserts a run to a writer of one byte a write, of which the one after `got` fails or takes nothing.
fn assert_stops(
    rt: &impl Abort,
    alloc: Global,
    number: u64,
    failing: Calls,
    idle: Calls,
    got: &[u8],
) {
    let mut writer = linux_writer(alloc);
    writer.most = 1;
    writer.failing = failing;
    writer.idle = idle;
    assert_linux(
        rt,
        alloc,
        &mut writer,
        Err(RunError::Write),
        (number, 0),
        got,
    );
}

#[test]
fn a_write_fails(rt: HostRuntime) {
    for (index, _) in LINUX_MEETS.iter().enumerate() {
        let number = index as u64 + 1;
        let got = &LINUX_MEETS[..index];
        assert_stops(&rt, rt.alloc(), number, only(number), NEVER, got);
        assert_stops(&rt, rt.alloc(), number, NEVER, only(number), got);
    }
}

#[test]
fn the_flush_fails(rt: HostRuntime) {
    let mut interrupted = linux_writer(rt.alloc());
    interrupted.interrupted_flushes = only(1);
    assert_linux(
        &rt,
        rt.alloc(),
        &mut interrupted,
        Err(RunError::Write),
        (1, 1),
        LINUX_MEETS,
    );
    let mut failing = linux_writer(rt.alloc());
    failing.failing_flushes = only(1);
    assert_linux(
        &rt,
        rt.alloc(),
        &mut failing,
        Err(RunError::Write),
        (1, 1),
        LINUX_MEETS,
    );
}

fn assert_fails(rt: &impl Abort, error: Option<io::Error>, kind: ErrorKind) {
    let error = error.expect(rt, "an error");
    assert_eq!(rt; error.kind(), kind);
}

/// Asserts that each call of a reader and of a writer that fail with this kind fails with it.
fn assert_passed_back(rt: &impl Abort, kind: ErrorKind) {
    let read = Input::new(Failing(kind)).read(&mut [0u8; 4]);
    assert_fails(rt, read.err(), kind);
    let mut output = Output::new(Failing(kind));
    let written = output.write(b"a");
    assert_fails(rt, written.err(), kind);
    let flushed = output.flush();
    assert_fails(rt, flushed.err(), kind);
}

#[test]
fn errors_are_passed_back(rt: HostRuntime) {
    assert_passed_back(&rt, ErrorKind::Interrupted);
    assert_passed_back(&rt, ErrorKind::BrokenPipe);
    assert_passed_back(&rt, ErrorKind::TimedOut);
    assert_passed_back(&rt, ErrorKind::UnexpectedEof);
}

#[test]
fn a_piece_of_no_bytes(rt: HostRuntime) {
    let mut writer = writer_to(rt.alloc(), 0);
    let mut output = Output::new(&mut writer);
    let taken = output.write(b"").expect(&rt, "a write");
    let counted = writes_of(&output);
    assert_count(&rt, taken as u64, 0);
    assert_count(&rt, counted.writes, 1);
    assert_count(&rt, counted.empty_writes, 0);
    assert_writes(&rt, &writer, counted);
}
