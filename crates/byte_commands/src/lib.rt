//! The commands of `manifest_check` on bytes, written into a buffer of the caller, for callers that are not written in
//! Rattle. No file is read or written: the caller hands files over.
#![tactic(auto)]

ghost use Rattle.std.specs.Prelude.{◌≡◌, ◌≢◌, ◌≤◌, ℕ, List, ◌++◌, IsTrue, ◌||◌, ◌==◌, IfOk, Ok, map, string_bytes};
ghost use Rattle.byte_answers.specs.Outcomes.{HasNoAnswer, HasNoSpan, IsSilent, IsWritten};
ghost use Rattle.key_answers.specs.Printing.{code_of};
ghost use Rattle.byte_commands.specs.Answers.{IsAnswer, IsAnswerOf};
ghost use Rattle.byte_commands.specs.CallInput.{AreArguments, AreFiles, contents_of};

mod call_input;

use byte_answers::{DONE, NO_MEMORY, NOT_UTF8, Outcome, REFUSED, write};
pub use call_input::CallInput;
use call_input::{CallInputError, InputPart, parse_call_input};
use key_answers::answer::{Answer, Status};
use memory_files::MemoryRuntime;
use std::alloc::{AllocError, Global};

/// The message about bytes that are not arguments.
const NO_ARGUMENTS: &str = "the last argument does not end with a NUL";

/// The message about bytes that are not files.
const NO_FILES: &str = "a file is not a name, a NUL, a length, a NUL and so many bytes";

/// Runs the command on what is handed over.
fn answer_on(alloc: Global, build: &str, given: &CallInput<'_>) -> Result<Answer, AllocError> {
    let rt = MemoryRuntime {
        alloc,
        files: &given.files,
        arguments: &given.arguments,
        input: given.input,
    };
    manifest_commands::run(&rt, build, false)
}

/// Returns the outcome of an answer, and writes `text`, its output and its errors, one after the other.
fn done(text: &str, start: usize, status: Status, out: &mut [u8]) -> Outcome
    ensures written { IsWritten text.now result.needed out.old out.new }
    ensures code { result.code ≡ DONE }
    ensures status { result.argument ≡ code_of status }
    ensures start { result.start ≡ start }
    ensures end { result.end ≡ result.needed }
    ensures holds { HasNoAnswer result }
{
    let needed = write(text.as_bytes(), out);
    Outcome {
        code: DONE,
        argument: u32::from(status.code()),
        holds: false,
        is_named: false,
        needed,
        start,
        end: needed,
    }
}

/// Writes the output and the errors of an answer, one after the other.
fn written(answer: Answer, out: &mut [u8]) -> Outcome
    ensures done { result.code ≡ DONE → IsAnswerOf answer result out.old out.new }
    ensures silent { result.code ≢ DONE → IsSilent result out.old out.new }
    ensures argument { result.code ≢ DONE → result.argument ≡ 0 }
    ensures holds { HasNoAnswer result }
    ensures span { result.code ≢ DONE → HasNoSpan result }
    ensures codes { IsTrue (result.code == DONE || result.code == NO_MEMORY) }
{
    let Answer {
        output,
        errors,
        status,
    } = answer;
    let start = output.len();
    match joined(output, errors.as_str()) {
        Ok(text) => done(text.as_str(), start, status, out),
        Err(_) => Outcome::without_answer(NO_MEMORY, 0),
    }
}

/// Returns a text and another one after it.
fn joined(mut text: String, other: &str) -> Result<String, AllocError>
    ensures { IfOk result (λ both. string_bytes both ≡ string_bytes text ++ other.now) }
{
    text.push_str(other)?;
    Ok(text)
}

/// Returns the message about a part that does not have the form that it has to have.
fn reason_for(part: InputPart) -> &'static str {
    match part {
        InputPart::Arguments => NO_ARGUMENTS,
        InputPart::Files => NO_FILES,
    }
}

/// Runs the given command on the caller's input, and writes its output, and its errors after it, as `run` does for the
/// commands of `manifest_check`.
pub fn run_with<'a, F: FnOnce(CallInput<'a>) -> Result<Answer, AllocError>>(
    alloc: Global,
    command: F,
    arguments: &[u8],
    files: &'a [u8],
    out: &mut [u8],
) -> Outcome
    // The command may be called with everything that can be handed over.
    requires { F.IsAlwaysCallable command }
    // With `DONE`, exactly the output and the errors of an answer that the command returned are written, if the buffer
    // is long enough; `argument` is the exit status of this answer, and the errors are from `start` to `end`. The
    // command was called with the arguments, the contents of the files and the standard input in the bytes.
    ensures done { result.code ≡ DONE → (given : CallInput) × ((answer : Answer)
        × (AreArguments arguments.now (map string_bytes given.arguments.items)
        × AreFiles files.now (contents_of given.files.items) given.input.now
        × F.post command given (Ok answer) × IsAnswerOf answer result out.old out.new)) }
    // With `REFUSED`, a reason is written if the buffer is long enough.
    ensures refused { result.code ≡ REFUSED → (text : List ℕ) × IsWritten text result.needed out.old out.new }
    // With other codes, nothing is written.
    ensures silent { result.code ≢ DONE → result.code ≢ REFUSED → IsSilent result out.old out.new }
    // With other codes than `DONE`, `argument` is 0 or 1.
    ensures argument { result.code ≢ DONE → result.argument ≤ 1 }
    // `holds` and `is_named` are false.
    ensures holds { HasNoAnswer result }
    // With other codes than `DONE`, `start` and `end` are 0.
    ensures span { result.code ≢ DONE → HasNoSpan result }
    // The code is one of these, or `NO_MEMORY`.
    ensures codes { IsTrue (result.code == DONE || result.code == REFUSED || result.code == NOT_UTF8
        || result.code == NO_MEMORY) }
{
    let given = match parse_call_input(alloc, arguments, files) {
        Ok(given) => given,
        Err(CallInputError::Form(part)) => return Outcome::refused(
            part.index(),
            reason_for(part),
            out,
        ),
        Err(CallInputError::NotUtf8(part)) => return Outcome::without_answer(
            NOT_UTF8,
            part.index(),
        ),
        Err(CallInputError::Memory) => return Outcome::without_answer(NO_MEMORY, 0),
    };
    match command(given) {
        Ok(answer) => written(answer, out),
        Err(_) => Outcome::without_answer(NO_MEMORY, 0),
    }
}

/// Runs a command of `manifest_check` on files in memory, and writes its output and then its errors to `out`. With
/// `DONE`, `argument` is the exit status, and the errors are from `start` to `end` of what is written.
///
/// Each argument ends with a NUL, and the name of the program is not among them. Each file is its name, a NUL, its
/// length in decimal digits, a NUL, and its bytes. The file `-` is standard input. A relative name begins at the root,
/// which is the current folder. There are no environment variables, and what is not handed over does not exist: nothing
/// else is read, and nothing is written. `build` is put before the other texts in the parentheses after the version.
///
/// Returns `REFUSED`, with the reason in the buffer, if bytes do not have this form, and `NOT_UTF8` if an argument or a
/// name is not UTF-8: `argument` is 0 for the arguments, and 1 for the files.
pub fn run(alloc: Global, build: &str, arguments: &[u8], files: &[u8], out: &mut [u8]) -> Outcome
    // With `DONE`, an output is written, and errors from `start` to `end`, if the buffer is long enough.
    ensures done { result.code ≡ DONE → IsAnswer result out.old out.new }
    // With `DONE`, `argument` is an exit status: at most 2.
    ensures status { result.code ≡ DONE → result.argument ≤ 2 }
    // With `REFUSED`, a reason is written if the buffer is long enough.
    ensures refused { result.code ≡ REFUSED → (text : List ℕ) × IsWritten text result.needed out.old out.new }
    // With other codes, nothing is written.
    ensures silent { result.code ≢ DONE → result.code ≢ REFUSED → IsSilent result out.old out.new }
    // With other codes than `DONE`, `argument` is 0 or 1.
    ensures argument { result.code ≢ DONE → result.argument ≤ 1 }
    // `holds` and `is_named` are false.
    ensures holds { HasNoAnswer result }
    // With other codes than `DONE`, `start` and `end` are 0.
    ensures span { result.code ≢ DONE → HasNoSpan result }
    // The code is one of these, or `NO_MEMORY`.
    ensures codes { IsTrue (result.code == DONE || result.code == REFUSED || result.code == NOT_UTF8
        || result.code == NO_MEMORY) }
{
    run_with(
        alloc,
        |given| answer_on(alloc, build, &given),
        arguments,
        files,
        out,
    )
}
