//! The outcomes of calls, and the texts that they write into a buffer.

ghost use Rattle.std.specs.Prelude.{◌≡◌, false};
ghost use Rattle.byte_answers.specs.Outcomes.{HasNoAnswer, HasNoSpan, IsWritten};

/// The call has an answer.
pub const DONE: u32 = 0;
/// A text is rejected: the buffer has the message, and the bytes from `start` to `end` of the text are the error.
pub const REFUSED: u32 = 1;
/// A text is not UTF-8.
pub const NOT_UTF8: u32 = 2;
/// The bytes are not a flat condition, not flat facts, or not prepared facts.
pub const NOT_FLAT: u32 = 3;
/// An allocation failed.
pub const NO_MEMORY: u32 = 4;
/// The budget is used up.
pub const UNDECIDED: u32 = 5;
/// More than `MAX_OPEN` parentheses are open at once, or a flat condition has more than `MAX_FLAT_BYTES` bytes.
pub const TOO_DEEP: u32 = 6;
/// No known target has this name or index.
pub const UNKNOWN_TARGET: u32 = 7;

/// The outcome of a call. C sees its fields in this order.
#[repr(C)]
#[derive(Drop)]
pub struct Outcome {
    /// One of the constants above.
    pub code: u32,
    /// The index, from 0 on, of the text of the call that is rejected, not UTF-8 or too deep.
    pub argument: u32,
    /// The answer of a call that answers yes or no.
    pub holds: bool,
    /// True if the first text of an example is its name.
    pub is_named: bool,
    /// The number of bytes of the answer or the message. They are written if the buffer has as many.
    pub needed: usize,
    /// The first byte of the error, in the text that is rejected.
    pub start: usize,
    /// The byte after the error.
    pub end: usize,
}

impl Outcome {
    /// Returns the outcome of a call without an answer, because of the text at index `argument`.
    pub fn without_answer(code: u32, argument: u32) -> Outcome
        // It has this code and this `argument`, and nothing else.
        ensures { result ≡ record {
          code = code;
          argument = argument;
          holds = false;
          is_named = false;
          needed = 0;
          start = 0;
          end = 0;
        } }
    {
        Outcome {
            code,
            argument,
            holds: false,
            is_named: false,
            needed: 0,
            start: 0,
            end: 0,
        }
    }

    /// Returns the outcome of a call whose answer has `needed` bytes.
    pub fn done(needed: usize) -> Outcome
        // It has `DONE` and this number of bytes, and nothing else.
        ensures { result ≡ record {
          code = DONE;
          argument = 0;
          holds = false;
          is_named = false;
          needed = needed;
          start = 0;
          end = 0;
        } }
    {
        Outcome {
            code: DONE,
            argument: 0,
            holds: false,
            is_named: false,
            needed,
            start: 0,
            end: 0,
        }
    }

    /// Returns the outcome of a call that rejects the text at index `argument`, and writes the reason.
    pub fn refused(argument: u32, reason: &str, out: &mut [u8]) -> Outcome
        // The result has the length of the reason. A buffer that has as many bytes begins with the reason; all other
        // bytes are unchanged.
        ensures written { IsWritten reason.now result.needed out.old out.new }
        ensures code { result.code ≡ REFUSED }
        ensures argument { result.argument ≡ argument }
        // `holds` and `is_named` are false.
        ensures holds { HasNoAnswer result }
        // `start` and `end` are 0.
        ensures span { HasNoSpan result }
    {
        Outcome {
            code: REFUSED,
            argument,
            ..Outcome::done(write(reason.as_bytes(), out))
        }
    }

    /// Returns the outcome of a call that answers yes or no.
    pub(crate) fn answered(holds: bool) -> Outcome
        ensures { result ≡ record {
          code = DONE;
          argument = 0;
          holds = holds;
          is_named = false;
          needed = 0;
          start = 0;
          end = 0;
        } }
    {
        Outcome {
            code: DONE,
            argument: 0,
            holds,
            is_named: false,
            needed: 0,
            start: 0,
            end: 0,
        }
    }
}

/// Writes a text to the beginning of the buffer if it fits. Returns the number of its bytes.
pub fn write(text: &[u8], out: &mut [u8]) -> usize
    // The result is the length of the text. A buffer that has as many bytes begins with the text; all other bytes are
    // unchanged.
    ensures { IsWritten text.now result out.old out.new }
{
    let needed = text.len();
    if needed <= out.len() {
        out[..needed].copy_from_slice(text);
    }
    needed
}
