//! The arguments and the files that a caller hands over.

ghost use Rattle.std.specs.Prelude.{◌≡◌, ◌≤◌, ◌++◌, ◌∷◌, [], IfOk, IfSome, OnOk, map, string_bytes};
ghost use Rattle.std.specs.Prelude.{bytes_eq, if◌then◌else◌};
ghost use Rattle.byte_commands.specs.CallInput.{AreArguments, AreFiles, IsEntry, HasNoNul, contents_of, entry_bytes};
ghost use Rattle.byte_commands.specs.CallInput.{entry_of};

use memory_files::GivenFile;
use std::alloc::{AllocError, Global};
use std::str;

/// The name under which a caller hands standard input over.
const STDIN_PATH: &str = "-";

/// The name of the program, which the first argument is.
const PROGRAM: &str = "manifest_check";

/// Which buffer of a call is meant.
#[derive(Clone, Copy, Drop)]
pub enum InputPart {
    Arguments,
    Files,
}

impl InputPart {
    /// Returns its index among the arguments of the call.
    pub fn index(self) -> u32
        ensures { result ≤ 1 }
    {
        match self {
            InputPart::Arguments => 0,
            InputPart::Files => 1,
        }
    }
}

/// What a caller hands over.
#[derive(Drop)]
pub struct CallInput<'a> {
    /// The arguments, the name of the program first.
    pub arguments: Vec<String>,
    pub files: Vec<GivenFile<'a>>,
    /// The bytes of standard input.
    pub input: &'a [u8],
}

/// The reason why a buffer of the caller is malformed.
#[derive(Drop)]
pub enum CallInputError {
    /// The bytes do not have the form that is expected.
    Form(InputPart),
    /// A text is not UTF-8.
    NotUtf8(InputPart),
    Memory,
}

impl From<AllocError> for CallInputError {
    fn from(_refused: AllocError) -> CallInputError {
        CallInputError::Memory
    }
}

/// Returns the bytes before the first NUL, and those after it, if there is one.
fn divided(bytes: &[u8]) -> Option<(&[u8], &[u8])>
    ensures { IfSome result (λ p. (bytes.now ≡ p.0.now ++ 0 ∷ p.1.now) × HasNoNul p.0.now) }
{
    let mut at = 0;
    let mut left = bytes;
    'bytes: while let Some((first, others)) = left.split_first() {
        if *first == 0 {
            let (before, _rest) = bytes.split_at_checked(at)?;
            return Some((before, others));
        }
        at += 1;
        left = others;
    }
    None
}

/// Appends a text to the arguments.
fn push_text(alloc: Global, arguments: &mut Vec<String>, text: &str) -> Result<(), AllocError>
    ensures { OnOk result
        (map string_bytes arguments.new.items ≡ map string_bytes arguments.old.items ++ text.now ∷ []) }
{
    arguments.push(String::from_str(alloc, text)?)?;
    Ok(())
}

/// Returns the arguments in these bytes, each of which ends with a NUL, behind the name of the program.
fn arguments_in(alloc: Global, bytes: &[u8]) -> Result<Vec<String>, CallInputError>
    ensures { IfOk result (λ arguments. AreArguments bytes.now (map string_bytes arguments.items)) }
{
    let mut arguments = Vec::new(alloc);
    push_text(alloc, &mut arguments, PROGRAM)?;
    let mut left = bytes;
    'words: while !left.is_empty() {
        let Some((word, others)) = divided(left) else {
            return Err(CallInputError::Form(InputPart::Arguments));
        };
        let Ok(word) = str::from_utf8(word) else {
            return Err(CallInputError::NotUtf8(InputPart::Arguments));
        };
        push_text(alloc, &mut arguments, word)?;
        left = others;
    }
    Ok(arguments)
}

/// A file that is handed over, and the bytes after it.
#[derive(Clone, Copy, Drop)]
struct First<'a> {
    name: &'a [u8],
    digits: &'a [u8],
    content: &'a [u8],
    after: &'a [u8],
}

/// Returns the first file in these bytes: its name, a NUL, its length in decimal digits, a NUL, and its bytes.
fn first_in(bytes: &[u8]) -> Option<First<'_>>
    ensures { IfSome result (λ f. (bytes.now ≡ entry_bytes (entry_of f) ++ f.after.now) × IsEntry (entry_of f)) }
{
    let (name, rest) = divided(bytes)?;
    let (digits, rest) = divided(rest)?;
    let length = str::from_utf8(digits).ok()?.parse::<usize>().ok()?;
    let (content, after) = rest.split_at_checked(length)?;
    Some(First {
        name,
        digits,
        content,
        after,
    })
}

impl<'a> CallInput<'a> {
    /// Adds a file, or sets standard input.
    fn add(&mut self, alloc: Global, name: &str, bytes: &'a [u8]) -> Result<(), AllocError>
        ensures arguments { OnOk result (self.new.arguments ≡ self.old.arguments) }
        ensures files { OnOk result (contents_of self.new.files.items
            ≡ contents_of self.old.files.items ++ (if bytes_eq name.now STDIN_PATH.now then [] else bytes.now ∷ [])) }
        ensures input { OnOk result (self.new.input.now
            ≡ (if bytes_eq name.now STDIN_PATH.now then bytes.now else self.old.input.now)) }
    {
        if name == STDIN_PATH {
            self.input = bytes;
            return Ok(());
        }
        self.files.push(GivenFile::new(alloc, name, bytes)?)?;
        Ok(())
    }

    /// Adds the files in these bytes.
    fn add_all(&mut self, alloc: Global, bytes: &'a [u8]) -> Result<(), CallInputError>
        requires none { self.old.files.items ≡ [] }
        requires no_input { self.old.input.now ≡ [] }
        ensures arguments { OnOk result (self.new.arguments ≡ self.old.arguments) }
        ensures files { OnOk result (AreFiles bytes.now (contents_of self.new.files.items) self.new.input.now) }
    {
        let mut left = bytes;
        'files: while !left.is_empty() {
            let Some(first) = first_in(left) else {
                return Err(CallInputError::Form(InputPart::Files));
            };
            let Ok(name) = str::from_utf8(first.name) else {
                return Err(CallInputError::NotUtf8(InputPart::Files));
            };
            self.add(alloc, name, first.content)?;
            left = first.after;
        }
        Ok(())
    }
}

/// Returns what the arguments of a call hand over.
pub fn parse_call_input<'a>(
    alloc: Global,
    arguments: &[u8],
    files: &'a [u8],
) -> Result<CallInput<'a>, CallInputError>
    ensures arguments { IfOk result (λ given. AreArguments arguments.now (map string_bytes given.arguments.items)) }
    ensures files { IfOk result (λ given. AreFiles files.now (contents_of given.files.items) given.input.now) }
{
    let mut given = CallInput {
        arguments: arguments_in(alloc, arguments)?,
        files: Vec::new(alloc),
        input: &[],
    };
    given.add_all(alloc, files)?;
    Ok(given)
}
