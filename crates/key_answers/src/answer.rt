//! The output of a run, and its exit status.

ghost use Rattle.std.specs.Prelude.{◌≡◌, ◌++◌, [], OnOk, max, string_bytes};
ghost use Rattle.key_answers.specs.Printing.{code_of};

use std::alloc::{AllocError, Global};

/// The exit status of a run.
#[derive(Clone, Copy, Debug, PartialEq, Eq)]
pub enum Status {
    /// There is nothing to report, or the query is answered.
    Fine,
    /// There is something to report, or a key does not apply.
    Found,
    /// An argument, a key or a file is invalid.
    Unusable,
}

impl Status {
    /// Returns the number of the exit status.
    pub fn code(self) -> u8
        ensures { result ≡ code_of self }
    {
        match self {
            Status::Fine => 0,
            Status::Found => 1,
            Status::Unusable => 2,
        }
    }
}

/// The output of a run, and its exit status.
#[derive(Drop)]
pub struct Answer {
    /// The text for standard output.
    pub output: String,
    /// The text for standard error.
    pub errors: String,
    pub status: Status,
}

impl Answer {
    /// Returns an answer with this text on standard output.
    pub fn of(alloc: Global, output: String, status: Status) -> Answer
        ensures output { string_bytes result.output ≡ string_bytes output }
        ensures errors { string_bytes result.errors ≡ [] }
        ensures status { result.status ≡ status }
    {
        Answer {
            output,
            errors: String::new(alloc),
            status,
        }
    }

    /// Appends an answer. The status is the greater one of both.
    pub fn append(&mut self, other: Answer) -> Result<(), AllocError>
        ensures output { OnOk result
            (string_bytes self.new.output ≡ string_bytes self.old.output ++ string_bytes other.output) }
        ensures errors { OnOk result
            (string_bytes self.new.errors ≡ string_bytes self.old.errors ++ string_bytes other.errors) }
        ensures status { OnOk result (code_of self.new.status ≡ max (code_of self.old.status) (code_of other.status)) }
    {
        self.output.push_str(other.output.as_str())?;
        self.errors.push_str(other.errors.as_str())?;
        self.raise(other.status);
        Ok(())
    }

    /// Sets the status to this one, if it is greater.
    pub fn raise(&mut self, status: Status)
        ensures texts { (self.new.output ≡ self.old.output) × (self.new.errors ≡ self.old.errors) }
        ensures status { code_of self.new.status ≡ max (code_of self.old.status) (code_of status) }
    {
        if status.code() > self.status.code() {
            self.status = status;
        }
    }

    /// Returns the answer to an invalid input: nothing on standard output, and this text on standard error.
    pub fn unusable(alloc: Global, errors: String) -> Answer
        ensures output { string_bytes result.output ≡ [] }
        ensures errors { string_bytes result.errors ≡ string_bytes errors }
        ensures status { result.status ≡ Status.Unusable }
    {
        Answer {
            output: String::new(alloc),
            errors,
            status: Status::Unusable,
        }
    }
}

/// The reason why a query has no answer.
#[derive(Drop)]
pub enum QueryError {
    /// A key, a name or a fact is invalid, with this message.
    Unusable(String),
    Memory(AllocError),
}

impl From<AllocError> for QueryError {
    fn from(refused: AllocError) -> QueryError {
        QueryError::Memory(refused)
    }
}

/// Returns the error about invalid arguments with this message, or the error that memory ran out for its line.
pub fn argument_error(alloc: Global, message: &str) -> QueryError {
    match format!(in alloc; "error: {message}\n") {
        Ok(line) => QueryError::Unusable(line),
        Err(refused) => QueryError::Memory(refused),
    }
}

/// Returns the error about a file with this reason, on a line of its own, or the error that memory ran out for that
/// line.
pub fn file_error(alloc: Global, file: &str, reason: &str) -> QueryError {
    match format!(in alloc; "{file}: error: {reason}\n") {
        Ok(line) => QueryError::Unusable(line),
        Err(refused) => QueryError::Memory(refused),
    }
}

/// Returns the answer, or the one that says why there is none.
pub fn answer_or_error(
    alloc: Global,
    answer: Result<Answer, QueryError>,
) -> Result<Answer, AllocError> {
    match answer {
        Ok(answer) => Ok(answer),
        Err(QueryError::Unusable(text)) => Ok(Answer::unusable(alloc, text)),
        Err(QueryError::Memory(refused)) => Err(refused),
    }
}
