//! Variables of the environment.

use std::alloc::AllocError;
use std::env;
use std::rt::Env;

/// Returns the value of a variable, or none where it is not set or its value is not UTF-8.
pub fn variable<R: Env + AllocGlobal>(rt: &R, name: &str) -> Result<Option<String>, AllocError> {
    match env::var(rt, name) {
        Ok(value) => Ok(Some(value)),
        Err(env::VarError::OutOfMemory) => Err(AllocError),
        Err(_) => Ok(None),
    }
}
