//! Arguments, the environment and the current folder.

ghost use Rattle.std.specs.Prelude.{◌≡◌, IfOk};
ghost use Rattle.std.specs.Io.{WritesAtMost};

use crate::MemoryRuntime;
use std::env::FillError;
use std::io;
use std::rt::Env;

/// Copies bytes to the start of a buffer, and returns how many they are.
fn filled(bytes: &[u8], buf: &mut [u8]) -> Result<usize, FillError>
    ensures bound { WritesAtMost result buf.new }
{
    match buf.get_mut(..bytes.len()) {
        Some(start) => {
            start.copy_from_slice(bytes);
            Ok(bytes.len())
        }
        None => Err(FillError::TooLong),
    }
}

impl Env for MemoryRuntime<'_> {
    fn arg(&self, i: usize, buf: &mut [u8]) -> Result<usize, FillError> {
        match self.arguments.get(i) {
            Some(argument) => filled(argument.as_bytes(), buf),
            None => Err(FillError::NotPresent),
        }
    }

    fn var(&self, _name: &str, _buf: &mut [u8]) -> Result<usize, FillError> {
        Err(FillError::NotPresent)
    }

    fn var_at(&self, _i: usize, _buf: &mut [u8]) -> Result<usize, FillError> {
        Err(FillError::NotPresent)
    }

    fn current_dir(&self, buf: &mut [u8]) -> io::Result<usize> {
        match buf.first_mut() {
            Some(first) => {
                *first = b'/';
                Ok(1)
            }
            None => Err(io::Error::from(io::ErrorKind::InvalidInput)),
        }
    }
}
