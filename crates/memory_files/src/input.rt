//! Standard input.

use crate::MemoryRuntime;
use std::alloc::Allocator;
use std::io::{self, BufRead, Lines};

impl<'a> Input for MemoryRuntime<'a> {
    type Reader = &'a [u8];

    fn read_line<A: Allocator + Clone>(&self, buf: &mut String<A>) -> io::Result<usize> {
        let mut reader = self.input;
        reader.read_line(buf)
    }

    fn lines<A: Allocator>(&self, alloc: A) -> Lines<&'a [u8], A> {
        self.input.lines(alloc)
    }

    fn reader(&self) -> &'a [u8] {
        self.input
    }
}
