//! Text, and how words, numbers and names are written in it.
use crate::stop::TableStop;
use itoa::{Buffer, Integer};
use std::alloc::{AllocError, Global};
use std::io::Write;
use sv_word::{Word, print_literal};

/// Text that grows at its end.
#[derive(Drop)]
pub struct Text {
    bytes: Vec<u8>,
}

impl Text {
    pub fn new(alloc: Global) -> Text {
        Text {
            bytes: Vec::new(alloc),
        }
    }

    pub fn as_bytes(&self) -> &[u8] {
        self.bytes.as_slice()
    }

    /// Writes the text to standard output.
    pub fn print(&self, rt: HostRuntime) -> Result<(), TableStop> {
        match rt.stdout().write_all(self.as_bytes()) {
            Ok(()) => Ok(()),
            Err(_) => Err(TableStop::Unwritten),
        }
    }

    pub fn add(&mut self, text: &str) -> Result<(), AllocError> {
        self.add_bytes(text.as_bytes())
    }

    pub fn add_bytes(&mut self, bytes: &[u8]) -> Result<(), AllocError> {
        self.bytes.extend_from_slice(bytes)
    }

    pub fn number<I: Integer>(&mut self, number: I) -> Result<(), AllocError> {
        let mut digits = Buffer::new();
        self.add(digits.format(number))
    }

    /// What stands before the item of this number in a list: a colon or a comma.
    pub fn separate(&mut self, number: usize) -> Result<(), AllocError> {
        self.add(if number == 0 { ": " } else { ", " })
    }

    /// Numbers, a space before each.
    pub fn numbers(&mut self, numbers: &[u32]) -> Result<(), AllocError> {
        for number in numbers {
            self.add(" ")?;
            self.number(*number)?;
        }
        Ok(())
    }

    pub fn literal(&mut self, alloc: Global, word: &Word) -> Result<(), AllocError> {
        let literal = print_literal(alloc, word)?;
        self.add_bytes(&literal)
    }
}
