use osgi_version::{NoMemory, push_field};
use std::alloc::Global;
use std::fmt;

/// A line of output: words with one blank between them.
#[derive(Drop)]
pub struct Answer {
    line: Vec<u8>,
}

impl Answer {
    pub fn new(alloc: Global) -> Answer {
        Answer {
            line: Vec::new(alloc),
        }
    }

    pub fn line(&self) -> &[u8] {
        self.line.as_slice()
    }

    /// Adds what is printed as it stands.
    pub fn word(&mut self, word: &str) -> Result<(), NoMemory> {
        self.bytes(word.as_bytes())
    }

    /// The same with bytes.
    pub fn bytes(&mut self, word: &[u8]) -> Result<(), NoMemory> {
        if !self.line.is_empty() {
            self.line.push(b' ')?;
        }
        self.line.extend_from_slice(word)?;
        Ok(())
    }

    /// Adds a text as a field.
    pub fn field(&mut self, text: &[u8]) -> Result<(), NoMemory> {
        if !self.line.is_empty() {
            self.line.push(b' ')?;
        }
        push_field(&mut self.line, text)
    }

    pub fn number(&mut self, number: u64) -> Result<(), NoMemory> {
        self.message(&number)
    }

    pub fn truth(&mut self, truth: bool) -> Result<(), NoMemory> {
        self.word(if truth { "true" } else { "false" })
    }

    /// Adds how a value is printed.
    pub fn message(&mut self, value: &impl fmt::Display) -> Result<(), NoMemory> {
        let text = format!(in *self.line.allocator(); "{value}")?;
        self.word(text.as_str())
    }
}
