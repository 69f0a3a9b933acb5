//! The block of a copy, as its text.

ghost use Rattle.std.specs.Prelude.{◌≡◌, ◌++◌, [], OnOk};
ghost use Rattle.tss_io.specs.Lines.{as_line};

use std::alloc::Global;
use std::marker::Model;
use tss_base::NoMemory;

/// The block of a copy, kept as the bytes of its lines. Contracts see the bytes.
#[derive(Debug, Drop)]
pub struct Block {
    bytes: Vec<u8>,
}

impl Model for Block {
    ghost use Rattle.std.specs.Prelude.{List, ℕ};

    ghost Value = { List ℕ };

    ghost view = { λ b. b.bytes.items };
}

impl Block {
    /// No bytes yet. It takes no memory.
    pub fn new(alloc: Global) -> Block
        ensures { result ≡ [] }
    {
        Block {
            bytes: Vec::new(alloc),
        }
    }

    /// The block of these bytes. It takes no memory.
    pub fn of(bytes: Vec<u8>) -> Block
        ensures { result ≡ bytes.items }
    {
        Block { bytes }
    }

    /// The bytes, each line with its newline.
    pub fn as_bytes(&self) -> &[u8]
        ensures { result.now ≡ self.now }
    {
        self.bytes.as_slice()
    }

    /// Appends a line and its newline. On `NoMemory` a front of them may have been appended.
    pub fn push_line(&mut self, line: &[u8]) -> Result<(), NoMemory>
        ensures { OnOk result (self.new ≡ self.old ++ as_line line.now) }
    {
        self.bytes.extend_from_slice(line)?;
        self.bytes.push(b'\n')?;
        Ok(())
    }
}
