//! Where instructions stand in the text of a description, and their bodies as they stand there.
//!
//! The text is that of a machine: `machine { .. }` and then the instructions, each `instr NAME PATTERN { .. }`. A brace is a token
//! wherever it stands outside a comment, since none may stand in a pattern. Of other bytes there is a list too, which means nothing.

use sqlite_items::Items;
use std::alloc::{AllocError, Global};
use std::mem;

/// An instruction in the text of a description.
#[derive(Drop)]
pub struct Source {
    /// The line where it begins, from 1.
    pub line: u64,
    /// What stands between its outer braces, without comments.
    pub body: Vec<u8>,
}

/// Instructions in order.
pub type SourceList = Items<Source>;

/// What was read of a text.
#[derive(Drop)]
struct Reader {
    list: SourceList,
    body: Vec<u8>,
    /// The number of the line.
    line: u64,
    /// Where the item begins that is read, where one is.
    begun: Option<u64>,
    /// How many braces are open.
    depth: u64,
    is_comment: bool,
    /// Whether the head was read.
    is_behind_head: bool,
}

/// The instructions in the text of a description.
pub fn read_sources(alloc: Global, bytes: &[u8]) -> Result<SourceList, AllocError> {
    let mut reader = Reader {
        list: Items::new(alloc),
        body: Vec::new(alloc),
        line: 1,
        begun: None,
        depth: 0,
        is_comment: false,
        is_behind_head: false,
    };
    for byte in bytes {
        reader.take(alloc, *byte)?;
    }
    Ok(reader.list)
}

impl Reader {
    /// Takes a byte.
    fn take(&mut self, alloc: Global, byte: u8) -> Result<(), AllocError> {
        if byte == b'\n' {
            self.line = self.line.saturating_add(1);
            self.is_comment = false;
        }
        if byte == b'#' {
            self.is_comment = true;
        }
        if self.is_comment {
            return Ok(());
        }
        match byte {
            b'{' => self.open(),
            b'}' => self.close(alloc),
            _ => self.hold(byte),
        }
    }

    /// Takes a brace that opens.
    fn open(&mut self) -> Result<(), AllocError> {
        let depth = self.depth;
        self.depth = depth.saturating_add(1);
        if depth == 0 { Ok(()) } else { self.keep(b'{') }
    }

    /// Takes a brace that closes. Where it is an outer one an item has ended; the first is the head.
    fn close(&mut self, alloc: Global) -> Result<(), AllocError> {
        self.depth = self.depth.saturating_sub(1);
        if self.depth > 0 {
            return self.keep(b'}');
        }
        let body = mem::replace(&mut self.body, Vec::new(alloc));
        let line = self.begun.unwrap_or(self.line);
        self.begun = None;
        if !self.is_behind_head {
            self.is_behind_head = true;
            return Ok(());
        }
        self.list.push(Source { line, body })
    }

    /// Takes another byte.
    fn hold(&mut self, byte: u8) -> Result<(), AllocError> {
        if self.depth > 0 {
            return self.keep(byte);
        }
        if self.begun.is_none() && !byte.is_ascii_whitespace() {
            self.begun = Some(self.line);
        }
        Ok(())
    }

    /// Puts a byte behind the body.
    fn keep(&mut self, byte: u8) -> Result<(), AllocError> {
        self.body.push(byte)?;
        Ok(())
    }
}
