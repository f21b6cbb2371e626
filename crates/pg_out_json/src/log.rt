//! How long the logs of a certificate are, by its text.

use std::alloc::{AllocError, Global};

/// The length of a log.
#[derive(Clone, Copy, Default)]
pub struct LogLen {
    /// How many steps it has, removals not counted.
    pub steps: u64,
    /// How many bytes its lines have, with their ends.
    pub bytes: u64,
}

/// What is read of the text of a certificate.
///
/// Lines are told apart by how they begin: `fi` of a finding, `s ` of a step, `d ` of a removal.
#[derive(Drop)]
pub struct Logs {
    lens: Vec<LogLen>,
    /// The log of the finding that is read.
    now: LogLen,
    /// Whether there is one.
    is_in_finding: bool,
    /// How many bytes of the line were read, 2 for more.
    read: u8,
    /// The first of them.
    first: u8,
    /// Whether the line is one of a log.
    is_log: bool,
}

impl Logs {
    /// Of a text of which nothing was read.
    pub fn new(alloc: Global) -> Logs {
        Logs {
            lens: Vec::new(alloc),
            now: LogLen::default(),
            is_in_finding: false,
            read: 0,
            first: 0,
            is_log: false,
        }
    }

    /// Takes more of the text.
    pub fn feed(&mut self, bytes: &[u8]) -> Result<(), AllocError> {
        for byte in bytes {
            self.take(*byte)?;
        }
        Ok(())
    }

    /// Ends the text.
    pub fn end(&mut self) -> Result<(), AllocError> {
        if self.is_in_finding {
            self.lens.push(self.now)?;
        }
        self.is_in_finding = false;
        Ok(())
    }

    /// The length of the log of a finding, by its number; that of no log where there is none.
    pub fn of(&self, number: usize) -> LogLen {
        match self.lens.as_slice().get(number) {
            Some(len) => *len,
            None => LogLen::default(),
        }
    }

    /// Takes a byte.
    fn take(&mut self, byte: u8) -> Result<(), AllocError> {
        match self.read {
            0 => self.first = byte,
            1 => self.tell(byte)?,
            _ => {}
        }
        if self.is_log {
            self.now.bytes = self.now.bytes.saturating_add(1);
        }
        if byte == b'\n' {
            self.read = 0;
            self.is_log = false;
        } else if self.read < 2 {
            self.read += 1;
        }
        Ok(())
    }

    /// What a line is whose second byte is this one.
    fn tell(&mut self, byte: u8) -> Result<(), AllocError> {
        match (self.first, byte) {
            (b'f', b'i') => {
                self.end()?;
                self.now = LogLen::default();
                self.is_in_finding = true;
            }
            (b's', b' ') => {
                self.now.steps = self.now.steps.saturating_add(1);
                self.now.bytes = self.now.bytes.saturating_add(1);
                self.is_log = true;
            }
            (b'd', b' ') => {
                self.now.bytes = self.now.bytes.saturating_add(1);
                self.is_log = true;
            }
            _ => {}
        }
        Ok(())
    }
}
