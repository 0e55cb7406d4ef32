//! Runs in memory.
use super::super::*;
use std::alloc::{AllocError, Global};

/// A run in memory: its words and its text, the read and the write that fail (0 for none), and the room
/// for what it writes.
#[derive(Clone, Copy)]
pub(super) struct Trial<'a> {
    pub(super) words: &'a [&'a str],
    pub(super) text: &'a [u8],
    pub(super) failing_read: u64,
    pub(super) failing_write: u64,
    pub(super) room: usize,
}

impl<'a> Trial<'a> {
    pub(super) fn of(text: &'a [u8]) -> Trial<'a> {
        Trial {
            words: &["run"],
            text,
            failing_read: 0,
            failing_write: 0,
            room: 8_000_000,
        }
    }

    /// Whether the run ends with this exit status and these bytes.
    pub(super) fn gives(
        &self,
        alloc: Global,
        status: u8,
        output: &[u8],
    ) -> Result<bool, AllocError> {
        let mut words = Vec::new(alloc);
        for word in self.words {
            words.push(String::from_str(alloc, word)?)?;
        }
        let reads = vec![in alloc; self.failing_read]?;
        let writes = vec![in alloc; self.failing_write]?;
        let mut source = MemorySource::new(self.text.to_vec(alloc)?, 16, reads);
        let mut sink = MemorySink::new(alloc, self.room, writes)?;
        let ended = run(alloc, &words, &mut source, &mut sink);
        Ok(number(&ended.status) == status && sink.bytes() == output)
    }
}
