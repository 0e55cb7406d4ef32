//! What no clause says: that a text goes through with ample memory, and what interrupts a system call.
ghost use Rattle.std.specs.Prelude.{◌≤◌, IfOk};

use super::*;
use crate::standard::{read_uninterrupted, write_uninterrupted};
use std::io::{Error, ErrorKind, Read, Result as IoResult, Write};
use std::test::Fail;

/// A text goes from a source in pieces to a sink that has just the room for it; a listed call, and want
/// of room, fail at their place.
#[test]
fn moves_a_text(rt: HostRuntime) -> Result<(), Fail> {
    let alloc = rt.alloc();
    let text = b"0 s A::M\n";
    let mut source = MemorySource::new(text.to_vec(alloc)?, 2, vec![in alloc; 7]?);
    let read = read_up_to(alloc, &mut source, 9)?;
    assert_eq!(rt; read.as_slice(), text.as_slice());
    assert!(rt; read_up_to(alloc, &mut source, 1)? == vec![in alloc]?);
    assert!(rt; read_up_to(alloc, &mut source, 1) == Err(ReadError::Failed));

    let mut whole = MemorySink::new(alloc, 9, vec![in alloc]?)?;
    assert!(rt; write_whole(&mut whole, text) == Ok(()));
    assert_eq!(rt; whole.bytes(), text.as_slice());

    let mut full = MemorySink::new(alloc, 5, vec![in alloc]?)?;
    assert!(rt; write_whole(&mut full, text) == Err(Failed));
    assert_eq!(rt; full.bytes(), b"0 s A".as_slice());

    let mut failing = MemorySink::new(alloc, 9, vec![in alloc; 1]?)?;
    assert!(rt; write_whole(&mut failing, text) == Err(Failed));
    assert!(rt; failing.bytes().is_empty());
    Ok(())
}

/// A stream that refuses as many calls for this cause, and then moves a byte a call.
#[derive(Drop)]
struct Refusing {
    times: u8,
    kind: ErrorKind,
}

impl Refusing {
    fn step(&mut self, room: usize) -> IoResult<usize>
        ensures { IfOk result (λ n. n ≤ room) }
    {
        if self.times > 0 {
            self.times -= 1;
            return Err(Error::from(self.kind));
        }
        Ok(room.min(1))
    }
}

impl Read for Refusing {
    fn read(&mut self, into: &mut [u8]) -> IoResult<usize> {
        self.step(into.len())
    }
}

impl Write for Refusing {
    fn write(&mut self, piece: &[u8]) -> IoResult<usize> {
        self.step(piece.len())
    }

    fn flush(&mut self) -> IoResult<()> {
        Ok(())
    }
}

/// What a signal interrupts is tried again until it isn't interrupted; any other refusal is told at once.
#[test]
fn interrupted(rt: HostRuntime) {
    let signal = ErrorKind::Interrupted;
    let other = ErrorKind::WouldBlock;
    for (kind, times, wanted, left) in [
        (signal, 0, Some(1), 0),
        (signal, 3, Some(1), 0),
        (other, 3, None, 2),
    ] {
        let mut reader = Refusing { times, kind };
        assert_eq!(rt; read_uninterrupted(&mut reader, &mut [0; 4]).ok(), wanted);
        assert_eq!(rt; reader.times, left);
        let mut writer = Refusing { times, kind };
        assert_eq!(rt; write_uninterrupted(&mut writer, b"text").ok(), wanted);
        assert_eq!(rt; writer.times, left);
    }
}
