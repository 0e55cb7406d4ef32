//! Texts from outside with what a run must say of them, and every way in which a read or a write fails.
mod refusals;
mod rows;
mod trials;
mod types;

use self::trials::Trial;
use super::*;
use std::alloc::{AllocError, Global};
use std::test::Fail;
use vsd_text::{LexError, TEXT_LIMIT};

const PLAIN: &[u8] = b"vsd 1
.class interface public abstract I { .method public newslot abstract virtual instance void M() cil managed { } }
.class public A extends [mscorlib]System.Object implements I { .method public newslot virtual instance void M() cil managed { } }
%%
site s = I::M; host a = A; lane { call s a; }
";

/// The text whose class lacks the interface's method.
const MISSING: &[u8] = b"vsd 1
.class interface public abstract I { .method public newslot abstract virtual instance void M() cil managed { } }
.class public H implements I { }
%%
";

const MISSING_LINE: &[u8] = b"refused 3 60 missing H I::M\n";

/// The line of a text in decimal, and the longest text.
#[test]
fn texts(rt: HostRuntime) -> Result<(), Fail> {
    let alloc = rt.alloc();
    let texts: [(&[u8], u8, &[u8]); 3] = [
        (PLAIN, 0, b"0 s A::M\n"),
        (MISSING, 3, MISSING_LINE),
        (b"\n\n\n\n\n\n\n\n\n\n\n\x7f", 3, b"refused 12 1 bad byte\n"),
    ];
    for (text, status, output) in texts {
        assert!(rt; Trial::of(text).gives(alloc, status, output)?, "{output:?}");
    }
    let mut longest = Vec::from_slice(alloc, b"vsd 1\n%%\n")?;
    longest.extend_from_slice(&spaces(alloc, TEXT_LIMIT - 9)?)?;
    assert!(rt; Trial::of(&longest).gives(alloc, 0, b"")?);
    longest.push(b' ')?;
    assert!(rt; Trial::of(&longest).gives(alloc, 3, b"refused 0 4 too long\n")?);
    Ok(())
}

fn spaces(alloc: Global, size: usize) -> Result<Vec<u8>, AllocError> {
    vec![in alloc; b' '; size]
}

/// The exit status of each way to end.
#[test]
fn statuses(rt: HostRuntime) {
    let refused = Status::Refused(Refusal::Lex(LexError::TooLong));
    let numbered = [
        (Status::Done, 0),
        (Status::Words, 2),
        (refused, 3),
        (Status::ReadFault, 4),
        (Status::WriteFault, 5),
        (Status::Memory, 6),
    ];
    for (status, wanted) in &numbered {
        assert_eq!(rt; number(status), *wanted);
    }
}

#[test]
fn in_memory(rt: HostRuntime) -> Result<(), Fail> {
    let alloc = rt.alloc();
    let words = vec![in alloc; String::from_str(alloc, "run")?]?;
    let mut sink = MemorySink::new(alloc, 9, vec![in alloc]?)?;
    let ended = run_in_memory(alloc, &words, PLAIN.to_vec(alloc)?, &mut sink);
    assert_eq!(rt; number(&ended.status), 0);
    assert_eq!(rt; sink.bytes(), b"0 s A::M\n".as_slice());
    Ok(())
}

/// A text is whole after `%%`, after each statement of the script, and with a space or a line feed behind these.
fn is_whole(text: &[u8]) -> bool {
    let ends: [&[u8]; 8] = [
        b"%%", b"%%\n", b"I::M;", b"I::M; ", b"= A;", b"= A; ", b"a; }", b"a; }\n",
    ];
    for end in ends {
        if text.ends_with(end) {
            return true;
        }
    }
    false
}

/// Each first part of a text.
#[test]
fn cut_texts(rt: HostRuntime) -> Result<(), Fail> {
    for end in 0..PLAIN.len() + 1 {
        let mut sink = MemorySink::new(rt.alloc(), 100, vec![in rt.alloc()]?)?;
        let words = vec![in rt.alloc(); String::from_str(rt.alloc(), "run")?]?;
        let text = PLAIN[..end].to_vec(rt.alloc())?;
        let ended = run_in_memory(rt.alloc(), &words, text, &mut sink);
        let wanted = if is_whole(&PLAIN[..end]) { 0 } else { 3 };
        assert_eq!(rt; number(&ended.status), wanted, "cut at {end}");
        assert_eq!(rt; sink.bytes().starts_with(b"refused "), wanted == 3);
    }
    Ok(())
}

#[test]
fn words(rt: HostRuntime) -> Result<(), Fail> {
    let lists: [&[&str]; 5] = [&[], &["Run"], &["run "], &["run", "run"], &["--", "run"]];
    for words in lists {
        let trial = Trial {
            words,
            ..Trial::of(PLAIN)
        };
        assert!(rt;
            trial.gives(rt.alloc(), 2, b"refused words\n")?,
            "{words:?}"
        );
    }
    Ok(())
}

/// Each read that fails: pieces of 16 bytes, and the end.
#[test]
fn failing_reads(rt: HostRuntime) -> Result<(), Fail> {
    let reads = (PLAIN.len() as u64).div_ceil(16) + 1;
    for failing_read in 1..reads + 1 {
        let trial = Trial {
            failing_read,
            ..Trial::of(PLAIN)
        };
        assert!(rt; trial.gives(rt.alloc(), 4, b"")?, "read {failing_read}");
    }
    let trial = Trial {
        failing_read: reads + 1,
        ..Trial::of(PLAIN)
    };
    assert!(rt; trial.gives(rt.alloc(), 0, b"0 s A::M\n")?);
    Ok(())
}

/// Each write that fails, for want of room or as listed, at each line that is written.
#[test]
fn failing_writes(rt: HostRuntime) -> Result<(), Fail> {
    let trials: [(&[&str], &[u8], u8, &[u8]); 3] = [
        (&["run"], PLAIN, 0, b"0 s A::M\n"),
        (&["run"], MISSING, 3, MISSING_LINE),
        (&[], PLAIN, 2, b"refused words\n"),
    ];
    for (words, text, status, line) in trials {
        let listed = Trial {
            words,
            failing_write: 1,
            ..Trial::of(text)
        };
        assert!(rt; listed.gives(rt.alloc(), 5, b"")?);
        for room in 0..line.len() {
            let full = Trial {
                words,
                room,
                ..Trial::of(text)
            };
            assert!(rt; full.gives(rt.alloc(), 5, &line[..room])?, "room {room}");
        }
        let just_enough = Trial {
            words,
            room: line.len(),
            ..Trial::of(text)
        };
        assert!(rt; just_enough.gives(rt.alloc(), status, line)?);
    }
    Ok(())
}
