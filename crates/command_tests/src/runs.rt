//! What a run answers where an end fails, and where the words are no command.

use crate::ends::{End, Left, SOUND, generate, printed, runs};
use std::test::Fail;

/// The document of a world without items, of 299 bytes; its file has 68.
pub(crate) const DOCUMENT: &str = concat!(
    r#"{"resolve":{"worlds":[{"name":{"wit":"w","snake":"w","camel":"W","upper":"W"},"package":0,"imports":[],"exports":[]}],"#,
    r#""packages":[{"namespace":{"wit":"t","snake":"t","camel":"T","upper":"T"},"#,
    r#""name":{"wit":"p","snake":"p","camel":"P","upper":"P"},"module":"p"}],"interfaces":[],"types":[]},"world":0}"#,
);

/// What a run that ends so leaves, where it read all and printed nothing.
fn told(status: u8, fault: usize) -> Left {
    Left {
        status,
        source: 0,
        out: 0,
        fault,
    }
}

#[test]
fn words_that_are_no_command_leave_the_source(rt: HostRuntime) -> Result<(), Fail> {
    let words: [&[&str]; 4] = [&[], &["generate", "generate"], &["sample"], &["Generate"]];
    for words in words {
        let left = runs(rt.alloc(), words, DOCUMENT.as_bytes(), SOUND, SOUND, SOUND)?;
        assert!(rt;
            left == Left {
                source: 299,
                ..told(2, 53)
            }
        );
    }
    Ok(())
}

#[test]
fn reads_that_fail(rt: HostRuntime) -> Result<(), Fail> {
    for (nth, most, source) in [(1, 4096, 299), (3, 1, 297), (2, 4096, 0)] {
        let read = End {
            fails: &[nth],
            most,
        };
        let left = generate(rt.alloc(), DOCUMENT.as_bytes(), read, SOUND, SOUND)?;
        assert!(rt;
            left == Left {
                source,
                ..told(3, 11)
            }
        );
    }
    Ok(())
}

#[test]
fn documents_that_are_cut(rt: HostRuntime) -> Result<(), Fail> {
    for cut in 0..DOCUMENT.len() {
        let left = generate(rt.alloc(), &DOCUMENT.as_bytes()[..cut], SOUND, SOUND, SOUND)?;
        assert!(rt; left == told(5, 24));
    }
    Ok(())
}

#[test]
fn a_byte_too_many(rt: HostRuntime) -> Result<(), Fail> {
    let spaces = vec![in rt.alloc(); b' '; 67_108_870]?;
    let left = generate(rt.alloc(), spaces.as_slice(), SOUND, SOUND, SOUND)?;
    assert!(rt;
        left == Left {
            source: 5,
            ..told(4, 33)
        }
    );
    Ok(())
}

#[test]
fn lines_that_cannot_be_told(rt: HostRuntime) -> Result<(), Fail> {
    for (nth, fault) in [(1, 0), (2, 10), (3, 20), (4, 24)] {
        let end = End {
            fails: &[nth],
            most: 10,
        };
        let left = generate(rt.alloc(), b"", SOUND, SOUND, end)?;
        assert!(rt; left == told(5, fault));
    }
    Ok(())
}

#[test]
fn writes_that_fail(rt: HostRuntime) -> Result<(), Fail> {
    for (nth, most, out) in [(1, 10, 0), (2, 10, 10), (7, 10, 60), (9, 0, 0)] {
        let end = End {
            fails: &[nth],
            most,
        };
        let left = generate(rt.alloc(), DOCUMENT.as_bytes(), SOUND, end, SOUND)?;
        assert!(rt;
            left == Left {
                out,
                ..told(15, 12)
            }
        );
    }
    Ok(())
}

#[test]
fn what_was_written_before_a_write_failed(rt: HostRuntime) -> Result<(), Fail> {
    let end = End {
        fails: &[2],
        most: 10,
    };
    let taken = printed(rt.alloc(), DOCUMENT.as_bytes(), end)?;
    assert!(rt; taken.as_slice() == b"// Generat".as_slice());
    Ok(())
}
