//! What no clause says: that long and hostile scripts are cut, and come to an end.

use ebr_base::{Bytes, MAX_COUNT, NoMemory};
use ebr_cut::cut;
use std::alloc::Global;
use std::test::Fail;

/// A text, so many times, and then another.
fn repeated(alloc: Global, text: &[u8], count: usize, back: &[u8]) -> Result<Bytes, NoMemory> {
    let mut whole = Bytes::new(alloc);
    for _ in 0..count {
        whole.extend(text)?;
    }
    whole.extend(back)?;
    Ok(whole)
}

/// How many pieces a script has.
fn count(alloc: Global, script: &[u8]) -> Result<usize, NoMemory> {
    if script.len() >= MAX_COUNT {
        return Err(NoMemory);
    }
    Ok(cut(alloc, script)?.len())
}

/// What is repeated, how often, what follows, and the number of pieces.
static LONG: [(&[u8], usize, &[u8], usize); 16] = [
    (b"a", 200000, b"", 1),
    (b";", 200000, b"", 200000),
    (b"a;\n", 70000, b"", 70000),
    (b" ", 200000, b"", 0),
    (b"/*x*/", 40000, b"", 0),
    (b"/*", 100000, b"", 1),
    (b"--\n", 70000, b"", 0),
    (b"\n/", 100000, b"\n", 0),
    (b"/ ", 100000, b"", 1),
    (b"BEGIN\n/\n", 25000, b"", 25000),
    (b"BEGIN\n", 30000, b"", 1),
    (b"CREATE /**/", 18000, b"", 1),
    // Each of these heads goes on behind the one comment that ends.
    (b"CREATE /*\n/\n", 16000, b"*/ PROCEDURE", 16001),
    (b"CREATE OR /**/ /*\n/\n", 9000, b"*/ REPLACE PACKAGE", 9001),
    (b"a'';", 50000, b"", 50000),
    (b"'", 200001, b"", 1),
];

#[test]
fn long_scripts_are_cut(rt: HostRuntime) -> Result<(), Fail> {
    let alloc = rt.alloc();
    for (text, times, back, pieces) in &LONG {
        let script = repeated(alloc, text, *times, back)?;
        assert!(rt;
            count(alloc, script.as_slice())? == *pieces,
            "{times} times {text:?}"
        );
    }
    Ok(())
}
