//! A sink in memory.

ghost use Rattle.std.specs.Prelude.{◌≡◌, [], ◌++◌, ◌<◌, length, IsTrue, IsErr, IfOk, OnOk, OnErr, Some};

use crate::memory::fail::{Calls, Fail};
use crate::sink::Sink;
use crate::source::Failed;
use ebr_base::{Bytes, List};
use std::alloc::Global;
use std::marker::Model;

/// A sink that keeps its bytes and tells them.
#[derive(Debug, Drop)]
pub struct MemSink {
    word: Bytes,
    bytes: Bytes,
    calls: Calls,
}

impl Model for MemSink {
    ghost use Rattle.ebr_outside.specs.Memory.{SinkState};

    ghost Value = { SinkState };

    ghost view = { λ s. record { word = s.word; held = s.bytes; calls = s.calls } };
}

impl MemSink {
    ghost use Rattle.ebr_outside.specs.Calls.{none_made};

    /// An empty sink that is no word's. The writes that `failing` names fail.
    pub fn new(alloc: Global, failing: List<Fail>) -> MemSink
        ensures { result ≡ record { word = []; held = []; calls = none_made failing } }
    {
        MemSink::for_word(alloc, Bytes::new(alloc), failing)
    }

    /// An empty sink of a word. The writes that `failing` names fail.
    pub fn for_word(alloc: Global, word: Bytes, failing: List<Fail>) -> MemSink
        ensures { result ≡ record { word = word; held = []; calls = none_made failing } }
    {
        MemSink {
            word,
            bytes: Bytes::new(alloc),
            calls: Calls::new(failing),
        }
    }

    /// The bytes that were written.
    pub fn held(&self) -> &[u8]
        ensures { result.now ≡ self.now.held }
    {
        self.bytes.as_slice()
    }
}

impl Sink for MemSink {
    ghost use Rattle.ebr_outside.specs.Calls.{fails_next, after_call, after_fault};

    ghost word = { λ s. s.word };

    ghost held = { λ s. Some s.held };

    ghost faults = { λ s. s.calls.faults };

    /// Takes all the bytes. It fails where this write is named, and where there is no memory for them.
    fn write(&mut self, bytes: &[u8]) -> Result<usize, Failed>
        requires { 0 < length bytes.now }
        ensures fails { IsTrue (fails_next self.old.calls) → IsErr result }
        ensures whole { IfOk result (λ n. n ≡ length bytes.now) }
        ensures grown { OnOk result (self.new.held ≡ self.old.held ++ bytes.now) }
        ensures ok { OnOk result (self.new.calls ≡ after_call self.old.calls) }
        ensures same { self.new.word ≡ self.old.word }
        ensures err { OnErr result
            (self.new ≡ record self.old { calls = after_fault self.old.calls }) }
    {
        self.calls.begin()?;
        if self.bytes.extend(bytes).is_err() {
            self.calls.count_fault();
            return Err(Failed);
        }
        Ok(bytes.len())
    }
}
