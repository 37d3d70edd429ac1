//! A source in memory.

ghost use Rattle.std.specs.Prelude.{◌≡◌, ◌++◌, ◌<◌, ◌↔◌, length, take, drop, min, IsTrue, IsErr, IfOk, OnOk, OnErr, Some};

use crate::memory::fail::{Calls, Fail};
use crate::source::{Failed, Source};
use ebr_base::{Bytes, List};
use std::marker::Model;

/// Bytes as a source that tells them.
#[derive(Debug, Drop)]
pub struct MemSource {
    word: Bytes,
    bytes: Bytes,
    place: usize,
    calls: Calls,
}

impl Model for MemSource {
    ghost use Rattle.std.specs.Prelude.{◌≤◌, length, drop};
    ghost use Rattle.ebr_outside.specs.Memory.{SourceState};

    ghost Value = { SourceState };

    ghost view = { λ s. record { word = s.word; left = drop s.place s.bytes; calls = s.calls } };

    ghost invariant = { λ s. s.place ≤ length s.bytes };
}

impl MemSource {
    ghost use Rattle.ebr_outside.specs.Calls.{none_made};

    /// A source of a word, with these bytes. The reads that `failing` names fail.
    pub fn new(word: Bytes, bytes: Bytes, failing: List<Fail>) -> MemSource
        ensures { result ≡ record { word = word; left = bytes; calls = none_made failing } }
    {
        MemSource {
            word,
            bytes,
            place: 0,
            calls: Calls::new(failing),
        }
    }
}

impl Source for MemSource {
    ghost use Rattle.ebr_outside.specs.Calls.{fails_next, after_call, after_fault};

    ghost word = { λ s. s.word };

    ghost left = { λ s. Some s.left };

    ghost faults = { λ s. s.calls.faults };

    /// Reads as many bytes as fit, or as are left. It fails exactly where this read is named.
    fn read(&mut self, into: &mut [u8]) -> Result<usize, Failed>
        requires { 0 < length into.old }
        ensures fails { IsErr result ↔ IsTrue (fails_next self.old.calls) }
        ensures all_that_fit { IfOk result (λ n. n ≡ min (length into.old) (length self.old.left)) }
        ensures copied { IfOk result (λ n. into.new ≡ take n self.old.left ++ drop n into.old) }
        ensures rest { IfOk result (λ n. self.new.left ≡ drop n self.old.left) }
        ensures ok { OnOk result (self.new.calls ≡ after_call self.old.calls) }
        ensures same { self.new.word ≡ self.old.word }
        ensures err { OnErr result
            (self.new ≡ record self.old { calls = after_fault self.old.calls }) }
    {
        self.calls.begin()?;
        let n = copy_front(&self.bytes.as_slice()[self.place..], into);
        self.place += n;
        Ok(n)
    }
}

/// Copies as many bytes as fit, or as there are, to the front of a slice, and says how many.
fn copy_front(from: &[u8], into: &mut [u8]) -> usize
    ensures all_that_fit { result ≡ min (length into.old) (length from.now) }
    ensures copied { into.new ≡ take result from.now ++ drop result into.old }
{
    let n = into.len().min(from.len());
    into[..n].copy_from_slice(&from[..n]);
    n
}
