//! A sink in memory that exposes its bytes, and of which chosen writes fail.

ghost use Rattle.std.specs.Prelude.{◌≡◌, ◌≤◌, ◌↔◌, [], ◌++◌, Some, if◌then◌else◌, is_ok, length, take, min, Contains, IsTrue, IfOk, IsErr};
ghost use Rattle.std.specs.Result.{result_unwrap_or};
ghost use Rattle.rtr_outside.specs.Counts.{one_more};
ghost use Rattle.rtr_outside.specs.MemSink.{IsRefused, room_left};

use crate::sink::{Sink, SinkFailed};
use rtr_bytes::NoMemory;
use std::alloc::Global;
use std::marker::Model;

/// A sink in memory. It exposes the bytes that it took, and takes no memory after it is made.
///
/// Its writes are numbered from 0, those of an empty piece too.
#[derive(Drop)]
pub struct MemSink {
    written: Vec<u8>,
    room: u32,
    fails: Vec<u32>,
    calls: u64,
    faults: u64,
}

impl Model for MemSink {
    ghost use Rattle.std.specs.Prelude.{vec_len, vec_capacity, ◌≤◌};
    ghost use Rattle.rtr_outside.specs.MemSink.{SinkInMemory};

    ghost Value = { SinkInMemory };

    ghost view = { λ s. record {
      written = s.written.items;
      room = s.room;
      fails = s.fails.items;
      calls = s.calls;
      faults = s.faults;
    } };

    ghost invariant = { λ s. (vec_len s.written ≤ s.room) × (s.room ≤ vec_capacity s.written) };
}

impl MemSink {
    /// An empty sink that takes at most `room` bytes, and of which the writes with the numbers in `fails` fail.
    /// `NoMemory` comes where there is no memory for `room` bytes, which it takes at once.
    pub fn new(alloc: Global, room: u32, fails: Vec<u32>) -> Result<MemSink, NoMemory>
        ensures { IfOk result (λ sink. sink ≡ record {
          written = [];
          room = room;
          fails = fails.items;
          calls = 0;
          faults = 0;
        }) }
    {
        let written = Vec::with_capacity(alloc, room as usize)?;
        Ok(MemSink {
            written,
            room,
            fails,
            calls: 0,
            faults: 0,
        })
    }

    /// The bytes written so far.
    pub fn bytes(&self) -> &[u8]
        ensures { result.now ≡ self.now.written }
    {
        self.written.as_slice()
    }

    /// How many bytes still fit.
    fn room_left(&self) -> usize
        ensures { result ≡ room_left self.now }
    {
        self.room as usize - self.written.len()
    }

    /// Whether the next write is one of those that fail.
    fn is_to_fail(&self) -> bool
        ensures { IsTrue result ↔ Contains self.now.fails self.now.calls }
    {
        let next = self.calls;
        self.fails.iter().any(|number| u64::from(*number) == next)
    }
}

impl Sink for MemSink {
    ghost written = { λ s. Some s.written };

    ghost faults = { λ s. s.faults };

    /// Takes as many bytes as still fit, and answers how many. `SinkFailed` comes exactly where the piece isn't
    /// empty, and its number is one of those that fail or nothing of it fits; then nothing is taken.
    fn write(&mut self, bytes: &[u8]) -> Result<usize, SinkFailed>
        ensures fails { IsErr result ↔ IsRefused self.old bytes.now }
        ensures taken { IfOk result (λ taken. taken ≡ min (length bytes.now) (room_left self.old)) }

        // It is counted, and where it fails it is a fault.
        ensures after { self.new ≡ record self.old {
          written = self.old.written ++ take (result_unwrap_or result 0) bytes.now;
          calls = one_more self.old.calls;
          faults = if is_ok result then self.old.faults else one_more self.old.faults;
        } }
        ensures never_falls { self.old.faults ≤ self.new.faults }
    {
        let taken = bytes.len().min(self.room_left());
        let fails = !bytes.is_empty() && (taken == 0 || self.is_to_fail());
        self.calls = self.calls.saturating_add(1);
        if fails {
            self.faults = self.faults.saturating_add(1);
            return Err(SinkFailed);
        }
        self.written.extend_from_slice(&bytes[..taken]).unwrap();
        Ok(taken)
    }
}
