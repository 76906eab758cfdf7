ghost use Rattle.std.specs.Prelude.{◌≡◌, ◌≤◌, ◌<◌, ◌+◌, [], length, drop, take, List, ℕ, Some, IfOk, vec_len, vec_capacity};
ghost use Rattle.folder_core.specs.Stream.{Reads};

use crate::schedule::Schedule;
use folder_core::{Failed, Input, Sink};
use osgi_version::{List, NoMemory};
use std::alloc::Global;

/// An input of given bytes.
#[derive(Debug, Drop)]
pub struct MemoryInput {
    bytes: List<u8>,
    taken: usize,
    schedule: Schedule,
    ghost within: { taken ≤ length bytes },
}

impl MemoryInput {
    ghost use Rattle.folder_memory.specs.MemorySink.{input_schedule};
    ghost use Rattle.folder_memory.specs.Schedule.{quiet};

    /// An input of these bytes. The listed calls fail, counted from 1.
    pub fn new(alloc: Global, bytes: List<u8>, failing: List<u64>) -> MemoryInput
        ensures told { ⟦<MemoryInput as Input>⟧.told result ≡ Some bytes }
        ensures schedule { input_schedule result ≡ record quiet { listed = failing } }
    {
        let mut schedule = Schedule::new(alloc);
        schedule.fail_at(failing);
        MemoryInput {
            bytes,
            taken: 0,
            schedule,
        }
    }
}

/// Puts a front of the bytes at the front of `into`: as many as both have.
fn fill(left: &[u8], into: &mut [u8]) -> usize
    ensures bound { result ≤ length into.new }
    ensures within { result ≤ length left.now }
    ensures reads { Reads result into.new left.now (drop result left.now) }
{
    let count = left.len().min(into.len());
    into[..count].copy_from_slice(&left[..count]);
    count
}

impl Input for MemoryInput {
    ghost use Rattle.std.specs.Prelude.{◌≡◌, ◌≤◌, ◌↔◌, length, drop, Some, IfOk, OnErr, IsErr};
    ghost use Rattle.folder_core.specs.Cause.{HasCause};
    ghost use Rattle.folder_core.specs.Step.{Step};
    ghost use Rattle.folder_core.specs.Stream.{Reads};
    ghost use Rattle.folder_memory.specs.MemorySink.{input_schedule};
    ghost use Rattle.folder_memory.specs.Schedule.{Counts, FailsNext};

    ghost told = { λ i. Some (drop i.taken i.bytes) };

    ghost faults = { λ i. i.schedule.faults };

    fn read(&mut self, into: &mut [u8]) -> Result<usize, Failed>
        ensures bound { IfOk result (λ n. n ≤ length into.new) }
        ensures taken { IfOk result (λ n. Step (⟦<MemoryInput as Input>⟧.told self.old) (⟦<MemoryInput as Input>⟧.told self.new) (Reads n into.new)) }
        ensures failed { OnErr result (Step (⟦<MemoryInput as Input>⟧.told self.old) (⟦<MemoryInput as Input>⟧.told self.new) (λ s t. t ≡ s)) }
        ensures cause { HasCause (input_schedule self.old).faults (input_schedule self.new).faults (IsErr result) }

        // It fails exactly where it is told to.
        ensures fails { IsErr result ↔ FailsNext (input_schedule self.old) }
        ensures counts { Counts (FailsNext (input_schedule self.old)) (input_schedule self.old) (input_schedule self.new) }
    {
        if self.schedule.next() {
            return Err(Failed);
        }
        let (_, left) = self.bytes.items().split_at(self.taken);
        let count = fill(left, into);
        self.taken += count;
        Ok(count)
    }
}

/// A sink that keeps the bytes, for as many as it has room.
#[derive(Debug, Drop)]
pub struct MemorySink {
    bytes: Vec<u8>,
    room: usize,
    schedule: Schedule,
    ghost within: { vec_len bytes ≤ room },
    ghost has_room: { room ≤ vec_capacity bytes },
}

impl MemorySink {
    ghost use Rattle.std.specs.Prelude.{◌↔◌, IsTrue};
    ghost use Rattle.folder_memory.specs.MemorySink.{IsFullFor, room_of, sink_schedule};
    ghost use Rattle.folder_memory.specs.Schedule.{quiet};

    /// A sink with room for so many bytes, for which it takes memory at once. The listed calls fail, counted from 1.
    pub fn new(alloc: Global, room: u64, failing: List<u64>) -> Result<MemorySink, NoMemory>
        ensures told { IfOk result (λ sink. ⟦<MemorySink as Sink>⟧.told sink ≡ Some []) }
        ensures room { IfOk result (λ sink. room_of sink ≡ room) }
        ensures schedule { IfOk result (λ sink. sink_schedule sink ≡ record quiet { listed = failing }) }
    {
        let room = room as usize;
        let bytes = Vec::with_capacity(alloc, room)?;
        let mut schedule = Schedule::new(alloc);
        schedule.fail_at(failing);
        Ok(MemorySink {
            bytes,
            room,
            schedule,
        })
    }

    /// The bytes written so far.
    pub fn bytes(&self) -> &[u8]
        ensures told { ⟦<MemorySink as Sink>⟧.told self.now ≡ Some result.now }
        ensures within { length result.now ≤ room_of self.now }
    {
        self.bytes.as_slice()
    }

    /// Whether no byte of a piece fits.
    fn is_full_for(&self, piece: &[u8]) -> bool
        ensures { IsTrue result ↔ IsFullFor self.now piece.now }
    {
        !piece.is_empty() && self.room <= self.bytes.len()
    }
}

impl Sink for MemorySink {
    ghost use Rattle.std.specs.Prelude.{◌≡◌, ◌≤◌, ◌<◌, ◌-◌, ◌↔◌, ◌++◌, min, length, take, Some, IfOk, OnErr, IsErr};
    ghost use Rattle.folder_core.specs.Cause.{HasCause};
    ghost use Rattle.folder_core.specs.Step.{Step};
    ghost use Rattle.folder_memory.specs.MemorySink.{FailsWrite, room_of, sink_schedule, written_to};
    ghost use Rattle.folder_memory.specs.Schedule.{Counts};

    ghost told = { λ s. Some s.bytes.items };

    ghost faults = { λ s. s.schedule.faults };

    /// Takes as many bytes as still fit. Without room it fails.
    fn write(&mut self, piece: &[u8]) -> Result<usize, Failed>
        ensures bound { IfOk result (λ n. n ≤ length piece.now) }
        ensures some { IfOk result (λ n. 0 < length piece.now → 0 < n) }
        ensures written { IfOk result (λ n. Step (⟦<MemorySink as Sink>⟧.told self.old) (⟦<MemorySink as Sink>⟧.told self.new) (λ s t. t ≡ s ++ take n piece.now)) }
        ensures failed { OnErr result (Step (⟦<MemorySink as Sink>⟧.told self.old) (⟦<MemorySink as Sink>⟧.told self.new) (λ s t. t ≡ s)) }
        ensures cause { HasCause (sink_schedule self.old).faults (sink_schedule self.new).faults (IsErr result) }

        // It fails exactly where it is told to, and where no byte fits. As many bytes as still fit are taken.
        ensures fails { IsErr result ↔ FailsWrite self.old piece.now }
        ensures counts { Counts (FailsWrite self.old piece.now) (sink_schedule self.old) (sink_schedule self.new) }
        ensures fits { IfOk result (λ n. n ≡ min (length piece.now) (room_of self.old - length (written_to self.old))) }
        ensures room { room_of self.new ≡ room_of self.old }
    {
        let is_full = self.is_full_for(piece);
        if self.schedule.next_or(is_full) {
            return Err(Failed);
        }
        let count = piece.len().min(self.room - self.bytes.len());
        if self.bytes.extend_from_slice(&piece[..count]).is_err() {
            unreachable!();
        }
        Ok(count)
    }
}
