ghost use Rattle.std.specs.Prelude.{◌≡◌, ◌+◌, ◌<◌, ◌≤◌, ◌↔◌, ◌⊎◌, List, [], ℕ, Some, IfOk, OnOk, OnErr, IsErr, length, take, min, vec_len, vec_capacity};
ghost use Rattle.std.specs.Io.{WritesAtMost};
ghost use Rattle.std.specs.Io.KnownBytes.{Appends, Keeps};
ghost use Rattle.bye_io.specs.Counts.{raised, Rose};
ghost use Rattle.bye_io.specs.Plan.{CountsCall, IsNewPlan, IsToFail};

use crate::fault::Failed;
use crate::plan::Plan;
use crate::sink::Sink;
use bye_terms::Memory;
use std::alloc::Global;

/// A sink in memory, with room for so many bytes. It tells the bytes that were sent.
#[derive(Drop)]
pub struct MemSink {
    kept: Vec<u8>,
    room: usize,
    plan: Plan,
    ghost reserved: { vec_len kept + room ≤ vec_capacity kept },
}

impl MemSink {
    ghost use Rattle.bye_io.specs.InMemory.{sink_plan, sink_room};

    /// A sink with room for `room` bytes, which it reserves. The calls of the numbers in `fails`, from 1 on,
    /// are to fail, and one write takes at most `most` bytes.
    pub fn new(alloc: Global, room: u64, fails: Vec<u64>, most: u64) -> Result<Self, Memory>
        requires { 1 ≤ most }
        ensures sent { IfOk result (λ sink. ⟦<MemSink as Sink>⟧.sent sink ≡ Some []) }
        ensures room { IfOk result (λ sink. sink_room sink ≡ room) }
        ensures faults { IfOk result (λ sink. ⟦<MemSink as Sink>⟧.faults sink ≡ 0) }
        ensures plan { IfOk result (λ sink. IsNewPlan (sink_plan sink) fails.items most) }
    {
        let room = room as usize;
        let kept = Vec::with_capacity(alloc, room)?;
        Ok(MemSink {
            kept,
            room,
            plan: Plan::new(fails, most),
        })
    }

    /// The bytes that were sent.
    pub fn sent(&self) -> &[u8]
        ensures { ⟦<MemSink as Sink>⟧.sent self.now ≡ Some result.now }
    {
        &self.kept
    }
}

impl Sink for MemSink {
    ghost use Rattle.bye_io.specs.InMemory.{sink_plan, sink_room, sink_sent};

    ghost Aside = { Unit {0} };

    ghost sent = { λ s. Some (sink_sent s) };

    ghost faults = { λ s. (sink_plan s).faults };

    ghost doors = { λ s. 0 };

    ghost aside = { λ s. tt };

    fn write(&mut self, piece: &[u8]) -> Result<usize, Failed>
        requires { 0 < length piece.now }
        ensures bound { WritesAtMost result piece.now }
        ensures some { IfOk result (λ n. 0 < n) }
        ensures grown { IfOk result (λ n.
            Appends (Some (sink_sent self.old)) (Some (sink_sent self.new)) (take n piece.now)) }
        ensures kept { OnErr result
            (Keeps (Some (sink_sent self.old)) (Some (sink_sent self.new))) }
        ensures cause { OnErr result
            (Rose (sink_plan self.old).faults (sink_plan self.new).faults) }
        ensures later { (sink_plan self.old).faults ≤ (sink_plan self.new).faults }

        // It fails where the plan says so and where no room is left, and else takes as many bytes as it may.
        ensures planned { IsErr result ↔ IsToFail (sink_plan self.old) ⊎ (sink_room self.old ≡ 0) }
        ensures count { IfOk result (λ n.
            n ≡ min (min (length piece.now) (sink_room self.old)) (sink_plan self.old).most) }
        ensures room { sink_room self.new + length (sink_sent self.new)
            ≡ sink_room self.old + length (sink_sent self.old) }
        ensures counted { CountsCall (sink_plan self.old) (sink_plan self.new) }
        ensures fault { OnErr result
            ((sink_plan self.new).faults ≡ raised (sink_plan self.old).faults) }
        ensures no_fault { OnOk result ((sink_plan self.new).faults ≡ (sink_plan self.old).faults) }
    {
        if self.plan.fails_now() {
            return Err(Failed);
        }
        if self.room == 0 {
            self.plan.raise();
            return Err(Failed);
        }
        let n = piece.len().min(self.room).min(self.plan.most as usize);
        let (front, _) = piece.split_at(n);
        self.room -= n;
        if self.kept.extend_from_slice(front).is_err() {
            unreachable!();
        }
        Ok(n)
    }
}
