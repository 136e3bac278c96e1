use crate::acceptor::Acceptor;
use crate::calls::Calls;
use crate::connections::Connections;
use crate::link::Link;
use desk_outside::{Failed, Sink, Source, WriteStop};
use std::alloc::{AllocError, Global};
use std::marker::Model;

/// Connections in memory. Reads and writes are numbered together from 1, accepts by themselves. A
/// call fails where its number is one of those that are to fail, and then changes the counts alone.
#[derive(Drop)]
pub struct MemoryAcceptor {
    connections: Connections,
    calls: Calls,
    accepts: Calls,
    shortages: u64,
}

impl Model for MemoryAcceptor {
    ghost use Rattle.desk_links.specs.Connections.{AcceptorView};

    ghost Value = { AcceptorView };

    ghost view = { λ a. record { connections = a.connections; calls = a.calls; accepts = a.accepts; shortages = a.shortages } };
}

impl MemoryAcceptor {
    ghost use Rattle.std.specs.Prelude.{◌≡◌, ◌<◌, ◌+◌, ◌++◌, ◌∷◌, [], IfOk, length, slice_index_or};
    ghost use Rattle.desk_links.specs.Connections.{lists_of, none_accepted};

    /// None of the connections is current. `failing` has the numbers of the reads and writes that
    /// fail, and `refusing` those of the accepts. It takes the memory that the accepts will need.
    pub fn new(
        alloc: Global,
        connections: Vec<Vec<u8>>,
        failing: Vec<u64>,
        refusing: Vec<u64>,
    ) -> Result<MemoryAcceptor, AllocError>
        ensures { IfOk result (λ a. a ≡ record {
          connections = none_accepted (lists_of connections.items);
          calls = record { made = 0; failing = failing.items; faults = 0 };
          accepts = record { made = 0; failing = refusing.items; faults = 0 };
          shortages = 0;
        }) }
    {
        let connections = Connections::new(alloc, connections)?;
        Ok(MemoryAcceptor {
            connections,
            calls: Calls::new(failing),
            accepts: Calls::new(refusing),
            shortages: 0,
        })
    }

    /// What was written on a connection, by its place among those that were handed in.
    pub fn written(&self, connection: usize) -> &[u8]
        requires { connection < length self.now.connections.before + length self.now.connections.coming }
        ensures { result.now ≡ slice_index_or (self.now.connections.before ++ self.now.connections.written ∷ []) (connection + 1) [] }
    {
        self.connections.written(connection)
    }
}

impl Source for MemoryAcceptor {
    ghost use Rattle.std.specs.Prelude.{◌≡◌, ℕ, List, Some, is_err};
    ghost use Rattle.std.specs.Io.{ReadsAtMost};
    ghost use Rattle.std.specs.Io.KnownBytes.{ReadConsumes};
    ghost use Rattle.desk_outside.specs.Causes.{HasCause};
    ghost use Rattle.desk_outside.specs.Memory.{CallsView, is_next_failing, after_call};
    ghost use Rattle.desk_links.specs.Connections.{ReadRest, read_rest};

    ghost left = { λ a. Some a.connections.left };

    ghost faults = { λ a. a.calls.faults };

    ghost Rest = { ReadRest };

    ghost rest = { λ a. read_rest a };

    fn read(&mut self, room: &mut [u8]) -> Result<usize, Failed>
        ensures bound { ReadsAtMost result room.new }
        ensures bytes { ReadConsumes (Some self.old.connections.left) (Some self.new.connections.left) result room.new }
        ensures rest { read_rest self.new ≡ read_rest self.old }
        ensures cause { HasCause (record {}) self.old.calls.faults self.new.calls.faults result }

        // Exactly where it fails, and what it counts.
        ensures fails { is_err result ≡ is_next_failing self.old.calls }
        ensures counts { self.new.calls ≡ after_call self.old.calls (is_err result) }
    {
        if self.calls.begin() {
            self.calls.fail();
            return Err(Failed);
        }
        Ok(self.connections.read(room))
    }
}

impl Sink for MemoryAcceptor {
    ghost use Rattle.std.specs.Prelude.{◌≡◌, ℕ, List, Some, length, IfOk, IsErrOf, ◌↔◌, IsTrue};
    ghost use Rattle.std.specs.Io.KnownBytes.{WriteAppends};
    ghost use Rattle.desk_outside.specs.Causes.{HasCause};
    ghost use Rattle.desk_outside.specs.Devices.{WritesSome};
    ghost use Rattle.desk_outside.specs.Memory.{is_next_failing, after_call};
    ghost use Rattle.desk_links.specs.Connections.{WriteRest, write_rest};

    ghost written = { λ a. Some a.connections.written };

    ghost faults = { λ a. a.calls.faults };

    ghost shortages = { λ a. a.shortages };

    ghost Rest = { WriteRest };

    ghost rest = { λ a. write_rest a };

    fn write(&mut self, piece: &[u8]) -> Result<usize, WriteStop>
        ensures bound { WritesSome result piece.now }
        ensures bytes { WriteAppends (Some self.old.connections.written) (Some self.new.connections.written) result piece.now }
        ensures rest { write_rest self.new ≡ write_rest self.old }
        ensures cause { HasCause WriteStop.Failed self.old.calls.faults self.new.calls.faults result }
        ensures memory { IsErrOf result WriteStop.Memory → self.new.calls.faults ≡ self.old.calls.faults }
        ensures shortage { HasCause WriteStop.Memory self.old.shortages self.new.shortages result }

        // It takes whole pieces. Exactly where it fails, and what it counts.
        ensures all { IfOk result (λ count. count ≡ length piece.now) }
        ensures fails { IsErrOf result WriteStop.Failed ↔ IsTrue (is_next_failing self.old.calls) }
        ensures counts { self.new.calls ≡ after_call self.old.calls (is_next_failing self.old.calls) }
    {
        if self.calls.begin() {
            self.calls.fail();
            return Err(WriteStop::Failed);
        }
        match self.connections.write(piece) {
            Ok(()) => Ok(piece.len()),
            Err(_) => {
                self.shortages = self.shortages.saturating_add(1);
                Err(WriteStop::Memory)
            }
        }
    }
}

impl Link for MemoryAcceptor {
    ghost use Rattle.std.proofs.Common.{ap, refl};
    ghost use Rattle.std.specs.Prelude.{Some};
    ghost use Rattle.desk_links.specs.Connections.{LinkRest, link_rest};

    ghost Else = { LinkRest };

    ghost other = { λ a. link_rest a };

    ghost one_count = { λ a. refl };

    ghost read_keeps_written = { λ a b same. ap (λ r. Some r.written) same };

    ghost write_keeps_left = { λ a b same. ap (λ r. Some r.left) same };

    ghost read_keeps_shortages = { λ a b same. ap (λ r. r.shortages) same };

    ghost read_keeps_other = { λ a b same. ap (λ r. r.other) same };

    ghost write_keeps_other = { λ a b same. ap (λ r. r.other) same };
}

impl Acceptor for MemoryAcceptor {
    ghost use Rattle.std.proofs.Common.{ap};
    ghost use Rattle.std.specs.Prelude.{◌≡◌, Some, is_err, IfOk};
    ghost use Rattle.desk_outside.specs.Causes.{HasCause};
    ghost use Rattle.desk_outside.specs.Memory.{is_next_failing, after_call};
    ghost use Rattle.desk_links.specs.Accepting.{Accepts};
    ghost use Rattle.desk_links.specs.Connections.{is_coming, situation_of};

    ghost coming = { λ a. Some a.connections.coming };

    ghost before = { λ a. Some a.connections.before };

    ghost refused = { λ a. a.accepts.faults };

    ghost link_keeps_coming = { λ a b same. ap (λ r. Some r.coming) same };

    ghost link_keeps_before = { λ a b same. ap (λ r. Some r.before) same };

    ghost link_keeps_refused = { λ a b same. ap (λ r. r.accepts.faults) same };

    fn accept(&mut self) -> Result<bool, Failed>
        ensures connections { Accepts (situation_of self.old.connections) (situation_of self.new.connections) result }
        ensures cause { HasCause (record {}) self.old.accepts.faults self.new.accepts.faults result }
        ensures faults { self.new.calls.faults ≡ self.old.calls.faults }
        ensures shortages { self.new.shortages ≡ self.old.shortages }

        // Exactly where it fails, and what it counts and changes.
        ensures fails { is_err result ≡ is_next_failing self.old.accepts }
        ensures counts { self.new.accepts ≡ after_call self.old.accepts (is_err result) }
        ensures more { IfOk result (λ more. more ≡ is_coming self.old.connections.coming) }
        ensures calls { self.new.calls ≡ self.old.calls }
    {
        if self.accepts.begin() {
            self.accepts.fail();
            return Err(Failed);
        }
        Ok(self.connections.accept())
    }
}
