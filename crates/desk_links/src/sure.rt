use crate::acceptor::Acceptor;
use crate::connections::Connections;
use crate::link::Link;
use desk_outside::{Failed, Sink, Source, WriteStop};
use std::alloc::{AllocError, Global};
use std::marker::Model;

/// Connections in memory whose calls never fail.
#[derive(Drop)]
pub struct SureAcceptor {
    connections: Connections,
    shortages: u64,
}

impl Model for SureAcceptor {
    ghost use Rattle.desk_links.specs.Connections.{SureAcceptorView};

    ghost Value = { SureAcceptorView };

    ghost view = { λ a. record { connections = a.connections; shortages = a.shortages } };
}

impl SureAcceptor {
    ghost use Rattle.std.specs.Prelude.{◌≡◌, ◌<◌, ◌+◌, ◌++◌, ◌∷◌, [], IfOk, length, slice_index_or};
    ghost use Rattle.desk_links.specs.Connections.{lists_of, none_accepted};

    /// None of the connections is current. It takes the memory that the accepts will need.
    pub fn new(alloc: Global, connections: Vec<Vec<u8>>) -> Result<SureAcceptor, AllocError>
        ensures { IfOk result (λ a. a ≡ record { connections = none_accepted (lists_of connections.items); shortages = 0 }) }
    {
        let connections = Connections::new(alloc, connections)?;
        Ok(SureAcceptor {
            connections,
            shortages: 0,
        })
    }

    /// What was written on a connection, by its place among those that were handed in.
    pub fn written(&self, connection: usize) -> &[u8]
        requires { connection < length self.now.connections.before + length self.now.connections.coming }
        ensures { result.now ≡ slice_index_or (self.now.connections.before ++ self.now.connections.written ∷ []) (connection + 1) [] }
    {
        self.connections.written(connection)
    }
}

impl Source for SureAcceptor {
    ghost use Rattle.std.specs.Prelude.{◌≡◌, Some, IsOk};
    ghost use Rattle.std.specs.Io.{ReadsAtMost};
    ghost use Rattle.std.specs.Io.KnownBytes.{ReadConsumes};
    ghost use Rattle.desk_outside.specs.Causes.{HasCause};
    ghost use Rattle.desk_links.specs.Connections.{SureReadRest, sure_read_rest};

    ghost left = { λ a. Some a.connections.left };

    ghost faults = { λ _. 0 };

    ghost Rest = { SureReadRest };

    ghost rest = { λ a. sure_read_rest a };

    fn read(&mut self, room: &mut [u8]) -> Result<usize, Failed>
        ensures bound { ReadsAtMost result room.new }
        ensures bytes { ReadConsumes (Some self.old.connections.left) (Some self.new.connections.left) result room.new }
        ensures rest { sure_read_rest self.new ≡ sure_read_rest self.old }
        ensures cause { HasCause (record {}) 0 0 result }
        ensures sure { IsOk result }
    {
        Ok(self.connections.read(room))
    }
}

impl Sink for SureAcceptor {
    ghost use Rattle.std.specs.Prelude.{◌≡◌, Some, length, IfOk, IsErrOf};
    ghost use Rattle.std.specs.Io.KnownBytes.{WriteAppends};
    ghost use Rattle.desk_outside.specs.Causes.{HasCause};
    ghost use Rattle.desk_outside.specs.Devices.{WritesSome};
    ghost use Rattle.desk_links.specs.Connections.{SureWriteRest, sure_write_rest};

    ghost written = { λ a. Some a.connections.written };

    ghost faults = { λ _. 0 };

    ghost shortages = { λ a. a.shortages };

    ghost Rest = { SureWriteRest };

    ghost rest = { λ a. sure_write_rest a };

    fn write(&mut self, piece: &[u8]) -> Result<usize, WriteStop>
        ensures bound { WritesSome result piece.now }
        ensures bytes { WriteAppends (Some self.old.connections.written) (Some self.new.connections.written) result piece.now }
        ensures rest { sure_write_rest self.new ≡ sure_write_rest self.old }
        ensures cause { HasCause WriteStop.Failed 0 0 result }
        ensures shortage { HasCause WriteStop.Memory self.old.shortages self.new.shortages result }

        // It takes whole pieces, and never fails.
        ensures all { IfOk result (λ count. count ≡ length piece.now) }
        ensures sure { IsErrOf result WriteStop.Failed → ⊥ }
    {
        match self.connections.write(piece) {
            Ok(()) => Ok(piece.len()),
            Err(_) => {
                self.shortages = self.shortages.saturating_add(1);
                Err(WriteStop::Memory)
            }
        }
    }
}

impl Link for SureAcceptor {
    ghost use Rattle.std.proofs.Common.{ap, refl};
    ghost use Rattle.std.specs.Prelude.{Some};
    ghost use Rattle.desk_links.specs.Connections.{SureRest, sure_rest};

    ghost Else = { SureRest };

    ghost other = { λ a. sure_rest a };

    ghost one_count = { λ a. refl };

    ghost read_keeps_written = { λ a b same. ap (λ r. Some r.written) same };

    ghost write_keeps_left = { λ a b same. ap (λ r. Some r.left) same };

    ghost read_keeps_shortages = { λ a b same. ap (λ r. r.shortages) same };

    ghost read_keeps_other = { λ a b same. ap (λ r. r.other) same };

    ghost write_keeps_other = { λ a b same. ap (λ r. r.other) same };
}

impl Acceptor for SureAcceptor {
    ghost use Rattle.std.proofs.Common.{ap, refl};
    ghost use Rattle.std.specs.Prelude.{◌≡◌, Ok, Some};
    ghost use Rattle.desk_outside.specs.Causes.{HasCause};
    ghost use Rattle.desk_links.specs.Accepting.{Accepts};
    ghost use Rattle.desk_links.specs.Connections.{is_coming, situation_of};

    ghost coming = { λ a. Some a.connections.coming };

    ghost before = { λ a. Some a.connections.before };

    ghost refused = { λ _. 0 };

    ghost link_keeps_coming = { λ a b same. ap (λ r. Some r.coming) same };

    ghost link_keeps_before = { λ a b same. ap (λ r. Some r.before) same };

    ghost link_keeps_refused = { λ a b same. refl };

    fn accept(&mut self) -> Result<bool, Failed>
        ensures connections { Accepts (situation_of self.old.connections) (situation_of self.new.connections) result }
        ensures cause { HasCause (record {}) 0 0 result }
        ensures shortages { self.new.shortages ≡ self.old.shortages }
        ensures sure { result ≡ Ok (is_coming self.old.connections.coming) }
    {
        Ok(self.connections.accept())
    }
}
