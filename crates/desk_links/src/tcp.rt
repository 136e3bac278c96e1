//! Connections over TCP, a few lines over std. They tell nothing of content.
ghost use Rattle.std.specs.Prelude.{◌≡◌, ◌<◌, ◌-◌, ◌^◌, true, None, refl, ℕ, List, IfOk, OnOk, IsSome};
ghost use Rattle.std.specs.declared.option.Option.{Option};
ghost use Rattle.desk_outside.specs.Causes.{HasCause};
ghost use Rattle.desk_links.specs.Accepting.{Accepts};

use crate::acceptor::Acceptor;
use crate::link::Link;
use desk_outside::{Failed, Sink, Source, WriteStop};
use std::io;
use std::io::{Read, Write};
use std::net::{Net, Shutdown, SocketAddr, TcpListener, TcpStream};
use std::time::Duration;

/// A read or a write of a connection waits so many seconds at most.
const PATIENCE: u64 = 30;

/// So many bytes at most are read of a connection that is left.
const LINGER: usize = 1 << 20;

/// So many of them at a time.
const PIECE: usize = 4096;

/// An open connection. Where it is let go with bytes that may not have been read, it is shut for
/// writing and read on, so that closing it doesn't take away a reply that is still on its way.
struct Connection {
    stream: TcpStream,
    /// Its end was seen, or it failed.
    done: bool,
}

impl Connection {
    /// A connection that no read and no write waits on for longer than the limit.
    fn new(stream: TcpStream) -> io::Result<Connection> {
        let limit = Some(Duration::from_secs(PATIENCE));
        stream.set_read_timeout(limit)?;
        stream.set_write_timeout(limit)?;
        Ok(Connection {
            stream,
            done: false,
        })
    }
}

/// Shuts the connection for writing, and reads what still comes.
fn linger(stream: &mut TcpStream) {
    if stream.shutdown(Shutdown::Write).is_err() {
        return;
    }
    let mut room = [0; PIECE];
    let mut left = LINGER;
    while left > 0 {
        match stream.read(&mut room) {
            Ok(count) if count > 0 => left = left.saturating_sub(count),
            _ => return,
        }
    }
}

impl Drop for Connection {
    fn drop(self) {
        let Connection { stream, done } = self;
        let mut stream = stream;
        if !done {
            linger(&mut stream);
        }
    }
}

/// Connections over TCP at one address. It listens from `listen` on, or from the first accept.
#[derive(Drop)]
pub struct TcpAcceptor<R: Net<Listener = TcpListener, Stream = TcpStream> + Drop> {
    rt: R,
    address: SocketAddr,
    listener: Option<TcpListener>,
    current: Option<Connection>,
    faults: u64,
    refused: u64,
}

impl<R: Net<Listener = TcpListener, Stream = TcpStream> + Drop> TcpAcceptor<R> {
    /// Keeps the runtime for its listening.
    pub fn new(rt: R, address: SocketAddr) -> TcpAcceptor<R>
        ensures faults { result.faults ≡ 0 }
        ensures refused { result.refused ≡ 0 }
    {
        TcpAcceptor {
            rt,
            address,
            listener: None,
            current: None,
            faults: 0,
            refused: 0,
        }
    }

    /// Listens, where it doesn't yet. A failure counts as a failed accept.
    pub fn listen(&mut self) -> Result<(), Failed>
        ensures cause { HasCause (record {}) self.old.refused self.new.refused result }
        ensures faults { self.new.faults ≡ self.old.faults }
        ensures listens { OnOk result (IsSome self.new.listener) }
        ensures room { OnOk result (self.new.refused < 2 ^ 64 - 1) }
    {
        if self.refused == u64::MAX {
            return Err(Failed);
        }
        if self.listener.is_some() {
            return Ok(());
        }
        match TcpListener::bind(&self.rt, self.address) {
            Ok(listener) => {
                self.listener = Some(listener);
                Ok(())
            }
            Err(_) => {
                self.refused += 1;
                Err(Failed)
            }
        }
    }
}

impl<R: Net<Listener = TcpListener, Stream = TcpStream> + Drop> Source for TcpAcceptor<R> {
    ghost left = { λ _. None };

    ghost faults = { λ s. s.faults };

    ghost Rest = { ℕ };

    ghost rest = { λ s. s.refused };

    fn read(&mut self, room: &mut [u8]) -> Result<usize, Failed> {
        if self.faults == u64::MAX {
            return Err(Failed);
        }
        let Some(connection) = &mut self.current else {
            return Ok(0);
        };
        match connection.stream.read(room) {
            Ok(count) => {
                connection.done = count == 0 && !room.is_empty();
                Ok(count)
            }
            Err(_) => {
                connection.done = true;
                self.faults += 1;
                Err(Failed)
            }
        }
    }
}

impl<R: Net<Listener = TcpListener, Stream = TcpStream> + Drop> Sink for TcpAcceptor<R> {
    ghost written = { λ _. None };

    ghost faults = { λ s. s.faults };

    ghost shortages = { λ _. 0 };

    ghost Rest = { ℕ };

    ghost rest = { λ s. s.refused };

    fn write(&mut self, piece: &[u8]) -> Result<usize, WriteStop> {
        if self.faults == u64::MAX {
            return Err(WriteStop::Failed);
        }
        let Some(connection) = &mut self.current else {
            return Ok(piece.len());
        };
        if piece.is_empty() {
            return Ok(0);
        }
        match connection.stream.write(piece) {
            Ok(count) if count > 0 => Ok(count),
            _ => {
                connection.done = true;
                self.faults += 1;
                Err(WriteStop::Failed)
            }
        }
    }
}

impl<R: Net<Listener = TcpListener, Stream = TcpStream> + Drop> Link for TcpAcceptor<R> {
    ghost Else = { ℕ };

    ghost other = { λ s. s.refused };

    ghost one_count = { λ a. refl };

    ghost read_keeps_written = { λ a b same. refl };

    ghost write_keeps_left = { λ a b same. refl };

    ghost read_keeps_shortages = { λ a b same. refl };

    ghost read_keeps_other = { λ a b same. same };

    ghost write_keeps_other = { λ a b same. same };
}

/// The next connection.
fn next_connection(listener: &TcpListener) -> io::Result<Connection> {
    let (stream, _) = listener.accept()?;
    Connection::new(stream)
}

impl<R: Net<Listener = TcpListener, Stream = TcpStream> + Drop> Acceptor for TcpAcceptor<R> {
    ghost coming = { λ _. None };

    ghost before = { λ _. None };

    ghost refused = { λ s. s.refused };

    ghost link_keeps_coming = { λ a b same. refl };

    ghost link_keeps_before = { λ a b same. refl };

    ghost link_keeps_refused = { λ a b same. same };

    fn accept(&mut self) -> Result<bool, Failed>
        ensures connections { Accepts
            (record { left = None; written = None; before = None; coming = None })
            (record { left = None; written = None; before = None; coming = None })
            result }
        ensures cause { HasCause (record {}) self.old.refused self.new.refused result }
        ensures faults { self.new.faults ≡ self.old.faults }

        // It waits for the next connection, and never answers that none is left.
        ensures never_false { IfOk result (λ more. more ≡ true) }
    {
        self.listen()?;
        self.current = None;
        let next = match &self.listener {
            Some(listener) => next_connection(listener),
            None => unreachable!(),
        };
        match next {
            Ok(connection) => {
                self.current = Some(connection);
                Ok(true)
            }
            Err(_) => {
                self.refused += 1;
                Err(Failed)
            }
        }
    }
}
