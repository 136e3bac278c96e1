ghost use Rattle.std.specs.Prelude.{◌≡◌, ◌<◌, ◌++◌, ℕ, [], IfOk, OnOk, OnErr, length, slice_index_or, slice_set};
ghost use Rattle.desk_links.specs.Connections.{lists_of};

use std::alloc::{AllocError, Global};
use std::marker::Model;
use std::vec::IntoIter;

/// Connections in memory, of which one may be current. Before one is, no bytes are left, and what
/// is written goes to a list of its own.
#[derive(Drop)]
pub struct Connections {
    coming: IntoIter<Vec<u8>>,
    incoming: Vec<u8>,
    at: usize,
    /// What is written before any connection, and then on each of them.
    written: Vec<Vec<u8>>,
    /// How many were accepted, and so the place of the current one in `written`.
    accepted: usize,
}

impl Model for Connections {
    ghost use Rattle.std.specs.Prelude.{◌≡◌, ◌<◌, ◌≤◌, ◌+◌, ℕ, [], drop, take, length, slice_index_or};
    ghost use Rattle.std.specs.Vec.Iter.{into_iter_items};
    ghost use Rattle.desk_links.specs.Connections.{ConnectionsView, lists_of};

    ghost Value = { ConnectionsView };

    ghost view = { λ c. record {
      left = drop c.at c.incoming.items;
      written = slice_index_or (lists_of c.written.items) c.accepted [];
      before = take c.accepted (lists_of c.written.items);
      coming = lists_of (into_iter_items c.coming);
    } };

    ghost invariant = { λ c.
        (c.at ≤ length c.incoming.items)
        × (length c.written.items ≡ c.accepted + 1 + length (into_iter_items c.coming))
        × ((k : ℕ) → c.accepted < k → slice_index_or (lists_of c.written.items) k [] ≡ []) };
}

/// So many empty lists.
#[tactic(auto, using(crate::proofs::Lists::one_more_empty))]
fn empty_lists(alloc: Global, count: usize) -> Result<Vec<Vec<u8>>, AllocError>
    ensures length { IfOk result (λ lists. length lists.items ≡ count) }
    ensures empty { IfOk result (λ lists. (k : ℕ) → slice_index_or (lists_of lists.items) k [] ≡ []) }
{
    let mut lists = Vec::new(alloc);
    for _ in 0..count {
        lists.push(Vec::new(alloc))?;
    }
    Ok(lists)
}

/// Adds the piece to the list at the place. Without memory nothing is added.
#[tactic(auto, using(crate::proofs::Lists::extended, crate::proofs::Lists::unextended))]
fn append_at(lists: &mut Vec<Vec<u8>>, place: usize, piece: &[u8]) -> Result<(), AllocError>
    requires { place < length lists.old.items }
    ensures length { length lists.new.items ≡ length lists.old.items }
    ensures ok { OnOk result (lists_of lists.new.items ≡ slice_set (lists_of lists.old.items) place (slice_index_or (lists_of lists.old.items) place [] ++ piece.now)) }
    ensures err { OnErr result (lists_of lists.new.items ≡ lists_of lists.old.items) }
{
    lists[place].extend_from_slice(piece)
}

impl Connections {
    ghost use Rattle.std.specs.Prelude.{◌≡◌, ◌<◌, ◌+◌, ◌++◌, ◌∷◌, [], IfOk, OnOk, OnErr, drop, length, min, take, slice_index_or};
    ghost use Rattle.desk_links.specs.Connections.{after_next, is_coming, lists_of, none_accepted};

    /// None is current. The lists of what will be written on them are made now, so that an accept
    /// takes no memory.
    pub fn new(alloc: Global, connections: Vec<Vec<u8>>) -> Result<Connections, AllocError>
        ensures { IfOk result (λ c. c ≡ none_accepted (lists_of connections.items)) }
    {
        let written = empty_lists(alloc, connections.len() + 1)?;
        Ok(Connections {
            coming: connections.into_iter(),
            incoming: Vec::new(alloc),
            at: 0,
            written,
            accepted: 0,
        })
    }

    /// Makes the next connection current. False where none is left.
    pub fn accept(&mut self) -> bool
        ensures next { self.new ≡ after_next self.old.coming self.old }
        ensures more { result ≡ is_coming self.old.coming }
    {
        match self.coming.next() {
            Some(incoming) => {
                self.incoming = incoming;
                self.at = 0;
                self.accepted += 1;
                true
            }
            None => false,
        }
    }

    /// Moves as many of the bytes left as there are, or the room takes.
    pub fn read(&mut self, room: &mut [u8]) -> usize
        ensures count { result ≡ min (length self.old.left) (length room.old) }
        ensures moved { take result room.new ≡ take result self.old.left }
        ensures left { self.new ≡ record self.old { left = drop result self.old.left } }
    {
        let left = &self.incoming[self.at..];
        let count = usize::min(left.len(), room.len());
        room[..count].copy_from_slice(&left[..count]);
        self.at += count;
        count
    }

    /// Writes the piece on the current connection. Without memory nothing is written.
    #[tactic(auto, using(crate::proofs::Lists::empty_after, crate::proofs::Lists::one_written, crate::proofs::Lists::none_written))]
    pub fn write(&mut self, piece: &[u8]) -> Result<(), AllocError>
        ensures written { OnOk result (self.new ≡ record self.old { written = self.old.written ++ piece.now }) }
        ensures stays { OnErr result (self.new ≡ self.old) }
    {
        append_at(&mut self.written, self.accepted, piece)
    }

    /// What was written on a connection.
    pub fn written(&self, connection: usize) -> &[u8]
        requires { connection < length self.now.before + length self.now.coming }
        ensures { result.now ≡ slice_index_or (self.now.before ++ self.now.written ∷ []) (connection + 1) [] }
    {
        self.written[connection + 1].as_slice()
    }
}
