//! The last accesses of each cell, of four kinds.
ghost use Rattle.std.specs.Prelude.{◌≡◌, not, OnOk, if◌then◌else◌};
ghost use Rattle.vector_clocks.specs.Clocks.{put_at};
ghost use Rattle.vector_clocks.specs.Events.{is_write, is_plain};
ghost use Rattle.vector_clocks.specs.Held.{clocks_of, last_of, changed, noted};

use crate::clocks::Clocks;
use crate::event::Access;
use std::alloc::{AllocError, Global};

/// By cells: of each lane, one more than the number of its last step that accesses the cell so.
#[derive(Drop)]
pub struct Accesses {
    all: Clocks,
    plain: Clocks,
    writes: Clocks,
    plain_writes: Clocks,
}

impl Accesses {
    pub fn new(alloc: Global) -> Accesses
        ensures { last_of result ≡ (λ if_it_writes if_it_is_plain cell lane. 0) }
    {
        Accesses {
            all: Clocks::new(alloc),
            plain: Clocks::new(alloc),
            writes: Clocks::new(alloc),
            plain_writes: Clocks::new(alloc),
        }
    }

    /// The kind of accesses that conflict with this one.
    pub fn rivals(&self, access: Access) -> &Clocks
        ensures { clocks_of result.now ≡ last_of self.now (not (is_write access)) (not (is_plain access)) }
    {
        if access.is_write() {
            if access.is_plain() {
                &self.all
            } else {
                &self.plain
            }
        } else {
            if access.is_plain() {
                &self.writes
            } else {
                &self.plain_writes
            }
        }
    }

    /// The step with this number, from 1, is now the last one of its lane that accesses the cell so.
    pub fn note(
        &mut self,
        alloc: Global,
        cell: u32,
        access: Access,
        lane: u32,
        count: u32,
    ) -> Result<(), AllocError>
        ensures { OnOk result (last_of self.new ≡ noted (last_of self.old) access cell (λ own. put_at own lane count)) }
    {
        self.all.mark(alloc, cell, lane, count)?;
        mark_if(&mut self.plain, access.is_plain(), alloc, cell, lane, count)?;
        mark_if(
            &mut self.writes,
            access.is_write(),
            alloc,
            cell,
            lane,
            count,
        )?;
        mark_if(
            &mut self.plain_writes,
            access.is_plain_write(),
            alloc,
            cell,
            lane,
            count,
        )?;
        Ok(())
    }
}

fn mark_if(
    clocks: &mut Clocks,
    is_of_the_kind: bool,
    alloc: Global,
    cell: u32,
    lane: u32,
    count: u32,
) -> Result<(), AllocError>
    ensures { OnOk result (clocks_of clocks.new
        ≡ (if is_of_the_kind then changed (clocks_of clocks.old) cell (λ own. put_at own lane count) else clocks_of clocks.old)) }
{
    if is_of_the_kind {
        clocks.mark(alloc, cell, lane, count)?;
    }
    Ok(())
}
