ghost use Rattle.std.specs.Prelude.{◌≡◌, slice_get};
ghost use Rattle.std.specs.Option.{option_copied};
ghost use Rattle.indexmap.specs.IndexMap.{get};
ghost use Rattle.c_names.specs.References.{same_place};

use crate::declaration::Declaration;
use indexmap::{IndexMap, IndexSet};
use misra_base::Place;

/// The names of a text.
#[derive(Drop)]
pub struct Names {
    /// The words that are names, numbered in the order of their first appearance.
    pub spellings: IndexSet<Vec<u8>>,
    /// The declarations, those before the text first, and then in the order in which their scopes begin.
    pub declarations: Vec<Declaration>,
    /// For the place of each name, the number of a declaration: its own where it is declared, and else that which its
    /// use refers to. The name of a member behind `.` or `->` has none.
    pub references: IndexMap<Place, usize>,
}

impl Names {
    /// The number of the declaration that stands at the place, or that the name there refers to.
    pub fn number_at(&self, place: Place) -> Option<usize>
        ensures { result ≡ get same_place self.now.references place }
    {
        self.references.get(&place).copied()
    }

    /// The declaration with the number.
    pub fn declaration(&self, number: usize) -> Option<Declaration>
        ensures { result ≡ slice_get self.now.declarations.items number }
    {
        self.declarations.get(number).copied()
    }
}
