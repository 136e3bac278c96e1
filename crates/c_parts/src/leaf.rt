ghost use Rattle.std.specs.Prelude.{◌≡◌, IfOk};
ghost use Rattle.c_parts.specs.PartViews.{leaf_view};

use c_rawtree::Word;
use misra_base::{Name, Place};
use std::alloc::{AllocError, Global};

/// A token as a leaf of the tree.
#[derive(Clone, Copy)]
pub struct Leaf<'a> {
    pub place: Place,
    /// Its bytes.
    pub text: &'a [u8],
}

impl<'a> Leaf<'a> {
    /// A copy of the token's text, with its place.
    pub fn word(&self, alloc: Global) -> Result<Word, AllocError>
        ensures { IfOk result (λ w. w ≡ leaf_view self.now) }
    {
        Ok(Word {
            place: self.place,
            text: Name::from_bytes(alloc, self.text)?,
        })
    }
}
