ghost use Rattle.std.specs.Prelude.{◌≡◌, IfOk, OnOk};
ghost use Rattle.c_visibility.specs.Spelling.{texts, with_word, with_event, texts_of, number_of, spot};

use crate::spelled::Spot;
use c_identifiers::Event;
use c_tree::Word;
use indexmap::IndexSet;
use std::alloc::{AllocError, Global};

/// The spellings, in the order of their first appearance.
pub fn texts_of(alloc: Global, events: &[Event]) -> Result<IndexSet<Vec<u8>>, AllocError>
    ensures { IfOk result (λ names. texts names ≡ texts_of events.now) }
{
    let mut names = IndexSet::new(alloc);
    for event in events {
        add_event(alloc, &mut names, event)?;
    }
    Ok(names)
}

fn add_event(alloc: Global, names: &mut IndexSet<Vec<u8>>, event: &Event) -> Result<(), AllocError>
    ensures { OnOk result (texts names.new ≡ with_event (texts names.old) event.now) }
{
    match event {
        Event::Mention(word) | Event::Declare { word, .. } | Event::Use { word, .. } => {
            add_word(alloc, names, word)
        }
        Event::Open | Event::Close | Event::Parameter(_) => Ok(()),
    }
}

fn add_word(alloc: Global, names: &mut IndexSet<Vec<u8>>, word: &Word) -> Result<(), AllocError>
    ensures { OnOk result (texts names.new ≡ with_word (texts names.old) word.now) }
{
    names.insert(Vec::from_slice(alloc, word.text.bytes())?)?;
    Ok(())
}

/// The number of a spelling, and their count where it is none of them.
pub(crate) fn number_of(names: &IndexSet<Vec<u8>>, word: &Word) -> usize
    ensures { result ≡ number_of (texts names.now) word.now }
{
    names.get_index_of(word.text.bytes()).unwrap_or(names.len())
}

pub(crate) fn spot(names: &IndexSet<Vec<u8>>, word: &Word) -> Spot
    ensures { result ≡ spot (texts names.now) word.now }
{
    Spot {
        place: word.place,
        name: number_of(names, word),
    }
}
