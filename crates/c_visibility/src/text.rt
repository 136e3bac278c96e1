ghost use Rattle.std.specs.Prelude.{◌≡◌, ◌++◌, [], IfOk, OnOk};
ghost use Rattle.misra_base.specs.Tables.{rows};
ghost use Rattle.c_visibility.specs.Library.{library_rows};
ghost use Rattle.c_visibility.specs.Spelling.{texts};
ghost use Rattle.c_visibility.specs.Text.{declared_before, library_declarations, timespec_number, timespec_declared, before_text, spelled_by};
ghost use Rattle.c_visibility.specs.Typedefs.{spelled_behind};

use crate::library::{is_library, library_table};
use crate::spelled::{Class, Facts, Spelled, Spot};
use crate::typedefs::Typedefs;
use c_identifiers::{Event, Role};
use c_names::{Kind, NameSpace};
use indexmap::IndexSet;
use misra_base::{KeyTable, Place};
use std::alloc::{AllocError, Global};

/// What scopes see of a text with these names, behind what is declared before it.
pub fn spelled_by(
    alloc: Global,
    names: &IndexSet<Vec<u8>>,
    events: &[Event],
) -> Result<Vec<Spelled>, AllocError>
    ensures { IfOk result (λ spelled. spelled.items ≡ spelled_by (texts names.now) events.now) }
{
    let table = library_table();
    let mut spelled = Vec::new(alloc);
    add_before_text(&mut spelled, &table, names)?;
    let text = spelled_text(alloc, &table, names, events)?;
    spelled.extend_from_slice(&text)?;
    Ok(spelled)
}

fn add_before_text(
    spelled: &mut Vec<Spelled>,
    table: &KeyTable<74>,
    names: &IndexSet<Vec<u8>>,
) -> Result<(), AllocError>
    requires { rows table.now ≡ library_rows }
    ensures { OnOk result (spelled.new.items ≡ spelled.old.items ++ before_text (texts names.now)) }
{
    add_library(spelled, table, names)?;
    spelled.push(Spelled::Open)?;
    add_timespec(spelled, names)
}

/// Of the library, the names that the text has.
fn add_library(
    spelled: &mut Vec<Spelled>,
    table: &KeyTable<74>,
    names: &IndexSet<Vec<u8>>,
) -> Result<(), AllocError>
    requires { rows table.now ≡ library_rows }
    ensures { OnOk result (spelled.new.items ≡ spelled.old.items ++ library_declarations 0 (texts names.now)) }
{
    for (number, name) in names.as_slice().iter().enumerate() {
        if is_library(table, name.as_slice()) {
            spelled.push(declared_before(NameSpace::Ordinary, Kind::Library, number))?;
        }
    }
    Ok(())
}

fn add_timespec(spelled: &mut Vec<Spelled>, names: &IndexSet<Vec<u8>>) -> Result<(), AllocError>
    ensures { OnOk result (spelled.new.items ≡ spelled.old.items ++ timespec_declared (timespec_number (texts names.now))) }
{
    if let Some(number) = timespec_number(names) {
        spelled.push(declared_before(NameSpace::Tags, Kind::Structure, number))?;
    }
    Ok(())
}

fn timespec_number(names: &IndexSet<Vec<u8>>) -> Option<usize>
    ensures { result ≡ timespec_number (texts names.now) }
{
    names.get_index_of(b"timespec".as_slice())
}

/// What is declared before the text stands in line 0.
fn declared_before(space: NameSpace, kind: Kind, name: usize) -> Spelled
    ensures { result ≡ declared_before space kind name }
{
    Spelled::Declare {
        role: Role {
            space,
            kind,
            defines: true,
            storage: None,
            linkage: None,
        },
        facts: Facts {
            is_reserved: false,
            class: Class::Arithmetic,
            needs_body: false,
            is_main: false,
        },
        word: Spot {
            place: Place { line: 0, column: 0 },
            name,
        },
    }
}

/// What scopes see of the text itself.
fn spelled_text(
    alloc: Global,
    table: &KeyTable<74>,
    names: &IndexSet<Vec<u8>>,
    events: &[Event],
) -> Result<Vec<Spelled>, AllocError>
    requires { rows table.now ≡ library_rows }
    ensures { IfOk result (λ spelled. spelled.items ≡ spelled_behind (texts names.now) [] events.now) }
{
    let mut typedefs = Typedefs::new(alloc);
    let mut spelled = Vec::new(alloc);
    for event in events {
        let next = typedefs.spelled(table, names, event);
        typedefs.note(next)?;
        spelled.push(next)?;
    }
    Ok(spelled)
}
