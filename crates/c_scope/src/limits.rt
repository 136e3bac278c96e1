ghost use Rattle.std.specs.Prelude.{◌≡◌, ◌++◌, if◌then◌else◌, [], slice_get, OnOk, IfOk};
ghost use Rattle.c_scope.specs.Faults.{is_function_by, is_object_by, is_static, counts, place_by, counted, limit_faults};

use crate::things::is_first;
use c_faults::{Fault, FaultName, Limit};
use c_names::{Kind, StorageDuration};
use c_visibility::{Seen, Spelled};
use misra_base::Place;
use std::alloc::{AllocError, Global};

/// Whether a thing that is declared here for the first time counts towards the limit.
fn counts(limit: Limit, seen: Seen) -> bool
    ensures { result ≡ counts limit seen }
{
    match limit {
        Limit::Functions => is_function(seen),
        Limit::Objects => is_object(seen),
        Limit::Mutexes | Limit::Conditions | Limit::Threads | Limit::Keys => false,
    }
}

fn is_function(seen: Seen) -> bool
    ensures { result ≡ is_function_by seen seen.event }
{
    match seen.event {
        Spelled::Declare { role, facts, .. } => {
            role.kind == Kind::Function && is_first(role, facts, seen)
        }
        _ => false,
    }
}

fn is_static(storage: Option<StorageDuration>) -> bool
    ensures { result ≡ is_static storage }
{
    match storage {
        Some(StorageDuration::Static) => true,
        Some(StorageDuration::Thread | StorageDuration::Automatic) | None => false,
    }
}

fn is_object(seen: Seen) -> bool
    ensures { result ≡ is_object_by seen seen.event }
{
    match seen.event {
        Spelled::Declare { role, facts, .. } => {
            role.kind == Kind::Object && is_static(role.storage) && is_first(role, facts, seen)
        }
        _ => false,
    }
}

/// Where the things stand that count towards the limit.
fn counted(alloc: Global, limit: Limit, all: &[Seen]) -> Result<Vec<Place>, AllocError>
    ensures { IfOk result (λ places. places.items ≡ counted limit all.now) }
{
    let mut places = Vec::new(alloc);
    for seen in all {
        add_counted(&mut places, limit, *seen)?;
    }
    Ok(places)
}

fn add_counted(places: &mut Vec<Place>, limit: Limit, seen: Seen) -> Result<(), AllocError>
    ensures { OnOk result (places.new.items ≡ places.old.items ++ (if counts limit seen then place_by seen.event else [])) }
{
    match seen.event {
        Spelled::Declare { word, .. } if counts(limit, seen) => {
            places.push(word.place)?;
            Ok(())
        }
        _ => Ok(()),
    }
}

/// Where the thing stands that passes the limit.
fn place_past(
    alloc: Global,
    limit: Limit,
    most: usize,
    all: &[Seen],
) -> Result<Option<Place>, AllocError>
    ensures { IfOk result (λ place. place ≡ slice_get (counted limit all.now) most) }
{
    let places = counted(alloc, limit, all)?;
    Ok(places.get(most).copied())
}

/// The thing that passes the limit.
pub(crate) fn add_limit(
    alloc: Global,
    faults: &mut Vec<Fault>,
    limit: Limit,
    most: usize,
    all: &[Seen],
) -> Result<(), AllocError>
    ensures { OnOk result (faults.new.items ≡ faults.old.items ++ limit_faults limit most all.now) }
{
    if let Some(place) = place_past(alloc, limit, most, all)? {
        faults.push(Fault {
            place,
            code: 13,
            name: FaultName::Limit(limit),
        })?;
    }
    Ok(())
}
