//! Orders of small tables, worked out by hand.
use crate::{Callees, OrderStop, order};
use std::alloc::{AllocError, Global};

fn table(alloc: Global, rows: &[&[u32]]) -> Result<Vec<Callees>, AllocError> {
    let mut calls = Vec::new(alloc);
    for row in rows {
        calls.push(Callees {
            functions: row.to_vec(alloc)?,
        })?;
    }
    Ok(calls)
}

/// Whether the functions of a table that the first one needs have this order, or none for this cause.
fn has(alloc: Global, rows: &[&[u32]], wanted: Result<&[u32], OrderStop>) -> bool {
    let calls = match table(alloc, rows) {
        Ok(calls) => calls,
        Err(_) => return false,
    };
    if calls.is_empty() || calls.len() > 100 {
        return false;
    }
    match (order(alloc, calls.as_slice(), 0), wanted) {
        (Ok(found), Ok(wanted)) => found.as_slice() == wanted,
        (Err(found), Err(wanted)) => found == wanted,
        _ => false,
    }
}

#[test]
fn functions_stand_behind_those_that_they_name(rt: HostRuntime) {
    let alloc = rt.alloc();
    // each names the next one, so there is one order alone
    assert!(rt; has(alloc, &[&[1], &[2], &[3], &[]], Ok(&[3, 2, 1, 0])));
    // twice the same, and one through another
    assert!(rt; has(alloc, &[&[1, 1, 2], &[], &[1]], Ok(&[1, 2, 0])));
    // one that names nothing
    assert!(rt; has(alloc, &[&[]], Ok(&[0])));
}

#[test]
fn functions_that_are_not_needed_are_left_out(rt: HostRuntime) {
    let alloc = rt.alloc();
    // the second one needs the first, and nothing needs it, so it may name itself too
    assert!(rt; has(alloc, &[&[2], &[0, 1], &[]], Ok(&[2, 0])));
    assert!(rt; has(alloc, &[&[], &[2], &[1]], Ok(&[0])));
}

#[test]
fn functions_that_name_themselves_have_no_order(rt: HostRuntime) {
    let alloc = rt.alloc();
    assert!(rt; has(alloc, &[&[0]], Err(OrderStop::Cycle)));
    assert!(rt; has(alloc, &[&[1], &[0]], Err(OrderStop::Cycle)));
    assert!(rt; has(alloc, &[&[1], &[2], &[3], &[1]], Err(OrderStop::Cycle)));
    // one that is not in the table
    assert!(rt; has(alloc, &[&[1]], Err(OrderStop::Cycle)));
}
