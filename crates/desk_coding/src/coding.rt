//! Kept rows and changes as bytes.
ghost use Rattle.std.specs.Prelude.{◌≡◌, true, IfOk};
ghost use Rattle.desk_tables.specs.Keepable.{is_keepable, keeps_rightly};
ghost use Rattle.desk_coding.specs.Codings.{whole};
ghost use Rattle.desk_coding.specs.Rows as rows;
ghost use Rattle.desk_coding.specs.Taking.{Gives, Takes};

use crate::putting_rows::{put_all, put_row};
use crate::stop::TakeStop;
use crate::taking_rows::{take_all, take_row};
use desk_tables::{Change, KeptRow};
use std::alloc::{AllocError, Global};

/// The coding of the row, whose reply is `Made`, `Revision`, `Raised` or `Done`. Each row has one.
pub fn put_kept(alloc: Global, row: &KeptRow) -> Result<Vec<u8>, AllocError>
    requires { is_keepable row.now.reply ≡ true }
    ensures written { IfOk result (λ bytes. bytes.items ≡ rows.kept.written row.now) }
    ensures fits { IfOk result (λ _. rows.kept.fits row.now ≡ true) }
{
    let mut bytes = Vec::new(alloc);
    put_row(&mut bytes, row)?;
    Ok(bytes)
}

/// The row whose coding the bytes are, None exactly where they are no coding.
pub fn take_kept(alloc: Global, bytes: &[u8]) -> Result<Option<KeptRow>, AllocError>
    ensures taken { IfOk result (λ row. Takes rows.kept bytes.now row) }
{
    match kept_in(alloc, bytes) {
        Ok(row) => Ok(Some(row)),
        Err(TakeStop::NoCoding) => Ok(None),
        Err(TakeStop::Memory) => Err(AllocError),
    }
}

/// The row of all of the bytes.
fn kept_in(alloc: Global, bytes: &[u8]) -> Result<KeptRow, TakeStop>
    ensures { Gives (λ row. row) result (whole rows.kept bytes.now) }
{
    let (row, rest) = take_row(alloc, bytes)?;
    if rest.is_empty() {
        Ok(row)
    } else {
        Err(TakeStop::NoCoding)
    }
}

/// The coding of the change, whose kept reply is `Made`, `Revision`, `Raised` or `Done`. Each change has one.
pub fn put_change(alloc: Global, change: &Change) -> Result<Vec<u8>, AllocError>
    requires { keeps_rightly change.now.kept ≡ true }
    ensures written { IfOk result (λ bytes. bytes.items ≡ rows.change.written change.now) }
    ensures fits { IfOk result (λ _. rows.change.fits change.now ≡ true) }
{
    let mut bytes = Vec::new(alloc);
    put_all(&mut bytes, change)?;
    Ok(bytes)
}

/// The change whose coding the bytes are, None exactly where they are no coding.
pub fn take_change(alloc: Global, bytes: &[u8]) -> Result<Option<Change>, AllocError>
    ensures taken { IfOk result (λ change. Takes rows.change bytes.now change) }
{
    match change_in(alloc, bytes) {
        Ok(change) => Ok(Some(change)),
        Err(TakeStop::NoCoding) => Ok(None),
        Err(TakeStop::Memory) => Err(AllocError),
    }
}

/// The change of all of the bytes.
fn change_in(alloc: Global, bytes: &[u8]) -> Result<Change, TakeStop>
    ensures { Gives (λ change. change) result (whole rows.change bytes.now) }
{
    let (change, rest) = take_all(alloc, bytes)?;
    if rest.is_empty() {
        Ok(change)
    } else {
        Err(TakeStop::NoCoding)
    }
}
