//! What is read of whole lists.
ghost use Rattle.std.specs.Prelude.{◌≡◌, count_by, filter, length, unwrap_or, []};
ghost use Rattle.std.specs.Str.{bytes_eq};

use desk_tables::{KeptRow, ProjectRow};
use misra_base::{Name, Permit};

pub fn projects_by(rows: &[ProjectRow], maker: &Name) -> usize
    ensures { result ≡ count_by (λ row. bytes_eq (unwrap_or row.maker []) maker.now) rows.now }
{
    rows.iter()
        .filter(|row| is_maker(&row.maker, maker))
        .count()
}

/// The console made what has no maker, and its name is empty.
fn is_maker(maker: &Option<Name>, name: &Name) -> bool
    ensures { result ≡ bytes_eq (unwrap_or maker.now []) name.now }
{
    match maker {
        Some(maker) => maker == name,
        None => name.bytes().is_empty(),
    }
}

pub fn permits_by(rows: &[Permit], maker: &Name) -> usize
    ensures { result ≡ count_by (λ row. bytes_eq row.maker maker.now) rows.now }
{
    rows.iter().filter(|row| row.maker == *maker).count()
}

pub fn kept_for(rows: &[KeptRow], caller: &Name) -> usize
    ensures { result ≡ length (filter (λ row. bytes_eq row.caller caller.now) rows.now) }
{
    rows.iter().filter(|row| row.caller == *caller).count()
}
