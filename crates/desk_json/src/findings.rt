ghost use Rattle.std.specs.Prelude.{◌≡◌, IfOk, map, string_bytes, unwrap_or};
ghost use Rattle.serde_json.specs.View.{view};
ghost use Rattle.desk_json.specs.Replies.{found_data};
ghost use Rattle.misra_base.specs.Lines.{other_text};

use crate::texts::text_of;
use desk_tables::Found;
use misra_base::Place;
use serde_json::{Value, json};
use std::alloc::{AllocError, Global};

/// A second place, or a dash.
fn other_place(alloc: Global, other: &Option<Place>) -> Result<String, AllocError>
    ensures { IfOk result (λ text. string_bytes text ≡ other_text other.now) }
{
    match other {
        Some(place) => place.to_string(alloc),
        None => String::from_str(alloc, "-"),
    }
}

fn found_value(alloc: Global, found: &Found) -> Result<Value, AllocError>
    ensures { IfOk result (λ value. view value ≡ found_data found.now) }
{
    let finding = &found.finding;
    let function = text_of(alloc, &finding.function)?;
    let object = text_of(alloc, &finding.object)?;
    let other = other_place(alloc, &finding.other)?;
    json!(in alloc; {
        "column": finding.place.column,
        "deviation": found.deviation.unwrap_or(0),
        "function": function,
        "guideline": finding.guideline.word(),
        "kind": finding.kind.word(),
        "line": finding.place.line,
        "object": object,
        "other": other
    })
}

/// The findings of a revision, in their order.
#[tactic(auto, using(crate::proofs::Lists::made_next, crate::proofs::Lists::made_all))]
pub fn found_values(alloc: Global, rows: &[Found]) -> Result<Vec<Value>, AllocError>
    ensures { IfOk result (λ values. map view values.items ≡ map found_data rows.now) }
{
    let mut values = Vec::new(alloc);
    for row in rows {
        values.push(found_value(alloc, row)?)?;
    }
    Ok(values)
}
