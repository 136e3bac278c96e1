ghost use Rattle.std.specs.Prelude.{◌≡◌, IfOk, map};
ghost use Rattle.serde_json.specs.View.{view};
ghost use Rattle.desk_json.specs.Replies.{row_data};

use misra_base::SummaryRow;
use serde_json::{Value, json};
use std::alloc::{AllocError, Global};

fn row_value(alloc: Global, row: &SummaryRow) -> Result<Value, AllocError>
    ensures { IfOk result (λ value. view value ≡ row_data row.now) }
{
    json!(in alloc; {
        "category": row.category.word(),
        "deviated": row.deviated,
        "guideline": row.guideline.word(),
        "level": row.level.word(),
        "open": row.uncovered
    })
}

/// The rows of a summary, in their order.
#[tactic(auto, using(crate::proofs::Lists::made_next, crate::proofs::Lists::made_all))]
pub fn row_values(alloc: Global, rows: &[SummaryRow]) -> Result<Vec<Value>, AllocError>
    ensures { IfOk result (λ values. map view values.items ≡ map row_data rows.now) }
{
    let mut values = Vec::new(alloc);
    for row in rows {
        values.push(row_value(alloc, row)?)?;
    }
    Ok(values)
}
