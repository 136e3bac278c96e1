ghost use Rattle.std.specs.Prelude.{◌≡◌, IfOk};
ghost use Rattle.serde_json.specs.View.{view};
ghost use Rattle.desk_json.specs.Replies.{claim_data, findings_data, made_data, refusal_data, reply_data, revision_data, summary_data};

use crate::findings::found_values;
use crate::summary::row_values;
use crate::texts::text_of;
use desk_tables::{Found, Reply};
use misra_base::{Guideline, Name, Refusal, SummaryRow};
use serde_json::{Value, json};
use std::alloc::{AllocError, Global};

fn made(alloc: Global, name: &Name) -> Result<Value, AllocError>
    ensures { IfOk result (λ value. view value ≡ made_data name.now) }
{
    let name = text_of(alloc, name)?;
    json!(in alloc; {"made": name})
}

fn revision(alloc: Global, number: u32, findings: u64) -> Result<Value, AllocError>
    ensures { IfOk result (λ value. view value ≡ revision_data number findings) }
{
    json!(in alloc; {"findings": findings, "revision": number})
}

fn summary(alloc: Global, revision: u32, rows: &[SummaryRow]) -> Result<Value, AllocError>
    ensures { IfOk result (λ value. view value ≡ summary_data revision rows.now) }
{
    let rows = row_values(alloc, rows)?;
    json!(in alloc; {"revision": revision, "rows": rows})
}

fn findings(alloc: Global, revision: u32, rows: &[Found]) -> Result<Value, AllocError>
    ensures { IfOk result (λ value. view value ≡ findings_data revision rows.now) }
{
    let rows = found_values(alloc, rows)?;
    json!(in alloc; {"findings": rows, "revision": revision})
}

fn claim(alloc: Global, revision: u32, failing: Option<Guideline>) -> Result<Value, AllocError>
    ensures { IfOk result (λ value. view value ≡ claim_data revision failing) }
{
    match failing {
        Some(guideline) => {
            json!(in alloc; {"claim": false, "failing": guideline.word(), "revision": revision})
        }
        None => json!(in alloc; {"claim": true, "failing": null, "revision": revision}),
    }
}

/// The body of the reply to an accepted command.
pub fn reply_value(alloc: Global, reply: &Reply) -> Result<Value, AllocError>
    ensures { IfOk result (λ value. view value ≡ reply_data reply.now) }
{
    match reply {
        Reply::Made(name) => made(alloc, name),
        Reply::Revision {
            number,
            findings: count,
        } => revision(alloc, *number, *count),
        Reply::Raised(id) => json!(in alloc; {"raised": *id}),
        Reply::Done => json!(in alloc; {"done": true}),
        Reply::Summary {
            revision: number,
            rows,
        } => summary(alloc, *number, rows),
        Reply::Findings {
            revision: number,
            rows,
        } => findings(alloc, *number, rows.items()),
        Reply::Claim {
            revision: number,
            failing,
        } => claim(alloc, *number, *failing),
    }
}

/// The body of the reply to a submission whose text is refused.
pub fn refusal_value(alloc: Global, refusal: &Refusal) -> Result<Value, AllocError>
    ensures { IfOk result (λ value. view value ≡ refusal_data refusal.now) }
{
    let code = refusal.code;
    let code = format!(in alloc; "U{code}")?;
    let name = text_of(alloc, &refusal.name)?;
    json!(in alloc; {
        "code": code,
        "column": refusal.place.column,
        "line": refusal.place.line,
        "name": name
    })
}
