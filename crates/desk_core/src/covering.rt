//! Each finding with the deviation that covers it.
ghost use Rattle.std.specs.Prelude.{◌≡◌, IfOk};
ghost use Rattle.desk_core.specs.Covering as specs_of;

use compliance_core::covers;
use desk_tables::{Found, FoundList};
use misra_base::{Deviation, Finding, Plan};
use std::alloc::{AllocError, Global};

/// Each finding with the least id of a deviation that covers it.
pub fn found_rows(
    alloc: Global,
    plan: &Plan,
    deviations: &[Deviation],
    findings: &[Finding],
) -> Result<FoundList, AllocError>
    ensures { IfOk result (λ rows. rows ≡ specs_of.found_rows plan.now deviations.now findings.now) }
{
    let rows = row_vec(alloc, plan, deviations, findings)?;
    Ok(FoundList::from_vec(rows))
}

#[tactic(auto, unfolding(crate::specs::Covering::found_rows))]
fn row_vec(
    alloc: Global,
    plan: &Plan,
    deviations: &[Deviation],
    findings: &[Finding],
) -> Result<Vec<Found>, AllocError>
    ensures { IfOk result (λ rows. rows.items ≡ specs_of.found_rows plan.now deviations.now findings.now) }
{
    let mut rows = Vec::new(alloc);
    for finding in findings {
        rows.push(found_row(plan, deviations, finding)?)?;
    }
    Ok(rows)
}

fn found_row(plan: &Plan, deviations: &[Deviation], finding: &Finding) -> Result<Found, AllocError>
    ensures { IfOk result (λ row. row ≡ specs_of.found_row plan.now deviations.now finding.now) }
{
    Ok(Found {
        finding: finding.clone()?,
        deviation: least_cover(plan, deviations, finding),
    })
}

/// The least id of a deviation that covers the finding.
fn least_cover(plan: &Plan, deviations: &[Deviation], finding: &Finding) -> Option<u32>
    ensures { result ≡ specs_of.least_cover plan.now deviations.now finding.now }
{
    let mut best = None;
    for deviation in deviations {
        best = better(plan, finding, best, deviation);
    }
    best
}

fn better(plan: &Plan, finding: &Finding, best: Option<u32>, deviation: &Deviation) -> Option<u32>
    ensures { result ≡ specs_of.better plan.now finding.now best deviation.now }
{
    if covers(plan, deviation, finding) {
        Some(lesser(deviation.id, best))
    } else {
        best
    }
}

fn lesser(id: u32, best: Option<u32>) -> u32
    ensures { result ≡ specs_of.lesser id best }
{
    match best {
        Some(best) => best.min(id),
        None => id,
    }
}
