//! How many findings are covered, where the deviations are read once for many findings.
ghost use Rattle.std.specs.Prelude.{◌≡◌, ◌<◌, ◌≤◌, ◌&&◌, ◌||◌, if◌then◌else◌, ℕ, List, [], ◌∷◌, ◌++◌, false, length, slice_index_or};
ghost use Rattle.misra_base.specs.Guidelines.{same_guideline};
ghost use Rattle.misra_base.specs.Rows.{has_bit};
ghost use Rattle.misra_base.specs.declared.finding.Finding.{Finding};
ghost use Rattle.misra_base.specs.declared.deviation.Deviation.{Deviation};
ghost use Rattle.compliance_core.specs.Covers.{does_cover};
ghost use Rattle.compliance_core.specs.Hashes.{IsFilter, deviation_hash as hash_of};
ghost use Rattle.compliance_core.specs.Marks.{IsSettled, can_cover, is_other};
ghost use Rattle.compliance_core.specs.Levels.{count_against, deviated_of};

use crate::categories::revised;
use crate::cover::covers;
use crate::hashes::{Hashes, deviation_hash, hashes_of};
use misra_base::{Category, Deviation, Finding, Guideline, Plan, Status};

/// How many findings are looked at together, so that the deviations are read once for all of them.
const CHUNK: usize = 512;

/// Whether the deviation can cover findings of the guideline that have these hashes.
fn may_cover(plan: &Plan, deviation: &Deviation, guideline: Guideline, hashes: &Hashes) -> bool
    ensures { result ≡ (can_cover plan.now deviation.now guideline && has_bit hashes.now (hash_of deviation.now)) }
{
    deviation.status == Status::Approved
        && deviation.guideline == guideline
        && revised(plan, deviation.guideline) != Category::Mandatory
        && hashes.get(deviation_hash(deviation))
}

/// Whether the finding is of another guideline.
fn is_of_other(finding: &Finding, guideline: Guideline) -> bool
    ensures { result ≡ is_other guideline finding.now }
{
    finding.guideline != guideline
}

/// Marks the findings of other guidelines.
fn mark_others(findings: &[Finding], guideline: Guideline, marks: &mut [bool])
    requires { length findings.now ≡ length marks.old }
    ensures { (i : ℕ) (f : Finding) → i < length findings.now
        → slice_index_or marks.new i false ≡ is_other guideline (slice_index_or findings.now i f) }
{
    for (i, finding) in findings.iter().enumerate() {
        marks[i] = is_of_other(finding, guideline);
    }
}

/// The mark of a finding, set besides where the deviation covers it.
fn marked(plan: &Plan, deviation: &Deviation, finding: &Finding, mark: bool) -> bool
    ensures { result ≡ (mark || does_cover plan.now deviation.now finding.now) }
{
    mark || covers(plan, deviation, finding)
}

/// Marks besides the findings that the deviation covers.
fn mark_covered(plan: &Plan, deviation: &Deviation, findings: &[Finding], marks: &mut [bool])
    requires { length findings.now ≡ length marks.old }
    ensures { (i : ℕ) (f : Finding) → i < length findings.now
        → slice_index_or marks.new i false ≡ (slice_index_or marks.old i false || does_cover plan.now deviation.now (slice_index_or findings.now i f)) }
{
    for (i, finding) in findings.iter().enumerate() {
        marks[i] = marked(plan, deviation, finding, marks[i]);
    }
}

/// Marks besides the findings that one more deviation covers. It is passed over where it can cover none of them.
fn mark_next(
    plan: &Plan,
    deviation: &Deviation,
    findings: &[Finding],
    guideline: Guideline,
    hashes: &Hashes,
    marks: &mut [bool],
)
    requires same { length findings.now ≡ length marks.old }
    requires hashed { IsFilter (has_bit hashes.now) guideline findings.now }
    ensures { (before : List Deviation) → IsSettled plan.now before guideline findings.now marks.old
        → IsSettled plan.now (before ++ deviation.now ∷ []) guideline findings.now marks.new }
{
    if may_cover(plan, deviation, guideline, hashes) {
        mark_covered(plan, deviation, findings, marks);
    }
}

/// Marks the findings of other guidelines, and those that some deviation covers.
fn mark_settled(
    plan: &Plan,
    deviations: &[Deviation],
    findings: &[Finding],
    guideline: Guideline,
    marks: &mut [bool],
)
    requires { length findings.now ≡ length marks.old }
    ensures { IsSettled plan.now deviations.now guideline findings.now marks.new }
{
    let hashes = hashes_of(findings, guideline);
    mark_others(findings, guideline, marks);
    for deviation in deviations {
        mark_next(plan, deviation, findings, guideline, &hashes, marks);
    }
}

/// How many of a few findings are of the guideline, and covered.
#[tactic(auto, unfolding(crate::specs::Levels::deviated_of))]
fn count_deviated_in(
    plan: &Plan,
    deviations: &[Deviation],
    findings: &[Finding],
    guideline: Guideline,
) -> usize
    requires { length findings.now ≤ CHUNK }
    ensures { result ≡ deviated_of plan.now deviations.now findings.now guideline }
{
    if count_findings(findings, guideline) == 0 {
        return 0;
    }
    let mut marks = [false; CHUNK];
    let marks = &mut marks[..findings.len()];
    mark_settled(plan, deviations, findings, guideline, marks);
    count_settled(plan, deviations, findings, guideline, marks)
}

/// One for a marked finding of the guideline, and none for another.
fn weight(finding: &Finding, guideline: Guideline, mark: bool) -> usize
    ensures value { result ≡ (if same_guideline finding.now.guideline guideline && mark then 1 else 0) }
    ensures within { result ≤ 1 }
{
    if finding.guideline == guideline && mark {
        1
    } else {
        0
    }
}

/// How many of the marked findings are of the guideline.
fn count_settled(
    plan: &Plan,
    deviations: &[Deviation],
    findings: &[Finding],
    guideline: Guideline,
    marks: &[bool],
) -> usize
    requires same { length findings.now ≡ length marks.now }
    requires settled { IsSettled plan.now deviations.now guideline findings.now marks.now }
    ensures { result ≡ deviated_of plan.now deviations.now findings.now guideline }
{
    let mut count = 0;
    for (i, finding) in findings.iter().enumerate() {
        count += weight(finding, guideline, marks[i]);
    }
    count
}

/// How many findings of the guideline some deviation covers.
pub(crate) fn count_deviated(
    plan: &Plan,
    deviations: &[Deviation],
    findings: &[Finding],
    guideline: Guideline,
) -> usize
    ensures { result ≡ deviated_of plan.now deviations.now findings.now guideline }
{
    let mut count = 0;
    let mut rest = findings;
    while !rest.is_empty() {
        let (chunk, behind) = rest.split_at(rest.len().min(CHUNK));
        count += count_deviated_in(plan, deviations, chunk, guideline);
        rest = behind;
    }
    count
}

/// How many findings the guideline has.
pub(crate) fn count_findings(findings: &[Finding], guideline: Guideline) -> usize
    ensures { result ≡ count_against guideline findings.now }
{
    findings
        .iter()
        .filter(|finding| finding.guideline == guideline)
        .count()
}
