//! What stands in front of bytes: findings, deviations, permits and plans.
ghost use Rattle.desk_coding.specs.Codings.{many_front};
ghost use Rattle.desk_coding.specs.Parts as parts;
ghost use Rattle.desk_coding.specs.Taking.{Gives};

use crate::stop::TakeStop;
use crate::taking::{
    take_category, take_form, take_guideline, take_kind, take_optional_text, take_status,
    take_text, take_u32, take_u64,
};
use misra_base::{
    Category, Deviation, Finding, FindingList, Form, Name, Permit, Place, Plan, Status,
};
use std::alloc::Global;

/// Who raised a deviation, what it cites, and where it stands.
#[derive(Debug, Drop)]
struct Life {
    raiser: Name,
    permit: Option<Name>,
    status: Status,
    approver: Option<Name>,
    form: Form,
}

#[tactic(auto, unfolding(crate::specs::Parts::place))]
fn take_place(bytes: &[u8]) -> Result<(Place, &[u8]), TakeStop>
    ensures { Gives (λ x. (x.0, x.1.now)) result (parts.place.front bytes.now) }
{
    let (line, rest) = take_u32(bytes)?;
    let (column, rest) = take_u32(rest)?;
    Ok((Place { line, column }, rest))
}

#[tactic(auto, unfolding(crate::specs::Parts::optional_place))]
fn take_optional_place(bytes: &[u8]) -> Result<(Option<Place>, &[u8]), TakeStop>
    ensures { Gives (λ x. (x.0, x.1.now)) result (parts.optional_place.front bytes.now) }
{
    match bytes {
        [] => Err(TakeStop::NoCoding),
        [0, rest @ ..] => Ok((None, rest)),
        [1, rest @ ..] => {
            let (place, rest) = take_place(rest)?;
            Ok((Some(place), rest))
        }
        [_, ..] => Err(TakeStop::NoCoding),
    }
}

#[tactic(auto, unfolding(crate::specs::Parts::finding))]
fn take_finding(alloc: Global, bytes: &[u8]) -> Result<(Finding, &[u8]), TakeStop>
    ensures { Gives (λ x. (x.0, x.1.now)) result (parts.finding.front bytes.now) }
{
    let (guideline, rest) = take_guideline(bytes)?;
    let (place, rest) = take_place(rest)?;
    let (other, rest) = take_optional_place(rest)?;
    let (function, rest) = take_text(alloc, rest)?;
    let (object, rest) = take_text(alloc, rest)?;
    let (kind, rest) = take_kind(rest)?;
    let finding = Finding {
        guideline,
        place,
        other,
        function,
        object,
        kind,
    };
    Ok((finding, rest))
}

#[tactic(auto, unfolding(crate::specs::Parts::findings))]
pub fn take_findings(alloc: Global, bytes: &[u8]) -> Result<(FindingList, &[u8]), TakeStop>
    ensures { Gives (λ x. (x.0, x.1.now)) result (parts.findings.front bytes.now) }
{
    let (count, rest) = take_u64(bytes)?;
    let (found, rest) = take_each_finding(alloc, count, rest)?;
    Ok((FindingList::from_vec(found), rest))
}

fn take_each_finding(
    alloc: Global,
    count: u64,
    bytes: &[u8],
) -> Result<(Vec<Finding>, &[u8]), TakeStop>
    ensures { Gives (λ x. (x.0.items, x.1.now)) result (many_front parts.finding count bytes.now) }
{
    let mut found = Vec::new(alloc);
    let mut rest = bytes;
    for _ in 0..count {
        let (finding, after) = take_finding(alloc, rest)?;
        found.push(finding)?;
        rest = after;
    }
    Ok((found, rest))
}

#[tactic(auto, unfolding(crate::specs::Parts::deviation))]
pub fn take_deviation(alloc: Global, bytes: &[u8]) -> Result<(Deviation, &[u8]), TakeStop>
    ensures { Gives (λ x. (x.0, x.1.now)) result (parts.deviation.front bytes.now) }
{
    let (id, rest) = take_u32(bytes)?;
    let (guideline, rest) = take_guideline(rest)?;
    let (function, rest) = take_text(alloc, rest)?;
    let (object, rest) = take_text(alloc, rest)?;
    let (reason, rest) = take_text(alloc, rest)?;
    let (life, rest) = take_life(alloc, rest)?;
    let deviation = Deviation {
        id,
        guideline,
        function,
        object,
        reason,
        raiser: life.raiser,
        permit: life.permit,
        status: life.status,
        approver: life.approver,
        form: life.form,
    };
    Ok((deviation, rest))
}

#[tactic(auto, unfolding(crate::specs::Parts::life))]
fn take_life(alloc: Global, bytes: &[u8]) -> Result<(Life, &[u8]), TakeStop>
    ensures { Gives (λ x. ((x.0.raiser, (x.0.permit, (x.0.status, (x.0.approver, x.0.form)))), x.1.now)) result (parts.life.front bytes.now) }
{
    let (raiser, rest) = take_text(alloc, bytes)?;
    let (permit, rest) = take_optional_text(alloc, rest)?;
    let (status, rest) = take_status(rest)?;
    let (approver, rest) = take_optional_text(alloc, rest)?;
    let (form, rest) = take_form(rest)?;
    let life = Life {
        raiser,
        permit,
        status,
        approver,
        form,
    };
    Ok((life, rest))
}

#[tactic(auto, unfolding(crate::specs::Parts::permit))]
pub fn take_permit(alloc: Global, bytes: &[u8]) -> Result<(Permit, &[u8]), TakeStop>
    ensures { Gives (λ x. (x.0, x.1.now)) result (parts.permit.front bytes.now) }
{
    let (name, rest) = take_text(alloc, bytes)?;
    let (guideline, rest) = take_guideline(rest)?;
    let (reason, rest) = take_text(alloc, rest)?;
    let (maker, rest) = take_text(alloc, rest)?;
    let permit = Permit {
        name,
        guideline,
        reason,
        maker,
    };
    Ok((permit, rest))
}

/// The categories of the nineteen guidelines.
#[tactic(auto, unfolding(crate::specs::Parts::plan))]
pub fn take_plan(bytes: &[u8]) -> Result<(Plan, &[u8]), TakeStop>
    ensures { Gives (λ x. (x.0, x.1.now)) result (parts.plan.front bytes.now) }
{
    let (categories, rest) = take_each_category(bytes)?;
    Ok((Plan { categories }, rest))
}

fn take_each_category(bytes: &[u8]) -> Result<([Category; 19], &[u8]), TakeStop>
    ensures { Gives (λ x. (x.0, x.1.now)) result (many_front parts.category 19 bytes.now) }
{
    let mut categories = [Category::Mandatory; 19];
    let mut rest = bytes;
    for i in 0..19 {
        let (category, after) = take_category(rest)?;
        categories[i] = category;
        rest = after;
    }
    Ok((categories, rest))
}
