//! The codings of the parts of rows, at the end of what was written.
ghost use Rattle.std.specs.Prelude.{◌≡◌, ◌++◌, true, OnOk};
ghost use Rattle.std.specs.List.{flat_map, list_all};
ghost use Rattle.desk_coding.specs.Codings as codings;
ghost use Rattle.desk_coding.specs.Parts as parts;

use crate::numbers::kind_number;
use misra_base::{
    Category, Deviation, EntryList, Finding, FindingList, Form, Guideline, Kind, Name, NameList,
    Permit, Place, Plan, Status,
};
use std::alloc::AllocError;

#[tactic(auto, unfolding(crate::specs::Codings::number32))]
pub fn put_u32(out: &mut Vec<u8>, number: u32) -> Result<(), AllocError>
    ensures written { OnOk result (out.new.items ≡ out.old.items ++ codings.number32.written number) }
    ensures fits { OnOk result (codings.number32.fits number ≡ true) }
{
    out.extend_from_slice(&number.to_be_bytes())
}

#[tactic(auto, unfolding(crate::specs::Codings::number64))]
pub fn put_u64(out: &mut Vec<u8>, number: u64) -> Result<(), AllocError>
    ensures written { OnOk result (out.new.items ≡ out.old.items ++ codings.number64.written number) }
    ensures fits { OnOk result (codings.number64.fits number ≡ true) }
{
    out.extend_from_slice(&number.to_be_bytes())
}

#[tactic(auto, unfolding(crate::specs::Codings::text))]
pub fn put_text(out: &mut Vec<u8>, text: &Name) -> Result<(), AllocError>
    ensures written { OnOk result (out.new.items ≡ out.old.items ++ codings.text.written text.now) }
    ensures fits { OnOk result (codings.text.fits text.now ≡ true) }
{
    put_u64(out, text.bytes().len() as u64)?;
    out.extend_from_slice(text.bytes())
}

#[tactic(auto, unfolding(crate::specs::Parts::optional_text))]
pub fn put_optional_text(out: &mut Vec<u8>, text: &Option<Name>) -> Result<(), AllocError>
    ensures written { OnOk result (out.new.items ≡ out.old.items ++ parts.optional_text.written text.now) }
    ensures fits { OnOk result (parts.optional_text.fits text.now ≡ true) }
{
    match text {
        None => Ok(out.push(0)?),
        Some(text) => {
            out.push(1)?;
            put_text(out, text)
        }
    }
}

#[tactic(auto, unfolding(crate::specs::Parts::names))]
pub fn put_names(out: &mut Vec<u8>, names: &NameList) -> Result<(), AllocError>
    ensures written { OnOk result (out.new.items ≡ out.old.items ++ parts.names.written names.now) }
    ensures fits { OnOk result (parts.names.fits names.now ≡ true) }
{
    put_u64(out, names.items().len() as u64)?;
    put_each_name(out, names.items())
}

fn put_each_name(out: &mut Vec<u8>, names: &[Name]) -> Result<(), AllocError>
    ensures written { OnOk result (out.new.items ≡ out.old.items ++ flat_map codings.text.written names.now) }
    ensures fits { OnOk result (list_all codings.text.fits names.now ≡ true) }
{
    for name in names {
        put_text(out, name)?;
    }
    Ok(())
}

#[tactic(auto, unfolding(crate::specs::Parts::guideline))]
pub fn put_guideline(out: &mut Vec<u8>, guideline: Guideline) -> Result<(), AllocError>
    ensures written { OnOk result (out.new.items ≡ out.old.items ++ parts.guideline.written guideline) }
    ensures fits { OnOk result (parts.guideline.fits guideline ≡ true) }
{
    Ok(out.push(guideline as u8)?)
}

#[tactic(auto, unfolding(crate::specs::Parts::category))]
pub fn put_category(out: &mut Vec<u8>, category: Category) -> Result<(), AllocError>
    ensures written { OnOk result (out.new.items ≡ out.old.items ++ parts.category.written category) }
    ensures fits { OnOk result (parts.category.fits category ≡ true) }
{
    Ok(out.push(category as u8)?)
}

#[tactic(auto, unfolding(crate::specs::Parts::status))]
fn put_status(out: &mut Vec<u8>, status: Status) -> Result<(), AllocError>
    ensures written { OnOk result (out.new.items ≡ out.old.items ++ parts.status.written status) }
    ensures fits { OnOk result (parts.status.fits status ≡ true) }
{
    Ok(out.push(status as u8)?)
}

#[tactic(auto, unfolding(crate::specs::Parts::form))]
fn put_form(out: &mut Vec<u8>, form: Form) -> Result<(), AllocError>
    ensures written { OnOk result (out.new.items ≡ out.old.items ++ parts.form.written form) }
    ensures fits { OnOk result (parts.form.fits form ≡ true) }
{
    Ok(out.push(form as u8)?)
}

#[tactic(auto, unfolding(crate::specs::Parts::kind))]
fn put_kind(out: &mut Vec<u8>, kind: Kind) -> Result<(), AllocError>
    ensures written { OnOk result (out.new.items ≡ out.old.items ++ parts.kind.written kind) }
    ensures fits { OnOk result (parts.kind.fits kind ≡ true) }
{
    Ok(out.push(kind_number(kind))?)
}

#[tactic(auto, unfolding(crate::specs::Parts::entries))]
pub fn put_entries(out: &mut Vec<u8>, entries: &EntryList) -> Result<(), AllocError>
    ensures written { OnOk result (out.new.items ≡ out.old.items ++ parts.entries.written entries.now) }
    ensures fits { OnOk result (parts.entries.fits entries.now ≡ true) }
{
    put_u64(out, entries.items().len() as u64)?;
    put_each_entry(out, entries.items())
}

fn put_each_entry(out: &mut Vec<u8>, entries: &[(Guideline, Category)]) -> Result<(), AllocError>
    ensures written { OnOk result (out.new.items ≡ out.old.items ++ flat_map parts.entry.written entries.now) }
    ensures fits { OnOk result (list_all parts.entry.fits entries.now ≡ true) }
{
    for entry in entries {
        put_entry(out, *entry)?;
    }
    Ok(())
}

#[tactic(auto, unfolding(crate::specs::Parts::entry))]
fn put_entry(out: &mut Vec<u8>, entry: (Guideline, Category)) -> Result<(), AllocError>
    ensures written { OnOk result (out.new.items ≡ out.old.items ++ parts.entry.written entry) }
    ensures fits { OnOk result (parts.entry.fits entry ≡ true) }
{
    put_guideline(out, entry.0)?;
    put_category(out, entry.1)
}

#[tactic(auto, unfolding(crate::specs::Parts::place))]
fn put_place(out: &mut Vec<u8>, place: Place) -> Result<(), AllocError>
    ensures written { OnOk result (out.new.items ≡ out.old.items ++ parts.place.written place) }
    ensures fits { OnOk result (parts.place.fits place ≡ true) }
{
    put_u32(out, place.line)?;
    put_u32(out, place.column)
}

#[tactic(auto, unfolding(crate::specs::Parts::optional_place))]
fn put_optional_place(out: &mut Vec<u8>, place: Option<Place>) -> Result<(), AllocError>
    ensures written { OnOk result (out.new.items ≡ out.old.items ++ parts.optional_place.written place) }
    ensures fits { OnOk result (parts.optional_place.fits place ≡ true) }
{
    match place {
        None => Ok(out.push(0)?),
        Some(place) => {
            out.push(1)?;
            put_place(out, place)
        }
    }
}

#[tactic(auto, unfolding(crate::specs::Parts::finding))]
fn put_finding(out: &mut Vec<u8>, finding: &Finding) -> Result<(), AllocError>
    ensures written { OnOk result (out.new.items ≡ out.old.items ++ parts.finding.written finding.now) }
    ensures fits { OnOk result (parts.finding.fits finding.now ≡ true) }
{
    put_guideline(out, finding.guideline)?;
    put_place(out, finding.place)?;
    put_optional_place(out, finding.other)?;
    put_text(out, &finding.function)?;
    put_text(out, &finding.object)?;
    put_kind(out, finding.kind)
}

#[tactic(auto, unfolding(crate::specs::Parts::findings))]
pub fn put_findings(out: &mut Vec<u8>, found: &FindingList) -> Result<(), AllocError>
    ensures written { OnOk result (out.new.items ≡ out.old.items ++ parts.findings.written found.now) }
    ensures fits { OnOk result (parts.findings.fits found.now ≡ true) }
{
    put_u64(out, found.items().len() as u64)?;
    put_each_finding(out, found.items())
}

fn put_each_finding(out: &mut Vec<u8>, found: &[Finding]) -> Result<(), AllocError>
    ensures written { OnOk result (out.new.items ≡ out.old.items ++ flat_map parts.finding.written found.now) }
    ensures fits { OnOk result (list_all parts.finding.fits found.now ≡ true) }
{
    for finding in found {
        put_finding(out, finding)?;
    }
    Ok(())
}

#[tactic(auto, unfolding(crate::specs::Parts::deviation))]
pub fn put_deviation(out: &mut Vec<u8>, deviation: &Deviation) -> Result<(), AllocError>
    ensures written { OnOk result (out.new.items ≡ out.old.items ++ parts.deviation.written deviation.now) }
    ensures fits { OnOk result (parts.deviation.fits deviation.now ≡ true) }
{
    put_u32(out, deviation.id)?;
    put_guideline(out, deviation.guideline)?;
    put_text(out, &deviation.function)?;
    put_text(out, &deviation.object)?;
    put_text(out, &deviation.reason)?;
    put_life(out, deviation)
}

/// Who raised it, what it cites, and where it stands.
#[tactic(auto, unfolding(crate::specs::Parts::life))]
fn put_life(out: &mut Vec<u8>, deviation: &Deviation) -> Result<(), AllocError>
    ensures written { OnOk result (out.new.items ≡ out.old.items ++ parts.life.written (deviation.now.raiser, (deviation.now.permit, (deviation.now.status, (deviation.now.approver, deviation.now.form))))) }
    ensures fits { OnOk result (parts.life.fits (deviation.now.raiser, (deviation.now.permit, (deviation.now.status, (deviation.now.approver, deviation.now.form)))) ≡ true) }
{
    put_text(out, &deviation.raiser)?;
    put_optional_text(out, &deviation.permit)?;
    put_status(out, deviation.status)?;
    put_optional_text(out, &deviation.approver)?;
    put_form(out, deviation.form)
}

#[tactic(auto, unfolding(crate::specs::Parts::permit))]
pub fn put_permit(out: &mut Vec<u8>, permit: &Permit) -> Result<(), AllocError>
    ensures written { OnOk result (out.new.items ≡ out.old.items ++ parts.permit.written permit.now) }
    ensures fits { OnOk result (parts.permit.fits permit.now ≡ true) }
{
    put_text(out, &permit.name)?;
    put_guideline(out, permit.guideline)?;
    put_text(out, &permit.reason)?;
    put_text(out, &permit.maker)
}

/// The categories of the nineteen guidelines.
#[tactic(auto, unfolding(crate::specs::Parts::plan))]
pub fn put_plan(out: &mut Vec<u8>, plan: &Plan) -> Result<(), AllocError>
    ensures written { OnOk result (out.new.items ≡ out.old.items ++ parts.plan.written plan.now) }
    ensures fits { OnOk result (parts.plan.fits plan.now ≡ true) }
{
    put_each_category(out, &plan.categories)
}

fn put_each_category(out: &mut Vec<u8>, categories: &[Category]) -> Result<(), AllocError>
    ensures written { OnOk result (out.new.items ≡ out.old.items ++ flat_map parts.category.written categories.now) }
    ensures fits { OnOk result (list_all parts.category.fits categories.now ≡ true) }
{
    for category in categories {
        put_category(out, *category)?;
    }
    Ok(())
}
