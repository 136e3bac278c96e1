//! What stands in front of bytes: numbers, texts and variants.
ghost use Rattle.std.specs.Prelude.{◌≡◌};
ghost use Rattle.desk_coding.specs.Codings as codings;
ghost use Rattle.desk_coding.specs.Codings.{many_front};
ghost use Rattle.desk_coding.specs.Parts as parts;
ghost use Rattle.desk_coding.specs.Taking.{Gives, byte_front};

use crate::numbers::{category_at, form_at, guideline_at, kind_at, status_at};
use crate::stop::TakeStop;
use misra_base::{Category, EntryList, Form, Guideline, Kind, Name, NameList, Status};
use std::alloc::Global;

pub fn take_byte(bytes: &[u8]) -> Result<(u8, &[u8]), TakeStop>
    ensures { Gives (λ x. (x.0, x.1.now)) result (byte_front bytes.now) }
{
    match bytes {
        [] => Err(TakeStop::NoCoding),
        [byte, rest @ ..] => Ok((*byte, rest)),
    }
}

#[tactic(auto, unfolding(crate::specs::Codings::number32))]
pub fn take_u32(bytes: &[u8]) -> Result<(u32, &[u8]), TakeStop>
    ensures { Gives (λ x. (x.0, x.1.now)) result (codings.number32.front bytes.now) }
{
    if bytes.len() < 4 {
        return Err(TakeStop::NoCoding);
    }
    let (front, rest) = bytes.split_at(4);
    let number = u32::from_be_bytes([front[0], front[1], front[2], front[3]]);
    Ok((number, rest))
}

#[tactic(auto, unfolding(crate::specs::Codings::number64))]
pub fn take_u64(bytes: &[u8]) -> Result<(u64, &[u8]), TakeStop>
    ensures { Gives (λ x. (x.0, x.1.now)) result (codings.number64.front bytes.now) }
{
    if bytes.len() < 8 {
        return Err(TakeStop::NoCoding);
    }
    let (front, rest) = bytes.split_at(8);
    let number = u64::from_be_bytes([
        front[0], front[1], front[2], front[3], front[4], front[5], front[6], front[7],
    ]);
    Ok((number, rest))
}

#[tactic(auto, unfolding(crate::specs::Codings::text))]
pub fn take_text(alloc: Global, bytes: &[u8]) -> Result<(Name, &[u8]), TakeStop>
    ensures { Gives (λ x. (x.0, x.1.now)) result (codings.text.front bytes.now) }
{
    let (length, rest) = take_u64(bytes)?;
    let length = length as usize;
    if rest.len() < length {
        return Err(TakeStop::NoCoding);
    }
    let (text, rest) = rest.split_at(length);
    Ok((Name::from_bytes(alloc, text)?, rest))
}

#[tactic(auto, unfolding(crate::specs::Parts::optional_text))]
pub fn take_optional_text(alloc: Global, bytes: &[u8]) -> Result<(Option<Name>, &[u8]), TakeStop>
    ensures { Gives (λ x. (x.0, x.1.now)) result (parts.optional_text.front bytes.now) }
{
    match bytes {
        [] => Err(TakeStop::NoCoding),
        [0, rest @ ..] => Ok((None, rest)),
        [1, rest @ ..] => {
            let (text, rest) = take_text(alloc, rest)?;
            Ok((Some(text), rest))
        }
        [_, ..] => Err(TakeStop::NoCoding),
    }
}

#[tactic(auto, unfolding(crate::specs::Parts::names))]
pub fn take_names(alloc: Global, bytes: &[u8]) -> Result<(NameList, &[u8]), TakeStop>
    ensures { Gives (λ x. (x.0, x.1.now)) result (parts.names.front bytes.now) }
{
    let (count, rest) = take_u64(bytes)?;
    let (names, rest) = take_each_name(alloc, count, rest)?;
    Ok((NameList::from_vec(names), rest))
}

fn take_each_name(alloc: Global, count: u64, bytes: &[u8]) -> Result<(Vec<Name>, &[u8]), TakeStop>
    ensures { Gives (λ x. (x.0.items, x.1.now)) result (many_front codings.text count bytes.now) }
{
    let mut names = Vec::new(alloc);
    let mut rest = bytes;
    for _ in 0..count {
        let (name, after) = take_text(alloc, rest)?;
        names.push(name)?;
        rest = after;
    }
    Ok((names, rest))
}

#[tactic(auto, unfolding(crate::specs::Parts::guideline))]
pub fn take_guideline(bytes: &[u8]) -> Result<(Guideline, &[u8]), TakeStop>
    ensures { Gives (λ x. (x.0, x.1.now)) result (parts.guideline.front bytes.now) }
{
    let (number, rest) = take_byte(bytes)?;
    match guideline_at(number) {
        Some(guideline) => Ok((guideline, rest)),
        None => Err(TakeStop::NoCoding),
    }
}

#[tactic(auto, unfolding(crate::specs::Parts::category))]
pub fn take_category(bytes: &[u8]) -> Result<(Category, &[u8]), TakeStop>
    ensures { Gives (λ x. (x.0, x.1.now)) result (parts.category.front bytes.now) }
{
    let (number, rest) = take_byte(bytes)?;
    match category_at(number) {
        Some(category) => Ok((category, rest)),
        None => Err(TakeStop::NoCoding),
    }
}

#[tactic(auto, unfolding(crate::specs::Parts::status))]
pub fn take_status(bytes: &[u8]) -> Result<(Status, &[u8]), TakeStop>
    ensures { Gives (λ x. (x.0, x.1.now)) result (parts.status.front bytes.now) }
{
    let (number, rest) = take_byte(bytes)?;
    match status_at(number) {
        Some(status) => Ok((status, rest)),
        None => Err(TakeStop::NoCoding),
    }
}

#[tactic(auto, unfolding(crate::specs::Parts::form))]
pub fn take_form(bytes: &[u8]) -> Result<(Form, &[u8]), TakeStop>
    ensures { Gives (λ x. (x.0, x.1.now)) result (parts.form.front bytes.now) }
{
    let (number, rest) = take_byte(bytes)?;
    match form_at(number) {
        Some(form) => Ok((form, rest)),
        None => Err(TakeStop::NoCoding),
    }
}

#[tactic(auto, unfolding(crate::specs::Parts::kind))]
pub fn take_kind(bytes: &[u8]) -> Result<(Kind, &[u8]), TakeStop>
    ensures { Gives (λ x. (x.0, x.1.now)) result (parts.kind.front bytes.now) }
{
    let (number, rest) = take_byte(bytes)?;
    match kind_at(number) {
        Some(kind) => Ok((kind, rest)),
        None => Err(TakeStop::NoCoding),
    }
}

#[tactic(auto, unfolding(crate::specs::Parts::entries))]
pub fn take_entries(alloc: Global, bytes: &[u8]) -> Result<(EntryList, &[u8]), TakeStop>
    ensures { Gives (λ x. (x.0, x.1.now)) result (parts.entries.front bytes.now) }
{
    let (count, rest) = take_u64(bytes)?;
    let (entries, rest) = take_each_entry(alloc, count, rest)?;
    Ok((EntryList::from_vec(entries), rest))
}

fn take_each_entry(
    alloc: Global,
    count: u64,
    bytes: &[u8],
) -> Result<(Vec<(Guideline, Category)>, &[u8]), TakeStop>
    ensures { Gives (λ x. (x.0.items, x.1.now)) result (many_front parts.entry count bytes.now) }
{
    let mut entries = Vec::new(alloc);
    let mut rest = bytes;
    for _ in 0..count {
        let (entry, after) = take_entry(rest)?;
        entries.push(entry)?;
        rest = after;
    }
    Ok((entries, rest))
}

#[tactic(auto, unfolding(crate::specs::Parts::entry))]
fn take_entry(bytes: &[u8]) -> Result<((Guideline, Category), &[u8]), TakeStop>
    ensures { Gives (λ x. (x.0, x.1.now)) result (parts.entry.front bytes.now) }
{
    let (guideline, rest) = take_guideline(bytes)?;
    let (category, rest) = take_category(rest)?;
    Ok(((guideline, category), rest))
}
