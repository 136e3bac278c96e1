//! Guideline re-categorisation plans as TOML documents.
ghost use Rattle.std.specs.Prelude.{◌≡◌, ◌≢◌, Ok, Err, Some, None, MatchResult, option_copied};
ghost use Rattle.toml.specs.Parse.{parse_document};
ghost use Rattle.toml.specs.View.{table_view, view};

use crate::categories::allowed;
use misra_base::{Category, Guideline, Name};
use std::alloc::{AllocError, AllocFailed, Global};
use std::cmp::Ordering;
use std::str::FromStr;
use toml::{Table, Value};

/// Why a text is no plan.
#[derive(Debug, Drop)]
pub enum PlanStop {
    /// The text is no TOML document.
    Text,
    /// This key is another root key than `categories`, or is `categories` and missing or no table,
    /// or its value is no category word.
    Form(Name),
    /// This key of an entry is no guideline.
    UnknownGuideline(Name),
    /// The category of this guideline's entry is not allowed for it.
    Lowered(Guideline),
    /// Want of memory.
    Memory,
}

impl From<AllocError> for PlanStop {
    ghost use Rattle.compliance_core.specs.declared.plan.PlanStop.TheVariants.{Memory};

    ghost from_gives = { λ _ e. e ≡ Memory };

    fn from(_: AllocError) -> PlanStop {
        PlanStop::Memory
    }
}

impl<T: Drop> From<AllocFailed<T>> for PlanStop {
    ghost use Rattle.compliance_core.specs.declared.plan.PlanStop.TheVariants.{Memory};

    ghost from_gives = { λ _ e. e ≡ Memory };

    fn from(_: AllocFailed<T>) -> PlanStop {
        PlanStop::Memory
    }
}

ghost use Rattle.compliance_core.specs.Plans.{plan_of, root_table as table_of_root, table_alone as alone_table, entries_of, entry_of, guideline_named, category_of};

/// The stop for a key that is not of the form, or want of memory for the key.
fn form(alloc: Global, key: &str) -> PlanStop
    ensures { result ≢ PlanStop.Memory → result ≡ PlanStop.Form key.now }
{
    match Name::from_bytes(alloc, key.as_bytes()) {
        Ok(name) => PlanStop::Form(name),
        Err(_) => PlanStop::Memory,
    }
}

/// The stop for a key that is no guideline, or want of memory for the key.
fn unknown(alloc: Global, key: &str) -> PlanStop
    ensures { result ≢ PlanStop.Memory → result ≡ PlanStop.UnknownGuideline key.now }
{
    match Name::from_bytes(alloc, key.as_bytes()) {
        Ok(name) => PlanStop::UnknownGuideline(name),
        Err(_) => PlanStop::Memory,
    }
}

/// The guideline that is written so.
fn read_guideline(name: &str) -> Option<Guideline>
    ensures { result ≡ guideline_named name.now }
{
    Guideline::from_str(name).ok()
}

/// The category that a value is the word of.
fn read_category(value: &Value) -> Option<Category>
    ensures { result ≡ category_of (view value.now) }
{
    match value {
        Value::String(word) => Category::from_str(word.as_str()).ok(),
        _ => None,
    }
}

/// The entry of a key with its value.
fn entry(alloc: Global, key: &str, value: &Value) -> Result<(Guideline, Category), PlanStop>
    ensures { MatchResult result (λ e. entry_of key.now (view value.now) ≡ Ok e)
        (λ stop. stop ≢ PlanStop.Memory → entry_of key.now (view value.now) ≡ Err stop) }
{
    match (read_guideline(key), read_category(value)) {
        (None, _) => Err(unknown(alloc, key)),
        (Some(_), None) => Err(form(alloc, key)),
        (Some(guideline), Some(category)) => {
            if allowed(guideline, category) {
                Ok((guideline, category))
            } else {
                Err(PlanStop::Lowered(guideline))
            }
        }
    }
}

/// The entries of a table in the order of its keys, or its first fault.
fn entries(alloc: Global, table: &Table) -> Result<Vec<(Guideline, Category)>, PlanStop>
    ensures { MatchResult result (λ entries. entries_of (table_view table.now) ≡ Ok entries.items)
        (λ stop. stop ≢ PlanStop.Memory → entries_of (table_view table.now) ≡ Err stop) }
{
    let mut entries = Vec::new(alloc);
    for (key, value) in table.iter() {
        match entry(alloc, key.as_str(), value) {
            Ok(entry) => entries.push(entry)?,
            Err(stop) => return Err(stop),
        }
    }
    Ok(entries)
}

/// The table that the value of `categories` is, where no root key follows.
fn table_alone<'a>(
    alloc: Global,
    value: &'a Value,
    next: Option<&str>,
) -> Result<&'a Table, PlanStop>
    ensures { MatchResult result (λ table. alone_table (view value.now) (option_copied next.entry) ≡ Ok (table_view table.now))
        (λ stop. stop ≢ PlanStop.Memory → alone_table (view value.now) (option_copied next.entry) ≡ Err stop) }
{
    match value {
        Value::Table(table) => match next {
            Some(key) => Err(form(alloc, key)),
            None => Ok(table),
        },
        _ => Err(form(alloc, "categories")),
    }
}

/// The table of the one root key `categories`, or the first fault of the root keys.
fn root_table(alloc: Global, document: &Table) -> Result<&Table, PlanStop>
    ensures { MatchResult result (λ table. table_of_root (table_view document.now) ≡ Ok (table_view table.now))
        (λ stop. stop ≢ PlanStop.Memory → table_of_root (table_view document.now) ≡ Err stop) }
{
    let mut roots = document.iter();
    match roots.next() {
        None => Err(form(alloc, "categories")),
        Some((key, value)) => match key.as_str().cmp("categories") {
            Ordering::Less => Err(form(alloc, key.as_str())),
            Ordering::Equal => match roots.next() {
                Some((next, _)) => table_alone(alloc, value, Some(next.as_str())),
                None => table_alone(alloc, value, None),
            },
            Ordering::Greater => Err(form(alloc, "categories")),
        },
    }
}

/// The document that a text is.
fn document(alloc: Global, text: &str) -> Result<Table, PlanStop>
    ensures { MatchResult result (λ table. parse_document text.now ≡ Some (table_view table))
        (λ stop. stop ≢ PlanStop.Memory → (parse_document text.now ≡ None) × (stop ≡ PlanStop.Text)) }
{
    match toml::table_from_str(alloc, text) {
        Ok(table) => Ok(table),
        Err(error) => Err(if error.is_memory() {
            PlanStop::Memory
        } else {
            PlanStop::Text
        }),
    }
}

/// The entries of a guideline re-categorisation plan, by the order of bytes of their keys. The text is a TOML
/// document whose one root key `categories` is a table from guidelines to category words. Its first fault is the
/// answer: `Text` exactly where it is no TOML document; then the root keys by the order of bytes, then the entries.
pub fn plan_from_toml(alloc: Global, text: &str) -> Result<Vec<(Guideline, Category)>, PlanStop>
    ensures { MatchResult result (λ entries. plan_of text.now ≡ Ok entries.items)
        (λ stop. stop ≢ PlanStop.Memory → plan_of text.now ≡ Err stop) }
{
    let document = document(alloc, text)?;
    entries(alloc, root_table(alloc, &document)?)
}
