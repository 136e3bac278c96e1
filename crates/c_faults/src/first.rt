ghost use Rattle.std.specs.Prelude.{◌≡◌, [], IfOk, IfErr, IfSome, IfNone, Some};
ghost use Rattle.std.specs.Option.{option_copied};
ghost use Rattle.c_faults.specs.Faults.{rank, limit_word, name_text, refusal_of, is_earlier, first_fault, IsFirst, StopsBy};

use crate::fault::{Fault, FaultName, Limit};
use misra_base::{CheckStop, Name, Refusal};
use std::alloc::{AllocError, Global};

fn rank(name: &FaultName) -> u8
    ensures { result ≡ rank name.now }
{
    match name {
        FaultName::Text(_) => 0,
        FaultName::Limit(Limit::Functions) => 1,
        FaultName::Limit(Limit::Objects) => 2,
        FaultName::Limit(Limit::Mutexes) => 3,
        FaultName::Limit(Limit::Conditions) => 4,
        FaultName::Limit(Limit::Threads) => 5,
        FaultName::Limit(Limit::Keys) => 6,
    }
}

/// Whether a fault stands before another one, or at its place with a lesser code, or there with a name of lesser rank.
fn is_earlier(a: &Fault, b: &Fault) -> bool
    ensures { result ≡ is_earlier a.now b.now }
{
    if a.place.line != b.place.line {
        a.place.line < b.place.line
    } else if a.place.column != b.place.column {
        a.place.column < b.place.column
    } else if a.code != b.code {
        a.code < b.code
    } else {
        rank(&a.name) < rank(&b.name)
    }
}

/// The first of the faults of a phase, and `None` where it has none.
pub fn first_fault(faults: &[Fault]) -> Option<&Fault>
    ensures value { option_copied result ≡ first_fault faults.now }
    ensures first { IfSome (option_copied result) (IsFirst faults.now) }
    ensures none { IfNone (option_copied result) (faults.now ≡ []) }
{
    let mut first = None;
    for fault in faults {
        first = match first {
            Some(other) if !is_earlier(fault, other) => Some(other),
            _ => Some(fault),
        };
    }
    first
}

fn limit_word(limit: Limit) -> &'static [u8]
    ensures { result.now ≡ limit_word limit }
{
    match limit {
        Limit::Functions => b"functions",
        Limit::Objects => b"objects",
        Limit::Mutexes => b"mutexes",
        Limit::Conditions => b"conditions",
        Limit::Threads => b"threads",
        Limit::Keys => b"keys",
    }
}

fn name_text(alloc: Global, name: &FaultName) -> Result<Name, AllocError>
    ensures { IfOk result (λ text. text ≡ name_text name.now) }
{
    match name {
        FaultName::Text(text) => Name::from_bytes(alloc, text.bytes()),
        FaultName::Limit(limit) => Name::from_bytes(alloc, limit_word(*limit)),
    }
}

fn refusal_of(alloc: Global, fault: &Fault) -> Result<Refusal, AllocError>
    ensures { IfOk result (λ refusal. refusal ≡ refusal_of fault.now) }
{
    Ok(Refusal {
        code: fault.code,
        place: fault.place,
        name: name_text(alloc, &fault.name)?,
    })
}

/// Stops by the first of the faults of a phase. `Ok` where it has none, and `CheckStop::Memory` for want of memory alone.
pub fn refuse(alloc: Global, faults: &[Fault]) -> Result<(), CheckStop>
    ensures none { IfOk result (λ _. faults.now ≡ []) }
    ensures first { IfErr result (StopsBy faults.now) }
{
    match first_fault(faults) {
        Some(fault) => Err(CheckStop::Refused(refusal_of(alloc, fault)?)),
        None => Ok(()),
    }
}
