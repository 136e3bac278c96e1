//! That the premises of the laws are met, by functions that do nothing.

ghost use Rattle.std.specs.Prelude.{◌≡◌, ◌≢◌, true, List, []};
ghost use Rattle.misra_base.specs.declared.guideline.Guideline.TheVariants.{R22_17};
ghost use Rattle.analysis.specs.Faults.{IsSupportedAs};
ghost use Rattle.analysis.specs.Findings.{findings_of};
ghost use Rattle.analysis.specs.Premises.{FormIsSupported, unlock_text, lock_text};
ghost use Rattle.analysis.specs.Runs.{IsRun, IsGoodRun, Breaks, state_after};
ghost use Rattle.analysis.specs.Samples.{unlock_alone, lock_and_unlock};
ghost use Rattle.analysis.specs.Step.{Choice};

use crate::laws::{some_run_breaks, some_run_returns};
use lexical_laws::classes_are_of_words;

/// Each text of the form has a syntax and a program, where its tokens have no fault.
pub fn form_is_supported()
    ensures { FormIsSupported }
{
    classes_are_of_words();
}

/// Some text is supported and has a finding, and a run of it breaks Rule 22.17.
pub fn some_text_has_a_finding()
    ensures supported { IsSupportedAs unlock_text unlock_alone }
    ensures finding { findings_of unlock_alone ≢ [] }
    ensures breaks { (run : List Choice) × IsRun unlock_alone run × Breaks R22_17 unlock_alone run }
{
    form_is_supported();
    some_run_breaks();
}

/// Some text is supported and has none, and a run of it comes to the return of `main`.
pub fn some_text_is_clean()
    ensures supported { IsSupportedAs lock_text lock_and_unlock }
    ensures clean { findings_of lock_and_unlock ≡ [] }
    ensures returns { (run : List Choice) × IsGoodRun lock_and_unlock run × ((state_after lock_and_unlock run).is_over ≡ true) }
{
    form_is_supported();
    some_run_returns();
}
