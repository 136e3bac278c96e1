//! The whole analysis: from a text to its report, with the promise that a silent report is kept by every run.
#![tactic(auto)]

mod checker;
mod findings;
mod form;
mod laws;
mod parsed;
mod position;
mod premises;
mod program;
mod reading;

pub use checker::analyse;
pub use laws::{
    findings_are_in_order, first_fault_is_one, program_is_one, silence_is_sound, some_run_breaks,
    some_run_returns, supported_has_no_fault,
};
pub use premises::{form_is_supported, some_text_has_a_finding, some_text_is_clean};
pub use program::{Call, Operation};
