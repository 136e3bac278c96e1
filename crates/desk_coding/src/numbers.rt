//! Variants by their places, from 0.
ghost use Rattle.std.specs.Prelude.{◌≡◌, ◌==◌};
ghost use Rattle.std.specs.List.{find};
ghost use Rattle.misra_base.specs.Guidelines.{all_guidelines, guideline_number};
ghost use Rattle.desk_coding.specs.Variants.{category_list, category_number, form_list, form_number as form_place, kind_list, kind_number as kind_place, status_list, status_number as status_place};

use misra_base::{Category, Form, Guideline, Kind, Status};

pub fn guideline_at(number: u8) -> Option<Guideline>
    ensures { result ≡ find (λ g. guideline_number g == number) all_guidelines }
{
    match number {
        0 => Some(Guideline::D5_1),
        1 => Some(Guideline::D5_2),
        2 => Some(Guideline::D5_3),
        3 => Some(Guideline::R15_4),
        4 => Some(Guideline::R15_5),
        5 => Some(Guideline::R17_7),
        6 => Some(Guideline::R17_8),
        7 => Some(Guideline::R21_25),
        8 => Some(Guideline::R21_26),
        9 => Some(Guideline::R22_11),
        10 => Some(Guideline::R22_12),
        11 => Some(Guideline::R22_13),
        12 => Some(Guideline::R22_14),
        13 => Some(Guideline::R22_15),
        14 => Some(Guideline::R22_16),
        15 => Some(Guideline::R22_17),
        16 => Some(Guideline::R22_18),
        17 => Some(Guideline::R22_19),
        18 => Some(Guideline::R22_20),
        _ => None,
    }
}

pub fn category_at(number: u8) -> Option<Category>
    ensures { result ≡ find (λ c. category_number c == number) category_list }
{
    match number {
        0 => Some(Category::Mandatory),
        1 => Some(Category::Required),
        2 => Some(Category::Advisory),
        3 => Some(Category::Disapplied),
        _ => None,
    }
}

pub fn status_at(number: u8) -> Option<Status>
    ensures { result ≡ find (λ s. status_place s == number) status_list }
{
    match number {
        0 => Some(Status::Raised),
        1 => Some(Status::Approved),
        2 => Some(Status::Rejected),
        3 => Some(Status::Withdrawn),
        _ => None,
    }
}

pub fn form_at(number: u8) -> Option<Form>
    ensures { result ≡ find (λ f. form_place f == number) form_list }
{
    match number {
        0 => Some(Form::Text),
        1 => Some(Form::Pattern),
        _ => None,
    }
}

pub fn kind_at(number: u8) -> Option<Kind>
    ensures { result ≡ find (λ k. kind_place k == number) kind_list }
{
    match number {
        0 => Some(Kind::Race),
        1 => Some(Kind::Cycle),
        2 => Some(Kind::Outside),
        3 => Some(Kind::Repeated),
        4 => Some(Kind::Break),
        5 => Some(Kind::Return),
        6 => Some(Kind::Unused),
        7 => Some(Kind::Parameter),
        8 => Some(Kind::Order),
        9 => Some(Kind::Kind),
        10 => Some(Kind::Again),
        11 => Some(Kind::Access),
        12 => Some(Kind::Automatic),
        13 => Some(Kind::Thread),
        14 => Some(Kind::Before),
        15 => Some(Kind::Second),
        16 => Some(Kind::Dead),
        17 => Some(Kind::Busy),
        18 => Some(Kind::End),
        19 => Some(Kind::Destroyed),
        20 => Some(Kind::Unlock),
        21 => Some(Kind::Wait),
        22 => Some(Kind::Dependent),
        _ => None,
    }
}

pub fn kind_number(kind: Kind) -> u8
    ensures { result ≡ kind_place kind }
{
    kind as u8
}
