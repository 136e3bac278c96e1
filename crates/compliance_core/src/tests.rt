use crate::{
    allowed, claim, covers, level, misra, misra_plan, plan_from_toml, summary, with_category,
};
use misra_base::{
    Category, Deviation, Finding, FirstDeviation, Form, Guideline, Kind, Name, Place, Plan, Status,
    SummaryRow,
};
use std::alloc::{AllocError, Global};
use std::test::Fail;

fn name(alloc: Global, text: &str) -> Result<Name, AllocError> {
    Name::from_bytes(alloc, text.as_bytes())
}

fn place(line: u32, column: u32) -> Place {
    Place { line, column }
}

fn finding(
    alloc: Global,
    guideline: Guideline,
    place: Place,
    function: &str,
    object: &str,
    kind: Kind,
) -> Result<Finding, AllocError> {
    Ok(Finding {
        guideline,
        place,
        other: None,
        function: name(alloc, function)?,
        object: name(alloc, object)?,
        kind,
    })
}

/// An approved deviation of the time before forms.
fn approved(
    alloc: Global,
    guideline: Guideline,
    function: &str,
    object: &str,
) -> Result<FirstDeviation, AllocError> {
    Ok(FirstDeviation {
        id: 1,
        guideline,
        function: name(alloc, function)?,
        object: name(alloc, object)?,
        reason: name(alloc, "reason")?,
        raiser: name(alloc, "ann")?,
        permit: None,
        status: Status::Approved,
        approver: Some(name(alloc, "ben")?),
    })
}

#[test]
fn guidelines_have_their_categories_and_a_plan_may_change_some(
    rt: HostRuntime,
) -> Result<(), Fail> {
    for (guideline, category) in [
        (Guideline::D5_1, Category::Required),
        (Guideline::D5_2, Category::Required),
        (Guideline::D5_3, Category::Required),
        (Guideline::R15_4, Category::Advisory),
        (Guideline::R15_5, Category::Advisory),
        (Guideline::R17_7, Category::Required),
        (Guideline::R17_8, Category::Advisory),
        (Guideline::R21_25, Category::Required),
        (Guideline::R21_26, Category::Required),
        (Guideline::R22_11, Category::Required),
        (Guideline::R22_12, Category::Mandatory),
        (Guideline::R22_13, Category::Required),
        (Guideline::R22_14, Category::Mandatory),
        (Guideline::R22_15, Category::Required),
        (Guideline::R22_16, Category::Required),
        (Guideline::R22_17, Category::Required),
        (Guideline::R22_18, Category::Required),
        (Guideline::R22_19, Category::Required),
        (Guideline::R22_20, Category::Mandatory),
    ] {
        let advisory = category == Category::Advisory;
        assert_eq!(rt; misra(guideline), category);
        assert_eq!(rt; allowed(guideline, Category::Mandatory), true);
        assert_eq!(rt;
            allowed(guideline, Category::Required),
            category != Category::Mandatory
        );
        assert_eq!(rt; allowed(guideline, Category::Advisory), advisory);
        assert_eq!(rt; allowed(guideline, Category::Disapplied), advisory);
    }
    Ok(())
}

// The finding is of D5.1, in `first` at `x`, under a plan with this category for D5.1.
#[test]
fn a_deviation_covers_by_status_guideline_category_and_names(rt: HostRuntime) -> Result<(), Fail> {
    use Category::{Advisory, Disapplied, Mandatory, Required};
    use Guideline::{D5_1, D5_2};
    use Status::{Approved, Raised, Rejected, Withdrawn};

    let alloc = rt.alloc();
    let finding = finding(alloc, D5_1, place(11, 5), "first", "x", Kind::Race)?;
    for (status, guideline, category, function, object, want) in [
        (Approved, D5_1, Required, "first", "x", true),
        (Raised, D5_1, Required, "first", "x", false),
        (Rejected, D5_1, Required, "first", "x", false),
        (Withdrawn, D5_1, Required, "first", "x", false),
        (Approved, D5_2, Required, "first", "x", false),
        (Approved, D5_1, Mandatory, "first", "x", false),
        (Approved, D5_1, Mandatory, "*", "*", false),
        (Approved, D5_1, Advisory, "first", "x", true),
        (Approved, D5_1, Disapplied, "first", "x", true),
        (Approved, D5_1, Required, "*", "x", true),
        (Approved, D5_1, Required, "first", "*", true),
        (Approved, D5_1, Required, "*", "*", true),
        (Approved, D5_1, Required, "second", "x", false),
        (Approved, D5_1, Required, "first", "y", false),
        (Approved, D5_1, Required, "First", "x", false),
        (Approved, D5_1, Required, "firs", "x", false),
        (Approved, D5_1, Required, "f*", "x", false),
        (Approved, D5_1, Required, "**", "x", false),
        (Approved, D5_1, Required, "first", "", false),
    ] {
        let mut deviation = Deviation::from_first(approved(alloc, guideline, function, object)?);
        deviation.status = status;
        let plan = with_category(&misra_plan(), D5_1, category);
        assert_eq!(rt;
            covers(&plan, &deviation, &finding),
            want,
            "{status} {guideline} {category} {function} {object}"
        );
    }
    Ok(())
}

/// Whether an approved pattern from R22.11 for the function and object covers a finding of R22.11 at the object.
fn pattern_covers(alloc: Global, pattern: &str, object: &str) -> Result<bool, AllocError> {
    let mut deviation = Deviation::from_first(approved(alloc, Guideline::R22_11, "main", pattern)?);
    deviation.form = Form::Pattern;
    let finding = finding(
        alloc,
        Guideline::R22_11,
        place(17, 15),
        "main",
        object,
        Kind::Again,
    )?;
    Ok(covers(&misra_plan(), &deviation, &finding))
}

#[test]
fn patterns_stand_for_numbers_in_brackets_alone(rt: HostRuntime) -> Result<(), Fail> {
    let alloc = rt.alloc();
    for (pattern, object, want) in [
        ("t[*]", "t[0]", true),
        ("t[*]", "t[12]", true),
        ("t[*]", "t[007]", true),
        ("t[*]", "t[*]", true),
        ("t[*]", "t[]", false),
        ("t[*]", "t[x]", false),
        ("t[*]", "t[1x]", false),
        ("t[*]", "t[-1]", false),
        ("t[*]", "t[1", false),
        ("t[*]", "t", false),
        ("t[*]", "t[1]x", false),
        ("t[*]", "t[1][2]", false),
        ("t[*]", "u[1]", false),
        ("t[*][*]", "t[1][2]", true),
        ("t[*][*]", "t[1]", false),
        ("s.a[*].b[*]", "s.a[3].b[44]", true),
        ("s.a[*].b[*]", "s.a[3].b[]", false),
        ("s.a[*].b[*]", "s.a[*].b[1]", false),
        ("s.a[*].b", "s.a[3].b", true),
        ("[*]", "[]", false),
        ("[*]", "[12]", true),
        ("[*]", "[x]", false),
        ("[*", "[*", true),
        ("t[*", "t[1", false),
        ("t*]", "t1]", false),
        ("t[12]", "t[12]", true),
        ("t[12]", "t[1]", false),
        ("*", "anything", true),
    ] {
        assert_eq!(rt;
            pattern_covers(alloc, pattern, object)?,
            want,
            "{pattern} at {object}"
        );
    }
    Ok(())
}

/// Category, level and the two counts of a row.
fn row_text(alloc: Global, row: &SummaryRow) -> Result<String, AllocError> {
    let (guideline, category, level) = (row.guideline, row.category, row.level);
    let (uncovered, deviated) = (row.uncovered, row.deviated);
    format!(in alloc; "{guideline} {category} {level} {uncovered} {deviated}")
}

/// A race of two accesses to `x`, in functions `first` and `second`, with its lines moved by some.
fn race(alloc: Global, moved: u32) -> Result<Vec<Finding>, AllocError> {
    let (one, other) = (place(11 + moved % 2, 5), place(19 + moved % 2, 5));
    let mut findings = Vec::new(alloc);
    for (function, here, there) in [("first", one, other), ("second", other, one)] {
        let mut finding = finding(alloc, Guideline::D5_1, here, function, "x", Kind::Race)?;
        finding.other = Some(there);
        findings.push(finding)?;
    }
    Ok(findings)
}

// Two threads write one object under two mutexes, and a deviation is for the one function, or for all. The same holds
// where the text has one more line at its beginning.
#[test]
fn covered_findings_are_counted_as_deviated(rt: HostRuntime) -> Result<(), Fail> {
    let alloc = rt.alloc();
    let plan = misra_plan();
    for (function, moved, want, failing) in [
        (
            "first",
            0,
            "D5.1 Required Violations 1 1",
            Some(Guideline::D5_1),
        ),
        (
            "first",
            1,
            "D5.1 Required Violations 1 1",
            Some(Guideline::D5_1),
        ),
        ("*", 0, "D5.1 Required Deviations 0 2", None),
        ("*", 1, "D5.1 Required Deviations 0 2", None),
    ] {
        let findings = race(alloc, moved)?;
        let first = approved(alloc, Guideline::D5_1, function, "x")?;
        let deviations = vec![in alloc; Deviation::from_first(first)]?;
        let rows = summary(&plan, &deviations, &findings);
        assert_eq!(rt; row_text(alloc, &rows[0])?.as_str(), want);
        for row in &rows[1..] {
            assert_eq!(rt; row.level.word(), "Compliant");
            assert_eq!(rt; row.uncovered, 0);
            assert_eq!(rt; row.deviated, 0);
        }
        assert_eq!(rt; claim(&rows), failing);
    }
    Ok(())
}

// Four threads are made and joined in loops, and a deviation is for the joins of all of them.
#[test]
fn a_pattern_covers_what_the_same_text_without_a_form_does_not(
    rt: HostRuntime,
) -> Result<(), Fail> {
    let alloc = rt.alloc();
    let plan = misra_plan();
    let findings = vec![in alloc;
        finding(
            alloc,
            Guideline::D5_3,
            place(13, 15),
            "main",
            "-",
            Kind::Repeated
        )?,
        finding(
            alloc,
            Guideline::R22_11,
            place(17, 15),
            "main",
            "t[0]",
            Kind::Again
        )?,
        finding(
            alloc,
            Guideline::R22_11,
            place(17, 15),
            "main",
            "t[1]",
            Kind::Again
        )?,
        finding(
            alloc,
            Guideline::R22_11,
            place(17, 15),
            "main",
            "t[2]",
            Kind::Again
        )?,
        finding(
            alloc,
            Guideline::R22_11,
            place(17, 15),
            "main",
            "t[3]",
            Kind::Again
        )?,
    ]?;
    for (pattern, want) in [
        (true, "R22.11 Required Deviations 0 4"),
        (false, "R22.11 Required Violations 4 0"),
    ] {
        let first = approved(alloc, Guideline::R22_11, "main", "t[*]")?;
        let mut deviation = Deviation::from_first(first);
        if pattern {
            deviation.form = Form::Pattern;
        }
        let deviations = vec![in alloc; deviation]?;
        let row = level(&plan, &deviations, &findings, Guideline::R22_11);
        assert_eq!(rt; row_text(alloc, &row)?.as_str(), want);
        let rows = summary(&plan, &deviations, &findings);
        assert_eq!(rt; row_text(alloc, &rows[9])?.as_str(), want);
        assert_eq!(rt;
            row_text(alloc, &rows[2])?.as_str(),
            "D5.3 Required Violations 1 0"
        );
        assert_eq!(rt; claim(&rows), Some(Guideline::D5_3));
    }
    Ok(())
}

/// The plan with the entries of a text, or none where the text is refused.
fn plan_with_entries(alloc: Global, text: &str) -> Option<Plan> {
    let entries = plan_from_toml(alloc, text).ok()?;
    let mut plan = misra_plan();
    for (guideline, category) in entries.iter() {
        plan = with_category(&plan, *guideline, *category);
    }
    Some(plan)
}

#[test]
fn a_guideline_that_a_plan_disapplies_has_no_violations(rt: HostRuntime) -> Result<(), Fail> {
    let alloc = rt.alloc();
    let text = "[categories]\n\"R15.5\" = \"Disapplied\"\n";
    let findings = vec![in alloc;
        finding(
            alloc,
            Guideline::R15_5,
            place(5, 5),
            "main",
            "-",
            Kind::Return
        )?,
    ]?;
    for (plan, want) in [
        (Some(misra_plan()), "R15.5 Advisory Violations 1 0"),
        (
            plan_with_entries(alloc, text),
            "R15.5 Disapplied Disapplied 1 0",
        ),
    ] {
        let plan = plan.expect(&rt, "the text is a plan");
        let rows = summary(&plan, &Vec::new(alloc), &findings);
        assert_eq!(rt; row_text(alloc, &rows[4])?.as_str(), want);
        assert_eq!(rt; claim(&rows), None);
    }
    Ok(())
}
