use crate::{PlanStop, plan_from_toml};
use misra_base::Name;
use std::alloc::{AllocError, Global};
use std::test::Fail;

/// The bytes of a name, which the tests make of texts alone.
fn text_of(name: &Name) -> &str {
    std::str::from_utf8(name.bytes()).unwrap_or("no text")
}

/// The entries of a plan in one line, or the stop with what it carries.
fn plan_answer(alloc: Global, text: &str) -> Result<String, AllocError> {
    match plan_from_toml(alloc, text) {
        Ok(entries) => {
            let mut line = String::new(alloc);
            for (guideline, category) in entries.iter() {
                let entry = format!(in alloc; "{guideline} {category}, ")?;
                line.push_str(entry.as_str())?;
            }
            Ok(line)
        }
        Err(PlanStop::Text) => format!(in alloc; "Text"),
        Err(PlanStop::Form(key)) => format!(in alloc; "Form {}", text_of(&key)),
        Err(PlanStop::UnknownGuideline(key)) => {
            format!(in alloc; "UnknownGuideline {}", text_of(&key))
        }
        Err(PlanStop::Lowered(guideline)) => format!(in alloc; "Lowered {guideline}"),
        Err(PlanStop::Memory) => format!(in alloc; "Memory"),
    }
}

#[test]
fn plans_are_judged_by_their_root_keys_first(rt: HostRuntime) -> Result<(), Fail> {
    let alloc = rt.alloc();
    for (text, want) in [
        ("", "Form categories"),
        ("# a comment\n", "Form categories"),
        ("abc = 1", "Form abc"),
        ("zzz = 1", "Form categories"),
        ("categories = 1", "Form categories"),
        ("categories = \"Mandatory\"", "Form categories"),
        ("categories = []", "Form categories"),
        ("[[categories]]", "Form categories"),
        ("categories = {}", ""),
        ("[categories]\n", ""),
        ("abc = 1\n[categories]\n", "Form abc"),
        ("abc = 1\nabb = 2\ncategories = 3", "Form abb"),
        ("categories = 1\nzzz = 2", "Form categories"),
        (
            "zzz = 1\n[categories]\n\"D5.1\" = \"Advisory\"\n",
            "Form zzz",
        ),
        ("Categories = {}", "Form Categories"),
        ("categoriesx = {}", "Form categories"),
        ("categorie = {}", "Form categorie"),
        ("\"\" = 1\n[categories]\n", "Form "),
        ("[categories]\n[other]\n", "Form other"),
        ("[a.b]\n[categories]\n", "Form a"),
        ("categories.\"D5.2\" = \"Required\"", "D5.2 Required, "),
        ("categories.D5.2 = \"Required\"", "UnknownGuideline D5"),
        ("[categories.\"D5.2\"]\n", "Form D5.2"),
        ("[[categories.\"D5.2\"]]\n", "Form D5.2"),
        ("[categories", "Text"),
        ("\"D5.2\" = ", "Text"),
        ("[categories]\n[categories]\n", "Text"),
        ("categories = {}\n[categories]\n", "Text"),
    ] {
        assert_eq!(rt; plan_answer(alloc, text)?.as_str(), want, "at {text}");
    }
    Ok(())
}

#[test]
fn plans_are_judged_entry_by_entry_in_the_order_of_bytes(rt: HostRuntime) -> Result<(), Fail> {
    let alloc = rt.alloc();
    for (entries, want) in [
        ("\"D5.1\" = \"Advisory\"", "Lowered D5.1"),
        ("\"R15.5\" = \"Disapplied\"", "R15.5 Disapplied, "),
        ("D5.1 = \"Mandatory\"", "UnknownGuideline D5"),
        ("\"D5.1\" = \"mandatory\"", "Form D5.1"),
        ("\"D5.1\" = \"MANDATORY\"", "Form D5.1"),
        ("\"D5.1\" = \"Mandatory \"", "Form D5.1"),
        ("\"D5.1\" = \"\"", "Form D5.1"),
        ("\"D5.1\" = 1", "Form D5.1"),
        ("\"D5.1\" = true", "Form D5.1"),
        ("\"D5.1\" = [\"Mandatory\"]", "Form D5.1"),
        ("\"D5.1\" = {}", "Form D5.1"),
        ("\"D5.1\" = 07:32", "Form D5.1"),
        ("\"D5.9\" = \"Mandatory\"", "UnknownGuideline D5.9"),
        ("\"D5.9\" = 1", "UnknownGuideline D5.9"),
        ("\"d5.1\" = \"Mandatory\"", "UnknownGuideline d5.1"),
        ("\"D5_1\" = \"Mandatory\"", "UnknownGuideline D5_1"),
        ("\"D5.1 \" = \"Mandatory\"", "UnknownGuideline D5.1 "),
        (
            "\"R99.1\" = \"Required\"\n\"D5.1\" = \"Advisory\"",
            "Lowered D5.1",
        ),
        (
            "\"D5.1\" = \"Advisory\"\n\"A1\" = \"Required\"",
            "UnknownGuideline A1",
        ),
        ("\"R22.12\" = \"Required\"", "Lowered R22.12"),
        ("\"R22.12\" = \"Mandatory\"", "R22.12 Mandatory, "),
        ("\"R22.14\" = \"Disapplied\"", "Lowered R22.14"),
        ("\"R22.11\" = \"Disapplied\"", "Lowered R22.11"),
        ("\"R15.4\" = \"Mandatory\"", "R15.4 Mandatory, "),
        ("\"R17.8\" = \"Advisory\"", "R17.8 Advisory, "),
        (
            "\"R22.20\" = \"Mandatory\"\n\"D5.2\" = \"Mandatory\"\n\"R15.4\" = \"Required\"",
            "D5.2 Mandatory, R15.4 Required, R22.20 Mandatory, ",
        ),
        ("'D5.2' = 'Required'", "D5.2 Required, "),
        ("\"\\x445.2\" = \"Required\"", "D5.2 Required, "),
        ("\"\\e\" = \"Required\"", "UnknownGuideline \u{1b}"),
        ("\"D5.2\" = \"\"\"\nRequired\"\"\"", "D5.2 Required, "),
        ("\"D5.2\" = \"Required\"\n\"D5.2\" = \"Mandatory\"", "Text"),
        (
            "\"D5.1\" = \"Mandatory\"\n\"D5.2\" = \"Mandatory\"\n\"D5.3\" = \"Mandatory\"
            \"R15.4\" = \"Mandatory\"\n\"R15.5\" = \"Mandatory\"\n\"R17.7\" = \"Mandatory\"
            \"R17.8\" = \"Mandatory\"\n\"R21.25\" = \"Mandatory\"\n\"R21.26\" = \"Mandatory\"
            \"R22.11\" = \"Mandatory\"\n\"R22.12\" = \"Mandatory\"\n\"R22.13\" = \"Mandatory\"
            \"R22.14\" = \"Mandatory\"\n\"R22.15\" = \"Mandatory\"\n\"R22.16\" = \"Mandatory\"
            \"R22.17\" = \"Mandatory\"\n\"R22.18\" = \"Mandatory\"\n\"R22.19\" = \"Mandatory\"
            \"R22.20\" = \"Mandatory\"",
            "D5.1 Mandatory, D5.2 Mandatory, D5.3 Mandatory, R15.4 Mandatory, R15.5 Mandatory, R17.7 Mandatory, R17.8 Mandatory, R21.25 Mandatory, R21.26 Mandatory, R22.11 Mandatory, R22.12 Mandatory, R22.13 Mandatory, R22.14 Mandatory, R22.15 Mandatory, R22.16 Mandatory, R22.17 Mandatory, R22.18 Mandatory, R22.19 Mandatory, R22.20 Mandatory, ",
        ),
    ] {
        let text = format!(in alloc; "[categories]\n{entries}\n")?;
        assert_eq!(rt;
            plan_answer(alloc, text.as_str())?.as_str(),
            want,
            "at {entries}"
        );
    }
    for text in [
        "categories = { \"D5.2\" = \"Required\" }",
        "categories = { \"D5.2\" = \"Required\", }",
        "categories = {\n  \"D5.2\" = \"Required\",\n}",
        "\u{feff}[categories]\n\"D5.2\" = \"Required\"",
    ] {
        assert_eq!(rt;
            plan_answer(alloc, text)?.as_str(),
            "D5.2 Required, ",
            "at {text}"
        );
    }
    Ok(())
}
