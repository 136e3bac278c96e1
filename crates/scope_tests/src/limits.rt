use crate::trees::{function, main_function, object, program_line, tree, unit_line};
use std::test::Fail;

#[test]
fn a_text_without_a_main_is_refused_at_its_end_as_a_program_alone(
    rt: HostRuntime,
) -> Result<(), Fail> {
    let alloc = rt.alloc();
    let empty = tree(Vec::new(alloc));
    assert_eq!(rt;
        program_line(alloc, &empty)?.as_slice(),
        b"refused U12 9999:1 main\n".as_slice()
    );
    assert_eq!(rt;
        unit_line(alloc, &empty)?.as_slice(),
        b"accepted\n".as_slice()
    );
    Ok(())
}

#[test]
fn the_main_of_a_program_has_a_body(rt: HostRuntime) -> Result<(), Fail> {
    let alloc = rt.alloc();
    let mut externals = Vec::new(alloc);
    externals.push(function(alloc, 1, "main", None)?)?;
    let tree = tree(externals);
    assert_eq!(rt;
        program_line(alloc, &tree)?.as_slice(),
        b"refused U12 9999:1 main\n".as_slice()
    );
    Ok(())
}

#[test]
fn a_text_has_at_most_512_functions(rt: HostRuntime) -> Result<(), Fail> {
    let alloc = rt.alloc();
    for (count, line) in [
        (511_u32, "accepted\n"),
        (512, "refused U13 513:5 functions\n"),
    ] {
        let mut externals = Vec::new(alloc);
        for number in 1..=count {
            let name = format!(in alloc; "f{number}")?;
            externals.push(function(alloc, number, name.as_str(), Some(Vec::new(alloc)))?)?;
        }
        externals.push(main_function(alloc, count + 1)?)?;
        let tree = tree(externals);
        assert_eq!(rt; program_line(alloc, &tree)?.as_slice(), line.as_bytes());
        assert_eq!(rt; unit_line(alloc, &tree)?.as_slice(), line.as_bytes());
    }
    Ok(())
}

#[test]
fn a_text_has_at_most_2048_objects_of_static_storage(rt: HostRuntime) -> Result<(), Fail> {
    let alloc = rt.alloc();
    for (count, line) in [
        (2048_u32, "accepted\n"),
        (2049, "refused U13 2049:5 objects\n"),
    ] {
        let mut externals = Vec::new(alloc);
        for number in 1..=count {
            let name = format!(in alloc; "x{number}")?;
            externals.push(object(alloc, number, name.as_str())?)?;
        }
        externals.push(main_function(alloc, count + 1)?)?;
        let tree = tree(externals);
        assert_eq!(rt; program_line(alloc, &tree)?.as_slice(), line.as_bytes());
    }
    Ok(())
}
