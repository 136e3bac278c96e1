use crate::trees::{
    call, extern_object, function, function_of, main_function, object, parameter, program_line,
    tree, unit_line,
};
use std::test::Fail;

#[test]
fn an_extern_object_is_defined_in_its_program_and_not_in_its_unit(
    rt: HostRuntime,
) -> Result<(), Fail> {
    let alloc = rt.alloc();
    for (defined, line) in [("x", "accepted\n"), ("y", "refused U12 1:12 x\n")] {
        let mut externals = Vec::new(alloc);
        externals.push(extern_object(alloc, 1, "x")?)?;
        externals.push(object(alloc, 2, defined)?)?;
        externals.push(main_function(alloc, 3)?)?;
        let tree = tree(externals);
        assert_eq!(rt; program_line(alloc, &tree)?.as_slice(), line.as_bytes());
        assert_eq!(rt;
            unit_line(alloc, &tree)?.as_slice(),
            b"accepted\n".as_slice()
        );
    }
    Ok(())
}

#[test]
fn a_function_of_a_pointer_has_a_body_where_it_is_called(rt: HostRuntime) -> Result<(), Fail> {
    let alloc = rt.alloc();
    for (is_pointer, called, line) in [
        (true, "f", "refused U12 1:5 f\n"),
        (false, "f", "accepted\n"),
        (true, "g", "accepted\n"),
    ] {
        let parameter = parameter(alloc, 1, "p", is_pointer)?;
        let mut items = Vec::new(alloc);
        items.push(call(alloc, 3, 18, called)?)?;
        let mut externals = Vec::new(alloc);
        externals.push(function_of(alloc, 1, "f", parameter, None)?)?;
        externals.push(function(alloc, 2, "g", None)?)?;
        externals.push(function(alloc, 3, "main", Some(items))?)?;
        let tree = tree(externals);
        assert_eq!(rt; program_line(alloc, &tree)?.as_slice(), line.as_bytes());
        assert_eq!(rt;
            unit_line(alloc, &tree)?.as_slice(),
            b"accepted\n".as_slice()
        );
    }
    Ok(())
}
