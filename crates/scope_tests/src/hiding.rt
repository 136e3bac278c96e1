use crate::trees::{
    answer, function, function_of, local, main_function, nested, object, parameter, program_line,
    tree,
};
use c_names::{Kind, StorageDuration};
use c_scope::declare;
use misra_base::Place;
use std::test::Fail;

#[test]
fn what_is_declared_nowhere_is_refused_where_it_is_used(rt: HostRuntime) -> Result<(), Fail> {
    let alloc = rt.alloc();
    let mut items = Vec::new(alloc);
    items.push(answer(alloc, 1, 25, "y")?)?;
    let mut externals = Vec::new(alloc);
    externals.push(function(alloc, 1, "main", Some(items))?)?;
    externals.push(object(alloc, 2, "y")?)?;
    let tree = tree(externals);
    assert_eq!(rt;
        program_line(alloc, &tree)?.as_slice(),
        b"refused U9 1:25 y\n".as_slice()
    );
    Ok(())
}

#[test]
fn a_second_object_and_a_name_of_the_library_are_refused(rt: HostRuntime) -> Result<(), Fail> {
    let alloc = rt.alloc();
    for (first, second, line) in [
        ("a", "a", "refused U10 2:5 a\n"),
        ("a", "NULL", "refused U11 2:5 NULL\n"),
        ("mtx_lock", "a", "refused U11 1:5 mtx_lock\n"),
        ("a", "main", "refused U10 3:5 main\n"),
        ("a", "b", "accepted\n"),
    ] {
        let mut externals = Vec::new(alloc);
        externals.push(object(alloc, 1, first)?)?;
        externals.push(object(alloc, 2, second)?)?;
        externals.push(function(alloc, 3, "main", Some(Vec::new(alloc)))?)?;
        let tree = tree(externals);
        assert_eq!(rt; program_line(alloc, &tree)?.as_slice(), line.as_bytes());
    }
    Ok(())
}

#[test]
fn a_use_refers_to_the_innermost_declaration(rt: HostRuntime) -> Result<(), Fail> {
    let alloc = rt.alloc();
    for (inner, storage) in [
        ("x", StorageDuration::Automatic),
        ("y", StorageDuration::Static),
    ] {
        let mut items = Vec::new(alloc);
        items.push(local(alloc, 2, 22, inner)?)?;
        items.push(answer(alloc, 2, 32, "x")?)?;
        let mut externals = Vec::new(alloc);
        externals.push(object(alloc, 1, "x")?)?;
        externals.push(function(alloc, 2, "main", Some(items))?)?;
        let tree = tree(externals);
        match declare(alloc, &tree) {
            Ok(names) => {
                let used = Place {
                    line: 2,
                    column: 32,
                };
                let referent = match names.number_at(used) {
                    Some(number) => names.declaration(number),
                    None => None,
                };
                let found = referent.map(|declaration| declaration.storage);
                assert_eq!(rt; found, Some(Some(storage)));
            }
            Err(_stop) => assert!(rt; false, "the text is refused"),
        }
    }
    Ok(())
}

#[test]
fn names_of_the_library_are_declared_before_the_text(rt: HostRuntime) -> Result<(), Fail> {
    let alloc = rt.alloc();
    let mut items = Vec::new(alloc);
    items.push(answer(alloc, 1, 25, "TIME_UTC")?)?;
    let mut externals = Vec::new(alloc);
    externals.push(function(alloc, 1, "main", Some(items))?)?;
    let tree = tree(externals);
    match declare(alloc, &tree) {
        Ok(names) => {
            let used = Place {
                line: 1,
                column: 25,
            };
            let referent = match names.number_at(used) {
                Some(number) => names.declaration(number),
                None => None,
            };
            let found = referent.map(|declaration| (declaration.kind, declaration.place.line));
            assert_eq!(rt; found, Some((Kind::Library, 0)));
        }
        Err(_stop) => assert!(rt; false, "the text is refused"),
    }
    Ok(())
}

#[test]
fn a_parameter_is_declared_in_the_scope_of_its_body(rt: HostRuntime) -> Result<(), Fail> {
    let alloc = rt.alloc();
    for (is_nested, line) in [(false, "refused U10 1:26 a\n"), (true, "accepted\n")] {
        let mut items = Vec::new(alloc);
        items.push(local(alloc, 1, 26, "a")?)?;
        if is_nested {
            let inner = items;
            items = Vec::new(alloc);
            items.push(nested(1, inner))?;
        }
        let parameter = parameter(alloc, 1, "a", false)?;
        let mut externals = Vec::new(alloc);
        externals.push(function_of(alloc, 1, "f", parameter, Some(items))?)?;
        externals.push(main_function(alloc, 2)?)?;
        let tree = tree(externals);
        assert_eq!(rt; program_line(alloc, &tree)?.as_slice(), line.as_bytes());
    }
    Ok(())
}

#[test]
fn an_inner_object_is_not_seen_behind_its_block(rt: HostRuntime) -> Result<(), Fail> {
    let alloc = rt.alloc();
    for (outer, line) in [("x", "accepted\n"), ("y", "refused U9 2:50 x\n")] {
        let mut inner = Vec::new(alloc);
        inner.push(local(alloc, 2, 22, "x")?)?;
        let mut items = Vec::new(alloc);
        items.push(nested(2, inner))?;
        items.push(answer(alloc, 2, 50, "x")?)?;
        let mut externals = Vec::new(alloc);
        externals.push(object(alloc, 1, outer)?)?;
        externals.push(function(alloc, 2, "main", Some(items))?)?;
        let tree = tree(externals);
        assert_eq!(rt; program_line(alloc, &tree)?.as_slice(), line.as_bytes());
    }
    Ok(())
}
