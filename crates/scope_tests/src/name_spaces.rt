use crate::trees::{extern_object, main_function, object, program_line, structure, tree, typedef};
use std::test::Fail;

#[test]
fn a_typedef_name_is_no_tag_and_an_object_may_have_the_name_of_one(
    rt: HostRuntime,
) -> Result<(), Fail> {
    let alloc = rt.alloc();
    for (first, line) in [
        (typedef(alloc, 1, "t")?, "refused U11 2:8 t\n"),
        (object(alloc, 1, "t")?, "accepted\n"),
        (extern_object(alloc, 1, "t")?, "refused U12 1:12 t\n"),
    ] {
        let mut externals = Vec::new(alloc);
        externals.push(first)?;
        externals.push(structure(alloc, 2, "t")?)?;
        externals.push(main_function(alloc, 3)?)?;
        let tree = tree(externals);
        assert_eq!(rt; program_line(alloc, &tree)?.as_slice(), line.as_bytes());
    }
    Ok(())
}
