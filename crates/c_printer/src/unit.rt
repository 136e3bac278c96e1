use crate::declaration::{put_bound, put_declaration, put_pointers, put_specifiers};
use crate::statement::put_block;
use crate::token::{put, put_word};
use c_rawtree::{External, Function, Parameter, Tree, TypeDefinition};
use std::alloc::{AllocError, Global};

/// A text that has the tree, but for its places: its tokens, each with a space behind it. Brackets stand only where
/// the tree needs them.
pub fn print(alloc: Global, tree: &Tree) -> Result<Vec<u8>, AllocError> {
    let mut out = Vec::new(alloc);
    for external in &tree.externals {
        put_external(external, &mut out)?;
    }
    Ok(out)
}

fn put_external(external: &External, out: &mut Vec<u8>) -> Result<(), AllocError> {
    match external {
        External::TypeDefinition(definition) => put_type_definition(definition, out),
        External::Declaration(declaration) => put_declaration(declaration, out),
        External::Function(function) => put_function(function, out),
    }
}

fn put_type_definition(definition: &TypeDefinition, out: &mut Vec<u8>) -> Result<(), AllocError> {
    put(out, b"typedef")?;
    put_specifiers(&definition.specifiers, out)?;
    put_pointers(&definition.pointers, out)?;
    put_word(out, &definition.name)?;
    put(out, b";")
}

fn put_function(function: &Function, out: &mut Vec<u8>) -> Result<(), AllocError> {
    put_specifiers(&function.specifiers, out)?;
    put_pointers(&function.pointers, out)?;
    put_word(out, &function.name)?;
    put(out, b"(")?;
    let mut first = true;
    for parameter in &function.parameters {
        if !first {
            put(out, b",")?;
        }
        first = false;
        put_parameter(parameter, out)?;
    }
    put(out, b")")?;
    match &function.body {
        None => put(out, b";"),
        Some(body) => put_block(body, out),
    }
}

fn put_parameter(parameter: &Parameter, out: &mut Vec<u8>) -> Result<(), AllocError> {
    put_specifiers(&parameter.specifiers, out)?;
    put_pointers(&parameter.pointers, out)?;
    if let Some(name) = &parameter.name {
        put_word(out, name)?;
    }
    match &parameter.bound {
        None => Ok(()),
        Some(bound) => put_bound(bound, out),
    }
}
