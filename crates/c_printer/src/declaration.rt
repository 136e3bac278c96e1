use crate::expression::put_expression;
use crate::operator::{keyword_token, qualifier_token};
use crate::token::{put, put_word};
use c_rawtree::{
    Bound, Declaration, Declarator, Enumerator, InitDeclarator, Initializer, MemberDeclaration,
    Pointer, Specifier, Word,
};
use std::alloc::AllocError;

#[cycle(printing)]
pub(crate) fn put_specifiers(
    specifiers: &[Specifier],
    out: &mut Vec<u8>,
) -> Result<(), AllocError> {
    for specifier in specifiers {
        put_specifier(specifier, out)?;
    }
    Ok(())
}

#[cycle(printing)]
fn put_specifier(specifier: &Specifier, out: &mut Vec<u8>) -> Result<(), AllocError> {
    match specifier {
        Specifier::Keyword { keyword, .. } => put(out, keyword_token(*keyword)),
        Specifier::LibraryType(word) | Specifier::TypedefName(word) => put_word(out, word),
        Specifier::StructReference { tag, .. } => {
            put(out, b"struct")?;
            put_word(out, tag)
        }
        Specifier::StructDeclaration { tag, members, .. } => {
            put(out, b"struct")?;
            put_tag(tag, out)?;
            put_members(members, out)
        }
        Specifier::EnumReference { tag, .. } => {
            put(out, b"enum")?;
            put_word(out, tag)
        }
        Specifier::EnumDeclaration {
            tag,
            enumerators,
            ..
        } => {
            put(out, b"enum")?;
            put_tag(tag, out)?;
            put_enumerators(enumerators, out)
        }
    }
}

fn put_tag(tag: &Option<Word>, out: &mut Vec<u8>) -> Result<(), AllocError> {
    match tag {
        Some(tag) => put_word(out, tag),
        None => Ok(()),
    }
}

#[cycle(printing)]
fn put_members(members: &[MemberDeclaration], out: &mut Vec<u8>) -> Result<(), AllocError> {
    put(out, b"{")?;
    for member in members {
        put_member(member, out)?;
    }
    put(out, b"}")
}

#[cycle(printing)]
fn put_member(member: &MemberDeclaration, out: &mut Vec<u8>) -> Result<(), AllocError> {
    put_specifiers(&member.specifiers, out)?;
    let mut first = true;
    for declarator in &member.declarators {
        if !first {
            put(out, b",")?;
        }
        first = false;
        put_declarator(declarator, out)?;
    }
    put(out, b";")
}

#[cycle(printing)]
fn put_enumerators(enumerators: &[Enumerator], out: &mut Vec<u8>) -> Result<(), AllocError> {
    put(out, b"{")?;
    for enumerator in enumerators {
        put_word(out, &enumerator.name)?;
        if let Some(value) = &enumerator.value {
            put(out, b"=")?;
            put_expression(value, out)?;
        }
        put(out, b",")?;
    }
    put(out, b"}")
}

pub(crate) fn put_pointers(pointers: &[Pointer], out: &mut Vec<u8>) -> Result<(), AllocError> {
    for pointer in pointers {
        put(out, b"*")?;
        for qualifier in &pointer.qualifiers {
            put(out, qualifier_token(*qualifier))?;
        }
    }
    Ok(())
}

#[cycle(printing)]
fn put_declarator(declarator: &Declarator, out: &mut Vec<u8>) -> Result<(), AllocError> {
    put_pointers(&declarator.pointers, out)?;
    put_word(out, &declarator.name)?;
    for bound in &declarator.bounds {
        put_bound(bound, out)?;
    }
    Ok(())
}

#[cycle(printing)]
pub(crate) fn put_bound(bound: &Bound, out: &mut Vec<u8>) -> Result<(), AllocError> {
    put(out, b"[")?;
    if let Some(size) = &bound.size {
        put_expression(size, out)?;
    }
    put(out, b"]")
}

#[cycle(initializers)]
fn put_initializer(initializer: &Initializer, out: &mut Vec<u8>) -> Result<(), AllocError> {
    match initializer {
        Initializer::Expression(expression) => put_expression(expression, out),
        Initializer::List { items, .. } => {
            put(out, b"{")?;
            for item in items {
                put_initializer(item, out)?;
                put(out, b",")?;
            }
            put(out, b"}")
        }
    }
}

fn put_init_declarator(declarator: &InitDeclarator, out: &mut Vec<u8>) -> Result<(), AllocError> {
    put_declarator(&declarator.declarator, out)?;
    if let Some(initialization) = &declarator.initialization {
        put(out, b"=")?;
        put_initializer(&initialization.value, out)?;
    }
    Ok(())
}

/// Writes a declaration with its semicolon.
pub(crate) fn put_declaration(
    declaration: &Declaration,
    out: &mut Vec<u8>,
) -> Result<(), AllocError> {
    put_specifiers(&declaration.specifiers, out)?;
    let mut first = true;
    for declarator in &declaration.declarators {
        if !first {
            put(out, b",")?;
        }
        first = false;
        put_init_declarator(declarator, out)?;
    }
    put(out, b";")
}
