//! Trees made by hand. Each external declaration stands in a line of its own.

use c_names::Names;
use c_scope::{declare, declare_unit};
use c_tree::{
    Block, Declaration, Declarator, Expression, External, Function, InitDeclarator, Item, Keyword,
    Leave, Parameter, Pointer, Postfix, Simple, Specifier, Statement, Tree, TypeDefinition, Word,
};
use misra_base::{CheckStop, Name, Place, refusal_line};
use std::alloc::{AllocError, Global};

pub(crate) fn word(alloc: Global, line: u32, column: u32, text: &str) -> Result<Word, AllocError> {
    Ok(Word {
        place: Place { line, column },
        text: Name::from_bytes(alloc, text.as_bytes())?,
    })
}

fn keyword(
    alloc: Global,
    line: u32,
    column: u32,
    text: &str,
    keyword: Keyword,
) -> Result<Vec<Specifier>, AllocError> {
    let mut specifiers = Vec::new(alloc);
    let word = word(alloc, line, column, text)?;
    specifiers.push(Specifier::Keyword { word, keyword })?;
    Ok(specifiers)
}

/// `specifiers name;` with the name in the given column.
fn declaration(
    alloc: Global,
    line: u32,
    column: u32,
    name: &str,
    specifiers: Vec<Specifier>,
) -> Result<Declaration, AllocError> {
    let mut declarators = Vec::new(alloc);
    declarators.push(InitDeclarator {
        declarator: Declarator {
            pointers: Vec::new(alloc),
            name: word(alloc, line, column, name)?,
            bounds: Vec::new(alloc),
        },
        initialization: None,
    })?;
    Ok(Declaration {
        specifiers,
        declarators,
    })
}

/// `int name;`
pub(crate) fn object(alloc: Global, line: u32, name: &str) -> Result<External, AllocError> {
    let specifiers = keyword(alloc, line, 1, "int", Keyword::Int)?;
    Ok(External::Declaration(declaration(alloc, line, 5, name, specifiers)?))
}

/// `extern int name;`
pub(crate) fn extern_object(alloc: Global, line: u32, name: &str) -> Result<External, AllocError> {
    let mut specifiers = keyword(alloc, line, 1, "extern", Keyword::Extern)?;
    let int = word(alloc, line, 8, "int")?;
    specifiers.push(Specifier::Keyword {
        word: int,
        keyword: Keyword::Int,
    })?;
    Ok(External::Declaration(declaration(alloc, line, 12, name, specifiers)?))
}

/// `struct tag;` with the tag in column 8.
pub(crate) fn structure(alloc: Global, line: u32, tag: &str) -> Result<External, AllocError> {
    let mut specifiers = Vec::new(alloc);
    specifiers.push(Specifier::StructReference {
        place: Place { line, column: 1 },
        tag: word(alloc, line, 8, tag)?,
    })?;
    Ok(External::Declaration(Declaration {
        specifiers,
        declarators: Vec::new(alloc),
    }))
}

/// `typedef int name;`
pub(crate) fn typedef(alloc: Global, line: u32, name: &str) -> Result<External, AllocError> {
    Ok(External::TypeDefinition(TypeDefinition {
        place: Place { line, column: 1 },
        specifiers: keyword(alloc, line, 9, "int", Keyword::Int)?,
        pointers: Vec::new(alloc),
        name: word(alloc, line, 13, name)?,
    }))
}

/// `int name;` in a block, with the name in the given column.
pub(crate) fn local(alloc: Global, line: u32, column: u32, name: &str) -> Result<Item, AllocError> {
    let specifiers = keyword(alloc, line, 1, "int", Keyword::Int)?;
    Ok(Item::Declaration(declaration(alloc, line, column, name, specifiers)?))
}

/// `{ items }` in a block.
pub(crate) fn nested(line: u32, items: Vec<Item>) -> Item {
    Item::Statement(Statement::Block(block(line, items)))
}

/// `name();` with the name in the given column.
pub(crate) fn call(alloc: Global, line: u32, column: u32, name: &str) -> Result<Item, AllocError> {
    let callee = Expression::Identifier(word(alloc, line, column, name)?);
    let mut postfixes = Vec::new(alloc);
    postfixes.push(Postfix::Call {
        place: Place { line, column: 40 },
        arguments: Vec::new(alloc),
    })?;
    let value = Expression::Postfix {
        operand: Box::new(alloc, callee)?,
        postfixes,
    };
    let statement = Simple::Expression(Box::new(alloc, value)?);
    Ok(Item::Statement(Statement::Simple(statement)))
}

/// `return name;` with the name in the given column.
pub(crate) fn answer(
    alloc: Global,
    line: u32,
    column: u32,
    name: &str,
) -> Result<Item, AllocError> {
    let value = Expression::Identifier(word(alloc, line, column, name)?);
    Ok(Item::Leave(Leave::Return {
        place: Place { line, column: 1 },
        value: Some(Box::new(alloc, value)?),
    }))
}

fn block(line: u32, items: Vec<Item>) -> Block {
    Block {
        place: Place { line, column: 16 },
        items,
        close: Place { line, column: 99 },
    }
}

/// `void` alone as a parameter.
fn nothing(alloc: Global, line: u32) -> Result<Parameter, AllocError> {
    Ok(Parameter {
        specifiers: keyword(alloc, line, 10, "void", Keyword::Void)?,
        pointers: Vec::new(alloc),
        name: None,
        bound: None,
    })
}

/// `int name`, or `int *name`, as a parameter.
pub(crate) fn parameter(
    alloc: Global,
    line: u32,
    name: &str,
    is_pointer: bool,
) -> Result<Parameter, AllocError> {
    let mut pointers = Vec::new(alloc);
    if is_pointer {
        pointers.push(Pointer {
            place: Place { line, column: 14 },
            qualifiers: Vec::new(alloc),
        })?;
    }
    Ok(Parameter {
        specifiers: keyword(alloc, line, 10, "int", Keyword::Int)?,
        pointers,
        name: Some(word(alloc, line, 15, name)?),
        bound: None,
    })
}

/// `int name(parameter)` with its body, or without one.
pub(crate) fn function_of(
    alloc: Global,
    line: u32,
    name: &str,
    parameter: Parameter,
    body: Option<Vec<Item>>,
) -> Result<External, AllocError> {
    let mut parameters = Vec::new(alloc);
    parameters.push(parameter)?;
    let body = match body {
        Some(items) => Some(block(line, items)),
        None => None,
    };
    Ok(External::Function(Function {
        specifiers: keyword(alloc, line, 1, "int", Keyword::Int)?,
        pointers: Vec::new(alloc),
        name: word(alloc, line, 5, name)?,
        parameters,
        body,
    }))
}

/// `int name(void)` with its body, or without one.
pub(crate) fn function(
    alloc: Global,
    line: u32,
    name: &str,
    body: Option<Vec<Item>>,
) -> Result<External, AllocError> {
    let parameter = nothing(alloc, line)?;
    function_of(alloc, line, name, parameter, body)
}

/// `int main(void) { }`
pub(crate) fn main_function(alloc: Global, line: u32) -> Result<External, AllocError> {
    function(alloc, line, "main", Some(Vec::new(alloc)))
}

pub(crate) fn tree(externals: Vec<External>) -> Tree {
    Tree {
        externals,
        end: Place {
            line: 9999,
            column: 1,
        },
    }
}

fn line_of(alloc: Global, answer: Result<Names, CheckStop>) -> Result<Vec<u8>, AllocError> {
    match answer {
        Ok(_names) => Vec::from_slice(alloc, b"accepted\n"),
        Err(CheckStop::Refused(refusal)) => refusal_line(alloc, &refusal),
        Err(CheckStop::Memory) => Vec::from_slice(alloc, b"memory\n"),
    }
}

/// The line of the refusal of a program, or `accepted`.
pub(crate) fn program_line(alloc: Global, tree: &Tree) -> Result<Vec<u8>, AllocError> {
    line_of(alloc, declare(alloc, tree))
}

/// The line of the refusal of a unit, or `accepted`.
pub(crate) fn unit_line(alloc: Global, tree: &Tree) -> Result<Vec<u8>, AllocError> {
    line_of(alloc, declare_unit(alloc, tree))
}
