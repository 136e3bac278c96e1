ghost use Rattle.std.specs.Prelude.{◌≡◌, map, IfOk};
ghost use Rattle.c_tree.specs.Views.{specifier_view, specifiers_view};
ghost use Rattle.c_tree.specs.StatementViews.{parameter_view, type_definition_view, function_view};
ghost use Rattle.c_identifiers.specs.Types.{is_library_object, base_behind, base_of, type_form, parameter_form, is_lone, typedef_form, function_form};

use crate::event::{Base, Form, TypeForm};
use c_tree::{Function, Keyword, Parameter, Specifier, TypeDefinition, Word};
use misra_base::Name;
use std::alloc::{AllocError, Global};

/// A copy of a word.
pub(crate) fn copy_of(alloc: Global, word: &Word) -> Result<Word, AllocError>
    ensures { IfOk result (λ copy. copy ≡ word.now) }
{
    Ok(Word {
        place: word.place,
        text: Name::from_bytes(alloc, word.text.bytes())?,
    })
}

fn is_library_object(word: &Word) -> bool
    ensures { result ≡ is_library_object word.now }
{
    let text = word.text.bytes();
    text == b"mtx_t".as_slice()
        || text == b"cnd_t".as_slice()
        || text == b"thrd_t".as_slice()
        || text == b"tss_t".as_slice()
}

/// What one word more makes of a type: a structure or an object of the library counts before all else, then the type
/// that a typedef name stands for, then `void`.
fn base_behind(alloc: Global, base: Base, specifier: &Specifier) -> Result<Base, AllocError>
    ensures { IfOk result (λ b. b ≡ base_behind base (specifier_view specifier.now)) }
{
    match (base, specifier) {
        (Base::Other, _)
        | (_, Specifier::StructReference { .. } | Specifier::StructDeclaration { .. }) => {
            Ok(Base::Other)
        }
        (base, Specifier::LibraryType(word)) => Ok(if is_library_object(word) {
            Base::Other
        } else {
            base
        }),
        (_, Specifier::TypedefName(word)) => Ok(Base::Typedef(copy_of(alloc, word)?)),
        (
            Base::Arithmetic,
            Specifier::Keyword {
                keyword: Keyword::Void,
                ..
            },
        ) => Ok(Base::Void),
        (base, _) => Ok(base),
    }
}

fn base_of(alloc: Global, specifiers: &[Specifier]) -> Result<Base, AllocError>
    ensures { IfOk result (λ b. b ≡ base_of (specifiers_view specifiers.now)) }
{
    let mut base = Base::Arithmetic;
    for specifier in specifiers {
        base = base_behind(alloc, base, specifier)?;
    }
    Ok(base)
}

fn type_form(
    alloc: Global,
    specifiers: &[Specifier],
    is_pointer: bool,
) -> Result<TypeForm, AllocError>
    ensures { IfOk result (λ form. form ≡ type_form (specifiers_view specifiers.now) is_pointer) }
{
    Ok(TypeForm {
        base: base_of(alloc, specifiers)?,
        is_pointer,
    })
}

pub(crate) fn parameter_form(alloc: Global, parameter: &Parameter) -> Result<TypeForm, AllocError>
    ensures { IfOk result (λ form. form ≡ parameter_form (parameter_view parameter.now)) }
{
    let is_pointer = !parameter.pointers.is_empty() || parameter.bound.is_some();
    type_form(alloc, &parameter.specifiers, is_pointer)
}

/// Whether there is one parameter, which has no name.
fn is_lone(parameters: &[Parameter]) -> bool
    ensures { result ≡ is_lone (map parameter_view parameters.now) }
{
    match parameters {
        [parameter] => parameter.name.is_none(),
        _ => false,
    }
}

/// A typedef's type.
pub(crate) fn typedef_form(alloc: Global, definition: &TypeDefinition) -> Result<Form, AllocError>
    ensures { IfOk result (λ form. form ≡ typedef_form (type_definition_view definition.now)) }
{
    let is_pointer = !definition.pointers.is_empty();
    let form = type_form(alloc, &definition.specifiers, is_pointer)?;
    Ok(Form::Type(form))
}

pub(crate) fn function_form(alloc: Global, function: &Function) -> Result<Form, AllocError>
    ensures { IfOk result (λ form. form ≡ function_form (function_view function.now)) }
{
    let is_pointer = !function.pointers.is_empty();
    Ok(Form::Function {
        result: type_form(alloc, &function.specifiers, is_pointer)?,
        is_lone: is_lone(&function.parameters),
    })
}
