ghost use Rattle.std.specs.Prelude.{◌≡◌};
ghost use Rattle.c_tree.specs.Views.{specifiers_view};
ghost use Rattle.c_identifiers.specs.Roles.{plain, tag_role, member_role, enumerator_role, typedef_role, parameter_role, function_role, linkage_of, object_storage, file_object, block_object, object_role, has_keyword};

use crate::event::Role;
use c_names::{Kind, Linkage, NameSpace, StorageDuration};
use c_tree::{Keyword, Specifier};
use misra_base::Place;

/// Where a declaration of objects stands.
#[derive(Clone, Copy, Debug, PartialEq, Eq)]
pub(crate) enum Level {
    File,
    Block,
}

/// A definition of what is no object and no function.
fn plain(space: NameSpace, kind: Kind, defines: bool) -> Role
    ensures { result ≡ plain space kind defines }
{
    Role {
        space,
        kind,
        defines,
        storage: None,
        linkage: None,
    }
}

pub(crate) fn tag_role(kind: Kind, defines: bool) -> Role
    ensures { result ≡ tag_role kind defines }
{
    plain(NameSpace::Tags, kind, defines)
}

pub(crate) fn member_role(structure: Place) -> Role
    ensures { result ≡ member_role structure }
{
    plain(NameSpace::Members(structure), Kind::Member, true)
}

pub(crate) fn enumerator_role() -> Role
    ensures { result ≡ enumerator_role }
{
    plain(NameSpace::Ordinary, Kind::Enumerator, true)
}

pub(crate) fn typedef_role() -> Role
    ensures { result ≡ typedef_role }
{
    plain(NameSpace::Ordinary, Kind::Typedef, true)
}

pub(crate) fn parameter_role() -> Role
    ensures { result ≡ parameter_role }
{
    Role {
        storage: Some(StorageDuration::Automatic),
        ..plain(NameSpace::Ordinary, Kind::Parameter, true)
    }
}

/// A function is external but where it says `static` (C11 6.2.2p3, p5).
pub(crate) fn function_role(specifiers: &[Specifier], has_body: bool) -> Role
    ensures { result ≡ function_role (specifiers_view specifiers.now) has_body }
{
    Role {
        linkage: Some(linkage_of(has_keyword(specifiers, Keyword::Static))),
        ..plain(NameSpace::Ordinary, Kind::Function, has_body)
    }
}

fn linkage_of(is_static: bool) -> Linkage
    ensures { result ≡ linkage_of is_static }
{
    if is_static {
        Linkage::Internal
    } else {
        Linkage::External
    }
}

/// How an object lives that does not end with its block.
fn object_storage(is_thread: bool) -> StorageDuration
    ensures { result ≡ object_storage is_thread }
{
    if is_thread {
        StorageDuration::Thread
    } else {
        StorageDuration::Static
    }
}

/// An object at file scope is defined but where it says `extern` and gives no value (C11 6.9.2).
fn file_object(is_extern: bool, is_static: bool, is_thread: bool, is_initialized: bool) -> Role
    ensures { result ≡ file_object is_extern is_static is_thread is_initialized }
{
    Role {
        storage: Some(object_storage(is_thread)),
        linkage: Some(linkage_of(is_static && !is_extern)),
        ..plain(
            NameSpace::Ordinary,
            Kind::Object,
            !is_extern || is_initialized,
        )
    }
}

/// An object in a block has linkage where it says `extern` (C11 6.2.2p4, p6).
fn block_object(is_extern: bool, is_static: bool, is_thread: bool, is_initialized: bool) -> Role
    ensures { result ≡ block_object is_extern is_static is_thread is_initialized }
{
    if is_extern {
        Role {
            storage: Some(object_storage(is_thread)),
            linkage: Some(Linkage::External),
            ..plain(NameSpace::Ordinary, Kind::Object, is_initialized)
        }
    } else if is_static || is_thread {
        Role {
            storage: Some(object_storage(is_thread)),
            ..plain(NameSpace::Ordinary, Kind::Object, true)
        }
    } else {
        Role {
            storage: Some(StorageDuration::Automatic),
            ..plain(NameSpace::Ordinary, Kind::Object, true)
        }
    }
}

pub(crate) fn object_role(level: Level, specifiers: &[Specifier], is_initialized: bool) -> Role
    ensures { result ≡ object_role level (specifiers_view specifiers.now) is_initialized }
{
    let is_extern = has_keyword(specifiers, Keyword::Extern);
    let is_static = has_keyword(specifiers, Keyword::Static);
    let is_thread = has_keyword(specifiers, Keyword::ThreadLocal);
    match level {
        Level::File => file_object(is_extern, is_static, is_thread, is_initialized),
        Level::Block => block_object(is_extern, is_static, is_thread, is_initialized),
    }
}

fn has_keyword(specifiers: &[Specifier], keyword: Keyword) -> bool
    ensures { result ≡ has_keyword keyword (specifiers_view specifiers.now) }
{
    for specifier in specifiers {
        if let Specifier::Keyword { keyword: other, .. } = specifier
            && *other == keyword
        {
            return true;
        }
    }
    false
}
