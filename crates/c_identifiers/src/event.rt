use c_names::{Kind, Linkage, NameSpace, StorageDuration};
use c_tree::Word;

/// What the words of a type make of it, so far as a call of a function without a body asks.
#[derive(Debug, Drop)]
pub enum Base {
    Arithmetic,
    Void,
    /// A structure, or an object of the library.
    Other,
    /// The type that a typedef name stands for.
    Typedef(Word),
}

/// A type, so far as a call of a function without a body asks. An array that is a parameter is a pointer.
#[derive(Debug, Drop)]
pub struct TypeForm {
    pub base: Base,
    pub is_pointer: bool,
}

/// What a declaration says of a type, where it matters to scopes.
#[derive(Debug, Drop)]
pub enum Form {
    Other,
    /// The type that a `typedef` names.
    Type(TypeForm),
    Function {
        result: TypeForm,
        /// Whether there is one parameter, which has no name.
        is_lone: bool,
    },
}

/// How an identifier is declared.
#[derive(Clone, Copy, Debug, PartialEq, Eq)]
pub struct Role {
    pub space: NameSpace,
    pub kind: Kind,
    /// Whether the declaration is a definition (C11 6.7p5).
    pub defines: bool,
    /// Of an object or a parameter.
    pub storage: Option<StorageDuration>,
    /// Of an object or a function that has one: internal by `static`, else external.
    pub linkage: Option<Linkage>,
}

/// How an identifier is used.
#[derive(Clone, Copy, Debug, PartialEq, Eq)]
pub enum Usage {
    /// In the operand of `sizeof`.
    Unevaluated,
    Evaluated,
    /// As what is called, or as the function of a thread that is created.
    Called,
}

/// What scopes see of a text, in the order in which scopes begin (C11 6.2.1).
#[derive(Debug, Drop)]
pub enum Event {
    /// A scope begins.
    Open,
    /// The innermost scope ends.
    Close,
    /// A word appears: one whose declaration follows behind its declarator or its value, or that of a member behind `.`
    /// or `->`, which types alone can find.
    Mention(Word),
    /// A parameter of the function whose declaration follows.
    Parameter(TypeForm),
    /// A function is declared in the scope round the one of its parameters, which is open here; any other identifier in
    /// the innermost scope.
    Declare {
        role: Role,
        form: Form,
        word: Word,
    },
    Use {
        space: NameSpace,
        usage: Usage,
        word: Word,
    },
}
