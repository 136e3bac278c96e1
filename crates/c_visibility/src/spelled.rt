use c_identifiers::{Role, Usage};
use c_names::NameSpace;
use misra_base::Place;

/// A word by the number of its spelling.
#[derive(Clone, Copy, Debug, PartialEq, Eq)]
pub struct Spot {
    pub place: Place,
    pub name: usize,
}

/// A type, so far as a call of a function without a body asks.
#[derive(Clone, Copy, Debug, PartialEq, Eq)]
pub enum Class {
    Arithmetic,
    Void,
    /// A pointer, a structure, or an object of the library.
    Other,
}

/// What is known of a declaration besides its role.
#[derive(Clone, Copy, Debug, PartialEq, Eq)]
pub struct Facts {
    /// Whether the word is a name of the library, or of a typedef before it, and so declares nothing.
    pub is_reserved: bool,
    /// Of a typedef, the type that it names.
    pub class: Class,
    /// Of a function, whether it has a parameter that is not arithmetic, or a result that is neither arithmetic nor void.
    pub needs_body: bool,
    /// Whether the word is `main`.
    pub is_main: bool,
}

/// What scopes see, with words by their numbers.
#[derive(Clone, Copy, Debug, PartialEq, Eq)]
pub enum Spelled {
    Open,
    Close,
    Mention,
    Parameter(Class),
    Declare {
        role: Role,
        facts: Facts,
        word: Spot,
    },
    Use {
        space: NameSpace,
        usage: Usage,
        word: Spot,
    },
}
