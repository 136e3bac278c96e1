use misra_base::Place;

/// The name spaces of identifiers (C11 6.2.3). Each structure has one of its own for its members: it is known by the
/// place of its `struct`.
#[derive(Clone, Copy, Debug, PartialEq, Eq, Hash)]
pub enum NameSpace {
    Ordinary,
    Tags,
    Members(Place),
}

/// What an identifier is declared as (C11 6.2.1p1).
#[derive(Clone, Copy, Debug, PartialEq, Eq)]
pub enum Kind {
    /// A function or a constant of the library, which a text may use and never declares.
    Library,
    Object,
    Parameter,
    Function,
    Typedef,
    Enumerator,
    Structure,
    Enumeration,
    Member,
}

/// How long an object lives (C11 6.2.4).
#[derive(Clone, Copy, Debug, PartialEq, Eq)]
pub enum StorageDuration {
    Static,
    Thread,
    Automatic,
}

/// The linkage of an identifier that has one (C11 6.2.2).
#[derive(Clone, Copy, Debug, PartialEq, Eq)]
pub enum Linkage {
    External,
    Internal,
}

/// A declaration of an identifier (C11 6.7).
#[derive(Clone, Copy, Debug, PartialEq, Eq)]
pub struct Declaration {
    /// The number of its spelling.
    pub name: usize,
    pub space: NameSpace,
    pub kind: Kind,
    /// Of an object or a parameter.
    pub storage: Option<StorageDuration>,
    /// Of an object or a function that has one.
    pub linkage: Option<Linkage>,
    /// Whether it is a definition (C11 6.7p5). A structure's or an enumeration's is the one with its list.
    pub is_definition: bool,
    /// The number of its scope: 0 for what is declared before the text, 1 for the file, and then in the order in which
    /// scopes begin.
    pub scope: usize,
    /// The place of the name. What is declared before the text stands in line 0.
    pub place: Place,
    /// The number of the first declaration of the same thing: of an object or a function with linkage among all of its
    /// declarations, of a structure or an enumeration among those in its scope.
    pub entity: usize,
}
