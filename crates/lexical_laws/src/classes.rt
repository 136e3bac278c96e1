ghost use Rattle.lexical_laws.specs.Classes.{ClassesAreOfWords};

/// In a text without `typedef` the class of a token is told by its bytes alone: no other token changes it.
pub fn classes_are_of_words()
    ensures { ClassesAreOfWords }
{}
