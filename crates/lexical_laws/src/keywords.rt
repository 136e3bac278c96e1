ghost use Rattle.lexical_laws.specs.Keywords.{KeywordIsNoIdentifier, KeywordIsNoName};

/// A word that is a keyword is never a name: neither of an object nor of a type (C11 6.4.1).
pub fn keywords_are_no_names()
    ensures identifier { KeywordIsNoIdentifier }
    ensures token { KeywordIsNoName }
{}
