ghost use Rattle.lexical_laws.specs.Lexemes.{LongestTokenIsCut};

/// What is cut from a text is a token, and no longer front of the text is one (C11 6.4, paragraph 4).
pub fn longest_token_is_cut()
    ensures { LongestTokenIsCut }
{}
