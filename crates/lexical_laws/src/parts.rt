ghost use Rattle.lexical_laws.specs.Parts.{TextIsItsParts};

/// The tokens of a text without a fault, with the blanks, comments and `#` lines between them, laid end
/// to end are the text.
pub fn text_is_its_parts()
    ensures { TextIsItsParts }
{}
