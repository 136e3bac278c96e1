ghost use Rattle.lexical_laws.specs.Comments.{BlockCommentIsPassed, LineCommentIsPassed, OpenCommentIsFaulty};

/// A comment is `/*`, a body without `*/`, and `*/`; or `//` up to the line's end. A `/*` with no `*/`
/// behind it is refused (C11 6.4.9).
pub fn comments_are_passed()
    ensures block { BlockCommentIsPassed }
    ensures line { LineCommentIsPassed }
    ensures open { OpenCommentIsFaulty }
{}
