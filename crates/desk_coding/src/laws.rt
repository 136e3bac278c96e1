//! The two directions of the coding.
ghost use Rattle.desk_coding.specs.Laws.{WhatIsPutIsTaken, WhatIsTakenWasPut};

/// A row or change is what is taken from its coding.
pub fn what_is_put_is_taken()
    ensures { WhatIsPutIsTaken }
{}

/// Bytes from which a row or change is taken are its coding, so each has one.
pub fn what_is_taken_was_put()
    ensures { WhatIsTakenWasPut }
{}
