ghost use Rattle.tree_laws.specs.Laws.{TreeIsOne};

/// A text has one tree at most: what its tokens say and how C groups them leave no choice.
pub fn tree_is_one()
    ensures { TreeIsOne }
{}
