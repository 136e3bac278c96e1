use misra_base::Finding;
use std::alloc::AllocError;
use std::marker::Model;

/// A finding of the last accepted revision, with the least id of a deviation that covers it.
#[derive(Clone, Debug, Drop)]
pub struct Found {
    pub finding: Finding,
    pub deviation: Option<u32>,
}

/// A list of findings with what covers them, which contracts see as a list.
#[derive(Debug, Drop)]
pub struct FoundList {
    content: Vec<Found>,
}

impl Model for FoundList {
    ghost use Rattle.std.specs.Prelude.{List};
    ghost use Rattle.desk_tables.specs.declared.found.Found.{Found};

    ghost Value = { List Found };

    ghost view = { λ l. l.content.items };
}

impl FoundList {
    ghost use Rattle.std.specs.Prelude.{◌≡◌};

    /// The list of these rows, in their order.
    pub fn from_vec(items: Vec<Found>) -> FoundList
        ensures { result ≡ items.items }
    {
        FoundList { content: items }
    }

    /// The rows, in their order.
    pub fn items(&self) -> &[Found]
        ensures { result.now ≡ self.now }
    {
        self.content.as_slice()
    }
}

impl Clone for FoundList {
    ghost use Rattle.std.specs.Prelude.{◌≡◌};

    ghost is_clone = { λ x y. y ≡ x };

    fn clone(&self) -> Result<FoundList, AllocError> {
        Ok(FoundList {
            content: self.content.clone()?,
        })
    }
}
