use misra_base::{Name, Place};
use std::marker::Model;

/// One step of a replay.
#[derive(Debug, Drop)]
pub struct StepRow {
    pub thread: u32,
    /// The place of its action.
    pub place: Place,
    /// The function that the thread runs.
    pub function: Name,
    /// By the numbers of the guidelines: whether this step is the first to break it.
    pub broken: [bool; 19],
}

/// A list of steps, which contracts see as a list.
#[derive(Debug, Drop)]
pub struct StepList {
    content: Vec<StepRow>,
}

impl Model for StepList {
    ghost use Rattle.std.specs.Prelude.{List};
    ghost use Rattle.run_replay.specs.declared.rows.StepRow.{StepRow};

    ghost Value = { List StepRow };

    ghost view = { λ l. l.content.items };
}

impl StepList {
    ghost use Rattle.std.specs.Prelude.{◌≡◌};

    /// The list of these steps, in their order.
    pub fn from_vec(items: Vec<StepRow>) -> StepList
        ensures { result ≡ items.items }
    {
        StepList { content: items }
    }

    /// The steps, in their order.
    pub fn items(&self) -> &[StepRow]
        ensures { result.now ≡ self.now }
    {
        self.content.as_slice()
    }
}
