use desk_tables::{Reply, Write};

/// What an accepted command writes, and what it is answered.
#[derive(Debug, Drop)]
pub struct Decision {
    pub effect: Option<Write>,
    pub reply: Reply,
}
