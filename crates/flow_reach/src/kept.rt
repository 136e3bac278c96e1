//! What a search keeps.
ghost use Rattle.std.specs.Prelude.{◌≡◌, ◌*◌, vec_len};

#[derive(Clone, Copy)]
pub struct Mark {
    pub(crate) point: u32,
    pub(crate) state: u32,
}

#[derive(Drop)]
pub struct Reach {
    pub(crate) points: u32,
    pub(crate) size: u32,
    pub(crate) marks: Vec<bool>,
    pub(crate) work: Vec<Mark>,
    ghost covers: { vec_len marks ≡ points * size },
}
