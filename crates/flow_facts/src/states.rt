//! The states in which objects may be at points.
ghost use Rattle.std.specs.Prelude.{◌≡◌, ◌+◌, ◌*◌, false, slice_index_or};
ghost use Rattle.flow_facts.specs.States.{may_be_at, may_hold_at, is_surely_held_at, thread_may_be_at, plain_at, life_may_be_at, number_of_thread_state, number_of_life_state};

/// The states of one object, which is named by the number of its location: the mark of a state at a point stands at the
/// point's number times the number of states, plus the state.
#[derive(Drop)]
pub struct StateRow {
    pub object: u16,
    pub marks: Vec<bool>,
}

/// The states of some objects at all points, with states from 0 to one less than `states`.
#[derive(Drop)]
pub struct StateTable {
    pub states: u32,
    pub rows: Vec<StateRow>,
}

impl StateTable {
    /// Whether the object may be in the state at the point. An object without a row is in none.
    pub fn may(&self, point: u32, object: u16, state: u32) -> bool
        ensures { result ≡ may_be_at self.now point object state }
    {
        let states = self.states;
        self.rows.iter().any(|row| row.object == object && row.may(states, point, state))
    }
}

impl StateRow {
    fn may(&self, states: u32, point: u32, state: u32) -> bool
        ensures { result ≡ slice_index_or self.now.marks.items (point * states + state) false }
    {
        let place = point as usize * states as usize + state as usize;
        if place < self.marks.len() {
            self.marks[place]
        } else {
            false
        }
    }
}

/// The depths to which mutexes may be held: 0 to 8, where 8 stands for eight or more.
#[derive(Drop)]
pub struct Held {
    pub table: StateTable,
}

impl Held {
    /// Whether the point's thread may hold the mutex to the depth before the point's action.
    pub fn may(&self, point: u32, mutex: u16, depth: u8) -> bool
        ensures { result ≡ may_hold_at self.now point mutex depth }
    {
        self.table.may(point, mutex, depth as u32)
    }

    /// Whether depth 0 is not possible.
    pub fn sure(&self, point: u32, mutex: u16) -> bool
        ensures { result ≡ is_surely_held_at self.now point mutex }
    {
        !self.may(point, mutex, 0)
    }
}

/// The state of a thread object (C11 7.26.5).
#[derive(Clone, Copy, Debug, PartialEq, Eq)]
pub enum ThreadState {
    Unmade,
    Live,
    Joined,
    Detached,
}

impl ThreadState {
    /// The number under which a table keeps it.
    pub fn number(&self) -> u32
        ensures { result ≡ number_of_thread_state self.now }
    {
        match *self {
            ThreadState::Unmade => 0,
            ThreadState::Live => 1,
            ThreadState::Joined => 2,
            ThreadState::Detached => 3,
        }
    }
}

/// The states of thread objects, and which threads are plain.
#[derive(Drop)]
pub struct ThreadStates {
    pub table: StateTable,
    /// For each thread the thread object of a plain one.
    pub plain: Vec<Option<u16>>,
}

impl ThreadStates {
    /// Whether the thread object may be in the state before the point's action.
    pub fn may(&self, point: u32, object: u16, state: ThreadState) -> bool
        ensures { result ≡ thread_may_be_at self.now point object state }
    {
        self.table.may(point, object, state.number())
    }

    /// The thread object of a plain thread, and none of another one.
    pub fn plain(&self, thread: u16) -> Option<u16>
        ensures { result ≡ plain_at self.now thread }
    {
        if (thread as usize) < self.plain.len() {
            self.plain[thread as usize]
        } else {
            None
        }
    }
}

/// The life of a mutex, a condition variable or a key (C11 7.26.3, 7.26.4, 7.26.6).
#[derive(Clone, Copy, Debug, PartialEq, Eq)]
pub enum LifeState {
    Unmade,
    Live,
    Dead,
}

impl LifeState {
    /// The number under which a table keeps it.
    pub fn number(&self) -> u32
        ensures { result ≡ number_of_life_state self.now }
    {
        match *self {
            LifeState::Unmade => 0,
            LifeState::Live => 1,
            LifeState::Dead => 2,
        }
    }
}

/// The lives of mutexes, condition variables and keys.
#[derive(Drop)]
pub struct Lives {
    pub table: StateTable,
}

impl Lives {
    /// Whether the object may be in the state before the point's action.
    pub fn may(&self, point: u32, object: u16, state: LifeState) -> bool
        ensures { result ≡ life_may_be_at self.now point object state }
    {
        self.table.may(point, object, state.number())
    }
}
