//! What the arguments of library calls may name, and which regions actions access.
ghost use Rattle.std.specs.Prelude.{◌≡◌};
ghost use Rattle.flow_facts.specs.Targets.{names_in, is_exact_in, names_at, is_exact_at, regions_at};

/// How an action accesses a region, which is named by the number of its location.
#[derive(Clone, Copy, Debug, PartialEq, Eq)]
pub struct Access {
    pub region: u16,
    pub write: bool,
    pub atomic: bool,
}

/// What one argument of a library call may name.
#[derive(Drop)]
pub struct ArgumentTargets {
    /// The numbers of the static locations.
    pub locations: Vec<u16>,
    /// Whether it may name one static location and nothing else, automatic objects included.
    pub is_exact: bool,
}

/// What the action of one point names and accesses.
#[derive(Drop)]
pub struct PointTargets {
    /// For each argument of a library call.
    pub arguments: Vec<ArgumentTargets>,
    pub accesses: Vec<Access>,
}

/// Points-to sets: for each point.
#[derive(Drop)]
pub struct PointsTo {
    pub targets: Vec<PointTargets>,
}

impl PointsTo {
    /// The numbers of the static locations that the argument may name.
    pub fn names(&self, point: u32, argument: u8) -> &[u16]
        ensures { result.now ≡ names_at self.now point argument }
    {
        if (point as usize) < self.targets.len() {
            self.targets[point as usize].names(argument)
        } else {
            &[]
        }
    }

    /// Whether the argument may name one location and nothing else.
    pub fn exact(&self, point: u32, argument: u8) -> bool
        ensures { result ≡ is_exact_at self.now point argument }
    {
        if (point as usize) < self.targets.len() {
            self.targets[point as usize].exact(argument)
        } else {
            false
        }
    }

    /// The regions that the point's action may access.
    pub fn regions(&self, point: u32) -> &[Access]
        ensures { result.now ≡ regions_at self.now point }
    {
        if (point as usize) < self.targets.len() {
            self.targets[point as usize].accesses.as_slice()
        } else {
            &[]
        }
    }
}

impl PointTargets {
    fn names(&self, argument: u8) -> &[u16]
        ensures { result.now ≡ names_in self.now argument }
    {
        if (argument as usize) < self.arguments.len() {
            self.arguments[argument as usize].locations.as_slice()
        } else {
            &[]
        }
    }

    fn exact(&self, argument: u8) -> bool
        ensures { result ≡ is_exact_in self.now argument }
    {
        if (argument as usize) < self.arguments.len() {
            self.arguments[argument as usize].is_exact
        } else {
            false
        }
    }
}
