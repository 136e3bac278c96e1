use desk_tables::KeepStop;

/// The calls of a keeper in memory, numbered from 1, some of which are to fail.
#[derive(Debug, Drop)]
pub struct Calls {
    made: u64,
    failing: Vec<u64>,
    faults: u64,
}

impl Calls {
    ghost use Rattle.std.specs.Prelude.{◌≡◌, IfErr};
    ghost use Rattle.desk_tables.specs.Causes.{HasCause};
    ghost use Rattle.desk_tables.specs.declared.keeper.KeepStop.TheVariants as keep_stops;
    ghost use Rattle.desk_memory.specs.Calls.{IsNumbered};

    /// No call yet. `failing` has the numbers of the calls that fail.
    pub fn new(failing: Vec<u64>) -> Calls
        ensures made { result.made ≡ 0 }
        ensures failing { result.failing.items ≡ failing.items }
        ensures faults { result.faults ≡ 0 }
    {
        Calls {
            made: 0,
            failing,
            faults: 0,
        }
    }

    /// Numbers the next call, which fails where its number is listed.
    pub fn begin(&mut self) -> Result<(), KeepStop>
        ensures cause { HasCause keep_stops.Failed self.old.faults self.new.faults result }
        ensures numbered { IsNumbered self.old self.new result }
        ensures failed { IfErr result (λ stop. stop ≡ keep_stops.Failed) }
    {
        self.made = self.made.saturating_add(1);
        if self.failing.contains(&self.made) {
            self.faults = self.faults.saturating_add(1);
            return Err(KeepStop::Failed);
        }
        Ok(())
    }
}
