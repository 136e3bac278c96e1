ghost use Rattle.std.specs.Prelude.{◌≡◌, List, ℕ};
ghost use Rattle.std.specs.declared.option.Option.{Option};
ghost use Rattle.desk_outside.specs.Causes.{HasCause};
ghost use Rattle.desk_links.specs.Accepting.{Accepts};

use crate::link::Link;
use desk_outside::Failed;

/// Connections, one after another. As a link it is the current one.
pub trait Acceptor: Link {
    /// The bytes of each connection to come, where they are told.
    ghost coming: { Self → Option (List (List ℕ)) };

    /// What was written before any connection, and then on each before the current one, where it
    /// is told.
    ghost before: { Self → Option (List (List ℕ)) };

    /// How many accepts failed.
    ghost refused: { Self → ℕ };

    /// Makes the next connection current, and answers false where none is left. After false or an
    /// `Err` all is as it was.
    fn accept(&mut self) -> Result<bool, Failed>
        ensures connections { Accepts
            (record { left = Self.Source.left self.old; written = Self.Sink.written self.old; before = before self.old; coming = coming self.old })
            (record { left = Self.Source.left self.new; written = Self.Sink.written self.new; before = before self.new; coming = coming self.new })
            result }
        ensures cause { HasCause (record {}) (refused self.old) (refused self.new) result }
        ensures faults { Self.Source.faults self.new ≡ Self.Source.faults self.old }
        ensures shortages { Self.Sink.shortages self.new ≡ Self.Sink.shortages self.old };

    ghost link_keeps_coming: { (a b : Self) → Self.Link.other a ≡ Self.Link.other b → coming a ≡ coming b };

    ghost link_keeps_before: { (a b : Self) → Self.Link.other a ≡ Self.Link.other b → before a ≡ before b };

    ghost link_keeps_refused: { (a b : Self) → Self.Link.other a ≡ Self.Link.other b → refused a ≡ refused b };
}
