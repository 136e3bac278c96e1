ghost use Rattle.std.specs.Prelude.{◌≡◌};

use desk_outside::{Sink, Source};

/// Both ends of a connection. Reads and writes that failed have one count.
pub trait Link: Source + Sink {
    /// What no read and no write changes.
    ghost Else: { Type 0 };

    ghost other: { Self → Else };

    /// The two ends count their faults together.
    ghost one_count: { (a : Self) → Self.Source.faults a ≡ Self.Sink.faults a };

    /// A read changes nothing of what was written.
    ghost read_keeps_written: { (a b : Self) → Self.Source.rest a ≡ Self.Source.rest b → Self.Sink.written a ≡ Self.Sink.written b };

    /// A write changes nothing of what is left to be read.
    ghost write_keeps_left: { (a b : Self) → Self.Sink.rest a ≡ Self.Sink.rest b → Self.Source.left a ≡ Self.Source.left b };

    /// A read takes no memory.
    ghost read_keeps_shortages: { (a b : Self) → Self.Source.rest a ≡ Self.Source.rest b → Self.Sink.shortages a ≡ Self.Sink.shortages b };

    ghost read_keeps_other: { (a b : Self) → Self.Source.rest a ≡ Self.Source.rest b → other a ≡ other b };

    ghost write_keeps_other: { (a b : Self) → Self.Sink.rest a ≡ Self.Sink.rest b → other a ≡ other b };
}
