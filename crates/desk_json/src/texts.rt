ghost use Rattle.std.specs.Prelude.{◌≡◌, IfOk};
ghost use Rattle.std.specs.Str.Lossy.{utf8_lossy};
ghost use Rattle.std.specs.String.{string_bytes};

use misra_base::Name;
use std::alloc::{AllocError, Global};

/// The name as text. JSON is UTF-8 (RFC 8259, 8.1), so bytes that are none are replaced.
pub fn text_of(alloc: Global, name: &Name) -> Result<String, AllocError>
    ensures { IfOk result (λ text. string_bytes text ≡ utf8_lossy name.now) }
{
    String::from_utf8_lossy(alloc, name.bytes())
}
