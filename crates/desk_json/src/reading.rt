ghost use Rattle.std.specs.Prelude.{◌≡◌, IfOk};
ghost use Rattle.std.specs.Option.{option_map};
ghost use Rattle.serde_json.specs.View.{view};
ghost use Rattle.desk_json.specs.Bodies.{json_of};

use serde_json::Value;
use std::alloc::{AllocError, Global};

/// The value that the body is, None where it is no JSON.
#[tactic(auto, using(crate::proofs::Parsed::no_value, crate::proofs::Parsed::value))]
pub fn parse(alloc: Global, body: &[u8]) -> Result<Option<Value>, AllocError>
    ensures { IfOk result (λ value. option_map view value ≡ json_of body.now) }
{
    match Value::from_slice(alloc, body) {
        Ok(value) => Ok(Some(value)),
        Err(error) => {
            if error.is_memory() {
                return Err(AllocError);
            }
            Ok(None)
        }
    }
}
