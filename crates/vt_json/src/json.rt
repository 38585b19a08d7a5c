// From bytes to a JSON value.
ghost use Rattle.std.specs.Prelude.{◌≡◌, Some, None, IfOk, IsErrOf};
ghost use Rattle.serde_json.specs.View.{view};
ghost use Rattle.vt_json.specs.Json.{json_of};
ghost use Rattle.vt_json.specs.declared.json.JsonFault.TheVariants.{NoMemory};

use serde_json::Value;
use std::alloc::{AllocError, AllocFailed, Global};
use thiserror::Error;

/// Why bytes give no JSON value.
#[derive(Clone, Copy, Debug, PartialEq, Eq, Error)]
pub enum JsonFault {
    /// The bytes are no JSON text, as `[1,]` or bytes that aren't UTF-8.
    #[error("the bytes are no JSON text, as `[1,]` is none, or bytes that aren't UTF-8")]
    NotJson,
    /// Memory ran out. It may stand for any other answer.
    #[error("memory ran out before the JSON value was made")]
    NoMemory,
}

impl From<AllocError> for JsonFault {
    ghost from_gives = { λ _ e. e ≡ NoMemory };

    fn from(_: AllocError) -> JsonFault {
        JsonFault::NoMemory
    }
}

impl<T: Drop> From<AllocFailed<T>> for JsonFault {
    ghost from_gives = { λ _ e. e ≡ NoMemory };

    fn from(_: AllocFailed<T>) -> JsonFault {
        JsonFault::NoMemory
    }
}

/// The JSON value of some bytes.
#[tactic(auto, using(crate::proofs::JsonLemmas::json_of_text, crate::proofs::JsonLemmas::json_of_no_text))]
pub fn parse(alloc: Global, bytes: &[u8]) -> Result<Value, JsonFault>
    ensures accepted { IfOk result (λ value. json_of bytes.now ≡ Some (view value)) }
    ensures not_json { IsErrOf result JsonFault.NotJson → json_of bytes.now ≡ None }
{
    let Ok(text) = str::from_utf8(bytes) else {
        return Err(JsonFault::NotJson);
    };
    match Value::from_str(alloc, text) {
        Ok(value) => Ok(value),
        Err(e) => {
            if e.is_memory() {
                Err(JsonFault::NoMemory)
            } else {
                Err(JsonFault::NotJson)
            }
        }
    }
}
