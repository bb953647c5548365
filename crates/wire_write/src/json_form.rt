//! Values that have a form in JSON.
ghost use Rattle.std.specs.Prelude.{◌≡◌, IfOk};
ghost use Rattle.serde_json.specs.Data.{Data};
ghost use Rattle.serde_json.specs.View.{view};

use serde_json::Value;
use std::alloc::Global;
use tail_base::NoMemory;

/// A value that has a form in JSON.
pub trait JsonForm {
    ghost json: { Self → Data };

    /// The form in JSON.
    fn to_json(&self, alloc: Global) -> Result<Value, NoMemory>
        ensures form { IfOk result (λ v. view v ≡ json self.now) };
}
