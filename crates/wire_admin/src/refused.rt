//! Why a policy is refused.
ghost use Rattle.std.specs.Prelude.{◌≡◌, IfOk};
ghost use Rattle.serde_json.specs.View.{view};
ghost use Rattle.wire_admin.specs.Refused.{code_text, refused_data, refused_text as text_of_refused};

use crate::written::written;
use policy_rows::PolicyCode;
use serde_json::{Value, json};
use std::alloc::{AllocError, Global};
use tail_base::{NoMemory, Text};

/// The code as it is shown: `P` and its number.
fn code_text(alloc: Global, code: PolicyCode) -> Result<Text, NoMemory>
    ensures value { IfOk result (λ text. text ≡ code_text code) }
{
    let number = code.number();
    let text = format!(in alloc; "P{number}")?;
    Ok(Text::from_string(text))
}

#[tactic(auto, unfolding(crate::specs::Refused::refused_data))]
fn refused_value(
    alloc: Global,
    code: PolicyCode,
    shown: &Text,
    place: &Text,
) -> Result<Value, AllocError>
    requires shown { shown.now ≡ code_text code }
    ensures value { IfOk result (λ v. view v ≡ refused_data code place.now) }
{
    json!(in alloc; {"code": shown.as_str(), "place": place.as_str()})
}

/// Why a policy is refused: the `code` of its first fault, and the `place`.
#[tactic(auto, unfolding(crate::specs::Refused::refused_data))]
pub fn refused_text(alloc: Global, code: PolicyCode, place: &Text) -> Result<Text, NoMemory>
    ensures value { IfOk result (λ text. text ≡ text_of_refused code place.now) }
{
    let shown = code_text(alloc, code)?;
    let value = refused_value(alloc, code, &shown, place)?;
    written(alloc, &value)
}
