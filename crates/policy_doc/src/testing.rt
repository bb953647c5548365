//! The entries of `tests`.
ghost use Rattle.std.specs.Prelude.{◌≡◌};
ghost use Rattle.std.specs.Option.{option_copied, option_map};
ghost use Rattle.serde_json.specs.View.{view};
ghost use Rattle.tail_base.specs.Steps.{Gives};
ghost use Rattle.policy_doc.specs.Rules.{subject_at, test_at, test_dest_text};

use crate::keys::{check_keys, section};
use crate::limits::LIST_LIMIT;
use crate::proto::read_proto;
use crate::walk::{ReadElement, list_or_empty};
use policy_rows::{
    Dest, Names, PolicyCode, PolicyFault, Selector, Test, number_of, read_test_dest, read_test_end,
    refused, under,
};
use serde_json::Value;
use std::alloc::Global;
use tail_base::Failure;

/// A destination of a test.
struct TestDestText;

impl ReadElement for TestDestText {
    type Item = Dest;

    ghost reads = { test_dest_text };

    #[tactic(auto, unfolding(crate::specs::Rules::test_dest_text))]
    fn read(
        alloc: Global,
        names: &Names,
        place: &str,
        value: &Value,
    ) -> Result<Dest, Failure<PolicyFault>> {
        let Some(text) = value.as_str() else {
            return refused(alloc, PolicyCode::WrongShape, place);
        };
        read_test_dest(alloc, names, place, text.as_bytes())
    }
}

/// The subject of a test, which has to be there.
fn read_subject(
    alloc: Global,
    names: &Names,
    place: &str,
    value: Option<&Value>,
) -> Result<Selector, Failure<PolicyFault>>
    ensures value { Gives (λ x. x) result (subject_at names.now place.now
        (option_map view (option_copied value.entry))) }
{
    let Some(value) = value else {
        return refused(alloc, PolicyCode::BadTest, place);
    };
    let Some(text) = value.as_str() else {
        return refused(alloc, PolicyCode::WrongShape, place);
    };
    read_test_end(alloc, names, place, text.as_bytes())
}

/// An entry of `tests`.
pub(crate) struct TestObject;

impl ReadElement for TestObject {
    type Item = Test;

    ghost reads = { test_at };

    #[tactic(auto, unfolding(crate::specs::Rules::test_at))]
    fn read(
        alloc: Global,
        names: &Names,
        place: &str,
        value: &Value,
    ) -> Result<Test, Failure<PolicyFault>> {
        let Some(members) = value.as_object() else {
            return refused(alloc, PolicyCode::WrongShape, place);
        };
        let known = ["src", "proto", "accept", "deny"];
        check_keys(alloc, place, &known, &["srcPostureAttrs"], members)?;
        let within = under(alloc, place, "proto")?;
        let protos = read_proto(alloc, within.as_str(), section("proto", members))?;
        let within = under(alloc, place, "src")?;
        let subject = read_subject(alloc, names, within.as_str(), section("src", members))?;
        let within = under(alloc, place, "accept")?;
        let accept = list_or_empty::<TestDestText>(
            alloc,
            LIST_LIMIT,
            names,
            within.as_str(),
            section("accept", members),
        )?;
        let within = under(alloc, place, "deny")?;
        let deny = list_or_empty::<TestDestText>(
            alloc,
            LIST_LIMIT,
            names,
            within.as_str(),
            section("deny", members),
        )?;
        Ok(Test {
            subject,
            proto: number_of(&protos),
            accept,
            deny,
        })
    }
}
