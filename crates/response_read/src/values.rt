//! Single values: truth values, numbers, and what texts spell.
ghost use Rattle.std.specs.Prelude.{◌≡◌, ◌≤◌, IfOk};
ghost use Rattle.serde_json.specs.View.{view};
ghost use Rattle.tail_base.specs.Steps.{Gives};
ghost use Rattle.net_addr.specs.AddrTexts.{addr_of_text};
ghost use Rattle.net_addr.specs.EndpointTexts.{endpoint_of_text};
ghost use Rattle.net_addr.specs.MomentReads.{moment_of_text};
ghost use Rattle.tail_base.specs.Tags.{tag_of};
ghost use Rattle.wire_json.specs.Readers.{unless_zero_time};
ghost use Rattle.response_read.specs.Values.{prefix_in, octet_at, disco_key_in, expiry_at, truth_at, id_at, machine_key_in, node_key_in, count_at, port_at, seq_at, spelled_at, words_at};

use crate::members::ReadJson;
use crate::misfit::Misfit;
use net_addr::{Addr, Endpoint, Moment, Prefix};
use serde_json::Value;
use std::alloc::Global;
use tail_base::{DiscoKey, Failure, MachineKey, NodeKey, Tag, Text};

/// A truth value.
pub(crate) struct Flag;

impl ReadJson for Flag {
    type Made = bool;

    ghost reads = { truth_at };

    fn read(_: Global, value: &Value) -> Result<bool, Failure<Misfit>> {
        value.as_bool().ok_or(Failure::Fault(Misfit::NotResponse))
    }
}

/// The text that a value is.
pub(crate) fn text_in(value: &Value) -> Result<&str, Failure<Misfit>>
    ensures value { Gives (λ text. text.now) result (words_at (view value.now)) }
{
    value.as_str().ok_or(Failure::Fault(Misfit::NotResponse))
}

/// A text.
pub(crate) struct Words;

impl ReadJson for Words {
    type Made = Text;

    ghost reads = { words_at };

    fn read(alloc: Global, value: &Value) -> Result<Text, Failure<Misfit>> {
        Ok(Text::from_str(alloc, text_in(value)?)?)
    }
}

/// A whole number from 0 up to a greatest.
fn number(value: &Value, limit: u64) -> Result<u64, Failure<Misfit>>
    ensures value { Gives (λ n. n) result (count_at limit (view value.now)) }
    ensures limited { IfOk result (λ n. n ≤ limit) }
{
    match value.as_u64() {
        Some(number) if number <= limit => Ok(number),
        _ => Err(Failure::Fault(Misfit::NotResponse)),
    }
}

/// A number of 8 bits.
pub(crate) struct Byte;

impl ReadJson for Byte {
    type Made = u8;

    ghost reads = { octet_at };

    fn read(_: Global, value: &Value) -> Result<u8, Failure<Misfit>> {
        Ok(number(value, 0xff)? as u8)
    }
}

/// A number of 16 bits.
pub(crate) struct Port;

impl ReadJson for Port {
    type Made = u16;

    ghost reads = { port_at };

    fn read(_: Global, value: &Value) -> Result<u16, Failure<Misfit>> {
        Ok(number(value, 0xffff)? as u16)
    }
}

/// A number of 32 bits.
pub(crate) struct Id;

impl ReadJson for Id {
    type Made = u32;

    ghost reads = { id_at };

    fn read(_: Global, value: &Value) -> Result<u32, Failure<Misfit>> {
        Ok(number(value, 0xffff_ffff)? as u32)
    }
}

/// The number of a response in its session.
pub(crate) struct Seq;

impl ReadJson for Seq {
    type Made = u64;

    ghost reads = { seq_at };

    fn read(_: Global, value: &Value) -> Result<u64, Failure<Misfit>> {
        let seq = number(value, u64::MAX)?;
        if seq == 0 {
            Err(Failure::Fault(Misfit::NotResponse))
        } else {
            Ok(seq)
        }
    }
}

/// A node key.
pub(crate) struct NodeKeyText;

impl ReadJson for NodeKeyText {
    type Made = NodeKey;

    ghost reads = { spelled_at node_key_in };

    fn read(_: Global, value: &Value) -> Result<NodeKey, Failure<Misfit>> {
        match NodeKey::read(text_in(value)?.as_bytes()) {
            Some(key) => Ok(key),
            None => Err(Failure::Fault(Misfit::NotResponse)),
        }
    }
}

/// A machine key.
pub(crate) struct MachineKeyText;

impl ReadJson for MachineKeyText {
    type Made = MachineKey;

    ghost reads = { spelled_at machine_key_in };

    fn read(_: Global, value: &Value) -> Result<MachineKey, Failure<Misfit>> {
        match MachineKey::read(text_in(value)?.as_bytes()) {
            Some(key) => Ok(key),
            None => Err(Failure::Fault(Misfit::NotResponse)),
        }
    }
}

/// A disco key, all zero where it isn't known.
pub(crate) struct DiscoKeyText;

impl ReadJson for DiscoKeyText {
    type Made = DiscoKey;

    ghost reads = { spelled_at disco_key_in };

    fn read(_: Global, value: &Value) -> Result<DiscoKey, Failure<Misfit>> {
        match DiscoKey::read(text_in(value)?.as_bytes()) {
            Some(key) => Ok(key),
            None => Err(Failure::Fault(Misfit::NotResponse)),
        }
    }
}

/// A tag.
pub(crate) struct TagText;

impl ReadJson for TagText {
    type Made = Tag;

    ghost reads = { spelled_at tag_of };

    fn read(alloc: Global, value: &Value) -> Result<Tag, Failure<Misfit>> {
        Tag::read(alloc, text_in(value)?.as_bytes())?.ok_or(Failure::Fault(Misfit::NotResponse))
    }
}

/// An address.
pub(crate) struct AddrText;

impl ReadJson for AddrText {
    type Made = Addr;

    ghost reads = { spelled_at addr_of_text };

    fn read(_: Global, value: &Value) -> Result<Addr, Failure<Misfit>> {
        Addr::read(text_in(value)?.as_bytes()).ok_or(Failure::Fault(Misfit::NotResponse))
    }
}

/// A prefix with its length.
pub(crate) struct PrefixText;

impl ReadJson for PrefixText {
    type Made = Prefix;

    ghost reads = { spelled_at prefix_in };

    fn read(_: Global, value: &Value) -> Result<Prefix, Failure<Misfit>> {
        Prefix::read(text_in(value)?.as_bytes())
            .ok()
            .ok_or(Failure::Fault(Misfit::NotResponse))
    }
}

/// An address and a port.
pub(crate) struct EndpointText;

impl ReadJson for EndpointText {
    type Made = Endpoint;

    ghost reads = { spelled_at endpoint_of_text };

    fn read(_: Global, value: &Value) -> Result<Endpoint, Failure<Misfit>> {
        Endpoint::read(text_in(value)?.as_bytes()).ok_or(Failure::Fault(Misfit::NotResponse))
    }
}

/// A time.
pub(crate) struct TimeText;

impl ReadJson for TimeText {
    type Made = Moment;

    ghost reads = { spelled_at moment_of_text };

    fn read(_: Global, value: &Value) -> Result<Moment, Failure<Misfit>> {
        Moment::read(text_in(value)?.as_bytes()).ok_or(Failure::Fault(Misfit::NotResponse))
    }
}

/// The moment, unless it is Go's zero time, the first of all.
fn unless_zero_time(moment: Moment) -> Option<Moment>
    ensures value { result ≡ unless_zero_time moment }
{
    if Moment::clamp(i64::MIN).is_before(moment) {
        Some(moment)
    } else {
        None
    }
}

/// A time that may be unset: then it is Go's zero time.
pub(crate) struct ExpiryText;

impl ReadJson for ExpiryText {
    type Made = Option<Moment>;

    ghost reads = { expiry_at };

    fn read(_: Global, value: &Value) -> Result<Option<Moment>, Failure<Misfit>> {
        match Moment::read(text_in(value)?.as_bytes()) {
            Some(moment) => Ok(unless_zero_time(moment)),
            None => Err(Failure::Fault(Misfit::NotResponse)),
        }
    }
}
