//! Rules of packet filters.
ghost use Rattle.std.specs.Prelude.{◌≡◌};
ghost use Rattle.serde_json.specs.Find.{as_str};
ghost use Rattle.serde_json.specs.View.{items_view, view};
ghost use Rattle.tail_base.specs.Steps.{Gives};
ghost use Rattle.response_read.specs.Filters.{climb_from, dest_range_at, filter_rule_at, is_only_star, is_star, port_range_at, protos_at, sources_at, sources_in, span_in};
ghost use Rattle.response_read.specs.Values.{spelled_at};

use crate::members::{ReadJson, all_due, all_read, due, each_read};
use crate::misfit::Misfit;
use crate::values::{Byte, Port, text_in};
use net_addr::{Addr, Prefix};
use port_sets::PortRange;
use serde_json::Value;
use std::alloc::Global;
use tail_base::{Failure, Items};
use tailcfg::{DestRange, FilterRule, Sources};

/// An address, or a prefix with its length.
fn span_in(text: &[u8]) -> Option<Prefix>
    ensures value { result ≡ span_in text.now }
{
    match Addr::read(text) {
        Some(addr) => Some(Prefix::of_addr(addr)),
        None => Prefix::read(text).ok(),
    }
}

/// The addresses that such a text names.
struct SpanText;

impl ReadJson for SpanText {
    type Made = Prefix;

    ghost reads = { spelled_at span_in };

    fn read(_: Global, value: &Value) -> Result<Prefix, Failure<Misfit>> {
        span_in(text_in(value)?.as_bytes()).ok_or(Failure::Fault(Misfit::NotResponse))
    }
}

/// Whether a value is the text `*`.
fn is_star(value: &Value) -> bool
    ensures value { result ≡ is_star (as_str (view value.now)) }
{
    match value.as_str() {
        Some(text) => text == "*",
        None => false,
    }
}

/// Whether a list is the text `*` and no more.
fn is_only_star(values: &[Value]) -> bool
    ensures value { result ≡ is_only_star (items_view values.now) }
{
    let [first, later @ ..] = values else {
        return false;
    };
    match later {
        [] => is_star(first),
        [_, ..] => false,
    }
}

/// The sources that a list names.
fn sources_in(alloc: Global, values: &[Value]) -> Result<Sources, Failure<Misfit>>
    ensures value { Gives (λ s. s) result (sources_in (items_view values.now)) }
{
    if is_only_star(values) {
        Ok(Sources::Any)
    } else {
        Ok(Sources::Only(each_read::<SpanText>(alloc, values)?))
    }
}

/// Every address, or addresses and prefixes.
struct SourcesList;

impl ReadJson for SourcesList {
    type Made = Sources;

    ghost reads = { sources_at };

    fn read(alloc: Global, value: &Value) -> Result<Sources, Failure<Misfit>> {
        match value.as_array() {
            Some(values) => sources_in(alloc, values.as_slice()),
            None => Err(Failure::Fault(Misfit::NotResponse)),
        }
    }
}

/// Ports, from the first to the last.
struct PortsObject;

impl ReadJson for PortsObject {
    type Made = PortRange;

    ghost reads = { port_range_at };

    #[tactic(auto, unfolding(crate::specs::Filters::port_range_at))]
    fn read(alloc: Global, value: &Value) -> Result<PortRange, Failure<Misfit>> {
        let first = due::<Port>(alloc, "First", value)?;
        let last = due::<Port>(alloc, "Last", value)?;
        Ok(PortRange { first, last })
    }
}

/// Addresses and ports.
struct DestObject;

impl ReadJson for DestObject {
    type Made = DestRange;

    ghost reads = { dest_range_at };

    #[tactic(auto, unfolding(crate::specs::Filters::dest_range_at))]
    fn read(alloc: Global, value: &Value) -> Result<DestRange, Failure<Misfit>> {
        let to = due::<SpanText>(alloc, "IP", value)?;
        let ports = due::<PortsObject>(alloc, "Ports", value)?;
        Ok(DestRange { to, ports })
    }
}

/// Whether each number is above the one before, and the first above 0.
fn climb(numbers: &[u8]) -> bool
    ensures value { result ≡ climb_from 0 numbers.now }
{
    let mut low = 0;
    for number in numbers {
        if low < *number {
            low = *number;
        } else {
            return false;
        }
    }
    true
}

/// Numbers of protocols.
struct ProtosList;

impl ReadJson for ProtosList {
    type Made = Items<u8>;

    ghost reads = { protos_at };

    fn read(alloc: Global, value: &Value) -> Result<Items<u8>, Failure<Misfit>> {
        let protos = all_read::<Byte>(alloc, value)?;
        if climb(protos.as_slice()) {
            Ok(protos)
        } else {
            Err(Failure::Fault(Misfit::NotResponse))
        }
    }
}

/// A rule.
pub(crate) struct RuleObject;

impl ReadJson for RuleObject {
    type Made = FilterRule;

    ghost reads = { filter_rule_at };

    #[tactic(auto, unfolding(crate::specs::Filters::filter_rule_at))]
    fn read(alloc: Global, value: &Value) -> Result<FilterRule, Failure<Misfit>> {
        let dests = all_due::<DestObject>(alloc, "DstPorts", value)?;
        let protos = due::<ProtosList>(alloc, "IPProto", value)?;
        let sources = due::<SourcesList>(alloc, "SrcIPs", value)?;
        Ok(FilterRule {
            sources,
            dests,
            protos,
        })
    }
}
