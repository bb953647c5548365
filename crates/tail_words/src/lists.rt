//! Lists in a settings file. A value's fault is the rule that it breaks: that of its type and of its
//! elements' types, or that of its key.
ghost use Rattle.std.specs.Prelude.{◌≡◌, IfOk};
ghost use Rattle.std.specs.List.{list_all};
ghost use Rattle.std.specs.List.Sorted.{IsStrictlySortedBy};
ghost use Rattle.std.specs.Map.{keys_of};
ghost use Rattle.std.specs.String.{string_cmp};
ghost use Rattle.settings.specs.Settings.{is_domain, suffix_cmp};
ghost use Rattle.toml.specs.View.{items_view, table_view, view};
ghost use Rattle.tail_words.specs.SettingsValues.{addresses, are_domains, each_address, each_route, item_texts, member_texts, resolvers, route, routes, routes_within, search_domains, table_texts, texts};

use crate::fault::SettingsRule;
use net_addr::Addr;
use settings::{DNS_ROUTE_LIMIT, RESOLVER_LIMIT, SEARCH_LIMIT, is_domain};
use std::alloc::Global;
use tail_base::{Duplicate, Items, NoMemory, Text};
use tailcfg::DnsRoute;
use toml::{Table, Value};

/// A suffix, and the texts of its resolvers.
#[derive(Drop)]
pub(crate) struct RouteTexts {
    suffix: Text,
    resolvers: Items<Text>,
}

/// The texts of elements, if they all are strings.
#[tactic(auto, using(crate::proofs::ListLemmas::onto_start, crate::proofs::ListLemmas::onto_one, crate::proofs::ListLemmas::onto_end))]
fn item_texts(alloc: Global, items: &[Value]) -> Result<Option<Items<Text>>, NoMemory>
    ensures value { IfOk result (λ made. made ≡ item_texts (items_view items.now)) }
{
    let mut made = Items::new(alloc);
    for item in items {
        let Some(text) = item.as_str() else {
            return Ok(None);
        };
        made.push(Text::from_str(alloc, text)?)?;
    }
    Ok(Some(made))
}

/// The strings of an array of strings.
fn texts(alloc: Global, value: &Value) -> Result<Option<Items<Text>>, NoMemory>
    ensures value { IfOk result (λ made. made ≡ texts (view value.now)) }
{
    match value.as_array() {
        Some(array) => item_texts(alloc, array.as_slice()),
        None => Ok(None),
    }
}

/// The addresses that texts spell, if they all do.
#[tactic(auto, using(crate::proofs::ListLemmas::onto_start, crate::proofs::ListLemmas::onto_one, crate::proofs::ListLemmas::onto_end))]
fn each_address(alloc: Global, texts: &[Text]) -> Result<Option<Items<Addr>>, NoMemory>
    ensures value { IfOk result (λ made. made ≡ each_address texts.now) }
{
    let mut made = Items::new(alloc);
    for text in texts {
        let Some(addr) = Addr::read(text.as_slice()) else {
            return Ok(None);
        };
        made.push(addr)?;
    }
    Ok(Some(made))
}

/// The addresses that texts spell, if they all do and keep their limit.
fn addresses(alloc: Global, texts: &[Text]) -> Result<Option<Items<Addr>>, NoMemory>
    ensures value { IfOk result (λ made. made ≡ addresses texts.now) }
{
    match each_address(alloc, texts)? {
        Some(made) if made.len() <= RESOLVER_LIMIT => Ok(Some(made)),
        _ => Ok(None),
    }
}

/// The addresses that an array of strings spells.
pub(crate) fn resolvers(
    alloc: Global,
    value: &Value,
) -> Result<Result<Items<Addr>, SettingsRule>, NoMemory>
    ensures value { IfOk result (λ read. read ≡ resolvers (view value.now)) }
{
    let Some(texts) = texts(alloc, value)? else {
        return Ok(Err(SettingsRule::KeyType));
    };
    match addresses(alloc, texts.as_slice())? {
        Some(made) => Ok(Ok(made)),
        None => Ok(Err(SettingsRule::KeyRule)),
    }
}

fn each_is_domain(texts: &[Text]) -> bool
    ensures value { result ≡ list_all is_domain texts.now }
{
    for text in texts {
        if !is_domain(text.as_slice()) {
            return false;
        }
    }
    true
}

fn are_domains(texts: &[Text]) -> bool
    ensures value { result ≡ are_domains texts.now }
{
    texts.len() <= SEARCH_LIMIT && each_is_domain(texts)
}

/// The domains that an array of strings gives.
pub(crate) fn search_domains(
    alloc: Global,
    value: &Value,
) -> Result<Result<Items<Text>, SettingsRule>, NoMemory>
    ensures value { IfOk result (λ read. read ≡ search_domains (view value.now)) }
{
    match texts(alloc, value)? {
        Some(texts) if are_domains(texts.as_slice()) => Ok(Ok(texts)),
        Some(_) => Ok(Err(SettingsRule::KeyRule)),
        None => Ok(Err(SettingsRule::KeyType)),
    }
}

/// The texts of a table's entries, if each is an array of strings.
#[tactic(auto, using(crate::proofs::ListLemmas::onto_start, crate::proofs::ListLemmas::onto_one, crate::proofs::ListLemmas::onto_end))]
fn member_texts(alloc: Global, table: &Table) -> Result<Option<Items<RouteTexts>>, NoMemory>
    ensures value { IfOk result (λ made. made ≡ member_texts (table_view table.now)) }
    ensures ordered { IfOk result (λ _. IsStrictlySortedBy string_cmp (keys_of table.now.entries)) }
{
    let mut made = Items::new(alloc);
    for (key, value) in table.iter() {
        let Some(resolvers) = texts(alloc, value)? else {
            return Ok(None);
        };
        let suffix = Text::from_str(alloc, key.as_str())?;
        made.push(RouteTexts { suffix, resolvers })?;
    }
    Ok(Some(made))
}

/// The route that texts spell.
fn route(alloc: Global, texts: &RouteTexts) -> Result<Option<DnsRoute>, NoMemory>
    ensures value { IfOk result (λ made. made ≡ route texts.now) }
{
    if !is_domain(texts.suffix.as_slice()) {
        return Ok(None);
    }
    let Some(resolvers) = addresses(alloc, texts.resolvers.as_slice())? else {
        return Ok(None);
    };
    let suffix = texts.suffix.copy(alloc)?;
    Ok(Some(DnsRoute { suffix, resolvers }))
}

/// The routes that texts spell, if they all do.
#[tactic(auto, using(crate::proofs::ListLemmas::onto_start, crate::proofs::ListLemmas::onto_one, crate::proofs::ListLemmas::onto_end))]
fn each_route(alloc: Global, texts: &[RouteTexts]) -> Result<Option<Items<DnsRoute>>, NoMemory>
    ensures value { IfOk result (λ made. made ≡ each_route texts.now) }
{
    let mut made = Items::new(alloc);
    for entry in texts {
        let Some(route) = route(alloc, entry)? else {
            return Ok(None);
        };
        made.push(route)?;
    }
    Ok(Some(made))
}

/// The routes that a table gives: at each domain the addresses of its resolvers.
pub(crate) fn routes(
    alloc: Global,
    value: &Value,
) -> Result<Result<Items<DnsRoute>, SettingsRule>, NoMemory>
    ensures value { IfOk result (λ read. read ≡ routes (view value.now)) }
    ensures suffixes { IfOk result (λ read. IfOk read (IsStrictlySortedBy suffix_cmp)) }
{
    let Some(table) = value.as_table() else {
        return Ok(Err(SettingsRule::KeyType));
    };
    let Some(texts) = member_texts(alloc, table)? else {
        return Ok(Err(SettingsRule::KeyType));
    };
    match each_route(alloc, texts.as_slice())? {
        Some(made) if made.len() <= DNS_ROUTE_LIMIT => Ok(Ok(made)),
        _ => Ok(Err(SettingsRule::KeyRule)),
    }
}
