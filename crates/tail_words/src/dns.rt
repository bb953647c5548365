//! The table `dns` of a settings file.
ghost use Rattle.std.specs.Prelude.{◌≡◌, ◌++◌, List, ℕ, [], IfOk, codes, option_and_then, option_map, unwrap_or};
ghost use Rattle.std.specs.List.Sorted.{IsStrictlySortedBy};
ghost use Rattle.std.specs.Result.{result_ok};
ghost use Rattle.settings.specs.Settings.{suffix_cmp};
ghost use Rattle.toml.specs.View.{table_view, view};
ghost use Rattle.tail_words.specs.SettingsValues.{resolvers, routes, search_domains};
ghost use Rattle.tail_base.specs.Steps.{Gives};
ghost use Rattle.tail_words.specs.SettingsText.{broken_in_dns, dns_at, dns_checked, dns_settings_of};

use crate::fault::{SettingsFault, SettingsRule, refused};
use crate::lists::{resolvers, routes, search_domains};
use crate::table::member;
use net_addr::Addr;
use settings::PROXIED_DEFAULT;
use std::alloc::Global;
use tail_base::{Duplicate, Failure, Items, NoMemory, Text};
use tailcfg::{DnsRoute, DnsSettings};
use toml::{Table, Value};

/// The rule that an entry breaks, if it breaks one.
fn broken_in_dns(alloc: Global, key: &str, value: &Value) -> Result<Option<SettingsRule>, NoMemory>
    ensures value { IfOk result (λ rule. rule ≡ broken_in_dns key.now (view value.now)) }
{
    if key == "magic" {
        Ok(if value.is_bool() {
            None
        } else {
            Some(SettingsRule::KeyType)
        })
    } else if key == "resolvers" {
        Ok(resolvers(alloc, value)?.err())
    } else if key == "routes" {
        Ok(routes(alloc, value)?.err())
    } else if key == "search" {
        Ok(search_domains(alloc, value)?.err())
    } else {
        Ok(Some(SettingsRule::KnownKey))
    }
}

/// The name of a key of `dns`.
fn dns_name(alloc: Global, key: &str) -> Result<Text, NoMemory>
    ensures value { IfOk result (λ name. name ≡ codes "dns." ++ key.now) }
{
    let mut name = Text::from_str(alloc, "dns.")?;
    name.push(key)?;
    Ok(name)
}

/// Checks the entries of `dns` in their order.
#[tactic(auto, using(tail_base::proofs::StepLemmas::fails_first))]
pub(crate) fn check_dns(alloc: Global, table: &Table) -> Result<(), Failure<SettingsFault>>
    ensures value { Gives (λ _. tt) result (dns_checked (table_view table.now)) }
{
    for (key, value) in table.iter() {
        if let Some(rule) = broken_in_dns(alloc, key.as_str(), value)? {
            let name = dns_name(alloc, key.as_str())?;
            return refused(alloc, rule, name.as_str());
        }
    }
    Ok(())
}

/// The value at a key of `dns`.
fn dns_at<'a>(table: &'a Table, key: &str) -> Option<&'a Value>
    ensures value { option_map (λ v. view v.now) result ≡ dns_at key.now (table_view table.now) }
{
    let dns = member(table, "dns")?.as_table()?;
    member(dns, key)
}

fn proxied_of(table: &Table) -> bool
    ensures value { result ≡ (dns_settings_of [] (table_view table.now)).proxied }
{
    match dns_at(table, "magic") {
        Some(value) => value.as_bool().unwrap_or(PROXIED_DEFAULT),
        None => PROXIED_DEFAULT,
    }
}

fn resolvers_of(alloc: Global, table: &Table) -> Result<Items<Addr>, NoMemory>
    ensures value { IfOk result (λ made. made
        ≡ (dns_settings_of [] (table_view table.now)).resolvers) }
{
    match dns_at(table, "resolvers") {
        Some(value) => Ok(resolvers(alloc, value)?.unwrap_or(Items::new(alloc))),
        None => Ok(Items::new(alloc)),
    }
}

fn routes_of(alloc: Global, table: &Table) -> Result<Items<DnsRoute>, NoMemory>
    ensures value { IfOk result (λ made. made
        ≡ (dns_settings_of [] (table_view table.now)).routes) }
    ensures suffixes { IfOk result (IsStrictlySortedBy suffix_cmp) }
{
    match dns_at(table, "routes") {
        Some(value) => Ok(routes(alloc, value)?.unwrap_or(Items::new(alloc))),
        None => Ok(Items::new(alloc)),
    }
}

fn domains_of(alloc: Global, base_domain: &Text, table: &Table) -> Result<Items<Text>, NoMemory>
    ensures value { IfOk result (λ made. made
        ≡ (dns_settings_of base_domain.now (table_view table.now)).domains) }
{
    if let Some(value) = dns_at(table, "search")
        && let Ok(made) = search_domains(alloc, value)?
    {
        return Ok(made);
    }
    let mut made = Items::new(alloc);
    made.push(base_domain.copy(alloc)?)?;
    Ok(made)
}

/// The DNS settings of a table that was checked, with their defaults.
pub(crate) fn dns_settings_of(
    alloc: Global,
    base_domain: &Text,
    table: &Table,
) -> Result<DnsSettings, NoMemory>
    ensures value { IfOk result (λ made. made
        ≡ dns_settings_of base_domain.now (table_view table.now)) }
    ensures suffixes { IfOk result (λ made. IsStrictlySortedBy suffix_cmp made.routes) }
{
    Ok(DnsSettings {
        domains: domains_of(alloc, base_domain, table)?,
        proxied: proxied_of(table),
        resolvers: resolvers_of(alloc, table)?,
        routes: routes_of(alloc, table)?,
    })
}
