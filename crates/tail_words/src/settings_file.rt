//! The settings file.
ghost use Rattle.std.specs.Prelude.{◌≡◌, IfOk, unwrap_or};
ghost use Rattle.std.specs.List.Sorted.{IsStrictlySortedBy};
ghost use Rattle.settings.specs.Settings.{suffix_cmp};
ghost use Rattle.toml.specs.View.{table_view, view};
ghost use Rattle.tail_base.specs.Steps.{Gives};
ghost use Rattle.tail_words.specs.SettingsText.{checked, entry_checked, required, server_fields_of, settings_at, settings_of, tailnet_fields_of, text_at};

use crate::dns::{check_dns, dns_settings_of};
use crate::fault::{SettingsFault, SettingsRule, refused};
use crate::rule::rule_of;
use crate::table::{broken_by, number_at, prefix_at, text_at};
use net_addr::{tailnet_v4, tailnet_v6};
use server_settings::{
    CONNECTIONS_DEFAULT, DATABASE_DEFAULT, FileSettings, LISTEN_DEFAULT, POLL_TURNS_DEFAULT,
    REQUESTS_DEFAULT, ServerFields, ServerSettings,
};
use settings::{
    EPHEMERAL_SECONDS_DEFAULT, KEY_SECONDS_DEFAULT, PENDING_SECONDS_DEFAULT, Settings,
    SettingsFields, WORKERS_DEFAULT,
};
use std::alloc::Global;
use tail_base::{Failure, NoMemory, Text};
use toml::{Table, Value};

/// Checks an entry.
fn check_entry(alloc: Global, key: &str, value: &Value) -> Result<(), Failure<SettingsFault>>
    ensures value { Gives (λ _. tt) result (entry_checked key.now (view value.now)) }
{
    if key == "dns" {
        return match value.as_table() {
            Some(table) => check_dns(alloc, table),
            None => refused(alloc, SettingsRule::KeyType, "dns"),
        };
    }
    match broken_by(rule_of(key), value) {
        Some(rule) => refused(alloc, rule, key),
        None => Ok(()),
    }
}

/// Checks the entries in their order.
#[tactic(auto, using(tail_base::proofs::StepLemmas::fails_first))]
fn check_entries(alloc: Global, table: &Table) -> Result<(), Failure<SettingsFault>>
    ensures value { Gives (λ _. tt) result (checked (table_view table.now)) }
{
    for (key, value) in table.iter() {
        check_entry(alloc, key.as_str(), value)?;
    }
    Ok(())
}

/// The text of a key that has to be there.
fn required(alloc: Global, table: &Table, key: &str) -> Result<Text, Failure<SettingsFault>>
    ensures value { Gives (λ t. t) result (required key.now (table_view table.now)) }
{
    match text_at(table, key) {
        Some(text) => Ok(Text::from_str(alloc, text)?),
        None => refused(alloc, SettingsRule::RequiredKey, key),
    }
}

/// The text at a key, or the default.
fn text_or(alloc: Global, table: &Table, key: &str, default: &str) -> Result<Text, NoMemory>
    ensures value { IfOk result (λ t. t
        ≡ unwrap_or (text_at key.now (table_view table.now)) default.now) }
{
    match text_at(table, key) {
        Some(text) => Text::from_str(alloc, text),
        None => Text::from_str(alloc, default),
    }
}

/// What the tailnet is by a table that was checked, with this base domain.
fn tailnet_fields_of(
    alloc: Global,
    base_domain: Text,
    table: &Table,
) -> Result<SettingsFields, NoMemory>
    ensures value { IfOk result (λ made. made
        ≡ tailnet_fields_of base_domain (table_view table.now)) }
    ensures suffixes { IfOk result (λ made. IsStrictlySortedBy suffix_cmp made.dns.routes) }
{
    Ok(SettingsFields {
        dns: dns_settings_of(alloc, &base_domain, table)?,
        ephemeral_seconds: number_at(table, "ephemeral_seconds").unwrap_or(
            EPHEMERAL_SECONDS_DEFAULT,
        ),
        key_seconds: number_at(table, "key_seconds").unwrap_or(KEY_SECONDS_DEFAULT),
        pending_seconds: number_at(table, "pending_seconds").unwrap_or(PENDING_SECONDS_DEFAULT),
        prefix_v4: prefix_at(table, "prefix_v4").unwrap_or(tailnet_v4()),
        prefix_v6: prefix_at(table, "prefix_v6").unwrap_or(tailnet_v6()),
        workers: number_at(table, "workers").unwrap_or(WORKERS_DEFAULT),
        base_domain,
    })
}

/// What the server is by a table that was checked, with these texts.
fn server_fields_of(
    alloc: Global,
    server_url: Text,
    token: Text,
    table: &Table,
) -> Result<ServerFields, NoMemory>
    ensures value { IfOk result (λ made. made
        ≡ server_fields_of server_url token (table_view table.now)) }
{
    Ok(ServerFields {
        connections: number_at(table, "connections").unwrap_or(CONNECTIONS_DEFAULT),
        database: text_or(alloc, table, "database", DATABASE_DEFAULT)?,
        listen: text_or(alloc, table, "listen", LISTEN_DEFAULT)?,
        poll_turns: number_at(table, "poll_turns").unwrap_or(POLL_TURNS_DEFAULT),
        requests: number_at(table, "requests").unwrap_or(REQUESTS_DEFAULT),
        server_url,
        token,
    })
}

#[tactic(auto, unfolding(crate::specs::SettingsText::settings_at))]
fn settings_from(alloc: Global, table: &Table) -> Result<FileSettings, Failure<SettingsFault>>
    ensures value { Gives (λ s. s) result (settings_at (table_view table.now)) }
{
    check_entries(alloc, table)?;
    let base_domain = required(alloc, table, "base_domain")?;
    let server_url = required(alloc, table, "server_url")?;
    let token = required(alloc, table, "token")?;
    let tailnet = Settings::new(tailnet_fields_of(alloc, base_domain, table)?);
    let server = ServerSettings::new(server_fields_of(alloc, server_url, token, table)?);
    Ok(FileSettings { tailnet, server })
}

/// The settings that a file gives, a TOML document. The keys `base_domain` (labels joined by dots,
/// up to 180 bytes), `server_url` and `token` (1 to 255 visible ASCII bytes each) have to be there.
/// A domain is labels joined by dots, up to 253 bytes. These keys have defaults:
///
/// - `connections` (0 to 1000000000, by default 0), `key_seconds` (the same);
/// - `ephemeral_seconds` (1 to 1000000000, by default 1800), `pending_seconds` (3600), `poll_turns`
///   (1000), `requests` (100000);
/// - `workers` (1 to 1024, by default 4);
/// - `database` and `listen` (texts, by default `:memory:` and `127.0.0.1:8080`);
/// - `prefix_v4` (within 100.64.0.0/10 with a length up to 30, by default that prefix), `prefix_v6`
///   (within fd7a:115c:a1e0::/48 with a length up to 126, by default that prefix);
/// - in the table `dns`: `magic` (a truth value, by default true), `resolvers` (up to 16 addresses, by
///   default none), `routes` (a table of up to 64 domains with up to 16 addresses each, by default
///   empty), `search` (up to 16 domains, by default the base domain).
///
/// The fault is the first: the file isn't a TOML document in UTF-8; or, key by key in byte order, the
/// key is unknown, its value or an element of it has another type, or it is against the key's rule; or
/// a key is missing, in byte order. The keys of `dns` go in its place, and are named `dns.KEY`.
#[tactic(auto, unfolding(crate::specs::SettingsText::settings_of))]
pub fn read_settings(alloc: Global, text: &[u8]) -> Result<FileSettings, Failure<SettingsFault>>
    ensures value { Gives (λ s. s) result (settings_of text.now) }
{
    match toml::table_from_slice(alloc, text) {
        Ok(table) => settings_from(alloc, &table),
        Err(error) if error.is_memory() => Err(Failure::NoMemory),
        Err(_) => refused(alloc, SettingsRule::Toml, "text"),
    }
}
