//! The numbers of a tailnet's settings. This function does nothing: it states a law.
ghost use Rattle.std.specs.Prelude.{◌≡◌, true};
ghost use Rattle.settings.specs.declared.defaults.TheConstants.{EPHEMERAL_SECONDS_DEFAULT, KEY_SECONDS_DEFAULT, PENDING_SECONDS_DEFAULT, PROXIED_DEFAULT, WORKERS_DEFAULT};
ghost use Rattle.settings.specs.declared.limits.TheConstants.{BASE_DOMAIN_LIMIT, DNS_ROUTE_LIMIT, DOMAIN_LIMIT, PREFIX_V4_LEN_LIMIT, PREFIX_V6_LEN_LIMIT, RESOLVER_LIMIT, SEARCH_LIMIT, SECONDS_LIMIT, WORKER_LIMIT};

/// The limits and the defaults.
pub fn the_numbers_are_these()
    ensures domain { DOMAIN_LIMIT ≡ 253 }
    ensures base_domain { BASE_DOMAIN_LIMIT ≡ 180 }
    ensures resolvers { RESOLVER_LIMIT ≡ 16 }
    ensures dns_routes { DNS_ROUTE_LIMIT ≡ 64 }
    ensures search { SEARCH_LIMIT ≡ 16 }
    ensures seconds { SECONDS_LIMIT ≡ 1000000000 }
    ensures prefix_v4 { PREFIX_V4_LEN_LIMIT ≡ 30 }
    ensures prefix_v6 { PREFIX_V6_LEN_LIMIT ≡ 126 }
    ensures workers { WORKER_LIMIT ≡ 1024 }
    ensures ephemeral_default { EPHEMERAL_SECONDS_DEFAULT ≡ 1800 }
    ensures key_default { KEY_SECONDS_DEFAULT ≡ 0 }
    ensures pending_default { PENDING_SECONDS_DEFAULT ≡ 3600 }
    ensures proxied_default { PROXIED_DEFAULT ≡ true }
    ensures workers_default { WORKERS_DEFAULT ≡ 4 }
{}
