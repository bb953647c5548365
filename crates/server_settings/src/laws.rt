//! The numbers of a server's settings. This function does nothing: it states a law.
ghost use Rattle.std.specs.Prelude.{◌≡◌, codes};
ghost use Rattle.server_settings.specs.declared.defaults.TheConstants.{CONNECTIONS_DEFAULT, DATABASE_DEFAULT, LISTEN_DEFAULT, POLL_TURNS_DEFAULT, REQUESTS_DEFAULT};
ghost use Rattle.server_settings.specs.declared.limits.TheConstants.{COUNT_LIMIT, VISIBLE_LIMIT};

/// The limits and the defaults.
pub fn the_numbers_are_these()
    ensures visible { VISIBLE_LIMIT ≡ 255 }
    ensures count { COUNT_LIMIT ≡ 1000000000 }
    ensures connections { CONNECTIONS_DEFAULT ≡ 0 }
    ensures database { DATABASE_DEFAULT.now ≡ codes ":memory:" }
    ensures listen { LISTEN_DEFAULT.now ≡ codes "127.0.0.1:8080" }
    ensures poll_turns { POLL_TURNS_DEFAULT ≡ 1000 }
    ensures requests { REQUESTS_DEFAULT ≡ 100000 }
{}
