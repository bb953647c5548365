//! What follows from a definition. The function does nothing: it states a law.
ghost use Rattle.std.specs.Prelude.{◌≡◌, ◌<◌, ℕ, not};
ghost use Rattle.percent_encoding.specs.AsciiSet.{should_percent_encode};
ghost use Rattle.operator_requests.specs.declared.paths.TheConstants.{LOGIN_ESCAPED};
ghost use Rattle.operator_requests.specs.Requests.{is_login_byte};

/// In a path every byte of a login is percent-encoded but letters, digits, `.`, `_`, `+`, `-` and `@`.
pub fn logins_are_escaped()
    ensures escaped { (b : ℕ) → b < 256
        → should_percent_encode LOGIN_ESCAPED b ≡ not (is_login_byte b) }
{}
