//! The rules of the texts in a settings file.
ghost use Rattle.std.specs.Prelude.{◌≡◌, ◌&&◌, nat_le};
ghost use Rattle.std.specs.List.{list_all};
ghost use Rattle.server_settings.specs.ServerRules.{is_visible};
ghost use Rattle.settings.specs.Settings.{is_base_domain};

use server_settings::VISIBLE_LIMIT;
use settings::{BASE_DOMAIN_LIMIT, is_domain};

/// Whether the text is a domain with room for a machine's label before it.
pub(crate) fn is_base_domain(text: &[u8]) -> bool
    ensures value { result ≡ is_base_domain text.now }
{
    text.len() <= BASE_DOMAIN_LIMIT && is_domain(text)
}

/// Whether each byte is visible ASCII.
fn has_visible_bytes(text: &[u8]) -> bool
    ensures value { result ≡ list_all (λ b. nat_le 33 b && nat_le b 126) text.now }
{
    text.iter().all(|b| 33 <= *b && *b <= 126)
}

/// Whether the text is visible ASCII bytes, at least one, up to their limit.
pub(crate) fn is_visible(text: &[u8]) -> bool
    ensures value { result ≡ is_visible text.now }
{
    1 <= text.len() && text.len() <= VISIBLE_LIMIT && has_visible_bytes(text)
}
