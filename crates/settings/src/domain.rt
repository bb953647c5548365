//! Domains.
ghost use Rattle.std.specs.Prelude.{◌≡◌, []};
ghost use Rattle.std.specs.List.{list_all};
ghost use Rattle.tail_base.specs.Labels.{has_good_ends, has_label_length, is_label, is_label_byte};
ghost use Rattle.settings.specs.Settings.{are_labels, is_domain};

use crate::limits::DOMAIN_LIMIT;

fn is_label_byte(b: u8) -> bool
    ensures value { result ≡ is_label_byte b }
{
    b.is_ascii_lowercase() || b.is_ascii_digit() || b == b'-'
}

fn has_label_bytes(text: &[u8]) -> bool
    ensures value { result ≡ list_all is_label_byte text.now }
{
    text.iter().all(|b| is_label_byte(*b))
}

fn has_label_length(text: &[u8]) -> bool
    ensures value { result ≡ has_label_length text.now }
{
    1 <= text.len() && text.len() <= 63
}

fn has_good_ends(text: &[u8]) -> bool
    ensures value { result ≡ has_good_ends text.now }
{
    !text.starts_with(b"-") && !text.ends_with(b"-")
}

fn is_label(text: &[u8]) -> bool
    ensures value { result ≡ is_label text.now }
{
    has_label_length(text) && has_label_bytes(text) && has_good_ends(text)
}

/// Whether the text is labels joined by dots.
fn are_labels(text: &[u8]) -> bool
    ensures value { result ≡ are_labels [] text.now }
{
    let mut start = 0;
    for i in 0..text.len() {
        if text[i] == b'.' {
            if !is_label(&text[start..i]) {
                return false;
            }
            start = i + 1;
        }
    }
    is_label(&text[start..])
}

/// Whether the text is a domain: labels joined by dots, no longer than a name in the DNS may be.
pub fn is_domain(text: &[u8]) -> bool
    ensures value { result ≡ is_domain text.now }
{
    text.len() <= DOMAIN_LIMIT && are_labels(text)
}
