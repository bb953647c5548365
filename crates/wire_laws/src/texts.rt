//! Laws of the texts of responses. None of these functions does anything: each states a law.
ghost use Rattle.std.specs.Prelude.{◌≡◌, ◌≤◌, ℕ};
ghost use Rattle.json.specs.Json.{max_depth};
ghost use Rattle.serde_json.specs.Data.{Data};
ghost use Rattle.serde_json.specs.Written.{compact_text};
ghost use Rattle.tailcfg.specs.declared.dns.Dns.{Dns};
ghost use Rattle.tailcfg.specs.declared.filter.FilterRule.{FilterRule};
ghost use Rattle.tailcfg.specs.declared.node_row.NodeRow.{NodeRow};
ghost use Rattle.tailcfg.specs.declared.patch.Patch.{Patch};
ghost use Rattle.tailcfg.specs.declared.profile.Profile.{Profile};
ghost use Rattle.tailcfg.specs.declared.response.Response.{Response};
ghost use Rattle.wire_write.specs.Dns.{dns_data};
ghost use Rattle.wire_write.specs.Filters.{rule_data};
ghost use Rattle.wire_write.specs.Nodes.{node_data, patch_data, profile_data};
ghost use Rattle.wire_write.specs.Responses.{response_text};
ghost use Rattle.response_values.specs.Filters.{IsTypedRule};
ghost use Rattle.response_values.specs.Nodes.{IsTypedPatch};
ghost use Rattle.wire_laws.specs.Dns.{IsWrittenDns};
ghost use Rattle.wire_laws.specs.Nodes.{IsWrittenNode};
ghost use Rattle.wire_laws.specs.Responses.{IsWritten};
ghost use Rattle.wire_laws.specs.Trees.{IsTree};

/// No two values of JSON have one text, where their numbers are whole and of 64 bits, and they nest
/// no deeper than the library's reader goes (RFC 8259).
pub fn json_texts_differ()
    ensures differ { (n : ℕ) (d e : Data) → n ≤ max_depth → IsTree n d → IsTree n e
        → compact_text d ≡ compact_text e → d ≡ e }
{}

/// No two nodes (`tailcfg.Node`) have one form in JSON; nor have two peer changes (`PeerChange`),
/// profiles (`UserProfile`), filter rules (`FilterRule`) or DNS settings (`DNSConfig`).
pub fn forms_differ()
    ensures nodes { (a b : NodeRow) → IsWrittenNode a → IsWrittenNode b
        → node_data a ≡ node_data b → a ≡ b }
    ensures patches { (a b : Patch) → IsTypedPatch a → IsTypedPatch b
        → patch_data a ≡ patch_data b → a ≡ b }
    ensures profiles { (a b : Profile) → profile_data a ≡ profile_data b → a ≡ b }
    ensures rules { (a b : FilterRule) → IsTypedRule a → IsTypedRule b
        → rule_data a ≡ rule_data b → a ≡ b }
    ensures dns { (a b : Dns) → IsWrittenDns a → IsWrittenDns b
        → dns_data a ≡ dns_data b → a ≡ b }
{}

/// The text of a response (`tailcfg.MapResponse`) tells it: no two responses that the server writes
/// have one text.
pub fn texts_tell_responses()
    ensures tell { (a b : Response) → IsWritten a → IsWritten b
        → response_text a ≡ response_text b → a ≡ b }
{}
