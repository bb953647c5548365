//! Laws of sameness. None of these functions does anything: each states a law.
ghost use Rattle.std.specs.Prelude.{◌≡◌, ◌↔◌, List, true};
ghost use Rattle.tailcfg.specs.declared.dns.Dns.{Dns};
ghost use Rattle.tailcfg.specs.declared.dns.DnsExtra.{DnsExtra};
ghost use Rattle.tailcfg.specs.declared.filter.FilterRule.{FilterRule};
ghost use Rattle.tailcfg.specs.declared.node_row.NodeRow.{NodeRow};
ghost use Rattle.tailcfg.specs.declared.profile.Profile.{Profile};
ghost use Rattle.same_maps.specs.Dns.{same_dns, same_extras};
ghost use Rattle.same_maps.specs.Filters.{same_filter};
ghost use Rattle.same_maps.specs.Nodes.{same_node_row, same_profile};

/// Nodes are the same exactly where they are equal, and so are profiles.
pub fn same_nodes_are_equal()
    ensures nodes { (a b : NodeRow) → same_node_row a b ≡ true ↔ (a ≡ b) }
    ensures profiles { (a b : Profile) → same_profile a b ≡ true ↔ (a ≡ b) }
{}

/// Packet filters are the same exactly where they are equal.
pub fn same_filters_are_equal()
    ensures filters { (a b : List FilterRule) → same_filter a b ≡ true ↔ (a ≡ b) }
{}

/// The DNS of two maps is the same exactly where it is equal.
pub fn same_dns_are_equal()
    ensures dns { (a b : Dns) → same_dns a b ≡ true ↔ (a ≡ b) }
{}

/// Lists of extra records are the same exactly where they are equal.
pub fn same_extras_are_equal()
    ensures extras { (a b : List DnsExtra) → same_extras a b ≡ true ↔ (a ≡ b) }
{}
