//! Laws of the definitions. None of these functions does anything: each states a law.
ghost use Rattle.std.specs.Prelude.{◌≡◌, ◌<◌, ◌&&◌, ℕ, [], Bool, Contains, List, None, Option, Some, false, filter, true};
ghost use Rattle.net_addr.specs.Bits.{Address, family_size};
ghost use Rattle.net_rows.specs.Damage.{damage};
ghost use Rattle.net_rows.specs.declared.rows.Rows.{Rows};
ghost use Rattle.range_sets.specs.Canonical.{canonical};
ghost use Rattle.policy_rows.specs.declared.group.Group.{Group};
ghost use Rattle.policy_rows.specs.declared.policy.Policy.{Policy};
ghost use Rattle.policy_rows.specs.declared.rule.Rule.{Rule};
ghost use Rattle.policy_sites.specs.ByRule.{site_reaches};
ghost use Rattle.policy_sites.specs.Ends.{end_at};
ghost use Rattle.policy_sites.specs.Grants.{grants, groups_of, rules_of, some_rule_grants};
ghost use Rattle.policy_sites.specs.Reach.{AreSoundRules};
ghost use Rattle.policy_sites.specs.Sites.{AreServedApart, AreDistinct, serves, sites_of};
ghost use Rattle.policy_sites.specs.declared.end.End.{End};
ghost use Rattle.policy_sites.specs.declared.site.Site.{Site};
ghost use Rattle.filter_compile.specs.Admits.{admits};
ghost use Rattle.filter_compile.specs.Filters.{filter_of, rules_filter};
ghost use Rattle.filter_compile.specs.Isolation.{is_near};
ghost use Rattle.filter_compile.specs.Unrestricted.{HasBothFamilies, own_two, unrestricted};

/// A machine's filter admits exactly the flows to what the machine serves that are granted: by rules,
/// and so by a policy.
pub fn a_filter_admits_what_is_granted()
    ensures by_rules { (groups : List Group) (rules : List Rule) (sites : List Site) (m : Site)
        → AreDistinct sites → AreServedApart sites → AreSoundRules rules → Contains sites m
        → (x y : Address) (proto port : ℕ) → x.bits < family_size x.v6 → y.bits < family_size y.v6
        → admits (rules_filter groups rules sites m) x y proto port ≡ (serves m y
        && some_rule_grants groups rules (end_at sites x) (end_at sites y) proto port) }
    ensures by_policy { (policy : Option Policy) (sites : List Site) (m : Site)
        → AreDistinct sites → AreServedApart sites → AreSoundRules (rules_of policy)
        → Contains sites m
        → (x y : Address) (proto port : ℕ) → x.bits < family_size x.v6 → y.bits < family_size y.v6
        → admits (filter_of policy sites m) x y proto port
        ≡ (serves m y && grants policy (end_at sites x) (end_at sites y) proto port) }
{}

/// Without a policy, or under one with neither `acls` nor `grants`, a machine's filter lets everybody in
/// to what the machine serves; to its two addresses, if it serves no routes and is no exit node. It asks
/// that the machine has an address of each family, which each live machine has in tables that keep their
/// rules.
pub fn a_filter_without_rules_is_open()
    ensures without_policy { (sites : List Site) (m : Site) → HasBothFamilies m
        → filter_of None sites m ≡ unrestricted m }
    ensures without_rules { (policy : Policy) (sites : List Site) (m : Site)
        → policy.rules ≡ None → HasBothFamilies m
        → filter_of (Some policy) sites m ≡ unrestricted m }
    ensures alone { (m : Site) → HasBothFamilies m → m.approved ≡ [] → m.exit ≡ false
        → canonical (serves m) ≡ own_two m }
    ensures families { (policy : Option Policy) (rows : Rows) (live : List ℕ) (m : Site)
        → damage rows ≡ None → Contains (sites_of policy rows live) m → HasBothFamilies m }
{}

/// A machine that doesn't reach another one by the rules adds nothing to its filter. The filter over all
/// machines is that over any of them, so long as the machine itself and all that reach it are among
/// them; so it is that over the machine, those that it reaches and those that reach it.
pub fn who_does_not_reach_a_machine_adds_nothing()
    ensures kept { (policy : Option Policy) (sites : List Site) (m : Site) (keep : Site → Bool)
        → AreDistinct sites → AreServedApart sites → Contains sites m → keep m ≡ true
        → ((q : Site) → Contains sites q
        → site_reaches (groups_of policy) (rules_of policy) q m ≡ true → keep q ≡ true)
        → filter_of policy sites m ≡ filter_of policy (filter keep sites) m }
    ensures near { (policy : Option Policy) (sites : List Site) (m : Site)
        → AreDistinct sites → AreServedApart sites → Contains sites m
        → filter_of policy sites m
        ≡ filter_of policy (filter (is_near (groups_of policy) (rules_of policy) m) sites) m }
{}

/// Under a policy that has rules, but none of them, no flow is granted, and the filter of each machine is
/// empty.
pub fn closed_policies_close()
    ensures grants { (policy : Policy) → policy.rules ≡ Some []
        → (s d : End) (proto port : ℕ) → grants (Some policy) s d proto port ≡ false }
    ensures filters { (policy : Policy) → policy.rules ≡ Some []
        → (sites : List Site) (m : Site) → filter_of (Some policy) sites m ≡ [] }
{}
