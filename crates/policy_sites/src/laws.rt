//! Laws of the definitions. None of these functions does anything: each states a law.
ghost use Rattle.std.specs.Prelude.{◌≡◌, ℕ, Bool, Contains, List, None, Option, Some, map, true};
ghost use Rattle.std.specs.List.{list_any};
ghost use Rattle.net_addr.specs.Bits.{Address};
ghost use Rattle.net_rows.specs.Damage.{damage};
ghost use Rattle.net_rows.specs.declared.rows.Rows.{Rows};
ghost use Rattle.policy_rows.specs.declared.group.Group.{Group};
ghost use Rattle.policy_rows.specs.declared.policy.Policy.{Policy};
ghost use Rattle.policy_rows.specs.declared.rule.Rule.{Rule};
ghost use Rattle.policy_sites.specs.ByRule.{flags_let, sends, site_reaches, takes};
ghost use Rattle.policy_sites.specs.Covers.{is_own};
ghost use Rattle.policy_sites.specs.Ends.{end_at, free_end, holder_of};
ghost use Rattle.policy_sites.specs.Grants.{groups_of, rules_of};
ghost use Rattle.policy_sites.specs.Reach.{AreSoundRules, reaches_into, rule_reaches};
ghost use Rattle.policy_sites.specs.Sites.{AreServedApart, AreDistinct, serves_beyond, site_has, sites_of};
ghost use Rattle.policy_sites.specs.declared.end.End.{End};
ghost use Rattle.policy_sites.specs.declared.site.Site.{Site};

/// A search over protocols, ports and addresses is one over rules and their destinations.
pub fn a_reach_is_by_rules()
    ensures same { (policy : Option Policy) (sites : List Site) (target : Address → Bool) (s : End)
        → AreSoundRules (rules_of policy)
        → reaches_into policy sites target s
        ≡ list_any (rule_reaches (groups_of policy) sites target s) (rules_of policy) }
{}

/// Whether some rule lets one machine through to another is told by the flags of the two alone, and by
/// whether they are untagged and of one login.
pub fn a_reach_is_by_flags()
    ensures same { (groups : List Group) (rules : List Rule) (a b : Site)
        → site_reaches groups rules a b ≡ flags_let (is_own (holder_of a) (holder_of b)) rules
        (map (λ r. sends groups r a) rules) (map (λ r. takes groups r b) rules) }
{}

/// In tables that keep their rules an address has at most one site; and where it has one, that site
/// holds the end. No site has an address that another one, or itself, serves beside its own: nobody
/// holds the end there.
pub fn an_address_has_one_site()
    ensures one { (policy : Option Policy) (rows : Rows) (live : List ℕ) → damage rows ≡ None
        → AreDistinct (sites_of policy rows live) }
    ensures own { (sites : List Site) (addr : Address) (site : Site) → AreDistinct sites
        → Contains sites site → site_has addr site ≡ true
        → end_at sites addr ≡ record { addr = Some addr; holder = Some (holder_of site) } }
    ensures apart { (policy : Option Policy) (rows : Rows) (live : List ℕ)
        → damage rows ≡ None → AreServedApart (sites_of policy rows live) }
    ensures free { (sites : List Site) (addr : Address) (site : Site) → AreServedApart sites
        → Contains sites site → serves_beyond site addr ≡ true
        → end_at sites addr ≡ free_end addr }
{}
