//! Laws of the definitions. None of these functions does anything: each states a law.
ghost use Rattle.std.specs.Prelude.{◌≡◌, ◌==◌, ◌&&◌, ◌||◌, ◌++◌, ◌∷◌, [], ℕ, Contains, List, None, Option, not, true};
ghost use Rattle.std.specs.List.{list_any};
ghost use Rattle.net_addr.specs.Bits.{Block};
ghost use Rattle.net_addr.specs.Blocks.{holds};
ghost use Rattle.net_rows.specs.Damage.{damage};
ghost use Rattle.net_rows.specs.Shelf.{IsAscending};
ghost use Rattle.net_rows.specs.declared.rows.Rows.{Rows};
ghost use Rattle.policy_rows.specs.declared.policy.Policy.{Policy};
ghost use Rattle.policy_sites.specs.Grants.{groups_of, rules_of};
ghost use Rattle.policy_sites.specs.Reach.{AreSoundRules};
ghost use Rattle.policy_sites.specs.Sites.{AreServedApart, AreDistinct, sites_of};
ghost use Rattle.policy_sites.specs.declared.site.Site.{Site};
ghost use Rattle.settings.specs.declared.fields.SettingsFields.{SettingsFields};
ghost use Rattle.peer_view.specs.Choices.{IsShownAt};
ghost use Rattle.peer_view.specs.Seen.{Node, Seen, node_reaches, seen_of, sees, visible};
ghost use Rattle.peer_view.specs.Shown.{granted_into, offers, shown};
ghost use Rattle.peer_view.specs.declared.node.TheConstants.{TAGGED_OWNER};
ghost use Rattle.policy_sites.specs.ByRule.{IsSoundSite, site_reaches};
ghost use Rattle.peer_view.specs.Reaches.{reaches};

/// Whether a machine reaches another one depends on the rules and the two machines alone, whatever
/// other machines there are.
pub fn reach_is_local()
    ensures sites { (policy : Option Policy) (sites : List Site) (a b : Site)
        → AreSoundRules (rules_of policy) → AreDistinct sites → AreServedApart sites
        → Contains sites a → Contains sites b → IsSoundSite b
        → reaches policy sites a b ≡ site_reaches (groups_of policy) (rules_of policy) a b }
    ensures tables { (policy : Option Policy) (rows : Rows) (live : List ℕ) (a b : Site)
        → AreSoundRules (rules_of policy) → damage rows ≡ None
        → Contains (sites_of policy rows live) a → Contains (sites_of policy rows live) b
        → reaches policy (sites_of policy rows live) a b
        ≡ site_reaches (groups_of policy) (rules_of policy) a b }
    ensures nodes { (settings : SettingsFields) (policy : Option Policy) (rows : Rows)
        (live online : List ℕ) (a b : Node)
        → AreSoundRules (rules_of policy) → damage rows ≡ None
        → Contains (seen_of settings policy rows live online).nodes a
        → Contains (seen_of settings policy rows live online).nodes b
        → node_reaches (seen_of settings policy rows live online) a b
        ≡ site_reaches (groups_of policy) (rules_of policy) a.site b.site }
{}

/// So does whether a machine sees another one. Who is seen sees, too.
pub fn sight_is_mutual_and_by_rules()
    ensures same { (w : Seen) (m p : Node) → sees w m p ≡ sees w p m }
    ensures rules { (settings : SettingsFields) (policy : Option Policy) (rows : Rows)
        (live online : List ℕ) (m p : Node)
        → AreSoundRules (rules_of policy) → damage rows ≡ None
        → Contains (seen_of settings policy rows live online).nodes m
        → Contains (seen_of settings policy rows live online).nodes p
        → sees (seen_of settings policy rows live online) m p
        ≡ (not (m.row.id == p.row.id)
        && (site_reaches (groups_of policy) (rules_of policy) m.site p.site
        || site_reaches (groups_of policy) (rules_of policy) p.site m.site)) }
{}

/// Without a policy each live machine sees all others.
pub fn all_see_all_without_policy()
    ensures all { (settings : SettingsFields) (rows : Rows) (live online : List ℕ) (m p : Node)
        → damage rows ≡ None
        → Contains (seen_of settings None rows live online).nodes m
        → Contains (seen_of settings None rows live online).nodes p
        → sees (seen_of settings None rows live online) m p ≡ not (m.row.id == p.row.id) }
{}

/// Of the machines that a viewer sees exactly one is shown with a route that any of them offers and into
/// which the viewer is granted a flow. It is online if any of those that offer the route is.
pub fn a_route_is_shown_at_one_machine()
    ensures nodes { (w : Seen) (m : Node) (r : Block)
        → IsAscending (λ n. n.row.id) w.nodes
        → granted_into w m (holds r) ≡ true → list_any (offers r) (visible w m) ≡ true
        → (p : Node) × IsShownAt w m r p }
    ensures tables { (settings : SettingsFields) (policy : Option Policy) (rows : Rows)
        (live online : List ℕ) (m : Node) (r : Block) → damage rows ≡ None
        → granted_into (seen_of settings policy rows live online) m (holds r) ≡ true
        → list_any (offers r) (visible (seen_of settings policy rows live online) m) ≡ true
        → (p : Node) × IsShownAt (seen_of settings policy rows live online) m r p }
{}

/// How a machine without approved routes is shown doesn't depend on who else is visible, and that it is
/// visible changes the row of no other.
pub fn machines_without_routes_change_no_row()
    ensures own { (w : Seen) (viewer : Node) (xs ys : List Node) (p : Node)
        → p.site.approved ≡ [] → shown w viewer xs p ≡ shown w viewer ys p }
    ensures others { (w : Seen) (viewer : Node) (before : List Node) (q : Node)
        (after : List Node) (p : Node) → q.site.approved ≡ []
        → shown w viewer (before ++ q ∷ after) p ≡ shown w viewer (before ++ after) p }
{}

/// The id of the owner that tagged machines are shown with, which no user has.
pub fn the_numbers_are_these()
    ensures tagged_owner { TAGGED_OWNER ≡ 2147483647 }
{}
