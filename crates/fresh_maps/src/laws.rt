//! Laws of maps. This function does nothing: it states a law.
ghost use Rattle.std.specs.Prelude.{◌≡◌, ℕ, Contains, List, None, Option};
ghost use Rattle.net_rows.specs.Damage.{damage};
ghost use Rattle.net_rows.specs.declared.rows.Rows.{Rows};
ghost use Rattle.policy_rows.specs.declared.policy.Policy.{Policy};
ghost use Rattle.policy_sites.specs.Grants.{rules_of};
ghost use Rattle.policy_sites.specs.Reach.{AreSoundRules};
ghost use Rattle.settings.specs.declared.fields.SettingsFields.{SettingsFields};
ghost use Rattle.peer_view.specs.Isolation.{only_seen};
ghost use Rattle.peer_view.specs.Seen.{Node, seen_of};
ghost use Rattle.fresh_maps.specs.Fresh.{fresh};
ghost use Rattle.fresh_maps.specs.Granted.{MeetsPolicy};
ghost use Rattle.fresh_maps.specs.InOrder.{IsInOrder};

/// In tables that keep their rules each live machine's map is in order, its filter admits exactly the
/// flows to what the machine serves that the policy grants, and it depends on nothing but what the
/// machine sees.
pub fn maps_of_sound_tables()
    ensures order { (settings : SettingsFields) (policy : Option Policy) (rows : Rows)
        (live online : List ℕ) (m : Node) → damage rows ≡ None
        → Contains (seen_of settings policy rows live online).nodes m
        → IsInOrder (fresh (seen_of settings policy rows live online) m) }
    ensures admits { (settings : SettingsFields) (policy : Option Policy) (rows : Rows)
        (live online : List ℕ) (m : Node) → damage rows ≡ None → AreSoundRules (rules_of policy)
        → Contains (seen_of settings policy rows live online).nodes m
        → MeetsPolicy (seen_of settings policy rows live online) m
        (fresh (seen_of settings policy rows live online) m).filter }
    ensures isolated { (settings : SettingsFields) (policy : Option Policy) (rows : Rows)
        (live online : List ℕ) (m : Node) → damage rows ≡ None → AreSoundRules (rules_of policy)
        → Contains (seen_of settings policy rows live online).nodes m
        → fresh (seen_of settings policy rows live online) m
        ≡ fresh (only_seen (seen_of settings policy rows live online) m) m }
{}
