//! Laws of the definitions. None of these functions does anything: each states a law.
ghost use Rattle.std.specs.Prelude.{◌≡◌, ◌≢◌, ℕ, Contains, IfSome, List, None, Option, true};
ghost use Rattle.std.specs.Option.{is_some};
ghost use Rattle.net_rows.specs.Damage.{damage};
ghost use Rattle.net_rows.specs.declared.rows.Rows.{Rows};
ghost use Rattle.policy_rows.specs.declared.policy.Policy.{Policy};
ghost use Rattle.policy_sites.specs.Grants.{grants, rules_of};
ghost use Rattle.policy_sites.specs.Reach.{AreSoundRules};
ghost use Rattle.policy_sites.specs.Sites.{sites_of};
ghost use Rattle.policy_sites.specs.declared.end.End.{End};
ghost use Rattle.policy_sites.specs.declared.site.Site.{Site};
ghost use Rattle.peer_view.specs.Reaches.{reaches};
ghost use Rattle.peer_view.specs.Seen.{Node, seen_of};
ghost use Rattle.fresh_maps.specs.Fresh.{fresh};
ghost use Rattle.settings.specs.declared.fields.SettingsFields.{SettingsFields};
ghost use Rattle.reach_report.specs.FirstGrant.{IsFirstGrant, first_grant};
ghost use Rattle.csv.specs.Reading.{AreRecords, default_config, strip_bom};
ghost use Rattle.csv.specs.declared.parser.State.TheVariants as st;
ghost use Rattle.reach_report.specs.Maps.{has_pair, has_peer};
ghost use Rattle.reach_report.specs.Reaches.{IsReach, reach_list_at};
ghost use Rattle.reach_report.specs.Records.{AreInRange, report_records};
ghost use Rattle.reach_report.specs.ReportTexts.{reach_text};
ghost use Rattle.reach_report.specs.declared.reach.Reach.{Reach};

/// The first grant alone grants the flow, and no rule before it does, nor a destination before it in that rule. There is one
/// exactly where the policy grants the flow.
pub fn a_first_grant_is_least()
    ensures least { (policy : Option Policy) (s d : End) (proto port : ℕ)
        → IfSome (first_grant policy s d proto port) (IsFirstGrant policy s d proto port) }
    ensures granted { (policy : Option Policy) (s d : End) (proto port : ℕ)
        → is_some (first_grant policy s d proto port) ≡ grants policy s d proto port }
{}

/// In tables that keep their rules, a report says of two live machines and a rule exactly this: they differ, one reaches the
/// other, and the rule is the first by which alone it does. So of two that differ it says something if one reaches the other.
pub fn a_report_is_reach()
    ensures listed { (policy : Option Policy) (rows : Rows) (live : List ℕ) (x : Reach)
        → AreSoundRules (rules_of policy) → damage rows ≡ None
        → Contains (reach_list_at policy rows live) x
        → IsReach policy (sites_of policy rows live) x }
    ensures whole { (policy : Option Policy) (rows : Rows) (live : List ℕ) (x : Reach)
        → AreSoundRules (rules_of policy) → damage rows ≡ None
        → IsReach policy (sites_of policy rows live) x
        → Contains (reach_list_at policy rows live) x }
    ensures found { (policy : Option Policy) (rows : Rows) (live : List ℕ) (a b : Site)
        → AreSoundRules (rules_of policy) → damage rows ≡ None
        → Contains (sites_of policy rows live) a → Contains (sites_of policy rows live) b
        → a.id ≢ b.id → reaches policy (sites_of policy rows live) a b ≡ true
        → (rule : ℕ) × Contains (reach_list_at policy rows live)
        (record { from = a.id; to = b.id; rule = rule }) }
{}

/// The library's own reading of a report's text finds the header and the numbers of each line, and no record more.
pub fn a_report_is_read_back()
    ensures back { (reaches : List Reach) → AreInRange reaches
        → AreRecords default_config st.StartRecord (strip_bom (reach_text reaches))
        (report_records reaches) }
{}

/// In tables that keep their rules, a machine is a peer in the fresh map of another one exactly where the report says something
/// of the two, from one to the other or back.
pub fn reports_agree_with_maps()
    ensures same { (settings : SettingsFields) (policy : Option Policy) (rows : Rows)
        (live online : List ℕ) (m : Node) (id : ℕ)
        → AreSoundRules (rules_of policy) → damage rows ≡ None
        → Contains (seen_of settings policy rows live online).nodes m
        → has_peer (fresh (seen_of settings policy rows live online) m) id
        ≡ has_pair (reach_list_at policy rows live) m.row.id id }
{}
