//! Laws of the definitions. None of these functions does anything: each states a law.
ghost use Rattle.std.specs.Prelude.{◌≡◌, ◌≤◌, ◌∷◌, ℕ, List, [], None, Some, codes, true, false, is_some};
ghost use Rattle.std.specs.Fmt.{decimal};
ghost use Rattle.std.specs.List.{All, Any};
ghost use Rattle.net_rows.specs.declared.limits.TheConstants.{COUNTER_LIMIT};
ghost use Rattle.path_routes.specs.Leads.{IsLed, IsSegment, filled, leads};
ghost use Rattle.path_routes.specs.Table.{brace_in, names_id, paths};
ghost use Rattle.path_routes.specs.declared.route.Route.{Route};
ghost use Rattle.path_routes.specs.declared.route.Route.TheVariants as routes;

/// Each path of the table leads to its route: one without braces as it stands, one with `{id}` with
/// each id in the braces' place, and any other with each segment there, which names the row.
pub fn paths_lead()
    ensures fixed { All (λ path. is_some (brace_in path.0) ≡ false
        → leads path.0 ≡ Some (path.1, 0, [])) paths }
    ensures ids { (id : ℕ) → 1 ≤ id → id ≤ COUNTER_LIMIT
        → All (λ path. names_id path.0 ≡ true
        → leads (filled path.0 (decimal id)) ≡ Some (path.1, id, decimal id)) paths }
    ensures rows { (segment : List ℕ) → IsSegment segment
        → All (λ path. is_some (brace_in path.0) ≡ true → names_id path.0 ≡ false
        → leads (filled path.0 segment) ≡ Some (path.1, 0, segment)) paths }
{}

/// Nothing else leads anywhere: a path that leads to a route is one of the table, with some segment in
/// the braces' place if it has braces, and its id and the segment that names the row are those that
/// stand there. A path that is none of these leads nowhere.
pub fn only_these_paths_lead()
    ensures only { (path : List ℕ) (route : Route) (id : ℕ) (segment : List ℕ)
        → leads path ≡ Some (route, id, segment) → Any (IsLed path route id segment) paths }
    ensures nowhere { (path : List ℕ) → ((route : Route) (id : ℕ) (segment : List ℕ)
        → Any (IsLed path route id segment) paths → ⊥) → leads path ≡ None }
{}

/// The paths of the table, each with its route.
pub fn the_paths_are_these()
    ensures paths { paths ≡ (codes "/machine/register", routes.Register)
        ∷ (codes "/machine/map", routes.Map)
        ∷ (codes "/api/v1/user", routes.Users)
        ∷ (codes "/api/v1/user/{login}", routes.User)
        ∷ (codes "/api/v1/preauthkey", routes.Keys)
        ∷ (codes "/api/v1/preauthkey/{id}", routes.Key)
        ∷ (codes "/api/v1/node", routes.Nodes)
        ∷ (codes "/api/v1/node/{id}", routes.Node)
        ∷ (codes "/api/v1/node/{id}/expire", routes.NodeExpire)
        ∷ (codes "/api/v1/node/{id}/rename", routes.NodeRename)
        ∷ (codes "/api/v1/node/{id}/tags", routes.NodeTags)
        ∷ (codes "/api/v1/node/{id}/routes", routes.NodeRoutes)
        ∷ (codes "/api/v1/register", routes.Waiting)
        ∷ (codes "/api/v1/policy", routes.Policy)
        ∷ (codes "/api/v1/dns", routes.Dns)
        ∷ (codes "/api/v1/sweep", routes.Sweep) ∷ [] }
{}
