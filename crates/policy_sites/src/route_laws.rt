//! Laws of the definitions. None of these functions does anything: each states a law, and calls the law
//! that it rests on.
ghost use Rattle.std.specs.Prelude.{◌≡◌, ◌&&◌, ◌||◌, ℕ, Bool, Contains, List, Option, false, true};
ghost use Rattle.net_addr.specs.Bits.{Address, Block};
ghost use Rattle.net_rows.specs.Damage.{address_eq};
ghost use Rattle.net_rows.specs.declared.machine.Machine.{Machine};
ghost use Rattle.policy_rows.specs.Internet.{is_internet};
ghost use Rattle.policy_rows.specs.declared.policy.Policy.{Policy};
ghost use Rattle.range_sets.specs.Sets.{some_holds};
ghost use Rattle.policy_sites.specs.Approvals.{approved_of, is_approved, is_exit};
ghost use Rattle.policy_sites.specs.Exits.{both_exits, has_route};
ghost use Rattle.policy_sites.specs.Serving.{machine_serves};
ghost use Rattle.policy_sites.specs.Tailnets.{is_tailnet, overlaps_tailnet};

use net_addr::sorted_routes_rise;

/// No approved route has an address of tailnets, nor has the internet. So of the addresses of tailnets
/// a machine serves its own alone.
pub fn approved_routes_leave_tailnets()
    ensures routes { (policy : Option Policy) (login : List ℕ) (m : Machine) (r : Block)
        → Contains (approved_of policy login m) r → overlaps_tailnet r ≡ false }
    ensures addresses { (policy : Option Policy) (login : List ℕ) (m : Machine) (addr : Address)
        → some_holds (approved_of policy login m) addr ≡ true → is_tailnet addr ≡ false }
    ensures internet { (addr : Address) → is_internet addr ≡ true → is_tailnet addr ≡ false }
    ensures own { (policy : Option Policy) (login : List ℕ) (m : Machine) (addr : Address)
        → is_tailnet addr ≡ true → machine_serves policy login m addr
        ≡ (address_eq m.v4 addr || address_eq m.v6 addr) }
{
    sorted_routes_rise();
}

/// Whatever routes a machine advertises, a route is among its approved ones exactly where it advertises
/// it and it is approved, which doesn't depend on the routes that it advertises beside it. So a route
/// that was approved isn't when it is advertised no longer, and is when it is advertised again; and so
/// is the machine an exit node.
pub fn routes_are_approved_apart()
    ensures apart { (policy : Option Policy) (login : List ℕ) (m : Machine)
        → (routes : List Block) (r : Block)
        → has_route (approved_of policy login (record m { routes = routes })) r
        ≡ (has_route routes r && is_approved policy login m r) }
    ensures advertised { (policy : Option Policy) (login : List ℕ) (m : Machine) (r : Block)
        → Contains (approved_of policy login m) r → Contains m.routes r }
    ensures again { (policy : Option Policy) (login : List ℕ) (m : Machine)
        → (routes : List Block) (r : Block) → has_route (approved_of policy login m) r ≡ true
        → has_route (approved_of policy login (record m { routes = routes })) r
        ≡ has_route routes r }
    ensures exit_again { (policy : Option Policy) (login : List ℕ) (m : Machine)
        → (routes : List Block) → is_exit policy login m ≡ true
        → is_exit policy login (record m { routes = routes }) ≡ both_exits routes }
{
    sorted_routes_rise();
}
