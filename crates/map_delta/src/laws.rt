//! Laws of folds and deltas. None of these functions does anything: each states a law.
ghost use Rattle.std.specs.Prelude.{◌≡◌, ℕ, IfSome, List, [], None, Option, Some, false};
ghost use Rattle.net_rows.specs.Shelf.{IsAscending, row_at};
ghost use Rattle.tailcfg.specs.declared.node_row.NodeRow.{NodeRow};
ghost use Rattle.fresh_maps.specs.InOrder.{IsInOrder};
ghost use Rattle.fresh_maps.specs.Responses.{first_response};
ghost use Rattle.fresh_maps.specs.declared.view.View.{View};
ghost use Rattle.map_delta.specs.Delta.{AreNumbered, changed_rows, delta, greeting, patches_between, removed_ids, responses_for};
ghost use Rattle.map_delta.specs.Fold.{fold, fold_all, lists_id};
ghost use Rattle.map_delta.specs.Listed.{changed_listed, patches_listed, removed_listed};
ghost use Rattle.map_delta.specs.Puts.{node_id};

/// The fold of a first response, from no view or from any, is its view.
pub fn first_responses_are_whole_maps()
    ensures first { (v : View) (handle : Option (List ℕ)) (seq : Option ℕ) → IsInOrder v
        → fold None (first_response v handle seq) ≡ Some v }
    ensures anew { (was : Option View) (v : View) (handle : List ℕ) (seq : Option ℕ) → IsInOrder v
        → fold was (first_response v (Some handle) seq) ≡ Some v }
{}

/// Folding a delta brings the old map to the new one, for maps in order of one tailnet.
pub fn deltas_bring_new_maps()
    ensures folds { (old new : View) (seq : ℕ) → IsInOrder old → IsInOrder new
        → old.domain ≡ new.domain → fold_all (Some old) (delta old new seq) ≡ Some new }
    ensures none { (v : View) (seq : ℕ) → IsInOrder v → delta v v seq ≡ [] }
{}

/// Folding the responses of a session, from what was sent, gives the new map; and they are numbered one
/// by one behind the last number.
pub fn sessions_have_their_maps()
    ensures folds { (handle : List ℕ) (seq : ℕ) (sent : Option View) (new : View) → IsInOrder new
        → IfSome sent (λ old. IsInOrder old × (old.domain ≡ new.domain))
        → fold_all sent (responses_for handle seq sent new) ≡ Some new }
    ensures numbered { (handle : List ℕ) (seq : ℕ) (sent : Option View) (new : View)
        → AreNumbered seq (responses_for handle seq sent new) }
{}

/// A greeting changes no map.
pub fn greetings_change_nothing()
    ensures stays { (v : View) (handle : List ℕ) → IsInOrder v
        → fold (Some v) (greeting handle) ≡ Some v }
{}

/// Where the nodes are equal at each id that isn't listed, what is changed, patched and removed is
/// found at the listed ids.
pub fn changes_stand_at_listed_ids()
    ensures changed { (ids : List ℕ) (old new : List NodeRow) → IsAscending (λ k. k) ids
        → IsAscending node_id new
        → ((k : ℕ) → lists_id ids k ≡ false → row_at node_id old k ≡ row_at node_id new k)
        → changed_listed ids old new ≡ changed_rows old new }
    ensures patched { (ids : List ℕ) (old new : List NodeRow) → IsAscending (λ k. k) ids
        → IsAscending node_id new
        → ((k : ℕ) → lists_id ids k ≡ false → row_at node_id old k ≡ row_at node_id new k)
        → patches_listed ids old new ≡ patches_between old new }
    ensures removed { (ids : List ℕ) (old new : List NodeRow) → IsAscending (λ k. k) ids
        → IsAscending node_id old
        → ((k : ℕ) → lists_id ids k ≡ false → row_at node_id old k ≡ row_at node_id new k)
        → removed_listed ids old new ≡ removed_ids old new }
{}
