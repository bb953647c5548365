//! What a poll is sent of a map that has changed.
ghost use Rattle.std.specs.Prelude.{◌≡◌, ℕ, Contains};
ghost use Rattle.net_rows.specs.Shelf.{row_at};
ghost use Rattle.tailcfg.specs.declared.response.Response.{Response};
ghost use Rattle.fresh_maps.specs.InOrder.{IsInOrder};
ghost use Rattle.fresh_maps.specs.declared.view.View.{View};
ghost use Rattle.map_delta.specs.Delta.{delta};
ghost use Rattle.map_delta.specs.Puts.{node_id};
ghost use Rattle.tailnet_laws.specs.Differences.{IsUnnamed, NamesDifferences};

/// Each row that a delta puts, patches or takes out differs between the two maps, and so does each other
/// part that it gives; a patch gives of its row the fields alone that differ. A peer that is equal in both
/// maps, or in neither, isn't named.
pub fn deltas_name_only_what_differs()
    ensures named { (old new : View) (seq : ℕ) (r : Response) → Contains (delta old new seq) r
        → NamesDifferences old new r }
    ensures equal { (old new : View) (seq : ℕ) (r : Response) (id : ℕ) → IsInOrder new
        → row_at node_id old.peers id ≡ row_at node_id new.peers id
        → Contains (delta old new seq) r → IsUnnamed r id }
{}
