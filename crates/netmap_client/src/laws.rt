//! Laws of clients. None of these functions does anything: each states a law.
ghost use Rattle.std.specs.Prelude.{◌≡◌, List, None, Ok};
ghost use Rattle.tailcfg.specs.declared.response.Response.{Response};
ghost use Rattle.map_delta.specs.Fold.{fold_all};
ghost use Rattle.netmap_client.specs.Follows.{follow_all, untold};
ghost use Rattle.netmap_client.specs.declared.follower.Follower.{Follower as Client};

/// The map of a client that took responses one after the other is the fold of all of them.
pub fn views_are_folds()
    ensures folded { (rs : List Response) (f : Client) → follow_all untold rs ≡ Ok f
        → f.view ≡ fold_all None rs }
{}
