//! Laws of rows and tables. None of these functions does anything: each states a law.
ghost use Rattle.std.specs.Prelude.{◌≡◌, ◌==◌, ◌↔◌, ℕ, List, Some, None, if◌then◌else◌};
ghost use Rattle.net_rows.specs.declared.limits.TheConstants.{COUNTER_LIMIT, EXTRA_LIMIT, KEY_LIMIT, MACHINE_LIMIT, PENDING_LIMIT, TAG_LIMIT, USER_LIMIT};
ghost use Rattle.net_rows.specs.Damage.{damage};
ghost use Rattle.net_rows.specs.Rows.{Rows};
ghost use Rattle.net_rows.specs.Shelf.{IsAscending, put_row, row_at, without};
ghost use Rattle.net_rows.specs.Sound.{AreSound};

use crate::id::HasId;

/// Rows by ascending id are a finite map: two such lists that have the same row at each id are equal;
/// a put changes the row of its own id alone, and so does a removal.
pub fn rows_are_maps<T: HasId>()
    ensures same { (xs ys : List T) → IsAscending T.id xs → IsAscending T.id ys
        → ((k : ℕ) → row_at T.id xs k ≡ row_at T.id ys k) → xs ≡ ys }
    ensures put { (xs : List T) (x : T) (k : ℕ)
        → row_at T.id (put_row T.id xs x) k ≡ if T.id x == k then Some x else row_at T.id xs k }
    ensures put_ascends { (xs : List T) (x : T) → IsAscending T.id xs
        → IsAscending T.id (put_row T.id xs x) }
    ensures removed { (xs : List T) (gone k : ℕ)
        → row_at T.id (without T.id xs gone) k ≡ if gone == k then None else row_at T.id xs k }
    ensures removal_ascends { (xs : List T) (gone : ℕ) → IsAscending T.id xs
        → IsAscending T.id (without T.id xs gone) }
{}

/// Tables without damage are those that keep all rules: ids, keys, names, addresses and texts differ,
/// each key and machine has a user, and all limits hold.
pub fn sound_rows_have_no_damage()
    ensures sound { (t : Rows) → damage t ≡ None ↔ AreSound t }
{}

/// How much the tables hold.
pub fn the_numbers_are_these()
    ensures counter { COUNTER_LIMIT ≡ 2147483647 }
    ensures users { USER_LIMIT ≡ 256 }
    ensures keys { KEY_LIMIT ≡ 1024 }
    ensures pending { PENDING_LIMIT ≡ 256 }
    ensures machines { MACHINE_LIMIT ≡ 1024 }
    ensures extras { EXTRA_LIMIT ≡ 256 }
    ensures tags { TAG_LIMIT ≡ 32 }
{}
