//! What holds of any rows of machines. None of these functions does anything: each states a law.
ghost use Rattle.std.specs.Prelude.{◌≡◌, true};
ghost use Rattle.net_rows.specs.declared.machine.Machine.{Machine};
ghost use Rattle.desk_state.specs.Same.{KeepsPlace, KeepsRegistration, same_row, same_told};

/// A row whose place stays, and that passes the test of all that is renewed, is the row that it was.
/// If its registration stays too, the test of what the machine tells of itself is enough.
pub fn kept_rows_stay()
    ensures told { (m r : Machine) → KeepsPlace m r → KeepsRegistration m r
        → same_told m r ≡ true → r ≡ m }
    ensures renewed { (m r : Machine) → KeepsPlace m r → same_row m r ≡ true → r ≡ m }
{}

/// A row that is the row that it was passes both tests.
pub fn rows_that_stay_are_kept()
    ensures told { (m r : Machine) → r ≡ m → same_told m r ≡ true }
    ensures renewed { (m r : Machine) → r ≡ m → same_row m r ≡ true }
{}
