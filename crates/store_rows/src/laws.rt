//! Laws of stored rows. None of these functions does anything: each states a law.
ghost use Rattle.std.specs.Prelude.{◌≡◌, ℕ, List, Option, Some, ⊤};
ghost use Rattle.net_rows.specs.declared.change.Counters.{Counters};
ghost use Rattle.net_rows.specs.declared.key.AuthKey.{AuthKey};
ghost use Rattle.net_rows.specs.declared.machine.Machine.{Machine};
ghost use Rattle.net_rows.specs.declared.pending.Pending.{Pending};
ghost use Rattle.net_rows.specs.declared.user.User.{User};
ghost use Rattle.tailcfg.specs.declared.dns.DnsExtra.{DnsExtra};
ghost use Rattle.store_rows.specs.Reads.{IsReadBack};
ghost use Rattle.store_rows.specs.Reading.{auth_key_of, extra_of, machine_in_cells, meta_of, pending_in_cells, policy_in_cells, user_in_cells};
ghost use Rattle.store_rows.specs.declared.cell.Cell.{Cell};
ghost use Rattle.store_rows.specs.Rows.{IsTypedCounters, IsTypedExtra, IsTypedKey, IsTypedMachine, IsTypedPending, IsTypedUser};
ghost use Rattle.store_rows.specs.Rows.{auth_key_cells, extra_cells, machine_cells, meta_cells, pending_cells, policy_cells, user_cells};

/// No two values of a table have one row.
pub fn stored_rows_differ()
    ensures meta { (a b : Counters) → IsTypedCounters a → IsTypedCounters b
        → meta_cells a ≡ meta_cells b → a ≡ b }
    ensures users { (a b : User) → IsTypedUser a → IsTypedUser b
        → user_cells a ≡ user_cells b → a ≡ b }
    ensures auth_keys { (a b : AuthKey) → IsTypedKey a → IsTypedKey b
        → auth_key_cells a ≡ auth_key_cells b → a ≡ b }
    ensures pending { (a b : Pending) → IsTypedPending a → IsTypedPending b
        → pending_cells a ≡ pending_cells b → a ≡ b }
    ensures machines { (a b : Machine) → IsTypedMachine a → IsTypedMachine b
        → machine_cells a ≡ machine_cells b → a ≡ b }
    ensures extras { (m n : ℕ) (a b : DnsExtra) → IsTypedExtra a → IsTypedExtra b
        → extra_cells m a ≡ extra_cells n b → (m ≡ n) × (a ≡ b) }
    ensures policy { (a b : List ℕ) → policy_cells a ≡ policy_cells b → a ≡ b }
{}

/// The row that is written of a value is read as that value.
pub fn stored_rows_are_read_again()
    ensures meta { (x : Counters) (found : Option Counters) → IsTypedCounters x
        → IsReadBack meta_cells IsTypedCounters (meta_cells x) found → found ≡ Some x }
    ensures users { (x : User) (found : Option User) → IsTypedUser x
        → IsReadBack user_cells IsTypedUser (user_cells x) found → found ≡ Some x }
    ensures auth_keys { (x : AuthKey) (found : Option AuthKey) → IsTypedKey x
        → IsReadBack auth_key_cells IsTypedKey (auth_key_cells x) found → found ≡ Some x }
    ensures pending { (x : Pending) (found : Option Pending) → IsTypedPending x
        → IsReadBack pending_cells IsTypedPending (pending_cells x) found → found ≡ Some x }
    ensures machines { (x : Machine) (found : Option Machine) → IsTypedMachine x
        → IsReadBack machine_cells IsTypedMachine (machine_cells x) found → found ≡ Some x }
    ensures extras { (place : ℕ) (x : DnsExtra) (found : Option DnsExtra) → IsTypedExtra x
        → IsReadBack (extra_cells place) IsTypedExtra (extra_cells place x) found → found ≡ Some x }
    ensures policy { (x : List ℕ) (found : Option (List ℕ))
        → IsReadBack policy_cells (λ _. ⊤) (policy_cells x) found → found ≡ Some x }
{}

/// Column by column, each row is read as the value whose row it is, if there is one.
pub fn rows_are_read_by_columns()
    ensures meta { (row : List Cell) → IsReadBack meta_cells IsTypedCounters row (meta_of row) }
    ensures users { (row : List Cell) → IsReadBack user_cells IsTypedUser row (user_in_cells row) }
    ensures auth_keys { (row : List Cell)
        → IsReadBack auth_key_cells IsTypedKey row (auth_key_of row) }
    ensures pending { (row : List Cell)
        → IsReadBack pending_cells IsTypedPending row (pending_in_cells row) }
    ensures machines { (row : List Cell)
        → IsReadBack machine_cells IsTypedMachine row (machine_in_cells row) }
    ensures extras { (place : ℕ) (row : List Cell)
        → IsReadBack (extra_cells place) IsTypedExtra row (extra_of place row) }
    ensures policy { (row : List Cell)
        → IsReadBack policy_cells (λ _. ⊤) row (policy_in_cells row) }
{}
