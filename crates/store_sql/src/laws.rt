//! What the statements mean. None of these functions does anything: each states a law.
ghost use Rattle.std.specs.Prelude.{◌≡◌, ◌∷◌, [], ℕ, Ok};
ghost use Rattle.sqlite_value.specs.declared.value.Value.{Value};
ghost use Rattle.store_sql.specs.Standing.{PutsRow, TakesAllOut, TakesRowOut};
ghost use Rattle.sqlite_catalog.specs.Change.{created};
ghost use Rattle.sqlite_resolve.specs.Compile.{table_defined_by};
ghost use Rattle.store_sql.specs.Commands.{update_meta, update_users, update_auth_keys, update_pending, update_machines, update_policy, clear_extras, select_meta, select_users, select_auth_keys, select_pending, select_machines, select_extras, select_policy, insert_meta, insert_users, insert_auth_keys, insert_pending, insert_machines, insert_extras, insert_policy, delete_users, delete_auth_keys, delete_pending, delete_machines};
ghost use Rattle.store_sql.specs.Means.{Means};
ghost use Rattle.store_sql.specs.Schema.{meta_table, users_table, auth_keys_table, pending_table, machines_table, extras_table, policy_table, no_schema, schema_1};
ghost use Rattle.store_sql.specs.declared.texts.TheConstants.{CLEAR_EXTRAS, CREATE_AUTH_KEYS, CREATE_EXTRAS, CREATE_MACHINES, CREATE_META, CREATE_PENDING, CREATE_POLICY, CREATE_USERS, DELETE_AUTH_KEYS, DELETE_MACHINES, DELETE_PENDING, DELETE_USERS, INSERT_AUTH_KEYS, INSERT_EXTRAS, INSERT_MACHINES, INSERT_META, INSERT_PENDING, INSERT_POLICY, INSERT_USERS, SELECT_AUTH_KEYS, SELECT_EXTRAS, SELECT_MACHINES, SELECT_META, SELECT_PENDING, SELECT_POLICY, SELECT_USERS, UPDATE_AUTH_KEYS, UPDATE_MACHINES, UPDATE_META, UPDATE_PENDING, UPDATE_POLICY, UPDATE_USERS};

/// Each text of schema 1 makes its table, and one after another they make the schema.
pub fn the_texts_make_the_schema()
    ensures meta { table_defined_by CREATE_META.now ≡ Ok (record meta_table { tree = 0 }) }
    ensures users { table_defined_by CREATE_USERS.now ≡ Ok (record users_table { tree = 0 }) }
    ensures auth_keys { table_defined_by CREATE_AUTH_KEYS.now
        ≡ Ok (record auth_keys_table { tree = 0 }) }
    ensures pending { table_defined_by CREATE_PENDING.now
        ≡ Ok (record pending_table { tree = 0 }) }
    ensures machines { table_defined_by CREATE_MACHINES.now
        ≡ Ok (record machines_table { tree = 0 }) }
    ensures extras { table_defined_by CREATE_EXTRAS.now ≡ Ok (record extras_table { tree = 0 }) }
    ensures policy { table_defined_by CREATE_POLICY.now ≡ Ok (record policy_table { tree = 0 }) }
    ensures whole { created (created (created (created (created (created (created no_schema
        meta_table) users_table) auth_keys_table) pending_table) machines_table) extras_table)
        policy_table ≡ schema_1 }
{}

/// Each table's SELECT shows its rows in the order of their keys, columns in the order of the schema.
pub fn selects_show_all_rows()
    ensures meta { Means SELECT_META.now select_meta }
    ensures users { Means SELECT_USERS.now select_users }
    ensures auth_keys { Means SELECT_AUTH_KEYS.now select_auth_keys }
    ensures pending { Means SELECT_PENDING.now select_pending }
    ensures machines { Means SELECT_MACHINES.now select_machines }
    ensures extras { Means SELECT_EXTRAS.now select_extras }
    ensures policy { Means SELECT_POLICY.now select_policy }
{}

/// Each table's INSERT adds the row of its parameters.
pub fn inserts_add_their_parameters()
    ensures meta { Means INSERT_META.now insert_meta }
    ensures users { Means INSERT_USERS.now insert_users }
    ensures auth_keys { Means INSERT_AUTH_KEYS.now insert_auth_keys }
    ensures pending { Means INSERT_PENDING.now insert_pending }
    ensures machines { Means INSERT_MACHINES.now insert_machines }
    ensures extras { Means INSERT_EXTRAS.now insert_extras }
    ensures policy { Means INSERT_POLICY.now insert_policy }
{}

/// Each table's DELETE takes out the row of an id.
pub fn deletes_take_out_a_row()
    ensures users { Means DELETE_USERS.now delete_users }
    ensures auth_keys { Means DELETE_AUTH_KEYS.now delete_auth_keys }
    ensures pending { Means DELETE_PENDING.now delete_pending }
    ensures machines { Means DELETE_MACHINES.now delete_machines }
{}

/// Each table's UPDATE replaces the row that has the key of its parameters by them; the extra records
/// go all at once.
pub fn updates_replace_a_row()
    ensures meta { Means UPDATE_META.now update_meta }
    ensures users { Means UPDATE_USERS.now update_users }
    ensures auth_keys { Means UPDATE_AUTH_KEYS.now update_auth_keys }
    ensures pending { Means UPDATE_PENDING.now update_pending }
    ensures machines { Means UPDATE_MACHINES.now update_machines }
    ensures policy { Means UPDATE_POLICY.now update_policy }
    ensures extras { Means CLEAR_EXTRAS.now clear_extras }
{}

/// An UPDATE that found a row, or one that found none with the INSERT behind it, puts the row of its
/// parameters in its place by the id. The other tables stay.
pub fn puts_replace_or_add()
    ensures meta { (id : ℕ) (a b c d e : Value)
        → PutsRow meta_table UPDATE_META.now INSERT_META.now id
        (a ∷ b ∷ c ∷ d ∷ e ∷ []) }
    ensures users { (id : ℕ) (a : Value)
        → PutsRow users_table UPDATE_USERS.now INSERT_USERS.now id
        (a ∷ []) }
    ensures auth_keys { (id : ℕ) (a b c d e f g : Value)
        → PutsRow auth_keys_table UPDATE_AUTH_KEYS.now INSERT_AUTH_KEYS.now id
        (a ∷ b ∷ c ∷ d ∷ e ∷ f ∷ g ∷ []) }
    ensures pending { (id : ℕ) (a b c d e f g h i : Value)
        → PutsRow pending_table UPDATE_PENDING.now INSERT_PENDING.now id
        (a ∷ b ∷ c ∷ d ∷ e ∷ f ∷ g ∷ h ∷ i ∷ []) }
    ensures machines { (id : ℕ) (a b c d e f g h i j k l m n o p : Value)
        → PutsRow machines_table UPDATE_MACHINES.now INSERT_MACHINES.now id
        (a ∷ b ∷ c ∷ d ∷ e ∷ f ∷ g ∷ h ∷ i ∷ j ∷ k ∷ l ∷ m ∷ n ∷ o ∷ p ∷ []) }
    ensures policy { (id : ℕ) (a : Value)
        → PutsRow policy_table UPDATE_POLICY.now INSERT_POLICY.now id
        (a ∷ []) }
{}

/// A DELETE that has run leaves the rows of the other ids, and that of the extra records none. The
/// other tables stay.
pub fn deletes_leave_the_others()
    ensures users { TakesRowOut users_table DELETE_USERS.now }
    ensures auth_keys { TakesRowOut auth_keys_table DELETE_AUTH_KEYS.now }
    ensures pending { TakesRowOut pending_table DELETE_PENDING.now }
    ensures machines { TakesRowOut machines_table DELETE_MACHINES.now }
    ensures extras { TakesAllOut extras_table CLEAR_EXTRAS.now }
{}
