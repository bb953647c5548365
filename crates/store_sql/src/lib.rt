//! The statements by which tables are kept in a database, and what each means.
#![tactic(auto)]

mod laws;
mod texts;

pub use laws::{
    deletes_leave_the_others, deletes_take_out_a_row, inserts_add_their_parameters,
    puts_replace_or_add, selects_show_all_rows, the_texts_make_the_schema, updates_replace_a_row,
};
pub use texts::{
    CLEAR_EXTRAS, CREATE_AUTH_KEYS, CREATE_EXTRAS, CREATE_MACHINES, CREATE_META, CREATE_PENDING,
    CREATE_POLICY, CREATE_USERS, DELETE_AUTH_KEYS, DELETE_MACHINES, DELETE_PENDING, DELETE_USERS,
    INSERT_AUTH_KEYS, INSERT_EXTRAS, INSERT_MACHINES, INSERT_META, INSERT_PENDING, INSERT_POLICY,
    INSERT_USERS, SELECT_AUTH_KEYS, SELECT_EXTRAS, SELECT_MACHINES, SELECT_META, SELECT_PENDING,
    SELECT_POLICY, SELECT_SCHEMA, SELECT_USERS, UPDATE_AUTH_KEYS, UPDATE_MACHINES, UPDATE_META,
    UPDATE_PENDING, UPDATE_POLICY, UPDATE_USERS,
};
