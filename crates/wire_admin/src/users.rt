//! Users as operators are shown them.
ghost use Rattle.std.specs.Prelude.{◌≡◌, IfOk};
ghost use Rattle.serde_json.specs.View.{view};
ghost use Rattle.wire_admin.specs.Users.{user_data, user_text as text_of_user, users_data, users_text as text_of_users};

use crate::row_form::{RowForm, rows_value};
use crate::written::written;
use net_rows::User;
use serde_json::{Value, json};
use std::alloc::Global;
use tail_base::{Items, NoMemory, Text};

impl RowForm for User {
    ghost form = { user_data };

    #[tactic(auto, unfolding(crate::specs::Users::user_data))]
    fn to_value(&self, alloc: Global) -> Result<Value, NoMemory> {
        Ok(json!(in alloc; {"id": self.id, "login": self.login.as_str()})?)
    }
}

/// A user: its `id` and `login`.
#[tactic(auto, unfolding(crate::specs::Users::user_data))]
pub fn user_text(alloc: Global, user: &User) -> Result<Text, NoMemory>
    ensures value { IfOk result (λ text. text ≡ text_of_user user.now) }
{
    let value = user.to_value(alloc)?;
    written(alloc, &value)
}

#[tactic(auto, unfolding(crate::specs::Users::users_data))]
fn users_value(alloc: Global, users: &Items<User>) -> Result<Value, NoMemory>
    ensures value { IfOk result (λ v. view v ≡ users_data users.now) }
{
    Ok(json!(in alloc; {"users": rows_value(alloc, users.as_slice())?})?)
}

/// Users: the list `users`.
#[tactic(auto, using(crate::proofs::Plain::users_plain))]
pub fn users_text(alloc: Global, users: &Items<User>) -> Result<Text, NoMemory>
    ensures value { IfOk result (λ text. text ≡ text_of_users users.now) }
{
    let value = users_value(alloc, users)?;
    written(alloc, &value)
}
