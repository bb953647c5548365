//! User profiles.
ghost use Rattle.wire_write.specs.Nodes.{profile_data};

use crate::marks::{begin_object, end_object};
use crate::token_form::{TokenForm, write_member};
use json::Writer;
use tail_base::NoMemory;
use tailcfg::Profile;

impl TokenForm for Profile {
    ghost json = { profile_data };

    #[tactic(auto, unfolding(crate::specs::Nodes::profile_data))]
    fn write_json(&self, room: &mut String, out: &mut Writer) -> Result<(), NoMemory> {
        begin_object(out)?;
        write_member("DisplayName", &self.display, room, out)?;
        write_member("ID", &self.id, room, out)?;
        write_member("LoginName", &self.login, room, out)?;
        end_object(out)?;
        Ok(())
    }
}
