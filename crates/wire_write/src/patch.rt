//! Patches of peers.
ghost use Rattle.wire_write.specs.Nodes.{patch_data};

use crate::marks::{begin_object, end_object};
use crate::token_form::{TokenForm, write_member, write_option};
use json::Writer;
use tail_base::NoMemory;
use tailcfg::Patch;

impl TokenForm for Patch {
    ghost json = { patch_data };

    #[tactic(auto, unfolding(crate::specs::Nodes::patch_data))]
    fn write_json(&self, room: &mut String, out: &mut Writer) -> Result<(), NoMemory> {
        begin_object(out)?;
        write_option("DERPRegion", &self.derp, room, out)?;
        write_option("DiscoKey", &self.disco, room, out)?;
        write_option("Endpoints", &self.endpoints, room, out)?;
        write_member("NodeID", &self.id, room, out)?;
        write_option("Online", &self.online, room, out)?;
        end_object(out)?;
        Ok(())
    }
}
