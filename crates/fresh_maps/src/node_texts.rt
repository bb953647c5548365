//! The texts of nodes that were written last.
ghost use Rattle.std.specs.Prelude.{◌≡◌, ◌++◌, ◌<◌, IfOk, IfSome, OnOk};
ghost use Rattle.wire_write.specs.Joined.{node_row_text};

use same_maps::same_node_row;
use std::alloc::Global;
use std::marker::Model;
use std::mem;
use tail_base::{Duplicate, NoMemory};
use tailcfg::NodeRow;
use wire_write::append_node;

/// How many texts are kept at most: twice as many as there may be machines, since slots go by id, and ids of
/// machines that went leave gaps.
const SLOTS: usize = 2048;

/// The text of a node.
#[derive(Drop)]
struct NodeText {
    row: NodeRow,
    text: Vec<u8>,
    ghost written: { text.items ≡ node_row_text row },
}

impl NodeText {
    /// What is kept of a node and its text.
    fn of(alloc: Global, node: &NodeRow, text: &[u8]) -> Result<NodeText, NoMemory>
        requires written { text.now ≡ node_row_text node.now }
    {
        Ok(NodeText {
            text: Vec::from_slice(alloc, text)?,
            row: node.copy(alloc)?,
        })
    }

    /// The text, if it is that of this node: all that a row says may have changed since.
    fn text_of(&self, node: &NodeRow) -> Option<&[u8]>
        ensures value { IfSome result (λ text. text.now ≡ node_row_text node.now) }
    {
        if same_node_row(&self.row, node) {
            Some(self.text.as_slice())
        } else {
            None
        }
    }
}

/// The texts of the nodes that were written last, kept by whoever writes frames: in a whole map nearly
/// every row has the same text whoever the viewer is, so that most are copied. Contracts see nothing of
/// it, since the bytes are the same with any texts.
#[derive(Drop)]
pub struct NodeTexts {
    /// The text of a node is kept in the slot of its id. There are none until one is kept.
    slots: Vec<Option<Box<NodeText>>>,
}

impl Model for NodeTexts {
    ghost Value = { Unit {0} };

    ghost view = { λ _. tt };
}

impl NodeTexts {
    /// No texts, which take no memory.
    pub fn new(alloc: Global) -> NodeTexts {
        NodeTexts {
            slots: Vec::new(alloc),
        }
    }

    /// The text that is kept of a node, if it is that of this row.
    fn kept(&self, node: &NodeRow) -> Option<&[u8]>
        ensures value { IfSome result (λ text. text.now ≡ node_row_text node.now) }
    {
        match self.slots.get(slot_of(node)) {
            Some(Some(kept)) => kept.text_of(node),
            Some(None) | None => None,
        }
    }

    /// Makes the slots, unless they are there.
    fn make_slots(&mut self, alloc: Global) -> Result<(), NoMemory> {
        if self.slots.is_empty() {
            let mut slots = Vec::with_capacity(alloc, SLOTS)?;
            for _ in 0..SLOTS {
                slots.push(None)?;
            }
            self.slots = slots;
        }
        Ok(())
    }

    /// Keeps the text of a node in place of what its slot had.
    fn keep(&mut self, alloc: Global, node: &NodeRow, text: &[u8]) -> Result<(), NoMemory>
        requires written { text.now ≡ node_row_text node.now }
    {
        let made = Box::new(alloc, NodeText::of(alloc, node, text)?)?;
        self.make_slots(alloc)?;
        if let Some(slot) = self.slots.get_mut(slot_of(node)) {
            *slot = Some(made);
        }
        Ok(())
    }

    /// Writes the text of a node behind the bytes, and keeps it. If memory is refused for that, it isn't
    /// kept.
    fn write(&mut self, alloc: Global, bytes: &mut Vec<u8>, node: &NodeRow) -> Result<(), NoMemory>
        ensures ok { OnOk result (bytes.new.items ≡ bytes.old.items ++ node_row_text node.now) }
    {
        let start = bytes.len();
        *bytes = append_node(alloc, mem::replace(bytes, Vec::new(alloc)), node)?;
        let _ = self.keep(alloc, node, &bytes[start..]);
        Ok(())
    }

    /// Adds the text of a node: the one that is kept, or else one that is written.
    pub(crate) fn append(
        &mut self,
        alloc: Global,
        bytes: &mut Vec<u8>,
        node: &NodeRow,
    ) -> Result<(), NoMemory>
        ensures ok { OnOk result (bytes.new.items ≡ bytes.old.items ++ node_row_text node.now) }
    {
        match self.kept(node) {
            Some(text) => {
                bytes.extend_from_slice(text)?;
                Ok(())
            }
            None => self.write(alloc, bytes, node),
        }
    }
}

/// The slot of a node's text.
fn slot_of(node: &NodeRow) -> usize {
    node.id as usize % SLOTS
}
