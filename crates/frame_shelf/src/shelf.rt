//! What is kept of all machines.
ghost use Rattle.std.specs.Prelude.{◌≡◌, ◌≤◌, [], IfOk, OnOk, OnErr, None};
ghost use Rattle.std.specs.List.{position_from};
ghost use Rattle.std.specs.Option.{option_copied};
ghost use Rattle.frame_shelf.specs.Shelves as spec;
ghost use Rattle.frame_shelf.specs.Shelves.{AreLast, IsShelf, is_line_of, shelf_line, lines_without, response_number};

use crate::limits::SHELF_LINES;
use crate::line::FrameLine;
use fresh_maps::NodeTexts;
use std::alloc::Global;
use std::marker::Model;
use tail_base::{Items, MachineKey, NoMemory, Text};
use tailcfg::Response;

/// The last frames of machines' sessions, kept so that they can be sent again. Contracts see a line for each machine
/// of which something is kept, those that were kept into last at the end.
#[derive(Drop)]
pub struct FrameShelf {
    lines: Vec<FrameLine>,
    texts: NodeTexts,
}

impl Model for FrameShelf {
    ghost use Rattle.std.specs.Prelude.{List};
    ghost use Rattle.frame_shelf.specs.Shelves.{IsShelf, ShelfLine};

    ghost Value = { List ShelfLine };

    ghost view = { λ a. a.lines.items };

    ghost invariant = { λ a. IsShelf a.lines.items };
}

/// Where the line of this machine stands.
fn place_of(lines: &[FrameLine], machine: &MachineKey) -> Option<usize>
    ensures value { result ≡ position_from (is_line_of machine.now) 0 lines.now }
{
    for (at, line) in lines.iter().enumerate() {
        if line.is_of(machine) {
            return Some(at);
        }
    }
    None
}

/// Takes out the line of this machine.
fn take_line(lines: &mut Vec<FrameLine>, machine: &MachineKey) -> Option<FrameLine>
    requires shelf { IsShelf lines.old.items }
    ensures line { result ≡ shelf_line lines.old.items machine.now }
    ensures rest { lines.new.items ≡ lines_without lines.old.items machine.now }
    ensures shelf { IsShelf lines.new.items }
    ensures none { shelf_line lines.new.items machine.now ≡ None }
{
    match place_of(lines.as_slice(), machine) {
        Some(place) => Some(lines.remove(place)),
        None => None,
    }
}

/// Where there is a line too many, the first goes.
fn shorten(lines: &mut Vec<FrameLine>)
    ensures value { lines.new.items ≡ spec.without_surplus lines.old.items }
{
    if lines.len() > SHELF_LINES {
        lines.remove(0);
    }
}

/// Adds a line of a machine that has none, at the end.
fn add_line(lines: &mut Vec<FrameLine>, line: FrameLine) -> Result<(), NoMemory>
    requires shelf { IsShelf lines.old.items }
    requires none { shelf_line lines.old.items line.machine ≡ None }
    requires last { AreLast line.last line.responses }
    ensures ok { OnOk result (lines.new.items ≡ spec.with_last lines.old.items line) }
    ensures err { OnErr result (lines.new.items ≡ lines.old.items) }
    ensures shelf { IsShelf lines.new.items }
{
    lines.push(line)?;
    shorten(lines);
    Ok(())
}

impl FrameShelf {
    /// Nothing is kept. It takes no memory.
    pub fn new(alloc: Global) -> FrameShelf
        ensures value { result ≡ [] }
    {
        FrameShelf {
            lines: Vec::new(alloc),
            texts: NodeTexts::new(alloc),
        }
    }

    /// Keeps a response of the session of this handle. Where the machine's line has another handle, or its last number
    /// isn't the one before, it starts anew. A 17th response pushes out the oldest, and one whose frame is too long
    /// empties the line. If memory is refused, the machine has no line. A machine that had none where there are 1,024
    /// lines pushes out the line that was kept into longest ago.
    pub fn keep(
        &mut self,
        alloc: Global,
        machine: &MachineKey,
        handle: &Text,
        response: &Response,
    ) -> Result<(), NoMemory>
        requires numbered { 1 ≤ response_number response.now }
        ensures ok { OnOk result
            (self.new ≡ spec.keep self.old machine.now handle.now response.now) }
        ensures err { OnErr result (self.new ≡ lines_without self.old machine.now) }
    {
        let line = take_line(&mut self.lines, machine);
        let line = FrameLine::with(alloc, &mut self.texts, line, machine, handle, response)?;
        add_line(&mut self.lines, line)
    }

    /// Keeps nothing of this machine any more.
    pub fn forget(&mut self, machine: &MachineKey)
        ensures value { self.new ≡ lines_without self.old machine.now }
    {
        let _ = take_line(&mut self.lines, machine);
    }

    /// The line of this machine.
    fn line(&self, machine: &MachineKey) -> Option<&FrameLine>
        ensures value { option_copied result ≡ shelf_line self.now machine.now }
    {
        self.lines.iter().find(|line| line.is_of(machine))
    }

    /// The last number of the machine's line, if that has the handle and all numbers behind this one, which isn't above
    /// the last. It takes no memory.
    pub fn reach(&self, machine: &MachineKey, handle: &Text, number: u64) -> Option<u64>
        ensures value { result ≡ spec.reach self.now machine.now handle.now number }
    {
        match self.line(machine) {
            Some(line) => line.reach(handle, number),
            None => None,
        }
    }

    /// Copies of the machine's responses that are numbered behind this one.
    pub fn after(
        &self,
        alloc: Global,
        machine: &MachineKey,
        number: u64,
    ) -> Result<Items<Response>, NoMemory>
        ensures value { IfOk result
            (λ made. made ≡ spec.responses_behind self.now machine.now number) }
    {
        match self.line(machine) {
            Some(line) => line.after(alloc, number),
            None => Ok(Items::new(alloc)),
        }
    }
}
