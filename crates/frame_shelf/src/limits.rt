//! How much a shelf holds.

/// Machines of which frames are kept.
pub const SHELF_LINES: usize = 1024;

/// Frames that are kept of a machine.
pub const LINE_FRAMES: usize = 16;

/// Bytes of a frame that is kept, with the four of its length.
pub const FRAME_BYTES: usize = 65_536;
