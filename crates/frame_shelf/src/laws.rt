//! Laws of shelves. None of these functions does anything: each states a law.
ghost use Rattle.std.specs.Prelude.{◌≡◌, ◌≤◌, ◌+◌, ℕ, List, [], Some, length};
ghost use Rattle.tail_base.specs.declared.key.MachineKey.{MachineKey};
ghost use Rattle.tailcfg.specs.declared.response.Response.{Response};
ghost use Rattle.frame_shelf.specs.Shelves as spec;
ghost use Rattle.frame_shelf.specs.Shelves.{AreInTurn, IsShelf, ShelfLine, lines_without, reach, response_number, responses_behind};

/// Shelves keep their rules when a response is kept and when a line goes, and an empty one has them: no machine has two
/// lines, there are at most so many, and a line's responses are numbered one by one up to its last.
pub fn shelves_keep_their_rules()
    ensures none { IsShelf [] }
    ensures kept { (lines : List ShelfLine) (machine : MachineKey) (handle : List ℕ)
        (response : Response) → 1 ≤ response_number response → IsShelf lines
        → IsShelf (spec.keep lines machine handle response) }
    ensures gone { (lines : List ShelfLine) (machine : MachineKey) → IsShelf lines
        → IsShelf (lines_without lines machine) }
{}

/// Where a shelf reaches from one number up to another, the responses behind the one are numbered one by one up to the
/// other, so that none is missing.
pub fn reached_responses_follow()
    ensures follow { (lines : List ShelfLine) (machine : MachineKey) (handle : List ℕ)
        (number last : ℕ) → IsShelf lines → reach lines machine handle number ≡ Some last
        → AreInTurn number (responses_behind lines machine number)
        × (number + length (responses_behind lines machine number) ≡ last) }
{}
