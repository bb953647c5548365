//! The same of connections and of runs.
ghost use Rattle.byte_laws.specs.Runs.{DeskIsReadBack, PipeIsReadBack, SeatIsReadBack, ServeIsReadBack};

/// So it is of each answer on a connection over a desk, as `serve_desk` gives it, and on one at a seat,
/// as `serve_seat` gives it. So what a client folds of the bytes is what `connections_at_a_desk_are_followed`
/// and `connections_at_a_seat_are_followed` say of the responses: its map, computed afresh.
pub fn connections_are_read_back()
    ensures desk { DeskIsReadBack }
    ensures seat { SeatIsReadBack }
{}

/// And of each answer in a run of `pipe` and in one of `serve`, whatever the schedule of its threads.
pub fn runs_are_read_back()
    ensures pipe { PipeIsReadBack }
    ensures serve { ServeIsReadBack }
{}
