//! What follows from the contract of `serve`. The functions do nothing: each states a law.
ghost use Rattle.tailnet_serve.specs.Complete.{IsServingComplete, ServesWell};
ghost use Rattle.tailnet_serve.specs.ServiceLaws.{SeatIsFollowed, ServiceLeavesMachinesGone};

/// Where words and settings are accepted, the rows that the opener tells are not damaged and it tells
/// rows at the end too, and no count of files, keeper, doors or random source rises, a run ends with
/// status 0, or for lack of memory.
pub fn serving_completeness()
    ensures complete { IsServingComplete }
{}

/// Unless memory ran out at one of them, each connection that was taken, and at which neither a read nor
/// a write failed, was served to its end, or to the request or the refusal that ended it.
pub fn well_served_connections()
    ensures well { ServesWell }
{}

/// What holds of each legal history holds of a run, for every schedule of its threads: an id of a machine
/// that had gone before is no machine's at its end.
pub fn services_leave_machines_gone()
    ensures machines { ServiceLeavesMachinesGone }
{}

/// Where the desk of a hub was sound when the hub was made, the client of a session has its machine's map,
/// computed afresh, after each drain in the history that a seat has seen at the end of a connection.
pub fn connections_at_a_seat_are_followed()
    ensures followed { SeatIsFollowed }
{}
