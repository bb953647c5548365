//! The laws of statuses. The functions do nothing: each states laws.
ghost use Rattle.status_laws.specs.Answers.{AreLacksCounted, AreLossesCounted};
ghost use Rattle.status_laws.specs.Causes.{HaveCauses};
ghost use Rattle.status_laws.specs.Complete.{IsCheckingComplete, IsLoadingComplete, IsOperatingComplete};

/// Each status of each command has its cause. One that names a fault comes only where the count of an
/// object of that fault rose in this run, or, for an operator's command, where the link's bytes are no
/// whole answer; and a status that a command never ends with has none.
pub fn statuses_have_causes()
    ensures causes { HaveCauses }
{}

/// Where what they need is there and no count of faults rises, `policy-check`, `load` and the operator's
/// commands end with the status of what they found, or for lack of memory. A load may also end early.
pub fn commands_complete()
    ensures checking { IsCheckingComplete }
    ensures loading { IsLoadingComplete }
    ensures operating { IsOperatingComplete }
{}

/// An answer that the keeper failed comes only where the keeper's count rose in the connection, and random
/// words lack only where the random source's did.
pub fn answers_name_their_faults()
    ensures losses { AreLossesCounted }
    ensures lacks { AreLacksCounted }
{}
