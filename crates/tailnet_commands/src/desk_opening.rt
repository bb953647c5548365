//! A desk over what an opener keeps.
ghost use Rattle.std.specs.Prelude.{IfErr, IfOk, IsSome};
ghost use Rattle.tailnet_commands.specs.Opened.{IsDeskFault, IsDeskOpened, opener_told};
ghost use Rattle.tailnet_commands.specs.Run.{IsFaultOf};
ghost use Rattle.tailnet_desk.specs.Crashes.{IsSafeDesk, IsSafeStore, StaysSafe};
ghost use Rattle.tailnet_desk.specs.Seated.{point_of};

use exit_status::Ended;
use io_edge::{Clock, EdgeFault};
use net_addr::Moment;
use row_keeper::Opener;
use server_settings::FileSettings;
use std::alloc::Global;
use tailnet_desk::{Desk, OpenFault};

/// How a run ends whose desk didn't open.
fn ended_of(fault: OpenFault) -> Ended
    ensures fault { IsFaultOf fault result }
{
    match fault {
        OpenFault::KeeperFault => Ended::KeeperFault,
        OpenFault::Damaged { kind, id } => Ended::Damaged { kind, id },
        OpenFault::NoMemory => Ended::NoMemory,
    }
}

/// Opens a desk over what the opener keeps, at the clock's first answer. If none opens, the keeper is
/// closed again.
///
/// Where a crash left the rows that the opener tells, or those that one event more would have made of
/// them, it does so with the desk open, and where none opens.
pub fn open_desk<P: Opener, C: Clock>(
    alloc: Global,
    settings: FileSettings,
    opener: &mut P,
    clock: &mut C,
) -> Result<Desk<P::Keeper>, Ended>
    ensures opened { let at = opener_told P.told P.asked P.faults in
        IfOk result (λ desk. IsDeskOpened settings (at opener.old) (at opener.new)
        (C.answer clock.old) (C.answer clock.new)
        (point_of P.Keeper.told P.Keeper.faults P.Keeper.calls desk)) }
    ensures fault { let at = opener_told P.told P.asked P.faults in
        IfErr result (λ e. IsDeskFault e settings (at opener.old) (at opener.new)) }
    ensures safe { IfOk result (λ desk. IsSome (P.told opener.old)
        → IsSafeStore P.told P.is_clean P.may_leave opener.old
        → IsSafeDesk P.Keeper.told P.Keeper.is_clean P.Keeper.may_leave desk) }
    ensures fault_safe { IfErr result
        (λ _. StaysSafe P.told P.is_clean P.may_leave opener.old opener.new) }
{
    let moment = Moment::clamp(clock.seconds());
    let FileSettings { tailnet, server } = settings;
    // What the tailnet is keeps its rules.
    let _kept = tailnet.fields();
    let fields = server.fields();
    let keeper = match opener.open(alloc, fields.database.as_str()) {
        Ok(keeper) => keeper,
        Err(EdgeFault::Failed) => return Err(Ended::KeeperFault),
        Err(EdgeFault::NoMemory) => return Err(Ended::NoMemory),
    };
    match Desk::open(alloc, tailnet, keeper, moment) {
        Ok(desk) => {
            // Its tables keep their rules, as those of each open desk do.
            let _rules = desk.tables();
            Ok(desk)
        }
        Err((fault, keeper)) => {
            opener.close(keeper);
            Err(ended_of(fault))
        }
    }
}
