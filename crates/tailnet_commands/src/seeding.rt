//! The seed of a desk.
ghost use Rattle.tailnet_commands.specs.Seeding.{IsSeedTurn, IsSeeded};
ghost use Rattle.tailnet_desk.specs.Crashes.{IsSafeDesk};
ghost use Rattle.tailnet_desk.specs.Seated.{point_of};

use io_edge::Clock;
use net_addr::Moment;
use row_keeper::Keeper;
use std::alloc::Global;
use tail_base::Text;
use tailnet_desk::{Ask, Desk};

/// Hands a seed to the desk. A refused seed is passed over.
fn ask_seed<K: Keeper, C: Clock>(alloc: Global, desk: &mut Desk<K>, clock: &mut C, text: Text)
    ensures seeded { let point = point_of K.told K.faults K.calls in
        IsSeedTurn text (C.answer clock.old) (C.answer clock.new)
        (point desk.old) (point desk.new) }
    ensures safe { IsSafeDesk K.told K.is_clean K.may_leave desk.old
        → IsSafeDesk K.told K.is_clean K.may_leave desk.new }
{
    let ask = Ask::Seed { text };
    let moment = Moment::clamp(clock.seconds());
    let _reply = desk.ask(alloc, &ask, moment, None);
}

/// Hands the seed, if there is one, to the desk.
pub(crate) fn seed_desk<K: Keeper, C: Clock>(
    alloc: Global,
    desk: &mut Desk<K>,
    clock: &mut C,
    seed: Option<Text>,
)
    ensures seeded { let point = point_of K.told K.faults K.calls in
        IsSeeded seed (C.answer clock.old) (C.answer clock.new)
        (point desk.old) (point desk.new) }
    ensures safe { IsSafeDesk K.told K.is_clean K.may_leave desk.old
        → IsSafeDesk K.told K.is_clean K.may_leave desk.new }
{
    match seed {
        None => {}
        Some(text) => ask_seed(alloc, desk, clock, text),
    }
}
