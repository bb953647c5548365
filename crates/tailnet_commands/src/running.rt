//! A run over settings.
ghost use Rattle.std.specs.Prelude.{◌≡◌};
ghost use Rattle.desk_front.specs.Wanted.{front_settings};
ghost use Rattle.tailnet_commands.specs.Outside.{Outside, around};
ghost use Rattle.tailnet_commands.specs.Run.{Ran};
ghost use Rattle.tailnet_desk.specs.Crashes.{StaysSafe};

use crate::desk_opening::open_desk;
use crate::seeding::seed_desk;
use connections::serve_desk;
use desk_front::Front;
use exit_status::Ended;
use fresh_maps::NodeTexts;
use io_edge::{Clock, Entropy, Sink, Source};
use row_keeper::Opener;
use server_settings::FileSettings;
use std::alloc::Global;
use tail_base::Text;

/// Opens a desk over what the opener keeps, hands it the seed, if there is one, and serves one
/// connection over it behind this front. What is known of the rest of the outside, before and after,
/// is any.
pub(crate) fn run<I: Source, O: Sink, P: Opener, C: Clock, N: Entropy>(
    alloc: Global,
    front: &Front,
    settings: FileSettings,
    seed: Option<Text>,
    input: &mut I,
    output: &mut O,
    opener: &mut P,
    clock: &mut C,
    entropy: &mut N,
) -> Ended
    requires front { front.now ≡ front_settings settings.server }
    ensures ran { (before after : Outside) →
        let at = around I.left I.read_faults O.holds O.write_faults P.told P.asked P.faults
        C.answer N.word N.faults in
        Ran result settings seed
        (at before input.old output.old opener.old clock.old entropy.old)
        (at after input.new output.new opener.new clock.new entropy.new) }
    ensures safe { StaysSafe P.told P.is_clean P.may_leave opener.old opener.new }
{
    let requests = settings.server.fields().requests;
    match open_desk(alloc, settings, opener, clock) {
        Ok(mut desk) => {
            seed_desk(alloc, &mut desk, clock, seed);
            let mut texts = NodeTexts::new(alloc);
            let closed = serve_desk(
                alloc, front, &mut texts, requests, &mut desk, input, output, clock, entropy,
            );
            opener.close(desk.close());
            Ended::Closed(closed)
        }
        Err(ended) => ended,
    }
}
