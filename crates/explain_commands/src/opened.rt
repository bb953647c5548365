//! An answer over what an opener keeps.
ghost use Rattle.std.specs.Prelude.{IfErr, IfOk};
ghost use Rattle.tailnet_commands.specs.Opened.{IsDeskFault, opener_told};
ghost use Rattle.explain_commands.specs.Answered.{IsAnswer};
ghost use Rattle.tailnet_desk.specs.Crashes.{StaysSafe};

use crate::answering::answer_text;
use crate::question::Question;
use exit_status::Ended;
use io_edge::Clock;
use row_keeper::Opener;
use server_settings::FileSettings;
use std::alloc::Global;
use tailnet_commands::open_desk;

/// Makes the answer in a desk that is opened over what the opener keeps, and closes it. No record is
/// changed.
pub(crate) fn answer_over<P: Opener, C: Clock>(
    alloc: Global,
    settings: FileSettings,
    question: &Question,
    opener: &mut P,
    clock: &mut C,
) -> Result<Vec<u8>, Ended>
    ensures answer { let at = opener_told P.told P.asked P.faults in
        IfOk result (λ text. IsAnswer text.items question.now settings
        (at opener.old) (at opener.new) (C.answer clock.old) (C.answer clock.new)) }
    ensures fault { let at = opener_told P.told P.asked P.faults in
        IfErr result (λ e. IsDeskFault e settings (at opener.old) (at opener.new)) }
    ensures safe { StaysSafe P.told P.is_clean P.may_leave opener.old opener.new }
{
    let desk = open_desk(alloc, settings, opener, clock)?;
    let answer = answer_text(alloc, &desk.snapshot(), question);
    let keeper = desk.close();
    opener.close(keeper);
    match answer {
        Ok(text) => Ok(text),
        Err(_) => Err(Ended::NoMemory),
    }
}
