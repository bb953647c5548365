//! The commands `explain` and `reach`.
ghost use Rattle.tailnet_commands.specs.Outside.{Outside};
ghost use Rattle.tailnet_desk.specs.Crashes.{StaysSafe};
ghost use Rattle.explain_commands.specs.Explained.{ErrorsTold, ExplainOutcome, Explained, IsAnswerWritten, beside_errors, beside_input};

use crate::opened::answer_over;
use crate::question::Question;
use command_words::AskedFlow;
use exit_status::{Closed, Ended, Status, note, status_of, write_all};
use io_edge::{Clock, Files, Sink};
use row_keeper::Opener;
use std::alloc::Global;
use tailnet_commands::settings_file;

/// Writes the whole answer.
fn write_answer<O: Sink>(output: &mut O, text: &[u8]) -> Ended
    ensures written { IsAnswerWritten result text.now (O.holds output.old) (O.holds output.new)
        (O.write_faults output.old) (O.write_faults output.new) }
{
    match write_all(output, text) {
        Ok(()) => Ended::Closed(Closed::End),
        Err(_) => Ended::Closed(Closed::WriteFault),
    }
}

/// Reads the settings file, makes the answer, and writes it once it is whole. What errors hold, before
/// and after, and what is known of the rest of the outside is any.
fn answered<O: Sink, F: Files, P: Opener, C: Clock>(
    alloc: Global,
    settings: &str,
    question: &Question,
    output: &mut O,
    files: &mut F,
    opener: &mut P,
    clock: &mut C,
) -> Ended
    ensures explained { (rest : Outside) (before after : ErrorsTold) →
        let at = beside_errors O.holds O.write_faults F.holds F.faults P.told P.asked P.faults
        C.answer rest in
        Explained result question.now settings.now
        (at before output.old files.old opener.old clock.old)
        (at after output.new files.new opener.new clock.new) }
    ensures safe { StaysSafe P.told P.is_clean P.may_leave opener.old opener.new }
{
    let settings = match settings_file(alloc, files, settings) {
        Ok(settings) => settings,
        Err(ended) => return ended,
    };
    match answer_over(alloc, settings, question, opener, clock) {
        Ok(text) => write_answer(output, &text),
        Err(ended) => ended,
    }
}

/// All that both commands do once their words are read.
fn answer_command<O: Sink, E: Sink, F: Files, P: Opener, C: Clock>(
    alloc: Global,
    settings: &str,
    question: &Question,
    output: &mut O,
    errors: &mut E,
    files: &mut F,
    opener: &mut P,
    clock: &mut C,
) -> Status
    ensures outcome { (rest : Outside) →
        let at = beside_input O.holds O.write_faults E.holds E.write_faults F.holds F.faults
        P.told P.asked P.faults C.answer rest in
        ExplainOutcome result question.now settings.now
        (at output.old errors.old files.old opener.old clock.old)
        (at output.new errors.new files.new opener.new clock.new) }
    ensures safe { StaysSafe P.told P.is_clean P.may_leave opener.old opener.new }
{
    let ended = answered(alloc, settings, question, output, files, opener, clock);
    note(alloc, errors, &ended);
    status_of(&ended)
}

/// All that `explain` does once its words are read: it reads the settings file, opens a desk over what
/// the opener keeps, and writes by which rule of its policy, and by which of that rule's destinations,
/// the flow is granted first, or that it is denied. No record is changed. The line of its status goes to
/// errors. What is known of the rest of the outside is any.
// Not inlined, so that the stack of a smaller command has no room for this one.
#[inline(never)]
pub fn explain_command<O: Sink, E: Sink, F: Files, P: Opener, C: Clock>(
    alloc: Global,
    settings: &str,
    flow: &AskedFlow,
    output: &mut O,
    errors: &mut E,
    files: &mut F,
    opener: &mut P,
    clock: &mut C,
) -> Status
    ensures outcome { (rest : Outside) →
        let at = beside_input O.holds O.write_faults E.holds E.write_faults F.holds F.faults
        P.told P.asked P.faults C.answer rest in
        ExplainOutcome result (Question.Flow flow.now) settings.now
        (at output.old errors.old files.old opener.old clock.old)
        (at output.new errors.new files.new opener.new clock.new) }
    ensures safe { StaysSafe P.told P.is_clean P.may_leave opener.old opener.new }
{
    let question = Question::Flow(*flow);
    answer_command(
        alloc, settings, &question, output, errors, files, opener, clock,
    )
}

/// All that `reach` does once its words are read: the same, but that it writes which machine reaches
/// which, and by which rule first.
#[inline(never)]
pub fn reach_command<O: Sink, E: Sink, F: Files, P: Opener, C: Clock>(
    alloc: Global,
    settings: &str,
    output: &mut O,
    errors: &mut E,
    files: &mut F,
    opener: &mut P,
    clock: &mut C,
) -> Status
    ensures outcome { (rest : Outside) →
        let at = beside_input O.holds O.write_faults E.holds E.write_faults F.holds F.faults
        P.told P.asked P.faults C.answer rest in
        ExplainOutcome result Question.Reaches settings.now
        (at output.old errors.old files.old opener.old clock.old)
        (at output.new errors.new files.new opener.new clock.new) }
    ensures safe { StaysSafe P.told P.is_clean P.may_leave opener.old opener.new }
{
    answer_command(
        alloc,
        settings,
        &Question::Reaches,
        output,
        errors,
        files,
        opener,
        clock,
    )
}
