//! The top call.
ghost use Rattle.std.specs.Prelude.{◌≡◌, false, map, option_map, string_bytes};
ghost use Rattle.command_words.specs.Arguments.{HasLoadMachine};
ghost use Rattle.command_words.specs.Words.{invocation_of};
ghost use Rattle.io_edge.specs.Linked.{link_told};
ghost use Rattle.tailnet_commands.specs.Outside.{doors_told, outside};
ghost use Rattle.tailnet_desk.specs.Crashes.{StaysSafe};
ghost use Rattle.top_call.specs.Top.{WordsDone, Top, asks_doors, asks_link};

use crate::wordless::end_wordless;
use command_words::{Invocation, read_invocation};
use exit_status::{Status, note_usage};
use explain_commands::{explain_command, reach_command};
use io_edge::{Clock, Door, Doors, Entropy, Files, Link, Pause, Sink, Source};
use load_run::load_command;
use operator_commands::operator_command;
use row_keeper::Opener;
use std::alloc::Global;
use std::sync::Wait;
use std::thread::Threads;
use tail_base::Text;
use tailnet_commands::{pipe_command, policy_check};
use tailnet_serve::serve_command;

fn text_of(text: &Option<Text>) -> Option<&str>
    ensures value { option_map (λ t. t.now) result ≡ text.now }
{
    match text {
        Some(text) => Some(text.as_str()),
        None => None,
    }
}

/// Does what was asked, or leaves the line of words that are no command.
fn run_asked<
    R: Threads + Wait + Sync,
    I: Source,
    O: Sink,
    E: Sink,
    F: Files,
    P: Opener,
    C: Clock + Send + Drop,
    N: Entropy + Send,
    D: Doors,
    A: Pause + Sync,
    L: Link,
>(
    rt: &R,
    alloc: Global,
    asked: &Option<Invocation>,
    input: &mut I,
    output: &mut O,
    errors: &mut E,
    files: &mut F,
    opener: &mut P,
    clock: &mut C,
    entropy: &mut N,
    doors: &mut D,
    pause: &A,
    link: &mut L,
) -> Status
where
    <D::Door as Door>::In: Send,
    <D::Door as Door>::Out: Send,
    requires machine { HasLoadMachine asked.now }
    ensures ran { let at = outside I.left I.read_faults O.holds O.write_faults
        E.holds E.write_faults F.holds F.faults P.told P.asked P.faults C.answer N.word N.faults in
        let doors_at = doors_told D.coming D.finished D.asked D.faults in
        let link_at = link_told L.left L.read_faults L.holds L.write_faults L.asked in
        WordsDone asked.now result
        (at (doors_at doors.old) (link_at link.old)
        input.old output.old errors.old files.old opener.old clock.old entropy.old)
        (at (doors_at doors.new) (link_at link.new)
        input.new output.new errors.new files.new opener.new clock.new entropy.new) }
    ensures safe { StaysSafe P.told P.is_clean P.may_leave opener.old opener.new }
    ensures doors { asks_doors asked.now ≡ false → doors.new ≡ doors.old }
    ensures link { asks_link asked.now ≡ false → link.new ≡ link.old }
{
    match asked {
        // First, as code lies in the order of its calls, and the quickest command's is to lie together.
        Some(Invocation::PolicyCheck { file }) => {
            policy_check(alloc, file.as_str(), output, errors, files)
        }
        Some(Invocation::Pipe { settings, seed }) => {
            let (settings, seed) = (settings.as_str(), text_of(seed));
            pipe_command(
                alloc, settings, seed, input, output, errors, files, opener, clock, entropy,
            )
        }
        Some(Invocation::Serve { settings }) => serve_command(
            rt,
            alloc,
            settings.as_str(),
            errors,
            files,
            opener,
            clock,
            entropy,
            doors,
            pause,
        ),
        Some(Invocation::Load { machines, events }) => {
            load_command(alloc, *machines, *events, output, errors)
        }
        Some(Invocation::Operator(call)) => {
            operator_command(alloc, call, output, errors, files, link)
        }
        Some(Invocation::Explain { settings, flow }) => explain_command(
            alloc,
            settings.as_str(),
            flow,
            output,
            errors,
            files,
            opener,
            clock,
        ),
        Some(Invocation::Reach { settings }) => reach_command(
            alloc,
            settings.as_str(),
            output,
            errors,
            files,
            opener,
            clock,
        ),
        None => {
            note_usage(errors);
            Status::Usage
        }
    }
}

/// The whole program over its outside: the words after its name, and all that it may touch.
///
/// `pipe`, `serve`, `policy-check`, `load`, `explain`, `reach` and the operator's commands are those so far. `serve` alone
/// asks doors, starts threads and waits for its workers; the operator's commands alone ask the link, and
/// wait for it.
///
/// Where the opener tells rows, and a crash left these, or those that one event more would have made of
/// them, a crash at the end leaves those that it then tells, or those that one event more would have made
/// of them: nothing that was acknowledged is missing, and a change is there whole or not at all.
pub fn tailnetd<
    R: Threads + Wait + Sync,
    I: Source,
    O: Sink,
    E: Sink,
    F: Files,
    P: Opener,
    C: Clock + Send + Drop,
    N: Entropy + Send,
    D: Doors,
    A: Pause + Sync,
    L: Link,
>(
    rt: &R,
    alloc: Global,
    words: &[String],
    input: &mut I,
    output: &mut O,
    errors: &mut E,
    files: &mut F,
    opener: &mut P,
    clock: &mut C,
    entropy: &mut N,
    doors: &mut D,
    pause: &A,
    link: &mut L,
) -> Status
where
    <D::Door as Door>::In: Send,
    <D::Door as Door>::Out: Send,
    ensures outcome { let at = outside I.left I.read_faults O.holds O.write_faults
        E.holds E.write_faults F.holds F.faults P.told P.asked P.faults C.answer N.word N.faults in
        let doors_at = doors_told D.coming D.finished D.asked D.faults in
        let link_at = link_told L.left L.read_faults L.holds L.write_faults L.asked in
        Top (invocation_of (map string_bytes words.now)) result
        (at (doors_at doors.old) (link_at link.old)
        input.old output.old errors.old files.old opener.old clock.old entropy.old)
        (at (doors_at doors.new) (link_at link.new)
        input.new output.new errors.new files.new opener.new clock.new entropy.new) }
    ensures safe { StaysSafe P.told P.is_clean P.may_leave opener.old opener.new }
    ensures doors { asks_doors (invocation_of (map string_bytes words.now)) ≡ false
        → doors.new ≡ doors.old }
    ensures link { asks_link (invocation_of (map string_bytes words.now)) ≡ false
        → link.new ≡ link.old }
{
    let Ok(asked) = read_invocation(alloc, words) else {
        return end_wordless(alloc, errors);
    };
    run_asked(
        rt, alloc, &asked, input, output, errors, files, opener, clock, entropy, doors, pause, link,
    )
}
