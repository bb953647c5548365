//! The command `pipe`.
ghost use Rattle.desk_front.specs.Wanted.{front_settings};
ghost use Rattle.std.specs.Prelude.{◌≡◌, IfErr, IfOk, option_map};
ghost use Rattle.io_edge.specs.Linked.{LinkTold};
ghost use Rattle.tailnet_commands.specs.Outside.{DoorsTold, outside};
ghost use Rattle.tailnet_commands.specs.Pipe.{AreSettingsOf, IsSettingsFile, IsUnread, Outcome};
ghost use Rattle.tailnet_desk.specs.Crashes.{StaysSafe};

use crate::limits::FILE_LIMIT;
use crate::running::run;
use desk_front::Front;
use exit_status::{Ended, Status, note, status_of};
use io_edge::{Clock, Entropy, FileFault, Files, Sink, Source};
use row_keeper::Opener;
use server_settings::FileSettings;
use std::alloc::Global;
use tail_base::{Failure, NoMemory, Text};
use tail_words::read_settings;

/// The settings of a file.
pub fn settings_file<F: Files>(
    alloc: Global,
    files: &mut F,
    name: &str,
) -> Result<FileSettings, Ended>
    ensures read { IsSettingsFile result (F.holds files.old name.now)
        (F.faults files.old) (F.faults files.new) }
{
    let text = match files.read(alloc, name, FILE_LIMIT) {
        Ok(text) => text,
        Err(FileFault::Failed) => return Err(Ended::FileFault),
        Err(FileFault::TooLarge) => return Err(Ended::TooLarge),
        Err(FileFault::NoMemory) => return Err(Ended::NoMemory),
    };
    match read_settings(alloc, &text) {
        Ok(settings) => Ok(settings),
        Err(Failure::Fault(fault)) => Err(Ended::Settings {
            rule: fault.rule,
            key: fault.key,
        }),
        Err(Failure::NoMemory) => Err(Ended::NoMemory),
    }
}

/// A copy of the seed, if there is one.
fn seed_text(alloc: Global, seed: Option<&str>) -> Result<Option<Text>, NoMemory>
    ensures value { IfOk result (λ text. text ≡ option_map (λ t. t.now) seed.entry) }
{
    match seed {
        Some(text) => Ok(Some(Text::from_str(alloc, text)?)),
        None => Ok(None),
    }
}

/// What a run begins with.
#[derive(Drop)]
struct Prepared {
    settings: FileSettings,
    front: Front,
    seed: Option<Text>,
}

/// A copy of the seed, the settings of the file, and the front under them.
fn prepare<F: Files>(
    alloc: Global,
    files: &mut F,
    name: &str,
    seed: Option<&str>,
) -> Result<Prepared, Ended>
    ensures settings { IfOk result (λ p. AreSettingsOf (F.holds files.old name.now) p.settings) }
    ensures front { IfOk result (λ p. p.front ≡ front_settings p.settings.server) }
    ensures seed { IfOk result (λ p. p.seed ≡ option_map (λ t. t.now) seed.entry) }
    ensures err { IfErr result (λ e. IsUnread e (F.holds files.old name.now)
        (F.faults files.old) (F.faults files.new)) }
{
    let Ok(seed) = seed_text(alloc, seed) else {
        return Err(Ended::NoMemory);
    };
    let settings = settings_file(alloc, files, name)?;
    let Ok(front) = Front::new(alloc, &settings.server) else {
        return Err(Ended::NoMemory);
    };
    Ok(Prepared {
        settings,
        front,
        seed,
    })
}

/// All that `pipe` does once its words are read: it reads the settings file, opens a desk over what
/// the opener keeps, hands it the seed, if there is one, and serves the requests of the input on the
/// output. The line of its status goes to errors. It has no doors and no link.
///
/// Where the opener tells rows, and a crash left these, or those that one event more would have made of
/// them, a crash at the end leaves those that it then tells, or those that one event more would have made
/// of them: nothing that was acknowledged is missing, and a change is there whole or not at all.
// Not inlined, so that the stack of a smaller command has no room for this one.
#[inline(never)]
pub fn pipe_command<I: Source, O: Sink, E: Sink, F: Files, P: Opener, C: Clock, N: Entropy>(
    alloc: Global,
    settings: &str,
    seed: Option<&str>,
    input: &mut I,
    output: &mut O,
    errors: &mut E,
    files: &mut F,
    opener: &mut P,
    clock: &mut C,
    entropy: &mut N,
) -> Status
    ensures outcome { (doors : DoorsTold) (link : LinkTold) →
        let at = outside I.left I.read_faults O.holds O.write_faults E.holds E.write_faults
        F.holds F.faults P.told P.asked P.faults C.answer N.word N.faults doors link in
        Outcome result settings.now (option_map (λ t. t.now) seed.entry)
        (at input.old output.old errors.old files.old opener.old clock.old entropy.old)
        (at input.new output.new errors.new files.new opener.new clock.new entropy.new) }
    ensures safe { StaysSafe P.told P.is_clean P.may_leave opener.old opener.new }
{
    let ended = match prepare(alloc, files, settings, seed) {
        Ok(
            Prepared {
                settings,
                front,
                seed,
            },
        ) => run(
            alloc, &front, settings, seed, input, output, opener, clock, entropy,
        ),
        Err(ended) => ended,
    };
    note(alloc, errors, &ended);
    status_of(&ended)
}
