//! What a run begins with.
ghost use Rattle.desk_front.specs.Wanted.{front_settings};
ghost use Rattle.settings.specs.Settings.{AreSettings};
ghost use Rattle.std.specs.Prelude.{◌≡◌, IfErr, IfOk};
ghost use Rattle.tailnet_commands.specs.Pipe.{AreSettingsOf, IsUnread};
ghost use Rattle.tailnet_serve.specs.Service.{limits_of};

use crate::worker::WorkLimits;
use desk_front::Front;
use exit_status::Ended;
use io_edge::Files;
use server_settings::{FileSettings, ServerFields};
use std::alloc::Global;
use tail_base::{Duplicate, NoMemory, Text};
use tailnet_commands::settings_file;

/// What settings say of serving, and the front under them.
#[derive(Drop)]
pub struct ServePlan {
    pub front: Front,
    /// The address at which doors are opened.
    pub listen: Text,
    /// How many.
    pub workers: u32,
    pub limits: WorkLimits,
}

/// The limits of workers.
fn limits_of(fields: &ServerFields) -> WorkLimits
    ensures value { result ≡ limits_of fields.now }
{
    WorkLimits {
        connections: fields.connections,
        requests: fields.requests,
        more: fields.poll_turns,
    }
}

/// The plan that settings make.
fn plan_of(alloc: Global, settings: &FileSettings) -> Result<ServePlan, NoMemory>
    ensures front { IfOk result (λ p. p.front ≡ front_settings settings.now.server) }
    ensures listen { IfOk result (λ p. p.listen ≡ settings.now.server.listen) }
    ensures workers { IfOk result (λ p. p.workers ≡ settings.now.tailnet.workers) }
    ensures limits { IfOk result (λ p. p.limits ≡ limits_of settings.now.server) }
    ensures rules { AreSettings settings.now.tailnet }
{
    let tailnet = settings.tailnet.fields();
    let fields = settings.server.fields();
    Ok(ServePlan {
        front: Front::new(alloc, &settings.server)?,
        listen: fields.listen.copy(alloc)?,
        workers: tailnet.workers,
        limits: limits_of(fields),
    })
}

/// The settings of the file, and the plan that they make.
pub(crate) fn prepare_serve<F: Files>(
    alloc: Global,
    files: &mut F,
    name: &str,
) -> Result<(FileSettings, ServePlan), Ended>
    ensures settings { IfOk result (λ p. AreSettingsOf (F.holds files.old name.now) p.0) }
    ensures front { IfOk result (λ p. p.1.front ≡ front_settings p.0.server) }
    ensures listen { IfOk result (λ p. p.1.listen ≡ p.0.server.listen) }
    ensures workers { IfOk result (λ p. p.1.workers ≡ p.0.tailnet.workers) }
    ensures limits { IfOk result (λ p. p.1.limits ≡ limits_of p.0.server) }
    ensures err { IfErr result (λ e. IsUnread e (F.holds files.old name.now)
        (F.faults files.old) (F.faults files.new)) }
{
    let settings = settings_file(alloc, files, name)?;
    match plan_of(alloc, &settings) {
        Ok(plan) => Ok((settings, plan)),
        Err(NoMemory) => Err(Ended::NoMemory),
    }
}
