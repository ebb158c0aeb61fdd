// A run, and its output: the head of a WAVE file before it and the sizes at its end, and a named file, which gets its
// name if the track is whole.
#![tactic(auto)]

pub mod files;

ghost use Rattle.reels.specs.Lent.{AreSized};
ghost use Rattle.skimming.specs.Skimming.{Underway};

use outputs::names::MadeError;
use outputs::{SizesError, names};
use plans::Plan;
use ports::kept::Kept;
use ports::{Outgoing, Ports};
use reels::reel::Reel;
use reels::state::RunState;
use reports::Files;
use say::Status;
use std::io::Error;
use std::{io, process};
use stream::Refusal;

// A run with its track ended, and why the sizes of that could not be set, if they could not.
#[derive(Clone, Copy)]
struct Ending {
    reel: Reel,
    unset: Option<Error>,
}

// The number of this process.
fn number(rt: &HostRuntime) -> u32 {
    process::id(rt.process())
}

// Gives the file that is written this name.
fn give_name(ports: &Ports, name: &str) -> io::Result<()> {
    match ports.output.get_ref() {
        Outgoing::Named(file) => names::keep(&ports.rt, number(&ports.rt), file, name),
        Outgoing::Standard(_) | Outgoing::Closed => Ok(()),
    }
}

// A run whose output failed so.
fn failed(ports: &mut Ports, reel: Reel, error: Error) -> Reel {
    ports.output.keep(error);
    reel.stopped(RunState::WriteFailed)
}

// Gives the file of a whole track its name, if it has one.
fn kept(ports: &mut Ports, reel: Reel, name: Option<&str>) -> Reel {
    match name {
        Some(name) if reports::is_whole(reel) => match give_name(ports, name) {
            Ok(()) => reel,
            Err(error) => failed(ports, reel, error),
        },
        _ => reel,
    }
}

// Ends a track whose head was written at `start`: sets its sizes, and gives a named file its name.
fn ended(
    ports: &mut Ports,
    reel: Reel,
    plan: Plan,
    name: Option<&str>,
    start: io::Result<u64>,
) -> Ending {
    let mut unset = None;
    if !reel.source.is_wave() || reel.has_failed() {
        return Ending { reel, unset };
    }
    let rt = ports.rt;
    let sizes = outputs::end(
        &rt,
        ports.output.get_mut(),
        reel.frames_out,
        start,
        plan.opening(),
    );
    let reel = match sizes {
        Ok(()) => kept(ports, reel, name),
        Err(SizesError::Unset(error)) if name.is_some() => failed(ports, reel, error),
        Err(SizesError::Unset(error)) => {
            unset = Some(error);
            reel
        }
        Err(SizesError::TooLong) => reel.stopped(RunState::Refused(Refusal::BadSize)),
    };
    Ending { reel, unset }
}

// Begins a track: the head of a WAVE file, if it is one.
fn begun(ports: &mut Ports, reel: Reel, plan: Plan) -> io::Result<()> {
    if !reel.source.is_wave() {
        return Ok(());
    }
    outputs::write_head(&mut ports.output, plan.opening())
}

// Ends the track of a run, and tells of it.
fn told(
    ports: &mut Ports,
    reel: Reel,
    plan: Plan,
    name: Option<&str>,
    start: io::Result<u64>,
    map: Option<u32>,
) -> Status {
    let done = ended(ports, reel, plan, name, start);
    let used = Files {
        map,
        named: name.is_some(),
        unset: done.unset,
    };
    reports::run(ports, done.reel, plan.opening(), used)
}

// Does a job whose output is open, in areas of these sizes, in the file of this name, if it has one. The map is begun
// behind the last call that may fail and is not told. The pages of a function's areas are all touched when it is
// entered: in its caller, those of all sizes would be.
#[inline(never)]
fn written<const STAGE: usize, const OUTPUT: usize>(
    ports: &mut Ports,
    reel: Reel,
    plan: Plan,
    name: Option<&str>,
) -> Status
    requires { Underway plan reel × AreSized plan STAGE OUTPUT }
{
    let rt = ports.rt;
    let start = outputs::place(&rt, ports.output.get_mut());
    if begun(ports, reel, plan).is_err() {
        return files::failed_output(ports, name.is_some());
    }
    let ready = maps::begin(reel, ports);
    let whole = lending::skim::<STAGE, OUTPUT>(ready, plan, ports);
    told(ports, whole, plan, name, start, reel.map)
}

// The same in areas of the sizes that its plan asks for.
fn sized(ports: &mut Ports, reel: Reel, plan: Plan, name: Option<&str>) -> Status
    requires { Underway plan reel }
{
    if plan.small {
        written::<{ plans::SMALL_STAGE_AREA }, { plans::SMALL_OUTPUT_AREA }>(
            ports, reel, plan, name,
        )
    } else {
        written::<{ plans::STAGE_AREA }, { plans::OUTPUT_AREA }>(ports, reel, plan, name)
    }
}

// Does a job in the file of this name. A file that was not kept is removed.
fn named(ports: &mut Ports, reel: Reel, plan: Plan, name: &str) -> Status
    requires { Underway plan reel }
{
    let rt = ports.rt;
    match names::open(&rt, number(&rt), name) {
        Ok(file) => {
            ports.output = Kept::new(Outgoing::Named(file));
            let status = sized(ports, reel, plan, Some(name));
            names::discard(&rt, number(&rt), name);
            status
        }
        Err(MadeError::Failed(error)) => files::failed_name(&rt, name, &error),
        Err(MadeError::Special) => files::special_file(&rt),
    }
}

// Does a job, in the file of this name if there is one, and answers its status. An empty name is none that is taken.
pub fn run(ports: &mut Ports, reel: Reel, plan: Plan, output: Option<&str>) -> Status
    requires { Underway plan reel }
{
    match output {
        None => sized(ports, reel, plan, None),
        Some(name) if name.is_empty() => files::no_name(&ports.rt),
        Some(name) => named(ports, reel, plan, name),
    }
}
