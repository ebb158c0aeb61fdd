// skim: changes speed, pitch and volume of 16-bit little-endian PCM or of a WAVE file, from standard input to standard
// output, or from one named file to another. A thin program: `jobs` reads what is asked for, `heads` what the input is,
// `plans` finds the room for it, `running` does it in the areas of `lending`, and `tracks` sees to the output, with
// what `ports` hands them. `progress` tells how far the run is, `reports` what became of the frames, `usage` of the
// arguments, all by `say`.
//
// It ends with the status in which the last line on standard error ends. With `--status` that is written to
// descriptor 3 too, from which tools/skim.sh takes it.
#![tactic(auto)]

ghost use Rattle.std.specs.Prelude.{ℕ, Option};
ghost use Rattle.reels.specs.Reels.{fresh_reel};
ghost use Rattle.skimming.specs.Skimming.{Underway};

use heads::{BadInput, Input};
use inputs::Source;
use jobs::{Asked, Job};
use plans::Plan;
use ports::kept::Kept;
use ports::standing::Stream;
use ports::{Incoming, Outgoing, Ports, naming};
use reels::reel::Reel;
use say::{Status, waves};
use std::fs::{File, OpenOptions};
use std::io::{IsTerminal, Seek, SeekFrom, Write};
use std::os::fd::AsRawFd;
use std::process::ExitCode;
use std::rt::Files;
use std::{fs, io};
use stream::SonicStream;
use tracks::files;

// The descriptor of standard error, the last of the standard streams.
const STDERR_FILENO: i32 = 2;

// Opens the file that is named at this place, to write it anew. Where the input is named standard input may be closed:
// then the file is opened once more, while its first descriptor stands at 0.
fn create_map(rt: &HostRuntime, job: Job, place: usize) -> io::Result<File> {
    let mut text = [0u8; naming::PAST];
    let name = jobs::name(rt, place, &mut text)?;
    let file = fs::create(rt, name)?;
    if job.input.is_some() && file.as_raw_fd() == 0 {
        return fs::create(rt, name);
    }
    Ok(file)
}

// The descriptor of the map, if one is wanted; or the status of one that cannot be written, and then it is told why. A
// descriptor of 0 to 2 would be that of a standard stream that was closed: what is told would go into the map.
fn open_map(ports: &mut Ports, job: Job) -> Result<Option<u32>, Status> {
    let Some(place) = job.map else {
        return Ok(None);
    };
    match create_map(&ports.rt, job, place) {
        Ok(file) => {
            let fd = file.as_raw_fd();
            if fd <= STDERR_FILENO {
                drop(file);
                usage::closed_stream(&ports.rt);
                return Err(files::bad_usage(&ports.rt));
            }
            ports.map = Kept::new(Outgoing::Named(file));
            Ok(Some(fd as u32))
        }
        Err(error) => {
            say::failure(&ports.rt, "skim: --map", &error);
            Err(files::bad_usage(&ports.rt))
        }
    }
}

// Does a job in a stream that has its settings, with the map, and tells of it.
fn written(ports: &mut Ports, job: Job, reel: Reel, plan: Plan) -> Status
    requires { Underway plan reel }
{
    let Some(place) = job.output else {
        return tracks::run(ports, reel, plan, None);
    };
    let mut text = [0u8; naming::PAST];
    match jobs::name(&ports.rt, place, &mut text) {
        Ok(name) => tracks::run(ports, reel, plan, Some(name)),
        Err(error) if error.raw_os_error().is_none() => {
            files::failed_name(&ports.rt, "OUT.wav", &error)
        }
        Err(_) => files::no_name(&ports.rt),
    }
}

// Does a job in a stream that has its settings, and tells of it.
fn mapped(ports: &mut Ports, job: Job, stream: SonicStream, source: Source, plan: Plan) -> Status
    requires { (map : Option ℕ) → Underway plan (fresh_reel stream source map) }
{
    match open_map(ports, job) {
        Ok(map) => written(ports, job, Reel::new(stream, source, map), plan),
        Err(status) => status,
    }
}

// Does a job on this input, and tells of it.
fn served(ports: &mut Ports, job: Job, source: Source) -> Status {
    let fresh = match jobs::open(job) {
        Ok(fresh) => fresh,
        Err(not_opened) => {
            say::refused(&ports.rt, not_opened.refusal);
            return files::bad_usage(&ports.rt);
        }
    };
    let stream = jobs::settle(fresh, job);
    let Some(plan) = plans::serve(stream) else {
        usage::no_room(&ports.rt);
        return files::bad_usage(&ports.rt);
    };
    mapped(ports, job, stream, source, plan)
}

// Does a job whose input is open, with so many bytes left, if that is known.
fn begun(ports: &mut Ports, job: Job, left: Option<usize>) -> Status {
    let named = job.input.is_some();
    match heads::begin(&mut ports.input, left, named) {
        Ok(Input::Raw(source)) => served(ports, job, source),
        Ok(Input::Wave(source, format)) => {
            waves::say_wave(&ports.rt, format, source.size());
            let job = jobs::with_format(job, format.rate, format.channels);
            served(ports, job, source)
        }
        Err(BadInput::Refused(refusal, format, size)) => {
            waves::say_refused(&ports.rt, refusal, format, size as u64)
        }
        Err(BadInput::Failed) => files::failed_input(ports, named),
    }
}

// Does a job whose input is the file of this name.
fn named(ports: &mut Ports, job: Job, name: &str) -> Status {
    match heads::open(&ports.rt, name) {
        Ok(mut file) => {
            let left = heads::file_left(&mut file);
            ports.input = Kept::new(Incoming::Named(file));
            begun(ports, job, left)
        }
        Err(error) => files::failed_name(&ports.rt, name, &error),
    }
}

// Does a job and tells of it.
fn run(ports: &mut Ports, job: Job) -> Status {
    if job.raw {
        return served(ports, job, Source::RAW);
    }
    let Some(place) = job.input else {
        let left = heads::input_left(&ports.rt);
        return begun(ports, job, left);
    };
    let mut text = [0u8; naming::PAST];
    match jobs::name(&ports.rt, place, &mut text) {
        Ok(name) => named(ports, job, name),
        Err(error) => files::failed_name(&ports.rt, "IN.wav", &error),
    }
}

// What a run is handed before a file is open.
fn standard_ports(rt: &HostRuntime) -> Ports {
    Ports {
        rt: *rt,
        terminal: rt.stderr().is_terminal(),
        input: Kept::new(Incoming::Standard(rt.stdin())),
        output: Kept::new(Outgoing::Standard(rt.stdout())),
        map: Kept::new(Outgoing::Closed),
    }
}

// Does what is asked for.
fn answer(rt: &HostRuntime, with_status: bool) -> Status {
    match jobs::read(rt, with_status) {
        Ok(Asked::Help) => {
            usage::usage(rt);
            Status::Fine
        }
        Ok(Asked::Version) => {
            usage::version(rt);
            Status::Fine
        }
        Ok(Asked::Run(job)) => run(&mut standard_ports(rt), job),
        Err(misuse) => {
            usage::wrong_argument(rt, misuse);
            files::bad_usage(rt)
        }
    }
}

// Writes the status to its descriptor, if that may be written: where it stands, or at the end if it appends.
fn tell_status(files: &impl Files, status: u8) {
    let Some(place) = Stream::Status.place(files) else {
        return;
    };
    if !place.writes {
        return;
    }
    let mut options = OpenOptions::new();
    options.write(true).append(place.appends);
    if let Ok(mut file) = options.open(files, Stream::Status.name()) {
        let _ = file.seek(SeekFrom::Start(place.at));
        let _ = write!(file, "{status}");
    }
}

fn main(rt: HostRuntime) -> ExitCode {
    let with_status = jobs::wants_status(&rt);
    let status = u8::from(answer(&rt, with_status));
    if with_status {
        tell_status(&rt, status);
    }
    ExitCode::from(status)
}
