// The stream of a job.
ghost use Rattle.std.specs.Prelude.{◌≡◌, true};
ghost use Rattle.stream.specs.Refusals.{is_in_order};
ghost use Rattle.stream.specs.Settings.{open_call};
ghost use Rattle.jobs.specs.Settings.{with_format, with_one, settled};

use crate::Job;
use stream::{NotOpened, Setting, SonicStream};

// The same job with the rate and channels of a WAVE file.
pub fn with_format(job: Job, rate: u32, channels: u32) -> Job
    ensures { result ≡ with_format job rate channels }
{
    Job {
        rate,
        channels,
        ..job
    }
}

// Opens the stream of a job.
pub fn open(job: Job) -> Result<SonicStream, NotOpened>
    ensures { result ≡ open_call job.rate job.channels job.ties }
{
    SonicStream::with_ties(job.rate, job.channels, job.ties)
}

// A stream with one setting changed.
fn set(stream: SonicStream, setting: Setting) -> SonicStream
    requires { is_in_order stream ≡ true }
    ensures in_order { is_in_order result ≡ true }
    ensures changed { result ≡ with_one stream setting }
{
    stream.set(setting).unwrap()
}

// A fresh stream with the job's settings. That a stream is in order stays a clause: C hands any stream value over, so
// that `SonicStream` has no ghost field.
pub fn settle(fresh: SonicStream, job: Job) -> SonicStream
    requires { is_in_order fresh ≡ true }
    ensures in_order { is_in_order result ≡ true }
    ensures settled { result ≡ settled fresh job }
{
    let faster = set(fresh, Setting::Speed(job.speed));
    let pitched = set(faster, Setting::Pitch(job.pitch));
    let louder = set(pitched, Setting::Volume(job.volume));
    set(louder, Setting::StepOver(job.step_over))
}
