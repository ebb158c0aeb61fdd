// What is told of files that cannot be opened, read or written, and the end of what is told of bad usage.
ghost use Rattle.std.specs.Prelude.{◌≡◌};
ghost use Rattle.say.specs.declared.status.Status.TheVariants.{BadUsage};

use ports::Ports;
use say::Status;
use std::io::Error;

// The end of every report of bad usage.
pub fn bad_usage(rt: &impl Eprint) -> Status
    ensures { result ≡ BadUsage }
{
    say::text(rt, "skim: --help tells the usage\nskim: status=2\n");
    Status::BadUsage
}

// A name that is empty or too long.
pub fn no_name(rt: &impl Eprint) -> Status
    ensures { result ≡ BadUsage }
{
    say::text(rt, "skim: OUT.wav needs a name of 1 to 4095 bytes\n");
    bad_usage(rt)
}

// A name that is that of a device or a pipe.
pub(crate) fn special_file(rt: &impl Eprint) -> Status {
    say::text(
        rt,
        "skim: OUT.wav is there and is no regular file: use > for it\n",
    );
    bad_usage(rt)
}

// A file of this name that cannot be opened, and what the system says.
pub fn failed_name(rt: &impl Eprint, name: &str, error: &Error) -> Status {
    say::text(rt, "skim: ");
    say::failure(rt, name, error);
    bad_usage(rt)
}

// An input that cannot be read from its beginning on, or an output that takes no head.
pub fn failed_input(ports: &Ports, named: bool) -> Status {
    reports::fail(
        &ports.rt,
        "skim: standard input",
        "skim: the input file",
        named,
        ports.input.error(),
    );
    failed(&ports.rt)
}

pub(crate) fn failed_output(ports: &Ports, named: bool) -> Status {
    reports::fail(
        &ports.rt,
        "skim: standard output",
        "skim: the output file",
        named,
        ports.output.error(),
    );
    failed(&ports.rt)
}

fn failed(rt: &impl Eprint) -> Status {
    say::text(rt, "skim: status=1\n");
    Status::Incomplete
}
