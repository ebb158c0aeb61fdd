// What a run of the skim tool reads from, writes to and tells by. `kept` has readers and writers that keep the last
// error they met, `standing` tells where a stream stands in its file, and `naming` how long the name of a file may be.
#![tactic(auto)]

pub mod kept;
pub mod naming;
pub mod standing;

use kept::Kept;
use std::fs::File;
use std::io;
use std::io::{Read, Stdin, Stdout, Write};

// The input: standard input, or a file that was named.
#[derive(Drop)]
pub enum Incoming {
    Standard(Stdin),
    Named(File),
}

// An output: standard output, a file that was named, or none, which refuses what is written.
#[derive(Drop)]
pub enum Outgoing {
    Standard(Stdout),
    Named(File),
    Closed,
}

impl Read for Incoming {
    fn read(&mut self, buf: &mut [u8]) -> io::Result<usize> {
        match self {
            Incoming::Standard(stdin) => stdin.read(buf),
            Incoming::Named(file) => file.read(buf),
        }
    }
}

impl Write for Outgoing {
    fn write(&mut self, buf: &[u8]) -> io::Result<usize> {
        match self {
            Outgoing::Standard(stdout) => stdout.write(buf),
            Outgoing::Named(file) => file.write(buf),
            Outgoing::Closed => Err(io::Error::from(io::ErrorKind::NotConnected)),
        }
    }

    fn flush(&mut self) -> io::Result<()> {
        Ok(())
    }
}

// What a run is handed: the system, of which standard error and the clock are used; whether standard error is a
// terminal; the input, the output and the map.
#[derive(Drop)]
pub struct Ports {
    pub rt: HostRuntime,
    pub terminal: bool,
    pub input: Kept<Incoming>,
    pub output: Kept<Outgoing>,
    pub map: Kept<Outgoing>,
}
