// Which of the two areas a call fills, and how far: `destination_of`, `specs/Filling.antt`.
ghost use Rattle.std.specs.Prelude.{◌≡◌, ◌/◌, ◌≤◌};
ghost use Rattle.fill.specs.Filling.{destination_of};

use frames::{Frames, Samples};
use stream::SonicStream;

// Where a call's frames go: behind `kept` frames of an area, which has room for `room` more; and how many there may be.
// No `stretch::Target`, whose place counts samples: contracts count the frames kept, and a copy asks for no stretch.
#[derive(Clone, Copy, Debug, PartialEq, Eq)]
pub struct Destination {
    pub kept: Frames,
    pub room: Frames,
    pub most: Frames,
}

// At pitch 1.0 that is the output, and there may be as many as the stage holds; at another it is the stage.
pub(crate) fn destination_of(stream: SonicStream, stage: Samples, output: Samples) -> Destination
    requires { (1 ≤ stream.channels) × (stream.tail.0 ≤ stage.0 / stream.channels)
        × (stream.waiting.0 ≤ output.0 / stream.channels) }
    ensures { result ≡ destination_of stream stage.0 output.0 }
{
    let channels = stream.channels as usize;
    let staged = stage.frames(channels);
    if stream.pitch == 1.0 {
        return Destination {
            kept: stream.waiting,
            room: Frames(output.frames(channels).0 - stream.waiting.0),
            most: staged,
        };
    }
    let free = Frames(staged.0 - stream.tail.0);
    Destination {
        kept: stream.tail,
        room: free,
        most: free,
    }
}
