// Replays stored runs: reads calls from standard input, makes each on the stream that the one before handed back, and
// prints the answers. The file `stdout` has those of the original, with the refusals of docs/RULES.md;
// docs/VECTORS.md says how it was made.
#![tactic(auto)]

ghost use Rattle.std.specs.Prelude.{◌≤◌, length};

mod replay;

use std::io::Read;

// More than the bytes of the text.
const TEXT: usize = 65536;

// The most samples of an area, of a write and of a read.
const ROOM: usize = 32768;

// Reads until the buffer is full, the input ends or a read fails. Gives how many bytes were read. Not `inputs::fill`,
// which is of the tool and keeps what stands ready. A `while`: how far a turn goes, the read says.
fn read_full<R: Read>(reader: &mut R, buf: &mut [u8]) -> usize
    ensures { result ≤ length buf.new }
{
    let mut done = 0;
    while done < buf.len() {
        match reader.read(&mut buf[done..]) {
            Ok(0) | Err(_) => break,
            Ok(n) => done += n,
        }
    }
    done
}

// Reads the text, which is shorter than the buffer, and replays it.
fn main(rt: HostRuntime) {
    let mut text = [0u8; TEXT];
    let n = read_full(&mut rt.reader(), &mut text);
    let mut samples = [0f32; ROOM];
    let mut input = [0i16; ROOM];
    let mut stage = [0i16; ROOM];
    let mut output = [0i16; ROOM];
    let mut scratch = [0i16; ROOM];
    replay::replay_all(
        &rt,
        &text[..n],
        &mut samples,
        &mut input,
        &mut stage,
        &mut output,
        &mut scratch,
    );
}
