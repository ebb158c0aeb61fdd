// RIFF/WAVE files of 16-bit PCM, over lent bytes: reading copies no sample, and nothing is allocated.
// `specs/Wave.antt` says what is answered.
#![tactic(auto)]

ghost use Rattle.std.specs.Prelude.{◌≡◌, ◌+◌, ◌*◌, ◌≤◌, length};
ghost use Rattle.std.proofs.Math.Seq.{paste};
ghost use Rattle.wave.specs.Wave.{file_of, read_wave, sample_bytes, write_wave};

use chunks::{Chunk, Format};
use frames::{Frames, Samples};
use stream::{Refusal, SonicStream};

// A file's rate, channels and whole frames, and the byte at which their samples begin.
#[derive(Clone, Copy)]
pub struct WaveFile {
    pub rate: u32,
    pub channels: u32,
    pub frames: Frames,
    pub begin: usize,
}

// A refusal of `write_wave`, with the rate or the channels that were given, or 0. `given` is 0 where nothing was, as C
// has it.
#[derive(Clone, Copy, Debug, PartialEq, Eq)]
pub struct WaveRefused {
    pub refusal: Refusal,
    pub given: u32,
}

// A file with samples of this format, in `size` bytes from `begin` on.
fn file_of(format: Format, size: usize, begin: usize) -> WaveFile
    requires { (1 ≤ format.channels) × (format.channels ≤ 32) }
    ensures { result ≡ file_of format size begin }
{
    WaveFile {
        rate: format.rate,
        channels: format.channels,
        frames: Frames(size / (2 * (format.channels as usize))),
        begin,
    }
}

// Reads the chunks of a file up to its samples.
pub fn read_wave(bytes: &[u8]) -> Result<WaveFile, Refusal>
    ensures { result ≡ read_wave bytes.now }
{
    if !chunks::is_wave(bytes) {
        return Err(Refusal::NotWave);
    }
    let mut rest = &bytes[chunks::FILE_HEAD..];
    let mut format = None;
    loop {
        match chunks::read_chunk(rest, rest.len(), format)? {
            Chunk::Other(count, next) => {
                rest = &rest[count..];
                format = next;
            }
            Chunk::Data(size, format) => {
                return Ok(file_of(format, size, bytes.len() - rest.len() + 8));
            }
        }
    }
}

// Puts the bytes of samples behind the head.
fn put_samples(dest: &mut [u8], samples: &[i16])
    requires { 44 + 2 * length samples.now ≤ length dest.old }
    ensures { dest.new ≡ paste dest.old 44 (sample_bytes samples.now)
        (2 * length samples.now) }
{
    for (i, sample) in samples.iter().enumerate() {
        let bytes = pcm::pair(*sample).to_le_bytes();
        chunks::put(dest, chunks::HEAD_BYTES + 2 * i, bytes);
    }
}

// Writes a file of the samples' whole frames to the front of the destination.
pub fn write_wave(
    dest: &mut [u8],
    rate: u32,
    channels: u32,
    samples: &[i16],
) -> Result<usize, WaveRefused>
    ensures { (result ≡ (write_wave rate channels samples.now dest.old).answer)
        × (dest.new ≡ (write_wave rate channels samples.now dest.old).dest) }
{
    if stream::rate_bad(rate) {
        return Err(WaveRefused {
            refusal: Refusal::BadRate,
            given: rate,
        });
    }
    if stream::channels_bad(channels) {
        return Err(WaveRefused {
            refusal: Refusal::BadChannels,
            given: channels,
        });
    }
    let whole = Samples(samples.len()).frames(channels as usize);
    let count = whole.samples(channels as usize).0;
    if count > SonicStream::MAX_AREA || dest.len() < chunks::HEAD_BYTES + 2 * count {
        return Err(WaveRefused {
            refusal: Refusal::BadSize,
            given: 0,
        });
    }
    chunks::put_head(dest, rate, channels, (2 * count) as u32);
    put_samples(dest, &samples[..count]);
    Ok(chunks::HEAD_BYTES + 2 * count)
}
