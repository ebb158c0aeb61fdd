// WAVE files for C: each function calls `wave` and hands its answer over as a struct. include/kelpladder.h has the
// declarations; `specs/Waves.antt` says what numbers stand for an answer.
ghost use Rattle.std.specs.Prelude.{◌≡◌};
ghost use Rattle.wave.specs.Wave.{read_wave, write_wave};
ghost use Rattle.sonic_c.specs.Waves.{wave_of, written_of};

use frames::Frames;
use stream::Refusal;
use wave::{WaveFile, WaveRefused};

// What reading answers.
#[repr(C)]
#[derive(Clone, Copy)]
pub struct Wave {
    pub refusal: u32,
    pub rate: u32,
    pub channels: u32,
    pub frames: Frames,
    pub begin: usize,
}

// What writing answers: the rate or the channels that were refused, or the bytes of the file.
#[repr(C)]
#[derive(Clone, Copy)]
pub struct WaveWritten {
    pub refusal: u32,
    pub given: u32,
    pub bytes: usize,
}

impl From<Result<WaveFile, Refusal>> for Wave {
    ghost from_gives = { λ answer told. told ≡ wave_of answer };

    #[tactic(auto, unfolding(crate::specs::Waves::wave_of))]
    fn from(answer: Result<WaveFile, Refusal>) -> Wave {
        match answer {
            Ok(file) => Wave {
                refusal: Refusal::ACCEPTED,
                rate: file.rate,
                channels: file.channels,
                frames: file.frames,
                begin: file.begin,
            },
            Err(refusal) => Wave {
                refusal: u32::from(refusal),
                rate: 0,
                channels: 0,
                frames: Frames(0),
                begin: 0,
            },
        }
    }
}

impl From<Result<usize, WaveRefused>> for WaveWritten {
    ghost from_gives = { λ answer told. told ≡ written_of answer };

    #[tactic(auto, unfolding(crate::specs::Waves::written_of))]
    fn from(answer: Result<usize, WaveRefused>) -> WaveWritten {
        match answer {
            Ok(bytes) => WaveWritten {
                refusal: Refusal::ACCEPTED,
                given: 0,
                bytes,
            },
            Err(refused) => WaveWritten {
                refusal: u32::from(refused.refusal),
                given: refused.given,
                bytes: 0,
            },
        }
    }
}

pub fn kelpladder_wave_read(bytes: &[u8]) -> Wave
    ensures { result ≡ wave_of (read_wave bytes.now) }
{
    Wave::from(wave::read_wave(bytes))
}

pub fn kelpladder_wave_write(
    dest: &mut [u8],
    rate: u32,
    channels: u32,
    samples: &[i16],
) -> WaveWritten
    ensures { (result ≡ written_of (write_wave rate channels samples.now dest.old).answer)
        × (dest.new ≡ (write_wave rate channels samples.now dest.old).dest) }
{
    WaveWritten::from(wave::write_wave(dest, rate, channels, samples))
}
