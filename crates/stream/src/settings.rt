// Settings, and the frames available.
ghost use Rattle.std.specs.Prelude.{◌≡◌};
ghost use Rattle.stream.specs.Settings.{set_call, available_call};

use crate::{Refusal, Refused, Setting, SonicStream};
use floats::settings::clamp;
use frames::Frames;

impl SonicStream {
    // Changes a setting: held to its range, a NaN to the lower end. A pitch, even the same, puts the positions to 0.
    pub fn set(self, setting: Setting) -> Result<SonicStream, Refused>
        ensures { result ≡ set_call self setting }
    {
        let Some(sample_period) = self.ordered() else {
            return Err(Refused {
                refusal: Refusal::BadStream,
                stream: self,
            });
        };
        let stream = SonicStream {
            sample_period,
            ..self
        };
        Ok(match setting {
            Setting::Speed(x) => SonicStream {
                speed: clamp(x, SonicStream::MIN_SPEED, SonicStream::MAX_SPEED),
                ..stream
            },
            Setting::Pitch(x) => SonicStream {
                pitch: clamp(x, SonicStream::MIN_PITCH, SonicStream::MAX_PITCH),
                old_rate_position: SonicStream::FRESH_POSITION,
                new_rate_position: SonicStream::FRESH_POSITION,
                ..stream
            },
            Setting::Volume(x) => SonicStream {
                volume: clamp(x, SonicStream::MIN_VOLUME, SonicStream::MAX_VOLUME),
                ..stream
            },
            Setting::StepOver(on) => SonicStream {
                step_over: on as u32,
                ..stream
            },
        })
    }

    // The frames ready to be read.
    pub fn available_frames(self) -> Result<Frames, Refused>
        ensures { result ≡ available_call self }
    {
        match self.ordered() {
            Some(_) => Ok(self.waiting),
            None => Err(Refused {
                refusal: Refusal::BadStream,
                stream: self,
            }),
        }
    }
}
