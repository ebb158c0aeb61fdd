// Answers as the structs of C.
ghost use Rattle.std.specs.Prelude.{◌≡◌};
ghost use Rattle.sonic_c.specs.Answers.{opened_of, changed_of, available_of, told_of, wrote_of, gave_of};

use crate::{Available, Changed, Gave, Opened, Told, Wrote};
use frames::Frames;
use stream::{NotOpened, Refusal, Refused, SonicStream};

// An opening's answer.
impl From<Result<SonicStream, NotOpened>> for Opened {
    ghost from_gives = { λ answer opened. opened ≡ opened_of answer };

    #[tactic(auto, unfolding(crate::specs::Answers::opened_of))]
    fn from(answer: Result<SonicStream, NotOpened>) -> Opened {
        match answer {
            Ok(stream) => Opened {
                refusal: Refusal::ACCEPTED,
                given: 0,
                stream,
            },
            Err(refused) => Opened {
                refusal: u32::from(refused.refusal),
                given: refused.given,
                stream: refused.stream,
            },
        }
    }
}

// A setting's answer.
impl From<Result<SonicStream, Refused>> for Changed {
    ghost from_gives = { λ answer changed. changed ≡ changed_of answer };

    #[tactic(auto, unfolding(crate::specs::Answers::changed_of))]
    fn from(answer: Result<SonicStream, Refused>) -> Changed {
        match answer {
            Ok(stream) => Changed {
                refusal: Refusal::ACCEPTED,
                stream,
            },
            Err(refused) => Changed {
                refusal: u32::from(refused.refusal),
                stream: refused.stream,
            },
        }
    }
}

// The answer of `available_frames` to a stream. No `From`: an accepted answer has no stream.
#[tactic(auto, unfolding(crate::specs::Answers::available_of))]
pub(crate) fn available_of(entering: SonicStream, answer: Result<Frames, Refused>) -> Available
    ensures { result ≡ available_of entering answer }
{
    match answer {
        Ok(frames) => Available {
            refusal: Refusal::ACCEPTED,
            frames,
            stream: entering,
        },
        Err(refused) => Available {
            refusal: u32::from(refused.refusal),
            frames: Frames(0),
            stream: refused.stream,
        },
    }
}

// What is told of an accepted write or flush.
impl From<sonic::Told> for Told {
    ghost from_gives = { λ told numbers. numbers ≡ told_of told };

    #[tactic(auto, unfolding(crate::specs::Answers::told_of, crate::specs::Answers::outcome_number))]
    fn from(told: sonic::Told) -> Told {
        Told {
            outcome: told.outcome as u32,
            passed: told.passed,
            sum: told.sum,
        }
    }
}

// The answer of a write or a flush.
impl From<Result<sonic::Wrote, Refused>> for Wrote {
    ghost from_gives = { λ answer wrote. wrote ≡ wrote_of answer };

    #[tactic(auto, unfolding(crate::specs::Answers::wrote_of))]
    fn from(answer: Result<sonic::Wrote, Refused>) -> Wrote {
        match answer {
            Ok(wrote) => Wrote {
                refusal: Refusal::ACCEPTED,
                told: Told::from(wrote.told),
                stream: wrote.stream,
            },
            Err(refused) => Wrote {
                refusal: u32::from(refused.refusal),
                told: Told {
                    outcome: 0,
                    passed: 0,
                    sum: 0,
                },
                stream: refused.stream,
            },
        }
    }
}

// A read's answer.
impl From<Result<sonic::Gave, Refused>> for Gave {
    ghost from_gives = { λ answer gave. gave ≡ gave_of answer };

    #[tactic(auto, unfolding(crate::specs::Answers::gave_of))]
    fn from(answer: Result<sonic::Gave, Refused>) -> Gave {
        match answer {
            Ok(gave) => Gave {
                refusal: Refusal::ACCEPTED,
                frames: gave.frames,
                stream: gave.stream,
            },
            Err(refused) => Gave {
                refusal: u32::from(refused.refusal),
                frames: Frames(0),
                stream: refused.stream,
            },
        }
    }
}
