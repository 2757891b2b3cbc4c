// Answers as numbers, for callers that have no enums: what the program, the C functions and the stored lists say.
#![tactic(auto)]

ghost use Rattle.std.specs.Prelude.{◌≡◌};
ghost use Rattle.yuv_error.specs.Numbers.{sized, error_numbers, numbers_of};

use yuv_error::{MismatchedSize, YuvError};

// What a refusal carries that carries nothing.
const NOTHING: MismatchedSize = MismatchedSize {
    expected: 0,
    received: 0,
};

// 0 for finished work, or a refusal's number; and what the refusal carries, 0 and 0 where it carries nothing.
#[derive(Clone, Copy, Debug, PartialEq, Eq, Hash)]
pub struct AnswerNumbers {
    pub number: u32,
    pub size: MismatchedSize,
}

// The number of a refusal, with its expected and received (RULES 7.1).
impl From<YuvError> for AnswerNumbers {
    ghost use Rattle.yuv_error.specs.Numbers.{sized, error_numbers};

    ghost from_gives = { λ e n. sized n.number n.size ≡ error_numbers e };

    fn from(e: YuvError) -> AnswerNumbers {
        let size = NOTHING;
        match e {
            YuvError::MalformedRequest => AnswerNumbers { number: 1, size },
            YuvError::ZeroBaseSize => AnswerNumbers { number: 2, size },
            YuvError::SizeTooLarge => AnswerNumbers { number: 3, size },
            YuvError::MatrixNotAccepted => AnswerNumbers { number: 4, size },
            YuvError::BandRowsMismatch => AnswerNumbers { number: 5, size },
            YuvError::DestinationSizeMismatch(size) => AnswerNumbers { number: 6, size },
            YuvError::MinimumStrideSizeMismatch(size) => AnswerNumbers { number: 7, size },
            YuvError::LumaPlaneMinimumSizeMismatch(size) => AnswerNumbers { number: 8, size },
            YuvError::LumaPlaneSizeMismatch(size) => AnswerNumbers { number: 9, size },
            YuvError::UPlaneMinimumSizeMismatch(size) => AnswerNumbers { number: 10, size },
            YuvError::VPlaneMinimumSizeMismatch(size) => AnswerNumbers { number: 11, size },
            YuvError::WholeRowsMismatch(size) => AnswerNumbers { number: 12, size },
            YuvError::CarriedRowSizeMismatch(size) => AnswerNumbers { number: 13, size },
            YuvError::WindowOutsideSource => AnswerNumbers { number: 14, size },
            YuvError::MalformedShiftFile => AnswerNumbers { number: 15, size },
            YuvError::OutputTooShort => AnswerNumbers { number: 16, size },
            YuvError::SummaryMismatch => AnswerNumbers { number: 17, size },
            YuvError::PartsMismatch => AnswerNumbers { number: 18, size },
            YuvError::MalformedY4m => AnswerNumbers { number: 19, size },
            YuvError::SettingsRecorded => AnswerNumbers { number: 20, size },
            YuvError::CameraMismatch => AnswerNumbers { number: 21, size },
            YuvError::BandStillWaiting => AnswerNumbers { number: 22, size },
            YuvError::CameraInUse => AnswerNumbers { number: 23, size },
        }
    }
}

// The same as a function, a public name of one line: what is written of it in contracts and proofs names it.
pub fn error_numbers(e: YuvError) -> AnswerNumbers
    ensures { sized result.number result.size ≡ error_numbers e }
{
    e.into()
}

// The same of an answer.
pub fn answer_numbers(answer: Result<(), YuvError>) -> AnswerNumbers
    ensures { sized result.number result.size ≡ numbers_of answer }
{
    match answer {
        Ok(()) => AnswerNumbers {
            number: 0,
            size: NOTHING,
        },
        Err(e) => e.into(),
    }
}
