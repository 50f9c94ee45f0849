// Answers as document 01 tells them.
use checks::Refusal;

// An answer's number, and the value that comes with it where the call is not refused.
#[derive(Clone, Copy, Debug, PartialEq, Eq)]
pub struct Told {
    pub number: u32,
    pub value: u32,
}

// The number of a result: 200 plus it. Results are at most 328, so that nothing wraps.
pub fn number_of(res: u32) -> u32 {
    res.wrapping_add(200)
}

// A refusal carries nothing.
impl From<Refusal> for Told {
    fn from(kind: Refusal) -> Told {
        Told {
            number: u32::from(kind),
            value: 0,
        }
    }
}

// The answer of a call whose number tells its result.
impl From<Result<u32, Refusal>> for Told {
    fn from(answer: Result<u32, Refusal>) -> Told {
        match answer {
            Ok(value) => Told {
                number: number_of(value),
                value,
            },
            Err(kind) => Told::from(kind),
        }
    }
}

// Whether the number is that of a refusal.
pub fn is_refused(number: u32) -> bool {
    number != 0 && number < 100
}
