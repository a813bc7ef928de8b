// What the source uses of std::time::Duration, in whole ns that fit a u64.
#![tactic(auto)]

ghost use Rattle.std.specs.Prelude.{◌≡◌};
ghost use Rattle.duration.specs.Seconds.{seconds, from_seconds};

use refusal::Refusal;

#[derive(Clone, Copy, Debug, PartialEq, Eq, PartialOrd, Ord)]
pub struct Duration {
    pub nanos: u64,
}

impl Duration {
    pub const ZERO: Duration = Duration { nanos: 0 };

    #[tactic(auto, using(crate::proofs::Std::seconds_is))]
    pub fn as_secs_f64(self) -> f64
        ensures { result ≡ seconds self }
    {
        std::time::Duration::from_nanos(self.nanos).as_secs_f64()
    }

    // The nearest ns; refused where it fits no u64, or secs is below 0.0 or no number.
    #[tactic(auto, using(crate::proofs::Std::refused_outside, crate::proofs::Std::held, crate::proofs::Std::not_held))]
    pub fn from_secs_f64(secs: f64) -> Result<Duration, Refusal>
        ensures { result ≡ from_seconds secs }
    {
        let span = std::time::Duration::try_from_secs_f64(secs).map_err(|_| Refusal::Arithmetic)?;
        let nanos = u64::try_from(span.as_nanos())?;
        Ok(Duration { nanos })
    }
}
