// Values as an answer has them: each field in sixteen digits, and a space between two.
use bandwidth::Bitrate;
use likelihood::ChannelParameters;
use refusal::Refusal;
use std::fmt::{self, Display, Formatter};
use stored_fields::Pair;

#[derive(Clone, Copy)]
pub(crate) struct Fields<T>(pub(crate) T);

impl Display for Fields<f64> {
    fn fmt<W: fmt::Write>(&self, f: &mut Formatter<W>) -> fmt::Result {
        let bits = float::to_bits(self.0);
        write!(f, "{bits:016x}")
    }
}

impl Display for Fields<Bitrate> {
    fn fmt<W: fmt::Write>(&self, f: &mut Formatter<W>) -> fmt::Result {
        Fields(self.0.bps).fmt(f)
    }
}

// A value that is stored as a pair
#[derive(Clone, Copy)]
pub(crate) struct InPair<T>(pub(crate) T);

impl<T: Copy + Into<Pair>> Display for InPair<T> {
    fn fmt<W: fmt::Write>(&self, f: &mut Formatter<W>) -> fmt::Result {
        let Pair { case, value } = self.0.into();
        write!(f, "{case:016x} {value:016x}")
    }
}

impl Display for Fields<ChannelParameters> {
    fn fmt<W: fmt::Write>(&self, f: &mut Formatter<W>) -> fmt::Result {
        let inherent_loss = Fields(self.0.inherent_loss);
        let rate = Fields(self.0.loss_limited_bandwidth);
        write!(f, "{inherent_loss} {rate}")
    }
}

// The refusal, and the value, which is zero beside one.
impl<T: Copy> Display for Fields<Result<T, Refusal>>
where
    Fields<T>: Display,
{
    fn fmt<W: fmt::Write>(&self, f: &mut Formatter<W>) -> fmt::Result {
        match self.0 {
            Ok(value) => write!(f, "{:016x} {}", 0, Fields(value)),
            Err(refusal) => write!(f, "{:016x} {:016x}", u8::from(refusal), 0),
        }
    }
}
