// The order of time differences: a derive would put the longer of two negative ones last.
ghost use Rattle.std.specs.Prelude.{refl};
ghost use Rattle.std.specs.Ordering.{as_partial_cmp};
ghost use Rattle.time.specs.Delta.{order};
ghost use Rattle.time.specs.Laws.{deltas_total, deltas_po, delta_ties};

use crate::TimeDelta;
use std::cmp::Ordering;

impl PartialOrd for TimeDelta {
    ghost partial_cmp = { as_partial_cmp order };

    ghost laws = { deltas_po };

    fn partial_cmp(&self, other: &TimeDelta) -> Option<Ordering> {
        Some(self.cmp(other))
    }
}

impl Ord for TimeDelta {
    ghost cmp = { order };

    ghost total = { deltas_total };

    ghost matches_partial_cmp = { λ a b. refl };

    ghost matches_eq = { delta_ties };

    #[tactic(auto, unfolding(crate::specs::Delta::order))]
    fn cmp(&self, other: &TimeDelta) -> Ordering {
        match (*self, *other) {
            (Self::NegativeInfinity, Self::NegativeInfinity) => Ordering::Equal,
            (Self::NegativeInfinity, _) => Ordering::Less,
            (_, Self::NegativeInfinity) => Ordering::Greater,
            (Self::PositiveInfinity, Self::PositiveInfinity) => Ordering::Equal,
            (Self::PositiveInfinity, _) => Ordering::Greater,
            (_, Self::PositiveInfinity) => Ordering::Less,
            (Self::Negative(_), Self::Positive(_)) => Ordering::Less, // also of two zeros
            (Self::Positive(_), Self::Negative(_)) => Ordering::Greater,
            (Self::Positive(this), Self::Positive(that)) => this.cmp(&that),
            (Self::Negative(this), Self::Negative(that)) => that.cmp(&this),
        }
    }
}
