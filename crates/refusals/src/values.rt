// Document 01's limits, and the values that the cases are made of.
use packets::PacketSize;

// Document 01's limits, as it writes them.
pub(crate) const LATEST: u64 = 4_000_000_000_000_000_000;

pub(crate) const TOO_LATE: u64 = 4_000_000_000_000_000_001;

pub(crate) const LARGEST: PacketSize = 9_999_999;

pub(crate) const TOO_LARGE: PacketSize = 10_000_000;

pub(crate) const NO_FLAG: u8 = 2;

pub(crate) const MOST_BYTES: u64 = 1_000_000_000_000;

pub(crate) const MOST_PACKETS: u64 = 1_000_000_000;

pub(crate) const MOST_COUNT: u64 = 1_000_000_000;

// The time that the controllers' spans are counted from, and times 100 ms and 250 ms + 1 ns after it.
pub(crate) const REFERENCE: u64 = 10_000_000_000;

pub(crate) const SOON: u64 = 10_100_000_000;

pub(crate) const COMPLETING: u64 = 10_250_000_001;

// A delay estimate that they do not hold.
pub(crate) const DELAY: f64 = 1.8e6;
