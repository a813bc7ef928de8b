// The packets of a report, lent in three columns, and their totals: `PacketResult` and
// `PacketResultsSummary` of loss_controller.rs. Instants are numbers of ns.
#![tactic(auto)]

ghost use Rattle.std.specs.Prelude.{◌≡◌, ◌<◌, true};
ghost use Rattle.packets.specs.Summary.{most_packets, check_time, check_columns, check_packet, add_packet, is_of_report, added, summary_of};

use refusal::Refusal;

// A packet's bytes.
pub type PacketSize = u32;

pub const MOST_PACKETS_IN_REPORT: usize = 4_096;

// A larger size is refused (Q-10).
pub const LARGEST_PACKET: u64 = 9_999_999;

// 4 * 10^18 ns
pub const LATEST_TIME: u64 = 4_000_000_000_000_000_000;

// What the trait `PacketResult` tells of a packet. `lost` is 1 or 0; any other flag is refused.
#[derive(Clone, Copy, Default)]
pub struct PacketResult {
    pub local_send_time: u64,
    pub size: PacketSize,
    pub lost: u8,
}

// The totals of a report. The Rust's `first_send_time` is never read, and is left out.
#[derive(Clone, Copy)]
pub struct PacketResultsSummary {
    pub num_packets: u64,
    pub num_lost_packets: u64,
    pub total_size: u64,
    pub lost_size: u64,
    pub last_send_time: u64,
}

// Refused above 4 * 10^18 ns.
#[tactic(auto, unfolding(crate::specs::Summary::check_time))]
pub fn check_time(time: u64) -> Result<(), Refusal>
    ensures { result ≡ check_time time }
{
    if time > LATEST_TIME {
        return Err(Refusal::Time);
    }
    Ok(())
}

// Columns of unequal length go before too many packets.
#[tactic(auto, using(std::proofs::lemmas::Bool::Decides::nat_tests), unfolding(crate::specs::Summary::check_columns))]
pub fn check_columns(times: &[u64], sizes: &[PacketSize], flags: &[u8]) -> Result<(), Refusal>
    ensures { result ≡ check_columns times.now sizes.now flags.now }
{
    if sizes.len() != times.len() || flags.len() != times.len() {
        return Err(Refusal::UnequalColumns);
    }
    if times.len() > MOST_PACKETS_IN_REPORT {
        return Err(Refusal::TooManyPackets);
    }
    Ok(())
}

impl PacketResult {
    // Its time, then its size, then its flag.
    #[tactic(auto, using(std::proofs::lemmas::Bool::Decides::nat_tests), unfolding(crate::specs::Summary::check_time, crate::specs::Summary::check_packet))]
    pub fn check(self) -> Result<(), Refusal>
        ensures { result ≡ check_packet self }
    {
        check_time(self.local_send_time)?;
        if u64::from(self.size) > LARGEST_PACKET {
            return Err(Refusal::PacketSize);
        }
        if self.lost > 1 {
            return Err(Refusal::Flag);
        }
        Ok(())
    }
}

impl PacketResultsSummary {
    // Of no packets.
    pub const EMPTY: PacketResultsSummary = PacketResultsSummary {
        num_packets: 0,
        num_lost_packets: 0,
        total_size: 0,
        lost_size: 0,
        last_send_time: 0,
    };

    // Whether some report has these totals.
    #[tactic(auto, using(std::proofs::lemmas::Bool::Decides::nat_tests), unfolding(crate::specs::Summary::is_of_report))]
    pub fn is_of_report(self) -> bool
        ensures { result ≡ is_of_report self }
    {
        self.num_packets <= MOST_PACKETS_IN_REPORT as u64
            && self.num_lost_packets <= self.num_packets
            && self.lost_size <= self.total_size
            && self.lost_size <= LARGEST_PACKET * self.num_lost_packets
            && self.total_size - self.lost_size
                <= LARGEST_PACKET * (self.num_packets - self.num_lost_packets)
            && (self.num_packets > 0 || self.last_send_time == 0)
    }

    // One packet more.
    #[tactic(auto, using(std::proofs::lemmas::Bool::Decides::nat_tests), unfolding(crate::specs::Summary::add_packet))]
    fn add_packet(self, packet: PacketResult) -> Result<PacketResultsSummary, Refusal>
        requires { (is_of_report self ≡ true) × (self.num_packets < most_packets) }
        ensures { result ≡ add_packet self packet }
    {
        packet.check()?;
        let lost = u64::from(packet.lost);
        let size = u64::from(packet.size);
        Ok(PacketResultsSummary {
            num_packets: self.num_packets + 1,
            num_lost_packets: self.num_lost_packets + lost,
            total_size: self.total_size + size,
            lost_size: self.lost_size + size * lost,
            last_send_time: self.last_send_time.max(packet.local_send_time),
        })
    }

    // The same for a caller's own loop: refused where the totals are no report's that has room for
    // it.
    #[tactic(auto, using(std::proofs::lemmas::Bool::Decides::nat_tests), unfolding(crate::specs::Summary::added))]
    pub fn add(self, packet: PacketResult) -> Result<PacketResultsSummary, Refusal>
        ensures { result ≡ added self packet }
    {
        if !self.is_of_report() || self.num_packets >= MOST_PACKETS_IN_REPORT as u64 {
            return Err(Refusal::TooManyPackets);
        }
        self.add_packet(packet)
    }
}

// PacketResultsSummary::from. Without packets it is EMPTY, where Rust has none.
#[tactic(auto, unfolding(crate::specs::Summary::summary_of))]
pub fn summary(
    times: &[u64],
    sizes: &[PacketSize],
    flags: &[u8],
) -> Result<PacketResultsSummary, Refusal>
    ensures { result ≡ summary_of times.now sizes.now flags.now }
{
    check_columns(times, sizes, flags)?;
    let mut summary = PacketResultsSummary::EMPTY;
    for ((time, size), flag) in times.iter().zip(sizes).zip(flags) {
        let packet = PacketResult {
            local_send_time: *time,
            size: *size,
            lost: *flag,
        };
        summary = summary.add_packet(packet)?;
    }
    Ok(summary)
}
