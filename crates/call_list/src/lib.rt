// Call lists: each line of the input is answered by a line of 46 columns (document 01, "Call
// lists").
#![tactic(auto)]

ghost use Rattle.std.specs.Prelude.{◌≡◌, ◌+◌, ◌-◌, ◌*◌, ◌<◌, ◌≤◌, [], ◌∷◌, ◌++◌, Ok, Some, IfNone, not, eqb, ltb, length, drop, option_map};
ghost use Rattle.std.specs.Float.{binary64};
ghost use Rattle.std.specs.Float.Ieee.{to_bits};
ghost use Rattle.refusal.specs.Outcome.{number};
ghost use Rattle.loss_controller.specs.Setters.{rate_of};
ghost use Rattle.buffer.specs.Laid.{laid};
ghost use Rattle.call_line.specs.Column.{column};
ghost use Rattle.call_line.specs.Line.{line_of};
ghost use Rattle.call_list.specs.Answer as Answers;
ghost use Rattle.call_list.specs.Feed as Feeding;
ghost use Rattle.call_list.specs.Pieces as Pieces;
ghost use Rattle.call_list.specs.Feeds as Feeds;

use bandwidth::Bitrate;
use call_line::{Call, LineRefusal};
use estimator::LossControllerState;
use loss_controller::LossController;
use packets::PacketResult;
use refusal::Refusal;
use std::marker::Model;

// The queue's places
pub const PLACES: usize = packets::MOST_PACKETS_IN_REPORT;

// A line's bytes that are kept: one more than the longest line in shape has.
pub const KEPT: usize = call_line::LINE_WIDTH + 1;

// An answer's columns: refusal, state, published, rate and inherent loss
const WIDTHS: [usize; 5] = [2, 2, 2, 20, 20];

pub const REFUSAL_WIDTH: usize = WIDTHS[0];

// Those after the refusal: where each ends, and the newline
const STATE_END: usize = WIDTHS[1];

const PUBLISHED_END: usize = STATE_END + WIDTHS[2];

const RATE_END: usize = PUBLISHED_END + WIDTHS[3];

const INHERENT_LOSS_END: usize = RATE_END + WIDTHS[4];

const TEXT: usize = INHERENT_LOSS_END + 1;

// The bytes of an answer
pub const ROW: usize = REFUSAL_WIDTH + TEXT;

// The bytes of a line that are kept: the first `len` of them, or all where it counts more.
#[derive(Clone, Copy)]
pub struct Line {
    pub bytes: [u8; KEPT],
    pub len: usize,
}

// The packets for the next report: the first `len` of them, or all where it counts more.
#[derive(Clone, Copy)]
pub struct Queue {
    pub packets: [PacketResult; PLACES],
    pub len: usize,
}

// What there is between two lines.
#[derive(Clone, Copy)]
pub struct Machine {
    pub controller: LossController,
    pub queue: Queue,
}

// What is kept from chunk to chunk: the line so far, of which no more is looked at than `KEPT` bytes,
// and what was left by the lines before it.
#[derive(Clone, Copy)]
pub struct State {
    pub line: Line,
    pub machine: Machine,
}

// What an answer reads of the controller: the rate and the inherent loss by the bits of their
// floats, no rate where none is published.
#[derive(Clone, Copy, PartialEq)]
struct Reading {
    state: LossControllerState,
    rate: Option<u64>,
    inherent_loss: u64,
}

// ---- the reading

#[tactic(auto, unfolding(crate::specs::Answer::reading_of))]
fn read(controller: &LossController) -> Reading
    ensures { result ≡ Answers.reading_of controller.now }
{
    let result = controller.loss_based_result();
    Reading {
        state: result.state,
        rate: result.bandwidth_estimate.map(Bitrate::to_bits),
        inherent_loss: float::to_bits(controller.inherent_loss()),
    }
}

// ---- the queue

impl Queue {
    // No packet.
    pub fn new() -> Queue
        ensures empty { Answers.packets_of result ≡ [] }
        ensures counted { result.len ≡ 0 }
    {
        let blank = PacketResult {
            local_send_time: 0,
            size: 0,
            lost: 0,
        };
        let packets = [blank; PLACES];
        Queue { packets, len: 0 }
    }

    pub fn as_slice(&self) -> &[PacketResult]
        ensures { result.now ≡ Answers.packets_of self.now }
    {
        &self.packets[..self.len.min(PLACES)]
    }

    fn is_full(&self) -> bool
        ensures { result ≡ not (ltb self.now.len Answers.places) }
    {
        self.len >= PLACES
    }

    fn push(&mut self, packet: PacketResult)
        requires { self.old.len < Answers.places }
        ensures pushed { Answers.packets_of self.new ≡ Answers.packets_of self.old ++ packet ∷ [] }
        ensures counted { self.new.len ≡ self.old.len + 1 }
    {
        self.packets[self.len] = packet;
        self.len += 1;
    }

    // The packets that were queued stay in their places.
    fn clear(&mut self)
        ensures { self.new ≡ record self.old { len = 0 } }
    {
        self.len = 0;
    }
}

// ---- a call

impl Machine {
    // A list without kind 8 runs by bytes.
    fn new() -> Machine
        ensures { Answers.machine_of result ≡ Answers.fresh_machine }
    {
        Machine {
            controller: LossController::new(),
            queue: Queue::new(),
        }
    }

    #[tactic(auto, unfolding(crate::specs::Answer::packet_after))]
    fn queue_packet(&mut self, packet: PacketResult) -> Result<(), Refusal>
        ensures controller { self.new.controller ≡ self.old.controller }
        ensures answered { Answers.answered result (Answers.machine_of self.new) ≡ Answers.packet_after (Answers.machine_of self.old) packet }
    {
        if self.queue.is_full() {
            return Err(Refusal::QueueFull);
        }
        self.queue.push(packet);
        Ok(())
    }

    // What a call of the controller answers. Refused, it leaves the controller.
    fn put(&mut self, called: Result<LossController, Refusal>) -> Result<(), Refusal>
        ensures { Answers.answered result (Answers.machine_of self.new) ≡ Answers.called (Answers.machine_of self.old) called }
    {
        self.controller = called?;
        Ok(())
    }

    fn report(&mut self, delay: Bitrate) -> Result<(), Refusal>
        ensures { Answers.answered result (Answers.machine_of self.new) ≡ Answers.reported (Answers.machine_of self.old) delay }
    {
        let called = lent::update_records(self.controller, self.queue.as_slice(), delay);
        self.queue.clear();
        self.put(called)
    }

    fn start(&mut self, use_bytes: bool) -> Result<(), Refusal>
        ensures { Answers.answered result (Answers.machine_of self.new) ≡ Answers.answered (Ok tt) (Answers.started use_bytes) }
    {
        self.controller = LossController::with_profile(use_bytes);
        self.queue.clear();
        Ok(())
    }

    #[tactic(auto, unfolding(crate::specs::Answer::call_after))]
    fn call(&mut self, call: Call) -> Result<(), Refusal>
        ensures { Answers.answered result (Answers.machine_of self.new) ≡ Answers.call_after (Answers.machine_of self.old) call }
    {
        let c = self.controller;
        match call {
            Call::Estimate(bits) => self.put(c.set_bandwidth_estimate(Bitrate::from_bits(bits))),
            Call::Acknowledged(bits) => {
                let rate = Bitrate::from_bits(bits);
                self.put(c.set_acknowledged_bitrate(rate))
            }
            Call::AlrOn(start) => self.put(c.set_alr_start_time(Some(start))),
            Call::AlrOff => self.put(c.set_alr_start_time(None)),
            Call::CapacityIs(bits) => {
                let rate = Bitrate::from_bits(bits);
                self.put(c.set_link_capacity_estimate(Some(rate)))
            }
            Call::CapacityNone => self.put(c.set_link_capacity_estimate(None)),
            Call::Packet { time, lost, size } => self.queue_packet(PacketResult {
                local_send_time: time,
                size,
                lost,
            }),
            Call::Report(bits) => self.report(Bitrate::from_bits(bits)),
            Call::Read => Ok(()),
            Call::StartBytes => self.start(true),
            Call::StartPackets => self.start(false),
        }
    }

    // The same, with what answers show after it. Most calls leave the controller alone, and then it is
    // not touched: it is large.
    #[tactic(auto, unfolding(crate::specs::Answer::call_after))]
    fn call_shown(&mut self, call: Call, shown: &mut Shown) -> Result<(), Refusal>
        requires { shown.old ≡ Answers.reading_of self.old.controller }
        ensures { (Answers.answered result (Answers.machine_of self.new) ≡ Answers.call_after (Answers.machine_of self.old) call) × (shown.new ≡ Answers.reading_of self.new.controller) }
    {
        match call {
            Call::Packet { time, lost, size } => self.queue_packet(PacketResult {
                local_send_time: time,
                size,
                lost,
            }),
            Call::Read => Ok(()),
            call => {
                let outcome = self.call(call);
                shown.renew(read(&self.controller));
                outcome
            }
        }
    }

    // The outcome of a line, which comes without its newline.
    #[tactic(auto, unfolding(crate::specs::Answer::after_of))]
    fn take_line(&mut self, line: &[u8]) -> Result<(), Refusal>
        ensures { Answers.answered result (Answers.machine_of self.new) ≡ Answers.after_of (Answers.machine_of self.old) (line_of line.now) }
    {
        match call_line::read_line(line) {
            Ok(call) => self.call(call),
            Err(LineRefusal::Report(refusal)) => {
                self.queue.clear();
                Err(refusal)
            }
            Err(LineRefusal::Other(refusal)) => Err(refusal),
        }
    }
}

// ---- the answer line

// A number in the columns of out from `from` up to `to`.
fn put_column(out: &mut [u8], from: usize, to: usize, n: u64)
    requires { (from ≤ to) × (to ≤ length out.old) }
    ensures { out.new ≡ laid from (column (to - from) n) out.old }
{
    call_line::write_number(&mut out[from..to], n);
}

// The columns after the refusal, and the newline.
fn text(reading: Reading) -> [u8; TEXT]
    ensures { result ≡ Answers.text_of reading }
{
    let mut text = [b'\n'; TEXT];
    let state = u8::from(reading.state) as u64;
    let published = reading.rate.is_some() as u64;
    let rate = reading.rate.unwrap_or(0);
    put_column(&mut text, 0, STATE_END, state);
    put_column(&mut text, STATE_END, PUBLISHED_END, published);
    put_column(&mut text, PUBLISHED_END, RATE_END, rate);
    put_column(
        &mut text,
        RATE_END,
        INHERENT_LOSS_END,
        reading.inherent_loss,
    );
    text
}

// What answers show, with its text, which is kept: it is seldom another.
#[derive(Drop)]
struct Shown {
    reading: Reading,
    text: [u8; TEXT],
}

impl Model for Shown {
    ghost use Rattle.std.specs.Prelude.{◌≡◌};
    ghost use Rattle.call_list.specs.declared.Reading.{Reading};
    ghost use Rattle.call_list.specs.Answer.{text_of};

    ghost Value = { Reading };

    ghost view = { λ s. s.reading };

    ghost invariant = { λ s. s.text ≡ text_of s.reading };
}

impl Shown {
    fn new(reading: Reading) -> Shown
        ensures { result ≡ reading }
    {
        let text = text(reading);
        Shown { reading, text }
    }

    fn renew(&mut self, reading: Reading)
        ensures { self.new ≡ reading }
    {
        if self.reading != reading {
            *self = Shown::new(reading);
        }
    }

    // An answer, with the number of its refusal.
    #[tactic(auto, unfolding(crate::specs::Answer::row_of))]
    fn put_row(&self, outcome: Result<(), Refusal>, out: &mut [u8])
        requires { length out.old ≡ Feeding.row_width }
        ensures { out.new ≡ Answers.row_of outcome self.now }
    {
        call_line::write_number(&mut out[..REFUSAL_WIDTH], refusal::number(&outcome) as u64);
        out[REFUSAL_WIDTH..].copy_from_slice(&self.text);
    }
}

// ---- a line that a chunk ends

#[tactic(auto, unfolding(crate::specs::Pieces::is_newline))]
fn newline(chunk: &[u8]) -> Option<usize>
    ensures { result ≡ Pieces.newline chunk.now }
{
    chunk.iter().position(|byte| *byte == b'\n')
}

impl Line {
    // No byte.
    pub fn new() -> Line
        ensures empty { Feeding.bytes_of result ≡ [] }
        ensures counted { result.len ≡ 0 }
    {
        let bytes = [0; KEPT];
        Line { bytes, len: 0 }
    }

    pub fn as_slice(&self) -> &[u8]
        ensures { result.now ≡ Feeding.bytes_of self.now }
    {
        &self.bytes[..self.len.min(KEPT)]
    }

    fn is_empty(&self) -> bool
        ensures { result ≡ eqb (length (Feeding.bytes_of self.now)) 0 }
    {
        self.len == 0
    }

    fn clear(&mut self)
        ensures { self.new ≡ record self.old { len = 0 } }
    {
        self.len = 0;
    }

    // Bytes that find no room are not kept.
    fn extend(&mut self, bytes: &[u8])
        ensures short { length (Feeding.bytes_of self.old) ≤ Feeding.kept }
        ensures kept { Feeding.bytes_of self.new ≡ Feeding.kept_of (Feeding.bytes_of self.old ++ bytes.now) }
        ensures counted { Feeding.Counted self.old → Feeding.Counted self.new }
        ensures full { Feeding.kept ≤ self.old.len → self.new ≡ self.old }
        ensures behind { drop self.new.len self.new.bytes ≡ drop self.new.len self.old.bytes }
    {
        if self.len >= KEPT {
            return;
        }
        let kept = bytes.len().min(KEPT - self.len);
        let end = self.len + kept;
        self.bytes[self.len..end].copy_from_slice(&bytes[..kept]);
        self.len = end;
    }
}

// Up to the newline, or to the end of the chunk where it has none. Where the line has ended it answers
// how much of the chunk that is, with the newline.
#[tactic(auto, unfolding(crate::specs::Pieces::line_end, crate::specs::Pieces::kept_on))]
pub fn read_on(line: &mut Line, chunk: &[u8]) -> Option<usize>
    ensures short { length (Feeding.bytes_of line.old) ≤ Feeding.kept }
    ensures ended { result ≡ Pieces.line_end chunk.now }
    ensures kept { Feeding.bytes_of line.new ≡ Pieces.kept_on (Feeding.bytes_of line.old) chunk.now }
    ensures counted { Feeding.Counted line.old → Feeding.Counted line.new }
    ensures full { Feeding.kept ≤ line.old.len → line.new ≡ line.old }
    ensures behind { drop line.new.len line.new.bytes ≡ drop line.new.len line.old.bytes }
{
    let newline = newline(chunk);
    line.extend(&chunk[..newline.unwrap_or(chunk.len())]);
    Some(newline? + 1)
}

// ---- lines that stand whole in a chunk

#[tactic(auto, using(std::proofs::lemmas::Bool::Decides::nat_tests), unfolding(crate::specs::Pieces::newline_behind))]
fn newline_behind(width: usize, chunk: &[u8]) -> bool
    ensures { result ≡ Pieces.newline_behind width chunk.now }
{
    chunk.len() > width && chunk[width] == b'\n'
}

// How wide the line at the start may be, by the newline behind it. None if it does not stand there whole
// or has neither width.
#[tactic(auto, unfolding(crate::specs::Pieces::standing))]
fn standing(chunk: &[u8]) -> Option<usize>
    ensures { result ≡ Pieces.standing chunk.now }
{
    if newline_behind(call_line::NARROW_WIDTH, chunk) {
        return Some(call_line::NARROW_WIDTH);
    }
    if newline_behind(call_line::LINE_WIDTH, chunk) {
        return Some(call_line::LINE_WIDTH);
    }
    None
}

// The call that the line at the start says, and the bytes of the line with its newline. None where it
// does not stand whole or is not taken. A line that is taken has no newline among its columns, so that
// they need not be searched for one.
#[tactic(auto, unfolding(crate::specs::Pieces::whole_call))]
fn whole_call(chunk: &[u8]) -> Option<(Call, usize)>
    ensures { result ≡ Pieces.whole_call chunk.now }
{
    let width = standing(chunk)?;
    let call = call_line::read_line(&chunk[..width]).ok()?;
    Some((call, width + 1))
}

// ---- chunks

impl State {
    // Before the first line.
    pub fn new() -> State
        ensures { Feeding.state_of result ≡ Feeding.fresh }
    {
        State {
            line: Line::new(),
            machine: Machine::new(),
        }
    }

    // The answer to the next line that ends in the chunk, and how much of the chunk that is.
    fn next_line(&mut self, chunk: &[u8], shown: &mut Shown) -> Option<(Result<(), Refusal>, usize)>
        requires counted { Feeding.Counted self.old.line }
        requires shown { shown.old ≡ Answers.reading_of self.old.machine.controller }
        ensures counted { Feeding.Counted self.new.line }
        ensures answers { Feeds.Answers result (Feeding.state_of self.new) shown.new (Feeding.state_of self.old) chunk.now }
    {
        if self.line.is_empty()
            && let Some((call, end)) = whole_call(chunk)
        {
            return Some((self.machine.call_shown(call, shown), end));
        }
        let end = read_on(&mut self.line, chunk)?;
        let outcome = self.machine.take_line(self.line.as_slice());
        self.line.clear();
        shown.renew(read(&self.machine.controller));
        Some((outcome, end))
    }

    fn feed_all(&mut self, chunk: &[u8], out: &mut [u8]) -> usize
        requires counted { Feeding.Counted self.old.line }
        requires room { Feeding.row_width * length chunk.now ≤ length out.old }
        ensures { Feeding.left (Some result) (Feeding.state_of self.new) out.new ≡ Feeding.left_by (Feeding.runs (Feeding.start_of (Feeding.state_of self.old)) chunk.now) out.old }
    {
        let mut shown = Shown::new(read(&self.machine.controller));
        let mut i = 0;
        let mut w = 0;
        while let Some((outcome, end)) = self.next_line(&chunk[i..], &mut shown) {
            shown.put_row(outcome, &mut out[w..w + ROW]);
            i += end;
            w += ROW;
        }
        w
    }

    // A chunk of the input, of any length, is taken whole: the answers to the lines that end in it stand
    // at the start of out, and how long they are is answered. None, and nothing changes, where the line
    // counts more than `KEPT` bytes or out has fewer than `ROW` bytes for each byte of the chunk.
    #[tactic(auto, using(crate::proofs::Feeding::line_no, crate::proofs::Feeding::room_no, crate::proofs::Feeding::room_yes))]
    pub fn feed(&mut self, chunk: &[u8], out: &mut [u8]) -> Option<usize>
        ensures left { Feeding.left result (Feeding.state_of self.new) out.new ≡ Feeding.fed (Feeding.state_of self.old) chunk.now out.old }
        ensures unmoved { IfNone result (self.new ≡ self.old) }
    {
        if self.line.len > KEPT {
            return None;
        }
        if out.len() / ROW < chunk.len() {
            return None;
        }
        Some(self.feed_all(chunk, out))
    }

    // The end of the input: a last line that lacks its newline is answered. None, and nothing changes,
    // where the line counts more than `KEPT` bytes or out has fewer than `ROW`.
    #[tactic(auto, using(crate::proofs::Feeding::none_closed))]
    pub fn finish(&mut self, out: &mut [u8]) -> Option<usize>
        ensures left { Feeding.left result (Feeding.state_of self.new) out.new ≡ Feeding.closed (Feeding.state_of self.old) out.old }
        ensures unmoved { IfNone result (self.new ≡ self.old) }
    {
        if self.line.len > KEPT || out.len() < ROW {
            return None;
        }
        if self.line.is_empty() {
            return Some(0);
        }
        let outcome = self.machine.take_line(self.line.as_slice());
        self.line.clear();
        Shown::new(read(&self.machine.controller)).put_row(outcome, &mut out[..ROW]);
        Some(ROW)
    }
}
