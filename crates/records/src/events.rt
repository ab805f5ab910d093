// The bench's events: each record goes through the bridge, and what that answers is printed.
ghost use Rattle.std.specs.Prelude.{◌≡◌};

use crate::lines::Printer;
use crate::reading::{Head, Kind, Record};
use bridge::Outcome;
use descriptors::Part;
use rules::fields::SIGNATURE;
use rules::refusals::Refusal;
use rules::{Bridge, Stands};

const HEADER: usize = 4;

const SETUP: usize = 8;

// The rooms for a reply and for operations.
const REPLY: usize = 4096;

const OPERATIONS: usize = 11;

// Two digits, a reply with a space before each byte, and the line's end.
const LINE_MOST: usize = 2 + 3 * REPLY + 1;

// The bridge, what is lent to its events, and the rooms for a reply and for operations.
#[derive(Drop)]
pub(crate) struct Bench<'a> {
    pub(crate) bridge: Bridge,
    bytes: &'a mut [u8; 16],
    memory: &'a mut [u8],
    reply: [u8; REPLY],
    operations: [u16; OPERATIONS],
}

// What an event hands out: a reply, which stands in its room or in the memory, or operations, in theirs. No Option: a None would say that nothing is.
#[derive(Clone, Copy)]
enum Handed {
    Reply(Stands),
    Operations,
}

// How an event is answered, and with what.
#[derive(Clone, Copy)]
struct Answered {
    answer: Result<u16, Refusal>,
    handed: Handed,
}

// What a turn makes of a block: so many bytes of it are taken, or its first record is torn, or it stays as it is.
#[derive(Clone, Copy)]
pub(crate) enum Turned {
    Taken(usize),
    Torn,
    Rests,
}

impl<'a> Bench<'a> {
    ghost use Rattle.rules.specs.Held.{world};
    ghost use Rattle.records.specs.Kinds.{kind_number};
    ghost use Rattle.records.specs.Records.{event_of};
    ghost use Rattle.records.specs.Puts.{HasRoom, Puts};
    ghost use Rattle.records.specs.Printed.{world_of, changed_by, There, line_in, Does, Turns};

    pub(crate) fn new(bridge: Bridge, bytes: &'a mut [u8; 16], memory: &'a mut [u8]) -> Bench<'a>
        ensures same_references { (result.bytes.ghost_name ≡ bytes.entry.ghost_name) × (result.memory.ghost_name ≡ memory.entry.ghost_name) }
        ensures as_lent { world_of result ≡ world bridge bytes.old memory.old }
    {
        Bench {
            bridge,
            bytes,
            memory,
            reply: [0; REPLY],
            operations: [0; OPERATIONS],
        }
    }

    // Makes the change. What was handed out is still to be printed.
    fn done(&mut self, o: Outcome<Refusal>, handed: Handed) -> Answered
        ensures { (self.new ≡ changed_by o self.old) × (result ≡ record { answer = o.answer; handed = handed }) }
    {
        self.bridge = bridge::changed(o.change, self.bridge);
        Answered {
            answer: o.answer,
            handed,
        }
    }

    // A setup record holds 8 bytes, or all there are, and then host data.
    fn control(&mut self, payload: &[u8]) -> Answered
        ensures { Does self.old (event_of 2 payload.now) result self.new }
    {
        let (setup, host) = payload.split_at(payload.len().min(SETUP));
        let c = bridge::control(
            self.bridge,
            self.bytes,
            setup,
            host,
            self.memory,
            &mut self.reply,
        );
        self.done(c.outcome, Handed::Reply(c.stands))
    }

    fn packet(&mut self, payload: &[u8]) -> Answered
        ensures { Does self.old (event_of 3 payload.now) result self.new }
    {
        let o = bridge::packet(
            self.bridge,
            self.bytes[SIGNATURE],
            payload,
            &mut self.operations,
        );
        self.done(o, Handed::Operations)
    }

    // A report holds direction, failed and the amount.
    fn report(&mut self, payload: &[u8; 6]) -> Answered
        ensures { Does self.old (event_of 4 payload.now) result self.new }
    {
        let [direction, failed, a, b, c, d] = *payload;
        let amount = lent::long(a, b, c, d);
        let o = bridge::report(self.bridge, direction, failed, amount);
        self.done(o, Handed::Reply(Stands::InRoom))
    }

    #[tactic(auto, using(crate::proofs::Printing::report_six))]
    fn event(&mut self, whole: Record) -> Answered
        ensures { Does self.old (event_of (kind_number whole.entry.kind) whole.entry.payload.now) result self.new }
    {
        match whole.kind {
            Kind::BusReset => self.done(bridge::bus_reset(), Handed::Reply(Stands::InRoom)),
            Kind::Control => self.control(whole.payload),
            Kind::Packet => self.packet(whole.payload),
            // Six bytes, as a record of this kind holds: the fact of Record.
            Kind::Report => self.report(whole.payload.try_into().unwrap()),
            Kind::Status => {
                let o = bridge::status(self.bridge, &mut self.reply);
                self.done(o, Handed::Reply(Stands::InRoom))
            }
        }
    }

    #[tactic(auto, using(crate::proofs::Putting::reply_fits, crate::proofs::Putting::operations_fit))]
    fn print(&self, said: Answered, printer: &mut Printer)
        requires there { There self.now said }
        requires room { HasRoom printer.old }
        ensures { Puts printer.old (line_in self.now said) printer.new }
    {
        match said.handed {
            Handed::Reply(Stands::InRoom) => printer.put_line(said.answer, &self.reply),
            Handed::Reply(Stands::InMemory(start)) => {
                let length = said.answer.unwrap_or(0);
                let part = descriptors::find(self.memory, Part { start, length });
                printer.put_line(said.answer, part);
            }
            Handed::Operations => printer.put_line(said.answer, &self.operations),
        }
    }

    // The first record of a block, where it is whole and there is room for its line.
    #[tactic(auto, using(crate::proofs::Turning::no_room, crate::proofs::Turning::part_taken, crate::proofs::Turning::torn_taken, crate::proofs::Turning::whole_taken))]
    pub(crate) fn turn(&mut self, input: &[u8], last: bool, printer: &mut Printer) -> Turned
        ensures { Turns last self.old printer.old input.now result self.new printer.new }
    {
        if printer.room() < LINE_MOST {
            return Turned::Rests;
        }
        match Head::of(input, last) {
            Head::Whole(whole) => {
                let said = self.event(whole);
                self.print(said, printer);
                Turned::Taken(HEADER + whole.payload.len())
            }
            Head::Torn => {
                printer.put_text(b"torn\n");
                Turned::Torn
            }
            Head::Part => Turned::Rests,
        }
    }
}
