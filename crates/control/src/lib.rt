// Control requests: those that are granted are done, and descriptors are told from where they stand.
#![tactic(auto)]

ghost use Rattle.std.specs.Prelude.{◌≡◌, ◌<◌, ◌^◌, cond, length, take, drop, Ok};
ghost use Rattle.outcomes.specs.Outcomes.{outcome, left_by};
ghost use Rattle.control.specs.Standing.{left_where};
ghost use Rattle.rules.specs.Words.{over, one};
ghost use Rattle.rules.specs.Held.{world};
ghost use Rattle.rules.specs.Requests.{Known, in_memory, halt_of, bytes_after, memory_after};
ghost use Rattle.rules.specs.Step.{Control};
ghost use Rattle.rules.specs.Promise.{leaves, served};

mod recovery;

use outcomes::{Outcome, done};
use requests::Granted;
use rules::addresses::StringIndex;
use rules::fields::{BULK_OUT, FIRST_STRING, MEMORY};
use rules::refusals::Refusal;
use rules::{Bridge, Change, Request, Setup, Stands};

// The outcome of a control request, and where its reply stands.
#[derive(Clone, Copy)]
pub struct ControlOutcome {
    pub outcome: Outcome<Refusal>,
    pub stands: Stands,
}

// The host's bytes stand at their addresses, of the memory or of the configuration. A call for each: of two slices lent for writing one is chosen only in
// a function of its own, whose contract tells what each becomes, and that is longer.
fn load(s: Setup, host: &[u8], bytes: &mut [u8], memory: &mut [u8])
    ensures { (bytes.new ≡ bytes_after (Known Request.LoadConfigData) s host.now bytes.old) × (memory.new ≡ memory_after (Known Request.LoadConfigData) s host.now memory.old) }
{
    if s.value == MEMORY {
        lent::copy(memory, s.index as usize, host);
    } else {
        lent::copy(bytes, s.index as usize, host);
    }
}

// The bytes at the addresses from start on.
fn read(s: Setup, bytes: &[u8], memory: &[u8], reply: &mut [u8])
    ensures { reply.new ≡ over reply.old 0 (take s.length (drop s.index (cond (in_memory s.value) memory.now bytes.now))) }
{
    let store = if s.value == MEMORY { memory } else { bytes };
    let part = lent::part(store, s.index as usize, s.length as usize);
    lent::copy(reply, 0, part);
}

// As Get Status replies it, a number of two bytes: stored one by one and then copied at once, two bytes make the processor wait.
fn halt_of(pipe: u16, b: Bridge) -> u16
    ensures { result ≡ one (halt_of pipe b) }
{
    let halted = if pipe == BULK_OUT {
        b.halts.outward
    } else {
        b.halts.inward
    };
    halted as u16
}

// Done, with these bytes for a reply.
fn reply_with(bytes: &[u8], reply: &mut [u8]) -> Outcome<Refusal>
    requires { length bytes.now < 2 ^ 16 }
    ensures { (result ≡ outcome (Ok (length bytes.now)) Change.Nothing) × (reply.new ≡ over reply.old 0 bytes.now) }
{
    lent::copy(reply, 0, bytes);
    done(bytes.len() as u16, Change::Nothing)
}

// A request that is to be done and that no check refuses. As far as the rooms go: of one that is granted they hold it all. They are lent one by one, as
// C lends them, and as `left_by` tells what is left of each.
#[tactic(auto, unfolding(rules::specs::Words::over))]
pub fn serve(
    r: Request,
    s: Setup,
    b: Bridge,
    bytes: &mut [u8],
    host: &[u8],
    memory: &mut [u8],
    reply: &mut [u8],
) -> Outcome<Refusal>
    ensures { left_by result bytes.new memory.new reply.new ≡ served r s host.now (world b bytes.old memory.old) reply.old }
{
    match r {
        Request::SetConfiguration => done(0, Change::Sets(s.value == 2)),
        Request::GetConfiguration => reply_with(&[b.configuration()], reply),
        Request::ClearFeature => done(0, recovery::clear_feature(s.index, b)),
        Request::GetStatus => reply_with(&halt_of(s.index, b).to_le_bytes(), reply),
        Request::GetMaxLun => reply_with(&[b.dock.drives.max_lun()], reply),
        // A stop notes that it has come.
        Request::MassStorageReset => done(0, recovery::reset(b.phase, Change::Notes)),
        Request::LoadConfigData => {
            load(s, host, bytes, memory);
            done(0, Change::Nothing)
        }
        Request::ReadConfigData => {
            read(s, bytes, memory, reply);
            done(s.length, Change::Nothing)
        }
        Request::SoftReset => done(0, recovery::reset(b.phase, Change::Drops)),
        Request::BogusRead => {
            lent::clear(reply, s.length as usize);
            done(s.length, Change::Nothing)
        }
    }
}

// What is lent comes one by one, as `left_where` tells what is left of each.
pub fn control(
    b: Bridge,
    bytes: &mut [u8; 16],
    setup: &[u8],
    host: &[u8],
    memory: &mut [u8],
    reply: &mut [u8],
) -> ControlOutcome
    ensures { left_where result bytes.new memory.new reply.new ≡ leaves (world b bytes.old memory.old) (Control setup.now host.now) reply.old }
{
    let seen = b.seen(StringIndex(bytes[FIRST_STRING]));
    match requests::judge(seen, memory, setup, host.len(), reply.len()) {
        Err(refusal) => ControlOutcome {
            outcome: Outcome::from(refusal),
            stands: Stands::InRoom,
        },
        Ok(Granted::Request(r, s)) => ControlOutcome {
            outcome: serve(r, s, b, bytes, host, memory, reply),
            stands: Stands::InRoom,
        },
        Ok(Granted::Descriptor(part)) => ControlOutcome {
            outcome: done(part.length, Change::Nothing),
            stands: Stands::InMemory(part.start),
        },
    }
}
