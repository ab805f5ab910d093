// The bridge for C: thin exported calls on numbers and lent bytes. host/thrandue.h is what a caller reads.
#![tactic(auto)]

ghost use Rattle.std.specs.Prelude.{◌≡◌, [], ◌++◌, length, drop};
ghost use Rattle.outcomes.specs.Outcomes.{left_by};
ghost use Rattle.rules.specs.Held.{world, page_of, drives_of, docked, by_default, configuration};
ghost use Rattle.rules.specs.Promise.{served};
ghost use Rattle.rules.specs.declared.Stands.TheVariants.{InMemory};
ghost use Rattle.rules.specs.Step.{BusReset, Control, Report, StatusRequest};
ghost use Rattle.settings.specs.Store.{reading, read_by, newest, in_force};
ghost use Rattle.image.specs.Image.{bytes_of, decode, held_of, powered};
ghost use Rattle.thrandue.specs.Calls.{called, returns, LeftInImage, calls, CallTold, powered_by, phase_number, busy_lun, halt_number};

mod commands;

use bridge::Outcome;
use descriptors::Part;
use image::IMAGE;
use requests::Granted;
use rules::refusals::{Refusal, in_one_number};
use rules::{Bridge, Dock, Drives, PageSize, Phase, Request, Setup};
use settings::Settings;

// No Option: the number is the header's.
const NO_LUN: u8 = 0xFF;

// What an event leaves in the image and returns. Out of line it gets an outcome through memory, and a status request takes twice the instructions: tried.
#[inline(always)]
fn leave(image: &mut [u8; IMAGE], o: Outcome<Refusal>) -> u32
    ensures { LeftInImage o image.old result image.new }
{
    image::make(image, o.change);
    in_one_number(o.answer)
}

// What a request for a descriptor returns that is found, in one number, as the header has it.
fn found(part: Part) -> u64
    ensures { result ≡ returns 0 part.length (InMemory part.start) }
{
    256 * part.length as u64 + 0x100000000 * (0x10000 + u16::from(part.start) as u64)
}

// A granted request, with the configuration bytes at the front of the image; the rest is lent one by one, as C lends it.
fn serve(
    r: Request,
    s: Setup,
    b: Bridge,
    image: &mut [u8; IMAGE],
    host: &[u8],
    memory: &mut [u8],
    reply: &mut [u8],
) -> Outcome<Refusal>
    ensures { (left_by result (bytes_of image.new) memory.new reply.new ≡ served r s host.now (world b (bytes_of image.old) memory.old) reply.old) × (image.new ≡ bytes_of image.new ++ drop 16 image.old) }
{
    bridge::serve(r, s, b, &mut image[..16], host, memory, reply)
}

// An accepted store's page size replaces the number given.
fn in_force(given: PageSize, read: Result<Settings, Refusal>) -> PageSize
    ensures { result ≡ in_force given (reading read) }
{
    read.map_or(given, |settings| settings.page)
}

#[unsafe(no_mangle)]
pub extern "C" fn thrandue_power_on(
    image: &mut [u8; IMAGE],
    bus_powered: bool,
    page: u32,
    drives: u32,
) -> u32
    ensures { called result image.new [] [] ≡ called 0 (powered (by_default (docked bus_powered (page_of page) (drives_of drives)))) [] [] }
{
    let dock = Dock {
        bus_powered,
        page: PageSize::from(page),
        drives: Drives::from(drives),
    };
    image::power_on(image, dock);
    in_one_number(Ok(0))
}

// .. with the settings of a store; one that is refused leaves the defaults.
#[unsafe(no_mangle)]
pub extern "C" fn thrandue_power_on_with_store(
    image: &mut [u8; IMAGE],
    bus_powered: bool,
    page: u32,
    drives: u32,
    store: &[u8],
) -> u32
    ensures { called result image.new [] [] ≡ powered_by (docked bus_powered (page_of page) (drives_of drives)) (read_by newest store.now) }
{
    let read = settings::read(store);
    let dock = Dock {
        bus_powered,
        page: in_force(PageSize::from(page), read),
        drives: Drives::from(drives),
    };
    // A call for each: of what `unwrap_or_default` gives the settings go through memory.
    match read {
        Ok(settings) => image::power_on_with(image, dock, &settings.bytes),
        Err(_) => image::power_on_with(image, dock, &Settings::default().bytes),
    }
    in_one_number(read.map(|_| 0))
}

#[unsafe(no_mangle)]
pub extern "C" fn thrandue_bus_reset(image: &mut [u8; IMAGE]) -> u32
    ensures { CallTold image.old (λ n. BusReset) [] result image.new [] }
{
    leave(image, bridge::bus_reset())
}

#[unsafe(no_mangle)]
pub extern "C" fn thrandue_control(
    image: &mut [u8; IMAGE],
    setup: &[u8],
    host: &[u8],
    memory: &mut [u8],
    reply: &mut [u8],
) -> u64
    ensures { called result image.new memory.new reply.new ≡ calls image.old memory.old (Control setup.now host.now) reply.old }
{
    match requests::judge(image::seen(image), memory, setup, host.len(), reply.len()) {
        Ok(Granted::Request(r, s)) => {
            let b = image::load(image);
            let o = serve(r, s, b, image, host, memory, reply);
            leave(image, o) as u64
        }
        Ok(Granted::Descriptor(part)) => found(part),
        Err(refusal) => in_one_number(Err(refusal)) as u64,
    }
}

#[unsafe(no_mangle)]
pub extern "C" fn thrandue_report(
    image: &mut [u8; IMAGE],
    direction: u8,
    failed: u8,
    amount: u32,
) -> u32
    ensures { CallTold image.old (λ n. Report direction failed amount) [] result image.new [] }
{
    let b = image::load(image);
    leave(image, bridge::report(b, direction, failed, amount))
}

#[unsafe(no_mangle)]
pub extern "C" fn thrandue_status(image: &mut [u8; IMAGE], reply: &mut [u8]) -> u32
    ensures { CallTold image.old StatusRequest reply.old result image.new reply.new }
{
    let b = image::load(image);
    leave(image, bridge::status(b, reply))
}

// The header's number of the phase; and below, of the halts.
#[unsafe(no_mangle)]
pub extern "C" fn thrandue_phase(image: &[u8; IMAGE]) -> u8
    ensures { result ≡ phase_number (decode image.now) }
{
    match image::load(image).phase {
        Phase::Awaiting => 0,
        Phase::Busy { .. } => 1,
        Phase::StatusWaiting { .. } => 2,
        Phase::Stopped { reset } => 3 + reset as u8,
    }
}

// In a phase that is not busy there is no LUN.
#[unsafe(no_mangle)]
pub extern "C" fn thrandue_lun(image: &[u8; IMAGE]) -> u8
    ensures { result ≡ busy_lun (decode image.now).phase }
{
    match image::load(image).phase {
        Phase::Busy { lun, .. } => u8::from(lun),
        _ => NO_LUN,
    }
}

#[unsafe(no_mangle)]
pub extern "C" fn thrandue_configuration(image: &[u8; IMAGE]) -> u8
    ensures { result ≡ configuration (decode image.now) }
{
    image::load(image).configuration()
}

#[unsafe(no_mangle)]
pub extern "C" fn thrandue_halts(image: &[u8; IMAGE]) -> u8
    ensures { result ≡ halt_number (decode image.now) }
{
    let halts = image::load(image).halts;
    halts.outward as u8 + 2 * halts.inward as u8
}

// How many bytes are held; 32 where they are too many.
#[tactic(auto, using(crate::proofs::Laws::all_held))]
#[unsafe(no_mangle)]
pub extern "C" fn thrandue_held(image: &[u8; IMAGE]) -> u8
    ensures { result ≡ length (held_of image.now) }
{
    image::held(image).bytes().len() as u8
}
