// The image of a bridge with its configuration bytes and what it holds of a packet in bursts: sixty-two bytes, read, and changed in place. They are C's,
// who lends them as an array: so functions, and no methods of a struct; those of a trait over the array would have each contract twice.
#![tactic(auto)]

ghost use Rattle.std.specs.Prelude.{◌≡◌, ◌+◌, ◌≤◌, [], cond, set, take, drop};
ghost use Rattle.rules.specs.Words.{long, one};
ghost use Rattle.rules.specs.Held.{starting, by_default};
ghost use Rattle.rules.specs.Answers.{seen_of};
ghost use Rattle.rules.specs.Packets.{signature_of};
ghost use Rattle.image.specs.Image.{bytes_of, is_odd, phase_from, page_code, page_from, dock_byte, dock_of, decode, world_of, held_in, powered, numbered, phased, marked, dropped, calm, put, added};
ghost use Rattle.image.specs.Stages.{stage_from, stage_number};

use rules::addresses::StringIndex;
use rules::fields::{FIRST_SETTING, FIRST_STRING, SIGNATURE};
use rules::{
    Bridge, Change, CommandPacket, Direction, Dock, Drives, Halts, Lun, PageSize, Phase, Seen,
};

pub const IMAGE: usize = 62;

// Behind the sixteen configuration bytes stand the tag, and L or the residue; a mark each for configured, bulk out halted and bulk in halted; the
// phase; its direction and its LUN, its status, or its note; what is fixed at power-on, in one byte; and what is held: the bytes, and how many they are.
const TAG: usize = 16;

const AMOUNT: usize = 20;

const CONFIGURED: usize = 24;

const OUTWARD: usize = 25;

const INWARD: usize = 26;

const PHASE: usize = 27;

const DETAIL: usize = 28;

const DOCK: usize = 29;

const HELD: usize = 30;

const COUNT: usize = 61;

// What the phase's byte says.
#[derive(Clone, Copy)]
enum Stage {
    Awaiting = 0,
    Busy = 1,
    StatusWaiting = 2,
    Stopped = 3,
}

impl From<u8> for Stage {
    // Every other byte says a stop too.
    fn from(byte: u8) -> Stage
        ensures { result ≡ stage_from byte }
    {
        match byte {
            0 => Stage::Awaiting,
            1 => Stage::Busy,
            2 => Stage::StatusWaiting,
            _ => Stage::Stopped,
        }
    }
}

// The count of what is more than a packet, which is too long by a byte or by more.
const TOO_LONG: usize = 32;

// What is held, by value, with room for a byte more than a packet has, and how much of it counts: the record that `held_in` of the specs tells.
#[derive(Clone, Copy)]
pub struct Fragments {
    bytes: [u8; TOO_LONG],
    count: usize,
}

impl Fragments {
    // The bytes that count.
    pub fn bytes(&self) -> &[u8]
        ensures told { result.now ≡ take self.now.count self.now.bytes }
        ensures points { result.ref_ptr ≡ self.entry.ref_ptr }
    {
        &self.bytes[..self.count.min(TOO_LONG)]
    }
}

// The image's own code of a page size. Its field has a name, since `.0` is for an index and an address alone (tests/apart).
#[derive(Clone, Copy)]
struct PageCode {
    value: u8,
}

impl From<PageSize> for PageCode {
    fn from(page: PageSize) -> PageCode
        ensures { result.value ≡ page_code page }
    {
        let value = match page {
            PageSize::Of32 => 0,
            PageSize::Of64 => 1,
            PageSize::Of128 => 2,
            PageSize::Of256 => 3,
        };
        PageCode { value }
    }
}

impl From<PageCode> for PageSize {
    fn from(code: PageCode) -> PageSize
        ensures { result ≡ page_from code.value }
    {
        match code.value {
            0 => PageSize::Of32,
            1 => PageSize::Of64,
            2 => PageSize::Of128,
            _ => PageSize::Of256,
        }
    }
}

// The lowest bit says which of two.
fn chosen<T: Copy>(bits: u8, zero: T, one: T) -> T
    ensures { result ≡ cond (is_odd bits) one zero }
{
    if bits % 2 == 1 { one } else { zero }
}

// What is fixed at power-on, as one byte of the image, by `dock_byte` of the specs: the page size below, above it whether the dock is bus powered, and
// the highest LUN.
fn dock_byte(dock: Dock) -> u8
    ensures { result ≡ dock_byte dock }
{
    PageCode::from(dock.page).value + 4 * dock.bus_powered as u8 + 8 * dock.drives.max_lun()
}

// Whatever it held, an image is that of a dock's bridge at power-on.
#[tactic(auto, unfolding(rules::specs::Words::over))]
pub fn power_on(image: &mut [u8; IMAGE], dock: Dock)
    ensures { image.new ≡ powered (by_default dock) }
{
    *image = [0; IMAGE];
    lent::copy(image, 0, &rules::power_on_bytes());
    image[DOCK] = dock_byte(dock);
}

// .. with settings, the bytes for addresses 2 to F.
#[tactic(auto, using(crate::proofs::InStep::settled))]
pub fn power_on_with(image: &mut [u8; IMAGE], dock: Dock, settings: &[u8; 14])
    ensures { image.new ≡ powered (starting dock settings.now) }
{
    power_on(image, dock);
    // By `lent::copy`, whose contract has the rules' own `over`.
    lent::copy(image, FIRST_SETTING, settings);
}

// Of its byte, and of the byte in which what goes with it is packed, by `phase_from` of the specs.
fn phase_from(byte: u8, detail: u8, tag: u32, amount: u32) -> Phase
    ensures { result ≡ phase_from byte detail tag amount }
{
    match Stage::from(byte) {
        Stage::Awaiting => Phase::Awaiting,
        Stage::Busy => Phase::Busy {
            direction: chosen(detail, Direction::Out, Direction::In),
            lun: chosen(detail / 2, Lun::Lun0, Lun::Lun1),
            tag,
            length: amount,
        },
        Stage::StatusWaiting => Phase::StatusWaiting {
            tag,
            residue: amount,
            status: detail,
        },
        Stage::Stopped => Phase::Stopped {
            reset: detail % 2 == 1,
        },
    }
}

fn number_at(image: &[u8; IMAGE], at: usize) -> u32
    requires { at + 4 ≤ 62 }
    ensures { result ≡ long at image.now }
{
    lent::long(image[at], image[at + 1], image[at + 2], image[at + 3])
}

pub fn signature_of(image: &[u8; IMAGE]) -> u8
    ensures { result ≡ signature_of (bytes_of image.now) }
{
    image[SIGNATURE]
}

fn dock_of(image: &[u8; IMAGE]) -> Dock
    ensures { result ≡ dock_of image.now }
{
    let fixed = image[DOCK];
    Dock {
        bus_powered: fixed / 4 % 2 == 1,
        page: PageSize::from(PageCode { value: fixed % 4 }),
        drives: chosen(fixed / 8, Drives::One, Drives::Two),
    }
}

// How many drives a packet is judged by.
pub fn drives_of(image: &[u8; IMAGE]) -> Drives
    ensures { result ≡ (decode image.now).dock.drives }
{
    dock_of(image).drives
}

// What a control request is judged by. It has no phase and no halts: the compiler leaves out what else the bridge would be made of.
pub fn seen(image: &[u8; IMAGE]) -> Seen
    ensures { result ≡ seen_of (world_of image.now []) }
{
    load(image).seen(StringIndex(image[FIRST_STRING]))
}

// The state that the image stands for.
pub fn load(image: &[u8; IMAGE]) -> Bridge
    ensures { result ≡ decode image.now }
{
    let tag = number_at(image, TAG);
    let amount = number_at(image, AMOUNT);
    Bridge {
        dock: dock_of(image),
        configured: image[CONFIGURED] != 0,
        phase: phase_from(image[PHASE], image[DETAIL], tag, amount),
        halts: Halts {
            outward: image[OUTWARD] != 0,
            inward: image[INWARD] != 0,
        },
    }
}

#[tactic(auto, using(crate::proofs::Rows::all_of_tail))]
fn held_bytes(image: &[u8; IMAGE]) -> [u8; TOO_LONG]
    ensures { result ≡ drop 30 image.now }
{
    <[u8; TOO_LONG]>::try_from(&image[HELD..]).unwrap()
}

// What is held, by value: so it can be judged while the image is changed.
#[tactic(auto, using(crate::proofs::Holding::counted_of_image))]
pub fn held(image: &[u8; IMAGE]) -> Fragments
    ensures { result ≡ held_in image.now }
{
    let bytes = held_bytes(image);
    let count = lent::part(&bytes, 0, image[COUNT] as usize).len();
    Fragments { bytes, count }
}

// A burst is held behind what is held; where that is more than a packet, that it is too long. No more of it is looked at than makes it so. The count is
// stored before the bytes are copied: behind that it would be kept in registers meanwhile.
#[tactic(auto, using(crate::proofs::Holding::too_much, crate::proofs::Holding::fits))]
pub fn hold(image: &mut [u8; IMAGE], burst: &[u8])
    ensures { image.new ≡ added burst.now image.old }
{
    let came = lent::part(burst, 0, TOO_LONG);
    let n = image[COUNT] as usize;
    let all = n + came.len();
    if all > CommandPacket::LENGTH {
        image[COUNT] = TOO_LONG as u8;
        return;
    }
    let mut bytes = held_bytes(image);
    image[COUNT] = all as u8;
    lent::copy(&mut bytes, n, came);
    lent::copy(image, HELD, lent::part(&bytes, 0, CommandPacket::LENGTH));
}

fn put_numbers(image: &mut [u8; IMAGE], tag: u32, amount: u32)
    ensures { image.new ≡ numbered tag amount image.old }
{
    lent::copy(image, TAG, &lent::bytes_of(tag));
    lent::copy(image, AMOUNT, &lent::bytes_of(amount));
}

fn put_phase(image: &mut [u8; IMAGE], stage: Stage, detail: u8)
    ensures { image.new ≡ phased (stage_number stage) detail image.old }
{
    image[PHASE] = stage as u8;
    image[DETAIL] = detail;
}

fn put_halt(image: &mut [u8; IMAGE], direction: Direction, halted: bool)
    ensures { image.new ≡ marked direction (one halted) image.old }
{
    match direction {
        Direction::Out => image[OUTWARD] = halted as u8,
        Direction::In => image[INWARD] = halted as u8,
    }
}

fn put_halts(image: &mut [u8; IMAGE], halted: bool)
    ensures { image.new ≡ set (set image.old 25 (one halted)) 26 (one halted) }
{
    image[OUTWARD] = halted as u8;
    image[INWARD] = halted as u8;
}

fn drop_held(image: &mut [u8; IMAGE])
    ensures { image.new ≡ dropped image.old }
{
    image[COUNT] = 0;
}

// Awaiting, nothing held.
fn put_reset(image: &mut [u8; IMAGE])
    ensures { image.new ≡ put Change.Resets image.old }
{
    image[PHASE] = Stage::Awaiting as u8;
    drop_held(image);
}

// .. and no halts.
fn put_calm(image: &mut [u8; IMAGE])
    ensures { image.new ≡ calm image.old }
{
    put_halts(image, false);
    put_reset(image);
}

// A command begins. The fields come one by one, here and in `put_finished`: written in its arms they would make `make` too long.
fn put_begun(image: &mut [u8; IMAGE], direction: Direction, lun: Lun, tag: u32, length: u32)
    ensures { image.new ≡ put (Change.Begins direction lun tag length) image.old }
{
    put_phase(
        image,
        Stage::Busy,
        direction.is_in() as u8 + 2 * u8::from(lun),
    );
    put_numbers(image, tag, length);
}

// A command finishes, and the pipe of its direction is halted or not.
fn put_finished(
    image: &mut [u8; IMAGE],
    direction: Direction,
    halts: bool,
    status: u8,
    tag: u32,
    residue: u32,
)
    ensures { image.new ≡ put (Change.Finishes direction halts status tag residue) image.old }
{
    put_numbers(image, tag, residue);
    put_phase(image, Stage::StatusWaiting, status);
    if halts {
        put_halt(image, direction, true);
    }
}

// A change is made, in place. What an earlier phase left where this one has nothing stays.
pub fn make(image: &mut [u8; IMAGE], change: Change)
    ensures { image.new ≡ put change image.old }
{
    match change {
        Change::Nothing => {}
        Change::Sets(configured) => {
            image[CONFIGURED] = configured as u8;
            put_calm(image);
        }
        Change::Awaits => image[PHASE] = Stage::Awaiting as u8,
        Change::Resets => put_reset(image),
        Change::Drops => drop_held(image),
        Change::Begins {
            direction,
            lun,
            tag,
            length,
        } => put_begun(image, direction, lun, tag, length),
        Change::Finishes {
            direction,
            halts,
            status,
            tag,
            residue,
        } => put_finished(image, direction, halts, status, tag, residue),
        Change::Stops => {
            put_halts(image, true);
            put_phase(image, Stage::Stopped, 0);
        }
        Change::Notes => {
            put_phase(image, Stage::Stopped, 1);
            drop_held(image);
        }
        Change::Clears(direction) => put_halt(image, direction, false),
        Change::Ends => put_calm(image),
    }
}
