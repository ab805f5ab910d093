// The types of the paper: what the bridge holds, what an event changes of it, the requests of its table and what they are judged by, and the
// two kinds of packet with their constants.
#![tactic(auto)]

ghost use Rattle.std.specs.Prelude.{◌≡◌};
ghost use Rattle.rules.specs.Held.{configuration, drives_of, lun_number, max_lun, page_bytes, page_of, power_on, power_on_bytes};
ghost use Rattle.rules.specs.Packets.{inward};
ghost use Rattle.rules.specs.Reports.{direction_number};

pub mod addresses;
pub mod fields;
pub mod refusals;

use crate::addresses::{Address, StringIndex};

// Where data goes, seen from the host. With L = 0 none goes, and Out stands for that.
#[derive(Clone, Copy, PartialEq, Eq)]
pub enum Direction {
    Out = 2,
    In = 1,
}

impl Direction {
    // One `matches!`, and a function all the same: it is public, with its row in PROMISES and its edits.
    pub fn is_in(self) -> bool
        ensures { result ≡ inward self }
    {
        matches!(self, Direction::In)
    }
}

impl From<Direction> for u8 {
    fn from(direction: Direction) -> u8
        ensures { result ≡ direction_number direction }
    {
        direction as u8
    }
}

// The drive that a command is for.
#[derive(Clone, Copy)]
pub enum Lun {
    Lun0,
    Lun1,
}

impl From<Lun> for u8 {
    fn from(lun: Lun) -> u8
        ensures { result ≡ lun_number lun }
    {
        lun as u8
    }
}

// The fields stand one by one, here and in `Change` and StatusPacket, as the rules' `made` and the statement `Sized` name them.
#[derive(Clone, Copy)]
pub enum Phase {
    Awaiting,
    Busy {
        direction: Direction,
        lun: Lun,
        tag: u32,
        length: u32,
    },
    StatusWaiting {
        tag: u32,
        residue: u32,
        status: u8,
    },
    // With a note of whether a Mass Storage Reset has come.
    Stopped {
        reset: bool,
    },
}

// A halt mark for bulk out and one for bulk in.
#[derive(Clone, Copy)]
pub struct Halts {
    pub outward: bool,
    pub inward: bool,
}

// Pages of the memory part, of 32, 64, 128 or 256 bytes.
#[derive(Clone, Copy)]
pub enum PageSize {
    Of32 = 32,
    Of64 = 64,
    Of128 = 128,
    Of256 = 256,
}

impl From<PageSize> for u16 {
    fn from(page: PageSize) -> u16
        ensures { result ≡ page_bytes page }
    {
        page as u16
    }
}

impl From<u32> for PageSize {
    // Another number is taken as 32, the safe one.
    #[tactic(auto, unfolding(crate::specs::Held::page_of))]
    fn from(number: u32) -> PageSize
        ensures { result ≡ page_of number }
    {
        match number {
            64 => PageSize::Of64,
            128 => PageSize::Of128,
            256 => PageSize::Of256,
            _ => PageSize::Of32,
        }
    }
}

// How many drives the dock holds.
#[derive(Clone, Copy)]
pub enum Drives {
    One,
    Two,
}

impl From<u32> for Drives {
    // The number 2 says two, every other number says one.
    #[tactic(auto, unfolding(crate::specs::Held::drives_of))]
    fn from(number: u32) -> Drives
        ensures { result ≡ drives_of number }
    {
        match number {
            2 => Drives::Two,
            _ => Drives::One,
        }
    }
}

impl Drives {
    // By a match: a drive's place in the list is not a LUN.
    pub fn max_lun(self) -> u8
        ensures { result ≡ max_lun self }
    {
        match self {
            Drives::One => 0,
            Drives::Two => 1,
        }
    }
}

// What is fixed at power-on.
#[derive(Clone, Copy)]
pub struct Dock {
    pub bus_powered: bool,
    pub page: PageSize,
    pub drives: Drives,
}

#[derive(Clone, Copy)]
pub struct Bridge {
    pub dock: Dock,
    // The USB configuration: 2 where it is true, else 0.
    pub configured: bool,
    pub phase: Phase,
    pub halts: Halts,
}

impl Bridge {
    pub fn configuration(self) -> u8
        ensures { result ≡ configuration self }
    {
        if self.configured { 2 } else { 0 }
    }

    // What a control request is judged by, with configuration byte 0x0E.
    pub fn seen(self, first_string: StringIndex) -> Seen
        ensures { result ≡ record { configured = self.configured; bus_powered = self.dock.bus_powered; page = self.dock.page; first_string = first_string } }
    {
        Seen {
            configured: self.configured,
            bus_powered: self.dock.bus_powered,
            page: self.dock.page,
            first_string,
        }
    }

    pub fn power_on(dock: Dock) -> Self
        ensures { result ≡ power_on dock }
    {
        Bridge {
            dock,
            configured: false,
            phase: Phase::Awaiting,
            halts: Halts {
                outward: false,
                inward: false,
            },
        }
    }
}

// The sixteen configuration bytes, which stand beside the bridge.
pub fn power_on_bytes() -> [u8; 16]
    ensures { result ≡ power_on_bytes }
{
    [0, 0, 0, 0, 0x24, 0, 0, 0, 0, 0, 0, 0, 0, 0, 0, 0]
}

// What an event changes of the bridge: nothing; the configuration is set, awaiting, no halts; a command is awaited; a reset has one awaited; what is
// held is dropped, and no more; a command begins; it finishes, and its direction's pipe is halted or not; the bridge stops; a stop notes a Mass Storage
// Reset; a pipe's halt is cleared; a stop ends.
#[derive(Clone, Copy)]
pub enum Change {
    Nothing,
    Sets(bool),
    Awaits,
    Resets,
    Drops,
    Begins {
        direction: Direction,
        lun: Lun,
        tag: u32,
        length: u32,
    },
    // Whether the pipe halts stands apart from its direction: what a report and a packet promise, by the rules' `finished` and `command_taken`, tells the
    // direction of a pipe that is not halted too.
    Finishes {
        direction: Direction,
        halts: bool,
        status: u8,
        tag: u32,
        residue: u32,
    },
    Stops,
    Notes,
    Clears(Direction),
    Ends,
}

// The fields of a setup: bmRequestType, bRequest, wValue, wIndex, wLength.
#[derive(Clone, Copy)]
pub struct Setup {
    pub kind: u8,
    pub code: u8,
    pub value: u16,
    pub index: u16,
    pub length: u16,
}

// What a control request is judged by, of all that the bridge holds beside the memory.
#[derive(Clone, Copy)]
pub struct Seen {
    pub configured: bool,
    pub bus_powered: bool,
    pub page: PageSize,
    // Configuration byte 0x0E.
    pub first_string: StringIndex,
}

// Where what is handed out stands: at the front of the lent room, or, a part of the lent memory itself, from an address on. No Option: a None would say
// that it stands nowhere.
#[derive(Clone, Copy)]
pub enum Stands {
    InRoom,
    InMemory(Address),
}

// The rows of the request table, but for Get Descriptor, which is not done but found.
#[derive(Clone, Copy)]
pub enum Request {
    SetConfiguration,
    GetConfiguration,
    ClearFeature,
    GetStatus,
    GetMaxLun,
    MassStorageReset,
    LoadConfigData,
    ReadConfigData,
    SoftReset,
    BogusRead,
}

#[derive(Clone, Copy)]
pub struct CommandPacket {
    pub tag: u32,
    pub length: u32,
    pub flags: u8,
    pub lun: u8,
    pub block_length: u8,
}

impl CommandPacket {
    pub const LENGTH: usize = 31;

    pub const SIGNATURE: u32 = 0x43425355;
}

#[derive(Clone, Copy)]
pub struct StatusPacket {
    pub tag: u32,
    pub residue: u32,
    pub status: u8,
}

impl StatusPacket {
    pub const LENGTH: usize = 13;

    pub const SIGNATURE: u32 = 0x53425355;

    // The status of a command that failed, and of a phase error. One that passed has 0. Bytes and no enum: an image that C lends may hold any byte there,
    // and the status request hands it out.
    pub const FAILED: u8 = 1;

    pub const PHASE_ERROR: u8 = 2;
}
