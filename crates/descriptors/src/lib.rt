// Descriptors from the memory part: whether one is there, where it stands, and the part of the memory that is told of it.
#![tactic(auto)]

ghost use Rattle.std.specs.Prelude.{◌≡◌, ◌+◌, ◌≤◌, length, true, false, MatchResult};
ghost use Rattle.lent.specs.Parts.{PartOf};
ghost use Rattle.rules.specs.Numbered.{by_number};
ghost use Rattle.rules.specs.Descriptors.{number_of, place_of, head_of, length_at, answered};
ghost use Rattle.descriptors.specs.Looking.{kind_number, looked};

use rules::addresses::{Address, StringIndex};
use rules::refusals::Refusal;

// A part of the memory part: where it starts, and how long it is.
#[derive(Clone, Copy)]
pub struct Part {
    pub start: Address,
    pub length: u16,
}

// Descriptor types (USB 2.0, table 9-5).
#[derive(Clone, Copy)]
enum Kind {
    Device = 1,
    Configuration = 2,
    String = 3,
    Qualifier = 6,
}

impl Kind {
    // Of strings any index is answered, of the other types 0 alone.
    #[tactic(auto, unfolding(rules::specs::Descriptors::answered))]
    fn asked(number: u8, index: u8) -> Result<Kind, Refusal>
        ensures { MatchResult result (λ k. (kind_number k ≡ number) × (answered number index ≡ true)) (λ e. (e ≡ Refusal.NoDescriptor) × (answered number index ≡ false)) }
    {
        match (number, index) {
            (1, 0) => Ok(Kind::Device),
            (2, 0) => Ok(Kind::Configuration),
            (3, _) => Ok(Kind::String),
            (6, 0) => Ok(Kind::Qualifier),
            _ => Err(Refusal::NoDescriptor),
        }
    }

    #[tactic(auto, unfolding(rules::specs::Descriptors::place_of))]
    fn place(self, index: u8, bus_powered: bool, first: StringIndex) -> Address
        ensures { result ≡ place_of bus_powered first (kind_number self) index }
    {
        match self {
            Kind::Device => Address(0x10),
            Kind::Qualifier => Address(0x22),
            Kind::Configuration if bus_powered => Address(0x2C),
            Kind::Configuration => Address(0x80),
            Kind::String if index == 0 => Address::from(first),
            Kind::String => Address::from(StringIndex(index)),
        }
    }

    fn head(self) -> usize
        ensures { result ≡ head_of (kind_number self) }
    {
        match self {
            Kind::Configuration => 4,
            _ => 2,
        }
    }

    // Of a configuration the total length.
    #[tactic(auto, unfolding(rules::specs::Descriptors::length_at))]
    fn length_at(self, memory: &[u8], at: usize) -> u16
        requires { at + head_of (kind_number self) ≤ length memory.now }
        ensures { result ≡ length_at (kind_number self) memory.now at }
    {
        match self {
            Kind::Configuration => lent::word(memory[at + 2], memory[at + 3]),
            _ => u16::from(memory[at]),
        }
    }
}

// The descriptor of a type, in the high byte, and an index, in a memory that is all fitted: checks 18, 19, 18 and 19.
pub fn look(
    bus_powered: bool,
    first: StringIndex,
    memory: &[u8],
    value: u16,
) -> Result<Part, Refusal>
    ensures { by_number result ≡ looked bus_powered first memory.now value }
{
    let [number, index] = value.to_be_bytes();
    let kind = Kind::asked(number, index)?;
    let start = kind.place(index, bus_powered, first);
    let at = u16::from(start) as usize;
    let head = kind.head();
    if memory.len() < at + head {
        return Err(Refusal::PastMemory);
    }
    let length = kind.length_at(memory, at);
    if memory[at + 1] != kind as u8 || (length as usize) < head {
        return Err(Refusal::NoDescriptor);
    }
    if memory.len() < at + length as usize {
        return Err(Refusal::PastMemory);
    }
    Ok(Part { start, length })
}

// The caller's own slice, as far as it goes.
pub fn find(memory: &[u8], part: Part) -> &[u8]
    ensures { PartOf memory.entry (number_of part.start) part.length result }
{
    lent::part(memory, u16::from(part.start) as usize, part.length as usize)
}
