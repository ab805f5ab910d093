// Settings that field service keeps: a store of them is read, and a record of them is written.
#![tactic(auto)]

ghost use Rattle.std.specs.Prelude.{◌≡◌, ◌+◌, ◌*◌, ◌/◌, false, eqb, not, [], ◌∷◌, drop, length, MatchResult};
ghost use Rattle.rules.specs.Held.{page_bytes, page_of};
ghost use Rattle.rules.specs.Numbered.{by_number, checked, answer_of};
ghost use Rattle.rules.specs.Words.{◌if◌, first};
ghost use Rattle.settings.specs.Store.{length_of, kind_number, length_for, knows, settings_of, hidden, reading, record_read, read_by, newest, written, wrote, written_in};

use rules::PageSize;
use rules::fields::FIRST_SETTING;
use rules::refusals::Refusal;

// The bytes for configuration addresses 2 to F, and the page size.
#[derive(Clone, Copy)]
pub struct Settings {
    pub bytes: [u8; 14],
    pub page: PageSize,
}

// What a refused store shows: the defaults, and the safe page size.
impl Default for Settings {
    ghost is_default = { λ settings. settings ≡ hidden };

    fn default() -> Settings {
        let power_on = rules::power_on_bytes();
        // As an array: the library's copy into one would go through memory.
        Settings {
            bytes: *power_on[FIRST_SETTING..].as_array().unwrap(),
            page: PageSize::Of32,
        }
    }
}

// The kinds of record: the fourteen bytes, and these with the page size.
#[derive(Clone, Copy)]
enum Kind {
    Plain = 0x0101,
    Paged = 0x0102,
}

// Check 21.
impl TryFrom<u16> for Kind {
    type Error = Refusal;

    fn try_from(number: u16) -> Result<Kind, Refusal>
        ensures { MatchResult result (λ kind. kind_number kind ≡ number) (λ refusal. (refusal ≡ Refusal.UnknownKind) × (knows newest number ≡ false)) }
    {
        match number {
            0x0101 => Ok(Kind::Plain),
            0x0102 => Ok(Kind::Paged),
            _ => Err(Refusal::UnknownKind),
        }
    }
}

// The last byte of a paged record: the page size divided by 32. Its field has a name, since `.0` is for an index and an address alone (tests/apart).
#[derive(Clone, Copy)]
struct PageByte {
    value: u8,
}

impl From<PageByte> for PageSize {
    // In line the compiler jumps for each size, and guesses wrong where sizes change from record to record.
    #[inline(never)]
    fn from(last: PageByte) -> PageSize
        ensures { result ≡ page_of (32 * last.value) }
    {
        PageSize::from(32 * u32::from(last.value))
    }
}

impl From<PageSize> for PageByte {
    fn from(page: PageSize) -> PageByte
        ensures { result.value ≡ page_bytes page / 32 }
    {
        PageByte {
            value: (u16::from(page) / 32) as u8,
        }
    }
}

// The settings of a record: check 22.
fn settings_in(kind: Kind, payload: &[u8]) -> Result<Settings, Refusal>
    ensures { by_number result ≡ checked (settings_of (kind_number kind) payload.now) (first (22 if not (eqb (length payload.now) (length_for (kind_number kind))) ∷ [])) }
{
    let (&bytes, behind) = payload.split_first_chunk().ok_or(Refusal::PayloadLength)?;
    let page = match (kind, behind) {
        (Kind::Plain, []) => PageSize::Of256,
        (Kind::Paged, &[value]) => PageSize::from(PageByte { value }),
        _ => return Err(Refusal::PayloadLength),
    };
    Ok(Settings { bytes, page })
}

// A record that is read: its settings, and what stands behind it.
#[derive(Clone, Copy)]
struct Record<'a> {
    settings: Settings,
    behind: &'a [u8],
}

// The record at the front of a store: checks 20, 21 and 22.
#[tactic(auto, unfolding(crate::specs::Store::record_read))]
fn read_record(store: &[u8]) -> Result<Record<'_>, Refusal>
    ensures { MatchResult result (λ r. (reading (Ok r.settings) ≡ record_read newest store.now) × (r.behind.now ≡ drop (4 + length_of store.now) store.now)) (λ refusal. reading (Err refusal) ≡ record_read newest store.now) }
{
    let &[l0, l1, k0, k1, ref rest @ ..] = store else {
        return Err(Refusal::CutRecord);
    };
    let length = lent::word(l0, l1) as usize;
    if rest.len() < length {
        return Err(Refusal::CutRecord);
    }
    let (payload, behind) = rest.split_at(length);
    let kind = Kind::try_from(lent::word(k0, k1))?;
    let settings = settings_in(kind, payload)?;
    Ok(Record { settings, behind })
}

// Record by record from the front; the last one is the settings.
#[tactic(auto, using(crate::proofs::Stores::onward, crate::proofs::Stores::ends), unfolding(crate::specs::Store::read_on))]
pub fn read(store: &[u8]) -> Result<Settings, Refusal>
    ensures { reading result ≡ read_by newest store.now }
{
    let mut last = Err(Refusal::NoRecord);
    let mut rest = store;
    while !rest.is_empty() {
        let Record { settings, behind } = read_record(rest)?;
        last = Ok(settings);
        rest = behind;
    }
    last
}

// What a written record takes.
pub const RECORD: usize = 19;

// A record of the newest kind: payload length, kind, payload. No `From`: it would be public, for one caller.
fn record_of(settings: Settings) -> [u8; RECORD]
    ensures { result ≡ written settings }
{
    let mut record = [0; RECORD];
    record[..2].copy_from_slice(&15u16.to_le_bytes());
    record[2..4].copy_from_slice(&(Kind::Paged as u16).to_le_bytes());
    record[4..18].copy_from_slice(&settings.bytes);
    record[18] = PageByte::from(settings.page).value;
    record
}

// One record, at the front of the room.
pub fn write(settings: Settings, room: &mut [u8]) -> Result<(), Refusal>
    ensures { wrote (answer_of result) room.new ≡ written_in settings room.old }
{
    let front = room.first_chunk_mut().ok_or(Refusal::RecordRoom)?;
    *front = record_of(settings);
    Ok(())
}
