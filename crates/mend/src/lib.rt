// A spoiled image of a memory part is mended, and what is changed is listed.
#![tactic(auto)]

ghost use Rattle.std.specs.Prelude.{◌≡◌, ◌≤◌, cond, length};
ghost use Rattle.rules.specs.Words.{laid};
ghost use Rattle.mend.specs.Mend.{fixed_bytes, set_by, fixed as fixes, lost, mended, changed, changes, entry, entries, mending_of, left, mends};
ghost use Rattle.mend.specs.Wanted.{wanted_at, unlike};

use rules::addresses::{Address, StringIndex};
use rules::refusals::Refusal;

// The shortest image that is mended. All that is set lies within it.
const SHORTEST: usize = 0x89;

// The second byte of a string's head.
const STRING: u8 = 0x03;

// The bytes which allow one answer only; any other byte stands.
fn fixed(at: usize, byte: u8) -> u8
    ensures { result ≡ set_by fixed_bytes at byte }
{
    match at {
        0x10 => 0x12,
        0x11 => 0x01,
        0x22 => 0x0A,
        0x23 => 0x06,
        0x2B => 0x00,
        0x2C | 0x80 => 0x09,
        0x2D | 0x81 => 0x02,
        0x31 | 0x85 => 0x02,
        _ => byte,
    }
}

// A string index, or 0 where it names no string of the image with the fixed bytes set.
#[tactic(auto, using(crate::proofs::Bytes::lost_outside, crate::proofs::Bytes::lost_inside))]
fn judged(image: &[u8], index: u8) -> u8
    ensures { result ≡ cond (lost (fixes image.now) index) 0 index }
{
    let second = u16::from(Address::from(StringIndex(index))) as usize + 1;
    match image.get(second) {
        Some(&byte) if fixed(second, byte) == STRING => index,
        _ => 0,
    }
}

// What stands at an address once the image is mended, of the byte that stands there.
#[tactic(auto, unfolding(crate::specs::Mend::judged_by, crate::specs::Wanted::wanted_at))]
fn wanted(image: &[u8], at: usize, byte: u8) -> u8
    ensures { result ≡ wanted_at image.now at byte }
{
    match at {
        0x32 | 0x86 => judged(image, byte),
        _ => fixed(at, byte),
    }
}

// How many bytes of an image are to change.
fn count(image: &[u8]) -> usize
    ensures { result ≡ length (unlike image.now) }
{
    image
        .iter()
        .take(SHORTEST)
        .enumerate()
        .filter(|&(at, &byte)| byte != wanted(image, at, byte))
        .count()
}

// A change of an image: an address, the byte that stood there, and the new one.
#[derive(Clone, Copy)]
struct Entry {
    address: u8,
    old: u8,
    new: u8,
}

// As C lends the list, a change is one number.
impl From<Entry> for u32 {
    fn from(e: Entry) -> u32
        ensures { result ≡ entry (changed e.address e.old e.new) }
    {
        u32::from_be_bytes([0, e.address, e.old, e.new])
    }
}

// Sets every byte that is to change, and lists it.
fn set(image: &mut [u8], list: &mut [u32]) -> usize
    requires { (0x89 ≤ length image.old) × (length (changes image.old) ≤ length list.old) }
    ensures { (result ≡ length (changes image.old)) × (image.new ≡ mended image.old) × (list.new ≡ laid (entries image.old) list.old) }
{
    // By hand, as many as are listed: tried over list.iter_mut(), beside which an invariant cannot say what stands in the list.
    let mut n = 0;
    for at in 0..SHORTEST {
        let old = image[at];
        let new = wanted(image, at, old);
        if new != old {
            let address = at as u8;
            list[n] = u32::from(Entry { address, old, new });
            image[at] = new;
            n += 1;
        }
    }
    n
}

// Mends an image where it lies, and lists its changes at the front of the list, rising: checks 24 and 25.
#[tactic(auto, using(crate::proofs::Changes::counted))]
pub fn mend(image: &mut [u8], list: &mut [u32]) -> Result<usize, Refusal>
    ensures { left (mending_of result) image.new list.new ≡ mends image.old list.old }
{
    if image.len() < SHORTEST {
        return Err(Refusal::ShortImage);
    }
    if list.len() < count(image) {
        return Err(Refusal::ChangeRoom);
    }
    Ok(set(image, list))
}
