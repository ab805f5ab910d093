// The tools for field service, for C on the service laptop: thin exported calls on lent bytes. host/service.h is what a caller reads.
#![tactic(auto)]

ghost use Rattle.std.specs.Prelude.{◌≡◌};
ghost use Rattle.rules.specs.Held.{page_of};
ghost use Rattle.settings.specs.Store.{settings_from, read_by, newest};
ghost use Rattle.service.specs.Calls.{readout, showing, result as laying, lays, mending, mends_for};

use rules::PageSize;
use rules::refusals::in_one_number;
use settings::{RECORD, Settings};

// The answer alone, as the header has it.
#[unsafe(no_mangle)]
pub extern "C" fn service_read(store: &[u8], bytes: &mut [u8; 14], page: &mut u32) -> u8
    ensures { readout result bytes.new page.new ≡ showing (read_by newest store.now) bytes.old page.old }
{
    match settings::read(store) {
        Ok(settings) => {
            bytes.copy_from_slice(&settings.bytes);
            *page = u16::from(settings.page).into();
            0
        }
        Err(refusal) => u8::from(refusal),
    }
}

#[unsafe(no_mangle)]
pub extern "C" fn service_write(bytes: &[u8; 14], page: u32, room: &mut [u8]) -> u32
    ensures { laying result room.new ≡ lays (settings_from bytes.now (page_of page)) room.old }
{
    let settings = Settings {
        bytes: *bytes,
        page: PageSize::from(page),
    };
    in_one_number(settings::write(settings, room).map(|_| RECORD as u16))
}

#[unsafe(no_mangle)]
#[tactic(auto, using(mend::proofs::Listed::thirteen_at_most))]
pub extern "C" fn service_mend(image: &mut [u8], list: &mut [u32]) -> u32
    ensures { mending result image.new list.new ≡ mends_for image.old list.old }
{
    in_one_number(mend::mend(image, list).map(|changes| changes as u16))
}
