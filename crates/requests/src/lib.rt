// Control requests, judged: the fields of a setup, the request that they make, and what the checks grant or refuse.
#![tactic(auto)]

ghost use Rattle.std.specs.Prelude.{◌≡◌, true, false, not, ◌&&◌, ◌||◌, ◌++◌, ◌+◌, MatchResult, leb, ltb, length};
ghost use Rattle.requests.specs.Judgements.{place_number, row_names, judged, judged_by, found_by, described_checks};
ghost use Rattle.rules.specs.Numbered.{by_number, checked};
ghost use Rattle.rules.specs.Words.{first};
ghost use Rattle.rules.specs.Requests.{Unknown, Known, is_a, setup_of, request_of, needs_configuration, in_bytes, in_memory, one_page};
ghost use Rattle.rules.specs.Held.{size_of, fitted, page_bytes};
ghost use Rattle.rules.specs.Answers.{place_checks, data_checks, named_checks, request_answer};

use descriptors::Part;
use rules::fields::{BULK_IN, BULK_OUT, CONFIGURATION_BYTES, MEMORY};
use rules::refusals::Refusal;
use rules::{PageSize, Request, Seen, Setup};

// What a judge grants: a request that is to be done, or a descriptor, which is found: the part of the memory that is told of it.
#[derive(Clone, Copy)]
pub enum Granted {
    Request(Request, Setup),
    Descriptor(Part),
}

const MEMORY_MOST: usize = 2048;

const CONFIGURATION_SIZE: usize = 16;

// The first configuration byte that is written.
const FIRST_WRITABLE: u16 = 2;

// Where bytes are written or read: wValue says it.
#[derive(Clone, Copy)]
enum Place {
    ConfigurationBytes,
    Memory,
}

impl TryFrom<u16> for Place {
    type Error = Refusal;

    fn try_from(value: u16) -> Result<Place, Refusal>
        ensures { MatchResult result (λ place. place_number place ≡ value) (λ e. (e ≡ Refusal.NoPlace) × ((in_bytes value || in_memory value) ≡ false)) }
    {
        match value {
            CONFIGURATION_BYTES => Ok(Place::ConfigurationBytes),
            MEMORY => Ok(Place::Memory),
            _ => Err(Refusal::NoPlace),
        }
    }
}

// Fields are the whole 16-bit numbers, low byte first. No `From`: it would be public, for one caller.
fn setup_of(setup: &[u8; 8]) -> Setup
    ensures { result ≡ setup_of setup.now }
{
    Setup {
        kind: setup[0],
        code: setup[1],
        value: lent::word(setup[2], setup[3]),
        index: lent::word(setup[4], setup[5]),
        length: lent::word(setup[6], setup[7]),
    }
}

// n bytes from start on lie among so many, and where n = 0 the start does.
fn is_inside(size: usize, start: u16, n: u16) -> bool
    ensures { result ≡ (ltb start size && leb (start + n) size) }
{
    (start as usize) < size && start as usize + n as usize <= size
}

// The type field says class or vendor, or the recipient is an endpoint (USB 2.0, 9.3).
fn needs_configuration(kind: u8) -> bool
    ensures { result ≡ needs_configuration kind }
{
    matches!(kind / 32 % 4, 1 | 2) || kind % 32 == 2
}

// The first and the last byte lie in different pages: what its page has before the start, and n bytes, are more than a page. With n = 0 no page is
// crossed. The compiler sees a power of two in each size, and divides by none.
#[tactic(auto, using(rules::proofs::Pages::within_page, rules::proofs::Pages::some_bytes))]
fn crosses_page(page: PageSize, start: u16, n: u16) -> bool
    ensures { result ≡ not (one_page (page_bytes page) start n) }
{
    let size = u16::from(page) as u32;
    start as u32 % size + n as u32 > size
}

// What a row of the table names. No Option: a None would say that it names nothing.
#[derive(Clone, Copy)]
enum Row {
    Request(Request),
    Descriptor,
}

impl TryFrom<Setup> for Row {
    type Error = Refusal;

    // By type, code, wValue, wIndex and wLength.
    #[tactic(auto, unfolding(rules::specs::Requests::request_of))]
    fn try_from(s: Setup) -> Result<Row, Refusal>
        ensures { MatchResult result (λ row. request_of s ≡ row_names row) (λ e. (e ≡ Refusal.NotInTable) × (request_of s ≡ Unknown)) }
    {
        match (s.kind, s.code, s.value, s.index, s.length) {
            (0x00, 0x09, 0 | 2, 0, 0) => Ok(Row::Request(Request::SetConfiguration)),
            (0x80, 0x08, 0, 0, 1) => Ok(Row::Request(Request::GetConfiguration)),
            (0x02, 0x01, 0, BULK_OUT | BULK_IN, 0) => Ok(Row::Request(Request::ClearFeature)),
            (0x82, 0x00, 0, BULK_OUT | BULK_IN, 2) => Ok(Row::Request(Request::GetStatus)),
            (0xA1, 0xFE, 0, 0, 1) => Ok(Row::Request(Request::GetMaxLun)),
            (0x21, 0xFF, 0, 0, 0) => Ok(Row::Request(Request::MassStorageReset)),
            (0x40, 0x01, _, _, _) => Ok(Row::Request(Request::LoadConfigData)),
            (0xC0, 0x02, _, _, _) => Ok(Row::Request(Request::ReadConfigData)),
            (0x40, 0x03, 0, 0, 0) => Ok(Row::Request(Request::SoftReset)),
            (0xC0, 0x01, _, _, _) => Ok(Row::Request(Request::BogusRead)),
            (0x80, 0x06, _, _, _) => Ok(Row::Descriptor),
            _ => Err(Refusal::NotInTable),
        }
    }
}

// A control request as it comes: what is seen of the bridge, the memory, the setup, and the lengths of the host's data and of the reply buffer.
#[derive(Clone, Copy)]
struct Asked<'a> {
    seen: Seen,
    memory: &'a [u8],
    setup: Setup,
    host: usize,
    room: usize,
}

impl<'a> Asked<'a> {
    // The M bytes of the memory that count.
    fn fitted(&self) -> &'a [u8]
        ensures { result.now ≡ fitted self.now.memory.now }
    {
        &self.memory[..self.memory.len().min(MEMORY_MOST)]
    }

    // Checks 2 and 3: the host sends wLength bytes where the type is below 0x80, else it is sent them. Each way has its own test for 2: with one for both
    // the compiler joins the rows of the table before 3, and most requests take more instructions.
    fn check_data(&self) -> Result<(), Refusal>
        ensures { let a = self.now in by_number result ≡ checked tt (first (data_checks false a.setup a.host a.room)) }
    {
        let n = self.setup.length as usize;
        if self.setup.kind < 0x80 {
            if self.host != n {
                return Err(Refusal::HostData);
            }
            return Ok(());
        }
        if self.host != 0 {
            return Err(Refusal::HostData);
        }
        if self.room < n {
            return Err(Refusal::ReplyRoom);
        }
        Ok(())
    }

    // A request of the table, with its place and address good where it has them.
    fn granted(&self, request: Request) -> Result<Granted, Refusal>
        ensures { let a = self.now in by_number result ≡ judged_by request a.setup (first (data_checks false a.setup a.host a.room)) }
    {
        self.check_data()?;
        Ok(Granted::Request(request, self.setup))
    }

    // A request that has a place: checks 6 to 10, and those of its data. In line, in an arm for each of the two, so that the compiler leaves out of a read
    // what only a write is asked.
    #[tactic(auto, unfolding(rules::specs::Requests::address))]
    #[inline(always)]
    fn placed(&self, request: Request) -> Result<Granted, Refusal>
        ensures { let a = self.now in let s = a.setup in let writes = is_a Request.LoadConfigData (Known request) in
            by_number result ≡ judged_by request s (first (place_checks (page_bytes a.seen.page) false true writes (size_of a.memory.now) s.value s.index s.length ++ data_checks false s a.host a.room)) }
    {
        let writes = matches!(request, Request::LoadConfigData);
        let start = self.setup.index;
        let n = self.setup.length;
        match Place::try_from(self.setup.value)? {
            Place::ConfigurationBytes => {
                let first = if writes { FIRST_WRITABLE } else { 0 };
                if start < first || !is_inside(CONFIGURATION_SIZE, start, n) {
                    return Err(Refusal::Outside);
                }
            }
            Place::Memory => {
                let fitted = self.fitted();
                if fitted.is_empty() {
                    return Err(Refusal::NoneFitted);
                }
                if !is_inside(fitted.len(), start, n) {
                    return Err(Refusal::Outside);
                }
                if writes && start % 8 != 0 {
                    return Err(Refusal::NotAtEight);
                }
                if writes && crosses_page(self.seen.page, start, n) {
                    return Err(Refusal::CrossesPage);
                }
            }
        }
        self.granted(request)
    }

    // Get Descriptor: checks 7, 18, 19, 18, 19 and 2. What it tells needs no room, so that 3 is not given.
    fn described(&self) -> Result<Granted, Refusal>
        ensures { let a = self.now in by_number result ≡ found_by a.seen a.memory.now a.setup (first (described_checks a.seen a.memory.now a.setup a.host)) }
    {
        let fitted = self.fitted();
        if fitted.is_empty() {
            return Err(Refusal::NoneFitted);
        }
        let found = descriptors::look(
            self.seen.bus_powered,
            self.seen.first_string,
            fitted,
            self.setup.value,
        )?;
        if self.host != 0 {
            return Err(Refusal::HostData);
        }
        let length = found.length.min(self.setup.length);
        let told = descriptors::find(fitted, Part { length, ..found });
        let length = told.len() as u16;
        Ok(Granted::Descriptor(Part { length, ..found }))
    }

    fn judged(&self) -> Result<Granted, Refusal>
        ensures { let a = self.now in by_number result ≡ judged a.seen a.memory.now (first (named_checks a.seen a.memory.now a.setup (request_of a.setup) a.host a.room)) a.setup }
    {
        match Row::try_from(self.setup)? {
            Row::Request(request @ Request::LoadConfigData) => self.placed(request),
            Row::Request(request @ Request::ReadConfigData) => self.placed(request),
            Row::Request(request) => self.granted(request),
            Row::Descriptor => self.described(),
        }
    }
}

// `host` and `room` are lengths: of the data from the host, and of the reply buffer.
#[tactic(auto, unfolding(rules::specs::Answers::request_answer))]
pub fn judge(
    seen: Seen,
    memory: &[u8],
    setup: &[u8],
    host: usize,
    room: usize,
) -> Result<Granted, Refusal>
    ensures { by_number result ≡ judged seen memory.now (request_answer seen memory.now setup.now host room) (setup_of setup.now) }
{
    let Some(setup) = setup.as_array() else {
        return Err(Refusal::SetupLength);
    };
    let setup = setup_of(setup);
    if !seen.configured && needs_configuration(setup.kind) {
        return Err(Refusal::Unconfigured);
    }
    let asked = Asked {
        seen,
        memory,
        setup,
        host,
        room,
    };
    asked.judged()
}
