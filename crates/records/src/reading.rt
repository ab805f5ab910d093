// Records, as they are read from the front of a block.
ghost use Rattle.std.specs.Prelude.{◌≡◌, true, false, length, MatchOption};
ghost use Rattle.records.specs.Records.{torn};
ghost use Rattle.records.specs.Kinds.{kind_number};

const PAYLOAD_MOST: u16 = 520;

// The kinds of record are the events, in the order of their page.
#[derive(Clone, Copy)]
pub(crate) enum Kind {
    BusReset,
    Control,
    Packet,
    Report,
    Status,
}

#[derive(Clone, Copy)]
pub(crate) struct Record<'a> {
    pub(crate) kind: Kind,
    pub(crate) payload: &'a [u8],
    ghost not_torn: { torn (kind_number kind) (length payload.now) ≡ false },
}

// How a block begins: with a whole record, a torn one, or a part of which more may come.
#[derive(Clone, Copy)]
pub(crate) enum Head<'a> {
    Whole(Record<'a>),
    Torn,
    Part,
}

impl Kind {
    // Of a record with this kind and payload length; None where they tear it.
    #[tactic(auto, unfolding(crate::specs::Records::torn))]
    fn of(kind: u16, length: u16) -> Option<Kind>
        ensures { MatchOption result (torn kind length ≡ true) (λ k. (kind_number k ≡ kind) × (torn kind length ≡ false)) }
    {
        match (kind, length) {
            (1, 0) => Some(Kind::BusReset),
            (2, 0..=PAYLOAD_MOST) => Some(Kind::Control),
            (3, 0..=PAYLOAD_MOST) => Some(Kind::Packet),
            (4, 6) => Some(Kind::Report),
            (5, 0) => Some(Kind::Status),
            _ => None,
        }
    }
}

impl<'a> Head<'a> {
    ghost use Rattle.records.specs.Heads.{Cut, Begins};

    // Of a record of which n bytes are there and more may come, unless the stream ends with them.
    fn cut(last: bool, n: usize) -> Head<'a>
        ensures { Cut last n result }
    {
        if last && n != 0 {
            Head::Torn
        } else {
            Head::Part
        }
    }

    #[tactic(auto, unfolding(crate::specs::Records::head_of))]
    pub(crate) fn of(input: &'a [u8], last: bool) -> Head<'a>
        ensures { Begins last input.now result }
    {
        let [a, b, c, d, rest @ ..] = input else {
            return Head::cut(last, input.len());
        };
        let length = lent::word(*a, *b);
        let Some(kind) = Kind::of(lent::word(*c, *d), length) else {
            return Head::Torn;
        };
        match rest.get(..length as usize) {
            Some(payload) => Head::Whole(Record { kind, payload }),
            None => Head::cut(last, input.len()),
        }
    }
}
