// Lines, put into the lent output one behind the other.
ghost use Rattle.std.specs.Prelude.{◌≡◌, [], ◌∷◌, ◌-◌, ◌≤◌, ◌<◌, length, List, ℕ};
ghost use Rattle.rules.specs.Numbered.{answer_of, count_of};
ghost use Rattle.lent.specs.Rows.{Put, Fits};
ghost use Rattle.records.specs.Lines.{digit as digitOf, number, two, hex_byte, hex_word, each};

use rules::refusals::Refusal;

// The lent output, and the place in it behind all that was put. Its contracts each ask for room of another length.
#[derive(Drop)]
pub(crate) struct Printer<'a> {
    output: &'a mut [u8],
    at: usize,
    ghost inside: { at ≤ length output.now },
}

// What a line has in hex, behind a space.
pub(crate) trait Hex: Copy {
    ghost use Rattle.records.specs.Puts.{Puts, Room};

    ghost hex: { Self → List ℕ };

    fn put_hex(self, printer: &mut Printer)
        requires { Room printer.old (hex self) }
        ensures { Puts printer.old (hex self) printer.new };
}

impl Hex for u8 {
    ghost use Rattle.records.specs.Puts.{Puts, Room};

    ghost hex = { hex_byte };

    fn put_hex(self, printer: &mut Printer) {
        printer.put(b' ');
        printer.put_two(self);
    }
}

impl Hex for u16 {
    ghost use Rattle.records.specs.Puts.{Puts, Room};

    ghost hex = { hex_word };

    fn put_hex(self, printer: &mut Printer) {
        let [high, low] = self.to_be_bytes();
        printer.put(b' ');
        printer.put_two(high);
        printer.put_two(low);
    }
}

// 0 to 9, then A on. This and `put_number` by hand, since `write!` into what is lent would take an impl of `fmt::Write`, and its error, for these two lines.
fn digit(d: u8) -> u8
    requires { d < 36 }
    ensures { result ≡ digitOf d }
{
    if d < 10 { b'0' + d } else { b'A' + (d - 10) }
}

// "0 done", and else the refusal's. Not by `in_one_number`: a line has the count in its bytes.
fn number_of(answer: Result<u16, Refusal>) -> u8
    ensures { result ≡ answer_of answer }
{
    match answer {
        Ok(_) => 0,
        Err(refusal) => u8::from(refusal),
    }
}

// Each of them, from `at` on; gives the place behind them. By a printer of its own: one that is lent has its place in memory, which is read again behind
// each byte that is put.
fn put_all<T: Hex>(output: &mut [u8], at: usize, all: &[T]) -> usize
    requires { Fits output.old at (each T.hex all.now) }
    ensures { Put output.old at (each T.hex all.now) output.new result }
{
    let mut printer = Printer::behind(output, at);
    for one in all {
        one.put_hex(&mut printer);
    }
    printer.at
}

impl<'a> Printer<'a> {
    ghost use Rattle.records.specs.Puts.{Puts, Room, line_of};

    pub(crate) fn new(output: &'a mut [u8]) -> Self
        ensures same_reference { result.output.ghost_name ≡ output.entry.ghost_name }
        ensures blank { (result.at ≡ 0) × (result.output.now ≡ output.old) }
    {
        Printer::behind(output, 0)
    }

    // Behind what stands there already.
    fn behind(output: &'a mut [u8], at: usize) -> Self
        requires { at ≤ length output.old }
        ensures same_reference { result.output.ghost_name ≡ output.entry.ghost_name }
        ensures placed { (result.at ≡ at) × (result.output.now ≡ output.old) }
    {
        Printer { output, at }
    }

    // The bytes that are left.
    pub(crate) fn room(&self) -> usize
        ensures { result ≡ length self.now.output.now - self.now.at }
    {
        self.output.len() - self.at
    }

    pub(crate) fn written(&self) -> usize
        ensures { result ≡ self.now.at }
    {
        self.at
    }

    fn put(&mut self, byte: u8)
        requires { Room self.old (byte ∷ []) }
        ensures { Puts self.old (byte ∷ []) self.new }
    {
        self.output[self.at] = byte;
        self.at += 1;
    }

    #[tactic(auto, using(crate::proofs::Putting::put_text))]
    pub(crate) fn put_text(&mut self, text: &[u8])
        requires { Room self.old text.now }
        ensures { Puts self.old text.now self.new }
    {
        let end = self.at + text.len();
        self.output[self.at..end].copy_from_slice(text);
        self.at = end;
    }

    fn put_two(&mut self, byte: u8)
        requires { Room self.old (two byte) }
        ensures { Puts self.old (two byte) self.new }
    {
        self.put(digit(byte / 16));
        self.put(digit(byte % 16));
    }

    fn put_number(&mut self, n: u8)
        requires { Room self.old (number n) }
        ensures { Puts self.old (number n) self.new }
    {
        if n >= 10 {
            self.put(digit(n / 10));
        }
        self.put(digit(n % 10));
    }

    fn put_each<T: Hex>(&mut self, all: &[T])
        requires { Room self.old (each T.hex all.now) }
        ensures { Puts self.old (each T.hex all.now) self.new }
    {
        self.at = put_all(self.output, self.at, all);
    }

    // The line of an answer, with as much of `out` as was handed out.
    #[tactic(auto, using(crate::proofs::Putting::line_left))]
    pub(crate) fn put_line<T: Hex>(&mut self, answer: Result<u16, Refusal>, out: &[T])
        requires there { count_of answer ≤ length out.now }
        requires room { Room self.old (line_of T.hex answer out.now) }
        ensures { Puts self.old (line_of T.hex answer out.now) self.new }
    {
        self.put_number(number_of(answer));
        let count = answer.unwrap_or(0) as usize;
        self.put_each(&out[..count]);
        self.put(b'\n');
    }
}
