// The bench: records from standard input go through the bridge, and what it answers goes to standard output.
#![tactic(auto)]

ghost use Rattle.std.specs.Prelude.{◌≡◌, ◌-◌, ◌≤◌, length};

use rules::{Bridge, Dock, Drives, PageSize};
use std::io;
use std::io::{Read, Write};

// The input that was read, of which the part from `start` to `end` is still to be taken.
#[derive(Drop)]
struct Input {
    read: [u8; 65536],
    start: usize,
    end: usize,
    ghost inside: { (start ≤ end) × (end ≤ 65536) },
}

impl Input {
    fn rest(&self) -> &[u8]
        ensures { length result.now ≡ self.now.end - self.now.start }
    {
        &self.read[self.start..self.end]
    }

    fn take(&mut self, n: usize)
        requires { n ≤ self.old.end - self.old.start }
    {
        self.start += n;
    }

    // Waits for more input, behind what is still to be taken: so many bytes, and none at its end.
    fn refill(&mut self, rt: &HostRuntime) -> io::Result<usize> {
        self.read.copy_within(self.start..self.end, 0);
        self.end -= self.start;
        self.start = 0;
        let more = rt.stdin().read(&mut self.read[self.end..])?;
        self.end += more;
        Ok(more)
    }
}

// Takes what is there and writes its lines, and waits only when nothing could be taken.
fn main(rt: HostRuntime) -> io::Result<()> {
    let mut bridge = Bridge::power_on(Dock {
        bus_powered: false,
        page: PageSize::Of256,
        drives: Drives::One,
    });
    let mut bytes = rules::power_on_bytes();
    let mut memory = [0xFF; 2048];
    let mut output = [0; 65536];
    let mut input = Input {
        read: [0; 65536],
        start: 0,
        end: 0,
    };
    let mut last = false;
    // Counted, since a proved loop ends: `rt.forever()` takes a `Wait`, and the repository has no HANDLES that allows one. No stream uses so many turns up.
    for _ in 0..u64::MAX {
        let ran = records::run(
            bridge,
            &mut bytes,
            input.rest(),
            last,
            &mut memory,
            &mut output,
        );
        rt.stdout().write_all(&output[..ran.written])?;
        bridge = ran.bridge;
        input.take(ran.used);
        if ran.torn {
            break;
        }
        if ran.used == 0 {
            if last {
                break;
            }
            last = input.refill(&rt)? == 0;
        }
    }
    Ok(())
}
