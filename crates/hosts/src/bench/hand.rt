// Setting a bench by hand. It knows nothing of outputs.

ghost use Rattle.std.specs.Prelude.{◌≡◌, nat_lt};
ghost use Rattle.hosts.specs.Benches.{bench_meaning, with_elapsed, with_input};

use crate::Host;
use crate::bench::Bench;

impl Bench {
    // Sets the elapsed time.
    pub fn set_elapsed(&mut self, d: u32)
        ensures after { bench_meaning self.new ≡ with_elapsed (bench_meaning self.old) d }
    {
        self.image.elapsed = d;
    }

    // Sets input byte n; from 128 on it says no, and nothing changed.
    pub fn set_input(&mut self, n: u8, b: u8) -> bool
        ensures value { result ≡ nat_lt n 128 }
        ensures after { bench_meaning self.new ≡ with_input result (bench_meaning self.old) n b }
    {
        let granted = n < Self::W;
        if granted {
            self.image.inputs[n as usize] = b;
        }
        granted
    }
}
