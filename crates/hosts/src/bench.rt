// The bench: a host whose inputs and elapsed time are set by hand. It knows nothing of other hosts.

ghost use Rattle.std.specs.Prelude.{◌≡◌};
ghost use Rattle.hosts.specs.Meaning.{Advanced};
ghost use Rattle.hosts.specs.Benches.{bench_of, bench_meaning};
ghost use Rattle.std.proofs.Common.{rules};

use crate::Host;
use crate::image::Image;

mod hand;

// 128 bytes each way; it takes every output byte.
#[derive(Drop)]
pub struct Bench {
    image: Image<128>,
}

impl Bench {
    // A bench with these first inputs and outputs; no time has elapsed.
    pub fn new(inputs: [u8; 128], outputs: [u8; 128]) -> Bench
        ensures value { bench_meaning result ≡ bench_of inputs 0 outputs }
    {
        Bench {
            image: Image {
                inputs,
                elapsed: 0,
                outputs,
            },
        }
    }
}

impl Host for Bench {
    const W: u8 = 128;

    ghost W = { 128 };

    ghost meaning = { bench_meaning };

    ghost advances = { λ s t. t ≡ s };

    ghost ranged = { Prim.search rules };

    ghost beyond = { Prim.search rules };

    // The bytes are the image's. The feed has the same lines: the trait would need an image of its width to answer them, and no
    // type takes a constant of a trait.
    fn input(&self, n: u8) -> u8 {
        self.image.input(n)
    }

    fn elapsed(&self) -> u32 {
        self.image.elapsed
    }

    fn takes(&self, n: u8) -> bool {
        self.image.takes(n)
    }

    fn output(&self, n: u8) -> u8 {
        self.image.output(n)
    }

    fn give(&mut self, n: u8, b: u8) {
        self.image.give(n, b);
    }

    // `own`: nothing changes.
    fn advance(&mut self)
        ensures same { Advanced (bench_meaning self.old) (bench_meaning self.new) }
        ensures own { self.new ≡ self.old }
    {
        // A bench stands still: inputs and elapsed time are what its user set last.
    }
}
