// The mask: any host, another mask too, with some of its first 32 output bytes held back. It knows nothing of that host but
// the interface.

ghost use Rattle.std.specs.Prelude.{◌≡◌, MatchBool};
ghost use Rattle.std.specs.Borrow.{sem, follows};
ghost use Rattle.hosts.specs.contracts.mask.Mask.{the_row};
ghost use Rattle.hosts.specs.Masks.{held_back, masked};
ghost use Rattle.std.proofs.Common.{rules};

use crate::Host;

// Over `host`, with bit n of `bits` set where byte n is not to be taken.
#[derive(Drop)]
pub struct Mask<H: Host> {
    host: H,
    bits: u32,
}

impl<Under: Host> Mask<Under> {
    // This host under a mask of these bits.
    pub fn new(host: Under, bits: u32) -> Mask<Under>
        ensures value { result ≡ record { host = host; bits = bits } }
    {
        Mask { host, bits }
    }

    // The host under the mask, for calls of its own; the bits stay.
    pub fn host_mut(&mut self) -> &mut Under
        ensures* follows { sem 𝓛 (follows (the_row Under.row) Under.row self.entry.ghost_name result.ghost_name (λ w. record { host = w; bits = self.old.bits })) }
        ensures value { result.now ≡ self.old.host }
    {
        &mut self.host
    }
}

impl<H: Host> Host for Mask<H> {
    const W: u8 = H::W;

    ghost W = { H.W };

    ghost meaning = { λ s. masked s.bits (H.Host.meaning s.host) };

    ghost gives = { λ s n b t. (t.bits ≡ s.bits) × MatchBool ((masked s.bits (H.Host.meaning s.host)).taken n) (H.Host.gives s.host n b t.host) (t.host ≡ s.host) };

    ghost advances = { λ s t. (t.bits ≡ s.bits) × H.Host.advances s.host t.host };

    ghost ranged = { Prim.search rules };

    ghost beyond = { Prim.search rules };

    fn input(&self, n: u8) -> u8 {
        self.host.input(n)
    }

    fn elapsed(&self) -> u32 {
        self.host.elapsed()
    }

    fn takes(&self, n: u8) -> bool {
        self.host.takes(n) && !held_back(self.bits, n)
    }

    fn output(&self, n: u8) -> u8 {
        self.host.output(n)
    }

    fn give(&mut self, n: u8, b: u8) {
        if self.takes(n) {
            self.host.give(n, b);
        }
    }

    fn advance(&mut self) {
        self.host.advance();
    }
}

// Whether a mask of these bits holds byte n back.
fn held_back(bits: u32, n: u8) -> bool
    ensures value { result ≡ held_back bits n }
{
    n < 32 && (bits >> n) % 2 == 1
}
