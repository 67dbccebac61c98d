// Where a scan's inputs come from and where its outputs go: the interface `Host`, and three hosts.
// It knows nothing of statements, blocks or machines.
#![tactic(auto)]

ghost use Rattle.std.specs.Prelude.{◌≡◌, ℕ, true};
ghost use Rattle.hosts.specs.Meaning.{Meaning, Ranged, Beyond, Advanced, given};
ghost use Rattle.hosts.specs.Benches.{bench_meaning, with_elapsed};
ghost use Rattle.hosts.specs.Feeds.{standing, fed};

pub mod bench;
pub mod feed;
pub mod frames;
mod image;
pub mod mask;

// A host answers questions on its bytes, is given outputs, and advances to the next inputs. Nothing here refuses: a byte
// from the width on is answered with 0 or no, and a byte that is not taken is given in vain.
pub trait Host {
    // The number of bytes, 1 to 128; for contracts too.
    const W: u8;

    ghost W: { ℕ };

    ghost meaning: { Self → Meaning };

    // What a host says of its own give and advance beyond this interface; a host that says nothing leaves them out.
    ghost gives: { Self → ℕ → ℕ → Self → Type 0 } = { λ _ _ _ _. Unit {0} };

    ghost advances: { Self → Self → Type 0 } = { λ _ _. Unit {0} };

    // The width W.
    fn width(&self) -> u8
        ensures value { result ≡ W }
    {
        Self::W
    }

    // Input byte n.
    fn input(&self, n: u8) -> u8
        ensures value { result ≡ (meaning self.now).inputs n };

    // The milliseconds between this advance and the one before.
    fn elapsed(&self) -> u32
        ensures value { result ≡ (meaning self.now).elapsed };

    // Whether output byte n is taken.
    fn takes(&self, n: u8) -> bool
        ensures value { result ≡ (meaning self.now).taken n };

    // Output byte n.
    fn output(&self, n: u8) -> u8
        ensures value { result ≡ (meaning self.now).outputs n };

    // Sets output byte n if it is taken, and else changes nothing.
    fn give(&mut self, n: u8, b: u8)
        ensures after { meaning self.new ≡ given (meaning self.old) n b }
        ensures own { gives self.old n b self.new };

    // On to the next inputs and elapsed time; which bytes are taken, and the outputs, stay.
    fn advance(&mut self)
        ensures same { Advanced (meaning self.old) (meaning self.new) }
        ensures own { advances self.old self.new };

    ghost ranged: { Ranged W };

    ghost beyond: { (h : Self) → Beyond W (meaning h) };
}

#[cfg(test)]
mod tests {
    use crate::Host;
    use crate::bench::Bench;
    use crate::feed::Feed;
    use crate::mask::Mask;
    use std::alloc::Global;
    use std::test::Fail;

    // Gives a byte and reads it back: of any host the meaning alone says what comes back.
    fn give_and_read<H: Host>(host: &mut H, n: u8, b: u8) -> u8
        ensures value { result ≡ (given (H.Host.meaning host.old) n b).outputs n }
        ensures after { H.Host.meaning host.new ≡ given (H.Host.meaning host.old) n b }
    {
        host.give(n, b);
        host.output(n)
    }

    // A masked feed goes on to its next frame, whatever is given to it before.
    fn give_and_advance(mask: &mut Mask<Feed>, n: u8, b: u8)
        ensures after { standing mask.new.host ≡ fed (standing mask.old.host) }
    {
        mask.give(n, b);
        mask.advance();
    }

    // A bench is set through the mask over it.
    fn set_through(mask: &mut Mask<Bench>, d: u32)
        ensures after { bench_meaning mask.new.host ≡ with_elapsed (bench_meaning mask.old.host) d }
        ensures same { mask.new.bits ≡ mask.old.bits }
    {
        mask.host_mut().set_elapsed(d);
    }

    // A host's constant is the width that it answers.
    fn width_is_constant<H: Host>(host: &H) -> bool
        ensures value { result ≡ true }
    {
        H::W == host.width()
    }

    fn feed(heap: Global, text: &[u8]) -> Result<Feed, Fail> {
        Feed::new(text.to_vec(heap)?).map_err(|_| Fail::new("refused"))
    }

    #[test]
    fn a_bench_is_set_by_hand(rt: HostRuntime) {
        let mut bench = Bench::new([7; 128], [9; 128]);
        assert!(rt; width_is_constant(&bench));
        assert!(rt; bench.set_input(127, 1) && !bench.set_input(128, 1));
        bench.set_elapsed(20);
        bench.advance();
        assert!(rt; bench.input(127) == 1 && bench.input(126) == 7 && bench.input(128) == 0);
        assert!(rt; bench.elapsed() == 20);
        assert!(rt;
            give_and_read(&mut bench, 127, 5) == 5 && give_and_read(&mut bench, 128, 5) == 0
        );
        assert!(rt; bench.output(0) == 9 && bench.takes(127) && !bench.takes(128));
    }

    #[test]
    fn a_feed_takes_frame_by_frame(rt: HostRuntime) -> Result<(), Fail> {
        let mut feed = feed(rt.alloc(), b"0000000a 01020304\nffffffff fffefdfc")?;
        assert!(rt; width_is_constant(&feed));
        assert!(rt; feed.elapsed() == 0 && feed.input(0) == 0 && feed.output(0) == 0);
        feed.advance();
        assert!(rt;
            feed.elapsed() == 10 && feed.input(0) == 1 && feed.input(3) == 4 && feed.input(4) == 0
        );
        feed.advance();
        assert!(rt; feed.elapsed() == 4294967295 && feed.input(0) == 255 && feed.input(3) == 252);
        feed.advance();
        assert!(rt; feed.elapsed() == 0 && feed.input(0) == 255 && feed.input(3) == 252);
        assert!(rt; give_and_read(&mut feed, 3, 5) == 5 && give_and_read(&mut feed, 4, 5) == 0);
        Ok(())
    }

    #[test]
    fn a_mask_holds_bytes_back(rt: HostRuntime) -> Result<(), Fail> {
        let mut mask = Mask::new(feed(rt.alloc(), b"0000000a 01020304\n")?, 2);
        assert!(rt; width_is_constant(&mask));
        assert!(rt; give_and_read(&mut mask, 0, 5) == 5 && give_and_read(&mut mask, 1, 5) == 0);
        give_and_advance(&mut mask, 1, 5);
        assert!(rt; mask.elapsed() == 10 && mask.input(1) == 2 && mask.output(0) == 5);
        let mut mask = Mask::new(Bench::new([0; 128], [9; 128]), 2147483648);
        assert!(rt; give_and_read(&mut mask, 31, 5) == 9 && give_and_read(&mut mask, 32, 5) == 5);
        set_through(&mut mask, 8);
        assert!(rt; mask.elapsed() == 8);
        let mut both = Mask::new(mask, 1);
        assert!(rt; width_is_constant(&both));
        assert!(rt; give_and_read(&mut both, 0, 5) == 9 && give_and_read(&mut both, 1, 5) == 5);
        assert!(rt; give_and_read(&mut both, 31, 5) == 9 && !both.takes(31) && both.takes(127));
        Ok(())
    }

    #[test]
    fn a_text_with_a_bad_line_is_refused(rt: HostRuntime) -> Result<(), Fail> {
        let bad: [&[u8]; 12] = [
            b"",
            b"\n",
            b"0000000a 0102030",
            b"0000000a 010203041",
            b"0000000A 01020304",
            b"0000000g 01020304",
            b"0000000a001020304",
            b"0000000a 01020304\r\n",
            b"0000000a 01020304\n\n",
            b"\n0000000a 01020304",
            b"0000000a 01020304\n0000000a",
            b"0000000a 01020304 ",
        ];
        for text in bad {
            match Feed::new(text.to_vec(rt.alloc())?) {
                Ok(_) => return Err(Fail::new("taken")),
                Err(fault) => assert_eq!(rt; fault.text.as_slice(), text, "handed back"),
            }
        }
        Ok(())
    }
}
