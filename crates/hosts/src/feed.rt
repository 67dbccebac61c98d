// The feed: a host whose inputs and elapsed time come from a text of frame lines. It knows nothing of other hosts.

ghost use Rattle.std.specs.Prelude.{◌≡◌, ℕ, ◌+◌, true, List, drop, vec_items, is_ok, IfOk, IfErr};
ghost use Rattle.std.specs.List.{list_all};
ghost use Rattle.lines.specs.Lines.{lines_of};
ghost use Rattle.hosts.specs.declared.frames.Frame.{Frame};
ghost use Rattle.hosts.specs.Frames.{accepted, well_formed, frames};

use crate::image::Image;
use crate::{Host, frames};

mod taking;

// Four bytes each way; it takes every output byte. The frames ahead are the lines of `text` from byte `at` on: a number, since
// an iterator over them would borrow from the text beside it.
#[derive(Drop)]
pub struct Feed {
    text: Vec<u8>,
    at: usize,
    image: Image<4>,
    ghost formed: { list_all well_formed (lines_of (drop at (vec_items text))) ≡ true },
}

// Refusal 9: a line that is no frame line, or no line at all. The text is handed back.
#[derive(Drop)]
pub struct FrameFault {
    pub text: Vec<u8>,
}

impl Feed {
    ghost use Rattle.hosts.specs.Feeds.{feed_of, feed_meaning, standing, zeros, shown};

    // A feed over these frame lines, with every frame ahead; inputs, outputs and elapsed time are 0. A text that is not
    // accepted is refused, and handed back as it was.
    pub fn new(text: Vec<u8>) -> Result<Feed, FrameFault>
        ensures value { is_ok result ≡ accepted text.items }
        ensures made { IfOk result (λ f. (standing f ≡ shown (frames text.items) 0) × (feed_meaning f ≡ feed_of zeros 0 zeros)) }
        ensures refused { IfErr result (λ e. e.text ≡ text) }
    {
        if frames::accepted(text.as_slice()) {
            Ok(Feed {
                text,
                at: 0,
                image: Image {
                    inputs: [0; 4],
                    elapsed: 0,
                    outputs: [0; 4],
                },
            })
        } else {
            Err(FrameFault { text })
        }
    }
}

impl Host for Feed {
    ghost use Rattle.hosts.specs.Meaning.{Advanced, given};
    ghost use Rattle.hosts.specs.Feeds.{feed_meaning, standing, fed, shown};
    ghost use Rattle.std.proofs.Common.{rules};

    const W: u8 = 4;

    ghost W = { 4 };

    ghost meaning = { feed_meaning };

    ghost gives = { λ s n b t. standing t ≡ standing s };

    ghost advances = { λ s t. standing t ≡ fed (standing s) };

    ghost ranged = { Prim.search rules };

    ghost beyond = { Prim.search rules };

    fn input(&self, n: u8) -> u8 {
        self.image.input(n)
    }

    fn elapsed(&self) -> u32 {
        self.image.elapsed
    }

    fn takes(&self, n: u8) -> bool {
        self.image.takes(n)
    }

    fn output(&self, n: u8) -> u8 {
        self.image.output(n)
    }

    // `own`: no frame is lost by giving.
    fn give(&mut self, n: u8, b: u8)
        ensures after { feed_meaning self.new ≡ given (feed_meaning self.old) n b }
        ensures own { standing self.new ≡ standing self.old }
    {
        self.image.give(n, b);
    }

    // `own`: the next frame is taken. `count`: where k advances over any frames had led, k + 1 lead now.
    fn advance(&mut self)
        ensures same { Advanced (feed_meaning self.old) (feed_meaning self.new) }
        ensures own { standing self.new ≡ fed (standing self.old) }
        ensures count { (fs : List Frame) (k : ℕ) → standing self.old ≡ shown fs k → standing self.new ≡ shown fs (k + 1) }
    {
        self.take_next();
    }
}
