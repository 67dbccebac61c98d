// Taking a feed's next frame. It knows nothing of how often that was done before.

ghost use Rattle.std.specs.Prelude.{◌≡◌};
ghost use Rattle.hosts.specs.Feeds.{standing, fed};

use crate::feed::Feed;
use crate::frames::{Taken, take_frame};

impl Feed {
    // Takes the next frame; past the last the inputs stay, and no time elapses.
    pub(crate) fn take_next(&mut self)
        ensures after { standing self.new ≡ fed (standing self.old) }
        ensures same { self.new.image.outputs ≡ self.old.image.outputs }
    {
        match take_frame(self.text.as_slice(), self.at) {
            Some(Taken { frame, next }) => {
                // By a variable, since an array assigned from a field directly did not prove.
                let inputs = frame.inputs;
                self.image.inputs = inputs;
                self.image.elapsed = frame.elapsed;
                self.at = next;
            }
            None => {
                self.image.elapsed = 0;
            }
        }
    }
}
