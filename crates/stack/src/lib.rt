// One bounded stack over a slice that its maker lends, written once for every element type.
// It allocates nothing, and knows nothing of what its elements mean or who lends the slice.
#![tactic(auto)]

ghost use Rattle.std.specs.Prelude.{◌≡◌, ◌+◌, ◌-◌, ◌≤◌, length, if◌then◌else◌, slice_set};
ghost use Rattle.stack.specs.Held.{held, clamped, room, pushed, written, Popped, Topmost};

// The first `depth` slots are the stack, oldest first; what lies past them is not the stack's. A slice with a depth beside
// it, since the slots are the lender's: nothing is allocated.
#[derive(Drop)]
pub struct Stack<'a, T> {
    slots: &'a mut [T],
    depth: usize,
    ghost within: { depth ≤ length slots.now },
}

// In each contract the clause `same` has the reference's name: what the stack leaves in the slice is what its lender
// finds there.
impl<'a, T: Copy> Stack<'a, T> {
    // The stack of what the first `depth` slots hold. A depth past the slice counts as full.
    pub fn over(slots: &'a mut [T], depth: usize) -> Stack<'a, T>
        ensures value { held result.slots.now result.depth ≡ held slots.old (clamped slots.old depth) }
        ensures depth { result.depth ≡ clamped slots.old depth }
        ensures same { (result.slots.now ≡ slots.old) × (result.slots.ghost_name ≡ slots.entry.ghost_name) }
    {
        let full = slots.len();
        Stack {
            slots,
            depth: depth.min(full),
        }
    }

    // How many it holds.
    pub fn depth(&self) -> usize
        ensures value { result ≡ self.now.depth }
        ensures count { result ≡ length (held self.now.slots.now self.now.depth) }
    {
        self.depth
    }

    // One more on top. Full: says no, and nothing changed. No slot but the pushed one changes.
    #[tactic(auto, using(std::proofs::lemmas::List::take_more_set))]
    pub fn push(&mut self, x: T) -> bool
        ensures value { result ≡ room self.old.slots.now self.old.depth }
        ensures after { held self.new.slots.now self.new.depth ≡ pushed result (held self.old.slots.now self.old.depth) x }
        ensures depth_after { self.new.depth ≡ (if result then self.old.depth + 1 else self.old.depth) }
        ensures slots_after { self.new.slots.now ≡ written result self.old.slots.now self.old.depth x }
        ensures same { self.new.slots.ghost_name ≡ self.old.slots.ghost_name }
    {
        if self.depth >= self.slots.len() {
            return false;
        }
        self.slots[self.depth] = x;
        self.depth += 1;
        true
    }

    // The newest, taken off. Empty: none, and nothing changed. No slot changes.
    #[tactic(auto, using(std::proofs::lemmas::List::take_more))]
    pub fn pop(&mut self) -> Option<T>
        ensures value { Topmost result self.old.slots.now self.old.depth }
        ensures after { Popped result (held self.old.slots.now self.old.depth) (held self.new.slots.now self.new.depth) }
        ensures depth_after { self.new.depth ≡ self.old.depth - 1 }
        ensures same { (self.new.slots.now ≡ self.old.slots.now) × (self.new.slots.ghost_name ≡ self.old.slots.ghost_name) }
    {
        self.depth = self.depth.checked_sub(1)?;
        Some(self.slots[self.depth])
    }
}

#[cfg(test)]
mod tests {
    use super::*;

    // A lender that pushes onto its own row knows the row afterwards: one slot written, the rest as it was.
    fn lend(row: &mut [u8; 5], x: u8)
        ensures after { row.new ≡ slice_set row.old 2 x }
    {
        let mut stack = Stack::over(row, 2);
        let _ = stack.push(x);
    }

    #[test]
    fn five_fit_and_come_back_in_reverse(rt: HostRuntime) {
        let mut slots = [0u8; 5];
        let mut stack = Stack::over(&mut slots, 0);
        assert_eq!(rt; stack.pop(), None, "empty");
        for x in 1..6u8 {
            assert!(rt; stack.push(x), "five fit");
        }
        assert!(rt; !stack.push(6), "a sixth is refused");
        assert_eq!(rt; stack.depth(), 5);
        for x in 1..6u8 {
            assert_eq!(rt; stack.pop(), Some(6 - x), "newest first");
        }
        assert_eq!(rt; stack.pop(), None, "empty again");
    }

    #[test]
    fn a_depth_past_the_slice_is_full(rt: HostRuntime) {
        let mut slots = [7u8, 8];
        let mut stack = Stack::over(&mut slots, 9);
        assert_eq!(rt; stack.depth(), 2);
        assert!(rt; !stack.push(1));
        assert_eq!(rt; stack.pop(), Some(8));
    }

    #[test]
    fn the_lender_finds_what_was_pushed(rt: HostRuntime) {
        let mut row = [1u8, 2, 3, 4, 5];
        lend(&mut row, 9);
        assert_eq!(rt; row, [1, 2, 9, 4, 5]);
    }
}
