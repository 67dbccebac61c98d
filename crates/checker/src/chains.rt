// Which blocks chains of calls enter, as sets of slots. A slot is a number below 32, as the store answers it and is asked by it:
// a type of its own would be made and unmade at each question. It knows nothing of statements.
ghost use Rattle.std.specs.Prelude.{◌≡◌, ℕ, ◌^◌, ◌<◌, Decides};
ghost use Rattle.checker.specs.Chains.{In, Union, Called, Level, Entered};

use std::marker::Model;
use std::ops::BitOr;

// A set of slots: bit i stands for slot i. Contracts see the number that the bits are.
#[derive(Clone, Copy, PartialEq, Eq)]
pub(crate) struct SlotSet {
    bits: u32,
}

impl Model for SlotSet {
    ghost Value = { ℕ };

    ghost view = { λ set. set.bits };

    ghost inverse = { λ n. record { bits = n } };
}

impl SlotSet {
    // The set of no slot.
    pub(crate) const NONE: SlotSet = SlotSet { bits: 0 };

    // The set of one slot.
    pub(crate) fn of(slot: u8) -> SlotSet
        requires { slot < 32 }
        ensures value { result ≡ 2 ^ slot }
    {
        SlotSet { bits: 1 << slot }
    }

    // Whether a slot is in the set.
    pub(crate) fn has(self, slot: u8) -> bool
        requires { slot < 32 }
        ensures value { Decides result (In self slot) }
    {
        self.bits >> slot & 1 == 1
    }
}

impl BitOr for SlotSet {
    type Output = SlotSet;

    ghost bitor_gives = { λ one other both. Union one other both };

    fn bitor(self, other: SlotSet) -> SlotSet {
        SlotSet {
            bits: self.bits | other.bits,
        }
    }
}

// The slots called from a set of slots.
fn called(calls: &[SlotSet; 32], slots: SlotSet) -> SlotSet
    ensures value { Called calls.now slots 32 result }
{
    let mut out = SlotSet::NONE;
    for (slot, entered) in calls.iter().enumerate() {
        if slots.has(slot as u8) {
            out = out | *entered;
        }
    }
    out
}

// The slots that chains of a number of calls enter.
fn level(calls: &[SlotSet; 32], from: u8, depth: u32) -> SlotSet
    requires { from < 32 }
    ensures value { Level calls.now from depth result }
{
    let mut level = SlotSet::of(from);
    for _step in 0..depth {
        level = called(calls, level);
    }
    level
}

// The slots that chains of ten calls enter.
pub(crate) fn tenth(calls: &[SlotSet; 32], from: u8) -> SlotSet
    requires { from < 32 }
    ensures value { Level calls.now from 10 result }
{
    level(calls, from, 10)
}

// The slots that chains of any length enter.
pub(crate) fn entered(calls: &[SlotSet; 32], from: u8) -> SlotSet
    requires { from < 32 }
    ensures value { Entered calls.now from result }
{
    let mut reach = SlotSet::of(from);
    loop {
        let next = reach | called(calls, reach);
        if next == reach {
            return reach;
        }
        reach = next;
    }
}
