// The tags of the two trees: the first byte of a message that joins two nodes.
ghost use Rattle.std.specs.Prelude.{◌≡◌, ℕ, List, refl};
ghost use Rattle.digest.specs.Messages.{node_message, round_message, calendar_message};
ghost use Rattle.digest.specs.declared.value.Digest.{Digest};

use crate::value::Digest;

pub trait Tag {
    const BYTE: u8;

    ghost BYTE: { ℕ };

    // the message of two nodes
    ghost message: { Digest → Digest → List ℕ };

    ghost tagged: { (left right : Digest) → message left right ≡ node_message BYTE left right };
}

// The tree of a round.
pub struct Round;

impl Tag for Round {
    const BYTE: u8 = 1;

    ghost BYTE = { 1 };

    ghost message = { round_message };

    ghost tagged = { λ left right. refl };
}

// The tree of the calendar.
pub struct Calendar;

impl Tag for Calendar {
    const BYTE: u8 = 2;

    ghost BYTE = { 2 };

    ghost message = { calendar_message };

    ghost tagged = { λ left right. refl };
}
