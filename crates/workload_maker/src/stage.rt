//! What the next event of a packet says.

/// The stages of a packet, in order. A contact that ends has no place.
#[derive(Clone, Copy, Debug, PartialEq, Eq)]
pub(crate) enum Stage {
    /// The slot that the packet is about.
    Slot,
    /// That the slot gets a contact, that its contact ends, or the column to which it moves.
    Contact,
    /// The column of a new contact.
    Column,
    /// The row of a contact.
    Row,
    /// The end of the packet.
    Report,
}
