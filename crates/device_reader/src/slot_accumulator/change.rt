//! What an event changes among the contacts of a device.

/// What an event that ends no packet changes among the contacts that the slots of a device hold.
#[derive(Clone, Copy, Debug, PartialEq, Eq)]
pub enum Change {
    /// Nothing.
    Nothing,
    /// The contact of this slot, if the slot holds one, may be elsewhere. The others are as before.
    Position(u8),
    /// A tracking id was written: other contacts may be there.
    Contacts,
}
