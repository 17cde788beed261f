//! What is proved of the lines. The functions have the laws as their clauses, and do nothing.
ghost use Rattle.unread_keys.specs.Laws.{KeepsPlan, ListsNone, ListsUnread, TakesListed};

/// A key that is read at its place is never listed, and of a table whose keys are all read none is.
pub fn listing()
    ensures unread { ListsUnread }
    ensures none { ListsNone }
{}

/// A session file means the same with and without the keys that are listed of it, and with others that would be listed.
pub fn reading()
    ensures plan { KeepsPlan }
    ensures listed { TakesListed }
{}
