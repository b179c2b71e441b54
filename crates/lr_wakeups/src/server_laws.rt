ghost use Rattle.lr_wakeups.specs.Keeps.{OfEachThread, ReplyKeepsFacts, PushKeepsFacts, OrderKeepsFacts, PostKeepsFacts, GoingOnKeepsFacts};

/// The reply to a call keeps all facts, where one that refuses it on a channel that wakes one of
/// many gives a timer that isn't later than the peak, on a channel that wakes all leaves it
/// waiting, and on the channel of a fair lock leaves it a place.
pub fn a_reply_keeps_the_facts()
    ensures { OfEachThread ReplyKeepsFacts }
{}

/// So does an item that comes: an acknowledgement, or a message.
pub fn an_item_keeps_the_facts()
    ensures { PushKeepsFacts }
{}

/// And an order that the server executes.
pub fn an_executed_order_keeps_the_facts()
    ensures { OrderKeepsFacts }
{}

/// And a message that is sent, where it doesn't drop the connection. The peak of its channel may be
/// lower then, and who waits there may wait no longer: a client whose thread does has the message on
/// its way. The owner who made the call wasn't refused, so its place may be another.
pub fn a_message_keeps_the_facts()
    ensures { PostKeepsFacts }
{}

/// And time that passes, and what the server does without a message: also a call, where its owner
/// wasn't refused.
pub fn going_on_keeps_the_facts()
    ensures { GoingOnKeepsFacts }
{}
