ghost use Rattle.std.specs.Prelude.{◌≡◌, ℕ, suc, List, [], true};
ghost use Rattle.lr_names.specs.Channel.{ChannelOf};
ghost use Rattle.lr_model.specs.Board.{Connection, has_channel, closed_connection};
ghost use Rattle.lr_waiting.specs.Latch.{is_subscribed};
ghost use Rattle.lr_waiting.specs.Client.{Client, new_client, cut_client};
ghost use Rattle.lr_wakeups.specs.Orders.{IsHeard};
ghost use Rattle.lr_wakeups.specs.Facts.{Facts};
ghost use Rattle.lr_wakeups.specs.Reached.{Present};

/// The facts of a client before its first request.
pub fn the_facts_at_start()
    ensures { (n : ℕ) (present : Present) (id : List ℕ) (lease : ℕ) (connection : Connection)
        → connection.channels ≡ [] → connection.outbox ≡ []
        → Facts n present (new_client id lease) connection }
{}

/// And of one that was cut off, whose connection was closed.
pub fn a_cut_keeps_the_facts()
    ensures { (n : ℕ) (present : Present) (client : Client)
        → Facts n present (cut_client client) closed_connection }
{}

/// The facts where more orders may have been made.
pub fn more_orders_keep_the_facts()
    ensures { (n : ℕ) (present : Present) (client : Client) (connection : Connection)
        → Facts n present client connection → Facts (suc n) present client connection }
{}

/// Where a client hears a channel, all is told: no order of it waits, no acknowledgement of an order
/// to subscribe is on its way, and the connection has the channel.
pub fn a_client_that_hears_has_told_all()
    ensures { (n : ℕ) (present : Present) (client : Client) (connection : Connection)
        (channel : ChannelOf)
        → Facts n present client connection
        → is_subscribed (client.session.latches.entries channel) ≡ true
        → IsHeard channel client.session.latches.orders (has_channel channel connection)
        connection.outbox }
{}
