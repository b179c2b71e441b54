ghost use Rattle.std.specs.Prelude.{◌≡◌};
ghost use Rattle.lr_model.specs.Board.{is_open};
ghost use Rattle.lr_pubsub.specs.BoardValue.{board_of};

use lr_limits::{MOST_CONNECTIONS, MOST_WAITING};
use lr_names::{Channel, Kind, Name, Post, Push, Wakes};
use lr_pubsub::{Board, BoardFault};
use std::test::Fail;

// The channel of the reentrant lock with this name.
fn channel(name: &[u8]) -> Result<Channel, Fail> {
    match Name::parse(name) {
        Ok(name) => Ok(Channel::of(Kind::Mutex, &name)),
        Err(_) => Err("no name".into()),
    }
}

// Whether a connection is open, as calls that need an open one ask.
fn is_open(board: &Board, conn: u32) -> bool
    ensures { result ≡ is_open (board_of board.now conn) }
{
    board.opener(conn).is_some()
}

// Whether a connection subscribes, and is told that it then has so many channels.
fn subscribes(board: &mut Board, conn: u32, channel: &Channel, channels: u32) -> bool {
    is_open(board, conn) && board.subscribe(conn, channel) == Ok(channels)
}

// Whether a connection leaves a channel, and is told that it then has so many.
fn unsubscribes(board: &mut Board, conn: u32, channel: &Channel, channels: u32) -> bool {
    is_open(board, conn) && board.unsubscribe(conn, channel) == Ok(channels)
}

// Whether a message reaches so many connections and drops these.
fn delivers(board: &mut Board, channel: Channel, reached: u32, dropped: &[u32]) -> bool {
    match board.post(&Post::to(channel)) {
        Ok(posted) => posted.reached == reached && posted.dropped.as_slice() == dropped,
        Err(_) => false,
    }
}

// Whether a connection is handed out its first four items, and so many are left.
fn hands_out(board: &mut Board, conn: u32, items: &[Push], left: usize) -> bool {
    if !is_open(board, conn) {
        return false;
    }
    match board.drain(conn, 4) {
        Ok(pushes) => pushes.as_slice() == items && board.waiting(conn) == left,
        Err(_) => false,
    }
}

// Whether a connection closes, and its number is the next one.
fn is_free_once_closed(board: &mut Board, conn: u32) -> bool {
    if !is_open(board, conn) {
        return false;
    }
    board.close(conn);
    board.next_free() == Some(conn)
}

// Whether subscriptions are counted, a repeat too.
fn counts(board: &mut Board, orders: &Channel, stock: &Channel) -> bool {
    subscribes(board, 200, orders, 1)
        && subscribes(board, 1, stock, 1)
        && subscribes(board, 1, orders, 2)
        && subscribes(board, 1, orders, 2)
        && subscribes(board, 70, orders, 1)
        && board.channel_count(1) == 2
}

// Whether a message goes to all that have its channel, until one leaves.
fn reaches(board: &mut Board, orders: &Channel) -> bool {
    delivers(board, *orders, 3, &[])
        && unsubscribes(board, 200, orders, 0)
        && delivers(board, *orders, 2, &[])
        && board.in_flight(70, orders)
        && !board.has_channel(200, orders)
}

#[test]
fn a_message_reaches_the_subscribed(rt: HostRuntime) -> Result<(), Fail> {
    let orders = channel(b"orders")?;
    let stock = channel(b"stock")?;
    let mut board = Board::new(rt.alloc(), 200)?;
    let told = [
        Push::Subscribed(stock, 1),
        Push::Subscribed(orders, 2),
        Push::Subscribed(orders, 2),
        Push::Message(orders, Wakes::One),
    ];
    assert!(rt; counts(&mut board, &orders, &stock) && reaches(&mut board, &orders));
    assert!(rt; hands_out(&mut board, 1, &told, 1) && is_free_once_closed(&mut board, 1));
    Ok(())
}

// Whether the outbox of a connection is filled with acknowledgements of one channel.
fn fills(board: &mut Board, conn: u32, channel: &Channel) -> bool {
    for _ in 0..MOST_WAITING {
        if !subscribes(board, conn, channel, 1) {
            return false;
        }
    }
    board.is_shut(conn)
}

// Whether a connection was dropped: it lost all that it had, and takes no channel.
fn is_gone(board: &mut Board, conn: u32, channel: &Channel) -> bool {
    is_open(board, conn)
        && board.is_dropped(conn)
        && board.channel_count(conn) == 0
        && board.waiting(conn) == 0
        && board.subscribe(conn, channel) == Err(BoardFault::Dropped)
}

#[test]
fn connections_that_read_too_slowly_are_dropped(rt: HostRuntime) -> Result<(), Fail> {
    let orders = channel(b"orders")?;
    let mut board = Board::new(rt.alloc(), 200)?;
    assert!(rt; fills(&mut board, 200, &orders) && fills(&mut board, 70, &orders));
    assert!(rt; subscribes(&mut board, 3, &orders, 1));
    assert!(rt; delivers(&mut board, orders, 1, &[70, 200]));
    assert!(rt; is_gone(&mut board, 70, &orders) && is_free_once_closed(&mut board, 70));
    Ok(())
}

// Whether the next connection opens at a number, and can subscribe.
fn opens(board: &mut Board, conn: u32, channel: &Channel) -> bool {
    if conn >= MOST_CONNECTIONS || is_open(board, conn) {
        return false;
    }
    let next = board.next_free() == Some(conn);
    board.open(conn, 7);
    next && board.reserve().is_ok()
        && subscribes(board, conn, channel, 1)
        && board.opener(conn) == Some(7)
}

#[test]
fn a_connection_opens_at_the_least_number(rt: HostRuntime) -> Result<(), Fail> {
    let orders = channel(b"orders")?;
    let mut board = Board::new(rt.alloc(), 63)?;
    assert!(rt; is_free_once_closed(&mut board, 5));
    assert!(rt; opens(&mut board, 5, &orders) && opens(&mut board, 64, &orders));
    Ok(())
}
