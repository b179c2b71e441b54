ghost use Rattle.std.specs.Prelude.{◌≡◌, ◌+◌, ◌≤◌, map, length, ◌++◌, codes, decimal, OnOk, OnErr};
ghost use Rattle.lr_machine.specs.Clients.{client_at};
ghost use Rattle.lr_machine.specs.Transcript.{cut_text, stand_text, standing_text, further_text, standings_text};
ghost use Rattle.lr_schedule.specs.Tail.{BeginsWith};

use crate::line::{Line, push_number};
use lr_machine::client_at;
use lr_text::Text;
use lr_waiting::{Stand, Standing};
use std::alloc::AllocError;

/// Appends the clients that were cut off, by a connection of each. An error leaves a front of it.
pub fn append_cuts(out: &mut Text, connections: &[u32]) -> Result<(), AllocError>
    ensures ok { OnOk result (out.new ≡ out.old ++ cut_text (map client_at connections.now)) }
    ensures err { OnErr result (BeginsWith out.old out.new) }
{
    for connection in connections {
        append_cut(out, client_at(*connection))?;
    }
    Ok(())
}

fn append_cut(out: &mut Text, client: u32) -> Result<(), AllocError>
    ensures ok { OnOk result (out.new ≡ out.old ++ (codes " cut " ++ decimal client)) }
    ensures err { OnErr result (out.new ≡ out.old) }
{
    let mut piece = Line::new();
    piece.push_bytes(b" cut ");
    push_number(&mut piece, u64::from(client));
    out.push_bytes(piece.as_slice())
}

/// Appends what stands for each thread that sleeps. An error leaves a front of it.
pub fn append_standings(out: &mut Text, standings: &[Standing]) -> Result<(), AllocError>
    ensures ok { OnOk result (out.new ≡ out.old ++ standings_text standings.now) }
    ensures err { OnErr result (BeginsWith out.old out.new) }
{
    match standings {
        [] => out.push_bytes(b"none"),
        [first, further @ ..] => {
            append_standing(out, b"", first)?;
            append_further(out, further)
        }
    }
}

fn append_further(out: &mut Text, standings: &[Standing]) -> Result<(), AllocError>
    ensures ok { OnOk result (out.new ≡ out.old ++ further_text standings.now) }
    ensures err { OnErr result (BeginsWith out.old out.new) }
{
    for standing in standings {
        append_standing(out, b"; ", standing)?;
    }
    Ok(())
}

// Appends a thread behind these bytes.
fn append_standing(out: &mut Text, front: &[u8], standing: &Standing) -> Result<(), AllocError>
    requires { length front.now ≤ 2 }
    ensures ok { OnOk result (out.new ≡ out.old ++ (front.now ++ standing_text standing.now)) }
    ensures err { OnErr result (out.new ≡ out.old) }
{
    let mut row = Line::new();
    row.push_bytes(front);
    push_number(&mut row, u64::from(standing.client));
    row.push_bytes(b" ");
    push_number(&mut row, u64::from(standing.thread));
    row.push_bytes(b" ");
    push_stand(&mut row, &standing.stand);
    out.push_bytes(row.as_slice())
}

fn push_stand(line: &mut Line, stand: &Stand)
    requires { length line.old ≤ 44 }
    ensures { line.new ≡ line.old ++ stand_text stand.now }
{
    match stand {
        Stand::Message => line.push_bytes(b"message"),
        Stand::Permit => line.push_bytes(b"permit"),
        Stand::Awake => line.push_bytes(b"awake"),
        Stand::Held => line.push_bytes(b"held"),
        Stand::Broadcast => line.push_bytes(b"broadcast"),
        Stand::Timer(moment) => {
            line.push_bytes(b"timer ");
            push_number(line, *moment);
        }
        Stand::Nobody => line.push_bytes(b"nobody"),
    }
}
