ghost use Rattle.std.specs.Prelude.{◌≡◌, IfOk, IfErr};
ghost use Rattle.lr_names.specs.Channel.{IsChannel, channel_text};
ghost use Rattle.lr_requests.specs.Channels.{AreTextsOf, AreChannelTexts, IsChannelText};
ghost use Rattle.lr_requests.specs.Refusal.{IsChannelsFault};

use crate::fault::CommandFault;
use lr_commands::Channels;
use lr_frames::Words;
use lr_names::Channel;
use std::alloc::Global;

/// Reads channels, in order. Without memory or a channel that is spelled right there are none.
pub fn read_channels(alloc: Global, words: &Words<'_>) -> Result<Channels, CommandFault>
    ensures channels { IfOk result (λ channels. AreTextsOf channels words.now) }
    ensures fault { IfErr result (λ fault. IsChannelsFault fault words.now) }
{
    let mut channels = Channels::new(alloc);
    for place in 0..words.len() {
        let channel = read_channel(words.word(place))?;
        channels.push(channel)?;
    }
    Ok(channels)
}

fn read_channel(word: &[u8]) -> Result<Channel, CommandFault>
    ensures text { IfOk result (λ channel. word.now ≡ channel_text channel) }
    ensures channel { IfOk result IsChannel }
    ensures fault { IfErr result (λ fault. (fault ≡ CommandFault.BadChannel)
        × ¬ (IsChannelText word.now)) }
{
    match Channel::parse(word) {
        Ok(channel) => Ok(channel),
        Err(_) => Err(CommandFault::BadChannel),
    }
}
