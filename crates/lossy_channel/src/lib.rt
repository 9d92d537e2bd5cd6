// A channel that loses and repeats frames as a seed says: the same seed, the same fates. Its numbers are those of the generator that Park and Miller
// published in 1988, with their later multiplier; C++ has it as minstd_rand.
#![tactic(auto)]

ghost use Rattle.std.specs.Prelude.{◌≡◌};
ghost use Rattle.lossy_channel.specs.Channels.{new_channel, drawn, fate_of, carried};

#[derive(Clone, Copy)]
pub struct Channel {
    // The number drawn last.
    pub number: u32,
    // Of a hundred frames how many are lost, and of a hundred others how many come twice.
    pub lost: u8,
    pub repeated: u8,
}

// What becomes of a frame on its way.
#[derive(Clone, Copy)]
pub enum Fate {
    Lost,
    Once,
    Twice,
}

// The channel after a frame, and what became of the frame.
#[derive(Clone, Copy)]
pub struct Carried {
    pub channel: Channel,
    pub fate: Fate,
}

// The channel of a seed.
pub fn new(seed: u32, lost: u8, repeated: u8) -> Channel
    ensures { result ≡ new_channel seed lost repeated }
{
    Channel {
        number: seed % 2147483646 + 1,
        lost,
        repeated,
    }
}

// Draws the next number.
pub fn draw(channel: Channel) -> Channel
    ensures { result ≡ drawn channel }
{
    let number = u64::from(channel.number) * 48271 % 2147483647;
    Channel {
        number: number as u32,
        ..channel
    }
}

// The fate of a frame by the two numbers drawn for it.
fn fate_of(channel: Channel, first: u32, second: u32) -> Fate
    ensures { result ≡ fate_of channel first second }
{
    if first % 100 < u32::from(channel.lost) {
        return Fate::Lost;
    }
    if second % 100 < u32::from(channel.repeated) {
        return Fate::Twice;
    }
    Fate::Once
}

// A frame on its way.
pub fn carry(channel: Channel) -> Carried
    ensures { result ≡ carried channel }
{
    let first = draw(channel);
    let second = draw(first);
    Carried {
        channel: second,
        fate: fate_of(channel, first.number, second.number),
    }
}
