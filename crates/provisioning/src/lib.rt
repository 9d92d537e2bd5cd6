// Provisioning messages, read: the message by its name with its fields, or refusals 41 to 45.
#![tactic(auto)]

mod reading;

pub use reading::read_message;

// A field of more than two octets, by its place in the message, the type octet at 0, and its length.
#[derive(Clone, Copy)]
pub struct Field {
    pub place: usize,
    pub length: usize,
}

// What a device can do. Its numbers, and those of a choice, stay numbers: a message tells any that isn't prohibited as it stands (message_of).
#[derive(Clone, Copy, PartialEq, Eq)]
pub struct Capabilities {
    pub elements: u8,
    pub algorithms: u16,
    pub public_key_type: u8,
    pub static_oob_type: u8,
    pub output_oob_size: u8,
    pub output_oob_action: u16,
    pub input_oob_size: u8,
    pub input_oob_action: u16,
}

// What the provisioner has chosen.
#[derive(Clone, Copy)]
pub struct Choice {
    pub algorithm: u8,
    pub public_key: u8,
    pub method: u8,
    pub action: u8,
    pub size: u8,
}

// Why octets are no message.
#[derive(Clone, Copy, Debug, PartialEq, Eq)]
pub enum MessageRefusal {
    // Refusal 41.
    Empty,
    // Refusal 42: the first octet is 0x40 or above.
    Padding,
    // Refusal 43: the type is 0x0A to 0x3F.
    UnknownType,
    // Refusal 44.
    WrongLength,
    // Refusal 45.
    Prohibited,
}

// What octets say as a provisioning message.
#[derive(Clone, Copy)]
pub enum Message {
    Invite { attention: u8 },
    Capabilities(Capabilities),
    Start(Choice),
    PublicKey { x: Field, y: Field },
    InputComplete,
    Confirmation { confirmation: Field },
    Random { random: Field },
    Data { encrypted: Field, mic: Field },
    Complete,
    Failed { code: u8 },
}
