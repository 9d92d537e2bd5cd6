// The messages of the proxy filter: what one asks for, and the status that answers it.
#![tactic(auto)]

ghost use Rattle.std.specs.Prelude.{◌≡◌, ◌<◌, length};
ghost use Rattle.filter_messages.specs.Messages.{type_number, type_numbered, type_of, change_of, request_of, status_octets};

#[derive(Clone, Copy)]
pub enum FilterType {
    AcceptList,
    RejectList,
}

// What is done with an address.
#[derive(Clone, Copy)]
pub enum Change {
    Add,
    Remove,
}

#[derive(Clone, Copy, Debug, PartialEq, Eq)]
pub enum FilterRefusal {
    BadState,
    Empty,
    UnknownOpcode,
    WrongLength,
    UnknownType,
    NotUnicast,
}

// What a message asks for.
#[derive(Clone, Copy)]
pub enum Request {
    SetType(FilterType),
    Change(Change),
}

// A filter's type, and how many addresses it holds.
#[derive(Clone, Copy)]
pub struct Status {
    pub kind: FilterType,
    pub count: u8,
}

// The octet of a type.
impl From<FilterType> for u8 {
    ghost from_gives = { λ kind octet. octet ≡ type_number kind };

    fn from(kind: FilterType) -> u8 {
        match kind {
            FilterType::AcceptList => 0,
            FilterType::RejectList => 1,
        }
    }
}

// The type of an octet.
impl TryFrom<u8> for FilterType {
    type Error = FilterRefusal;

    ghost try_from_gives = { λ octet kind. kind ≡ type_numbered octet };

    fn try_from(octet: u8) -> Result<Self, FilterRefusal> {
        match octet {
            0 => Ok(FilterType::AcceptList),
            1 => Ok(FilterType::RejectList),
            _ => Err(FilterRefusal::UnknownType),
        }
    }
}

// What a message to set the type asks for.
fn type_of(message: &[u8]) -> Result<Request, FilterRefusal>
    ensures { result ≡ type_of message.now }
{
    let [_, octet] = *message else {
        return Err(FilterRefusal::WrongLength);
    };
    let kind = FilterType::try_from(octet)?;
    Ok(Request::SetType(kind))
}

// What a message to add or to remove addresses asks for.
fn change_of(change: Change, message: &[u8]) -> Result<Request, FilterRefusal>
    requires { 0 < length message.now }
    ensures { result ≡ change_of change message.now }
{
    let octets = message.len() - 1;
    if octets <= 32 && octets % 2 == 0 {
        Ok(Request::Change(change))
    } else {
        Err(FilterRefusal::WrongLength)
    }
}

// What a message asks for.
pub fn request_of(message: &[u8]) -> Result<Request, FilterRefusal>
    ensures { result ≡ request_of message.now }
{
    if message.is_empty() {
        return Err(FilterRefusal::Empty);
    }
    match message[0] {
        0 => type_of(message),
        1 => change_of(Change::Add, message),
        2 => change_of(Change::Remove, message),
        _ => Err(FilterRefusal::UnknownOpcode),
    }
}

// The four octets of a filter status message.
pub fn status_octets(kind: FilterType, count: u8) -> [u8; 4]
    ensures { result ≡ status_octets kind count }
{
    [3, kind.into(), 0, count]
}
