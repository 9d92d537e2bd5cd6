// Document 01's numbers of refusals, for programs that print them. Each is the number that the definitions give.
// They stay functions: a `From` has to stand in the crate of its enum, and this one table would lie in five.
#![tactic(auto)]

ghost use Rattle.std.specs.Prelude.{◌≡◌};
ghost use Rattle.links.specs.Links.{refusal_number as stationNumber};
ghost use Rattle.provisioning.specs.Message.{refusal_number as message_number};
ghost use Rattle.proxy.specs.Transfers.{refusal_number as pieceNumber};
ghost use Rattle.filter_messages.specs.Messages.{refusal_number as filterNumber};
ghost use Rattle.beacon.specs.Beacons.{refusal_number as beaconNumber};

use beacon::BeaconRefusal;
use filter_messages::FilterRefusal;
use links::Refusal;
use provisioning::MessageRefusal;
use proxy::PieceRefusal;

// Of the station's calls.
pub fn of_station(refusal: Refusal) -> u8
    ensures { result ≡ stationNumber refusal }
{
    match refusal {
        Refusal::Malformed => 1,
        Refusal::UnknownOpcode => 2,
        Refusal::UnknownLink => 3,
        Refusal::NotOpen => 4,
        Refusal::WrongDirection => 5,
        Refusal::NotBegun => 6,
        Refusal::Mismatch => 7,
        Refusal::WrongCheck => 8,
        Refusal::SocketInUse => 9,
        Refusal::LinkIdInUse => 10,
        Refusal::WrongArgument => 11,
        Refusal::NotOutstanding => 12,
        Refusal::Outstanding => 13,
        Refusal::BadState => 14,
        Refusal::OtherUuid => 15,
        Refusal::Busy => 16,
    }
}

// Of the reader of provisioning messages.
pub fn of_message(refusal: MessageRefusal) -> u8
    ensures { result ≡ message_number refusal }
{
    match refusal {
        MessageRefusal::Empty => 41,
        MessageRefusal::Padding => 42,
        MessageRefusal::UnknownType => 43,
        MessageRefusal::WrongLength => 44,
        MessageRefusal::Prohibited => 45,
    }
}

// Of a proxy piece.
pub fn of_piece(refusal: PieceRefusal) -> u8
    ensures { result ≡ pieceNumber refusal }
{
    match refusal {
        PieceRefusal::WrongArgument => 11,
        PieceRefusal::BadState => 14,
        PieceRefusal::Disconnected => 26,
        PieceRefusal::NoData => 21,
        PieceRefusal::ReservedType => 22,
        PieceRefusal::UnexpectedTopBits => 23,
        PieceRefusal::OtherType => 24,
        PieceRefusal::TooLong => 25,
    }
}

// Of the filter's calls.
pub fn of_filter(refusal: FilterRefusal) -> u8
    ensures { result ≡ filterNumber refusal }
{
    match refusal {
        FilterRefusal::BadState => 14,
        FilterRefusal::Empty => 31,
        FilterRefusal::UnknownOpcode => 32,
        FilterRefusal::WrongLength => 33,
        FilterRefusal::UnknownType => 34,
        FilterRefusal::NotUnicast => 35,
    }
}

// Of beacons and the local key calls.
pub fn of_beacon(refusal: BeaconRefusal) -> u8
    ensures { result ≡ beaconNumber refusal }
{
    match refusal {
        BeaconRefusal::BadState => 14,
        BeaconRefusal::Empty => 51,
        BeaconRefusal::UnknownType => 52,
        BeaconRefusal::WrongLength => 53,
        BeaconRefusal::NotAuthentic => 54,
        BeaconRefusal::WrongKey => 55,
        BeaconRefusal::NotAllowed => 56,
        BeaconRefusal::OutOfWindow => 57,
    }
}
