// The tray of a rehearsal: the station's records, the hosts of both ends at each socket, the channel between them, and the station's log.
use super::given::{Given, Module};
use super::log::Log;
use links::Link;
use lossy_channel::Channel;
use octets::LONGEST_MESSAGE;
use rehearsal_hosts::{DeviceHost, StationEnd, StationHost, new_device, new_station};
use station::AREA_LENGTH;
use transactions::Socket;

// A socket that has a module: its Link ID, and what the hosts of both ends keep.
#[derive(Clone, Copy)]
pub struct Served {
    pub id: u32,
    pub station: StationHost,
    pub device: DeviceHost,
}

#[derive(Drop)]
pub struct Tray {
    pub links: [Link; 8],
    // Each at its socket's place, as are the messages of the modules, and the areas of the station and of the devices.
    pub served: [Option<Served>; 8],
    pub messages: [u8; AREA_LENGTH],
    pub area: [u8; AREA_LENGTH],
    pub areas: [u8; AREA_LENGTH],
    pub channel: Channel,
    pub log: Log,
}

// A socket on which nothing is due.
fn begin(module: Module) -> Served {
    Served {
        id: module.id,
        station: new_station(),
        device: new_device(module.length),
    }
}

impl Tray {
    // No link, and nothing is due.
    pub fn new(given: Given, messages: [u8; AREA_LENGTH], log: Log) -> Tray {
        Tray {
            links: link_records::blank_links(),
            served: given.modules.map(|module| module.map(begin)),
            messages,
            area: [0; AREA_LENGTH],
            areas: [0; AREA_LENGTH],
            // Where no line gave a channel, none is lost and none comes twice.
            channel: given.channel.unwrap_or(lossy_channel::new(0, 0, 0)),
            log,
        }
    }

    // What is served at a socket, if it has a module.
    pub fn served_at(&self, socket: Socket) -> Option<Served> {
        let place = socket.place();
        if place < 8 { self.served[place] } else { None }
    }

    pub fn put_served(&mut self, socket: Socket, served: Served) {
        let place = socket.place();
        if place < 8 {
            self.served[place] = Some(served);
        }
    }

    // The station at a socket is so after a call.
    pub fn put_station(&mut self, socket: Socket, served: Served, end: StationEnd) {
        let StationEnd { links, host } = end;
        self.links = links;
        self.put_served(
            socket,
            Served {
                station: host,
                ..served
            },
        );
    }

    // The message of the module at a socket.
    pub fn message_at(&self, socket: Socket, length: usize) -> Option<&[u8]> {
        let mut messages = self.messages.chunks_exact(LONGEST_MESSAGE);
        messages.nth(socket.place())?.get(..length)
    }
}
