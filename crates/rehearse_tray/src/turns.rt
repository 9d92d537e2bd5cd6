// The turns of the ends: an end sends one frame, if it has one to send, and the channel brings it to the other end, or does not.
use super::tray::{Served, Tray};
use lossy_channel::Fate;
use octets::{LONGEST_MESSAGE, Written};
use rehearsal_hosts::{INVITE_LENGTH, Sending, StationEnd, TIMED_OUT};
use transactions::Socket;

// The own UUID of the device at a socket.
fn uuid_of(socket: Socket) -> [u8; 16] {
    [
        0x70, 0xCF, 0x7C, 0x97, 0x32, 0xA3, 0x45, 0xB6, 0x91, 0x49, 0x48, 0x10, 0xD2, 0xE9, 0xCB,
        socket.0,
    ]
}

// The octets of a frame that is to be sent.
fn write_sending(
    sending: Sending,
    id: u32,
    socket: Socket,
    message: &[u8],
    frame: &mut [u8],
) -> Written {
    match sending {
        Sending::Open => control_writing::write_open(id, &uuid_of(socket), frame),
        Sending::Ack => control_writing::write_ack(id, frame),
        Sending::Close { reason } => control_writing::write_close(id, reason, frame),
        Sending::Acknowledgement(number) => {
            pb_adv_writing::write_acknowledgement(id, number, frame)
        }
        Sending::Segment { number, index } => {
            pb_adv_writing::write_segment(id, number, message, index as usize, frame)
        }
    }
}

// The frame that is to be sent, in the room that is lent.
fn frame_of<'a>(
    sending: Sending,
    id: u32,
    socket: Socket,
    message: &[u8],
    room: &'a mut [u8],
) -> Option<&'a [u8]> {
    match write_sending(sending, id, socket, message, room) {
        Ok(n) => room.get(..n),
        // Never: the hosts send segments that their messages have, and there is room for any frame.
        Err(_) => None,
    }
}

impl Tray {
    // A frame goes through the channel: how often it comes out.
    fn carry(&mut self) -> u8 {
        let carried = lossy_channel::carry(self.channel);
        self.channel = carried.channel;
        match carried.fate {
            Fate::Lost => 0,
            Fate::Once => 1,
            Fate::Twice => 2,
        }
    }

    // Opens the socket, if it has a module.
    pub fn open_socket<P: Print + Eprint>(&mut self, rt: &P, socket: Socket) {
        let Some(served) = self.served_at(socket) else {
            return;
        };
        let id = served.id;
        self.log
            .put(rt, |room| log_lines::write_opening(socket, id, room));
        let end = StationEnd {
            links: self.links,
            host: served.station,
        };
        self.put_station(socket, served, rehearsal_hosts::open_link(end, socket, id));
    }

    // The device at a socket hears a frame.
    fn device_hears(&mut self, socket: Socket, frame: &[u8]) {
        let Some(served) = self.served_at(socket) else {
            return;
        };
        let mut areas = self.areas.chunks_exact_mut(LONGEST_MESSAGE);
        // Never: there is an area for each socket.
        let Some(area) = areas.nth(socket.place()) else {
            return;
        };
        let device = rehearsal_hosts::device_hears(served.device, &uuid_of(socket), area, frame);
        self.put_served(socket, Served { device, ..served });
    }

    // A frame that the station sends.
    fn send_to_device<P: Print + Eprint>(&mut self, rt: &P, socket: Socket, frame: &[u8]) {
        self.log.put(rt, |room| log_lines::write_sent(frame, room));
        let times = self.carry();
        for _ in 0..times {
            self.device_hears(socket, frame);
        }
    }

    // The station makes a call at a socket, and sends what it then has to send.
    fn station_sends<P: Print + Eprint, F: FnOnce(StationEnd) -> StationEnd>(
        &mut self,
        rt: &P,
        socket: Socket,
        call: F,
    )
        requires { F.IsAlwaysCallable call }
    {
        let Some(served) = self.served_at(socket) else {
            return;
        };
        let end = call(StationEnd {
            links: self.links,
            host: served.station,
        });
        let next = rehearsal_hosts::station_next(end, socket);
        self.put_station(socket, served, next.end);
        let Some(sending) = next.sending else {
            return;
        };
        // An Invite, for no attention.
        let invite = [0u8; INVITE_LENGTH];
        let mut room = [0u8; 29];
        if let Some(frame) = frame_of(sending, served.id, socket, &invite, &mut room) {
            self.send_to_device(rt, socket, frame);
        }
    }

    // The station's turn at a socket.
    pub fn station_turn<P: Print + Eprint>(&mut self, rt: &P, socket: Socket) {
        self.station_sends(rt, socket, |end| {
            rehearsal_hosts::close_answered(end, socket)
        });
    }

    // The station gives a socket up: it closes the link, and sends a Close that is due.
    pub fn give_up<P: Print + Eprint>(&mut self, rt: &P, socket: Socket) {
        self.station_sends(rt, socket, |end| {
            rehearsal_hosts::close_link(end, socket, TIMED_OUT)
        });
    }

    // The station hears a frame of the module at a socket, and has it in its log.
    fn station_hears<P: Print + Eprint>(&mut self, rt: &P, socket: Socket, frame: &[u8]) {
        let Some(served) = self.served_at(socket) else {
            return;
        };
        self.log.put(rt, |room| log_lines::write_heard(frame, room));
        let end = StationEnd {
            links: self.links,
            host: served.station,
        };
        let heard = rehearsal_hosts::station_hears(end, socket, &mut self.area, frame);
        self.put_station(socket, served, heard);
    }

    // A frame that a device sends.
    fn send_to_station<P: Print + Eprint>(&mut self, rt: &P, socket: Socket, frame: &[u8]) {
        let times = self.carry();
        for _ in 0..times {
            self.station_hears(rt, socket, frame);
        }
    }

    // The turn of the device at a socket.
    pub fn device_turn<P: Print + Eprint>(&mut self, rt: &P, socket: Socket) {
        let Some(served) = self.served_at(socket) else {
            return;
        };
        let next = rehearsal_hosts::device_next(served.device);
        self.put_served(
            socket,
            Served {
                device: next.end,
                ..served
            },
        );
        let Some(sending) = next.sending else {
            return;
        };
        // Never: there is room for the longest message at each socket.
        let Some(message) = self.message_at(socket, served.device.length) else {
            return;
        };
        let mut room = [0u8; 29];
        if let Some(frame) = frame_of(sending, served.id, socket, message, &mut room) {
            self.send_to_station(rt, socket, frame);
        }
    }
}
