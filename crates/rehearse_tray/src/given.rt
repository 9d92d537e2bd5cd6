// What the lines of a rehearsal give: its modules and its channel.
use lossy_channel::Channel;
use transactions::Socket;

// A module: its Link ID, and the octets of its message.
#[derive(Clone, Copy)]
pub struct Module {
    pub id: u32,
    pub length: usize,
}

// All that was given: the modules, each at its socket's place, and the channel. The messages stand beside it, at the same places.
#[derive(Clone, Copy)]
pub struct Given {
    pub modules: [Option<Module>; 8],
    pub channel: Option<Channel>,
}

impl Given {
    pub fn nothing() -> Given {
        Given {
            modules: [None; 8],
            channel: None,
        }
    }

    // Whether a module may be given: neither its socket nor its Link ID was given before.
    pub fn is_new(&self, socket: Socket, id: u32) -> bool {
        self.modules.iter().enumerate().all(|(place, given)| {
            given.is_none_or(|module| place != socket.place() && module.id != id)
        })
    }

    pub fn put_module(&mut self, socket: Socket, module: Module) {
        let place = socket.place();
        if place < 8 {
            self.modules[place] = Some(module);
        }
    }
}
