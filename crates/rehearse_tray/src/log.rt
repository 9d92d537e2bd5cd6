// The station's log: its lines, behind the text that waits for standard output.
use lines::Streams;
use octets::Written;

// How far the program has come in its input and its output, and the text that waits for standard output.
#[derive(Drop)]
pub struct Log {
    pub streams: Streams,
    pub output: [u8; 65536],
}

impl Log {
    // Before the first line.
    pub fn new() -> Log {
        Log {
            streams: lines::start(),
            output: io::large_buffer(),
        }
    }

    // Puts a line behind the text that waits, so that it waits too.
    pub(super) fn put<P: Print + Eprint, F: FnOnce(&mut [u8]) -> Written>(
        &mut self,
        rt: &P,
        write: F,
    )
        requires { F.IsAlwaysCallable write }
    {
        let streams = lines::make_room(rt, self.streams, &self.output, log_lines::MOST);
        let answer = write(&mut self.output[streams.waiting..]);
        self.streams = match answer {
            Ok(n) => lines::add_waiting(streams, &self.output, n),
            // Never: there is room for any line.
            Err(_) => streams,
        };
    }
}
